// Whether two commands are the same.

ghost use Rattle.std.specs.Prelude.{◌≡◌, ◌↔◌, IsTrue};

use crate::words::{Command, EditWords, HowWords, TableWords};
use match_rules::Mode;

fn is_same_mode(a: Mode, b: Mode) -> bool
    ensures { IsTrue result ↔ (a ≡ b) }
{
    match (a, b) {
        (Mode::Whole, Mode::Whole) => true,
        (Mode::Fair, Mode::Fair) => true,
        _ => false,
    }
}

fn is_same_how(a: HowWords, b: HowWords) -> bool
    ensures { IsTrue result ↔ (a ≡ b) }
{
    match (a, b) {
        (HowWords::Merge, HowWords::Merge) => true,
        (HowWords::Replace, HowWords::Replace) => true,
        _ => false,
    }
}

fn is_same_table(a: &TableWords, b: &TableWords) -> bool
    ensures { IsTrue result ↔ (a.now ≡ b.now) }
{
    match (a, b) {
        (TableWords::Settings, TableWords::Settings) => true,
        (TableWords::Papers, TableWords::Papers) => true,
        (TableWords::Reviewers, TableWords::Reviewers) => true,
        (TableWords::Values { source }, TableWords::Values { source: other }) => {
            source.as_str() == other.as_str()
        }
        (TableWords::Bids, TableWords::Bids) => true,
        (TableWords::Marks, TableWords::Marks) => true,
        (TableWords::Caps, TableWords::Caps) => true,
        _ => false,
    }
}

fn is_same_edit(a: &EditWords, b: &EditWords) -> bool
    ensures { IsTrue result ↔ (a.now ≡ b.now) }
{
    if !is_same_table(&a.table, &b.table) {
        return false;
    }
    if !is_same_how(a.how, b.how) {
        return false;
    }
    a.body.as_slice() == b.body.as_slice()
}

impl Command {
    /// Whether two commands are the same in all that they say. Takes no memory.
    pub fn is_same(&self, other: &Command) -> bool
        ensures { IsTrue result ↔ (self.now ≡ other.now) }
    {
        match (self, other) {
            (Command::Edit { base, edit }, Command::Edit { base: b, edit: e }) => {
                *base == *b && is_same_edit(edit, e)
            }
            (Command::Submit { base, mode }, Command::Submit { base: b, mode: m }) => {
                *base == *b && is_same_mode(*mode, *m)
            }
            (Command::Publish { job }, Command::Publish { job: j }) => *job == *j,
            (
                Command::Draw { publication, text },
                Command::Draw {
                    publication: p,
                    text: t,
                },
            ) => { *publication == *p && text.as_slice() == t.as_slice() }
            _ => false,
        }
    }
}
