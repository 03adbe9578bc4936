// Accepted commands are noted: their entries, and what these change in the tables.

ghost use Rattle.std.specs.Prelude.{◌≡◌, ◌<◌, ◌≤◌, ◌+◌, ◌∷◌, None, Ok, length, vec_capacity, vec_len};
ghost use Rattle.publication.specs.Draws.{ticket_of};
ghost use Rattle.venue_rules.specs.VenueRules.{rules_of};
ghost use Rattle.desk_keeper.specs.declared.words.Command.TheVariants.{Draw, Edit, Publish, Submit};
ghost use Rattle.desk_history.specs.declared.entries.Entry.TheVariants.{Accepted};
ghost use Rattle.desk_history.specs.Courses.{AreKept, history_of};
ghost use Rattle.desk_history.specs.Histories.{present, put};
ghost use Rattle.desk_history.specs.Rows.{named, row_behind};
ghost use Rattle.desk_history.specs.Steps.{accepted};

use crate::benches::push;
use crate::entries::{Done, Entry};
use crate::refusals::{MOST_COMMANDS, MOST_ROW_BYTES};
use crate::tables::Tables;
use desk_keeper::{Bytes, Command, EditWords, Name, Named};
use editions::Edited;
use match_rules::{Mode, RULES_TICKETS};
use publication::{Certificate, ticket_of};

/// A command is accepted, with this reply and with what was read with it from its row. There has to be room for its entry.
pub fn note_accepted(entries: &mut Vec<Entry>, named: Named, reply: Done, read: Option<Certificate>)
    requires { vec_len entries.old < vec_capacity entries.old }
    ensures entry { history_of entries.new ≡ Accepted named.caller named.number named.command reply read ∷ history_of entries.old }
    ensures len { vec_len entries.new ≡ vec_len entries.old + 1 }
    ensures capacity { vec_capacity entries.old ≤ vec_capacity entries.new }
{
    let Named {
        caller,
        number,
        command,
    } = named;
    push(
        entries,
        Entry::Accepted {
            caller,
            number,
            command,
            reply,
            read,
        },
    );
}

/// An edit to this edition is accepted, whose row has so many bytes.
pub fn note_edit(
    entries: &mut Vec<Entry>,
    tables: &mut Tables,
    caller: Name,
    number: u64,
    base: u64,
    edit: EditWords,
    edited: Edited,
    more: u64,
)
    requires venue { put (present (history_of entries.old)) edit ≡ Ok edited.venue }
    requires rules { rules_of edited.venue ≡ Ok edited.rules }
    requires kept { AreKept entries.old tables.old }
    requires room { vec_len entries.old + 17 ≤ vec_capacity entries.old }
    requires commands { tables.old.commands < MOST_COMMANDS }
    requires bytes { tables.old.bytes + more ≤ MOST_ROW_BYTES }
    requires more { more ≡ length (row_behind (history_of entries.old) (named caller number (Edit base edit)) None) }
    ensures entry { history_of entries.new ≡ accepted (history_of entries.old) (named caller number (Edit base edit)) None ∷ history_of entries.old }
    ensures kept { AreKept entries.new tables.new }
{
    let reply = Done::Edited {
        edition: tables.edits + 1,
    };
    let Edited { venue, rules } = edited;
    tables.note_edit(venue, rules, more);
    let named = Named {
        caller,
        number,
        command: Command::Edit { base, edit },
    };
    note_accepted(entries, named, reply, None);
}

/// A submit is accepted, whose row has so many bytes. There has to be room for a job more.
pub fn note_submit(
    entries: &mut Vec<Entry>,
    tables: &mut Tables,
    caller: Name,
    number: u64,
    base: u64,
    mode: Mode,
    more: u64,
)
    requires kept { AreKept entries.old tables.old }
    requires room { vec_len entries.old + 17 ≤ vec_capacity entries.old }
    requires job { vec_len tables.old.jobs < vec_capacity tables.old.jobs }
    requires commands { tables.old.commands < MOST_COMMANDS }
    requires bytes { tables.old.bytes + more ≤ MOST_ROW_BYTES }
    requires more { more ≡ length (row_behind (history_of entries.old) (named caller number (Submit base mode)) None) }
    ensures entry { history_of entries.new ≡ accepted (history_of entries.old) (named caller number (Submit base mode)) None ∷ history_of entries.old }
    ensures kept { AreKept entries.new tables.new }
{
    let reply = Done::Submitted {
        job: tables.jobs.len() as u64 + 1,
    };
    tables.note_submit(mode, more);
    let named = Named {
        caller,
        number,
        command: Command::Submit { base, mode },
    };
    note_accepted(entries, named, reply, None);
}

/// A publish is accepted, with what was read with it from its row, which has so many bytes. There has to be room for a
/// publication more.
pub fn note_publish(
    entries: &mut Vec<Entry>,
    tables: &mut Tables,
    caller: Name,
    number: u64,
    job: u64,
    read: Option<Certificate>,
    more: u64,
)
    requires kept { AreKept entries.old tables.old }
    requires room { vec_len entries.old + 17 ≤ vec_capacity entries.old }
    requires publication { vec_len tables.old.publications < vec_capacity tables.old.publications }
    requires commands { tables.old.commands < MOST_COMMANDS }
    requires bytes { tables.old.bytes + more ≤ MOST_ROW_BYTES }
    requires more { more ≡ length (row_behind (history_of entries.old) (named caller number (Publish job)) read) }
    ensures entry { history_of entries.new ≡ accepted (history_of entries.old) (named caller number (Publish job)) read ∷ history_of entries.old }
    ensures kept { AreKept entries.new tables.new }
{
    let reply = Done::Published {
        publication: tables.publications.len() as u64 + 1,
    };
    tables.note_publish(job, &read, entries.len() as u64, more);
    let named = Named {
        caller,
        number,
        command: Command::Publish { job },
    };
    note_accepted(entries, named, reply, read);
}

// The ticket that a text draws.
fn ticket_by(text: &Bytes) -> u32
    ensures { result ≡ ticket_of text.now RULES_TICKETS }
{
    ticket_of(text.as_slice(), RULES_TICKETS)
}

/// A draw is accepted, whose row has so many bytes.
pub fn note_draw(
    entries: &mut Vec<Entry>,
    tables: &mut Tables,
    caller: Name,
    number: u64,
    publication: u64,
    text: Bytes,
    more: u64,
)
    requires kept { AreKept entries.old tables.old }
    requires room { vec_len entries.old + 17 ≤ vec_capacity entries.old }
    requires commands { tables.old.commands < MOST_COMMANDS }
    requires bytes { tables.old.bytes + more ≤ MOST_ROW_BYTES }
    requires more { more ≡ length (row_behind (history_of entries.old) (named caller number (Draw publication text)) None) }
    ensures entry { history_of entries.new ≡ accepted (history_of entries.old) (named caller number (Draw publication text)) None ∷ history_of entries.old }
    ensures kept { AreKept entries.new tables.new }
{
    let ticket = ticket_by(&text);
    tables.note_draw(publication, ticket, more);
    let named = Named {
        caller,
        number,
        command: Command::Draw { publication, text },
    };
    note_accepted(
        entries,
        named,
        Done::Drawn {
            publication,
            ticket,
        },
        None,
    );
}
