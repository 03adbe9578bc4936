// Draws: the ticket of a publication.

ghost use Rattle.std.specs.Prelude.{◌≡◌, ◌≤◌, ◌<◌, ◌+◌, ◌∷◌, ℕ, List, IfOk, IsErrOf, IsSome, None, OnOk, length, true, vec_capacity, vec_len};
ghost use Rattle.edge_io.specs.Counts.{Rose};
ghost use Rattle.publication.specs.Draws.{ticket_of};
ghost use Rattle.desk_keeper.specs.Keepers.{Tells};
ghost use Rattle.desk_keeper.specs.Names.{is_chair_name};
ghost use Rattle.desk_keeper.specs.declared.words.Command.TheVariants.{Draw};
ghost use Rattle.desk_history.specs.declared.refusals.TheConstants.{MOST_COMMANDS, MOST_ROW_BYTES};
ghost use Rattle.desk_history.specs.Courses.{AreKept, Does, history_of};
ghost use Rattle.desk_history.specs.Rows.{named, row_behind, rows};
ghost use Rattle.desk_history.specs.Steps.{accepted, new_step};
ghost use Rattle.job_desk.specs.Keeping.{AnswersCommand, HasRoom, IsDrawOf};

use crate::keeping::{append, note_accepted};
use crate::rows_of_commands::row_of_draw;
use desk_history::{Answered, Done, Entry, Refusal, Tables, reserve};
use desk_keeper::{Bytes, Command, Keeper, Name, Named};
use match_rules::RULES_TICKETS;
use publication::ticket_of;
use std::alloc::Global;

// The ticket that a text draws.
fn ticket_by(text: &Bytes) -> u32
    ensures { result ≡ ticket_of text.now RULES_TICKETS }
{
    ticket_of(text.as_slice(), RULES_TICKETS)
}

// A draw of this ticket is accepted, whose row has so many bytes.
fn note_draw(
    entries: &mut Vec<Entry>,
    tables: &mut Tables,
    named: Named,
    publication: u64,
    ticket: u32,
    more: u64,
)
    requires command { IsDrawOf named.command publication ticket }
    requires kept { AreKept entries.old tables.old }
    requires room { vec_len entries.old + 17 ≤ vec_capacity entries.old }
    requires commands { tables.old.commands < MOST_COMMANDS }
    requires bytes { tables.old.bytes + more ≤ MOST_ROW_BYTES }
    requires more { more ≡ length (row_behind (history_of entries.old) named None) }
    ensures entry { history_of entries.new ≡ accepted (history_of entries.old) named None ∷ history_of entries.old }
    ensures kept { AreKept entries.new tables.new }
{
    tables.note_draw(publication, ticket, more);
    note_accepted(
        entries,
        named,
        Done::Drawn {
            publication,
            ticket,
        },
    );
}

// What a draw needs before it is kept: its row, and room. Or why it is refused.
fn prepare(
    alloc: Global,
    entries: &mut Vec<Entry>,
    tables: &Tables,
    named: &Named,
    publication: u64,
) -> Result<Vec<u8>, Refusal>
    requires command { (text : List ℕ) × (named.now.command ≡ Draw publication text) }
    requires caller { is_chair_name named.now.caller ≡ true }
    requires kept { AreKept entries.old tables.now }
    requires bytes { tables.now.bytes ≤ MOST_ROW_BYTES }
    ensures row { AnswersCommand (history_of entries.old) named.now result }
    ensures room { IfOk result (HasRoom tables.now.commands tables.now.bytes) }
    ensures place { OnOk result (vec_len entries.new + 17 ≤ vec_capacity entries.new) }
    ensures same { entries.new.items ≡ entries.old.items }
    ensures kept { AreKept entries.new tables.now }
{
    let row = match row_of_draw(alloc, tables, named, publication) {
        Ok(row) => row,
        Err(refusal) => return Err(refusal),
    };
    match reserve(entries) {
        Ok(()) => Ok(row),
        Err(_) => Err(Refusal::Memory),
    }
}

/// A draw of a chair whose number is new: it is kept as a row behind those of the history, and draws the ticket of its
/// text; or it is refused, and all is as it was. All memory is taken before the row is kept.
pub fn draw<P: Keeper>(
    alloc: Global,
    keeper: &mut P,
    entries: &mut Vec<Entry>,
    tables: &mut Tables,
    caller: Name,
    number: u64,
    publication: u64,
    text: Bytes,
) -> Result<Answered, Refusal>
    requires caller { is_chair_name caller ≡ true }
    requires kept { AreKept entries.old tables.old }
    requires bytes { tables.old.bytes ≤ MOST_ROW_BYTES }
    requires told { Tells (P.rows keeper.old) (rows (history_of entries.old)) }
    ensures step { Does (new_step (history_of entries.old) (named caller number (Draw publication text))) (history_of entries.old) result (history_of entries.new) }
    ensures kept { AreKept entries.new tables.new }
    ensures told { Tells (P.rows keeper.new) (rows (history_of entries.new)) }
    ensures untold { IsSome (P.rows keeper.new) → IsSome (P.rows keeper.old) }
    ensures later { P.faults keeper.old ≤ P.faults keeper.new }
    ensures fault { IsErrOf result Refusal.KeeperFault → Rose (P.faults keeper.old) (P.faults keeper.new) }
{
    let ticket = ticket_by(&text);
    let named = Named {
        caller,
        number,
        command: Command::Draw { publication, text },
    };
    let row = match prepare(alloc, entries, tables, &named, publication) {
        Ok(row) => row,
        Err(refusal) => return Err(refusal),
    };
    match append(alloc, keeper, tables.commands, row.as_slice()) {
        Ok(()) => {}
        Err(refusal) => return Err(refusal),
    }
    note_draw(
        entries,
        tables,
        named,
        publication,
        ticket,
        row.len() as u64,
    );
    Ok(Answered::Drawn {
        publication,
        ticket,
    })
}
