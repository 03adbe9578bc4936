// What a command repeats of the accepted ones.

ghost use Rattle.std.specs.Prelude.{◌≡◌, ◌↔◌, IfSome, IsErrOf, IsNone, IsSome, None, slice_get};
ghost use Rattle.std.specs.Option.{option_map};
ghost use Rattle.desk_history.specs.Courses.{history_of};
ghost use Rattle.desk_history.specs.Histories.{kept};
ghost use Rattle.desk_history.specs.SameCommands.{is_same_command};
ghost use Rattle.desk_history.specs.Steps.{answered_by, command_step};
ghost use Rattle.command_index.specs.Maps.{place_at};
ghost use Rattle.command_index.specs.Places.{IsIndexOf};
ghost use Rattle.command_index.specs.Repeats.{accepted_by, repeat_by, repeat_of};

use crate::index::CommandIndex;
use desk_history::{Answered, Done, Entry, Refusal};
use desk_keeper::{Command, Named};

/// A number of a caller comes again.
#[derive(Clone, Copy)]
pub enum Repeat {
    /// With the same command, which has this reply.
    Same {
        reply: Done,
    },
    /// With another command than the accepted one.
    Other {
        /// The place of that one among the accepted commands, from 0.
        entry: u64,
    },
}

// The commands are the same.
fn is_same_command(a: &Command, b: &Command) -> bool
    ensures { result ≡ is_same_command a.now b.now }
{
    a.is_same(b)
}

// The command at a place is asked again, or another one by its number.
fn repeat_by(place: u64, command: &Command, reply: Done, asked: &Command) -> Repeat
    ensures { result ≡ repeat_by (record { place = place; command = command.now; reply = reply }) asked.now }
{
    if is_same_command(command, asked) {
        return Repeat::Same { reply };
    }
    Repeat::Other { entry: place }
}

// The entry at a place, from 0 in the order of time.
fn entry_at(entries: &Vec<Entry>, place: u64) -> Option<&Entry>
    ensures { option_map (λ entry. entry.now) result ≡ slice_get entries.now.items place }
{
    entries.get(place as usize)
}

// What a command repeats of an entry, where that accepted one, which has this place among the accepted commands.
fn repeat_in(entry: Option<&Entry>, place: u64, asked: &Command) -> Option<Repeat>
    ensures { result ≡ repeat_of (accepted_by place (option_map (λ shown. shown.now) entry.entry)) asked.now }
{
    match entry {
        Some(Entry::Accepted { command, reply, .. }) => {
            Some(repeat_by(place, command, *reply, asked))
        }
        _ => None,
    }
}

/// What a command repeats, where one of its caller and number was accepted: in logarithmic time and without memory.
pub fn repeat_of(index: &CommandIndex, entries: &Vec<Entry>, named: &Named) -> Option<Repeat>
    requires { IsIndexOf (history_of entries.now) (place_at index.now) }
    ensures { result ≡ repeat_of (kept (history_of entries.now) named.now.caller named.now.number) named.now.command }
{
    let place = index.find(&named.caller, named.number)?;
    let entry = entry_at(entries, place.entry);
    repeat_in(entry, place.command, &named.command)
}

// The kept reply.
fn answered_by(reply: Done) -> Answered
    ensures { result ≡ answered_by reply }
{
    match reply {
        Done::Edited { edition } => Answered::Edited { edition },
        Done::Submitted { job } => Answered::Submitted { job },
        Done::Published { publication } => Answered::Published { publication },
        Done::Drawn {
            publication,
            ticket,
        } => Answered::Drawn {
            publication,
            ticket,
        },
    }
}

/// The answer to a command whose caller and number an accepted one has: the kept reply to the same command, and to another
/// one a refusal that names the accepted one. `None` where the number is new.
pub fn repeated(
    index: &CommandIndex,
    entries: &Vec<Entry>,
    named: &Named,
) -> Option<Result<Answered, Refusal>>
    requires { IsIndexOf (history_of entries.now) (place_at index.now) }
    ensures new { IsNone result ↔ (kept (history_of entries.now) named.now.caller named.now.number ≡ None) }
    ensures reply { IfSome result (λ reply. (command_step (history_of entries.now) named.now).reply ≡ reply) }
    ensures entry { IsSome result → (command_step (history_of entries.now) named.now).entry ≡ None }
    ensures keeper { IfSome result (λ reply. ¬ (IsErrOf reply Refusal.KeeperFault)) }
{
    match repeat_of(index, entries, named) {
        Some(Repeat::Same { reply }) => Some(Ok(answered_by(reply))),
        Some(Repeat::Other { entry }) => Some(Err(Refusal::IdReused { entry })),
        None => None,
    }
}
