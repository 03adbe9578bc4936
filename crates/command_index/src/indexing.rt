// The index of entries.

ghost use Rattle.std.specs.Prelude.{◌≡◌, ◌<◌, ◌∷◌, ◌^◌, ◌+◌, IfOk, OnOk, length};
ghost use Rattle.desk_history.specs.Courses.{history_of};
ghost use Rattle.desk_history.specs.Histories.{History};
ghost use Rattle.command_index.specs.Maps.{place_at};
ghost use Rattle.command_index.specs.Places.{IsIndexOf, command_count};

use crate::index::{CommandIndex, CommandPlace};
use desk_history::Entry;
use std::alloc::{AllocError, Global};

// Adds an entry at a place, behind so many commands; the number of commands with it.
fn add_entry(
    index: &mut CommandIndex,
    entry: &Entry,
    place: u64,
    commands: u64,
) -> Result<u64, AllocError>
    requires { commands < 2 ^ 63 }
    ensures index { OnOk result ((H : History) → length H ≡ place → command_count H ≡ commands → IsIndexOf H (place_at index.old) → IsIndexOf (entry.now ∷ H) (place_at index.new)) }
    ensures commands { IfOk result (λ more. (H : History) → command_count H ≡ commands → more ≡ command_count (entry.now ∷ H)) }
{
    match entry {
        Entry::Accepted { caller, number, .. } => {
            let at = CommandPlace {
                entry: place,
                command: commands,
            };
            index.add(caller, *number, at)?;
            Ok(commands + 1)
        }
        _ => Ok(commands),
    }
}

/// The index of the commands among entries in the order of time.
pub fn index_of(alloc: Global, entries: &Vec<Entry>) -> Result<CommandIndex, AllocError>
    ensures { IfOk result (λ index. IsIndexOf (history_of entries.now) (place_at index)) }
{
    let mut index = CommandIndex::new(alloc);
    let mut commands = 0;
    let mut place = 0;
    for entry in entries.iter() {
        commands = add_entry(&mut index, entry, place, commands)?;
        place += 1;
    }
    Ok(index)
}
