// Why rows are not replayed.

ghost use Rattle.std.specs.Prelude.{Option};
ghost use Rattle.desk_history.specs.declared.refusals.Refusal.{Refusal};
ghost use Rattle.desk_history.specs.Refusals.{IsDue};
ghost use Rattle.desk_reopening.specs.Replaying.{IsFault};

use desk_history::Refusal;

/// Why a row is not replayed.
#[derive(Clone, Copy, Debug, PartialEq, Eq)]
pub enum ReplayFault {
    /// No history follows from the row.
    Damaged,
    /// Memory was wanting.
    Memory,
}

/// Why a desk is not opened again.
#[derive(Clone, Copy, Debug, PartialEq, Eq)]
pub enum OpenFault {
    /// Memory was wanting.
    Memory,
    /// The keeper failed. It comes only where the keeper's count of faults rose.
    Keeper,
    /// A row is damaged; no row before it is.
    Damaged {
        /// Its place, from 0.
        row: u64,
    },
}

/// A command that would be refused makes its row damaged.
pub fn fault_of(refusal: &Refusal) -> ReplayFault
    ensures { (due : Option Refusal) → IsDue due refusal.now → IsFault due result }
{
    match refusal {
        Refusal::Memory => ReplayFault::Memory,
        _ => ReplayFault::Damaged,
    }
}
