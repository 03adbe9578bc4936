// What keeps rows does, and when it fails.

ghost use Rattle.std.specs.Prelude.{ℕ, List, Option};
ghost use Rattle.desk_keeper.specs.Keepers.{Appends, IsNext, KeepFails, Reads};

use std::alloc::Global;

/// Why a row wasn't kept or read.
#[derive(Clone, Copy, Debug, PartialEq, Eq)]
pub enum KeepFault {
    /// The keeper failed. It comes only where the keeper's count of faults rose in the call, or stands at
    /// 18,446,744,073,709,551,615, which a counter of 64 bits can't leave.
    Failed,
    /// Memory was wanting.
    Memory,
}

/// What keeps rows in their order, from place 0. It may stop telling its rows, but what it doesn't tell at one moment
/// it doesn't tell later: each clause on the rows stands where they are told after the call.
pub trait Keeper {
    /// How often it has failed. It may rise in any call, and never falls.
    ghost faults: { Self → ℕ };

    /// The rows that it keeps, where it tells them.
    ghost rows: { Self → Option (List (List ℕ)) };

    /// Keeps a row behind those that there are. `place` is their number. After a fault it keeps those that it kept.
    fn append(&mut self, alloc: Global, place: u64, row: &[u8]) -> Result<(), KeepFault>
        requires { IsNext (rows self.old) place }
        ensures rows { Appends (rows self.old) (rows self.new) result row.now }
        ensures cause { KeepFails (faults self.old) (faults self.new) result };

    /// The row at a place, or `None` where there are no more rows than `place` says.
    fn read(&mut self, alloc: Global, place: u64) -> Result<Option<Vec<u8>>, KeepFault>
        ensures rows { Reads (rows self.old) (rows self.new) result place }
        ensures cause { KeepFails (faults self.old) (faults self.new) result };
}
