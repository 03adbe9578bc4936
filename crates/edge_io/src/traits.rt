// What reads and writes do, and when they fail.
ghost use Rattle.std.specs.Prelude.{◌≡◌, ◌<◌, ◌≤◌, ℕ, List, length, Option, IfOk};
ghost use Rattle.edge_io.specs.Counts.{HasCause};
ghost use Rattle.edge_io.specs.Told.{TakesLeft, Adds};

/// The fault of a read or a write. It comes only where the object's count of faults rose in the call, or stands at
/// 18,446,744,073,709,551,615, which a counter of 64 bits can't leave.
#[derive(Clone, Copy, Debug, PartialEq, Eq)]
pub enum Io {
    Failed,
}

/// Where bytes come from. It may stop telling what it gave or has left, but what it doesn't tell at one moment it
/// doesn't tell later: each clause on the bytes stands where they are told after the call.
pub trait Source {
    /// How often it has failed. It may rise in any call, and never falls.
    ghost faults: { Self → ℕ };

    /// The bytes that it has given, where it tells them.
    ghost given: { Self → Option (List ℕ) };

    /// The bytes still to come, where it tells them.
    ghost left: { Self → Option (List ℕ) };

    /// Puts the next bytes into the front of `room`, and answers how many: 0 exactly at the end.
    /// Behind them `room` may hold anything. After `Failed` nothing was taken from what is left. Takes no memory.
    fn read(&mut self, room: &mut [u8]) -> Result<usize, Io>
        requires { 0 < length room.old }
        ensures fits { IfOk result (λ n. n ≤ length room.new) }
        ensures left { TakesLeft (left self.old) (left self.new) result room.new }
        ensures given { Adds (given self.old) (given self.new) result room.new }
        ensures cause { HasCause (faults self.old) (faults self.new) result };
}

/// Where bytes go. It may stop telling what it took, but what it doesn't tell at one moment it doesn't tell later.
pub trait Sink {
    /// How often it has failed. It may rise in any call, and never falls.
    ghost faults: { Self → ℕ };

    /// The bytes that it has taken, where it tells them.
    ghost taken: { Self → Option (List ℕ) };

    /// Takes one or more bytes from the front of `piece`, and answers how many. An outside that takes none counts as
    /// a fault. Takes no memory.
    fn write(&mut self, piece: &[u8]) -> Result<usize, Io>
        requires { 0 < length piece.now }
        ensures some { IfOk result (λ n. 1 ≤ n) }
        ensures fits { IfOk result (λ n. n ≤ length piece.now) }
        ensures taken { Adds (taken self.old) (taken self.new) result piece.now }
        ensures cause { HasCause (faults self.old) (faults self.new) result };
}
