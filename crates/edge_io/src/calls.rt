// The calls of an object in memory, of which those with listed numbers fail.
ghost use Rattle.std.specs.Prelude.{◌≡◌, ◌+◌};
ghost use Rattle.edge_io.specs.Counts.{HasCause};
ghost use Rattle.edge_io.specs.Memory.{is_listed, Counted};

use crate::Io;
use std::marker::Model;

/// Counts the calls of an object in memory, and has those with listed numbers fail.
/// Both counts stay at 18,446,744,073,709,551,615 once they are there; no later call fails, since no number is greater.
#[derive(Drop)]
pub struct Calls {
    made: u64,
    faults: u64,
    fails: Vec<u64>,
}

impl Model for Calls {
    ghost use Rattle.edge_io.specs.Memory.{CallsSoFar};

    ghost Value = { CallsSoFar };

    ghost view = { λ c. record { made = c.made; faults = c.faults; fails = c.fails.items } };
}

impl Calls {
    /// No call was made yet. The first has the number 1. Takes no memory.
    pub fn new(fails: Vec<u64>) -> Calls
        ensures { result ≡ record { made = 0; faults = 0; fails = fails.items } }
    {
        Calls {
            made: 0,
            faults: 0,
            fails,
        }
    }

    /// Counts the next call, and answers `Failed` exactly where its number is listed. Takes no memory.
    pub fn begin(&mut self) -> Result<(), Io>
        ensures counted { Counted self.old self.new result }
        ensures cause { HasCause self.old.faults self.new.faults result }
    {
        let failed = is_next_listed(self.made, &self.fails);
        self.made = self.made.saturating_add(1);
        if failed {
            self.faults = self.faults.saturating_add(1);
            return Err(Io::Failed);
        }
        Ok(())
    }
}

// Whether the number of the next call is in the list.
fn is_next_listed(made: u64, fails: &[u64]) -> bool
    ensures { result ≡ is_listed (made + 1) fails.now }
{
    match made.checked_add(1) {
        Some(number) => fails.contains(&number),
        None => false,
    }
}
