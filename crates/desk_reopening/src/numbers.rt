// The numbers that callers gave to their commands.

ghost use Rattle.std.specs.Prelude.{◌≡◌, ◌==◌, ◌&&◌, ◌||◌, ℕ, List, false, not, IfOk, bytes_eq};
ghost use Rattle.std.specs.Bool.{OnTrue};
ghost use Rattle.desk_reopening.specs.Numbers.{is_used};

use desk_keeper::Name;
use std::alloc::{AllocError, Global};
use std::collections::HashSet;

/// The callers and numbers of commands.
#[derive(Drop)]
pub struct Numbers {
    used: HashSet<(String, u64)>,
}

impl Numbers {
    /// None yet. Takes no memory.
    pub fn new(alloc: Global) -> Numbers
        ensures { (caller : List ℕ) (number : ℕ) → is_used result caller number ≡ false }
    {
        Numbers {
            used: HashSet::new(alloc),
        }
    }

    /// Adds the number of a caller; false where it was there.
    pub fn add(&mut self, alloc: Global, caller: &Name, number: u64) -> Result<bool, AllocError>
        ensures new { IfOk result (λ added. added ≡ not (is_used self.old caller.now number)) }
        ensures added { IfOk result (λ added. OnTrue added ((by : List ℕ) (its : ℕ) → is_used self.new by its ≡ (bytes_eq caller.now by && number == its || is_used self.old by its))) }
    {
        let name = String::from_str(alloc, caller.as_str())?;
        let added = self.used.insert((name, number))?;
        Ok(added)
    }
}
