// Places of commands by their callers and numbers.

ghost use Rattle.std.specs.Prelude.{◌≡◌, ◌==◌, ◌&&◌, ℕ, List, IfOk, None, Some, OnErr, OnOk, bytes_eq, if◌then◌else◌};
ghost use Rattle.std.specs.BTreeMap.{get};
ghost use Rattle.std.specs.Ordering.{nat_cmp};
ghost use Rattle.command_index.specs.Maps.{place_at};

use desk_keeper::Name;
use std::alloc::{AllocError, Global};
use std::collections::BTreeMap;

/// Where an accepted command stands.
#[derive(Clone, Copy)]
pub struct CommandPlace {
    /// The place of its entry among all entries, from 0.
    pub entry: u64,
    /// Its place among the accepted commands, from 0.
    pub command: u64,
}

/// The places of commands, each found by its caller and number in logarithmic time. Contracts say of it
/// what is found there.
#[derive(Drop)]
pub struct CommandIndex {
    alloc: Global,
    callers: BTreeMap<String, BTreeMap<u64, CommandPlace>>,
}

// Puts the place of a number.
fn put_number(
    numbers: &mut BTreeMap<u64, CommandPlace>,
    number: u64,
    place: CommandPlace,
) -> Result<(), AllocError>
    ensures put { OnOk result ((its : ℕ) → get nat_cmp numbers.new its ≡ (if number == its then Some place else get nat_cmp numbers.old its)) }
    ensures kept { OnErr result ((its : ℕ) → get nat_cmp numbers.new its ≡ get nat_cmp numbers.old its) }
{
    numbers.insert(number, place)?;
    Ok(())
}

// Takes the place of a number out.
fn drop_number(numbers: &mut BTreeMap<u64, CommandPlace>, number: u64)
    ensures { (its : ℕ) → get nat_cmp numbers.new its ≡ (if number == its then None else get nat_cmp numbers.old its) }
{
    numbers.remove(&number);
}

// The places of the first number of a caller.
fn first_number(
    alloc: Global,
    number: u64,
    place: CommandPlace,
) -> Result<BTreeMap<u64, CommandPlace>, AllocError>
    ensures { IfOk result (λ numbers. (its : ℕ) → get nat_cmp numbers its ≡ (if number == its then Some place else None)) }
{
    let mut numbers = BTreeMap::new(alloc);
    put_number(&mut numbers, number, place)?;
    Ok(numbers)
}

impl CommandIndex {
    /// An index without commands. Takes no memory.
    pub fn new(alloc: Global) -> Self
        ensures { (caller : List ℕ) (number : ℕ) → place_at result caller number ≡ None }
    {
        CommandIndex {
            alloc,
            callers: BTreeMap::new(alloc),
        }
    }

    /// The place of the command of a caller and number, without memory.
    pub fn find(&self, caller: &Name, number: u64) -> Option<CommandPlace>
        ensures { result ≡ place_at self.now caller.now number }
    {
        let numbers = self.callers.get(caller.as_str())?;
        numbers.get(&number).copied()
    }

    // The first command of a caller.
    fn add_caller(
        &mut self,
        caller: &Name,
        number: u64,
        place: CommandPlace,
    ) -> Result<(), AllocError>
        ensures put { OnOk result ((by : List ℕ) (its : ℕ) → place_at self.new by its ≡ (if bytes_eq caller.now by then (if number == its then Some place else None) else place_at self.old by its)) }
        ensures kept { OnErr result ((by : List ℕ) (its : ℕ) → place_at self.new by its ≡ place_at self.old by its) }
    {
        let numbers = first_number(self.alloc, number, place)?;
        let caller = String::from_str(self.alloc, caller.as_str())?;
        self.callers.insert(caller, numbers)?;
        Ok(())
    }

    /// Puts the place of the command of a caller and number.
    pub fn add(&mut self, caller: &Name, number: u64, place: CommandPlace) -> Result<(), AllocError>
        ensures put { OnOk result ((by : List ℕ) (its : ℕ) → place_at self.new by its ≡ (if bytes_eq caller.now by && number == its then Some place else place_at self.old by its)) }
        ensures kept { OnErr result ((by : List ℕ) (its : ℕ) → place_at self.new by its ≡ place_at self.old by its) }
    {
        if let Some(numbers) = self.callers.get_mut(caller.as_str()) {
            return put_number(numbers, number, place);
        }
        self.add_caller(caller, number, place)
    }

    /// Takes the place of the command of a caller and number out. Takes no memory.
    pub fn remove(&mut self, caller: &Name, number: u64)
        ensures { (by : List ℕ) (its : ℕ) → place_at self.new by its ≡ (if bytes_eq caller.now by && number == its then None else place_at self.old by its) }
    {
        if let Some(numbers) = self.callers.get_mut(caller.as_str()) {
            drop_number(numbers, number);
        }
    }
}
