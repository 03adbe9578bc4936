//! A list of numbers to which entries are added.
ghost use Rattle.std.specs.Prelude.{◌≡◌, [], ◌++◌, ◌∷◌, None, Some, IfSome, slice_get, length};
ghost use mathlib.Core.List.{IsPrefix};

use std::alloc::Global;
use std::sync::Wait;
use turn_lock::{Grows, Pass, TurnLock};

/// Its past is its entries.
#[derive(Drop)]
pub struct Log {
    pub entries: Vec<u64>,
}

impl Grows for Log {
    ghost use Rattle.std.specs.Prelude.{⊤};

    type Entry = u64;

    ghost past = { λ l. l.entries.items };

    ghost lawful = { λ _. ⊤ };

    fn length(&self) -> u64 {
        self.entries.len() as u64
    }
}

pub fn empty(alloc: Global) -> Log {
    Log {
        entries: Vec::new(alloc),
    }
}

/// Takes a turn, adds an entry, and gives the turn back. It answers the place of the entry.
pub fn note<R: Wait>(rt: &R, lock: &TurnLock<Log>, pass: &mut Pass<Log>, entry: u64) -> Option<u64>
    requires lock { pass.old.lock ≡ lock.now }
    requires free { pass.old.held ≡ None }
    ensures lock { pass.new.lock ≡ pass.old.lock }
    ensures free { pass.new.held ≡ None }
    ensures noted { IfSome result (λ k. slice_get pass.new.seen k ≡ Some entry) }
    ensures later { IsPrefix pass.old.seen pass.new.seen }
{
    let Ok(mut log) = lock.take(rt, pass) else {
        return None;
    };
    let place = log.entries.len() as u64;
    let added = log.entries.push(entry).is_ok();
    lock.give(pass, log);
    if added { Some(place) } else { None }
}
