//! Turns against the clock.
ghost use Rattle.std.specs.Prelude.{◌≡◌, None};

use std::alloc::Global;
use std::sync::Wait;
use std::thread;
use std::thread::Threads;
use turn_lock::{Grows, Made, Pass, TurnLock};

/// A number, which keeps no past.
#[derive(Drop)]
struct Tally {
    count: u64,
}

impl Grows for Tally {
    ghost use Rattle.std.specs.Prelude.{⊤, []};

    type Entry = u64;

    ghost past = { λ _. [] };

    ghost lawful = { λ _. ⊤ };

    fn length(&self) -> u64 {
        0
    }
}

// Takes so many turns, and counts them.
fn count_turns<R: Wait>(
    rt: &R,
    lock: &TurnLock<Tally>,
    mut pass: Pass<Tally>,
    count: u64,
) -> Pass<Tally>
    requires lock { pass.lock ≡ lock.now }
    requires free { pass.held ≡ None }
    ensures lock { result.lock ≡ pass.lock }
    ensures free { result.held ≡ None }
{
    for _ in 0..count {
        let Ok(mut tally) = lock.take(rt, &mut pass) else {
            return pass;
        };
        tally.count = tally.count.wrapping_add(1);
        lock.give(&mut pass, tally);
    }
    pass
}

/// Takes so many turns in two threads, half of them in each, and answers how many were counted.
pub fn turns<R: Threads + Wait + Sync>(rt: &R, alloc: Global, count: u64) -> u64 {
    let Ok(Made { lock, mut pass }) = TurnLock::new(alloc, Tally { count: 0 }) else {
        return 0;
    };
    let other = lock.split(&mut pass);
    let shared = &lock;
    let (mut pass, other) = thread::join(
        rt,
        move || -> Pass<Tally>
            requires { (pass.lock ≡ shared.now) × (pass.held ≡ None) }
            ensures { (result.lock ≡ shared.entry.now) × (result.held ≡ None) }
        { count_turns(rt, shared, pass, count / 2) },
        move || -> Pass<Tally>
            requires { (other.lock ≡ shared.now) × (other.held ≡ None) }
            ensures { (result.lock ≡ shared.entry.now) × (result.held ≡ None) }
        { count_turns(rt, shared, other, count / 2) },
    );
    lock.join(&mut pass, other);
    match lock.close(pass) {
        Some(tally) => tally.count,
        None => 0,
    }
}
