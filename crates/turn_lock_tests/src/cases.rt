//! What one thread sees of its passes.
ghost use Rattle.std.specs.Prelude.{◌≡◌, None};

use crate::log::{empty, note};
use std::alloc::Global;
use std::sync::Wait;
use turn_lock::{Made, TurnLock};

/// The turns of the first pass, of both after a split and of one after a turn, how many entries the other then finds,
/// the turns after a join, and how many entries a close gives.
pub fn turns<R: Wait>(rt: &R, alloc: Global) -> Option<[u64; 7]> {
    let Ok(Made { lock, mut pass }) = TurnLock::new(alloc, empty(alloc)) else {
        return None;
    };
    let first = pass.turns();
    let mut other = lock.split(&mut pass);
    let halves = (pass.turns(), other.turns());
    note(rt, &lock, &mut pass, 7)?;
    let after = pass.turns();
    let Ok(log) = lock.take(rt, &mut other) else {
        return None;
    };
    let found = log.entries.len() as u64;
    lock.give(&mut other, log);
    lock.join(&mut pass, other);
    let joined = pass.turns();
    let log = lock.close(pass)?;
    Some([
        first,
        halves.0,
        halves.1,
        after,
        found,
        joined,
        log.entries.len() as u64,
    ])
}

/// The turns of a pass without turns, and whether it is refused one.
pub fn spent<R: Wait>(rt: &R, alloc: Global) -> Option<(u64, bool)> {
    let Ok(Made { lock, mut pass }) = TurnLock::new(alloc, empty(alloc)) else {
        return None;
    };
    for _ in 0..63 {
        pass = lock.split(&mut pass);
    }
    let turns = pass.turns();
    let refused = lock.take(rt, &mut pass).is_err();
    Some((turns, refused))
}

/// Whether a close gives nothing while another pass has the turn.
pub fn closed_early<R: Wait>(rt: &R, alloc: Global) -> Option<bool> {
    let Ok(Made { lock, mut pass }) = TurnLock::new(alloc, empty(alloc)) else {
        return None;
    };
    let other = lock.split(&mut pass);
    let taken = lock.take(rt, &mut pass);
    let closed = lock.close(other);
    Some(taken.is_ok() && closed.is_none())
}
