//! What two threads see of their passes.
ghost use Rattle.std.specs.Prelude.{◌≡◌, ◌<◌, None, Some, IfSome, slice_get};

use crate::log::{Log, empty, note};
use std::alloc::Global;
use std::sync::{Arc, Wait};
use std::thread;
use std::thread::Threads;
use std::time::{Clock, Duration};
use turn_lock::{Grows, Made, Pass, TurnLock};

const ENTRIES: u64 = 100;

// What threads may share.
fn sharable<T: Send + Sync>(x: T) -> T
    ensures { result ≡ x }
{
    x
}

// What threads may hand over.
fn movable<T: Send>(x: T) -> T
    ensures { result ≡ x }
{
    x
}

// A lock in an `Arc` is the one, and its passes are the other, for every value that threads may hand over.
fn in_arc<V: Grows + Send + Drop + 'static>(
    alloc: Global,
    lock: TurnLock<V>,
    pass: Pass<V>,
) -> Option<(Arc<TurnLock<V>, Global>, Pass<V>)> {
    let lock = Arc::new(alloc, lock).ok()?;
    Some((sharable(lock), movable(pass)))
}

/// The turns of a pass that another thread looked at, which has the lock too.
pub fn handed_over<R: Threads>(rt: &R, alloc: Global) -> Option<u64> {
    let Ok(Made { lock, pass }) = TurnLock::new(alloc, empty(alloc)) else {
        return None;
    };
    let (lock, pass) = in_arc(alloc, lock, pass)?;
    let child = thread::spawn(rt, move || {
        drop(lock);
        pass.turns()
    });
    Some(child.ok()?.join(rt))
}

// Adds so many entries, each at a greater place than the last. It answers the pass, and whether it did.
fn add<R: Wait>(rt: &R, lock: &TurnLock<Log>, mut pass: Pass<Log>, first: u64) -> (Pass<Log>, bool)
    requires first { first < 1000 }
    requires lock { pass.lock ≡ lock.now }
    requires free { pass.held ≡ None }
    ensures lock { result.0.lock ≡ pass.lock }
    ensures free { result.0.held ≡ None }
{
    let mut least = 0;
    for entry in first..first + ENTRIES {
        match note(rt, lock, &mut pass, entry) {
            Some(place) if place >= least => least = place,
            _ => return (pass, false),
        }
    }
    (pass, true)
}

// Whether the entries from the first on stand among these in their order, and none else of their hundred.
fn in_order(entries: &[u64], first: u64) -> bool
    requires { first < 1000 }
{
    let mine = entries
        .iter()
        .filter(|x| first <= **x && **x < first + ENTRIES);
    mine.copied().eq(first..first + ENTRIES)
}

// Gives the value back, with an entry more, after a while.
fn give_late<R: Clock>(rt: &R, lock: &TurnLock<Log>, mut pass: Pass<Log>, mut log: Log)
    requires lock { pass.lock ≡ lock.now }
    requires held { pass.held ≡ Some log.entries.items }
{
    thread::sleep(rt, Duration::from_millis(20));
    let _ = log.entries.push(1);
    lock.give(&mut pass, log);
}

// Takes the turn, and counts the entries.
fn found<R: Wait>(rt: &R, lock: &TurnLock<Log>, mut pass: Pass<Log>) -> Option<u64>
    requires lock { pass.lock ≡ lock.now }
    requires free { pass.held ≡ None }
{
    let Ok(log) = lock.take(rt, &mut pass) else {
        return None;
    };
    Some(log.entries.len() as u64)
}

/// How many entries a pass finds that asked for its turn while another had it, which then added one.
pub fn waited<R: Threads + Wait + Clock + Sync>(rt: &R, alloc: Global) -> Option<u64> {
    let Ok(Made { lock, mut pass }) = TurnLock::new(alloc, empty(alloc)) else {
        return None;
    };
    let other = lock.split(&mut pass);
    let Ok(log) = lock.take(rt, &mut pass) else {
        return None;
    };
    let shared = &lock;
    let (_, found) = thread::join(
        rt,
        move ||
            requires { (pass.lock ≡ shared.now) × (pass.held ≡ Some log.entries.items) }
        { give_late(rt, shared, pass, log) },
        move ||
            requires { (other.lock ≡ shared.now) × (other.held ≡ None) }
        { found(rt, shared, other) },
    );
    found
}

// Adds an entry, and answers the pass with the place of the entry.
fn note_once<R: Wait>(
    rt: &R,
    lock: &TurnLock<Log>,
    mut pass: Pass<Log>,
    entry: u64,
) -> Option<(Pass<Log>, u64)>
    requires lock { pass.lock ≡ lock.now }
    requires free { pass.held ≡ None }
    ensures pass { IfSome result (λ r. (r.0.lock ≡ pass.lock) × (r.0.held ≡ None)) }
    ensures noted { IfSome result (λ r. slice_get r.0.seen r.1 ≡ Some entry) }
{
    let place = note(rt, lock, &mut pass, entry)?;
    Some((pass, place))
}

/// Two threads add an entry each. Where both did, both stand in the list at the end, at the places that they were told.
pub fn both<R: Threads + Wait + Sync>(
    rt: &R,
    alloc: Global,
    first: u64,
    second: u64,
) -> Option<(Log, u64, u64)>
    ensures { IfSome result (λ r. (slice_get r.0.entries.items r.1 ≡ Some first) × (slice_get r.0.entries.items r.2 ≡ Some second)) }
{
    let Ok(Made { lock, mut pass }) = TurnLock::new(alloc, empty(alloc)) else {
        return None;
    };
    let other = lock.split(&mut pass);
    let shared = &lock;
    let (one, two) = thread::join(
        rt,
        move || -> Option<(Pass<Log>, u64)>
            requires { (pass.lock ≡ shared.now) × (pass.held ≡ None) }
            ensures { IfSome result (λ r. (r.0.lock ≡ shared.entry.now) × (r.0.held ≡ None) × (slice_get r.0.seen r.1 ≡ Some first)) }
        { note_once(rt, shared, pass, first) },
        move || -> Option<(Pass<Log>, u64)>
            requires { (other.lock ≡ shared.now) × (other.held ≡ None) }
            ensures { IfSome result (λ r. (r.0.lock ≡ shared.entry.now) × (r.0.held ≡ None) × (slice_get r.0.seen r.1 ≡ Some second)) }
        { note_once(rt, shared, other, second) },
    );
    let (mut pass, one) = one?;
    let (other, two) = two?;
    lock.join(&mut pass, other);
    let log = lock.close(pass)?;
    Some((log, one, two))
}

/// Two threads add a hundred entries each: how many stand, and whether each saw growing pasts alone and has its entries
/// in its order.
pub fn two_hundred<R: Threads + Wait + Sync>(rt: &R, alloc: Global) -> Option<(u64, bool, bool)> {
    let Ok(Made { lock, mut pass }) = TurnLock::new(alloc, empty(alloc)) else {
        return None;
    };
    let other = lock.split(&mut pass);
    let shared = &lock;
    let ((mut pass, one), (other, two)) = thread::join(
        rt,
        move || -> (Pass<Log>, bool)
            requires { (pass.lock ≡ shared.now) × (pass.held ≡ None) }
            ensures { (result.0.lock ≡ shared.entry.now) × (result.0.held ≡ None) }
        { add(rt, shared, pass, 100) },
        move || -> (Pass<Log>, bool)
            requires { (other.lock ≡ shared.now) × (other.held ≡ None) }
            ensures { (result.0.lock ≡ shared.entry.now) × (result.0.held ≡ None) }
        { add(rt, shared, other, 200) },
    );
    lock.join(&mut pass, other);
    let log = lock.close(pass)?;
    let entries = log.entries.as_slice();
    Some((
        entries.len() as u64,
        one && two,
        in_order(entries, 100) && in_order(entries, 200),
    ))
}
