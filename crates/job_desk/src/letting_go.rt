// Where benches let go of their jobs.

ghost use Rattle.std.specs.Prelude.{◌≡◌, ◌<◌, IfSome, length};
ghost use Rattle.std.specs.List.{position};
ghost use Rattle.desk_history.specs.Courses.{history_of};
ghost use Rattle.job_desk.specs.Desks.{let_go, lets_go};

use desk_history::Entry;

// A bench lets go of its job by an entry.
fn lets_go(entry: &Entry, bench: u32) -> bool
    ensures { result ≡ lets_go bench entry.now }
{
    match entry {
        Entry::Ended { bench: at, .. } => *at == bench,
        Entry::Released { bench: at } => *at == bench,
        _ => false,
    }
}

// The first of these entries by which a bench lets go of its job.
fn first_letting_go(entries: &[Entry], bench: u32) -> Option<usize>
    ensures first { result ≡ position (lets_go bench) entries.now }
    ensures within { IfSome result (λ place. place < length entries.now) }
{
    entries.iter().position(|entry| lets_go(entry, bench))
}

/// The least place, from one on, at which a bench lets go of its job.
pub fn let_go(entries: &Vec<Entry>, bench: u32, from: u64) -> Option<u64>
    ensures { result ≡ let_go (history_of entries.now) bench from }
{
    let entries = entries.as_slice();
    if from >= entries.len() as u64 {
        return None;
    }
    match first_letting_go(&entries[from as usize..], bench) {
        None => None,
        Some(place) => Some(from + place as u64),
    }
}
