// What the desk is asked.

use desk_keeper::{Name, Named};
use publication::Certificate;

/// What a caller may look at.
#[derive(Clone, Copy)]
pub enum Look {
    /// The number of the present edition.
    Edition,
    /// Its rules.
    Rules,
    /// What a job came to.
    Job { job: u64 },
    /// The rules of a job and the answer to them.
    Answer { job: u64 },
    /// The rules and the lottery of a publication.
    Publication { number: u64 },
    /// The pairs that a ticket of a publication draws.
    Ticket { publication: u64, ticket: u64 },
}

/// What a bench has made of its job.
#[derive(Drop)]
pub enum Work {
    /// The job's rules, and a certified lottery for them or a cut that shows that none fits.
    Answered(Certificate),
    /// The solver's memory was wanting.
    OutOfMemory,
}

/// A request. Benches are numbered from 0 to 15.
#[derive(Drop)]
pub enum Request {
    /// A command of a chair.
    Do(Named),
    /// A chair looks.
    Look { caller: Name, what: Look },
    /// A bench asks for a job.
    Take { bench: u32 },
    /// A bench hands in what it made of its job.
    Finish { bench: u32, job: u64, work: Work },
    /// A bench lets its job go.
    Release { bench: u32 },
}
