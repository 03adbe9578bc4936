// What the targets are for, and what is asked at them.

use desk_keeper::{HowWords, Name, Named, TableWords};
use match_rules::Mode;

/// The routes that are served.
#[derive(Clone, Copy)]
pub enum Routes {
    /// Those of chairs.
    Chairs,
    /// Those of chairs and those of the worker, at which jobs are taken, finished and released.
    ChairsAndWorker,
}

/// What a chair looks at.
#[derive(Clone, Copy)]
pub enum Look {
    /// The number of the present edition.
    Edition,
    /// Its rules.
    Rules,
    /// What a job came to.
    Job { job: u64 },
    /// The rules of a job and the answer to them.
    Answer { job: u64 },
    /// The rules and the lottery of a publication.
    Publication { number: u64 },
    /// The pairs that a ticket of a publication draws.
    Ticket { publication: u64, ticket: u64 },
}

/// What a request asks.
#[derive(Drop)]
pub enum Asked {
    /// A command of a chair.
    Do(Named),
    /// A chair looks.
    Look {
        /// The name of a chair: 1 to 128 visible characters of ASCII, without commas and quotation marks.
        caller: Name,
        what: Look,
    },
    /// The worker asks for a job.
    Take,
    /// The worker hands in what it made of its job.
    Finish,
    /// The worker lets its job go.
    Release,
}

// What a target is for.
#[derive(Drop)]
pub(crate) enum Place {
    Edit { table: TableWords, how: HowWords },
    Submit { mode: Mode },
    Publish { job: u64 },
    Draw { publication: u64 },
    Look(Look),
    Take,
    Finish,
    Release,
}

// Who gives a command, and by which number.
#[derive(Drop)]
pub(crate) struct Signed {
    pub(crate) caller: Name,
    pub(crate) number: u64,
}
