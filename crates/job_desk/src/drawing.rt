// What publications have drawn.

ghost use Rattle.std.specs.Prelude.{◌≡◌, Some, slice_get};
ghost use Rattle.std.specs.Option.{option_map};
ghost use Rattle.match_rules.specs.Drawing.{piece_of};
ghost use Rattle.desk_history.specs.Courses.{history_of};
ghost use Rattle.desk_history.specs.Histories.{brought_at, brought_by, job_of, nth_of, publications};
ghost use Rattle.desk_history.specs.Looks.{drawn_piece, piece_at};
ghost use Rattle.desk_history.specs.Rows.{evidence_of};
ghost use Rattle.desk_history.specs.Tables.{AreTables};
ghost use Rattle.job_desk.specs.Drawing.{brought_from, drawn_at, drawn_from, drawn_of, value_of};

use desk_history::{Entry, Tables, Work, nth};
use match_rules::{Answer, Lottery, Piece, Rules, piece_of};
use publication::Certificate;

/// What a publication has drawn.
#[derive(Drop)]
pub struct Drawn<'a> {
    /// The rules of its job.
    pub rules: &'a Rules,
    /// The piece of its lottery.
    pub piece: &'a Piece,
    /// The ticket that drew it.
    pub ticket: u32,
}

// The rules and the answer that an entry brought.
fn brought_by(entry: &Entry) -> Option<&Certificate>
    ensures { option_map (λ shown. shown.now) result ≡ brought_by entry.now }
{
    match entry {
        Entry::Accepted { read, .. } => read.as_ref(),
        Entry::Ended {
            work: Work::Answered(shown),
            ..
        } => Some(shown),
        _ => None,
    }
}

// What the entry at a place brought, where there is one.
fn brought_in(entries: &Vec<Entry>, place: u64) -> Option<&Certificate>
    ensures { option_map (λ shown. shown.now) result ≡ brought_from (slice_get entries.now.items place) }
{
    match entries.get(place as usize) {
        None => None,
        Some(entry) => brought_by(entry),
    }
}

/// What the entry at a place brought to the history.
pub fn brought_at(entries: &Vec<Entry>, decided: Option<u64>) -> Option<&Certificate>
    ensures { option_map (λ shown. shown.now) result ≡ brought_at (history_of entries.now) decided }
{
    match decided {
        None => None,
        Some(place) => brought_in(entries, place),
    }
}

/// The rules of a job and its answer.
pub fn evidence<'a>(entries: &'a Vec<Entry>, tables: &Tables, job: u64) -> Option<&'a Certificate>
    requires { AreTables (history_of entries.now) tables.now }
    ensures { option_map (λ shown. shown.now) result ≡ evidence_of (history_of entries.now) (job_of (history_of entries.now) job) }
{
    match nth(tables.jobs.as_slice(), job) {
        None => None,
        Some(job) => brought_at(entries, job.decided),
    }
}

// The piece that a ticket draws of a lottery.
fn piece_at(lottery: &Lottery, ticket: u32) -> Option<&Piece>
    ensures { option_map (λ piece. piece.now) result ≡ piece_at lottery.now (piece_of lottery.now ticket) }
{
    match piece_of(lottery, ticket) {
        None => None,
        Some(place) => lottery.pieces().get(place as usize),
    }
}

/// The piece that a ticket draws of an answer.
pub fn drawn_piece(answer: &Answer, ticket: u32) -> Option<&Piece>
    ensures { option_map (λ piece. piece.now) result ≡ drawn_piece answer.now ticket }
{
    match answer {
        Answer::Lottery(winning) => piece_at(&winning.lottery, ticket),
        Answer::Infeasible(_) => None,
    }
}

// What a ticket draws, with its rules.
fn drawn_from(shown: &Certificate, ticket: u32) -> Option<Drawn<'_>>
    ensures { option_map value_of result ≡ drawn_from (Some shown.now) ticket }
{
    match drawn_piece(&shown.answer, ticket) {
        None => None,
        Some(piece) => Some(Drawn {
            rules: &shown.rules,
            piece,
            ticket,
        }),
    }
}

// What the ticket of a job's publication has drawn.
fn drawn_at<'a>(
    entries: &'a Vec<Entry>,
    tables: &Tables,
    job: u64,
    ticket: Option<u32>,
) -> Option<Drawn<'a>>
    requires { AreTables (history_of entries.now) tables.now }
    ensures { option_map value_of result ≡ drawn_at (history_of entries.now) job ticket }
{
    match ticket {
        None => None,
        Some(ticket) => match evidence(entries, tables, job) {
            None => None,
            Some(shown) => drawn_from(shown, ticket),
        },
    }
}

/// What the publication of a number has drawn; `None` where there is no such publication, and before its draw. Takes no
/// memory.
pub fn drawn_of<'a>(entries: &'a Vec<Entry>, tables: &Tables, publication: u64) -> Option<Drawn<'a>>
    requires { AreTables (history_of entries.now) tables.now }
    ensures { option_map value_of result ≡ drawn_of (history_of entries.now) (nth_of (publications (history_of entries.now)) publication) }
{
    match nth(tables.publications.as_slice(), publication) {
        None => None,
        Some(publication) => drawn_at(entries, tables, publication.job, publication.ticket),
    }
}
