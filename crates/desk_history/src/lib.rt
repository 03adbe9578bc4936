// What a desk has done, as a list of entries; what each request does to it; and the tables that follow from it.
#![tactic(auto)]

mod benches;
mod edit_making;
mod entries;
mod examples;
mod job_changes;
mod jobs;
mod laws;
mod notes;
mod openings;
mod outcomes;
mod reasons;
mod refusals;
mod replies;
mod requests;
mod tables;

pub use benches::{finish, push, release, reserve, take};
pub use edit_making::make_edition;
pub use entries::{Done, Entry};
pub use examples::{worked_draw, worked_histories, worked_session};
pub use job_changes::nth;
pub use jobs::{Grade, Job, Outcome, Publication};
pub use laws::history_laws;
pub use notes::{note_accepted, note_draw, note_edit, note_publish, note_submit};
pub use reasons::{base_refusal, draw_refusal, full_refusal, publish_refusal};
pub use refusals::{BENCHES, MOST_COMMANDS, MOST_ROW_BYTES, Refusal};
pub use replies::{Answered, PairIds, PairList, Snapshot};
pub use requests::{Look, Request, Work};
pub use tables::Tables;
