// The tables of a desk: what follows from its history, kept at hand; and what each entry changes in them.

ghost use Rattle.std.specs.Prelude.{◌≡◌, ◌<◌, ◌≤◌, ◌+◌, ◌∷◌, ℕ, List, None, Ok, Option, length, slice_set, vec_len, vec_capacity};
ghost use Rattle.publication.specs.Draws.{ticket_of};
ghost use Rattle.publication.specs.declared.certificate.Certificate.{Certificate};
ghost use Rattle.venue_rules.specs.VenueRules.{rules_of};
ghost use Rattle.desk_keeper.specs.declared.words.Command.TheVariants.{Draw, Edit, Publish, Submit};
ghost use Rattle.desk_keeper.specs.declared.words.EditWords.{EditWords};
ghost use Rattle.desk_history.specs.declared.entries.Done.{Done};
ghost use Rattle.desk_history.specs.declared.entries.Entry.TheVariants.{Accepted, Ended, Released, Took};
ghost use Rattle.desk_history.specs.Histories.{History, present, put};
ghost use Rattle.desk_history.specs.Rows.{named, row_behind};
ghost use Rattle.desk_history.specs.Tables.{AreTables};

use crate::job_changes;
use crate::jobs::{Job, Publication};
use crate::refusals::{BENCHES, MOST_COMMANDS, MOST_ROW_BYTES};
use crate::requests::Work;
use editions::Venue;
use match_rules::{Mode, RULES_TICKETS, Rules};
use publication::Certificate;

/// What follows from a history.
#[derive(Drop)]
pub struct Tables {
    /// The venue of the present edition.
    pub venue: Venue,
    /// Its rules.
    pub rules: Rules,
    /// The number of the present edition.
    pub edits: u64,
    /// The number of accepted commands.
    pub commands: u64,
    /// The bytes of their rows.
    pub bytes: u64,
    /// The jobs.
    pub jobs: Vec<Job>,
    /// The publications.
    pub publications: Vec<Publication>,
    /// The job of each bench, where it has one.
    pub benches: [Option<u64>; 16],
}

impl Tables {
    // A command is accepted whose row has so many bytes.
    fn count(&mut self, more: u64)
        requires commands { self.old.commands < MOST_COMMANDS }
        requires bytes { self.old.bytes + more ≤ MOST_ROW_BYTES }
        ensures { self.new ≡ record self.old { commands = self.old.commands + 1; bytes = self.old.bytes + more } }
    {
        self.commands += 1;
        self.bytes += more;
    }

    /// A bench has taken a job.
    pub fn note_take(&mut self, bench: u32, job: u64)
        requires { bench < BENCHES }
        ensures { (H : History) → AreTables H self.old → AreTables (Took bench job ∷ H) self.new }
    {
        job_changes::take(&mut self.jobs, job);
        self.benches[bench as usize] = Some(job);
    }

    /// A bench has let its job go.
    pub fn note_release(&mut self, bench: u32)
        requires { bench < BENCHES }
        ensures tables { (H : History) → AreTables H self.old → AreTables (Released bench ∷ H) self.new }
        ensures benches { self.new.benches ≡ slice_set self.old.benches bench None }
    {
        let held = self.benches[bench as usize];
        job_changes::release_held(&mut self.jobs, held);
        self.benches[bench as usize] = None;
    }

    /// A bench has ended its job, by the entry at this place.
    pub fn note_end(&mut self, bench: u32, work: &Work, place: u64)
        requires { bench < BENCHES }
        ensures tables { (H : History) → length H ≡ place → AreTables H self.old → AreTables (Ended bench work.now ∷ H) self.new }
        ensures benches { self.new.benches ≡ slice_set self.old.benches bench None }
    {
        let held = self.benches[bench as usize];
        job_changes::end_held(&mut self.jobs, held, work, place);
        self.benches[bench as usize] = None;
    }

    /// An edit is accepted: it makes this venue, with these rules, and its row has so many bytes.
    pub fn note_edit(&mut self, venue: Venue, rules: Rules, more: u64)
        requires edits { self.old.edits < MOST_COMMANDS }
        requires commands { self.old.commands < MOST_COMMANDS }
        requires bytes { self.old.bytes + more ≤ MOST_ROW_BYTES }
        ensures { (H : History) (caller : List ℕ) (number base : ℕ) (edit : EditWords) (reply : Done) (read : Option Certificate) → more ≡ length (row_behind H (named caller number (Edit base edit)) read) → put (present H) edit ≡ Ok venue → rules_of venue ≡ Ok rules → AreTables H self.old → AreTables (Accepted caller number (Edit base edit) reply read ∷ H) self.new }
    {
        self.count(more);
        self.edits += 1;
        job_changes::edit(&mut self.jobs, self.edits);
        self.venue = venue;
        self.rules = rules;
    }

    /// A submit is accepted, whose row has so many bytes.
    pub fn note_submit(&mut self, mode: Mode, more: u64)
        requires room { vec_len self.old.jobs < vec_capacity self.old.jobs }
        requires commands { self.old.commands < MOST_COMMANDS }
        requires bytes { self.old.bytes + more ≤ MOST_ROW_BYTES }
        ensures { (H : History) (caller : List ℕ) (number base : ℕ) (reply : Done) (read : Option Certificate) → more ≡ length (row_behind H (named caller number (Submit base mode)) read) → AreTables H self.old → AreTables (Accepted caller number (Submit base mode) reply read ∷ H) self.new }
    {
        self.count(more);
        job_changes::submit(&mut self.jobs, self.edits, mode);
    }

    /// A publish of a job is accepted, by the entry at a place, whose row has so many bytes.
    pub fn note_publish(&mut self, job: u64, read: &Option<Certificate>, place: u64, more: u64)
        requires room { vec_len self.old.publications < vec_capacity self.old.publications }
        requires commands { self.old.commands < MOST_COMMANDS }
        requires bytes { self.old.bytes + more ≤ MOST_ROW_BYTES }
        ensures { (H : History) (caller : List ℕ) (number : ℕ) (reply : Done) → length H ≡ place → more ≡ length (row_behind H (named caller number (Publish job)) read.now) → AreTables H self.old → AreTables (Accepted caller number (Publish job) reply read.now ∷ H) self.new }
    {
        self.count(more);
        let number = self.publications.len() as u64 + 1;
        job_changes::publish(&mut self.jobs, job, read, place, number);
        job_changes::add_publication(&mut self.publications, job);
    }

    /// A draw is accepted, whose row has so many bytes.
    pub fn note_draw(&mut self, publication: u64, ticket: u32, more: u64)
        requires commands { self.old.commands < MOST_COMMANDS }
        requires bytes { self.old.bytes + more ≤ MOST_ROW_BYTES }
        ensures { (H : History) (caller text : List ℕ) (number : ℕ) (reply : Done) (read : Option Certificate) → ticket ≡ ticket_of text RULES_TICKETS → more ≡ length (row_behind H (named caller number (Draw publication text)) read) → AreTables H self.old → AreTables (Accepted caller number (Draw publication text) reply read ∷ H) self.new }
    {
        self.count(more);
        job_changes::draw(&mut self.publications, publication, ticket);
    }
}
