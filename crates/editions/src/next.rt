// The venue after an edit: one of its tables is put anew, and all else stays.

ghost use Rattle.std.specs.Prelude.{◌≡◌};
ghost use Rattle.bid_import.specs.Settings.{settings_of_file};
ghost use Rattle.table_edits.specs.Bodies.{Makes};
ghost use Rattle.table_edits.specs.declared.edit.TableName.TheVariants as table;
ghost use Rattle.venue_rules.specs.Venues.{with_settings};
ghost use Rattle.editions.specs.Answers.{IsEditAnswer};
ghost use Rattle.editions.specs.Edits.{settings_after, venue_after};

use crate::fault::EditFault;
use crate::venue::{Edited, Venue};
use bid_import::{Code, ImportFault, Settings, read_settings};
use score_spec::Text;
use std::alloc::Global;
use table_edits::{
    Edit, How, TableName, bids_after, caps_after, marks_after, papers_after, reviewers_after,
    scores_under, values_after,
};

fn after_papers(alloc: Global, venue: Venue, how: How, body: &[u8]) -> Result<Venue, ImportFault>
    ensures { Makes result (venue_after venue table.Papers how body.now) }
{
    match papers_after(alloc, how, venue.papers, body) {
        Ok(papers) => Ok(Venue { papers, ..venue }),
        Err(fault) => Err(fault),
    }
}

fn after_reviewers(alloc: Global, venue: Venue, how: How, body: &[u8]) -> Result<Venue, ImportFault>
    ensures { Makes result (venue_after venue table.Reviewers how body.now) }
{
    match reviewers_after(alloc, how, venue.reviewers, body) {
        Ok(reviewers) => Ok(Venue { reviewers, ..venue }),
        Err(fault) => Err(fault),
    }
}

fn after_values(
    alloc: Global,
    venue: Venue,
    source: &Text,
    how: How,
    body: &[u8],
) -> Result<Venue, ImportFault>
    ensures { Makes result (venue_after venue (table.Values source.now) how body.now) }
{
    if !venue.settings.spec().sources.has_values(source.as_str()) {
        return Err(ImportFault::Bad {
            row: 0,
            code: Code::UnknownSource,
        });
    }
    match values_after(alloc, how, source.as_str(), venue.scores, body) {
        Ok(scores) => Ok(Venue { scores, ..venue }),
        Err(fault) => Err(fault),
    }
}

fn after_bids(alloc: Global, venue: Venue, how: How, body: &[u8]) -> Result<Venue, ImportFault>
    ensures { Makes result (venue_after venue table.Bids how body.now) }
{
    let scores = venue.scores;
    match bids_after(alloc, how, &venue.settings, scores, body) {
        Ok(scores) => Ok(Venue { scores, ..venue }),
        Err(fault) => Err(fault),
    }
}

fn after_marks(alloc: Global, venue: Venue, how: How, body: &[u8]) -> Result<Venue, ImportFault>
    ensures { Makes result (venue_after venue table.Marks how body.now) }
{
    match marks_after(alloc, how, venue.marks, body) {
        Ok(marks) => Ok(Venue { marks, ..venue }),
        Err(fault) => Err(fault),
    }
}

fn after_caps(alloc: Global, venue: Venue, how: How, body: &[u8]) -> Result<Venue, ImportFault>
    ensures { Makes result (venue_after venue table.Caps how body.now) }
{
    match caps_after(alloc, how, venue.caps, body) {
        Ok(caps) => Ok(Venue { caps, ..venue }),
        Err(fault) => Err(fault),
    }
}

fn with_settings(venue: Venue, settings: Settings) -> Venue
    ensures { result ≡ with_settings venue settings }
{
    let scores = scores_under(&settings, venue.scores);
    Venue {
        settings,
        scores,
        ..venue
    }
}

fn after_settings(alloc: Global, venue: Venue, body: &[u8]) -> Result<Venue, ImportFault>
    ensures { Makes result (settings_after venue (settings_of_file body.now)) }
{
    match read_settings(alloc, body) {
        Ok(settings) => Ok(with_settings(venue, settings)),
        Err(fault) => Err(fault),
    }
}

/// The venue after a body for one of its tables, or the row at fault. Settings are replaced, whatever `how` says.
pub(crate) fn after(
    alloc: Global,
    venue: Venue,
    table: &TableName,
    how: How,
    body: &[u8],
) -> Result<Venue, ImportFault>
    ensures { Makes result (venue_after venue table.now how body.now) }
{
    match table {
        TableName::Settings => after_settings(alloc, venue, body),
        TableName::Papers => after_papers(alloc, venue, how, body),
        TableName::Reviewers => after_reviewers(alloc, venue, how, body),
        TableName::Values { source } => after_values(alloc, venue, source, how, body),
        TableName::Bids => after_bids(alloc, venue, how, body),
        TableName::Marks => after_marks(alloc, venue, how, body),
        TableName::Caps => after_caps(alloc, venue, how, body),
    }
}

impl Venue {
    /// The venue after an edit, with its rules. A refusal leaves this one as it is.
    pub fn next(&self, alloc: Global, edit: &Edit) -> Result<Edited, EditFault>
        requires settings { edit.now.table ≡ TableName.Settings → edit.now.how ≡ How.Replace }
        ensures answer { IsEditAnswer result (venue_after self.now edit.now.table edit.now.how edit.now.body) }
    {
        let copy = match self.copy(alloc) {
            Ok(copy) => copy,
            Err(_) => return Err(EditFault::Memory),
        };
        let venue = match after(alloc, copy, &edit.table, edit.how, edit.body.as_slice()) {
            Ok(venue) => venue,
            Err(ImportFault::Memory) => return Err(EditFault::Memory),
            Err(ImportFault::Bad { row, code }) => return Err(EditFault::Import { row, code }),
        };
        match venue.rules(alloc) {
            Ok(rules) => Ok(Edited { venue, rules }),
            Err(fault) => Err(fault),
        }
    }
}
