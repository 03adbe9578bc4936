// What the rows of a body are put into.

ghost use Rattle.std.specs.Prelude.{◌≡◌};
ghost use Rattle.score_spec.specs.Scores.{of_sources};
ghost use Rattle.table_edits.specs.Bodies.{start_of, values_start, bids_start};

use crate::edit::How;
use bid_import::Settings;
use roster::{Row, Table};
use score_spec::{PairTable, Scores};
use std::alloc::Global;

/// The table itself, or an empty one.
pub(crate) fn start_of_rows<R: Row>(alloc: Global, how: How, rows: Table<R>) -> Table<R>
    ensures { result ≡ start_of how rows }
{
    match how {
        How::Merge => rows,
        How::Replace => Table::new(alloc),
    }
}

/// The table of pairs itself, or an empty one.
pub(crate) fn start_of_pairs<V: Drop>(alloc: Global, how: How, pairs: PairTable<V>) -> PairTable<V>
    ensures { result ≡ start_of how pairs }
{
    match how {
        How::Merge => pairs,
        How::Replace => PairTable::new(alloc),
    }
}

/// The scores themselves, or those without the table of a source.
pub(crate) fn start_of_values(how: How, source: &str, mut scores: Scores) -> Scores
    ensures { result ≡ values_start how source.now scores }
{
    if how == How::Merge {
        return scores;
    }
    scores.clear_values(source);
    scores
}

/// The scores themselves, or those without bids.
pub(crate) fn start_of_bids(how: How, mut scores: Scores) -> Scores
    ensures { result ≡ bids_start how scores }
{
    if how == How::Merge {
        return scores;
    }
    scores.clear_bids();
    scores
}

/// The scores under new settings, which drop the tables of the sources that have no values any more.
pub fn scores_under(settings: &Settings, mut scores: Scores) -> Scores
    ensures { result ≡ of_sources settings.now.spec.sources scores }
{
    scores.keep_sources(settings.spec());
    scores
}
