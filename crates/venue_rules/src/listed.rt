// The reviewers that are listed for a paper, by their places.

ghost use Rattle.std.specs.Prelude.{◌≡◌, ◌++◌, [], ℕ, ◌↔◌, pos, if◌then◌else◌, IfOk, OnOk};
ghost use Rattle.std.specs.List.{Contains, filter, range_with_len};
ghost use Rattle.std.specs.List.Sorted.{IsStrictlyIncreasing};
ghost use Rattle.std.specs.Ordering.{int_eq};
ghost use Rattle.venue_rules.specs.Listed.{AreListed, is_lock, place_with, places_by, places_in, row_places};
ghost use Rattle.roster.specs.Table.{Ascend};
ghost use Rattle.score_spec.specs.PairTables.{entry_id, reviewers_of};

use crate::tables::Tables;
use roster::{PaperRow, Reviewers};
use score_spec::{ById, PairTable, Value};
use std::alloc::{AllocError, Global};

// Lists the reviewer who has the id. Rows mostly name reviewers that follow one another, so the guess is the next place.
fn list_id(places: &mut Vec<u32>, reviewers: &Reviewers, id: &str) -> Result<(), AllocError>
    ensures { OnOk result (places.new.items ≡ places.old.items ++ place_with reviewers.now id.now) }
{
    let next = places.last().map_or(0, |place| place.saturating_add(1));
    if let Some(place) = reviewers.place_from_guess(next, id) {
        places.push(place)?;
    }
    Ok(())
}

fn list_lock(
    places: &mut Vec<u32>,
    reviewers: &Reviewers,
    id: &str,
    mark: &i32,
) -> Result<(), AllocError>
    ensures { OnOk result (places.new.items ≡ places.old.items ++ (if int_eq mark.now (pos 1) then place_with reviewers.now id.now else [])) }
{
    if *mark != 1 {
        return Ok(());
    }
    list_id(places, reviewers, id)
}

fn list_entries<V>(
    places: &mut Vec<u32>,
    reviewers: &Reviewers,
    entries: &ById<V>,
) -> Result<(), AllocError>
    ensures { OnOk result (places.new.items ≡ places.old.items ++ places_in reviewers.now entries.now) }
{
    for (id, _) in entries.iter() {
        list_id(places, reviewers, id.as_str())?;
    }
    Ok(())
}

fn list_locks(
    places: &mut Vec<u32>,
    reviewers: &Reviewers,
    marks: &ById<i32>,
) -> Result<(), AllocError>
    ensures places { OnOk result (places.new.items ≡ places.old.items ++ places_in reviewers.now (filter is_lock marks.now)) }
    ensures ascend { Ascend entry_id marks.now }
{
    for (id, mark) in marks.iter() {
        list_lock(places, reviewers, id.as_str(), mark)?;
    }
    Ok(())
}

// Lists the reviewers that have an entry of the paper.
fn list_table<V>(
    places: &mut Vec<u32>,
    reviewers: &Reviewers,
    table: &PairTable<V>,
    paper: &str,
) -> Result<(), AllocError>
    ensures { OnOk result (places.new.items ≡ places.old.items ++ places_in reviewers.now (reviewers_of table.now paper.now)) }
{
    match table.papers().get(paper) {
        Some(entries) => list_entries(places, reviewers, entries),
        None => Ok(()),
    }
}

// Lists the reviewers that are locked to the paper.
fn list_locked(
    places: &mut Vec<u32>,
    reviewers: &Reviewers,
    marks: &PairTable<i32>,
    paper: &str,
) -> Result<(), AllocError>
    ensures places { OnOk result (places.new.items ≡ places.old.items ++ places_in reviewers.now (filter is_lock (reviewers_of marks.now paper.now))) }
    ensures ascend { Ascend entry_id (reviewers_of marks.now paper.now) }
{
    match marks.papers().get(paper) {
        Some(marks) => list_locks(places, reviewers, marks),
        None => Ok(()),
    }
}

// Lists the reviewers that have a value for the paper by any source.
fn list_values(
    places: &mut Vec<u32>,
    reviewers: &Reviewers,
    tables: &ById<PairTable<Value>>,
    paper: &str,
) -> Result<(), AllocError>
    ensures { OnOk result (places.new.items ≡ places.old.items ++ places_by reviewers.now tables.now paper.now) }
{
    for (_, table) in tables.iter() {
        list_table(places, reviewers, table, paper)?;
    }
    Ok(())
}

// The places that the rows of the paper name, in no order and with repeats.
fn places_in_rows(alloc: Global, tables: &Tables, paper: &PaperRow) -> Result<Vec<u32>, AllocError>
    ensures places { IfOk result (λ places. places.items ≡ row_places tables.now paper.now.id) }
    ensures marks { OnOk result (Ascend entry_id (reviewers_of tables.now.marks paper.now.id)) }
{
    let id = paper.id.text();
    let mut places = Vec::new(alloc);
    list_values(&mut places, tables.reviewers, tables.scores.tables(), id)?;
    list_table(&mut places, tables.reviewers, tables.scores.bids(), id)?;
    list_locked(&mut places, tables.reviewers, tables.marks, id)?;
    Ok(places)
}

// Puts the places in ascending order, each once. The tables give them in runs that ascend, which the stable sort merges.
fn put_in_order(places: &mut Vec<u32>) -> Result<(), AllocError>
    ensures ascend { OnOk result (IsStrictlyIncreasing places.new.items) }
    ensures same { OnOk result ((place : ℕ) → Contains places.new.items place ↔ Contains places.old.items place) }
{
    places.sort()?;
    places.dedup();
    Ok(())
}

fn places_below(alloc: Global, count: u32) -> Result<Vec<u32>, AllocError>
    ensures { IfOk result (λ places. places.items ≡ range_with_len 0 count) }
{
    let mut places = Vec::new(alloc);
    for place in 0..count {
        places.push(place)?;
    }
    Ok(places)
}

/// The places of the reviewers that are listed for the paper, in ascending order: in linear time with one logarithm in
/// its rows, and in the number of reviewers only where the settings list all pairs.
pub(crate) fn listed_places(
    alloc: Global,
    tables: &Tables,
    paper: &PaperRow,
) -> Result<Vec<u32>, AllocError>
    ensures { IfOk result (λ places. AreListed tables.now paper.now places.items) }
{
    let reviewers = tables.reviewers.rows();
    if tables.settings.all_pairs() {
        return places_below(alloc, reviewers.len() as u32);
    }
    let mut places = places_in_rows(alloc, tables, paper)?;
    put_in_order(&mut places)?;
    Ok(places)
}
