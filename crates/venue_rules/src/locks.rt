// Locked pairs that share an institution.

ghost use Rattle.std.specs.Prelude.{◌≡◌, option_map, IfOk};
ghost use Rattle.venue_rules.specs.Parts.{lock_of, lock_at};
ghost use Rattle.venue_rules.specs.VenueRules.{forbidden_in, forbidden_in_row};

use crate::conflict::do_share;
use crate::tables::Tables;
use score_spec::{ById, PairKey};
use std::alloc::{AllocError, Global};

// The pair, where the mark locks it though it shares an institution.
fn lock_at(
    alloc: Global,
    tables: &Tables,
    paper: &str,
    reviewer: &str,
    mark: &i32,
) -> Result<Option<PairKey>, AllocError>
    ensures { IfOk result (λ lock. lock ≡ lock_at tables.now paper.now reviewer.now mark.now) }
{
    if *mark != 1 {
        return Ok(None);
    }
    let Some(paper) = tables.papers.get(paper) else {
        return Ok(None);
    };
    let Some(reviewer) = tables.reviewers.get(reviewer) else {
        return Ok(None);
    };
    if !do_share(paper, reviewer) {
        return Ok(None);
    }
    let paper = paper.id.copy(alloc)?;
    let reviewer = reviewer.id.copy(alloc)?;
    Ok(Some(PairKey { paper, reviewer }))
}

fn lock_in_row(
    alloc: Global,
    tables: &Tables,
    paper: &str,
    marks: &ById<i32>,
) -> Result<Option<PairKey>, AllocError>
    ensures { IfOk result (λ lock. lock ≡ option_map lock_of (forbidden_in_row tables.now paper.now marks.now)) }
{
    for (reviewer, mark) in marks.iter() {
        if let Some(lock) = lock_at(alloc, tables, paper, reviewer.as_str(), mark)? {
            return Ok(Some(lock));
        }
    }
    Ok(None)
}

/// The first pair, in the order of the marks, that is locked though it shares an institution.
pub(crate) fn forbidden_lock(alloc: Global, tables: &Tables) -> Result<Option<PairKey>, AllocError>
    ensures { IfOk result (λ lock. lock ≡ option_map lock_of (forbidden_in tables.now tables.now.marks)) }
{
    for (paper, marks) in tables.marks.papers().iter() {
        if let Some(lock) = lock_in_row(alloc, tables, paper.as_str(), marks)? {
            return Ok(Some(lock));
        }
    }
    Ok(None)
}
