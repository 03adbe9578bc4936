// The pairs that are in an assignment, taken in and out while units are turned.

ghost use Rattle.std.specs.Prelude.{◌≡◌, ◌+◌, ◌<◌, length, OnOk};
ghost use Rattle.match_rules.specs.Chosen.{chosen_places};
ghost use Rattle.match_rules.specs.Pieces.{DoAscend};
ghost use Rattle.lottery_peel.specs.Choices.{AreChosenBut, IsTakenIn, IsTakenOut};

use residual_arcs::Step;
use std::alloc::AllocError;

// Takes a place in, unless it is there.
fn take_in(places: &mut Vec<u32>, place: u32) -> Result<(), AllocError>
    requires { DoAscend places.old.items }
    ensures { OnOk result (IsTakenIn places.old.items place places.new.items) }
{
    match places.binary_search(&place) {
        Ok(_) => Ok(()),
        Err(at) => {
            places.insert(at, place)?;
            Ok(())
        }
    }
}

// Takes a place out, if it is there.
fn take_out(places: &mut Vec<u32>, place: u32)
    requires { DoAscend places.old.items }
    ensures { IsTakenOut places.old.items place places.new.items }
{
    match places.binary_search(&place) {
        Ok(at) => {
            places.remove(at);
        }
        Err(_) => {}
    }
}

// Takes the pair of a step in where it has a count, and out where it has none.
fn choose(
    counts: &[u64],
    steps: &[Step],
    place: usize,
    places: &mut Vec<u32>,
) -> Result<(), AllocError>
    requires inside { place < length steps.now }
    requires before { AreChosenBut counts.now steps.now place places.old.items }
    ensures { OnOk result (AreChosenBut counts.now steps.now (place + 1) places.new.items) }
{
    let pair = steps[place].arc;
    match counts.get(pair as usize) {
        None => Ok(()),
        Some(0) => {
            take_out(places, pair);
            Ok(())
        }
        Some(_) => take_in(places, pair),
    }
}

/// Takes pairs in or out over whose arcs steps were taken, so that the places are those of the pairs that have a count. The arcs
/// of pairs stand first: steps over others change nothing.
///
/// A step takes the time of a search in the places, and of moving those behind it.
pub fn choose_again(counts: &[u64], steps: &[Step], places: &mut Vec<u32>) -> Result<(), AllocError>
    requires { AreChosenBut counts.now steps.now 0 places.old.items }
    ensures { OnOk result (places.new.items ≡ chosen_places counts.now) }
{
    for place in 0..steps.len() {
        choose(counts, steps, place, places)?;
    }
    Ok(())
}
