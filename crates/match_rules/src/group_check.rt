// The clause of the check on groups. The groups of a piece are counted, and then only these counters are cleared, since
// there may be many groups.

ghost use Rattle.std.specs.Prelude.{◌≡◌, ℕ, ◌+◌, ◌-◌, ◌<◌, ◌≤◌, ◌⊎◌, if◌then◌else◌, true, length, slice_index, Some};
ghost use Rattle.match_rules.specs.Answers.{LotteryMatches};
ghost use Rattle.match_rules.specs.Assignments.{member_count};
ghost use Rattle.match_rules.specs.Breaks.{group_break, in_pieces};
ghost use Rattle.match_rules.specs.First.{first_below};
ghost use Rattle.match_rules.specs.Groups.{group_count, group_of, is_in_group};
ghost use Rattle.match_rules.specs.Pieces.{ArePieces};
ghost use Rattle.match_rules.specs.Sound.{AreCounts, ArePlaces, IsLeastOver};

use crate::breaks::Break;
use crate::lottery::Piece;
use crate::rules::Rules;

// Adds one to the counter of a pair's group.
fn count_group(rules: &Rules, e: u32, counts: &mut [u32])
    requires known { e < length rules.now.pairs }
    requires size { length counts.old ≡ group_count rules.now }
    requires fits { (g : ℕ) → g < length counts.old → slice_index counts.old g < 4294967295 }
    ensures { AreCounts counts.new (group_count rules.now) (λ g. slice_index counts.old g + (if is_in_group rules.now g e then 1 else 0)) }
{
    if let Some(group) = rules.group_of(e) {
        counts[group as usize] += 1;
    }
}

// Takes one from the counter of a pair's group.
fn uncount_group(rules: &Rules, e: u32, counts: &mut [u32])
    requires known { e < length rules.now.pairs }
    requires size { length counts.old ≡ group_count rules.now }
    requires some { (g : ℕ) → g < length counts.old → is_in_group rules.now g e ≡ true → 1 ≤ slice_index counts.old g }
    ensures { AreCounts counts.new (group_count rules.now) (λ g. slice_index counts.old g - (if is_in_group rules.now g e then 1 else 0)) }
{
    if let Some(group) = rules.group_of(e) {
        counts[group as usize] -= 1;
    }
}

// How often each group is among places of pairs.
fn count_groups(rules: &Rules, places: &[u32], counts: &mut [u32])
    requires places { ArePlaces rules.now places.now }
    requires zero { AreCounts counts.old (group_count rules.now) (λ g. 0) }
    ensures { AreCounts counts.new (group_count rules.now) (member_count rules.now places.now) }
{
    let _pairs = rules.pairs();
    for e in places {
        count_group(rules, *e, counts);
    }
}

// Clears the counters of the groups of these places.
fn uncount_groups(rules: &Rules, places: &[u32], counts: &mut [u32])
    requires places { ArePlaces rules.now places.now }
    requires counts { AreCounts counts.old (group_count rules.now) (member_count rules.now places.now) }
    ensures { AreCounts counts.new (group_count rules.now) (λ g. 0) }
{
    for e in places {
        uncount_group(rules, *e, counts);
    }
}

// The lower of a group and a pair's group, if that is over the limit.
fn lower_over(rules: &Rules, e: u32, counts: &[u32], first: u32) -> u32
    requires known { e < length rules.now.pairs }
    requires size { length counts.now ≡ group_count rules.now }
    ensures low { result ≤ first }
    ensures over { (result ≡ first) ⊎ ((result < group_count rules.now) × (rules.now.limit < slice_index counts.now result)) }
    ensures least { (g : ℕ) → group_of rules.now e ≡ Some g → rules.now.limit < slice_index counts.now g → result ≤ g }
{
    match rules.group_of(e) {
        Some(group) => {
            if counts[group as usize] <= rules.limit() {
                return first;
            }
            group.min(first)
        }
        None => first,
    }
}

// The least group over the limit, and the number of groups where none is.
fn least_over(rules: &Rules, places: &[u32], counts: &[u32]) -> u32
    requires places { ArePlaces rules.now places.now }
    requires counts { AreCounts counts.now (group_count rules.now) (member_count rules.now places.now) }
    ensures { IsLeastOver rules.now places.now result }
{
    let mut first = rules.group_count();
    for e in places {
        first = lower_over(rules, *e, counts, first);
    }
    first
}

// The break of the least group over the limit.
fn over_break(rules: &Rules, k: u32, places: &[u32], counts: &[u32]) -> Option<Break>
    requires places { ArePlaces rules.now places.now }
    requires counts { AreCounts counts.now (group_count rules.now) (member_count rules.now places.now) }
    ensures { result ≡ first_below (group_count rules.now) (group_break rules.now k places.now) }
{
    let group = least_over(rules, places, counts);
    if group == rules.group_count() {
        return None;
    }
    Some(Break::Group {
        piece: k,
        group,
        count: counts[group as usize],
    })
}

// Clause 4 in the piece at place `k`.
fn group_in_piece(rules: &Rules, k: u32, places: &[u32], counts: &mut [u32]) -> Option<Break>
    requires places { ArePlaces rules.now places.now }
    requires zero { AreCounts counts.old (group_count rules.now) (λ g. 0) }
    ensures exact { result ≡ first_below (group_count rules.now) (group_break rules.now k places.now) }
    ensures zero { AreCounts counts.new (group_count rules.now) (λ g. 0) }
{
    count_groups(rules, places, counts);
    let broken = over_break(rules, k, places, counts);
    uncount_groups(rules, places, counts);
    broken
}

// Clause 4.
pub(crate) fn broken_group(rules: &Rules, pieces: &[Piece], counts: &mut [u32]) -> Option<Break>
    requires pieces { ArePieces pieces.now }
    requires known { LotteryMatches rules.now pieces.now }
    requires size { length counts.old ≡ group_count rules.now }
    ensures { result ≡ in_pieces pieces.now (group_count rules.now) (group_break rules.now) }
{
    counts.fill(0);
    for (k, piece) in pieces.iter().enumerate() {
        let broken = group_in_piece(rules, k as u32, piece.pairs.as_slice(), counts);
        if broken.is_some() {
            return broken;
        }
    }
    None
}
