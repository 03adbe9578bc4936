// Which places a cut marks, and what goes into or out of the marked nodes.

ghost use Rattle.std.specs.Prelude.{◌≡◌, ◌<◌, length};
ghost use Rattle.match_rules.specs.Answers.{CutMatches};
ghost use Rattle.match_rules.specs.Evidence.{marks, tail_marked, head_marked};
ghost use Rattle.match_rules.specs.Groups.{group_count};
ghost use Rattle.match_rules.specs.Pieces.{DoAscend};
ghost use Rattle.dual_check.specs.Crossing.{goes, crosses, crosses_group};

use match_rules::{Cut, Places, Rules, Side, Sieve};

/// Whether a place is among marked ones.
pub(crate) fn is_marked(places: &Places, place: u32) -> bool
    requires ascending { DoAscend places.now }
    ensures value { result ≡ marks places.now place }
{
    places.as_slice().binary_search(&place).is_ok()
}

/// Whether the group of a pair is marked, or its paper where it has no group.
fn is_tail_marked(rules: &Rules, cut: &Cut, pair: u32) -> bool
    requires place { pair < length rules.now.pairs }
    requires fitting { CutMatches rules.now cut.now }
    ensures value { result ≡ tail_marked rules.now cut.now pair }
{
    match rules.group_of(pair) {
        Some(group) => is_marked(&cut.groups, group),
        None => is_marked(&cut.papers, rules.pairs()[pair as usize].paper),
    }
}

/// Whether the reviewer of a pair is marked.
fn is_head_marked(rules: &Rules, cut: &Cut, pair: u32) -> bool
    requires place { pair < length rules.now.pairs }
    requires fitting { CutMatches rules.now cut.now }
    ensures value { result ≡ head_marked rules.now cut.now pair }
{
    is_marked(&cut.reviewers, rules.pairs()[pair as usize].reviewer)
}

/// Whether one end alone is marked, by the way that goes over the edge of the marked nodes.
fn goes_over(way: Side, tail: bool, head: bool) -> bool
    ensures value { result ≡ goes way tail head }
{
    match way {
        Side::Into => !tail && head,
        Side::OutOf => tail && !head,
    }
}

/// Whether a kept pair goes into, or out of, the marked nodes.
pub(crate) fn is_crossing(rules: &Rules, sieve: Sieve, cut: &Cut, way: Side, pair: u32) -> bool
    requires place { pair < length rules.now.pairs }
    requires fitting { CutMatches rules.now cut.now }
    ensures value { result ≡ crosses way rules.now sieve cut.now pair }
{
    let tail = is_tail_marked(rules, cut, pair);
    let head = is_head_marked(rules, cut, pair);
    rules.keeps(sieve, pair) && goes_over(way, tail, head)
}

/// Whether the way from a paper to its group goes into, or out of, the marked nodes.
pub(crate) fn is_group_crossing(rules: &Rules, cut: &Cut, way: Side, group: u32) -> bool
    requires place { group < group_count rules.now }
    requires fitting { CutMatches rules.now cut.now }
    ensures value { result ≡ crosses_group way rules.now cut.now group }
{
    let paper = rules.group_at(group).paper;
    let tail = is_marked(&cut.papers, paper);
    let head = is_marked(&cut.groups, group);
    goes_over(way, tail, head)
}
