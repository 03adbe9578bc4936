// The first clause of the check that a lottery breaks.

ghost use Rattle.std.specs.Prelude.{◌≡◌, ℕ, ◌+◌, ◌*◌, ◌^◌, ◌<◌, ◌≤◌, ◌==◌, ◌↔◌, not, length, All, IfOk, IsNone, slice_index};
ghost use Rattle.match_rules.specs.Answers.{LotteryMatches};
ghost use Rattle.match_rules.specs.Assignments.{holds, paper_count, reviewer_count, tickets, times};
ghost use Rattle.match_rules.specs.Breaks.{first_break_of, tickets_break, demand_break, load_break, lock_break, share_break, cap_break, in_pieces, piece_breaks, pair_breaks};
ghost use Rattle.match_rules.specs.First.{first_below};
ghost use Rattle.match_rules.specs.Groups.{group_count};
ghost use Rattle.match_rules.specs.Pieces.{ArePieces, DoAscend, piece_at};
ghost use Rattle.match_rules.specs.Rules.{AreRules};
ghost use Rattle.match_rules.specs.Sound.{AreCounts, ArePlaces, IsSound, cap_counted, share_counted, sizes_of};

use crate::breaks::Break;
use crate::group_check::broken_group;
use crate::lists::Shares;
use crate::lottery::{Lottery, Piece};
use crate::rules::{MOST_PAIRS, MOST_TICKETS, Rules};
use crate::sizes::Sizes;
use std::alloc::{AllocError, Global};
use std::marker::Model;

/// Counters for `first_break`: made once for rules, they serve any number of lotteries for these rules.
#[derive(Drop)]
pub struct Scratch {
    papers: Vec<u32>,
    reviewers: Vec<u32>,
    groups: Vec<u32>,
    pairs: Vec<u64>,
}

impl Model for Scratch {
    ghost use Rattle.std.specs.Prelude.{length};
    ghost use Rattle.match_rules.specs.declared.sizes.Sizes.{Sizes};

    ghost Value = { Sizes };

    ghost view = { λ s. record { papers = length s.papers.items; groups = length s.groups.items; reviewers = length s.reviewers.items; pairs = length s.pairs.items } };
}

impl Scratch {
    /// Counters for the papers, reviewers, groups and pairs of rules.
    pub fn new(alloc: Global, rules: &Rules) -> Result<Scratch, AllocError>
        ensures { IfOk result (λ scratch. scratch ≡ sizes_of rules.now) }
    {
        let sizes = Sizes::of(rules);
        let papers = vec![in alloc; 0; sizes.papers as usize]?;
        let reviewers = vec![in alloc; 0; sizes.reviewers as usize]?;
        let groups = vec![in alloc; 0; sizes.groups as usize]?;
        let pairs = vec![in alloc; 0; sizes.pairs as usize]?;
        Ok(Scratch {
            papers,
            reviewers,
            groups,
            pairs,
        })
    }
}

// Clause 1: the sum of the weights.
fn sum_of_weights(pieces: &[Piece]) -> u64
    requires { ArePieces pieces.now }
    ensures { result ≡ tickets pieces.now }
{
    let mut sum = 0;
    for piece in pieces {
        sum += u64::from(piece.weight);
    }
    sum
}

fn broken_tickets(rules: &Rules, pieces: &[Piece]) -> Option<Break>
    requires { ArePieces pieces.now }
    ensures exact { result ≡ tickets_break rules.now pieces.now }
    ensures rules { AreRules rules.now }
{
    let sum = sum_of_weights(pieces);
    if sum == u64::from(rules.tickets()) {
        None
    } else {
        Some(Break::Tickets { sum })
    }
}

// How often each paper is among places of pairs.
fn count_papers(rules: &Rules, places: &[u32], counts: &mut [u32])
    requires places { ArePlaces rules.now places.now }
    requires size { length counts.old ≡ length rules.now.papers }
    ensures { AreCounts counts.new (length rules.now.papers) (paper_count rules.now places.now) }
{
    counts.fill(0);
    let pairs = rules.pairs();
    for e in places {
        let paper = pairs[*e as usize].paper as usize;
        counts[paper] += 1;
    }
}

// How often each reviewer is among places of pairs.
fn count_reviewers(rules: &Rules, places: &[u32], counts: &mut [u32])
    requires places { ArePlaces rules.now places.now }
    requires size { length counts.old ≡ length rules.now.reviewers }
    ensures { AreCounts counts.new (length rules.now.reviewers) (reviewer_count rules.now places.now) }
{
    counts.fill(0);
    let pairs = rules.pairs();
    for e in places {
        let reviewer = pairs[*e as usize].reviewer as usize;
        counts[reviewer] += 1;
    }
}

// Clause 2 in the piece at place `k`.
fn demand_in_piece(rules: &Rules, k: u32, places: &[u32], counts: &mut [u32]) -> Option<Break>
    requires places { ArePlaces rules.now places.now }
    requires size { length counts.old ≡ length rules.now.papers }
    ensures { result ≡ first_below (length rules.now.papers) (demand_break rules.now k places.now) }
{
    count_papers(rules, places, counts);
    for (p, paper) in rules.papers().iter().enumerate() {
        let count = counts[p];
        if count != paper.demand {
            return Some(Break::Demand {
                piece: k,
                paper: p as u32,
                count,
            });
        }
    }
    None
}

// Clause 3 in the piece at place `k`.
fn load_in_piece(rules: &Rules, k: u32, places: &[u32], counts: &mut [u32]) -> Option<Break>
    requires places { ArePlaces rules.now places.now }
    requires size { length counts.old ≡ length rules.now.reviewers }
    ensures { result ≡ first_below (length rules.now.reviewers) (load_break rules.now k places.now) }
{
    count_reviewers(rules, places, counts);
    for (r, reviewer) in rules.reviewers().iter().enumerate() {
        let count = counts[r];
        if count < reviewer.least || count > reviewer.greatest {
            return Some(Break::Load {
                piece: k,
                reviewer: r as u32,
                count,
            });
        }
    }
    None
}

fn has_place(places: &[u32], e: u32) -> bool
    requires { DoAscend places.now }
    ensures { result ≡ not (holds places.now e == 0) }
{
    places.binary_search(&e).is_ok()
}

// Clause 5 in the piece at place `k`.
fn lock_in_piece(rules: &Rules, k: u32, places: &[u32]) -> Option<Break>
    requires { DoAscend places.now }
    ensures { result ≡ first_below (length rules.now.pairs) (lock_break rules.now k places.now) }
{
    for e in rules.locked() {
        if !has_place(places, *e) {
            return Some(Break::Lock { piece: k, pair: *e });
        }
    }
    None
}

// Clause 2.
fn broken_demand(rules: &Rules, pieces: &[Piece], counts: &mut [u32]) -> Option<Break>
    requires pieces { ArePieces pieces.now }
    requires known { LotteryMatches rules.now pieces.now }
    requires size { length counts.old ≡ length rules.now.papers }
    ensures { result ≡ in_pieces pieces.now (length rules.now.papers) (demand_break rules.now) }
{
    for (k, piece) in pieces.iter().enumerate() {
        let broken = demand_in_piece(rules, k as u32, piece.pairs.as_slice(), counts);
        if broken.is_some() {
            return broken;
        }
    }
    None
}

// Clause 3.
fn broken_load(rules: &Rules, pieces: &[Piece], counts: &mut [u32]) -> Option<Break>
    requires pieces { ArePieces pieces.now }
    requires known { LotteryMatches rules.now pieces.now }
    requires size { length counts.old ≡ length rules.now.reviewers }
    ensures { result ≡ in_pieces pieces.now (length rules.now.reviewers) (load_break rules.now) }
{
    for (k, piece) in pieces.iter().enumerate() {
        let broken = load_in_piece(rules, k as u32, piece.pairs.as_slice(), counts);
        if broken.is_some() {
            return broken;
        }
    }
    None
}

// Clause 5.
fn broken_lock(rules: &Rules, pieces: &[Piece]) -> Option<Break>
    requires { ArePieces pieces.now }
    ensures { result ≡ in_pieces pieces.now (length rules.now.pairs) (lock_break rules.now) }
{
    for (k, piece) in pieces.iter().enumerate() {
        let broken = lock_in_piece(rules, k as u32, piece.pairs.as_slice());
        if broken.is_some() {
            return broken;
        }
    }
    None
}

// Clauses 2 to 5.
fn broken_piece(
    rules: &Rules,
    pieces: &[Piece],
    papers: &mut [u32],
    reviewers: &mut [u32],
    groups: &mut [u32],
) -> Option<Break>
    requires pieces { ArePieces pieces.now }
    requires known { LotteryMatches rules.now pieces.now }
    requires papers { length papers.old ≡ length rules.now.papers }
    requires reviewers { length reviewers.old ≡ length rules.now.reviewers }
    requires groups { length groups.old ≡ group_count rules.now }
    ensures { result ≡ piece_breaks rules.now pieces.now }
{
    let broken = broken_demand(rules, pieces, papers);
    if broken.is_some() {
        return broken;
    }
    let broken = broken_load(rules, pieces, reviewers);
    if broken.is_some() {
        return broken;
    }
    let broken = broken_group(rules, pieces, groups);
    if broken.is_some() {
        return broken;
    }
    broken_lock(rules, pieces)
}

// Adds a weight for each of the places.
fn add_weight(places: &[u32], weight: u32, counts: &mut [u64])
    requires places { All (λ e. e < length counts.old) places.now }
    requires few { length places.now ≤ MOST_PAIRS }
    requires weight { weight ≤ MOST_TICKETS }
    requires fits { (e : ℕ) → e < length counts.old → slice_index counts.old e ≤ 2 ^ 62 }
    ensures { AreCounts counts.new (length counts.old) (λ e. slice_index counts.old e + weight * holds places.now e) }
{
    for e in places {
        counts[*e as usize] += u64::from(weight);
    }
}

// The weights of the pieces that hold each pair.
fn count_times(rules: &Rules, pieces: &[Piece], counts: &mut [u64])
    requires pieces { ArePieces pieces.now }
    requires known { LotteryMatches rules.now pieces.now }
    requires size { length counts.old ≡ length rules.now.pairs }
    ensures { AreCounts counts.new (length rules.now.pairs) (times pieces.now) }
{
    let _pairs = rules.pairs();
    counts.fill(0);
    for piece in pieces {
        add_weight(piece.pairs.as_slice(), piece.weight, counts);
    }
}

// Clause 6, over counted weights.
fn broken_share(shares: &[u32], counts: &[u64]) -> Option<Break>
    requires size { length shares.now ≡ length counts.now }
    requires few { length counts.now ≤ MOST_PAIRS }
    ensures { result ≡ first_below (length counts.now) (share_counted shares.now counts.now) }
{
    for (e, share) in shares.iter().enumerate() {
        let printed = u64::from(*share);
        let counted = counts[e];
        if counted != printed {
            return Some(Break::Share {
                pair: e as u32,
                printed,
                counted,
            });
        }
    }
    None
}

// Clause 7, over counted weights.
fn broken_cap(rules: &Rules, counts: &[u64]) -> Option<Break>
    requires { length counts.now ≡ length rules.now.pairs }
    ensures { result ≡ first_below (length rules.now.pairs) (cap_counted rules.now counts.now) }
{
    for (e, pair) in rules.pairs().iter().enumerate() {
        if counts[e] > u64::from(pair.cap) {
            return Some(Break::Cap { pair: e as u32 });
        }
    }
    None
}

// Clauses 6 and 7.
fn broken_pair(rules: &Rules, shares: &[u32], pieces: &[Piece], counts: &mut [u64]) -> Option<Break>
    requires shares { length shares.now ≡ length rules.now.pairs }
    requires pieces { ArePieces pieces.now }
    requires known { LotteryMatches rules.now pieces.now }
    requires size { length counts.old ≡ length rules.now.pairs }
    ensures { result ≡ pair_breaks rules.now shares.now pieces.now }
{
    count_times(rules, pieces, counts);
    let _pairs = rules.pairs();
    let broken = broken_share(shares, counts);
    if broken.is_some() {
        return broken;
    }
    broken_cap(rules, counts)
}

/// The first broken clause of the check of a lottery, of the clauses 1 to 7, and in it the least piece and then the
/// least place; None exactly where the lottery fits, has all tickets and gives each pair its share. Each piece takes
/// time in proportion to its places, the papers and the reviewers, and a search for each of its locked pairs.
pub fn first_break(
    rules: &Rules,
    shares: &Shares,
    lottery: &Lottery,
    scratch: &mut Scratch,
) -> Option<Break>
    requires shares { length shares.now ≡ length rules.now.pairs }
    requires lottery { LotteryMatches rules.now lottery.now }
    requires scratch { scratch.old ≡ sizes_of rules.now }
    ensures exact { result ≡ first_break_of rules.now shares.now lottery.now }
    ensures kept { scratch.new ≡ scratch.old }
    ensures fits { IsNone result ↔ IsSound rules.now shares.now lottery.now }
{
    let pieces = lottery.pieces();
    let broken = broken_tickets(rules, pieces);
    if broken.is_some() {
        return broken;
    }
    let broken = broken_piece(
        rules,
        pieces,
        scratch.papers.as_mut_slice(),
        scratch.reviewers.as_mut_slice(),
        scratch.groups.as_mut_slice(),
    );
    if broken.is_some() {
        return broken;
    }
    broken_pair(
        rules,
        shares.as_slice(),
        pieces,
        scratch.pairs.as_mut_slice(),
    )
}
