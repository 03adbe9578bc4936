// The pieces of shares.

ghost use Rattle.std.specs.Prelude.{◌≡◌, ◌+◌, ◌≤◌, length, All, IfOk};
ghost use Rattle.match_rules.specs.declared.answer.Sieve.{Sieve};
ghost use Rattle.match_rules.specs.declared.answer.Sieve.TheVariants.{All as EveryPair};
ghost use Rattle.match_rules.specs.Answers.{Rounded};
ghost use Rattle.match_rules.specs.Assignments.{Fits, Meets, tickets};
ghost use Rattle.match_rules.specs.Plain.{Plain};
ghost use Rattle.match_rules.specs.Rules.{AreRules};
ghost use Rattle.match_rules.specs.SharesFit.{HasShares, SharesFit};
ghost use Rattle.lottery_peel.specs.Peeling.{IsPeeled, unwhole_count};

use crate::remainder::Remainder;
use match_rules::{Lottery, Piece, Rules, Shares};
use std::alloc::{AllocError, Global};

// The pieces, in the order in which they are peeled off.
fn pieces_of(alloc: Global, rules: &Rules, shares: &Shares) -> Result<Vec<Piece>, AllocError>
    requires plain { Plain rules.now }
    requires fit { SharesFit rules.now EveryPair shares.now }
    ensures peeled { IfOk result (λ pieces. IsPeeled rules.now shares.now pieces.items) }
    ensures kept { AreRules rules.now }
{
    let mut pieces = Vec::new(alloc);
    let mut remainder = Remainder::of(alloc, rules, shares)?;
    while remainder.left() > 0 {
        let (piece, next) = remainder.next(alloc)?;
        pieces.push(piece)?;
        remainder = next;
    }
    Ok(pieces)
}

/// A lottery of whole assignments that gives each pair exactly its share of the tickets.
///
/// Each piece meets the rules, and is the shares divided by the tickets and rounded: the count of each reviewer, group and
/// pair is its sum of shares, rounded down or up. There is at most one piece more than there are pairs, groups and
/// reviewers with a sum that is no multiple of the tickets.
///
/// This is Birkhoff's decomposition, for two families of nested sets (Budish, Che, Kojima and Milgrom, *Designing random
/// allocation mechanisms: theory and applications*, American Economic Review 2013), by networks with rounded bounds. The
/// first piece takes a flow. Each later one is the last one, repaired: an amount that has become a multiple of the tickets that
/// are left gets its other count by a unit over its arc and back along a path. Beside these paths a piece takes time in proportion
/// to its pairs, which it copies out. Memory is that of the lottery, the network and the rules.
pub fn peel(alloc: Global, rules: &Rules, shares: &Shares) -> Result<Lottery, AllocError>
    requires plain { Plain rules.now }
    requires fit { SharesFit rules.now EveryPair shares.now }
    ensures whole { IfOk result (λ lottery. tickets lottery ≡ rules.now.tickets) }
    ensures exact { IfOk result (HasShares rules.now shares.now) }
    ensures meets { IfOk result (All (λ piece. Meets rules.now piece.pairs)) }
    ensures rounded { IfOk result (All (λ piece. Rounded rules.now shares.now piece.pairs)) }
    ensures few { IfOk result (λ lottery. length lottery ≤ 1 + unwhole_count rules.now shares.now) }
    ensures fits { IfOk result (λ lottery. (sieve : Sieve) → SharesFit rules.now sieve shares.now → Fits rules.now sieve lottery) }
{
    let mut pieces = pieces_of(alloc, rules, shares)?;
    pieces.sort_unstable_by(|a, b| a.pairs.as_slice().cmp(b.pairs.as_slice()));
    Ok(Lottery::of_tested(pieces))
}
