// What is left of shares while pieces are peeled off.

ghost use Rattle.std.specs.Prelude.{◌≡◌, ◌+◌, ◌<◌, ◌≤◌, ◌⊎◌, ℕ, length, slice_index, IfOk, OnOk};
ghost use Rattle.match_rules.specs.Plain.{Plain};
ghost use Rattle.match_rules.specs.Rules.{AreRules};
ghost use Rattle.lottery_peel.specs.Peeling.{IsStepTo};
ghost use Rattle.lottery_peel.specs.Standing.{IsNextStanding, IsStanding, TightAt, rest_of};

use crate::settling::advance;
use crate::standing::{Standing, first_standing};
use crate::weights::weight_of;
use match_rules::{Piece, Places, Rules, Shares};
use std::alloc::{AllocError, Global};
use std::marker::Model;

/// The tickets that are left and the counts of a next assignment. What is left of the shares is kept nowhere: the counts, and the
/// tickets at which they are due, say it. Contracts see the amounts and the counts.
#[derive(Drop)]
pub struct Remainder<'a> {
    rules: &'a Rules,
    left: u32,
    standing: Standing,
    arcs: Vec<u32>,
}

impl<'a> Model for Remainder<'a> {
    ghost use Rattle.lottery_peel.specs.Remainder.{IsRemainder, RemainderValue};
    ghost use Rattle.lottery_peel.specs.Standing.{rest_of};

    ghost Value = { RemainderValue };

    ghost view = { λ s. record { rules = s.rules.now; left = s.left; rest = rest_of s.rules.now s.left s.standing; counts = s.standing.counts.items } };

    ghost invariant = { λ s. IsRemainder s.rules.now s.left (rest_of s.rules.now s.left s.standing) s.standing };
}

// Makes the counts those of a next assignment, unless no tickets are left.
fn go_on(
    rules: &Rules,
    left: u32,
    standing: &mut Standing,
    arcs: &mut Vec<u32>,
) -> Result<(), AllocError>
    requires fewer { left ≤ rules.now.tickets }
    requires stands { IsStanding rules.now left (rest_of rules.now left standing.old) standing.old }
    requires ready { 1 ≤ left → (a : ℕ) → a < length standing.old.net.arcs → (TightAt rules.now.tickets left standing.old a ⊎ (slice_index standing.old.dues.items a + left ≡ rules.now.tickets)) }
    ensures stands { OnOk result (IsStanding rules.now left (rest_of rules.now left standing.old) standing.new) }
    ensures next { OnOk result (1 ≤ left → IsNextStanding rules.now left (rest_of rules.now left standing.old) standing.new) }
{
    if left > 0 {
        advance(rules, left, standing, arcs)?;
    }
    Ok(())
}

impl<'a> Remainder<'a> {
    ghost use Rattle.lottery_peel.specs.Remainder.{RemainderValue};

    /// All of the shares.
    pub fn of(alloc: Global, rules: &'a Rules, shares: &Shares) -> Result<Self, AllocError>
        requires plain { Plain rules.now }
        requires long { length shares.now ≡ length rules.now.pairs }
        ensures rules { IfOk result (λ all. all.rules ≡ rules.now) }
        ensures left { IfOk result (λ all. all.left ≡ rules.now.tickets) }
        ensures rest { IfOk result (λ all. all.rest ≡ shares.now) }
        ensures kept { AreRules rules.now }
    {
        let left = rules.tickets();
        let standing = first_standing(alloc, rules, shares)?;
        Ok(Remainder {
            rules,
            left,
            standing,
            arcs: Vec::new(alloc),
        })
    }

    /// The tickets that are left.
    pub fn left(&self) -> u32
        ensures { result ≡ self.now.left }
    {
        self.left
    }

    /// A piece of as many tickets as the counts may stand for, and what is left after it.
    pub fn next(self, alloc: Global) -> Result<(Piece, Self), AllocError>
        requires some { 1 ≤ self.left }
        ensures rules { IfOk result (λ taken. taken.1.rules ≡ self.entry.rules) }
        ensures step { IfOk result (λ taken. IsStepTo self.entry.rules self.entry.left self.entry.rest self.entry.counts taken.0 taken.1.left taken.1.rest) }
    {
        let Remainder {
            rules,
            left,
            mut standing,
            mut arcs,
        } = self;
        let weight = weight_of(rules, left, &standing);
        let places = Vec::from_slice(alloc, standing.chosen.as_slice())?;
        let next = left - weight;
        go_on(rules, next, &mut standing, &mut arcs)?;
        let piece = Piece {
            weight,
            pairs: Places::from_vec(places),
        };
        let remainder = Remainder {
            rules,
            left: next,
            standing,
            arcs,
        };
        Ok((piece, remainder))
    }
}
