// A cut that shows that no lottery fits, with its numbers.

ghost use Rattle.std.specs.Prelude.{◌≡◌, length, IfOk};
ghost use Rattle.match_rules.specs.declared.answer.Mode.TheVariants.{Whole};
ghost use Rattle.match_rules.specs.declared.answer.Sieve.TheVariants.{All as EveryPair};
ghost use Rattle.match_rules.specs.Plain.{Plain};
ghost use Rattle.match_rules.specs.Answers.{CutMatches};
ghost use Rattle.match_rules.specs.Evidence.{Violated};
ghost use Rattle.bounded_network.specs.Compile.{network_of, node_count};
ghost use Rattle.bounded_network.specs.Network.{AreViolated};
ghost use Rattle.bounded_network.specs.Spans.{ticket_spans};
ghost use Rattle.solve_line.specs.Verdicts.{IsForbidden};

use bounded_network::cut_of;
use dual_check::{Excess, excess};
use match_rules::{Blocked, Cut, Mode, Rules, Sieve};
use std::alloc::{AllocError, Global};

/// A violated cut, with what has to pass it and what may.
pub(crate) fn count(rules: &Rules, mode: Mode, cut: Cut) -> Blocked
    requires known { CutMatches rules.now cut }
    requires violated { Violated rules.now EveryPair cut }
    ensures { IsForbidden rules.now mode result }
{
    // The rules keep their conditions.
    let _pairs = rules.pairs();
    let Excess { need, room } = excess(rules, Sieve::All, &cut);
    Blocked {
        mode,
        cut,
        need,
        room,
    }
}

/// The cut of violated marks of the network of the rules with all pairs, in the mode whole.
pub(crate) fn block(alloc: Global, rules: &Rules, marks: &[bool]) -> Result<Blocked, AllocError>
    requires plain { Plain rules.now }
    requires long { length marks.now ≡ node_count rules.now }
    requires broken { AreViolated (network_of rules.now (ticket_spans rules.now EveryPair)) marks.now }
    ensures { IfOk result (IsForbidden rules.now Whole) }
{
    let cut = cut_of(alloc, rules, Sieve::All, marks)?;
    Ok(count(rules, Mode::Whole, cut))
}
