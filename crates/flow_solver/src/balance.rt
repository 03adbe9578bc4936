// From the first state to one that is balanced, or to marks that show that there is none.
ghost use Rattle.std.specs.Prelude.{◌≡◌, Ok, IfOk, IfErr, IsNone};
ghost use Rattle.flow_solver.specs.declared.balance.Balance.TheVariants.{GivenUp};
ghost use Rattle.flow_solver.specs.Balance.{IsBalanced, AreExcluding, Balances};
ghost use Rattle.residual_arcs.specs.Links.{AreLinks};
ghost use Rattle.flow_solver.specs.Calm.{IsCalm};

use crate::blank::blank;
use crate::blocking::block;
use crate::coarse::greatest_cost;
use crate::cut::{is_violated, low_nodes};
use crate::drain::{Outcome, drain};
use crate::guess::first_potentials;
use crate::scaling::coarse_potentials;
use crate::start::start_at;
use crate::state::State;
use bounded_network::Network;
use residual_arcs::Links;
use std::alloc::{AllocError, Global};

// How many links searches may go over for each arc before a network counts as hard.
const PATIENCE: usize = 20;

/// What came of all excesses.
#[derive(Drop)]
pub enum Balance<'a> {
    /// The state without an excess.
    Balanced(State<'a>),
    /// Marks of nodes that can't get rid of an excess.
    Cut(Vec<bool>),
    /// The patience was at its end.
    GivenUp,
}

// Carries all excesses of the state away, for as long as the patience lasts.
fn drain_all<'a>(
    alloc: Global,
    links: &Links,
    mut state: State<'a>,
    mut patience: Option<usize>,
) -> Result<Balance<'a>, AllocError>
    requires calm { IsCalm state }
    requires links { AreLinks state.network.now links.now }
    ensures balances { IfOk result (Balances state.entry.network.now) }
    ensures patient { IsNone patience → ¬ (result ≡ Ok GivenUp) }
{
    let mut search = blank(alloc, state.network)?;
    for source in 0..state.network.nodes() {
        match drain(links, &mut state, &mut search, source, &mut patience)? {
            Outcome::Drained => {}
            Outcome::Stuck => return Ok(Balance::Cut(search.settled)),
            Outcome::GivenUp => return Ok(Balance::GivenUp),
        }
    }
    Ok(Balance::Balanced(state))
}

// The same from the potentials of a coarse solution, which often shows at once that there is no circulation.
fn balanced_anew<'a>(
    alloc: Global,
    net: &'a Network,
    links: &Links,
) -> Result<Result<State<'a>, Vec<bool>>, AllocError>
    requires links { AreLinks net.now links.now }
    ensures balanced { IfOk result (λ answer. IfOk answer (IsBalanced net.now)) }
    ensures excluding { IfOk result (λ answer. IfErr answer (λ marks. AreExcluding net.now marks.items)) }
{
    let potentials = coarse_potentials(alloc, net, links)?;
    let marks = low_nodes(alloc, &potentials)?;
    let violated = is_violated(net, &marks);
    if violated {
        return Ok(Err(marks));
    }
    let mut state = start_at(alloc, net, potentials)?;
    block(alloc, links, &mut state)?;
    match drain_all(alloc, links, state, None)? {
        Balance::Balanced(state) => Ok(Ok(state)),
        Balance::Cut(marks) => Ok(Err(marks)),
        Balance::GivenUp => unreachable!(),
    }
}

// How many links searches may go over before the coarse solution is asked. Where nothing costs anything, that says nothing new.
fn patience_for(net: &Network) -> Option<usize> {
    if greatest_cost(net) == 0 {
        None
    } else {
        Some(PATIENCE * net.arcs().len())
    }
}

/// A balanced state, or marks that show that there is none. It begins at plain potentials. Where little work isn't enough
/// there, it begins anew at those of a coarse solution: they take longer to find, and the rest of the work is less.
pub fn balanced<'a>(
    alloc: Global,
    net: &'a Network,
    links: &Links,
) -> Result<Result<State<'a>, Vec<bool>>, AllocError>
    requires links { AreLinks net.now links.now }
    ensures balanced { IfOk result (λ answer. IfOk answer (IsBalanced net.now)) }
    ensures excluding { IfOk result (λ answer. IfErr answer (λ marks. AreExcluding net.now marks.items)) }
{
    let potentials = first_potentials(alloc, net)?;
    let mut state = start_at(alloc, net, potentials)?;
    block(alloc, links, &mut state)?;
    match drain_all(alloc, links, state, patience_for(net))? {
        Balance::Balanced(state) => Ok(Ok(state)),
        Balance::Cut(marks) => Ok(Err(marks)),
        Balance::GivenUp => balanced_anew(alloc, net, links),
    }
}
