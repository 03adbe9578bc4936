// For how many tickets an assignment may stand.

ghost use Rattle.std.specs.Prelude.{◌≡◌, ◌+◌, ◌-◌, ◌≤◌, length};
ghost use Rattle.bounded_network.specs.Compile.{flow_of};
ghost use Rattle.lottery_peel.specs.Peeling.{limit, IsWeight};
ghost use Rattle.lottery_peel.specs.Standing.{IsLeastDue, IsNextStanding, rest_of};

use crate::dues::least_due;
use crate::standing::Standing;
use match_rules::Rules;

/// For how many of the tickets that are left a count may stand.
pub fn limit_of(left: u64, amount: u64, count: u64) -> u64
    requires { 1 ≤ left }
    ensures value { result ≡ limit left amount count }
    ensures most { result ≤ left }
{
    let over = amount % left;
    if over == 0 {
        left
    } else if count == amount / left {
        left - over
    } else {
        over
    }
}

/// The greatest number of tickets for which all counts may stand, up to those that are left: until one is due.
pub fn weight_of(rules: &Rules, left: u32, standing: &Standing) -> u32
    requires some { 1 ≤ left }
    requires fewer { left ≤ rules.now.tickets }
    requires next { IsNextStanding rules.now left (rest_of rules.now left standing.now) standing.now }
    ensures weighs { IsWeight left (flow_of rules.now (rest_of rules.now left standing.now)) standing.now.counts.items (length (flow_of rules.now (rest_of rules.now left standing.now))) result }
    ensures least { IsLeastDue rules.now.tickets standing.now.dues.items (rules.now.tickets - left + result) }
{
    let all = rules.tickets();
    let used = all - left;
    let ticket = least_due(all, used, standing.dues.as_slice(), &standing.waiting);
    ticket - used
}
