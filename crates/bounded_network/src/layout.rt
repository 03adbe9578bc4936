// The nodes of the network of rules.

ghost use Rattle.std.specs.Prelude.{◌≡◌, ◌<◌, length};
ghost use Rattle.match_rules.specs.Groups.{group_count};
ghost use Rattle.match_rules.specs.Rules.{AreRules};
ghost use Rattle.bounded_network.specs.declared.network.TheConstants.{MAX_NODES};
ghost use Rattle.bounded_network.specs.Compile.{group_node, parent_of, reviewer_node, hub, tail_of};

use match_rules::Rules;

// The node of a group.
pub fn group_node_of(rules: &Rules, group: u32) -> u32
    requires { group < group_count rules.now }
    ensures value { result ≡ group_node rules.now group }
    ensures small { result < MAX_NODES }
{
    rules.papers().len() as u32 + group
}

// The node that a group's amount comes from.
pub fn parent(rules: &Rules, group: u32) -> u32
    requires { group < group_count rules.now }
    ensures value { result ≡ parent_of rules.now group }
    ensures below { result < hub rules.now }
{
    // The rules keep their conditions.
    let _pairs = rules.pairs();
    rules.group_at(group).paper
}

// The node of a reviewer.
pub fn reviewer_node_of(rules: &Rules, reviewer: u32) -> u32
    requires { reviewer < length rules.now.reviewers }
    ensures value { result ≡ reviewer_node rules.now reviewer }
    ensures small { result < MAX_NODES }
{
    rules.papers().len() as u32 + rules.group_count() + reviewer
}

// The hub, which is the last node.
pub fn hub_of(rules: &Rules) -> u32
    ensures value { result ≡ hub rules.now }
    ensures small { result < MAX_NODES }
    ensures kept { AreRules rules.now }
{
    rules.papers().len() as u32 + rules.group_count() + rules.reviewers().len() as u32
}

// The node that a pair's amount comes from.
pub fn tail(rules: &Rules, e: u32) -> u32
    requires { e < length rules.now.pairs }
    ensures { result ≡ tail_of rules.now e }
{
    match rules.group_of(e) {
        Some(group) => group_node_of(rules, group),
        None => rules.pairs()[e as usize].paper,
    }
}
