// The places of the arcs of the network of rules.

ghost use Rattle.std.specs.Prelude.{◌≡◌, ◌<◌, ℕ, List, length, slice_index};
ghost use Rattle.match_rules.specs.Groups.{group_count};
ghost use Rattle.match_rules.specs.Rules.{RulesValue};
ghost use Rattle.match_rules.specs.SharesFit.{paper_shares, group_shares, reviewer_shares};
ghost use Rattle.bounded_network.specs.Compile.{pair_arc, paper_arc, group_arc, reviewer_arc, pair_place, paper_place, group_place, reviewer_place, place_count, network_of, flow_of};
ghost use Rattle.bounded_network.specs.Network.{arc_at};
ghost use Rattle.bounded_network.specs.Spans.{Spans};

/// Where the arc of each pair, paper, group and reviewer stands, whatever the bounds, and its amount in the flow of amounts.
/// The body is empty: the clauses are the laws.
pub fn place_laws()
    ensures arcs { (rules : RulesValue) (spans : Spans) → length (network_of rules spans).arcs ≡ place_count rules }
    ensures pair_arcs { (rules : RulesValue) (spans : Spans) (e : ℕ) → e < length rules.pairs → arc_at (network_of rules spans) (pair_place rules e) ≡ pair_arc rules spans e }
    ensures paper_arcs { (rules : RulesValue) (spans : Spans) (p : ℕ) → p < length rules.papers → arc_at (network_of rules spans) (paper_place rules p) ≡ paper_arc rules spans p }
    ensures group_arcs { (rules : RulesValue) (spans : Spans) (g : ℕ) → g < group_count rules → arc_at (network_of rules spans) (group_place rules g) ≡ group_arc rules spans g }
    ensures reviewer_arcs { (rules : RulesValue) (spans : Spans) (r : ℕ) → r < length rules.reviewers → arc_at (network_of rules spans) (reviewer_place rules r) ≡ reviewer_arc rules spans r }

    ensures amounts { (rules : RulesValue) (amounts : List ℕ) → length (flow_of rules amounts) ≡ place_count rules }
    ensures pair_amounts { (rules : RulesValue) (amounts : List ℕ) (e : ℕ) → e < length rules.pairs → slice_index (flow_of rules amounts) (pair_place rules e) ≡ slice_index amounts e }
    ensures paper_amounts { (rules : RulesValue) (amounts : List ℕ) (p : ℕ) → p < length rules.papers → slice_index (flow_of rules amounts) (paper_place rules p) ≡ paper_shares rules amounts p }
    ensures group_amounts { (rules : RulesValue) (amounts : List ℕ) (g : ℕ) → g < group_count rules → slice_index (flow_of rules amounts) (group_place rules g) ≡ group_shares rules amounts g }
    ensures reviewer_amounts { (rules : RulesValue) (amounts : List ℕ) (r : ℕ) → r < length rules.reviewers → slice_index (flow_of rules amounts) (reviewer_place rules r) ≡ reviewer_shares rules amounts r }
{}
