// Worked examples, computed over the definitions. The function has an empty body: its clauses are the examples.

ghost use Rattle.std.specs.Prelude.{◌≡◌, [], ◌∷◌, true, false, pos, neg_ℤ, length};
ghost use Rattle.match_rules.specs.declared.answer.Sieve.TheVariants.{All as EveryPair, Above};
ghost use Rattle.match_rules.specs.Examples.{small, small_locked, one_house, empty_rules, cut_into, cut_out_of, prices};
ghost use Rattle.match_rules.specs.SharesFit.{shares_score};
ghost use Rattle.bounded_network.specs.Back.{cut_in, prices_in};
ghost use Rattle.bounded_network.specs.Compile.{parent_of, paper_place, group_place, reviewer_place, place_count, network_of, node_count, flow_of};
ghost use Rattle.bounded_network.specs.Examples.{arc, network, two_nodes};
ghost use Rattle.bounded_network.specs.Network.{arc_at, with_bounds, floors_into, rooms_out_of, flow_cost};
ghost use Rattle.bounded_network.specs.Spans.{span, rounded, rounded_spans, ticket_spans};

/// Networks of small rules.
pub fn worked_networks()
    // Two papers, two reviewers, four pairs, no group.
    ensures small_nodes { node_count (small 4000) ≡ 5 }
    ensures small_arcs { length (network (small 4000)).arcs ≡ 8 }
    ensures first_pair { arc_at (network (small 4000)) 0 ≡ arc 0 2 0 4000 (neg_ℤ (pos 1000000)) }
    ensures first_paper { arc_at (network (small 4000)) 4 ≡ arc 4 0 10000 10000 (pos 0) }
    ensures last_reviewer { arc_at (network (small 4000)) 7 ≡ arc 3 4 0 10000 (pos 0) }
    // A sieve closes a pair.
    ensures dropped { arc_at (network_of (small 4000) (ticket_spans (small 4000) (Above (pos 0)))) 1 ≡ arc 0 3 0 0 (pos 0) }
    // Caps of 0.4: the marked paper 0 needs more than it can pass on.
    ensures low_need { floors_into (network (small 4000)) (true ∷ []) ≡ 10000 }
    ensures low_room { rooms_out_of (network (small 4000)) (true ∷ []) ≡ 8000 }
    ensures low_cut { cut_in (small 4000) (true ∷ []) ≡ cut_into (0 ∷ []) [] }
    // All pairs locked: everything but paper 0 is marked, the hub too.
    ensures locked_pair { arc_at (network small_locked) 0 ≡ arc 0 2 10000 10000 (neg_ℤ (pos 1000000)) }
    ensures locked_need { floors_into (network small_locked) (false ∷ (true ∷ (true ∷ (true ∷ (true ∷ []))))) ≡ 20000 }
    ensures locked_room { rooms_out_of (network small_locked) (false ∷ (true ∷ (true ∷ (true ∷ (true ∷ []))))) ≡ 10000 }
    ensures locked_cut { cut_in small_locked (false ∷ (true ∷ (true ∷ (true ∷ (true ∷ []))))) ≡ cut_out_of (0 ∷ []) [] }
    // One paper of demand 2, two reviewers of one institution, of whom one is allowed.
    ensures house_pair { arc_at (network one_house) 0 ≡ arc 1 2 0 10000 (neg_ℤ (pos 900000)) }
    ensures house_group { arc_at (network one_house) 3 ≡ arc 0 1 0 10000 (pos 0) }
    ensures house_need { floors_into (network one_house) (true ∷ []) ≡ 20000 }
    ensures house_room { rooms_out_of (network one_house) (true ∷ []) ≡ 10000 }
    // Its arcs: two pairs, the paper, its group, two reviewers.
    ensures house_paper_place { paper_place one_house 0 ≡ 2 }
    ensures house_group_place { group_place one_house 0 ≡ 3 }
    ensures house_reviewer_place { reviewer_place one_house 0 ≡ 4 }
    ensures house_arcs { place_count one_house ≡ 6 }
    ensures house_parent { parent_of one_house 0 ≡ 0 }
    // No rules: the hub alone.
    ensures empty_nodes { node_count empty_rules ≡ 1 }
    ensures empty_arcs { (network empty_rules).arcs ≡ [] }
    // Half of the tickets for each pair.
    ensures half_flow { flow_of (small 5000) (5000 ∷ (5000 ∷ (5000 ∷ (5000 ∷ [])))) ≡ 5000 ∷ (5000 ∷ (5000 ∷ (5000 ∷ (10000 ∷ (10000 ∷ (10000 ∷ (10000 ∷ []))))))) }
    ensures half_cost { flow_cost (network (small 5000)) (5000 ∷ (5000 ∷ (5000 ∷ (5000 ∷ [])))) ≡ neg_ℤ (pos 11500000000) }
    ensures half_score { shares_score (small 5000) (5000 ∷ (5000 ∷ (5000 ∷ (5000 ∷ [])))) ≡ pos 11500000000 }
    // Caps of 0.7: potentials of the papers, the reviewers and the hub, and their prices.
    ensures seven_prices { prices_in (small 7000) (pos 200000 ∷ (pos 700000 ∷ (neg_ℤ (pos 100000) ∷ (pos 200000 ∷ (pos 200000 ∷ []))))) ≡ prices (pos 0 ∷ (pos 500000 ∷ [])) [] (pos 300000 ∷ (pos 0 ∷ [])) }
    // Amounts divided by the tickets that are left.
    ensures rounds { rounded 10000 6667 ≡ span 0 1 }
    ensures whole { rounded 10000 20000 ≡ span 2 2 }
    ensures above { rounded 3 7 ≡ span 2 3 }
    ensures rounded_pair { arc_at (network_of (small 7000) (rounded_spans (small 7000) (7000 ∷ (3000 ∷ (3000 ∷ (7000 ∷ [])))) 10000)) 0 ≡ arc 0 2 0 1 (pos 0) }
    ensures rounded_paper { arc_at (network_of (small 7000) (rounded_spans (small 7000) (7000 ∷ (3000 ∷ (3000 ∷ (7000 ∷ [])))) 10000)) 4 ≡ arc 4 0 1 1 (pos 0) }
    // Other bounds of one arc.
    ensures rebounded { with_bounds two_nodes 1 0 1 ≡ record { nodes = 2; arcs = arc 0 1 1 3 (neg_ℤ (pos 5)) ∷ (arc 1 0 0 1 (pos 1) ∷ []) } }
    ensures rebounded_past { with_bounds two_nodes 2 0 1 ≡ two_nodes }
{}
