// Worked examples, computed over the definitions. The function has an empty body: its clauses are the examples.

ghost use Rattle.std.specs.Prelude.{◌≡◌, [], ◌∷◌, true, false};
ghost use Rattle.bounded_network.specs.Network.{arc_at, floors_into, rooms_out_of};
ghost use Rattle.residual_arcs.specs.Step.{left_on};
ghost use Rattle.unit_turns.specs.Examples.{free_arc, triangle, one_way, round};
ghost use Rattle.unit_turns.specs.Fixed.{with_fixed};
ghost use Rattle.unit_turns.specs.Side.{toward};
ghost use Rattle.unit_turns.specs.Steps.{starts_to, ends_to};

/// Turns of small networks.
pub fn worked_turns()
    // Round the triangle one step starts and one ends at each node.
    ensures first_starts { starts_to triangle round 3 0 ≡ 1 }
    ensures first_ends { ends_to triangle round 3 0 ≡ 1 }
    ensures middle_starts { starts_to triangle round 3 1 ≡ 1 }
    ensures middle_ends { ends_to triangle round 3 1 ≡ 1 }
    ensures last_starts { starts_to triangle round 3 2 ≡ 1 }
    ensures last_ends { ends_to triangle round 3 2 ≡ 1 }
    // Where the arc from 2 to 1 carries its unit, the step back over it has one left.
    ensures back { left_on (arc_at triangle 1) 1 false ≡ 1 }
    // The step from 1 to 2 leads on from 1 on the side ahead. On the side behind it leads on from 1 too, and is taken from 2 to 1.
    ensures on { toward true false ≡ false }
    ensures turned { toward false false ≡ true }
    // With no way back, a unit that is held on the arc from 0 to 1 enters the marked node 1, and can't leave it.
    ensures held { arc_at (with_fixed one_way 0 1) 0 ≡ record (free_arc 0 1 1) { floor = 1 } }
    ensures other { arc_at (with_fixed one_way 0 1) 1 ≡ free_arc 1 0 0 }
    ensures need { floors_into (with_fixed one_way 0 1) (false ∷ (true ∷ [])) ≡ 1 }
    ensures room { rooms_out_of (with_fixed one_way 0 1) (false ∷ (true ∷ [])) ≡ 0 }
{}
