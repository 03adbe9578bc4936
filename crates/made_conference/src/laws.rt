// Laws of the definitions. The function has an empty body: its clauses are the laws.

ghost use Rattle.std.specs.Prelude.{◌≡◌, ◌*◌, ◌/◌, ℕ, map};
ghost use Rattle.std.specs.List.{range_with_len};
ghost use Rattle.made_conference.specs.Pairs.{made_pairs, pairs_before};

/// The pairs stand in the order in which they are drawn, 2700 in each block, and none is left out; each is of one block.
pub fn pair_laws()
    ensures order { (seed size : ℕ) → map (λ pair. pairs_before pair.paper pair.reviewer) (made_pairs seed size) ≡ range_with_len 0 (2700 * size) }
    ensures blocks { (seed size : ℕ) → map (λ pair. pair.reviewer / 45) (made_pairs seed size) ≡ map (λ pair. pair.paper / 60) (made_pairs seed size) }
{}
