// Laws of opened histories. The function has an empty body: its clauses are the laws.

ghost use Rattle.std.specs.Prelude.{◌≡◌, ℕ, List};
ghost use Rattle.desk_history.specs.Histories.{History, present};
ghost use Rattle.desk_history.specs.Opened.{IsDamaged, IsLegal, Opens};
ghost use Rattle.desk_history.specs.Rows.{rows};
ghost use Rattle.desk_history.specs.Tables.{AreTables};
ghost use Rattle.desk_reopening.specs.Editions.{MakesRules};

use desk_history::Tables;

/// What rows open is legal, and its rows are these; rows open one history at most, and damaged rows open none.
pub fn reopening_laws()
    ensures legal { (chairs given : List (List ℕ)) (H : History) → Opens given H → IsLegal chairs H }
    ensures rows { (given : List (List ℕ)) (H : History) → Opens given H → rows H ≡ given }
{}

/// The present edition of a history makes rules, which its tables have at hand.
pub fn edition_laws(tables: &Tables)
    ensures { (H : History) → AreTables H tables.now → MakesRules (present H) }
{
    tables.rules.pairs();
}
