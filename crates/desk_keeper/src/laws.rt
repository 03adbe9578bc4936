// Laws of names and rows. The function has an empty body: its clauses are the laws.

ghost use Rattle.std.specs.Prelude.{◌≡◌, ◌&&◌, ◌<◌, ◌^◌, ℕ, List, length};
ghost use Rattle.std.specs.Char.{is_ascii};
ghost use Rattle.std.specs.List.{list_all};
ghost use Rattle.match_rules.specs.Id.{is_id};
ghost use Rattle.desk_keeper.specs.Names.{is_chair_name};
ghost use Rattle.desk_keeper.specs.Rows.{IsRow};
ghost use Rattle.desk_keeper.specs.declared.words.Named.{Named};

/// The names of chairs are the ids of ASCII characters, and bytes are the row of one command alone.
pub fn row_laws()
    ensures chairs { (name : List ℕ) → is_chair_name name ≡ (is_id name && list_all is_ascii name) }
    ensures one { (row : List ℕ) (a b : Named) (x y : List ℕ) → length row < 2 ^ 64 → IsRow row a x → IsRow row b y → (a ≡ b) × (x ≡ y) }
{}
