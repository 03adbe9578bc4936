// Worked examples of rows, computed over the definitions. The function has an empty body: its clauses are the examples.

ghost use Rattle.std.specs.Prelude.{◌≡◌, ◌++◌, ◌∷◌, [], codes, true, false};
ghost use Rattle.match_rules.specs.declared.answer.Mode.TheVariants.{Whole, Fair};
ghost use Rattle.desk_keeper.specs.Names.{is_chair_name, is_source_name};
ghost use Rattle.desk_keeper.specs.Rows.{are_edit_words};
ghost use Rattle.desk_keeper.specs.Examples.{ann};
ghost use Rattle.desk_keeper.specs.declared.words.Command.TheVariants.{Draw, Edit, Publish, Submit};
ghost use Rattle.desk_keeper.specs.declared.words.HowWords.TheVariants.{Merge, Replace};
ghost use Rattle.desk_keeper.specs.declared.words.TableWords.TheVariants.{Papers, Settings, Values};

/// Rows of a chair `ann`, and names that are none.
#[tactic(auto, unfolding(crate::specs::Names::is_chair_name, crate::specs::Names::is_source_name))]
pub fn worked_rows()
    // An edit of the papers for edition 0: twelve bytes of body.
    ensures edit { ann 1 (Edit 0 (record { table = Papers; how = Replace; body = codes "p1,1,\np2,1,\n" })) [] ≡ codes "edit ann 1 0 papers replace 12\np1,1,\np2,1,\n" }
    ensures values { ann 2 (Edit 1 (record { table = Values (codes "affinity"); how = Merge; body = [] })) [] ≡ codes "edit ann 2 1 values-affinity merge 0\n" }
    ensures submit { ann 5 (Submit 4 Whole) [] ≡ codes "submit ann 5 4 whole\n" }
    ensures fair { ann 18446744073709551615 (Submit 4 Fair) [] ≡ codes "submit ann 18446744073709551615 4 fair\n" }
    ensures publish { ann 6 (Publish 1) (codes "lottery") ≡ codes "publish ann 6 1 7\nlottery" }
    ensures draw { ann 7 (Draw 1 (codes "abc")) [] ≡ codes "draw ann 7 1 3\nabc" }
    ensures merged { are_edit_words Settings Merge ≡ false }
    ensures source { are_edit_words (Values (codes "Affinity")) Replace ≡ false }
    ensures chair { is_chair_name (codes "ann") ≡ true }
    ensures dash { is_chair_name (codes "-") ≡ true }
    ensures comma { is_chair_name (codes "ann,bob") ≡ false }
    ensures space { is_chair_name (codes "ann ") ≡ false }
    ensures empty { is_chair_name [] ≡ false }
    ensures underscore { is_source_name (codes "text_2-b") ≡ true }
    ensures dot { is_source_name (codes "text.2") ≡ false }
{}
