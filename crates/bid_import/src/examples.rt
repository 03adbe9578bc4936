// Worked examples, computed over the definitions. Each function has an empty body: its clauses are the examples.

ghost use Rattle.std.specs.Prelude.{◌≡◌, true, [], ◌∷◌, pos, neg_ℤ, codes};
ghost use Rattle.score_spec.specs.declared.spec.Kind.TheVariants.{Values, Bids};
ghost use Rattle.bid_import.specs.Settings.{settings_of_file, default_settings, affinity, default_words, bid_word};

use crate::fault::{Code, Key};

/// Small files of settings, and what their numbers read as.
pub fn worked_settings()
    // Nothing is said: the settings are the default ones.
    ensures empty { settings_of_file (codes "") ≡ Ok default_settings }
    // One key is given.
    ensures limit { settings_of_file (codes "limit = 2") ≡ Ok (record default_settings { limit = 2 }) }
    // There is no key of this name.
    ensures unknown { settings_of_file (codes "limits = 2") ≡ Err (Code.BadSetting Key.Unknown) }
    // This is no TOML, and no key may stand twice.
    ensures broken { settings_of_file (codes "limit =") ≡ Err Code.NotToml }
    ensures twice { settings_of_file (codes "limit = 2\nlimit = 2") ≡ Err Code.NotToml }
    // Two keys are at fault: the limit comes before the cap, and an unknown key before all.
    ensures first { settings_of_file (codes "cap = \"2\"\nlimit = 0") ≡ Err (Code.BadSetting Key.Limit) }
    ensures before { settings_of_file (codes "limit = 0\n[[source]]\nname = \"a\"\nkin = 1") ≡ Err (Code.BadSetting Key.Unknown) }
    // A table where a number is due.
    ensures table { settings_of_file (codes "[limit]") ≡ Err (Code.BadSetting Key.Limit) }
    // The rounded cap is from 0 to 1.
    ensures rounded { settings_of_file (codes "cap = \"1.00004\"") ≡ Ok default_settings }
    ensures above { settings_of_file (codes "cap = \"1.00005\"") ≡ Err (Code.BadSetting Key.Cap) }
    ensures number { settings_of_file (codes "cap = 1") ≡ Err (Code.BadSetting Key.Cap) }
    ensures pairs { settings_of_file (codes "pairs = \"all\"") ≡ Ok (record default_settings { all_pairs = true }) }
    ensures other_pairs { settings_of_file (codes "pairs = \"some\"") ≡ Err (Code.BadSetting Key.Pairs) }
    ensures demand { settings_of_file (codes "demand = 101") ≡ Err (Code.BadSetting Key.Demand) }
{}

/// Loads of small files of settings.
pub fn worked_loads()
    // The greatest is 6 where none is given, and the least 0.
    ensures default_greatest { settings_of_file (codes "least = 7") ≡ Err (Code.BadSetting Key.Greatest) }
    ensures default_least { settings_of_file (codes "greatest = 0") ≡ Ok (record default_settings { load = record { least = 0; greatest = 0 } }) }
    ensures given { settings_of_file (codes "least = 7\ngreatest = 7") ≡ Ok (record default_settings { load = record { least = 7; greatest = 7 } }) }
    ensures smaller { settings_of_file (codes "least = 3\ngreatest = 2") ≡ Err (Code.BadSetting Key.Greatest) }
    ensures too_great { settings_of_file (codes "greatest = 1501") ≡ Err (Code.BadSetting Key.Greatest) }
    ensures least { settings_of_file (codes "least = -1\ngreatest = 1501") ≡ Err (Code.BadSetting Key.Least) }
{}

/// Sources and bid words of small files of settings.
pub fn worked_sources()
    ensures none { settings_of_file (codes "source = []") ≡ Ok (record default_settings { spec = record { sources = []; words = default_words } }) }
    // The weight is 100 and the default 0 where none is given.
    ensures one { settings_of_file (codes "[[source]]\nname = \"affinity\"\nkind = \"values\"") ≡ Ok default_settings }
    ensures two { settings_of_file (codes "[[source]]\nname = \"bid\"\nkind = \"bids\"\nweight = -30\ndefault = \"-0.5\"\n[[source]]\nname = \"affinity\"\nkind = \"values\"") ≡ Ok (record default_settings { spec = record { sources = (record { name = codes "bid"; kind = Bids; weight = neg_ℤ (pos 30); default = neg_ℤ (pos 5000) }) ∷ (affinity ∷ []); words = default_words } }) }
    ensures same_names { settings_of_file (codes "[[source]]\nname = \"a\"\nkind = \"bids\"\n[[source]]\nname = \"a\"\nkind = \"values\"") ≡ Err (Code.BadSetting Key.Source) }
    ensures no_kind { settings_of_file (codes "[[source]]\nname = \"a\"") ≡ Err (Code.BadSetting Key.Source) }
    ensures capital { settings_of_file (codes "[[source]]\nname = \"A\"\nkind = \"bids\"") ≡ Err (Code.BadSetting Key.Source) }
    ensures too_great { settings_of_file (codes "[[source]]\nname = \"a\"\nkind = \"bids\"\ndefault = \"10.00005\"") ≡ Err (Code.BadSetting Key.Source) }
    // The words come in the order of their bytes.
    ensures words { settings_of_file (codes "[bids]\nyes = \"1\"\nNo = \"-1\"") ≡ Ok (record default_settings { spec = record { sources = affinity ∷ []; words = bid_word (codes "No") (neg_ℤ (pos 10000)) ∷ (bid_word (codes "yes") (pos 10000) ∷ []) } }) }
    ensures empty_word { settings_of_file (codes "[bids]\n\"\" = \"1\"") ≡ Err (Code.BadSetting Key.Bids) }
    ensures no_value { settings_of_file (codes "[bids]\nyes = \"one\"") ≡ Err (Code.BadSetting Key.Bids) }
{}
