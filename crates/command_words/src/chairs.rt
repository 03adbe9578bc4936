// The words behind `session`.
ghost use Rattle.std.specs.Prelude.{◌≡◌, map};
ghost use Rattle.std.specs.List.{list_all, list_any};
ghost use Rattle.std.specs.Str.{bytes_eq};
ghost use Rattle.desk_keeper.specs.Names.{is_chair_name};
ghost use Rattle.command_words.specs.Chairs.{are_distinct, may_be_chairs};

use desk_keeper::is_chair_name;

/// The greatest number of chairs of a session.
pub const MOST_CHAIRS: usize = 16;

fn are_names(words: &[&str]) -> bool
    ensures { result ≡ list_all is_chair_name (map (λ word. word.now) words.now) }
{
    match words {
        [] => true,
        [word, rest @ ..] => is_chair_name(word) && are_names(rest),
    }
}

fn is_among(words: &[&str], name: &str) -> bool
    ensures { result ≡ list_any (bytes_eq name.now) (map (λ word. word.now) words.now) }
{
    match words {
        [] => false,
        [word, rest @ ..] => name == *word || is_among(rest, name),
    }
}

fn are_distinct(words: &[&str]) -> bool
    ensures { result ≡ are_distinct (map (λ word. word.now) words.now) }
{
    match words {
        [] => true,
        [word, rest @ ..] => !is_among(rest, word) && are_distinct(rest),
    }
}

/// Whether words name the chairs of a session: 1 to 16 names, no two of them equal.
pub(crate) fn may_be_chairs(words: &[&str]) -> bool
    ensures { result ≡ may_be_chairs (map (λ word. word.now) words.now) }
{
    (1 <= words.len() && words.len() <= MOST_CHAIRS) && (are_names(words) && are_distinct(words))
}
