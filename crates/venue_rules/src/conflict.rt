// Conflicts of interest: a reviewer at the institution of an author.

ghost use Rattle.std.specs.Prelude.{◌≡◌};
ghost use Rattle.std.specs.List.{list_any};
ghost use Rattle.std.specs.Str.{bytes_eq};
ghost use Rattle.venue_rules.specs.Candidates.{do_share};

use match_rules::Institution;
use roster::{PaperRow, ReviewerRow};

fn is_among(name: &str, authors: &[Institution]) -> bool
    ensures { result ≡ list_any (λ author. bytes_eq author name.now) authors.now }
{
    authors.iter().any(|author| author.text() == name)
}

// Whether the reviewer's institution is that of an author.
pub(crate) fn do_share(paper: &PaperRow, reviewer: &ReviewerRow) -> bool
    ensures { result ≡ do_share paper.now reviewer.now }
{
    match &reviewer.institution {
        Some(name) => is_among(name.text(), paper.authors.as_slice()),
        None => false,
    }
}
