ghost use Rattle.std.specs.Prelude.{◌≡◌, ◌≤◌, ◌≤ℤ◌, ◌*ℤ◌, pos, neg_ℤ, length};
ghost use Rattle.score_spec.specs.Sources.{IsWeight};
ghost use Rattle.score_spec.specs.Scores.{value_of_word, source_value, score_of};

use crate::numbers::Value;
use crate::paper_scores::PaperSource;
use crate::scores::Scores;
use crate::spec::{BidWord, SourceSpec, Spec};

pub(crate) fn value_of_word(words: &[BidWord], word: &str) -> Option<Value>
    ensures { result ≡ value_of_word words.now word.now }
{
    for bid in words {
        if bid.word.as_str().cmp(word).is_eq() {
            return Some(bid.value);
        }
    }
    None
}

// A weight times a value: at most 10,000 * 100,000.
pub(crate) fn product(weight: i32, value: Value) -> i64
    requires { IsWeight weight }
    ensures product { result ≡ weight *ℤ value }
    ensures low { neg_ℤ (pos 1000000000) ≤ℤ result }
    ensures high { result ≤ℤ pos 1000000000 }
{
    i64::from(weight) * i64::from(value.tenthousandths())
}

// A source's part of the score.
fn weighted(
    words: &[BidWord],
    scores: &Scores,
    paper: &str,
    reviewer: &str,
    source: &SourceSpec,
) -> i64
    ensures part { result ≡ source.now.weight *ℤ source_value words.now scores.now paper.now reviewer.now source.now }
    ensures low { neg_ℤ (pos 1000000000) ≤ℤ result }
    ensures high { result ≤ℤ pos 1000000000 }
{
    PaperSource::of(scores, source, paper).weighted(words, reviewer)
}

/// The score of a pair in millionths: each source's weight in hundredths times its value in ten-thousandths, summed.
/// Takes no memory. Each of at most 8 products is at most 10,000 * 100,000, so the sum fits.
pub fn score(spec: &Spec, scores: &Scores, paper: &str, reviewer: &str) -> i64
    requires { length spec.now.sources ≤ 8 }
    ensures sum { result ≡ score_of spec.now scores.now paper.now reviewer.now }
    ensures low { neg_ℤ (pos 8000000000) ≤ℤ result }
    ensures high { result ≤ℤ pos 8000000000 }
{
    let words = spec.words.as_slice();
    let mut total = 0i64;
    for source in spec.sources.as_slice() {
        total += weighted(words, scores, paper, reviewer, source);
    }
    total
}
