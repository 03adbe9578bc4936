// Values of affinity as text and as numbers, and the score of a pair as a weighted sum of its sources.
#![tactic(auto)]

mod by_id;
mod examples;
mod magnitude;
mod numbers;
mod pairs;
mod paper_scores;
mod scan;
mod scores;
mod spec;
mod text;
mod union;
mod weighing;

pub use by_id::{ById, TableValue};
pub use examples::{worked_scores, worked_tables};
pub use numbers::{NumberFault, Value, read_value};
pub use pairs::{MOST_PAIR_ROWS, PairTable, ScoresFault};
pub use paper_scores::PaperScores;
pub use scores::Scores;
pub use spec::{BidWord, Kind, SourceSpec, Sources, Spec, Words};
pub use text::Text;
pub use union::PairKey;
pub use weighing::score;
