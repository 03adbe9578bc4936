use match_rules::{PaperId, ReviewerId};
use score_spec::{Text, Value};

/// A value of affinity of a paper and a reviewer.
#[derive(Drop)]
pub struct ValueRow {
    pub paper: PaperId,
    pub reviewer: ReviewerId,
    pub value: Value,
}

/// A bid of a reviewer on a paper: one of the words of the settings, as a `Text` and no `String`, so that contracts see
/// its bytes.
#[derive(Drop)]
pub struct BidRow {
    pub paper: PaperId,
    pub reviewer: ReviewerId,
    pub word: Text,
}

/// A mark of a paper and a reviewer: -1 forbids the pair, 1 locks it, 0 does neither.
#[derive(Drop)]
pub struct MarkRow {
    pub paper: PaperId,
    pub reviewer: ReviewerId,
    pub mark: i32,
}

/// The cap of a paper and a reviewer, from 0 to 1.
#[derive(Drop)]
pub struct CapRow {
    pub paper: PaperId,
    pub reviewer: ReviewerId,
    pub cap: Value,
}
