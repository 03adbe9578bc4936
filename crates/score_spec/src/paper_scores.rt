// The scores of the pairs of one paper.

ghost use Rattle.std.specs.Prelude.{◌≡◌, ◌≤◌, ◌≤ℤ◌, ℕ, List, pos, neg_ℤ, length, IfOk};
ghost use Rattle.score_spec.specs.Scores.{score_of};
ghost use Rattle.score_spec.specs.PaperScores.{AreRowsOf, AreSourcesOf, IsPartOf, part_by, value_by};
ghost use Rattle.score_spec.specs.declared.spec.Kind.TheVariants as kind_of;

use crate::by_id::ById;
use crate::numbers::Value;
use crate::scores::Scores;
use crate::spec::{BidWord, Kind, SourceSpec, Spec};
use crate::text::Text;
use crate::weighing::{product, value_of_word};
use std::alloc::{AllocError, Global};
use std::marker::Model;

/// The rows of a paper in the table of a source.
#[derive(Drop)]
pub(crate) enum SourceRows<'a> {
    Values(&'a ById<Value>),
    Bids(&'a ById<Text>),
    Missing,
}

/// A source with the rows of a paper in its table.
#[derive(Drop)]
pub(crate) struct PaperSource<'a> {
    source: &'a SourceSpec,
    rows: SourceRows<'a>,
}

fn rows_of_values<'a>(scores: &'a Scores, name: &str, paper: &str) -> SourceRows<'a>
    ensures { AreRowsOf result scores.now paper.now name.now kind_of.Values }
{
    let Some(table) = scores.values(name) else {
        return SourceRows::Missing;
    };
    match table.papers().get(paper) {
        Some(values) => SourceRows::Values(values),
        None => SourceRows::Missing,
    }
}

fn rows_of_bids<'a>(scores: &'a Scores, paper: &str) -> SourceRows<'a>
    ensures { (name : List ℕ) → AreRowsOf result scores.now paper.now name kind_of.Bids }
{
    match scores.bids().papers().get(paper) {
        Some(bids) => SourceRows::Bids(bids),
        None => SourceRows::Missing,
    }
}

fn rows_of<'a>(scores: &'a Scores, source: &SourceSpec, paper: &str) -> SourceRows<'a>
    ensures { AreRowsOf result scores.now paper.now source.now.name source.now.kind }
{
    match source.kind() {
        Kind::Values => rows_of_values(scores, source.name(), paper),
        Kind::Bids => rows_of_bids(scores, paper),
    }
}

impl<'a> SourceRows<'a> {
    // The value that a reviewer has by these rows.
    fn value(&self, words: &[BidWord], reviewer: &str) -> Option<Value>
        ensures { result ≡ value_by words.now self.now reviewer.now }
    {
        match self {
            SourceRows::Values(values) => {
                let value = values.get(reviewer)?;
                Some(*value)
            }
            SourceRows::Bids(bids) => {
                let word = bids.get(reviewer)?;
                value_of_word(words, word.as_str())
            }
            SourceRows::Missing => None,
        }
    }
}

impl<'a> PaperSource<'a> {
    // The source, with the rows of the paper.
    pub(crate) fn of(scores: &'a Scores, source: &'a SourceSpec, paper: &str) -> Self
        ensures { IsPartOf result scores.now paper.now source.now }
    {
        PaperSource {
            source,
            rows: rows_of(scores, source, paper),
        }
    }

    // The source's part of the score of a reviewer.
    pub(crate) fn weighted(&self, words: &[BidWord], reviewer: &str) -> i64
        ensures part { result ≡ part_by words.now self.now reviewer.now }
        ensures low { neg_ℤ (pos 1000000000) ≤ℤ result }
        ensures high { result ≤ℤ pos 1000000000 }
    {
        let value = self
            .rows
            .value(words, reviewer)
            .unwrap_or(self.source.default());
        product(self.source.weight(), value)
    }
}

/// The scores of the pairs of a paper. It looks the paper up once for each source, so that the score of a pair takes a
/// look-up of the reviewer alone.
#[derive(Drop)]
pub struct PaperScores<'a> {
    spec: &'a Spec,
    scores: &'a Scores,
    paper: &'a str,
    parts: Vec<PaperSource<'a>>,
}

impl<'a> Model for PaperScores<'a> {
    ghost use Rattle.score_spec.specs.PaperScores.{PaperScoresValue, AreSourcesOf};

    ghost Value = { PaperScoresValue };

    ghost view = { λ s. record { spec = s.spec.now; scores = s.scores.now; paper = s.paper.now } };

    ghost invariant = { λ s. AreSourcesOf s.parts.items s.spec.now s.scores.now s.paper.now };
}

fn parts_of<'a>(
    alloc: Global,
    spec: &'a Spec,
    scores: &'a Scores,
    paper: &str,
) -> Result<Vec<PaperSource<'a>>, AllocError>
    requires { length spec.now.sources ≤ 8 }
    ensures { IfOk result (λ parts. AreSourcesOf parts.items spec.now scores.now paper.now) }
{
    let mut parts = Vec::new(alloc);
    for source in spec.sources.as_slice() {
        parts.push(PaperSource::of(scores, source, paper))?;
    }
    Ok(parts)
}

impl<'a> PaperScores<'a> {
    ghost use Rattle.score_spec.specs.PaperScores.{PaperScoresValue};

    /// The scores of a paper.
    pub fn new(
        alloc: Global,
        spec: &'a Spec,
        scores: &'a Scores,
        paper: &'a str,
    ) -> Result<Self, AllocError>
        requires { length spec.now.sources ≤ 8 }
        ensures { IfOk result (λ of_paper. of_paper ≡ (record { spec = spec.now; scores = scores.now; paper = paper.now })) }
    {
        let parts = parts_of(alloc, spec, scores, paper)?;
        Ok(PaperScores {
            spec,
            scores,
            paper,
            parts,
        })
    }

    /// The score of the paper with a reviewer, in millionths, as `score` gives it. Takes no memory.
    pub fn score(&self, reviewer: &str) -> i64
        ensures sum { result ≡ score_of self.now.spec self.now.scores self.now.paper reviewer.now }
        ensures low { neg_ℤ (pos 8000000000) ≤ℤ result }
        ensures high { result ≤ℤ pos 8000000000 }
    {
        let words = self.spec.words.as_slice();
        let mut total = 0i64;
        for part in self.parts.as_slice() {
            total += part.weighted(words, reviewer);
        }
        total
    }
}
