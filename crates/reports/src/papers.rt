// The table of papers.
ghost use Rattle.std.specs.Prelude.{◌≡◌, ◌^◌, ◌<◌, ◌≤◌, length, slice_index, slice_index_or, IfOk, pos, neg_ℤ, ◌+ℤ◌, ◌*ℤ◌, ◌≤ℤ◌, IsErrOf};
ghost use Rattle.edge_io.specs.Counts.{HasCause};
ghost use Rattle.edge_io.specs.Told.{AddsAll};
ghost use Rattle.match_rules.specs.Answers.{SharesMatch};
ghost use Rattle.match_rules.specs.Rules.{paper_in, pair_at};
ghost use Rattle.text_lines.specs.Texts.{line_of};
ghost use Rattle.reports.specs.Faults.{WriteFails};
ghost use Rattle.reports.specs.Lists.{AreScores, texts_below};
ghost use Rattle.reports.specs.Tables.{paper_line, paper_score, papers_text};
ghost use Rattle.reports.specs.declared.kinds.ReportFault.TheVariants.{Memory};

use crate::kinds::ReportFault;
use crate::lines::{begun_with, end_line, push_number, push_signed};
use edge_io::{Io, Sink, write_all};
use match_rules::{MOST_TICKETS, RulePaper, Rules};
use std::alloc::{AllocError, Global};
use text_lines::LineBuffer;

// The score of a pair times its share.
fn term(share: u32, score: i64) -> i128
    requires { share ≤ MOST_TICKETS }
    ensures value { result ≡ pos share *ℤ score }
    ensures low { neg_ℤ (pos (2 ^ 80)) ≤ℤ result }
    ensures high { result ≤ℤ pos (2 ^ 80) }
{
    share as i128 * score as i128
}

// The same for the pair at a place.
fn pair_term(rules: &Rules, shares: &[u32], pair: usize) -> i128
    requires place { pair < length rules.now.pairs }
    requires shares { SharesMatch rules.now shares.now }
    ensures value { result ≡ pos (slice_index shares.now pair) *ℤ (pair_at rules.now pair).score }
    ensures low { neg_ℤ (pos (2 ^ 80)) ≤ℤ result }
    ensures high { result ≤ℤ pos (2 ^ 80) }
{
    term(shares[pair], rules.pairs()[pair].score)
}

// The sum so far and one more term.
fn plus(sum: i128, term: i128) -> i128
    requires above { neg_ℤ (pos (2 ^ 120)) ≤ℤ sum }
    requires below { sum ≤ℤ pos (2 ^ 120) }
    requires low { neg_ℤ (pos (2 ^ 80)) ≤ℤ term }
    requires high { term ≤ℤ pos (2 ^ 80) }
    ensures { result ≡ sum +ℤ term }
{
    sum + term
}

// Adds the score of each pair times its share to the score of its paper.
fn add_terms(rules: &Rules, shares: &[u32], scores: &mut [i128])
    requires shares { SharesMatch rules.now shares.now }
    requires size { length scores.old ≡ length rules.now.papers }
    ensures { AreScores scores.new (length rules.now.papers) (paper_score rules.now shares.now) }
{
    scores.fill(0);
    let pairs = rules.pairs();
    for e in 0..pairs.len() {
        let paper = pairs[e].paper as usize;
        scores[paper] = plus(scores[paper], pair_term(rules, shares, e));
    }
}

// The scores of each paper's pairs, each times its share.
fn scores_of(alloc: Global, rules: &Rules, shares: &[u32]) -> Result<Vec<i128>, AllocError>
    requires { SharesMatch rules.now shares.now }
    ensures { IfOk result (λ scores. AreScores scores.items (length rules.now.papers) (paper_score rules.now shares.now)) }
{
    let mut scores = vec![in alloc; 0i128; rules.papers().len()]?;
    add_terms(rules, shares, scores.as_mut_slice());
    Ok(scores)
}

fn paper_line(paper: &RulePaper, score: i128) -> LineBuffer
    ensures { result ≡ line_of (paper_line paper.now score) }
{
    let mut line = begun_with(paper.id.text());
    push_number(&mut line, u64::from(paper.demand));
    push_signed(&mut line, score);
    end_line(&mut line);
    line
}

fn write_paper_lines<K: Sink>(papers: &[RulePaper], scores: &[i128], sink: &mut K) -> Result<(), Io>
    requires { length scores.now ≡ length papers.now }
    ensures taken { AddsAll (K.taken sink.old) (K.taken sink.new) result (texts_below (length papers.now) (λ p. line_of (paper_line (paper_in papers.now p) (slice_index_or scores.now p (pos 0))))) }
    ensures cause { HasCause (K.faults sink.old) (K.faults sink.new) result }
{
    for p in 0..papers.len() {
        write_all(sink, paper_line(&papers[p], scores[p]).as_slice())?;
    }
    Ok(())
}

/// Appends the table of papers.
pub(crate) fn write_papers<K: Sink>(
    alloc: Global,
    rules: &Rules,
    shares: &[u32],
    sink: &mut K,
) -> Result<(), ReportFault>
    requires { SharesMatch rules.now shares.now }
    ensures taken { AddsAll (K.taken sink.old) (K.taken sink.new) result (papers_text rules.now shares.now) }
    ensures cause { WriteFails (K.faults sink.old) (K.faults sink.new) result }
    ensures quiet { IsErrOf result Memory → K.taken sink.new ≡ K.taken sink.old }
{
    let scores = scores_of(alloc, rules, shares)?;
    write_all(sink, b"paper,demand,score\n")?;
    write_paper_lines(rules.papers(), scores.as_slice(), sink)?;
    Ok(())
}
