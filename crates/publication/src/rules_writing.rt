// Writing the text of rules.
ghost use Rattle.std.specs.Prelude.{◌≤◌, ◌++◌, length, codes};
ghost use Rattle.edge_io.specs.Counts.{HasCause};
ghost use Rattle.edge_io.specs.Told.{AddsAll};
ghost use Rattle.text_lines.specs.Forms.{count_line, section_text};
ghost use Rattle.text_lines.specs.Texts.{line_of, lines_of};
ghost use Rattle.publication.specs.RulesText.{paper_line, reviewer_line, pair_line, head_text, lists_text, rules_text};

use crate::rules_lines::{count_line, pair_line, paper_line, reviewer_line};
use edge_io::{Io, Sink, write_all};
use match_rules::{RulePair, RulePaper, RuleReviewer, Rules};

fn write_count<K: Sink>(word: &[u8], number: u64, sink: &mut K) -> Result<(), Io>
    requires { length word.now ≤ 64 }
    ensures taken { AddsAll (K.taken sink.old) (K.taken sink.new) result (line_of (count_line word.now number)) }
    ensures cause { HasCause (K.faults sink.old) (K.faults sink.new) result }
{
    write_all(sink, count_line(word, number).as_slice())
}

fn write_paper_lines<K: Sink>(papers: &[RulePaper], sink: &mut K) -> Result<(), Io>
    ensures taken { AddsAll (K.taken sink.old) (K.taken sink.new) result (lines_of paper_line papers.now) }
    ensures cause { HasCause (K.faults sink.old) (K.faults sink.new) result }
{
    for paper in papers {
        write_all(sink, paper_line(paper).as_slice())?;
    }
    Ok(())
}

fn write_reviewer_lines<K: Sink>(reviewers: &[RuleReviewer], sink: &mut K) -> Result<(), Io>
    ensures taken { AddsAll (K.taken sink.old) (K.taken sink.new) result (lines_of reviewer_line reviewers.now) }
    ensures cause { HasCause (K.faults sink.old) (K.faults sink.new) result }
{
    for reviewer in reviewers {
        write_all(sink, reviewer_line(reviewer).as_slice())?;
    }
    Ok(())
}

fn write_pair_lines<K: Sink>(pairs: &[RulePair], sink: &mut K) -> Result<(), Io>
    ensures taken { AddsAll (K.taken sink.old) (K.taken sink.new) result (lines_of pair_line pairs.now) }
    ensures cause { HasCause (K.faults sink.old) (K.faults sink.new) result }
{
    for pair in pairs {
        write_all(sink, pair_line(pair).as_slice())?;
    }
    Ok(())
}

fn write_papers<K: Sink>(papers: &[RulePaper], sink: &mut K) -> Result<(), Io>
    ensures taken { AddsAll (K.taken sink.old) (K.taken sink.new) result (section_text (codes "papers") paper_line papers.now) }
    ensures cause { HasCause (K.faults sink.old) (K.faults sink.new) result }
{
    write_count(b"papers", papers.len() as u64, sink)?;
    write_paper_lines(papers, sink)
}

fn write_reviewers<K: Sink>(reviewers: &[RuleReviewer], sink: &mut K) -> Result<(), Io>
    ensures taken { AddsAll (K.taken sink.old) (K.taken sink.new) result (section_text (codes "reviewers") reviewer_line reviewers.now) }
    ensures cause { HasCause (K.faults sink.old) (K.faults sink.new) result }
{
    write_count(b"reviewers", reviewers.len() as u64, sink)?;
    write_reviewer_lines(reviewers, sink)
}

fn write_pairs<K: Sink>(pairs: &[RulePair], sink: &mut K) -> Result<(), Io>
    ensures taken { AddsAll (K.taken sink.old) (K.taken sink.new) result (section_text (codes "pairs") pair_line pairs.now) }
    ensures cause { HasCause (K.faults sink.old) (K.faults sink.new) result }
{
    write_count(b"pairs", pairs.len() as u64, sink)?;
    write_pair_lines(pairs, sink)
}

fn write_candidates<K: Sink>(
    reviewers: &[RuleReviewer],
    pairs: &[RulePair],
    sink: &mut K,
) -> Result<(), Io>
    ensures taken { AddsAll (K.taken sink.old) (K.taken sink.new) result (section_text (codes "reviewers") reviewer_line reviewers.now ++ section_text (codes "pairs") pair_line pairs.now) }
    ensures cause { HasCause (K.faults sink.old) (K.faults sink.new) result }
{
    write_reviewers(reviewers, sink)?;
    write_pairs(pairs, sink)
}

fn write_lists<K: Sink>(rules: &Rules, sink: &mut K) -> Result<(), Io>
    ensures taken { AddsAll (K.taken sink.old) (K.taken sink.new) result (lists_text rules.now.papers rules.now.reviewers rules.now.pairs) }
    ensures cause { HasCause (K.faults sink.old) (K.faults sink.new) result }
{
    write_papers(rules.papers(), sink)?;
    write_candidates(rules.reviewers(), rules.pairs(), sink)
}

fn write_numbers<K: Sink>(rules: &Rules, sink: &mut K) -> Result<(), Io>
    ensures taken { AddsAll (K.taken sink.old) (K.taken sink.new) result (line_of (count_line (codes "tickets") rules.now.tickets) ++ line_of (count_line (codes "limit") rules.now.limit)) }
    ensures cause { HasCause (K.faults sink.old) (K.faults sink.new) result }
{
    write_count(b"tickets", u64::from(rules.tickets()), sink)?;
    write_count(b"limit", u64::from(rules.limit()), sink)
}

fn write_head<K: Sink>(rules: &Rules, sink: &mut K) -> Result<(), Io>
    ensures taken { AddsAll (K.taken sink.old) (K.taken sink.new) result (head_text rules.now.tickets rules.now.limit) }
    ensures cause { HasCause (K.faults sink.old) (K.faults sink.new) result }
{
    write_all(sink, b"rules 1\n")?;
    write_numbers(rules, sink)
}

fn write_rest<K: Sink>(rules: &Rules, sink: &mut K) -> Result<(), Io>
    ensures taken { AddsAll (K.taken sink.old) (K.taken sink.new) result (lists_text rules.now.papers rules.now.reviewers rules.now.pairs ++ line_of (codes "end rules")) }
    ensures cause { HasCause (K.faults sink.old) (K.faults sink.new) result }
{
    write_lists(rules, sink)?;
    write_all(sink, b"end rules\n")
}

/// Appends the text of rules, a write for each line. After `Failed` a front of it was appended. Takes no memory.
pub fn write_rules<K: Sink>(rules: &Rules, sink: &mut K) -> Result<(), Io>
    ensures taken { AddsAll (K.taken sink.old) (K.taken sink.new) result (rules_text rules.now) }
    ensures cause { HasCause (K.faults sink.old) (K.faults sink.new) result }
{
    write_head(rules, sink)?;
    write_rest(rules, sink)
}
