// Reading the text of rules.
ghost use Rattle.std.specs.Prelude.{◌≡◌, IsSome, IfOk};
ghost use Rattle.edge_io.specs.Told.{TellsNoMore};
ghost use Rattle.match_rules.specs.Rules.{IsLimit, AreRules};
ghost use Rattle.text_lines.specs.Reading.{Gives, FaultHasCause, cursor};
ghost use Rattle.publication.specs.RulesReading.{head_at, lists_at, rules_at};
ghost use Rattle.publication.specs.RulesLists.{AreLists};

use crate::pair_form::PairForm;
use crate::paper_form::PaperForm;
use crate::reviewer_form::ReviewerForm;
use edge_io::Source;
use match_rules::{
    MOST_LIMIT, MOST_PAIRS, MOST_PAPERS, MOST_REVIEWERS, RULES_TICKETS, RulePair, RulePaper,
    RuleReviewer, Rules,
};
use std::alloc::Global;
use text_lines::{Lines, ReadError, read_count, read_section, read_words};

// The three lists of a text of rules.
#[derive(Drop)]
struct Lists {
    papers: Vec<RulePaper>,
    reviewers: Vec<RuleReviewer>,
    pairs: Vec<RulePair>,
}

// The kind of text, the tickets and the limit.
#[tactic(auto, unfolding(crate::specs::RulesReading::head_at))]
fn read_head<S: Source>(alloc: Global, lines: &mut Lines, source: &mut S) -> Result<u32, ReadError>
    ensures reads { IsSome (S.left source.new) → Gives (λ limit. limit) result (cursor lines.new (S.left source.new)) (head_at (cursor lines.old (S.left source.old))) }
    ensures limit { IfOk result IsLimit }
    ensures untold { TellsNoMore (S.left source.old) (S.left source.new) }
    ensures cause { FaultHasCause (S.faults source.old) (S.faults source.new) (S.left source.new) result }
{
    read_words(alloc, lines, source, "rules 1")?;
    read_words(alloc, lines, source, "tickets 10000")?;
    read_count(alloc, lines, source, "limit", 1, MOST_LIMIT)
}

// The papers, the reviewers and the pairs.
#[tactic(auto, unfolding(crate::specs::RulesReading::lists_at))]
fn read_lists<S: Source>(
    alloc: Global,
    lines: &mut Lines,
    source: &mut S,
) -> Result<Lists, ReadError>
    ensures reads { IsSome (S.left source.new) → Gives (λ lists. (lists.papers.items, lists.reviewers.items, lists.pairs.items)) result (cursor lines.new (S.left source.new)) (lists_at (cursor lines.old (S.left source.old))) }
    ensures lists { IfOk result (λ lists. AreLists lists.papers.items lists.reviewers.items lists.pairs.items) }
    ensures untold { TellsNoMore (S.left source.old) (S.left source.new) }
    ensures cause { FaultHasCause (S.faults source.old) (S.faults source.new) (S.left source.new) result }
{
    let papers = read_section(
        alloc,
        lines,
        source,
        "papers",
        0,
        MOST_PAPERS,
        &mut PaperForm::new(),
    )?;
    let reviewers = read_section(
        alloc,
        lines,
        source,
        "reviewers",
        0,
        MOST_REVIEWERS,
        &mut ReviewerForm,
    )?;
    let mut form = PairForm {
        papers: papers.len() as u32,
        reviewers: reviewers.len() as u32,
    };
    let pairs = read_section(alloc, lines, source, "pairs", 0, MOST_PAIRS, &mut form)?;
    Ok(Lists {
        papers,
        reviewers,
        pairs,
    })
}

/// Reads the text of rules.
#[tactic(auto, unfolding(crate::specs::RulesReading::rules_at))]
pub fn read_rules<S: Source>(
    alloc: Global,
    lines: &mut Lines,
    source: &mut S,
) -> Result<Rules, ReadError>
    ensures reads { IsSome (S.left source.new) → Gives (λ rules. rules) result (cursor lines.new (S.left source.new)) (rules_at (cursor lines.old (S.left source.old))) }
    ensures kept { IfOk result AreRules }
    ensures untold { TellsNoMore (S.left source.old) (S.left source.new) }
    ensures cause { FaultHasCause (S.faults source.old) (S.faults source.new) (S.left source.new) result }
{
    let limit = read_head(alloc, lines, source)?;
    let lists = read_lists(alloc, lines, source)?;
    read_words(alloc, lines, source, "end rules")?;
    Ok(Rules::of_tested(
        alloc,
        RULES_TICKETS,
        limit,
        lists.papers,
        lists.reviewers,
        lists.pairs,
    )?)
}
