// The line of a made conference.
ghost use Rattle.std.specs.Prelude.{◌≡◌, ◌≤◌, length};
ghost use Rattle.match_rules.specs.declared.rules.TheConstants.{MOST_DEMAND_IN_ALL};
ghost use Rattle.match_rules.specs.Rules.{demand_total};
ghost use Rattle.matcher_cli.specs.Making.{counts_text, made_line};

use match_rules::{RulePaper, Rules};
use text_lines::LineBuffer;

// The reviewers that papers need.
fn demand_of(papers: &[RulePaper]) -> u64
    requires { demand_total papers.now ≤ MOST_DEMAND_IN_ALL }
    ensures { result ≡ demand_total papers.now }
{
    let mut sum = 0;
    for paper in papers {
        sum += u64::from(paper.demand);
    }
    sum
}

// What rules have.
#[tactic(auto, unfolding(crate::specs::Making::counts_text))]
fn counts_text(rules: &Rules) -> LineBuffer
    ensures text { result ≡ counts_text rules.now }
    ensures few { length result ≤ 128 }
{
    let papers = rules.papers();
    let mut line = LineBuffer::new();
    line.push_labelled(b" papers ", papers.len() as u64);
    line.push_labelled(b" reviewers ", rules.reviewers().len() as u64);
    line.push_labelled(b" pairs ", rules.pairs().len() as u64);
    line.push_labelled(b" demand ", demand_of(papers));
    line
}

/// The line of the conference of a seed and a size, with the total of a lottery of its rules.
#[tactic(auto, unfolding(crate::specs::Making::made_line))]
pub(crate) fn made_line(seed: u32, size: u32, rules: &Rules, total: &i128) -> LineBuffer
    ensures { result ≡ made_line seed size rules.now total.now }
{
    let mut line = LineBuffer::new();
    line.push_labelled(b"made seed ", u64::from(seed));
    line.push_labelled(b" size ", u64::from(size));
    line.push(counts_text(rules).as_slice());
    line.push_labelled_signed(b" total ", *total);
    line.push(b"\n");
    line
}
