// The table of loads.
ghost use Rattle.std.specs.Prelude.{◌≡◌, ◌≤◌, ◌↔◌, length, slice_index, IfOk, IsErrOf};
ghost use Rattle.edge_io.specs.Counts.{HasCause};
ghost use Rattle.edge_io.specs.Told.{AddsAll};
ghost use Rattle.match_rules.specs.Answers.{SharesMatch};
ghost use Rattle.match_rules.specs.Rules.{reviewer_in};
ghost use Rattle.match_rules.specs.SharesFit.{reviewer_shares};
ghost use Rattle.match_rules.specs.Sound.{AreCounts};
ghost use Rattle.text_lines.specs.Texts.{line_of};
ghost use Rattle.reports.specs.Faults.{WriteFails};
ghost use Rattle.reports.specs.Lists.{texts_below};
ghost use Rattle.reports.specs.Tables.{load_line, loads_text};
ghost use Rattle.reports.specs.declared.kinds.ReportFault.TheVariants.{Memory};

use crate::kinds::ReportFault;
use crate::lines::{begun_with, end_line, push_number};
use edge_io::{Io, Sink, write_all};
use match_rules::{RuleReviewer, Rules};
use std::alloc::{AllocError, Global};
use text_lines::LineBuffer;

// Adds the share of each pair to the load of its reviewer.
fn add_shares(rules: &Rules, shares: &[u32], loads: &mut [u64])
    requires shares { SharesMatch rules.now shares.now }
    requires size { length loads.old ≡ length rules.now.reviewers }
    ensures { AreCounts loads.new (length rules.now.reviewers) (reviewer_shares rules.now shares.now) }
{
    loads.fill(0);
    let pairs = rules.pairs();
    for e in 0..pairs.len() {
        let reviewer = pairs[e].reviewer as usize;
        loads[reviewer] += u64::from(shares[e]);
    }
}

/// The sum of the shares of each reviewer's pairs.
pub(crate) fn loads_of(alloc: Global, rules: &Rules, shares: &[u32]) -> Result<Vec<u64>, AllocError>
    requires { SharesMatch rules.now shares.now }
    ensures { IfOk result (λ loads. AreCounts loads.items (length rules.now.reviewers) (reviewer_shares rules.now shares.now)) }
{
    let mut loads = vec![in alloc; 0u64; rules.reviewers().len()]?;
    add_shares(rules, shares, loads.as_mut_slice());
    Ok(loads)
}

fn load_line(reviewer: &RuleReviewer, tickets: u64) -> LineBuffer
    ensures { result ≡ line_of (load_line reviewer.now tickets) }
{
    let mut line = begun_with(reviewer.id.text());
    push_number(&mut line, u64::from(reviewer.least));
    push_number(&mut line, u64::from(reviewer.greatest));
    push_number(&mut line, tickets);
    end_line(&mut line);
    line
}

fn write_load_lines<K: Sink>(
    reviewers: &[RuleReviewer],
    loads: &[u64],
    sink: &mut K,
) -> Result<(), Io>
    requires { length loads.now ≡ length reviewers.now }
    ensures taken { AddsAll (K.taken sink.old) (K.taken sink.new) result (texts_below (length reviewers.now) (λ r. line_of (load_line (reviewer_in reviewers.now r) (slice_index loads.now r)))) }
    ensures cause { HasCause (K.faults sink.old) (K.faults sink.new) result }
{
    for r in 0..reviewers.len() {
        write_all(sink, load_line(&reviewers[r], loads[r]).as_slice())?;
    }
    Ok(())
}

/// Appends the table of loads.
pub(crate) fn write_loads<K: Sink>(
    alloc: Global,
    rules: &Rules,
    shares: &[u32],
    sink: &mut K,
) -> Result<(), ReportFault>
    requires { SharesMatch rules.now shares.now }
    ensures taken { AddsAll (K.taken sink.old) (K.taken sink.new) result (loads_text rules.now shares.now) }
    ensures cause { WriteFails (K.faults sink.old) (K.faults sink.new) result }
    ensures quiet { IsErrOf result Memory → K.taken sink.new ≡ K.taken sink.old }
{
    let loads = loads_of(alloc, rules, shares)?;
    write_all(sink, b"reviewer,least,greatest,tickets\n")?;
    write_load_lines(rules.reviewers(), loads.as_slice(), sink)?;
    Ok(())
}
