// The table of shares.
ghost use Rattle.std.specs.Prelude.{◌≡◌, ◌<◌, ◌≤◌, length, IsErrOf};
ghost use Rattle.edge_io.specs.Counts.{HasCause};
ghost use Rattle.edge_io.specs.Told.{AddsAll};
ghost use Rattle.text_lines.specs.Texts.{line_of};
ghost use Rattle.reports.specs.Faults.{WriteFails};
ghost use Rattle.reports.specs.Lists.{texts_below};
ghost use Rattle.reports.specs.Tables.{share_line, share_text, shares_text};
ghost use Rattle.reports.specs.declared.kinds.ReportFault.TheVariants.{Memory};

use crate::kinds::ReportFault;
use crate::lines::{begun_with_pair, end_line, push_number, push_score};
use edge_io::{Io, Sink, write_all};
use match_rules::Rules;
use text_lines::LineBuffer;

// The line of a pair.
fn share_line(rules: &Rules, shares: &[u32], pair: usize) -> LineBuffer
    requires place { pair < length rules.now.pairs }
    requires long { length shares.now ≡ length rules.now.pairs }
    ensures { result ≡ line_of (share_line rules.now shares.now pair) }
{
    let mut line = begun_with_pair(rules, pair);
    push_score(&mut line, &rules.pairs()[pair]);
    push_number(&mut line, u64::from(shares[pair]));
    end_line(&mut line);
    line
}

// The line of a pair, where it has a share.
fn write_share<K: Sink>(rules: &Rules, shares: &[u32], pair: usize, sink: &mut K) -> Result<(), Io>
    requires place { pair < length rules.now.pairs }
    requires long { length shares.now ≡ length rules.now.pairs }
    ensures taken { AddsAll (K.taken sink.old) (K.taken sink.new) result (share_text rules.now shares.now pair) }
    ensures cause { HasCause (K.faults sink.old) (K.faults sink.new) result }
{
    if shares[pair] == 0 {
        return Ok(());
    }
    write_all(sink, share_line(rules, shares, pair).as_slice())
}

fn write_share_lines<K: Sink>(rules: &Rules, shares: &[u32], sink: &mut K) -> Result<(), Io>
    requires { length shares.now ≡ length rules.now.pairs }
    ensures taken { AddsAll (K.taken sink.old) (K.taken sink.new) result (texts_below (length rules.now.pairs) (share_text rules.now shares.now)) }
    ensures cause { HasCause (K.faults sink.old) (K.faults sink.new) result }
{
    for pair in 0..shares.len() {
        write_share(rules, shares, pair, sink)?;
    }
    Ok(())
}

/// Appends the table of shares.
pub(crate) fn write_shares<K: Sink>(
    rules: &Rules,
    shares: &[u32],
    sink: &mut K,
) -> Result<(), ReportFault>
    requires { length shares.now ≡ length rules.now.pairs }
    ensures taken { AddsAll (K.taken sink.old) (K.taken sink.new) result (shares_text rules.now shares.now) }
    ensures cause { WriteFails (K.faults sink.old) (K.faults sink.new) result }
    ensures quiet { IsErrOf result Memory → K.taken sink.new ≡ K.taken sink.old }
{
    write_all(sink, b"paper,reviewer,score,tickets\n")?;
    write_share_lines(rules, shares, sink)?;
    Ok(())
}
