// The pairs of the assignment that a ticket draws.
ghost use Rattle.std.specs.Prelude.{◌≡◌, ◌<◌, ◌≤◌, All, length, IsErrOf};
ghost use Rattle.edge_io.specs.Counts.{HasCause};
ghost use Rattle.edge_io.specs.Told.{AddsAll};
ghost use Rattle.match_rules.specs.Answers.{LotteryMatches};
ghost use Rattle.match_rules.specs.Assignments.{tickets};
ghost use Rattle.text_lines.specs.Texts.{line_of, lines_of};
ghost use Rattle.reports.specs.Faults.{WriteFails};
ghost use Rattle.reports.specs.Reports.{assignment_of};
ghost use Rattle.reports.specs.Tables.{assignment_text, pair_line};
ghost use Rattle.reports.specs.declared.kinds.ReportFault.TheVariants.{Memory};

use crate::kinds::ReportFault;
use crate::lines::{begun_with_pair, end_line};
use edge_io::{Io, Sink, write_all};
use match_rules::{Lottery, Rules, piece_of};
use text_lines::LineBuffer;

fn pair_line(rules: &Rules, pair: usize) -> LineBuffer
    requires { pair < length rules.now.pairs }
    ensures { result ≡ line_of (pair_line rules.now pair) }
{
    let mut line = begun_with_pair(rules, pair);
    end_line(&mut line);
    line
}

fn write_pair_lines<K: Sink>(rules: &Rules, places: &[u32], sink: &mut K) -> Result<(), Io>
    requires { All (λ e. e < length rules.now.pairs) places.now }
    ensures taken { AddsAll (K.taken sink.old) (K.taken sink.new) result (lines_of (pair_line rules.now) places.now) }
    ensures cause { HasCause (K.faults sink.old) (K.faults sink.new) result }
{
    for place in places {
        write_all(sink, pair_line(rules, *place as usize).as_slice())?;
    }
    Ok(())
}

fn write_assignment<K: Sink>(rules: &Rules, places: &[u32], sink: &mut K) -> Result<(), ReportFault>
    requires { All (λ e. e < length rules.now.pairs) places.now }
    ensures taken { AddsAll (K.taken sink.old) (K.taken sink.new) result (assignment_text rules.now places.now) }
    ensures cause { WriteFails (K.faults sink.old) (K.faults sink.new) result }
    ensures quiet { IsErrOf result Memory → K.taken sink.new ≡ K.taken sink.old }
{
    write_all(sink, b"paper,reviewer\n")?;
    write_pair_lines(rules, places, sink)?;
    Ok(())
}

/// Appends the pairs of the piece that holds a ticket.
pub(crate) fn write_ticket<K: Sink>(
    rules: &Rules,
    lottery: &Lottery,
    ticket: u32,
    sink: &mut K,
) -> Result<(), ReportFault>
    requires pieces { LotteryMatches rules.now lottery.now }
    requires ticket { ticket < tickets lottery.now }
    ensures taken { AddsAll (K.taken sink.old) (K.taken sink.new) result (assignment_text rules.now (assignment_of lottery.now ticket)) }
    ensures cause { WriteFails (K.faults sink.old) (K.faults sink.new) result }
    ensures quiet { IsErrOf result Memory → K.taken sink.new ≡ K.taken sink.old }
{
    let Some(place) = piece_of(lottery, ticket) else {
        return Ok(());
    };
    let piece = &lottery.pieces()[place as usize];
    write_assignment(rules, piece.pairs.as_slice(), sink)
}
