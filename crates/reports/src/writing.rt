// Writing a report.
ghost use Rattle.std.specs.Prelude.{◌≡◌, IsErrOf};
ghost use Rattle.edge_io.specs.Told.{AddsAll};
ghost use Rattle.match_rules.specs.Answers.{WinningMatches};
ghost use Rattle.reports.specs.Faults.{WriteFails};
ghost use Rattle.reports.specs.Reports.{IsAskedOf, report_text};
ghost use Rattle.reports.specs.declared.kinds.ReportFault.TheVariants.{Memory};

use crate::assignment::write_ticket;
use crate::institutions::write_institutions;
use crate::kinds::{Report, ReportFault};
use crate::loads::write_loads;
use crate::papers::write_papers;
use crate::shares::write_shares;
use edge_io::Sink;
use match_rules::{Rules, Winning};
use std::alloc::Global;

/// Appends a report of a lottery that matches the rules, a write for each line. A ticket that is asked for has to be
/// one of the lottery, of which a certified one has as many as its rules. After a write fault a front of the text was appended,
/// and where memory was wanting nothing.
/// Time is linear, but for the order of the institutions; memory is for a number for each paper, reviewer or institution.
pub fn report<K: Sink>(
    alloc: Global,
    rules: &Rules,
    winning: &Winning,
    what: Report,
    sink: &mut K,
) -> Result<(), ReportFault>
    requires matching { WinningMatches rules.now winning.now }
    requires ticket { IsAskedOf winning.now.lottery what }
    ensures taken { AddsAll (K.taken sink.old) (K.taken sink.new) result (report_text rules.now winning.now what) }
    ensures cause { WriteFails (K.faults sink.old) (K.faults sink.new) result }
    ensures quiet { IsErrOf result Memory → K.taken sink.new ≡ K.taken sink.old }
{
    let shares = winning.shares.as_slice();
    match what {
        Report::Shares => write_shares(rules, shares, sink),
        Report::Loads => write_loads(alloc, rules, shares, sink),
        Report::Papers => write_papers(alloc, rules, shares, sink),
        Report::Institutions => write_institutions(alloc, rules, shares, sink),
        Report::Ticket { ticket } => write_ticket(rules, &winning.lottery, ticket, sink),
    }
}
