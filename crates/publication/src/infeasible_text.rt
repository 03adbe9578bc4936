// Reading the text of an answer without a lottery, for the rules that it answers.
ghost use Rattle.std.specs.Prelude.{◌≡◌, ◌≤◌, IsSome, IfOk, List, Result, Ok, codes};
ghost use Rattle.edge_io.specs.Told.{told, TellsNoMore};
ghost use Rattle.match_rules.specs.Answers.{AreMarks};
ghost use Rattle.text_lines.specs.Reading.{Gives, FaultHasCause, cursor, due};
ghost use Rattle.publication.specs.CutForms.{marks_of};
ghost use Rattle.publication.specs.InfeasibleReading.{marked_at, cut_at, sums_at, infeasible_at};
ghost use Rattle.publication.specs.Certificates.{AreMarked, IsBlockedFor};

use crate::asked_forms::ModeLine;
use crate::cut_forms::{MarksLine, SideLine};
use edge_io::Source;
use match_rules::{Blocked, Cut, Places, Sizes};
use std::alloc::Global;
use text_lines::{Lines, ReadError, read_amount, read_line, read_words};

// The marked papers, groups and reviewers.
#[derive(Drop)]
struct Marked {
    papers: Places,
    groups: Places,
    reviewers: Places,
}

// What has to pass a cut and what may, in tickets.
#[derive(Clone, Copy)]
struct Sums {
    need: u64,
    room: u64,
}

fn read_marks<S: Source>(
    alloc: Global,
    lines: &mut Lines,
    source: &mut S,
    word: &str,
    count: u32,
) -> Result<Places, ReadError>
    ensures reads { IsSome (S.left source.new) → Gives (λ places. places) result (cursor lines.new (S.left source.new)) (due (marks_of word.now count) (cursor lines.old (S.left source.old))) }
    ensures fits { IfOk result (AreMarks count) }
    ensures untold { TellsNoMore (S.left source.old) (S.left source.new) }
    ensures cause { FaultHasCause (S.faults source.old) (S.faults source.new) (S.left source.new) result }
{
    read_line(alloc, lines, source, &mut MarksLine { word, count }, &[])
}

#[tactic(auto, unfolding(crate::specs::InfeasibleReading::marked_at))]
fn read_marked<S: Source>(
    alloc: Global,
    lines: &mut Lines,
    source: &mut S,
    sizes: Sizes,
) -> Result<Marked, ReadError>
    ensures reads { IsSome (S.left source.new) → Gives (λ marked. (marked.papers, marked.groups, marked.reviewers)) result (cursor lines.new (S.left source.new)) (marked_at sizes (cursor lines.old (S.left source.old))) }
    ensures fits { IfOk result (λ marked. AreMarked sizes marked.papers marked.groups marked.reviewers) }
    ensures untold { TellsNoMore (S.left source.old) (S.left source.new) }
    ensures cause { FaultHasCause (S.faults source.old) (S.faults source.new) (S.left source.new) result }
{
    let papers = read_marks(alloc, lines, source, "marked-papers", sizes.papers)?;
    let groups = read_marks(alloc, lines, source, "marked-groups", sizes.groups)?;
    let reviewers = read_marks(alloc, lines, source, "marked-reviewers", sizes.reviewers)?;
    Ok(Marked {
        papers,
        groups,
        reviewers,
    })
}

/// Reads the lines of a cut, of an answer without a lottery or of the level of one with a lottery.
#[tactic(auto, unfolding(crate::specs::InfeasibleReading::cut_at))]
pub(crate) fn read_cut<S: Source>(
    alloc: Global,
    lines: &mut Lines,
    source: &mut S,
    sizes: Sizes,
) -> Result<Cut, ReadError>
    ensures reads { IsSome (S.left source.new) → Gives (λ cut. cut) result (cursor lines.new (S.left source.new)) (cut_at sizes (cursor lines.old (S.left source.old))) }
    ensures fits { IfOk result (λ cut. AreMarked sizes cut.papers cut.groups cut.reviewers) }
    ensures untold { TellsNoMore (S.left source.old) (S.left source.new) }
    ensures cause { FaultHasCause (S.faults source.old) (S.faults source.new) (S.left source.new) result }
{
    let side = read_line(alloc, lines, source, &mut SideLine {}, &[])?;
    let marked = read_marked(alloc, lines, source, sizes)?;
    Ok(Cut {
        side,
        papers: marked.papers,
        groups: marked.groups,
        reviewers: marked.reviewers,
    })
}

#[tactic(auto, unfolding(crate::specs::InfeasibleReading::sums_at))]
fn read_sums<S: Source>(alloc: Global, lines: &mut Lines, source: &mut S) -> Result<Sums, ReadError>
    ensures reads { IsSome (S.left source.new) → Gives (λ sums. (sums.need, sums.room)) result (cursor lines.new (S.left source.new)) (sums_at (cursor lines.old (S.left source.old))) }
    ensures untold { TellsNoMore (S.left source.old) (S.left source.new) }
    ensures cause { FaultHasCause (S.faults source.old) (S.faults source.new) (S.left source.new) result }
{
    let need = read_amount(alloc, lines, source, "need")?;
    let room = read_amount(alloc, lines, source, "room")?;
    read_words(alloc, lines, source, "end infeasible")?;
    Ok(Sums { need, room })
}

/// Reads the text of an answer without a lottery, behind its first line.
#[tactic(auto, unfolding(crate::specs::InfeasibleReading::infeasible_at))]
pub fn read_infeasible<S: Source>(
    alloc: Global,
    lines: &mut Lines,
    source: &mut S,
    sizes: Sizes,
) -> Result<Blocked, ReadError>
    ensures reads { IsSome (S.left source.new) → Gives (λ blocked. blocked) result (cursor lines.new (S.left source.new)) (infeasible_at sizes (cursor lines.old (S.left source.old))) }
    ensures fits { IfOk result (IsBlockedFor sizes) }
    ensures untold { TellsNoMore (S.left source.old) (S.left source.new) }
    ensures cause { FaultHasCause (S.faults source.old) (S.faults source.new) (S.left source.new) result }
{
    let mode = read_line(alloc, lines, source, &mut ModeLine {}, &[])?;
    let cut = read_cut(alloc, lines, source, sizes)?;
    let sums = read_sums(alloc, lines, source)?;
    Ok(Blocked {
        mode,
        cut,
        need: sums.need,
        room: sums.room,
    })
}
