// Writing the text of an answer without a lottery, and the lines that lotteries share with it.
ghost use Rattle.std.specs.Prelude.{◌≤◌, ◌++◌, length, codes};
ghost use Rattle.edge_io.specs.Counts.{HasCause};
ghost use Rattle.text_lines.specs.Texts.{line_of};
ghost use Rattle.publication.specs.AskedForms.{mode_line};
ghost use Rattle.publication.specs.CutForms.{side_line};
ghost use Rattle.publication.specs.InfeasibleText.{infeasible_head_text, marked_text, cut_text, sums_text, infeasible_text};
ghost use Rattle.publication.specs.Waiting.{Puts};

use crate::waiting::{put_count, put_places, put_text};
use edge_io::{Io, Sink};
use match_rules::{Blocked, Cut, Mode, Side};
use text_lines::LineBuffer;

/// Puts the line of a mode behind what waits.
pub(crate) fn put_mode<K: Sink>(
    mode: Mode,
    waiting: &mut LineBuffer,
    sink: &mut K,
) -> Result<(), Io>
    ensures puts { Puts (K.taken sink.old) waiting.old (K.taken sink.new) waiting.new result (line_of (mode_line mode)) }
    ensures cause { HasCause (K.faults sink.old) (K.faults sink.new) result }
{
    match mode {
        Mode::Whole => put_text(b"mode whole\n", waiting, sink),
        Mode::Fair => put_text(b"mode fair\n", waiting, sink),
    }
}

fn put_side<K: Sink>(side: Side, waiting: &mut LineBuffer, sink: &mut K) -> Result<(), Io>
    ensures puts { Puts (K.taken sink.old) waiting.old (K.taken sink.new) waiting.new result (line_of (side_line side)) }
    ensures cause { HasCause (K.faults sink.old) (K.faults sink.new) result }
{
    match side {
        Side::Into => put_text(b"cut into\n", waiting, sink),
        Side::OutOf => put_text(b"cut out-of\n", waiting, sink),
    }
}

fn put_marked<K: Sink>(cut: &Cut, waiting: &mut LineBuffer, sink: &mut K) -> Result<(), Io>
    ensures puts { Puts (K.taken sink.old) waiting.old (K.taken sink.new) waiting.new result (marked_text cut.now.papers cut.now.groups cut.now.reviewers) }
    ensures cause { HasCause (K.faults sink.old) (K.faults sink.new) result }
{
    put_places(b"marked-papers", cut.papers.as_slice(), waiting, sink)?;
    put_places(b"marked-groups", cut.groups.as_slice(), waiting, sink)?;
    put_places(b"marked-reviewers", cut.reviewers.as_slice(), waiting, sink)
}

/// Puts the lines of a cut behind what waits.
pub(crate) fn put_cut<K: Sink>(cut: &Cut, waiting: &mut LineBuffer, sink: &mut K) -> Result<(), Io>
    ensures puts { Puts (K.taken sink.old) waiting.old (K.taken sink.new) waiting.new result (cut_text cut.now) }
    ensures cause { HasCause (K.faults sink.old) (K.faults sink.new) result }
{
    put_side(cut.side, waiting, sink)?;
    put_marked(cut, waiting, sink)
}

fn put_sums<K: Sink>(need: u64, room: u64, waiting: &mut LineBuffer, sink: &mut K) -> Result<(), Io>
    ensures puts { Puts (K.taken sink.old) waiting.old (K.taken sink.new) waiting.new result (sums_text need room) }
    ensures cause { HasCause (K.faults sink.old) (K.faults sink.new) result }
{
    put_count(b"need", need, waiting, sink)?;
    put_count(b"room", room, waiting, sink)?;
    put_text(b"end infeasible\n", waiting, sink)
}

// The kind of text and the mode.
fn put_infeasible_head<K: Sink>(
    mode: Mode,
    waiting: &mut LineBuffer,
    sink: &mut K,
) -> Result<(), Io>
    ensures puts { Puts (K.taken sink.old) waiting.old (K.taken sink.new) waiting.new result (infeasible_head_text mode) }
    ensures cause { HasCause (K.faults sink.old) (K.faults sink.new) result }
{
    put_text(b"infeasible 1\n", waiting, sink)?;
    put_mode(mode, waiting, sink)
}

/// Puts the text of an answer without a lottery behind what waits.
pub(crate) fn put_blocked<K: Sink>(
    blocked: &Blocked,
    waiting: &mut LineBuffer,
    sink: &mut K,
) -> Result<(), Io>
    ensures puts { Puts (K.taken sink.old) waiting.old (K.taken sink.new) waiting.new result (infeasible_text blocked.now) }
    ensures cause { HasCause (K.faults sink.old) (K.faults sink.new) result }
{
    put_infeasible_head(blocked.mode, waiting, sink)?;
    put_cut(&blocked.cut, waiting, sink)?;
    put_sums(blocked.need, blocked.room, waiting, sink)
}
