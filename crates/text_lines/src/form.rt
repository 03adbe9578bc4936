// Lines of one form each, and many lines of one form.
ghost use Rattle.std.specs.Prelude.{◌≡◌, ◌++◌, ◌∷◌, [], ℕ, List, Result, IsSome, IfOk, Ok, length};
ghost use Rattle.edge_io.specs.Told.{told, TellsNoMore};
ghost use Rattle.text_lines.specs.Reading.{Gives, GivesLine, FaultHasCause, AllFrom, cursor, due, items_at};

use crate::fault::{LineCode, LineError, ReadError, TextFault};
use crate::lines::Lines;
use edge_io::Source;
use std::alloc::Global;

/// How a line of one kind is read, where the items of the lines of its kind before it are known.
pub trait LineForm {
    type Item: Drop;

    ghost use Rattle.text_lines.specs.declared.fault.LineCode.{LineCode};

    /// What the form keeps of the items before the line.
    ghost ready: { Self → List Self.Item → Type 0 };

    /// What a line reads as behind these items, or the first code that applies to it.
    ghost reads: { Self → List Self.Item → List ℕ → Result Self.Item LineCode };

    fn read(
        &mut self,
        alloc: Global,
        before: &[Self::Item],
        line: &str,
    ) -> Result<Self::Item, LineError>
        requires { ready self.old before.now }
        ensures gives { GivesLine result (reads self.old before.now line.now) }
        ensures ready { IfOk result (λ item. ready self.new (before.now ++ item ∷ [])) }
        ensures same { reads self.new ≡ reads self.old };
}

/// The item of the line that is due.
pub fn read_line<S: Source, F: LineForm>(
    alloc: Global,
    lines: &mut Lines,
    source: &mut S,
    form: &mut F,
    before: &[F::Item],
) -> Result<F::Item, ReadError>
    requires { F.ready form.old before.now }
    ensures reads { IsSome (S.left source.new) → Gives (λ item. item) result (cursor lines.new (S.left source.new)) (due (F.reads form.old before.now) (cursor lines.old (S.left source.old))) }
    ensures from { IfOk result (λ item. (line : List ℕ) × (F.reads form.old before.now line ≡ Ok item)) }
    ensures ready { IfOk result (λ item. F.ready form.new (before.now ++ item ∷ [])) }
    ensures same { F.reads form.new ≡ F.reads form.old }
    ensures untold { TellsNoMore (S.left source.old) (S.left source.new) }
    ensures cause { FaultHasCause (S.faults source.old) (S.faults source.new) (S.left source.new) result }
{
    let number = lines.number();
    lines.next(source)?;
    let Ok(line) = str::from_utf8(lines.line()) else {
        return Err(bad_line(number, LineCode::NotUtf8));
    };
    match form.read(alloc, before, line) {
        Ok(item) => Ok(item),
        Err(LineError::Memory) => Err(ReadError::Memory),
        Err(LineError::Code(code)) => Err(bad_line(number, code)),
    }
}

/// The items of so many lines of one form.
pub fn read_items<S: Source, F: LineForm>(
    alloc: Global,
    lines: &mut Lines,
    source: &mut S,
    form: &mut F,
    count: u32,
) -> Result<Vec<F::Item>, ReadError>
    requires { F.ready form.old [] }
    ensures reads { IsSome (S.left source.new) → Gives (λ items. items.items) result (cursor lines.new (S.left source.new)) (items_at (F.reads form.old) count [] (cursor lines.old (S.left source.old))) }
    ensures count { IfOk result (λ items. length items.items ≡ count) }
    ensures from { IfOk result (λ items. AllFrom (F.reads form.old) [] items.items) }
    ensures untold { TellsNoMore (S.left source.old) (S.left source.new) }
    ensures cause { FaultHasCause (S.faults source.old) (S.faults source.new) (S.left source.new) result }
{
    let mut items = Vec::new(alloc);
    for _ in 0..count {
        let item = read_line(alloc, lines, source, form, &items)?;
        items.push(item)?;
    }
    Ok(items)
}

fn bad_line(number: u64, code: LineCode) -> ReadError
    ensures { result ≡ ReadError.Text (TextFault.BadLine number code) }
{
    ReadError::Text(TextFault::BadLine { number, code })
}
