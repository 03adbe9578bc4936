// A desk opened again from the rows of its keeper.

ghost use Rattle.std.specs.Prelude.{◌≡◌, ◌≤◌, ◌+◌, [], ℕ, List, None, IfErr, IfOk, IsErrOf, IsSome, OnOk};
ghost use Rattle.std.specs.Option.{option_map};
ghost use Rattle.std.specs.Prelude.{slice_get};
ghost use Rattle.edge_io.specs.Counts.{Rose};
ghost use Rattle.desk_keeper.specs.Keepers.{Tells, told_rows};
ghost use Rattle.desk_history.specs.declared.refusals.TheConstants.{MOST_ROW_BYTES};
ghost use Rattle.desk_history.specs.Courses.{AreKept, history_of};
ghost use Rattle.desk_history.specs.Opened.{IsDamaged, IsLegal, Opens};
ghost use Rattle.desk_history.specs.Histories.{History, held};
ghost use Rattle.desk_history.specs.Rows.{rows};
ghost use Rattle.desk_reopening.specs.Editions.{EditionsMakeRules};
ghost use Rattle.desk_reopening.specs.Numbers.{AreNumbersOf};
ghost use Rattle.desk_reopening.specs.Reading.{IsReadFault, IsFront, IsWhole, LeadsOn, NamesDamage, SameRows};

use crate::faults::{OpenFault, ReplayFault};
use crate::laws::edition_laws;
use crate::numbers::Numbers;
use crate::rows::replay_row;
use desk_history::{Entry, MOST_COMMANDS, Tables};
use desk_keeper::{KeepFault, Keeper};
use std::alloc::Global;

/// One row more than a history may have.
const MOST_READS: u64 = MOST_COMMANDS + 1;

/// What a desk has done by the rows of its keeper, and the tables of that. Benches are empty; jobs that were not published
/// are waiting, or stale where an edit came later.
#[derive(Drop)]
pub struct Reopened {
    /// The entries in the order of time.
    pub entries: Vec<Entry>,
    /// Their tables.
    pub tables: Tables,
}

// The row at a place of a keeper.
fn read_at<P: Keeper>(
    alloc: Global,
    keeper: &mut P,
    place: u64,
) -> Result<Option<Vec<u8>>, OpenFault>
    ensures same { SameRows (P.rows keeper.old) (P.rows keeper.new) }
    ensures found { IsSome (P.rows keeper.new) → IfOk result (λ row. option_map (λ bytes. bytes.items) row ≡ slice_get (told_rows (P.rows keeper.new)) place) }
    ensures cause { IfErr result (IsReadFault (P.faults keeper.old) (P.faults keeper.new)) }
    ensures later { P.faults keeper.old ≤ P.faults keeper.new }
{
    match keeper.read(alloc, place) {
        Ok(row) => Ok(row),
        Err(KeepFault::Failed) => Err(OpenFault::Keeper),
        Err(KeepFault::Memory) => Err(OpenFault::Memory),
    }
}

// The row at a place is replayed, or it is damaged.
fn replay_at(
    alloc: Global,
    entries: &mut Vec<Entry>,
    tables: &mut Tables,
    numbers: &mut Numbers,
    row: &[u8],
    place: u64,
) -> Result<(), OpenFault>
    requires kept { AreKept entries.old tables.old }
    requires numbers { AreNumbersOf (history_of entries.old) numbers.old }
    requires bytes { tables.old.bytes ≤ MOST_ROW_BYTES }
    requires editions { EditionsMakeRules (history_of entries.old) }
    ensures replay { LeadsOn (history_of entries.old) row.now place result (history_of entries.new) }
    ensures kept { OnOk result (AreKept entries.new tables.new) }
    ensures numbers { OnOk result (AreNumbersOf (history_of entries.new) numbers.new) }
    ensures editions { OnOk result (EditionsMakeRules (history_of entries.new)) }
{
    match replay_row(alloc, entries, tables, numbers, row) {
        Ok(()) => {
            edition_laws(tables);
            Ok(())
        }
        Err(ReplayFault::Damaged) => Err(OpenFault::Damaged { row: place }),
        Err(ReplayFault::Memory) => Err(OpenFault::Memory),
    }
}

// All rows of a keeper are replayed behind an empty history.
fn replay_rows<P: Keeper>(
    alloc: Global,
    keeper: &mut P,
    entries: &mut Vec<Entry>,
    tables: &mut Tables,
) -> Result<(), OpenFault>
    requires kept { AreKept entries.old tables.old }
    requires empty { history_of entries.old ≡ [] }
    requires editions { EditionsMakeRules (history_of entries.old) }
    ensures same { SameRows (P.rows keeper.old) (P.rows keeper.new) }
    ensures whole { OnOk result (IsWhole (P.rows keeper.new) (history_of entries.new)) }
    ensures kept { OnOk result (AreKept entries.new tables.new) }
    ensures editions { OnOk result (EditionsMakeRules (history_of entries.new)) }
    ensures damaged { IsSome (P.rows keeper.new) → IfErr result (NamesDamage (told_rows (P.rows keeper.new))) }
    ensures later { P.faults keeper.old ≤ P.faults keeper.new }
    ensures fault { IsErrOf result OpenFault.Keeper → Rose (P.faults keeper.old) (P.faults keeper.new) }
{
    let mut numbers = Numbers::new(alloc);
    for place in 0..MOST_READS {
        let found = match read_at(alloc, keeper, place) {
            Ok(found) => found,
            Err(fault) => return Err(fault),
        };
        let Some(row) = found else {
            return Ok(());
        };
        match replay_at(alloc, entries, tables, &mut numbers, row.as_slice(), place) {
            Ok(()) => {}
            Err(fault) => return Err(fault),
        }
    }
    unreachable!()
}

/// What a desk has done by the rows of its keeper, read from place 0 until there is none. Each row is replayed by the rules
/// that hold for a new command, whoever its caller is, and each kept lottery is checked again. The first row that isn't
/// right is damaged, as is that at place 100,000. A number of a caller is looked up in a table, so that all takes time
/// nearly linear in the rows beside what their commands take.
pub fn reopen<P: Keeper>(alloc: Global, keeper: &mut P) -> Result<Reopened, OpenFault>
    ensures kept { IfOk result (λ opened. AreKept opened.entries opened.tables) }
    ensures bytes { IfOk result (λ opened. opened.tables.bytes ≤ MOST_ROW_BYTES) }

    // The history is what the rows open, where the keeper tells them, and it is legal in any case.
    ensures opened { IsSome (P.rows keeper.new) → IfOk result (λ opened. Opens (told_rows (P.rows keeper.new)) (history_of opened.entries)) }
    ensures told { IfOk result (λ opened. Tells (P.rows keeper.new) (rows (history_of opened.entries))) }
    ensures legal { IfOk result (λ opened. (chairs : List (List ℕ)) → IsLegal chairs (history_of opened.entries)) }
    ensures benches { IfOk result (λ opened. (bench : ℕ) → held (history_of opened.entries) bench ≡ None) }
    ensures editions { IfOk result (λ opened. EditionsMakeRules (history_of opened.entries)) }

    // Damage names the first row from which no history follows, and an opened desk says that there is no such row.
    ensures damaged { IsSome (P.rows keeper.new) → IfErr result (NamesDamage (told_rows (P.rows keeper.new))) }
    ensures sound { IsSome (P.rows keeper.new) → OnOk result ((place : ℕ) → ¬ (IsDamaged (told_rows (P.rows keeper.new)) place)) }
    ensures only { IsSome (P.rows keeper.new) → IfOk result (λ opened. (H : History) → Opens (told_rows (P.rows keeper.new)) H → H ≡ history_of opened.entries) }

    // No row changes, and the keeper's fault has its cause.
    ensures same { SameRows (P.rows keeper.old) (P.rows keeper.new) }
    ensures later { P.faults keeper.old ≤ P.faults keeper.new }
    ensures fault { IsErrOf result OpenFault.Keeper → Rose (P.faults keeper.old) (P.faults keeper.new) }
{
    let mut tables = match Tables::empty(alloc) {
        Ok(tables) => tables,
        Err(_) => return Err(OpenFault::Memory),
    };
    let mut entries = Vec::new(alloc);
    edition_laws(&tables);
    match replay_rows(alloc, keeper, &mut entries, &mut tables) {
        Ok(()) => Ok(Reopened { entries, tables }),
        Err(fault) => Err(fault),
    }
}
