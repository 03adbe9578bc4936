// The venue of a folder: its files as edits, one after the other.

ghost use Rattle.std.specs.Prelude.{◌≡◌, ℕ, List, Option, Ok, IfOk, IsErrOf};
ghost use Rattle.edge_io.specs.Files.{IsRead, file_named};
ghost use Rattle.table_edits.specs.Files.{file_of, tables_of};
ghost use Rattle.editions.specs.Loads.{IsLoadAnswer, LoadFails, Loads, ReadsFiles, after_file, after_files, in_file, venue_in};
ghost use Rattle.editions.specs.Edits.{venue_after};

use crate::fault::{EditFault, LoadFault};
use crate::next::after;
use crate::venue::{Edited, Venue};
use bid_import::{Code, ImportFault};
use edge_io::{FileRead, Folder, FolderFault};
use score_spec::Text;
use std::alloc::{AllocError, Global};
use table_edits::{How, TableName, file_name, has_to_be_there, tables_of};

fn after_absent(venue: Venue, table: &TableName, file: Text) -> Result<Venue, LoadFault>
    requires { file ≡ file_of table.now }
    ensures venue { Loads result (after_file venue table.now None) }
    ensures there { ¬ (IsErrOf result LoadFault.Folder) }
{
    if has_to_be_there(table) {
        return Err(LoadFault::Bad {
            file,
            row: 0,
            code: Code::Missing,
        });
    }
    Ok(venue)
}

fn after_bytes(
    alloc: Global,
    venue: Venue,
    table: &TableName,
    file: Text,
    bytes: &[u8],
) -> Result<Venue, LoadFault>
    requires { file ≡ file_of table.now }
    ensures venue { Loads result (in_file (file_of table.now) (venue_after venue table.now How.Replace bytes.now)) }
    ensures there { ¬ (IsErrOf result LoadFault.Folder) }
{
    match after(alloc, venue, table, How::Replace, bytes) {
        Ok(venue) => Ok(venue),
        Err(ImportFault::Memory) => Err(LoadFault::Memory),
        Err(ImportFault::Bad { row, code }) => Err(LoadFault::Bad { file, row, code }),
    }
}

// The venue after what was read of a file.
fn after_read(
    alloc: Global,
    venue: Venue,
    table: &TableName,
    file: Text,
    read: FileRead,
) -> Result<Venue, LoadFault>
    requires { file ≡ file_of table.now }
    ensures venue { (found : Option (List ℕ)) → IsRead read found → Loads result (after_file venue table.now found) }
    ensures there { ¬ (IsErrOf result LoadFault.Folder) }
{
    match read {
        FileRead::Found(bytes) => after_bytes(alloc, venue, table, file, bytes.as_slice()),
        FileRead::Absent => after_absent(venue, table, file),
        FileRead::TooLong => Err(LoadFault::Bad {
            file,
            row: 0,
            code: Code::TooLong,
        }),
    }
}

// The venue after the file of a table.
fn read_table<F: Folder>(
    alloc: Global,
    folder: &mut F,
    venue: Venue,
    table: &TableName,
) -> Result<Venue, LoadFault>
    ensures reads { ReadsFiles (F.files folder.old) (F.files folder.new) (λ files. Loads result (after_file venue table.now (file_named files (file_of table.now)))) }
    ensures cause { LoadFails (F.faults folder.old) (F.faults folder.new) result }
{
    let file = match file_name(alloc, table) {
        Ok(file) => file,
        Err(_) => return Err(LoadFault::Memory),
    };
    match folder.read_whole(alloc, file.as_str()) {
        Ok(read) => after_read(alloc, venue, table, file, read),
        Err(FolderFault::Memory) => Err(LoadFault::Memory),
        Err(FolderFault::Failed) => Err(LoadFault::Folder),
    }
}

// The venue after the files of these tables, in their order.
fn read_tables<F: Folder>(
    alloc: Global,
    folder: &mut F,
    start: Venue,
    tables: &[TableName],
) -> Result<Venue, LoadFault>
    ensures reads { ReadsFiles (F.files folder.old) (F.files folder.new) (λ files. Loads result (after_files files tables.now start)) }
    ensures cause { LoadFails (F.faults folder.old) (F.faults folder.new) result }
{
    let mut venue = start;
    for table in tables {
        venue = match read_table(alloc, folder, venue, table) {
            Ok(next) => next,
            Err(fault) => return Err(fault),
        };
    }
    Ok(venue)
}

// The tables beside the settings, in the order in which their files are read.
fn tables_beside(alloc: Global, venue: &Venue) -> Result<Vec<TableName>, AllocError>
    ensures { IfOk result (λ tables. tables.items ≡ tables_of venue.now.settings.spec.sources) }
{
    tables_of(alloc, venue.settings.spec().sources.as_slice())
}

// The venue of a folder.
fn venue_of<F: Folder>(alloc: Global, folder: &mut F) -> Result<Venue, LoadFault>
    ensures reads { ReadsFiles (F.files folder.old) (F.files folder.new) (λ files. Loads result (venue_in files)) }
    ensures cause { LoadFails (F.faults folder.old) (F.faults folder.new) result }
{
    let empty = match Venue::empty(alloc) {
        Ok(empty) => empty,
        Err(_) => return Err(LoadFault::Memory),
    };
    let venue = match read_table(alloc, folder, empty, &TableName::Settings) {
        Ok(venue) => venue,
        Err(fault) => return Err(fault),
    };
    match tables_beside(alloc, &venue) {
        Ok(tables) => read_tables(alloc, folder, venue, tables.as_slice()),
        Err(_) => Err(LoadFault::Memory),
    }
}

fn with_rules(alloc: Global, venue: Venue) -> Result<Edited, LoadFault>
    ensures answer { IsLoadAnswer result (Ok venue) }
    ensures there { ¬ (IsErrOf result LoadFault.Folder) }
{
    match venue.rules(alloc) {
        Ok(rules) => Ok(Edited { venue, rules }),
        Err(EditFault::Memory) => Err(LoadFault::Memory),
        Err(EditFault::Limit(fault)) => Err(LoadFault::Limit(fault)),
        Err(EditFault::Import { .. }) => unreachable!(),
    }
}

/// The venue of a folder with its rules: each file replaces its table, in the order `settings.toml`, `papers.csv`,
/// `reviewers.csv`, `values-NAME.csv` for each source of values in the order of the settings, `bids.csv`,
/// `marks.csv`, `caps.csv`. Papers and reviewers have to be there.
pub fn load<F: Folder>(alloc: Global, folder: &mut F) -> Result<Edited, LoadFault>
    ensures reads { ReadsFiles (F.files folder.old) (F.files folder.new) (λ files. IsLoadAnswer result (venue_in files)) }
    ensures cause { LoadFails (F.faults folder.old) (F.faults folder.new) result }
{
    match venue_of(alloc, folder) {
        Ok(venue) => with_rules(alloc, venue),
        Err(fault) => Err(fault),
    }
}
