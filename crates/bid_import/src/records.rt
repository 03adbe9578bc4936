ghost use Rattle.std.specs.Prelude.{◌≡◌, ℕ, List, Result, OnOk, ◌==◌, ◌&&◌};
ghost use Rattle.csv.specs.Reading.{error_kind};
ghost use Rattle.csv.specs.Records.{AllText, fields_of};
ghost use Rattle.bid_import.specs.declared.fault.Code.{Code};
ghost use Rattle.bid_import.specs.declared.file_kind.FileKind.{FileKind};
ghost use Rattle.bid_import.specs.Files.{is_header, rows_of_file, Imports, Reads};
ghost use Rattle.bid_import.specs.Kinds.{columns_of, most_records};
ghost use Rattle.bid_import.specs.RecordLoop.{rest_of, Goes, Adds, IsProgress, unread_fault};

use crate::fault::{Code, ImportFault, RowFault};
use crate::file_kind::FileKind;
use csv::{ErrorKind, ReaderBuilder, StringRecord};
use std::alloc::Global;

/// How the records of a kind of file read.
pub(crate) trait RowKind {
    type Row: Drop;

    ghost file: { FileKind };

    ghost row_of: { Self → List (List ℕ) → Result Self.Row Code };

    /// The kind of the file.
    fn file(&self) -> FileKind
        ensures { result ≡ file };

    /// The row of a record of text.
    fn row(&self, alloc: Global, found: &StringRecord) -> Result<Self::Row, RowFault>
        ensures { Reads result (row_of self.now (fields_of found.now)) };
}

// The rows of the records so far, and how many records they were.
#[derive(Drop)]
struct Progress<R> {
    number: u64,
    rows: Vec<R>,
}

// Takes a record more: its row, or its fault, or nothing where it has the names of the columns.
fn put<K: RowKind>(
    alloc: Global,
    kind: &K,
    found: &StringRecord,
    progress: &mut Progress<K::Row>,
) -> Result<(), ImportFault>
    requires progress { IsProgress (most_records K.file) progress.old.number progress.old.rows.items }
    requires text { AllText (fields_of found.now) }
    ensures goes { Goes result (rest_of (K.row_of kind.now) (columns_of K.file) (most_records K.file) progress.old.number progress.old.rows.items) (rest_of (K.row_of kind.now) (columns_of K.file) (most_records K.file) progress.new.number progress.new.rows.items) (fields_of found.now) }
    ensures kept { OnOk result (IsProgress (most_records K.file) progress.new.number progress.new.rows.items) }
{
    let skipped = is_skipped(kind, progress.number, found);
    progress.number += 1;
    if skipped {
        return Ok(());
    }
    add(alloc, kind, found, progress)
}

// Whether this is the first record, with the names of the columns.
fn is_skipped<K: RowKind>(kind: &K, number: u64, found: &StringRecord) -> bool
    ensures { result ≡ (number == 0) && is_header (columns_of K.file) (fields_of found.now) }
{
    if number != 0 {
        return false;
    }
    kind.file().has_columns(found)
}

// Adds the row of a record.
fn add<K: RowKind>(
    alloc: Global,
    kind: &K,
    found: &StringRecord,
    progress: &mut Progress<K::Row>,
) -> Result<(), ImportFault>
    ensures number { progress.new.number ≡ progress.old.number }
    ensures added { Adds result (K.row_of kind.now) (most_records K.file) progress.old.number progress.old.rows.items progress.new.rows.items (fields_of found.now) }
{
    let row = progress.number;
    if progress.rows.len() >= kind.file().most_records() {
        return Err(ImportFault::Bad {
            row,
            code: Code::TooMany,
        });
    }
    let new = match kind.row(alloc, found) {
        Ok(new) => new,
        Err(RowFault::Memory) => return Err(ImportFault::Memory),
        Err(RowFault::Wrong(code)) => return Err(ImportFault::Bad { row, code }),
    };
    match progress.rows.push(new) {
        Ok(()) => Ok(()),
        Err(_) => Err(ImportFault::Memory),
    }
}

// The fault of a next record that isn't text: one too many, or not UTF-8. Any other error is for want of memory,
// since a slice is read without fail and records may differ in length.
fn unread<K: RowKind>(kind: &K, progress: &Progress<K::Row>, error: &csv::Error) -> ImportFault
    requires { IsProgress (most_records K.file) progress.now.number progress.now.rows.items }
    ensures { result ≡ unread_fault (error_kind error.now) (most_records K.file) progress.now.number progress.now.rows.items }
{
    match error.kind() {
        ErrorKind::Utf8 { .. } => ImportFault::Bad {
            row: progress.number + 1,
            code: if progress.rows.len() < kind.file().most_records() {
                Code::NotUtf8
            } else {
                Code::TooMany
            },
        },
        _ => ImportFault::Memory,
    }
}

/// The rows of a file, or its first record at fault.
pub(crate) fn read_rows<K: RowKind>(
    alloc: Global,
    kind: &K,
    bytes: &[u8],
) -> Result<Vec<K::Row>, ImportFault>
    ensures { Imports result (rows_of_file (K.row_of kind.now) (columns_of K.file) (most_records K.file) bytes.now) }
{
    let mut reader = ReaderBuilder::new()
        .has_headers(false)
        .flexible(true)
        .from_reader(alloc, bytes);
    let mut found = StringRecord::new(alloc);
    let mut progress = Progress {
        number: 0,
        rows: Vec::new(alloc),
    };
    // Each record takes a byte or more, so a file has no more records than bytes.
    for _turn in 0..bytes.len() {
        match reader.read_record(&mut found) {
            Ok(true) => {}
            Ok(false) => break,
            Err(error) => return Err(unread(kind, &progress, &error)),
        }
        put(alloc, kind, &found, &mut progress)?;
    }
    Ok(progress.rows)
}
