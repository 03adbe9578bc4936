// The number of the first record that is a row.

ghost use Rattle.std.specs.Prelude.{◌≡◌, [], true, false, Some, IfOk, MatchOption, option_map};
ghost use Rattle.std.specs.List.{list_all};
ghost use Rattle.std.specs.Str.{is_utf8};
ghost use Rattle.csv.specs.Machine.{next_record};
ghost use Rattle.csv.specs.Reading.{default_config, strip_bom};
ghost use Rattle.csv.specs.Records.{fields_of};
ghost use Rattle.csv.specs.declared.parser.State.TheVariants as st;
ghost use Rattle.bid_import.specs.Files.{first_number, first_row_of};
ghost use Rattle.bid_import.specs.Kinds.{columns_of};

use crate::file_kind::FileKind;
use csv::{ByteRecord, ReaderBuilder, StringRecord};
use std::alloc::{AllocError, Global};

fn first_record(alloc: Global, bytes: &[u8]) -> Result<Option<ByteRecord>, AllocError>
    ensures { IfOk result (λ o. option_map fields_of o ≡ option_map (λ p. p.0) (next_record default_config st.StartRecord [] [] (strip_bom bytes.now))) }
{
    let mut reader = ReaderBuilder::new()
        .has_headers(false)
        .from_reader(alloc, bytes);
    let mut record = ByteRecord::new(alloc);
    match reader.read_byte_record(&mut record) {
        Ok(true) => Ok(Some(record)),
        Ok(false) => Ok(None),
        Err(_) => Err(AllocError),
    }
}

// The text of a record, where each of its fields is.
fn text_of(raw: ByteRecord) -> Option<StringRecord>
    ensures { MatchOption result (list_all is_utf8 (fields_of raw) ≡ false) (λ text. (fields_of text ≡ fields_of raw) × (list_all is_utf8 (fields_of raw) ≡ true)) }
{
    match StringRecord::from_byte_record(raw) {
        Ok(text) => Some(text),
        Err(_) => None,
    }
}

fn number_of(file: FileKind, raw: ByteRecord) -> u64
    ensures { result ≡ first_number (columns_of file) (Some (fields_of raw)) }
{
    let Some(found) = text_of(raw) else {
        return 1;
    };
    if file.has_columns(&found) {
        return 2;
    }
    1
}

/// The number of the first record that is a row of such a file: 2 where the names of the columns stand first,
/// and else 1.
pub fn first_row(alloc: Global, file: FileKind, bytes: &[u8]) -> Result<u64, AllocError>
    ensures { IfOk result (λ number. number ≡ first_row_of (columns_of file) bytes.now) }
{
    match first_record(alloc, bytes)? {
        Some(raw) => Ok(number_of(file, raw)),
        None => Ok(1),
    }
}
