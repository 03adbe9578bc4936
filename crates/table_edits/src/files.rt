// The files of the tables in a folder, and the order in which they are read.

ghost use Rattle.std.specs.Prelude.{◌≡◌, ◌++◌, codes, filter, map, IfOk, OnOk};
ghost use Rattle.score_spec.specs.Scores.{is_values};
ghost use Rattle.table_edits.specs.Files.{file_of, has_to_be_there, tables_of, values_table};

use crate::edit::TableName;
use score_spec::{Kind, SourceSpec, Text};
use std::alloc::{AllocError, Global};

fn values_file(alloc: Global, source: &str) -> Result<Text, AllocError>
    ensures { IfOk result (λ name. name ≡ codes "values-" ++ (source.now ++ codes ".csv")) }
{
    let name = format!(in alloc; "values-{source}.csv")?;
    Ok(Text::from_string(name))
}

/// The name of the file of a table.
pub fn file_name(alloc: Global, table: &TableName) -> Result<Text, AllocError>
    ensures { IfOk result (λ name. name ≡ file_of table.now) }
{
    match table {
        TableName::Settings => Text::read(alloc, "settings.toml"),
        TableName::Papers => Text::read(alloc, "papers.csv"),
        TableName::Reviewers => Text::read(alloc, "reviewers.csv"),
        TableName::Values { source } => values_file(alloc, source.as_str()),
        TableName::Bids => Text::read(alloc, "bids.csv"),
        TableName::Marks => Text::read(alloc, "marks.csv"),
        TableName::Caps => Text::read(alloc, "caps.csv"),
    }
}

/// Whether the file of a table has to be in a folder: the papers and the reviewers have.
pub fn has_to_be_there(table: &TableName) -> bool
    ensures { result ≡ has_to_be_there table.now }
{
    match table {
        TableName::Papers => true,
        TableName::Reviewers => true,
        _ => false,
    }
}

// Adds the tables of the sources of values.
fn push_values(
    alloc: Global,
    tables: &mut Vec<TableName>,
    sources: &[SourceSpec],
) -> Result<(), AllocError>
    ensures { OnOk result (tables.new.items ≡ tables.old.items ++ map values_table (filter (λ source. is_values source.kind) sources.now)) }
{
    for source in sources {
        if source.kind() == Kind::Values {
            let source = Text::read(alloc, source.name())?;
            tables.push(TableName::Values { source })?;
        }
    }
    Ok(())
}

/// The tables beside the settings, which have these sources, in the order in which their files are read.
pub fn tables_of(alloc: Global, sources: &[SourceSpec]) -> Result<Vec<TableName>, AllocError>
    ensures { IfOk result (λ tables. tables.items ≡ tables_of sources.now) }
{
    let mut tables = Vec::new(alloc);
    tables.push(TableName::Papers)?;
    tables.push(TableName::Reviewers)?;
    push_values(alloc, &mut tables, sources)?;
    tables.push(TableName::Bids)?;
    tables.push(TableName::Marks)?;
    tables.push(TableName::Caps)?;
    Ok(tables)
}
