// Edits of a venue, one after the other.

ghost use Rattle.std.specs.Prelude.{◌≡◌, IfOk};

use crate::answers::print_text;
use anyhow::{Context, bail};
use edge_io::{Io, MemoryFile, SureSink};
use editions::{Body, Edit, EditFault, Edited, How, LoadFault, TableName, Venue};
use match_rules::Rules;
use matcher_cli::write_refusal;
use publication::write_rules;
use score_spec::Text;
use std::alloc::Global;

fn table_of(alloc: Global, name: &str) -> anyhow::Result<TableName> {
    match name {
        "settings" => Ok(TableName::Settings),
        "papers" => Ok(TableName::Papers),
        "reviewers" => Ok(TableName::Reviewers),
        "bids" => Ok(TableName::Bids),
        "marks" => Ok(TableName::Marks),
        "caps" => Ok(TableName::Caps),
        _ => values_of(alloc, name),
    }
}

fn values_of(alloc: Global, name: &str) -> anyhow::Result<TableName> {
    let name = name
        .strip_prefix("values-")
        .context("no table has this name")?;
    let source = Text::read(alloc, name)?;
    Ok(TableName::Values { source })
}

// Settings are replaced, whatever stands there.
fn edit_of(table: TableName, how: &str, body: Body) -> Edit
    ensures { result.table ≡ TableName.Settings → result.how ≡ How.Replace }
{
    match table {
        TableName::Settings => Edit {
            table,
            how: How::Replace,
            body,
        },
        _ => Edit {
            table,
            how: if how == "merge" {
                How::Merge
            } else {
                How::Replace
            },
            body,
        },
    }
}

// The line of a fault stands for a file of the table's name.
fn refusal_of(alloc: Global, table: &str, fault: EditFault) -> anyhow::Result<LoadFault> {
    match fault {
        EditFault::Memory => bail!("memory is wanting"),
        EditFault::Import { row, code } => {
            let file = Text::read(alloc, table)?;
            Ok(LoadFault::Bad { file, row, code })
        }
        EditFault::Limit(fault) => Ok(LoadFault::Limit(fault)),
    }
}

// Prints the rules after an edit.
fn print_rules(rt: &HostRuntime, rules: &Rules) -> anyhow::Result<()> {
    let mut sink = SureSink::new(rt.alloc());
    if write_rules(rules, &mut sink) == Err(Io::Failed) {
        bail!("writing failed");
    }
    print_text(rt, sink.bytes())
}

// Prints the line of the fault of an edit.
fn print_fault(rt: &HostRuntime, table: &str, fault: EditFault) -> anyhow::Result<()> {
    let refusal = refusal_of(rt.alloc(), table, fault)?;
    let mut sink = SureSink::new(rt.alloc());
    if write_refusal(&refusal, &mut sink) == Err(Io::Failed) {
        bail!("writing failed");
    }
    print_text(rt, sink.bytes())
}

// The edit of a part.
fn edit_in(alloc: Global, table: &str, how: &str, bytes: &[u8]) -> anyhow::Result<Edit>
    ensures { IfOk result (λ edit. edit.table ≡ TableName.Settings → edit.how ≡ How.Replace) }
{
    let body = Body::from_vec(Vec::from_slice(alloc, bytes)?);
    Ok(edit_of(table_of(alloc, table)?, how, body))
}

// What a venue answers to an edit.
fn answer_of(alloc: Global, venue: &Venue, edit: &Edit) -> Result<Edited, EditFault>
    requires { edit.now.table ≡ TableName.Settings → edit.now.how ≡ How.Replace }
{
    venue.next(alloc, edit)
}

// Makes an edit; a venue that refuses it stays as it was.
fn make(rt: &HostRuntime, venue: &mut Venue, part: &MemoryFile) -> anyhow::Result<()> {
    let alloc = rt.alloc();
    let (table, how) = part.name.split_once(' ').context("edit TABLE HOW")?;
    let edit = edit_in(alloc, table, how, part.bytes.as_slice())?;
    match answer_of(alloc, venue, &edit) {
        Ok(edited) => {
            *venue = edited.venue;
            print_rules(rt, &edited.rules)
        }
        Err(fault) => print_fault(rt, table, fault),
    }
}

/// Makes the edits from the empty venue on, and prints what each answers.
pub(crate) fn make_edits(rt: &HostRuntime, parts: &[MemoryFile]) -> anyhow::Result<()> {
    let mut venue = Venue::empty(rt.alloc())?;
    for part in parts {
        make(rt, &mut venue, part)?;
    }
    Ok(())
}
