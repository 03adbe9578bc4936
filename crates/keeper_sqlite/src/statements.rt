// The statements of the keeper, one a function, and the causes of their refusals.

ghost use Rattle.std.specs.Prelude.{◌≡◌, ◌≢◌};

use desk_keeper::KeepFault;
use sqlite::{Alter, Connection, Error, ErrorCode, params};

// The statement that makes the table. `sqlite_schema` keeps its very text: `IF NOT EXISTS` would stand there too.
const TABLE: &str = "CREATE TABLE rows(place INTEGER PRIMARY KEY, body BLOB NOT NULL) STRICT";

/// What a refusal of the database says of the keeper: want of memory, or a fault for any other cause.
pub(crate) fn fault_of(error: Error) -> KeepFault
    ensures memory { error ≡ Error.SqliteFailure ErrorCode.OutOfMemory → result ≡ KeepFault.Memory }
    ensures failed { error ≢ Error.SqliteFailure ErrorCode.OutOfMemory → result ≡ KeepFault.Failed }
{
    match error {
        Error::SqliteFailure(ErrorCode::OutOfMemory) => KeepFault::Memory,
        _ => KeepFault::Failed,
    }
}

fn find_table<S: Alter>(conn: &mut Connection<S>) -> Result<(), Error> {
    let _found = conn.query_row(
        "SELECT name FROM sqlite_schema WHERE type = 'table' AND name = 'rows'
            AND replace(sql, ' ', '') = replace(?1, ' ', '')",
        params![TABLE],
    )?;
    Ok(())
}

// It is refused where something has the table's name.
fn make_table<S: Alter>(conn: &mut Connection<S>) -> Result<(), Error> {
    conn.execute(TABLE, &[])?;
    Ok(())
}

/// Sees to it that there is the keeper's table. It is known by the text that made it, apart from spaces: with other spaces
/// that text makes the same table, or none.
pub(crate) fn find_or_make_table<S: Alter>(conn: &mut Connection<S>) -> Result<(), Error> {
    match find_table(conn) {
        Err(Error::QueryReturnedNoRows) => make_table(conn),
        found => found,
    }
}

/// Adds a row at a place that has none. The insert is a transaction of its own.
pub(crate) fn insert<S: Alter>(
    conn: &mut Connection<S>,
    place: i64,
    row: &[u8],
) -> Result<(), Error> {
    conn.execute(
        "INSERT INTO rows(place, body) VALUES (?1, ?2)",
        params![place, row],
    )?;
    Ok(())
}

/// The row at a place.
pub(crate) fn select<S: Alter>(conn: &mut Connection<S>, place: i64) -> Result<Vec<u8>, Error> {
    conn.query_row("SELECT body FROM rows WHERE place = ?1", params![place])?
        .get(0)
}
