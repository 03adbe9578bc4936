// The database at a path.

use crate::statements::find_or_make_table;
use sqlite::{Connection, Error, File, FileStore};

/// Opens the database at a path, or makes it, and sees to it that it has the keeper's table.
pub(crate) fn open(rt: &HostRuntime, path: &str) -> Result<Connection<FileStore<File>>, Error> {
    let mut conn = Connection::open(rt, path)?;
    find_or_make_table(&mut conn)?;
    Ok(conn)
}
