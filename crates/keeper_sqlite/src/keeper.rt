// The keeper over a database.

ghost use Rattle.std.specs.Prelude.{◌≡◌, ◌≢◌, ◌≤◌, ◌<◌, ◌^◌, Ok, Err, None, IfOk, IfNone, IfSome};
ghost use Rattle.edge_io.specs.Counts.{Rose};
ghost use Rattle.edge_io.specs.Memory.{one_more};
ghost use Rattle.desk_keeper.specs.Keepers.{Appends, IsNext, KeepFails, Reads};
ghost use Rattle.keeper_sqlite.specs.Counting.{count_after, count_with};

use crate::opening::open;
use crate::statements::{fault_of, insert, select};
use desk_keeper::{KeepFault, Keeper};
use sqlite::{Alter, Connection, Error, ErrorCode, File, FileStore};
use std::alloc::Global;
use std::marker::Model;

/// Rows in the table `rows(place INTEGER PRIMARY KEY, body BLOB NOT NULL) STRICT` of an SQLite database. It tells no rows:
/// what a file holds, no proof knows.
///
/// Each row is a transaction of its own, which is on the disk before `append` answers. So the rows stay where the disk
/// returns what was written and nobody else writes the file. The last rows may lie in the log beside the file, which has
/// the file's name and `-wal` behind it: whoever moves the file takes both.
///
/// The rows end at the first place that has none, whatever stands behind it: `read` answers `None` there. `append` fails
/// at each place where a row stands, so also at one behind such a gap.
///
/// Each refusal of the database but want of memory is counted as a fault. The count stays at
/// 18,446,744,073,709,551,615 once it is there.
#[derive(Drop)]
pub struct SqliteKeeper<S: Alter> {
    conn: Connection<S>,
    faults: u64,
}

impl<S: Alter> Model for SqliteKeeper<S> {
    ghost use Rattle.std.specs.Prelude.{ℕ};

    ghost Value = { ℕ };

    ghost view = { λ k. k.faults };
}

impl SqliteKeeper<FileStore<File>> {
    /// Opens the database at a path, or makes it, and makes the table where nothing has its name. The keeper has not
    /// failed yet. `Failed` comes only where the database refuses for another cause than memory:
    ///
    /// - The file can't be made, or not be opened for reading and writing, or another program has it open.
    /// - It is no database, or a row of it breaks the schema, as a body that is a text.
    /// - Its `rows` is no table, or one that was made by another text than the keeper's, apart from spaces.
    ///
    /// A file that is refused keeps its bytes, and a log with nothing in it may come to lie beside it.
    pub fn at(rt: &HostRuntime, path: &str) -> Result<SqliteKeeper<FileStore<File>>, KeepFault>
        ensures { IfOk result (λ k. k ≡ 0) }
    {
        match open(rt, path) {
            Ok(conn) => Ok(SqliteKeeper { conn, faults: 0 }),
            Err(error) => Err(fault_of(error)),
        }
    }
}

// The key of a place in the table, which holds signed numbers of 64 bits.
fn key_of(place: u64) -> Option<i64>
    ensures found { IfSome result (λ _. place < 2 ^ 63) }
    ensures none { IfNone result (2 ^ 63 ≤ place) }
{
    i64::try_from(place).ok()
}

impl<S: Alter> SqliteKeeper<S> {
    fn count_fault(&mut self)
        ensures counted { self.new ≡ one_more self.old }
        ensures later { self.old ≤ self.new }
        ensures rose { Rose self.old self.new }
    {
        self.faults = self.faults.saturating_add(1);
    }

    // What a refusal of the database is for the caller; all but want of memory is counted.
    fn refused(&mut self, error: Error) -> KeepFault
        ensures counted { self.new ≡ count_with self.old result }
        ensures later { self.old ≤ self.new }
        ensures cause { result ≡ KeepFault.Failed → Rose self.old self.new }
        ensures memory { error ≡ Error.SqliteFailure ErrorCode.OutOfMemory → result ≡ KeepFault.Memory }
        ensures failed { error ≢ Error.SqliteFailure ErrorCode.OutOfMemory → result ≡ KeepFault.Failed }
    {
        let fault = fault_of(error);
        if matches!(fault, KeepFault::Failed) {
            self.count_fault();
        }
        fault
    }

    fn insert(&mut self, place: i64, row: &[u8]) -> Result<(), Error>
        ensures { self.new ≡ self.old }
    {
        insert(&mut self.conn, place, row)
    }

    fn select(&mut self, place: i64) -> Result<Vec<u8>, Error>
        ensures { self.new ≡ self.old }
    {
        select(&mut self.conn, place)
    }
}

impl<S: Alter> Keeper for SqliteKeeper<S> {
    ghost faults = { λ k. k };

    ghost rows = { λ _. None };

    /// Inserts the row at the place. A place from 9,223,372,036,854,775,808 on is no key of the table: it fails.
    fn append(&mut self, _alloc: Global, place: u64, row: &[u8]) -> Result<(), KeepFault>
        requires { IsNext None place }
        ensures rows { Appends None None result row.now }
        ensures cause { KeepFails self.old self.new result }
        ensures counted { self.new ≡ count_after self.old result }
        ensures far { 2 ^ 63 ≤ place → result ≡ Err KeepFault.Failed }
    {
        let Some(key) = key_of(place) else {
            self.count_fault();
            return Err(KeepFault::Failed);
        };
        match self.insert(key, row) {
            Ok(()) => Ok(()),
            Err(error) => Err(self.refused(error)),
        }
    }

    /// The row at the place. From 9,223,372,036,854,775,808 on there are none.
    fn read(&mut self, _alloc: Global, place: u64) -> Result<Option<Vec<u8>>, KeepFault>
        ensures rows { Reads None None result place }
        ensures cause { KeepFails self.old self.new result }
        ensures counted { self.new ≡ count_after self.old result }
        ensures far { 2 ^ 63 ≤ place → result ≡ Ok None }
    {
        let Some(key) = key_of(place) else {
            return Ok(None);
        };
        match self.select(key) {
            Ok(row) => Ok(Some(row)),
            Err(Error::QueryReturnedNoRows) => Ok(None),
            Err(error) => Err(self.refused(error)),
        }
    }
}
