ghost use Rattle.std.specs.Prelude.{◌≡◌, IsTrue, [], ◌<◌, ◌≤◌, ◌↔◌, ◌≢◌, List, ℕ, length, slice_get, Some, None, Err, IsSome, IsOk, IfOk, IfErr, OnOk, OnErr};
ghost use Rattle.std.specs.Option.{option_copied};
ghost use Rattle.std.specs.Ordering.{nat_cmp};
ghost use Rattle.std.specs.Cmp.Lexicographic.{slice_cmp};
ghost use Rattle.roster.specs.Table.{Ascend, IsAt, IsGap, IsPlaceFor, row_of, place_of, put_row};

use std::alloc::{AllocError, Global};
use std::cmp::Ordering;
use std::marker::Model;

/// The most rows of a table of papers or of reviewers.
pub const MOST_ROWS: u32 = 1_500;

/// A row of a table, found by its key.
pub trait Row: Drop {
    ghost key: { Self → List ℕ };

    /// The key of the row.
    fn key(&self) -> &str
        ensures { result.now ≡ key self.now };

    /// An equal row.
    fn copy(&self, alloc: Global) -> Result<Self, AllocError>
        ensures { IfOk result (λ row. row ≡ self.now) };
}

/// Why a row was not put.
#[derive(Clone, Copy)]
pub enum RosterFault {
    /// So many rows are there that no new key has room.
    TooMany { count: u32 },
    /// Memory was wanting.
    Memory,
}

/// At most 1,500 rows in the order of their keys' bytes. Contracts see the list of the rows.
#[derive(Drop)]
pub struct Table<R: Row> {
    rows: Vec<R>,
}

impl<R: Row> Model for Table<R> {
    ghost use Rattle.std.specs.Prelude.{List, ◌≤◌, length};
    ghost use Rattle.roster.specs.Table.{Ascend};
    ghost use Rattle.roster.specs.declared.table.TheConstants.{MOST_ROWS};

    ghost Value = { List R };

    ghost view = { λ t. t.rows.items };

    ghost invariant = { λ t. Ascend R.key t.rows.items × (length t.rows.items ≤ MOST_ROWS) };
}

// Where the row with this key is, or where it would go.
fn find<R: Row>(rows: &[R], id: &str) -> Result<usize, usize>
    requires { Ascend R.key rows.now }
    ensures { IsPlaceFor R.key id.now rows.now result }
{
    rows.binary_search_by(
        |row| -> Ordering
            ensures { result ≡ slice_cmp nat_cmp (R.key row.now) id.entry.now }
        { row.key().cmp(id) },
    )
}

// Whether a row at this place has this key.
fn has_at<R: Row>(rows: &[R], place: u32, id: &str) -> bool
    requires { Ascend R.key rows.now }
    ensures { IsTrue result ↔ (place_of R.key id.now rows.now ≡ Some place) }
{
    match rows.get(place as usize) {
        Some(row) => row.key().cmp(id).is_eq(),
        None => false,
    }
}

// Writes a row over the one that has its key.
fn replace<R: Row>(rows: &mut Vec<R>, place: usize, row: R)
    requires { IsAt R.key (R.key row) rows.old.items place }
    ensures { rows.new.items ≡ put_row R.key row rows.old.items }
{
    rows[place] = row;
}

// Puts a row of a new key between its neighbours.
fn add<R: Row>(rows: &mut Vec<R>, place: usize, row: R) -> Result<(), RosterFault>
    requires { IsGap R.key (R.key row) rows.old.items place }
    ensures put { OnOk result (rows.new.items ≡ put_row R.key row rows.old.items) }
    ensures kept { OnErr result (rows.new.items ≡ rows.old.items) }
    ensures memory { IfErr result (λ e. e ≡ RosterFault.Memory) }
{
    if let Err(_) = rows.insert(place, row) {
        return Err(RosterFault::Memory);
    }
    Ok(())
}

fn put<R: Row>(rows: &mut Vec<R>, row: R) -> Result<(), RosterFault>
    requires ascend { Ascend R.key rows.old.items }
    requires few { length rows.old.items ≤ MOST_ROWS }
    ensures put { OnOk result (rows.new.items ≡ put_row R.key row rows.old.items) }
    ensures full { (result ≡ Err (RosterFault.TooMany MOST_ROWS)) ↔ ((row_of R.key (R.key row) rows.old.items ≡ None) × (length rows.old.items ≡ MOST_ROWS)) }
    ensures limit { (count : ℕ) → result ≡ Err (RosterFault.TooMany count) → count ≡ MOST_ROWS }
    ensures known { IsSome (row_of R.key (R.key row) rows.old.items) → IsOk result }
    ensures kept { OnErr result (rows.new.items ≡ rows.old.items) }
    ensures few { length rows.new.items ≤ MOST_ROWS }
{
    match find(rows.as_slice(), row.key()) {
        Ok(place) => {
            replace(rows, place, row);
            Ok(())
        }
        Err(place) => {
            if rows.len() >= MOST_ROWS as usize {
                return Err(RosterFault::TooMany { count: MOST_ROWS });
            }
            add(rows, place, row)
        }
    }
}

impl<R: Row> Table<R> {
    /// A table without rows. Takes no memory.
    pub fn new(alloc: Global) -> Self
        ensures { result ≡ [] }
    {
        Table {
            rows: Vec::new(alloc),
        }
    }

    /// The number of rows.
    pub fn len(&self) -> u32
        ensures { result ≡ length self.now }
    {
        self.rows.len() as u32
    }

    /// The rows in the order of their keys.
    pub fn rows(&self) -> &[R]
        ensures same { result.now ≡ self.now }
        ensures ascend { Ascend R.key self.now }
        ensures few { length self.now ≤ MOST_ROWS }
    {
        self.rows.as_slice()
    }

    /// The row of a key, if there is one, in logarithmic time and without memory.
    pub fn get(&self, id: &str) -> Option<&R>
        ensures { option_copied result ≡ row_of R.key id.now self.now }
    {
        match find(self.rows.as_slice(), id) {
            Ok(place) => Some(&self.rows[place]),
            Err(_) => None,
        }
    }

    /// The place of a key in the order of keys, if it is there, in logarithmic time and without memory.
    pub fn place_of(&self, id: &str) -> Option<u32>
        ensures place { result ≡ place_of R.key id.now self.now }
    {
        match find(self.rows.as_slice(), id) {
            Ok(place) => Some(place as u32),
            Err(_) => None,
        }
    }

    /// The place of a key, as `place_of` gives it: by one comparison where the guess is right, else in logarithmic
    /// time.
    pub fn place_from_guess(&self, guess: u32, id: &str) -> Option<u32>
        ensures place { result ≡ place_of R.key id.now self.now }
    {
        if has_at(self.rows.as_slice(), guess, id) {
            return Some(guess);
        }
        self.place_of(id)
    }

    /// The row at a place.
    pub fn row_at(&self, place: u32) -> &R
        requires { place < length self.now }
        ensures { slice_get self.now place ≡ Some result.now }
    {
        &self.rows[place as usize]
    }

    /// Puts a row for its key, in place of the one that had it. A row of a key that is there always finds room.
    pub fn upsert(&mut self, row: R) -> Result<(), RosterFault>
        ensures put { OnOk result (self.new ≡ put_row R.key row self.old) }
        ensures stands { OnOk result (row_of R.key (R.key row) self.new ≡ Some row) }
        ensures others { OnOk result ((id : List ℕ) → id ≢ R.key row → row_of R.key id self.new ≡ row_of R.key id self.old) }
        ensures full { (result ≡ Err (RosterFault.TooMany MOST_ROWS)) ↔ ((row_of R.key (R.key row) self.old ≡ None) × (length self.old ≡ MOST_ROWS)) }
        ensures limit { (count : ℕ) → result ≡ Err (RosterFault.TooMany count) → count ≡ MOST_ROWS }
        ensures known { IsSome (row_of R.key (R.key row) self.old) → IsOk result }
        ensures kept { OnErr result (self.new ≡ self.old) }
        ensures few { length self.old ≤ MOST_ROWS }
    {
        put(&mut self.rows, row)
    }

    /// An equal table.
    pub fn copy(&self, alloc: Global) -> Result<Self, AllocError>
        ensures { IfOk result (λ table. table ≡ self.now) }
    {
        let mut rows = Vec::new(alloc);
        for row in self.rows.iter() {
            rows.push(row.copy(alloc)?)?;
        }
        Ok(Table { rows })
    }
}
