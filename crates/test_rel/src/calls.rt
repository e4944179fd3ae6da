//! The calls of the trait over tables, each behind a test of what it asks for; a call that is not allowed is not made.
ghost use Rattle.std.specs.Prelude.{◌≡◌, ◌<◌, IsTrue, IsSome, IfSome, true, length};
ghost use Rattle.ql_rel.specs.Databases.{columns_at};
ghost use Rattle.ql_rel.specs.Rels.{row_with};
ghost use Rattle.ql_rel.specs.WellFormed.{Fits};

use crate::reply::{Reply, of_change, of_insert, of_memory};
use ql_rel::{Rel, RelFault, Row, is_row_of};
use ql_value::Values;

/// Opens a level.
pub fn begin<R: Rel>(rel: &mut R) -> Reply {
    if !rel.ready() || rel.depth() == u32::MAX {
        return Reply::NotAllowed;
    }
    of_memory(rel.begin())
}

/// Closes a level, and keeps what was done in it.
pub fn commit<R: Rel>(rel: &mut R) -> Reply {
    if !rel.ready() || rel.depth() == 0 {
        return Reply::NotAllowed;
    }
    match rel.commit() {
        Ok(()) => Reply::Done,
        Err(_) => Reply::Trouble,
    }
}

/// Closes a level, and takes back what was done in it.
pub fn rollback<R: Rel>(rel: &mut R) -> Reply {
    if rel.depth() == 0 {
        return Reply::NotAllowed;
    }
    rel.rollback();
    Reply::Done
}

/// Whether the table at a place may be changed: there is one, the relation is ready, and a level is open.
pub fn may_change<R: Rel>(rel: &R, table: u32) -> bool
    ensures ready { result ≡ true → IsTrue (R.is_ready rel.now) }
    ensures level { result ≡ true → 0 < length (R.saved rel.now) }
    ensures table { result ≡ true → table < length (R.schema rel.now).tables }
{
    rel.ready() && rel.depth() > 0 && (table as usize) < rel.schema().tables.len()
}

/// Takes a table away.
pub fn drop_table<R: Rel>(rel: &mut R, table: u32) -> Reply {
    if !may_change(rel, table) {
        return Reply::NotAllowed;
    }
    of_change(rel.drop_table(table))
}

/// Takes all rows of a table away.
pub fn truncate<R: Rel>(rel: &mut R, table: u32) -> Reply {
    if !may_change(rel, table) {
        return Reply::NotAllowed;
    }
    of_change(rel.truncate(table))
}

/// What a look for a row answered.
fn reply_of(answer: Result<bool, RelFault>, row: &Row) -> Reply {
    match answer {
        Ok(true) => Reply::Id(row.id),
        Ok(false) => Reply::NoRow,
        Err(fault) => Reply::Refused(fault),
    }
}

/// Gives the first row whose id is over `after`.
pub fn scan<R: Rel>(rel: &mut R, table: u32, after: u64, row: &mut Row) -> Reply {
    if !rel.ready() || table as usize >= rel.schema().tables.len() {
        return Reply::NotAllowed;
    }
    let answer = rel.scan(table, after, row);
    reply_of(answer, row)
}

/// Gives the row with an id.
pub fn fetch<R: Rel>(rel: &mut R, table: u32, id: u64, row: &mut Row) -> Reply {
    if !rel.ready() || table as usize >= rel.schema().tables.len() {
        return Reply::NotAllowed;
    }
    let answer = rel.fetch(table, id, row);
    reply_of(answer, row)
}

/// Whether the values are a row of the table at a place.
fn fits<R: Rel>(rel: &R, table: u32, values: &Values) -> bool
    ensures { result ≡ true → Fits (columns_at table (R.schema rel.now)) values.now }
{
    match rel.schema().tables.as_slice().get(table as usize) {
        Some(table) => is_row_of(table.columns.as_slice(), values.as_slice()),
        None => false,
    }
}

/// Adds a row.
pub fn insert<R: Rel>(rel: &mut R, table: u32, values: &Values) -> Reply {
    if !may_change(rel, table) {
        return Reply::NotAllowed;
    }
    if !fits(rel, table, values) {
        return Reply::NotAllowed;
    }
    of_insert(rel.insert(table, values))
}

/// Whether there is a row with an id. It is given.
fn has_row<R: Rel>(rel: &mut R, table: u32, id: u64, row: &mut Row) -> bool
    requires ready { IsTrue (R.is_ready rel.old) }
    requires table { table < length (R.schema rel.old).tables }
    ensures row { result ≡ true → IfSome (R.db rel.new) (λ d. IsSome (row_with table id d)) }
    ensures ready { R.is_ready rel.new ≡ R.is_ready rel.old }
    ensures saved { R.saved rel.new ≡ R.saved rel.old }
    ensures schema { R.schema rel.new ≡ R.schema rel.old }
{
    match rel.fetch(table, id, row) {
        Ok(found) => found,
        Err(_) => false,
    }
}

/// Gives the row with an id other values. The old ones are given.
pub fn change<R: Rel>(rel: &mut R, table: u32, id: u64, values: &Values, row: &mut Row) -> Reply {
    if !may_change(rel, table) {
        return Reply::NotAllowed;
    }
    if !fits(rel, table, values) {
        return Reply::NotAllowed;
    }
    if !has_row(rel, table, id, row) {
        return Reply::NoRow;
    }
    of_change(rel.change(table, id, values))
}

/// Takes the row with an id away. It is given.
pub fn remove<R: Rel>(rel: &mut R, table: u32, id: u64, row: &mut Row) -> Reply {
    if !may_change(rel, table) {
        return Reply::NotAllowed;
    }
    if !has_row(rel, table, id, row) {
        return Reply::NoRow;
    }
    of_change(rel.remove(table, id))
}
