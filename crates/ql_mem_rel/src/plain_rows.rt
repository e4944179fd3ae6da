//! Rows of tables: giving, adding, changing and taking them away.
ghost use Rattle.std.specs.Prelude.{◌≡◌, ◌<◌, ◌≤◌, [], length, map, filter, slice_get, vec_len, IfOk, IfSome, OnOk, OnErr};
ghost use Rattle.std.specs.Option.{option_copied};
ghost use Rattle.ql_rel.specs.Changes.{changed_at, with_row, with_values, is_other, no_rows, row_of, inserted, changed, removed, truncated};
ghost use Rattle.ql_rel.specs.Databases.{columns_at, schema_of};
ghost use Rattle.ql_mem_rel.specs.Kept.{db_of, WantsMemory};
ghost use Rattle.ql_rel.specs.Refusals.{insert_refusal, change_refusal, IsRefusedBy};
ghost use Rattle.ql_rel.specs.Rels.{row_after, row_with};
ghost use Rattle.ql_rel.specs.WellFormed.{Fits, Rise};

use crate::plain_db::PlainDb;
use crate::row_check::check_row;
use crate::row_copy::copy_values;
use crate::row_list::RowList;
use ql_edge::NoMemory;
use ql_rel::{LAST_ID, RelFault, Row};
use ql_value::Values;
use std::alloc::Global;

/// Adds a row to the rows of a table.
fn push_row(alloc: Global, rows: &mut Vec<RowList>, table: usize, row: Row) -> Result<(), NoMemory>
    requires { table < vec_len rows.old }
    ensures ok { OnOk result (rows.new.items ≡ changed_at table (with_row row) rows.old.items) }
    ensures err { OnErr result (rows.new.items ≡ rows.old.items) }
    ensures len { vec_len rows.new ≡ vec_len rows.old }
{
    rows[table].push(alloc, row)
}

/// Gives a row of a table other values.
fn change_row(rows: &mut Vec<RowList>, table: usize, id: u64, values: Values)
    requires table { table < vec_len rows.old }
    requires rise { IfSome (slice_get rows.old.items table) (Rise 1) }
    ensures changed { rows.new.items
        ≡ changed_at table (map (with_values id values)) rows.old.items }
    ensures len { vec_len rows.new ≡ vec_len rows.old }
{
    rows[table].change(id, values);
}

/// Takes a row of a table away.
fn remove_row(rows: &mut Vec<RowList>, table: usize, id: u64)
    requires table { table < vec_len rows.old }
    requires rise { IfSome (slice_get rows.old.items table) (Rise 1) }
    ensures removed { rows.new.items ≡ changed_at table (filter (is_other id)) rows.old.items }
    ensures len { vec_len rows.new ≡ vec_len rows.old }
{
    rows[table].remove(id);
}

/// Takes all rows of a table away.
fn clear_rows(rows: &mut Vec<RowList>, table: usize)
    requires { table < vec_len rows.old }
    ensures cleared { rows.new.items ≡ changed_at table no_rows rows.old.items }
    ensures len { vec_len rows.new ≡ vec_len rows.old }
{
    rows[table].clear();
}

impl PlainDb {
    /// The first row of a table whose id is over `after`.
    pub fn row_after(&self, table: usize, after: u64) -> Option<&Row>
        requires { table < length self.now.schema.tables }
        ensures row { option_copied result ≡ row_after table after (db_of self.now) }
        ensures over { IfSome result (λ row. after < row.now.id) }
        ensures fits { IfSome result (λ row. Fits (columns_at table self.now.schema)
            row.now.values) }
    {
        self.rows[table].first_after(after)
    }

    /// The row of a table with an id.
    pub fn row_with(&self, table: usize, id: u64) -> Option<&Row>
        requires { table < length self.now.schema.tables }
        ensures row { option_copied result ≡ row_with table id (db_of self.now) }
        ensures asked { IfSome result (λ row. row.now.id ≡ id) }
        ensures fits { IfSome result (λ row. Fits (columns_at table self.now.schema)
            row.now.values) }
    {
        self.rows[table].with_id(id)
    }

    /// Refuses a new row.
    fn check_insert(&self, alloc: Global, table: usize, values: &Values) -> Result<(), RelFault>
        requires { table < length self.now.schema.tables }
        ensures refused { IsRefusedBy (insert_refusal table values.now (db_of self.now)) result }
        ensures memory { WantsMemory result }
        ensures left { OnOk result (self.now.next_id ≤ LAST_ID) }
    {
        check_row(alloc, &self.schema, table, self.next_id, values)?;
        if self.next_id > LAST_ID {
            return Err(RelFault::IdsSpent);
        }
        Ok(())
    }

    /// Adds a row with the next id, and answers the id. After a refusal all is as before.
    pub fn insert(&mut self, alloc: Global, table: usize, values: &Values) -> Result<u64, RelFault>
        requires table { table < length self.old.schema.tables }
        requires fits { Fits (columns_at table self.old.schema) values.now }
        ensures db { OnOk result (db_of self.new ≡ inserted table values.now (db_of self.old)) }
        ensures kept { OnErr result (db_of self.new ≡ db_of self.old) }
        ensures schema { self.new.schema ≡ self.old.schema }
        ensures id { IfOk result (λ id. id ≡ self.old.next_id) }
        ensures refused { IsRefusedBy (insert_refusal table values.now (db_of self.old)) result }
        ensures memory { WantsMemory result }
    {
        self.check_insert(alloc, table, values)?;
        let id = self.next_id;
        let values = copy_values(alloc, values)?;
        push_row(alloc, &mut self.rows, table, Row { id, values })?;
        self.next_id = id + 1;
        Ok(id)
    }

    /// Gives the row with an id other values. After a refusal all is as before.
    pub fn change(
        &mut self,
        alloc: Global,
        table: usize,
        id: u64,
        values: &Values,
    ) -> Result<(), RelFault>
        requires table { table < length self.old.schema.tables }
        requires fits { Fits (columns_at table self.old.schema) values.now }
        ensures db { OnOk result (db_of self.new ≡ changed table id values.now (db_of self.old)) }
        ensures kept { OnErr result (db_of self.new ≡ db_of self.old) }
        ensures schema { self.new.schema ≡ self.old.schema }
        ensures refused { IsRefusedBy (change_refusal table id values.now self.old.schema) result }
        ensures memory { WantsMemory result }
    {
        check_row(alloc, &self.schema, table, id, values)?;
        let values = copy_values(alloc, values)?;
        change_row(&mut self.rows, table, id, values);
        Ok(())
    }

    /// Takes the row with an id away.
    pub fn remove(&mut self, table: usize, id: u64)
        requires { table < length self.old.schema.tables }
        ensures db { db_of self.new ≡ removed table id (db_of self.old) }
        ensures schema { self.new.schema ≡ self.old.schema }
    {
        remove_row(&mut self.rows, table, id);
    }

    /// Takes all rows of a table away.
    pub fn truncate(&mut self, table: usize)
        requires { table < length self.old.schema.tables }
        ensures db { db_of self.new ≡ truncated table (db_of self.old) }
        ensures schema { self.new.schema ≡ self.old.schema }
    {
        clear_rows(&mut self.rows, table);
    }
}
