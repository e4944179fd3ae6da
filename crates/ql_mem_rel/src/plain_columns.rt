//! Adding and dropping columns.
ghost use Rattle.std.specs.Prelude.{◌≡◌, ◌<◌, false, ◌++◌, ◌∷◌, [], length, map, remove, vec_len, slice_set, IfOk, IfSome, OnOk, OnErr};
ghost use Rattle.std.specs.List.{list_any};
ghost use Rattle.ql_rel.specs.declared.fault.RelFault.TheVariants as fault;
ghost use Rattle.ql_rel.specs.Changes.{changed_at, with_null, without_value, column_added, column_dropped};
ghost use Rattle.ql_rel.specs.Databases.{columns_at, columns_if, rows_at};
ghost use Rattle.ql_mem_rel.specs.Kept.{db_of, WantsMemory};
ghost use Rattle.ql_rel.specs.Limits.{is_past_added};
ghost use Rattle.ql_mem_rel.specs.Places.{AllLonger};
ghost use Rattle.ql_rel.specs.Refusals.{column_refusal, refused_if, is_long_with_null, IsRefusedBy};

use crate::plain_db::PlainDb;
use crate::plain_tables::is_past_column;
use crate::row_copy::add_values;
use crate::row_list::RowList;
use crate::row_piece::RowPiece;
use crate::schema_change::{change_columns, indexes_beside};
use ql_edge::NoMemory;
use ql_rel::{COLUMN_LIMIT, ROW_LIMIT, RelFault, Row, Schema, add_columns, copy_column};
use ql_syntax::{ColumnDef, ColumnDefs};
use ql_value::{Value, Values, row_length};
use std::alloc::Global;

/// A copy of the row with NULL behind its values.
fn wider_row(alloc: Global, row: &Row) -> Result<Row, NoMemory>
    ensures { IfOk result (λ wide. wide ≡ with_null row.now) }
{
    let mut values = Values::with_capacity(alloc, row.values.len())?;
    add_values(alloc, row.values.as_slice(), &mut values)?;
    values.push(Value::Null)?;
    Ok(Row { id: row.id, values })
}

/// Copies of the rows of a piece, each with NULL behind its values.
fn wider_piece(alloc: Global, rows: &[Row]) -> Result<RowPiece, RelFault>
    ensures rows { IfOk result (λ wide. wide ≡ map with_null rows.now) }
    ensures refused { IsRefusedBy (refused_if (list_any is_long_with_null rows.now)
        fault.RowTooLong) result }
    ensures memory { WantsMemory result }
{
    let mut wide = RowPiece::new(alloc);
    for row in rows {
        let row = wider_row(alloc, row)?;
        if row_length(&row.values) > ROW_LIMIT {
            return Err(RelFault::RowTooLong);
        }
        wide.push(row)?;
    }
    Ok(wide)
}

/// Copies of the rows of a table, each with NULL behind its values.
fn wider_rows(alloc: Global, rows: &RowList) -> Result<RowList, RelFault>
    ensures rows { IfOk result (λ wide. wide ≡ map with_null rows.now) }
    ensures refused { IsRefusedBy (refused_if (list_any is_long_with_null rows.now)
        fault.RowTooLong) result }
    ensures memory { WantsMemory result }
{
    let pieces = rows.pieces();
    let mut wide = RowList::with_capacity(alloc, pieces.len())?;
    for piece in pieces {
        wide.push_piece(wider_piece(alloc, piece.as_slice())?)?;
    }
    Ok(wide)
}

/// A copy of the row without the value at a place.
fn narrower_row(alloc: Global, row: &Row, place: usize) -> Result<Row, NoMemory>
    requires { place < length row.now.values }
    ensures { IfOk result (λ narrow. narrow ≡ without_value place row.now) }
{
    let old = row.values.as_slice();
    let mut values = Values::with_capacity(alloc, old.len())?;
    add_values(alloc, &old[..place], &mut values)?;
    add_values(alloc, &old[place + 1..], &mut values)?;
    Ok(Row { id: row.id, values })
}

/// Copies of the rows of a piece without the values at a place.
fn narrower_piece(alloc: Global, rows: &[Row], place: usize) -> Result<RowPiece, NoMemory>
    requires { AllLonger place rows.now }
    ensures { IfOk result (λ narrow. narrow ≡ map (without_value place) rows.now) }
{
    let mut narrow = RowPiece::new(alloc);
    for row in rows {
        narrow.push(narrower_row(alloc, row, place)?)?;
    }
    Ok(narrow)
}

/// Copies of the rows of a table without the values at a place.
fn narrower_rows(alloc: Global, rows: &RowList, place: usize) -> Result<RowList, NoMemory>
    requires { AllLonger place rows.now }
    ensures { IfOk result (λ narrow. narrow ≡ map (without_value place) rows.now) }
{
    let pieces = rows.pieces();
    let mut narrow = RowList::with_capacity(alloc, pieces.len())?;
    for piece in pieces {
        narrow.push_piece(narrower_piece(alloc, piece.as_slice(), place)?)?;
    }
    Ok(narrow)
}

/// Copies of the columns, with one more behind them.
fn wider_columns(
    alloc: Global,
    columns: &ColumnDefs,
    column: &ColumnDef,
) -> Result<ColumnDefs, NoMemory>
    ensures { IfOk result (λ wide. wide ≡ columns.now ++ column.now ∷ []) }
{
    let mut wide = ColumnDefs::new(alloc);
    add_columns(alloc, columns.as_slice(), &mut wide)?;
    wide.push(copy_column(alloc, column)?)?;
    Ok(wide)
}

/// Copies of the columns but the one at a place.
fn narrower_columns(
    alloc: Global,
    columns: &[ColumnDef],
    place: usize,
) -> Result<ColumnDefs, NoMemory>
    requires { place < length columns.now }
    ensures { IfOk result (λ narrow. narrow ≡ remove columns.now place) }
{
    let mut narrow = ColumnDefs::new(alloc);
    add_columns(alloc, &columns[..place], &mut narrow)?;
    add_columns(alloc, &columns[place + 1..], &mut narrow)?;
    Ok(narrow)
}

/// Puts other rows in the place of those of a table.
fn put_rows(rows: &mut Vec<RowList>, table: usize, new: RowList)
    requires { table < vec_len rows.old }
    ensures put { rows.new.items ≡ slice_set rows.old.items table new }
    ensures len { vec_len rows.new ≡ vec_len rows.old }
{
    rows[table] = new;
}

/// Refuses a column that would pass a limit.
fn check_column(alloc: Global, columns: &ColumnDefs, column: &ColumnDef) -> Result<(), RelFault>
    ensures refused { IsRefusedBy (refused_if (is_past_added column.now columns.now)
        fault.TableLimit) result }
    ensures memory { WantsMemory result }
{
    if columns.len() >= COLUMN_LIMIT || is_past_column(alloc, column)? {
        return Err(RelFault::TableLimit);
    }
    Ok(())
}

impl PlainDb {
    /// Copies of the rows of a table with NULL behind their values, where the table may have one more column.
    fn wider_table(
        &self,
        alloc: Global,
        table: usize,
        column: &ColumnDef,
    ) -> Result<RowList, RelFault>
        requires { table < length self.now.schema.tables }
        ensures rows { IfOk result (λ wide. wide ≡ map with_null (rows_at table (db_of self.now))) }
        ensures few { OnOk result (is_past_added column.now (columns_at table self.now.schema)
            ≡ false) }
        ensures refused { IsRefusedBy (column_refusal table column.now (db_of self.now)) result }
        ensures memory { WantsMemory result }
    {
        let old = &self.schema.tables.as_slice()[table];
        check_column(alloc, &old.columns, column)?;
        let rows = wider_rows(alloc, &self.rows[table])?;
        Ok(rows)
    }

    /// Adds a column behind the others, NULL in each row. After a refusal all is as before.
    pub fn add_column(
        &mut self,
        alloc: Global,
        table: usize,
        column: &ColumnDef,
    ) -> Result<(), RelFault>
        requires { table < length self.old.schema.tables }
        ensures db { OnOk result (db_of self.new ≡ column_added table column.now (db_of self.old)) }
        ensures kept { OnErr result (db_of self.new ≡ db_of self.old) }
        ensures refused { IsRefusedBy (column_refusal table column.now (db_of self.old)) result }
        ensures memory { WantsMemory result }
    {
        let rows = self.wider_table(alloc, table, column)?;
        let old = &self.schema.tables.as_slice()[table];
        let columns = wider_columns(alloc, &old.columns, column)?;
        let tables = change_columns(alloc, self.schema.tables.as_slice(), table, columns)?;
        put_rows(&mut self.rows, table, rows);
        self.schema.tables = tables;
        Ok(())
    }

    /// Takes a column away, with its values and its indexes. After a refusal all is as before.
    pub fn drop_column(
        &mut self,
        alloc: Global,
        table: usize,
        column: usize,
    ) -> Result<(), NoMemory>
        requires table { table < length self.old.schema.tables }
        requires column { column < length (columns_at table self.old.schema) }
        requires other { 1 < length (columns_at table self.old.schema) }
        ensures db { OnOk result (db_of self.new ≡ column_dropped table column (db_of self.old)) }
        ensures kept { OnErr result (db_of self.new ≡ db_of self.old) }
    {
        let old = &self.schema.tables.as_slice()[table];
        let gone = &old.columns.as_slice()[column];
        let all = self.schema.indexes.as_slice();
        let indexes = indexes_beside(alloc, all, &old.name, &gone.name)?;
        let rows = narrower_rows(alloc, &self.rows[table], column)?;
        let columns = narrower_columns(alloc, old.columns.as_slice(), column)?;
        let tables = change_columns(alloc, self.schema.tables.as_slice(), table, columns)?;
        put_rows(&mut self.rows, table, rows);
        self.schema = Schema { tables, indexes };
        Ok(())
    }
}
