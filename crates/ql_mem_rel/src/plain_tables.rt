//! Creating and dropping tables.
ghost use Rattle.std.specs.Prelude.{◌≡◌, ◌<◌, ◌≤◌, [], length, false, vec_len, insert, remove, IfOk, OnOk, OnErr};
ghost use Rattle.ql_rel.specs.Changes.{table_created, table_dropped};
ghost use Rattle.ql_rel.specs.Databases.{columns_at};
ghost use Rattle.ql_mem_rel.specs.Kept.{db_of, WantsMemory};
ghost use Rattle.ql_rel.specs.Limits.{is_past_column, is_past_if, is_past_expr, is_past_table};
ghost use Rattle.ql_mem_rel.specs.Places.{id_for};
ghost use Rattle.ql_rel.specs.Refusals.{table_refusal, IsRefusedBy};

use crate::plain_db::PlainDb;
use crate::row_list::RowList;
use crate::schema_change::{other_indexes, place_of, remove_table};
use ql_edge::{Boxed, Bytes, NoMemory};
use ql_print::print_expr;
use ql_rel::{
    COLUMN_LIMIT, RelFault, Schema, TABLE_LIMIT, TableSchema, TableSchemas, copy_table,
    is_past_text,
};
use ql_syntax::{ColumnDef, Expr};
use std::alloc::Global;

/// Whether the printed text of an expression is past the limits of a rule or a default.
#[tactic(auto, unfolding(ql_rel::specs::Limits::is_past_expr))]
fn is_past_expr(alloc: Global, expr: &Expr) -> Result<bool, NoMemory>
    ensures { IfOk result (λ past. past ≡ is_past_expr expr.now) }
{
    let mut text = Bytes::new(alloc);
    print_expr(expr, &mut text)?;
    Ok(is_past_text(text.as_slice()))
}

fn is_past_if(alloc: Global, expr: &Option<Boxed<Expr>>) -> Result<bool, NoMemory>
    ensures { IfOk result (λ past. past ≡ is_past_if expr.now) }
{
    match expr {
        Some(expr) => is_past_expr(alloc, expr.get()),
        None => Ok(false),
    }
}

/// Whether the rule or the default of a column is past its limits.
pub(crate) fn is_past_column(alloc: Global, column: &ColumnDef) -> Result<bool, NoMemory>
    ensures { IfOk result (λ past. past ≡ is_past_column column.now) }
{
    let rule = is_past_if(alloc, &column.rule)?;
    let default = is_past_if(alloc, &column.default)?;
    Ok(rule || default)
}

/// Refuses a table that would pass a limit.
fn check_table(alloc: Global, schema: &Schema, table: &TableSchema) -> Result<(), RelFault>
    ensures refused { IsRefusedBy (table_refusal table.now schema.now) result }
    ensures memory { WantsMemory result }
{
    if schema.tables.len() >= TABLE_LIMIT || table.columns.len() > COLUMN_LIMIT {
        return Err(RelFault::TableLimit);
    }
    for column in table.columns.as_slice() {
        if is_past_column(alloc, column)? {
            return Err(RelFault::TableLimit);
        }
    }
    Ok(())
}

/// Puts a table without rows at a place. After a refusal all is as before.
fn insert_table(
    alloc: Global,
    tables: &mut TableSchemas,
    rows: &mut Vec<RowList>,
    at: usize,
    table: TableSchema,
) -> Result<(), NoMemory>
    requires within { at ≤ length tables.old }
    requires rows_within { at ≤ vec_len rows.old }
    ensures tables { OnOk result (tables.new ≡ insert tables.old at table) }
    ensures rows { OnOk result (rows.new.items ≡ insert rows.old.items at []) }
    ensures tables_kept { OnErr result (tables.new ≡ tables.old) }
    ensures rows_kept { OnErr result (rows.new.items ≡ rows.old.items) }
{
    rows.insert(at, RowList::new(alloc))?;
    match tables.insert(at, table) {
        Ok(()) => Ok(()),
        Err(refused) => {
            rows.remove(at);
            Err(refused)
        }
    }
}

/// The next id, which is 1 again where no table is left.
fn id_left(tables: &TableSchemas, next: u64) -> u64
    ensures { result ≡ id_for tables.now next }
{
    if tables.is_empty() { 1 } else { next }
}

impl PlainDb {
    /// Adds a table without rows. After a refusal all is as before.
    pub fn create_table(&mut self, alloc: Global, table: &TableSchema) -> Result<(), RelFault>
        requires { 0 < length table.now.columns }
        ensures db { OnOk result (db_of self.new ≡ table_created table.now (db_of self.old)) }
        ensures kept { OnErr result (db_of self.new ≡ db_of self.old) }
        ensures refused { IsRefusedBy (table_refusal table.now self.old.schema) result }
        ensures memory { WantsMemory result }
    {
        check_table(alloc, &self.schema, table)?;
        let copy = copy_table(alloc, table)?;
        let at = place_of(&table.name, self.schema.tables.as_slice());
        insert_table(alloc, &mut self.schema.tables, &mut self.rows, at, copy)?;
        Ok(())
    }

    /// Takes a table away, with its rows and its indexes. After a refusal all is as before.
    pub fn drop_table(&mut self, alloc: Global, table: usize) -> Result<(), NoMemory>
        requires { table < length self.old.schema.tables }
        ensures db { OnOk result (db_of self.new ≡ table_dropped table (db_of self.old)) }
        ensures kept { OnErr result (db_of self.new ≡ db_of self.old) }
    {
        let old = self.schema.tables.as_slice();
        let indexes = other_indexes(alloc, self.schema.indexes.as_slice(), &old[table].name)?;
        let tables = remove_table(alloc, old, table)?;
        let next_id = id_left(&tables, self.next_id);
        self.rows.remove(table);
        self.schema = Schema { tables, indexes };
        self.next_id = next_id;
        Ok(())
    }
}
