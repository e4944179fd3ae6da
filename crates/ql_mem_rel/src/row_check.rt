//! Limits of rows and of their keys.
ghost use Rattle.std.specs.Prelude.{◌≡◌, ◌<◌, length, OnOk};
ghost use Rattle.ql_rel.specs.Changes.{row_of};
ghost use Rattle.ql_mem_rel.specs.Kept.{WantsMemory};
ghost use Rattle.ql_rel.specs.Limits.{value_under, is_long_key, has_long_key};
ghost use Rattle.ql_rel.specs.Refusals.{row_refusal, IsRefusedBy};

use ql_edge::Name;
use ql_rel::{Index, KEY_LIMIT, ROW_LIMIT, RelFault, Schema, TableSchema};
use ql_syntax::{ColumnDef, Item};
use ql_value::{Value, Values, key_length, row_length};
use std::alloc::Global;

/// Whether the value of the column with a name is too long for a key.
fn is_long_under(name: &Name, columns: &[ColumnDef], values: &[Value]) -> bool
    ensures { result ≡ is_long_key (value_under name.now columns.now values.now) }
{
    for (i, column) in columns.iter().enumerate() {
        if column.name.as_slice() == name.as_slice() {
            return match values.get(i) {
                Some(value) => key_length(value) > KEY_LIMIT,
                None => false,
            };
        }
    }
    false
}

/// Whether a row of the table has a key in the index that is too long. An id is never too long.
fn has_long_key(table: &TableSchema, index: &Index, id: u64, values: &Values) -> bool
    ensures { result ≡ has_long_key table.now.name table.now.columns (row_of id values.now)
        index.now }
{
    if index.table.as_slice() != table.name.as_slice() {
        return false;
    }
    match &index.item {
        Item::Column(name) => { is_long_under(name, table.columns.as_slice(), values.as_slice()) }
        Item::Id => false,
    }
}

/// Refuses a row of the table at a place that is too long, or has a key that is too long.
pub(crate) fn check_row(
    alloc: Global,
    schema: &Schema,
    table: usize,
    id: u64,
    values: &Values,
) -> Result<(), RelFault>
    requires { table < length schema.now.tables }
    ensures refused { IsRefusedBy (row_refusal table (row_of id values.now) schema.now) result }
    ensures memory { WantsMemory result }
{
    if row_length(values) > ROW_LIMIT {
        return Err(RelFault::RowTooLong);
    }
    let table = &schema.tables.as_slice()[table];
    for index in schema.indexes.as_slice() {
        if has_long_key(table, index, id, values) {
            return Err(RelFault::KeyTooLong(Name::new(alloc, index.name.as_slice())?));
        }
    }
    Ok(())
}
