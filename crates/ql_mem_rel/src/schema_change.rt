//! Copies of a schema with a part changed.
ghost use Rattle.std.specs.Prelude.{◌≡◌, ◌<◌, length, filter, remove, IfOk};
ghost use Rattle.ql_rel.specs.Changes.{changed_at, is_of_other, is_not_by, is_by as by_column};
ghost use Rattle.ql_mem_rel.specs.Places.{place_before, with_columns};

use ql_edge::{Name, NoMemory};
use ql_rel::{Index, Indexes, TableSchema, TableSchemas, add_tables, copy_index, copy_name};
use ql_syntax::{ColumnDefs, Item};
use std::alloc::Global;

/// The place of the first table whose name comes after this one, or the number of tables.
pub(crate) fn place_of(name: &Name, tables: &[TableSchema]) -> usize
    ensures { result ≡ place_before name.now tables.now }
{
    for (i, table) in tables.iter().enumerate() {
        if name.as_slice().cmp(table.name.as_slice()).is_lt() {
            return i;
        }
    }
    tables.len()
}

/// Copies of the tables but the one at a place.
pub(crate) fn remove_table(
    alloc: Global,
    tables: &[TableSchema],
    at: usize,
) -> Result<TableSchemas, NoMemory>
    requires { at < length tables.now }
    ensures { IfOk result (λ copy. copy ≡ remove tables.now at) }
{
    let mut copy = TableSchemas::new(alloc);
    add_tables(alloc, &tables[..at], &mut copy)?;
    add_tables(alloc, &tables[at + 1..], &mut copy)?;
    Ok(copy)
}

/// Copies of the tables, with other columns at a place.
pub(crate) fn change_columns(
    alloc: Global,
    tables: &[TableSchema],
    at: usize,
    columns: ColumnDefs,
) -> Result<TableSchemas, NoMemory>
    requires { at < length tables.now }
    ensures { IfOk result (λ copy. copy ≡ changed_at at (with_columns columns) tables.now) }
{
    let mut copy = TableSchemas::new(alloc);
    add_tables(alloc, &tables[..at], &mut copy)?;
    let name = copy_name(alloc, &tables[at].name)?;
    copy.push(TableSchema { name, columns })?;
    add_tables(alloc, &tables[at + 1..], &mut copy)?;
    Ok(copy)
}

/// Copies of the indexes of other tables.
pub(crate) fn other_indexes(
    alloc: Global,
    indexes: &[Index],
    table: &Name,
) -> Result<Indexes, NoMemory>
    ensures { IfOk result (λ copy. copy ≡ filter (is_of_other table.now) indexes.now) }
{
    let mut copy = Indexes::new(alloc);
    for index in indexes {
        if index.table.as_slice() != table.as_slice() {
            copy.push(copy_index(alloc, index)?)?;
        }
    }
    Ok(copy)
}

/// Whether the index is by this column.
fn is_by(index: &Index, column: &Name) -> bool
    ensures { result ≡ by_column column.now index.now.item }
{
    match &index.item {
        Item::Column(name) => name.as_slice() == column.as_slice(),
        Item::Id => false,
    }
}

/// Copies of the indexes but those by this column of this table.
pub(crate) fn indexes_beside(
    alloc: Global,
    indexes: &[Index],
    table: &Name,
    column: &Name,
) -> Result<Indexes, NoMemory>
    ensures { IfOk result (λ copy. copy ≡ filter (is_not_by table.now column.now) indexes.now) }
{
    let mut copy = Indexes::new(alloc);
    for index in indexes {
        if index.table.as_slice() != table.as_slice() || !is_by(index, column) {
            copy.push(copy_index(alloc, index)?)?;
        }
    }
    Ok(copy)
}
