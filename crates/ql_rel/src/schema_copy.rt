//! Copies of schemas.
ghost use Rattle.std.specs.Prelude.{◌≡◌, ◌++◌, IfOk, OnOk};

use crate::schema::{Index, Indexes, Schema, TableSchema, TableSchemas};
use ql_edge::{Boxed, Name, NoMemory};
use ql_syntax::{ColumnDef, ColumnDefs, Expr, Item, copy_expr};
use std::alloc::Global;

/// A copy of a name.
pub fn copy_name(alloc: Global, name: &Name) -> Result<Name, NoMemory>
    ensures { IfOk result (λ copy. copy ≡ name.now) }
{
    Name::new(alloc, name.as_slice())
}

fn copy_option(alloc: Global, expr: &Option<Boxed<Expr>>) -> Result<Option<Boxed<Expr>>, NoMemory>
    ensures { IfOk result (λ copy. copy ≡ expr.now) }
{
    match expr {
        Some(expr) => {
            let copy = copy_expr(alloc, expr.get())?;
            Ok(Some(Boxed::new(alloc, copy)?))
        }
        None => Ok(None),
    }
}

/// A copy of a column.
pub fn copy_column(alloc: Global, column: &ColumnDef) -> Result<ColumnDef, NoMemory>
    ensures { IfOk result (λ copy. copy ≡ column.now) }
{
    let name = copy_name(alloc, &column.name)?;
    let rule = copy_option(alloc, &column.rule)?;
    let default = copy_option(alloc, &column.default)?;
    Ok(ColumnDef {
        name,
        kind: column.kind,
        not_null: column.not_null,
        rule,
        default,
    })
}

/// Adds copies of the columns.
pub fn add_columns(
    alloc: Global,
    columns: &[ColumnDef],
    copy: &mut ColumnDefs,
) -> Result<(), NoMemory>
    ensures { OnOk result (copy.new ≡ copy.old ++ columns.now) }
{
    for column in columns {
        copy.push(copy_column(alloc, column)?)?;
    }
    Ok(())
}

fn copy_columns(alloc: Global, columns: &ColumnDefs) -> Result<ColumnDefs, NoMemory>
    ensures { IfOk result (λ copy. copy ≡ columns.now) }
{
    let mut copy = ColumnDefs::with_capacity(alloc, columns.len())?;
    add_columns(alloc, columns.as_slice(), &mut copy)?;
    Ok(copy)
}

/// A copy of a table's schema.
pub fn copy_table(alloc: Global, table: &TableSchema) -> Result<TableSchema, NoMemory>
    ensures { IfOk result (λ copy. copy ≡ table.now) }
{
    let name = copy_name(alloc, &table.name)?;
    let columns = copy_columns(alloc, &table.columns)?;
    Ok(TableSchema { name, columns })
}

/// Adds copies of the tables.
pub fn add_tables(
    alloc: Global,
    tables: &[TableSchema],
    copy: &mut TableSchemas,
) -> Result<(), NoMemory>
    ensures { OnOk result (copy.new ≡ copy.old ++ tables.now) }
{
    for table in tables {
        copy.push(copy_table(alloc, table)?)?;
    }
    Ok(())
}

fn copy_item(alloc: Global, item: &Item) -> Result<Item, NoMemory>
    ensures { IfOk result (λ copy. copy ≡ item.now) }
{
    match item {
        Item::Column(name) => Ok(Item::Column(copy_name(alloc, name)?)),
        Item::Id => Ok(Item::Id),
    }
}

/// A copy of an index.
pub fn copy_index(alloc: Global, index: &Index) -> Result<Index, NoMemory>
    ensures { IfOk result (λ copy. copy ≡ index.now) }
{
    let name = copy_name(alloc, &index.name)?;
    let table = copy_name(alloc, &index.table)?;
    let item = copy_item(alloc, &index.item)?;
    Ok(Index {
        name,
        table,
        item,
        unique: index.unique,
    })
}

/// Adds copies of the indexes.
fn add_indexes(alloc: Global, indexes: &[Index], copy: &mut Indexes) -> Result<(), NoMemory>
    ensures { OnOk result (copy.new ≡ copy.old ++ indexes.now) }
{
    for index in indexes {
        copy.push(copy_index(alloc, index)?)?;
    }
    Ok(())
}

/// A copy of a schema.
pub fn copy_schema(alloc: Global, schema: &Schema) -> Result<Schema, NoMemory>
    ensures { IfOk result (λ copy. copy ≡ schema.now) }
{
    let mut tables = TableSchemas::with_capacity(alloc, schema.tables.len())?;
    add_tables(alloc, schema.tables.as_slice(), &mut tables)?;
    let mut indexes = Indexes::with_capacity(alloc, schema.indexes.len())?;
    add_indexes(alloc, schema.indexes.as_slice(), &mut indexes)?;
    Ok(Schema { tables, indexes })
}
