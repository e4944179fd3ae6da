//! The plans of statements that drop, empty and alter tables.

ghost use Rattle.std.specs.Prelude.{◌≡◌};
ghost use Rattle.std.specs.List.{list_any};
ghost use Rattle.ql_rel.specs.Names as names;
ghost use Rattle.ql_rel.specs.NewNames as new;
ghost use Rattle.ql_rel.specs.TablePlans as spec;
ghost use Rattle.ql_check_expr.specs.Gives.{Gives};
ghost use Rattle.ql_check.specs.Found.{GivesTable};

use crate::create::{no_parts, without_conditions};
use crate::from::{is_metadata, table_named};
use crate::insert::without_checks;
use crate::names::{is_table, new_name};
use ql_check_expr::CheckFault;
use ql_edge::Name;
use ql_rel::{Index, Indexes, Plan, Schema, TableSchema};
use ql_syntax::ColumnDef;
use ql_value::{COUNT, EXISTS, NO_COLUMN, NO_TABLE, RESERVED, Refusal};
use std::alloc::Global;

/// The table that a statement changes.
pub(crate) fn known_table<'a>(
    alloc: Global,
    name: &[u8],
    schema: &'a Schema,
) -> Result<&'a TableSchema, CheckFault>
    ensures { GivesTable (new.known_table name.now schema.now) result }
{
    changeable(alloc, name)?;
    match table_named(name, &schema.tables) {
        Some(table) => Ok(table),
        None => Err(CheckFault::Refused(Refusal::with_name(alloc, NO_TABLE, name)?)),
    }
}

/// The name of something that is changed.
fn changeable(alloc: Global, name: &[u8]) -> Result<(), CheckFault>
    ensures { Gives (spec.changeable name.now) result }
{
    if is_metadata(name) {
        return Err(CheckFault::Refused(Refusal::with_name(alloc, RESERVED, name)?));
    }
    Ok(())
}

/// The plan of a statement on a whole table.
pub(crate) fn whole_plan(alloc: Global, schema: &Schema, name: &Name) -> Result<Plan, CheckFault>
    ensures { Gives (spec.whole_plan schema.now name.now) result }
{
    known_table(alloc, name.as_slice(), schema)?;
    Ok(no_parts(alloc))
}

/// The plan of DROP TABLE.
pub(crate) fn drop_plan(
    alloc: Global,
    schema: &Schema,
    quiet: bool,
    name: &Name,
) -> Result<Plan, CheckFault>
    ensures { Gives (spec.drop_plan schema.now quiet name.now) result }
{
    if quiet && !is_table(name.as_slice(), &schema.tables) {
        changeable(alloc, name.as_slice())?;
        return Ok(no_parts(alloc));
    }
    whole_plan(alloc, schema, name)
}

/// Whether one of the columns has the name.
fn is_column(name: &[u8], columns: &[ColumnDef]) -> bool
    ensures { result ≡ names.has_name name.now (names.column_names columns.now) }
{
    'columns: for column in columns {
        if column.name.as_slice() == name {
            return true;
        }
    }
    false
}

/// Whether an index is of the table and has the name.
fn is_index_of(table: &[u8], name: &[u8], index: &Index) -> bool
    ensures { result ≡ names.is_index_of table.now name.now index.now }
{
    index.table.as_slice() == table && index.name.as_slice() == name
}

/// Whether an index of the table has the name.
fn any_index_of(table: &[u8], name: &[u8], indexes: &Indexes) -> bool
    ensures { result ≡ list_any (names.is_index_of table.now name.now) indexes.now }
{
    indexes
        .as_slice()
        .iter()
        .any(|index| is_index_of(table, name, index))
}

/// The name of a column that is added to a table.
fn free_added(
    alloc: Global,
    table: &TableSchema,
    indexes: &Indexes,
    name: &[u8],
) -> Result<(), CheckFault>
    ensures { Gives (spec.free_added table.now indexes.now name.now) result }
{
    if is_column(name, table.columns.as_slice())
        || any_index_of(table.name.as_slice(), name, indexes)
    {
        return Err(CheckFault::Refused(Refusal::with_name(alloc, EXISTS, name)?));
    }
    Ok(())
}

/// A column that is added to a table.
fn added_column(
    alloc: Global,
    table: &TableSchema,
    indexes: &Indexes,
    column: &ColumnDef,
) -> Result<(), CheckFault>
    ensures { Gives (spec.added_column table.now indexes.now column.now) result }
{
    new_name(alloc, column.name.as_slice())?;
    free_added(alloc, table, indexes, column.name.as_slice())?;
    without_conditions(alloc, column)
}

/// The plan of ALTER TABLE ADD.
pub(crate) fn add_column_plan(
    alloc: Global,
    schema: &Schema,
    name: &Name,
    column: &ColumnDef,
) -> Result<Plan, CheckFault>
    ensures { Gives (spec.add_column_plan schema.now name.now column.now) result }
{
    let table = known_table(alloc, name.as_slice(), schema)?;
    added_column(alloc, table, &schema.indexes, column)?;
    without_checks(alloc, schema, table.columns.as_slice())?;
    Ok(no_parts(alloc))
}

/// A column that is there.
fn column_there(alloc: Global, name: &[u8], columns: &[ColumnDef]) -> Result<(), CheckFault>
    ensures { Gives (spec.column_there name.now columns.now) result }
{
    if !is_column(name, columns) {
        return Err(CheckFault::Refused(Refusal::with_name(alloc, NO_COLUMN, name)?));
    }
    Ok(())
}

/// A table keeps a column.
fn several_columns(alloc: Global, columns: &[ColumnDef]) -> Result<(), CheckFault>
    ensures { Gives (spec.several_columns columns.now) result }
{
    if columns.len() > 1 {
        return Ok(());
    }
    Err(CheckFault::Refused(Refusal::new(alloc, COUNT)))
}

/// A column that is dropped.
fn dropped_column(alloc: Global, name: &[u8], columns: &[ColumnDef]) -> Result<(), CheckFault>
    ensures { Gives (spec.dropped_column name.now columns.now) result }
{
    column_there(alloc, name, columns)?;
    several_columns(alloc, columns)
}

/// The plan of ALTER TABLE DROP COLUMN.
pub(crate) fn drop_column_plan(
    alloc: Global,
    schema: &Schema,
    name: &Name,
    column: &Name,
) -> Result<Plan, CheckFault>
    ensures { Gives (spec.drop_column_plan schema.now name.now column.now) result }
{
    let table = known_table(alloc, name.as_slice(), schema)?;
    dropped_column(alloc, column.as_slice(), table.columns.as_slice())?;
    without_checks(alloc, schema, table.columns.as_slice())?;
    Ok(no_parts(alloc))
}
