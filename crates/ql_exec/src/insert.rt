//! INSERT.

ghost use Rattle.std.specs.Prelude.{◌≡◌, [], ◌∷◌, ℕ, ◌<◌, ◌==◌, ◌&&◌, IsTrue, IsOk, length, IfSome, IfOk, OnOk};
ghost use Rattle.std.specs.List.{AllByRecursion};
ghost use Rattle.ql_syntax.specs.declared.syntax.Select.{out-Select};
ghost use Rattle.ql_syntax.specs.Typing.{type_of};
ghost use Rattle.ql_value.specs.declared.value.Value.TheVariants as v;
ghost use Rattle.ql_rel.specs.Databases.{columns_at};
ghost use Rattle.ql_rel.specs.InsertEffects as effect;
ghost use Rattle.ql_rel.specs.InsertEffects.{row_added, rows_added, inserts, inserts_shown};
ghost use Rattle.ql_rel.specs.NewNames as spec;
ghost use Rattle.ql_rel.specs.PlanTypes.{types_if, AreValuesFor, ValuesTyped, RowsSelected};
ghost use Rattle.ql_rel.specs.Plans.{add_sets};
ghost use Rattle.ql_rel.specs.WellFormed.{Fits, IsWellFormed};
ghost use Rattle.ql_exec.specs.Answers.{Answers};
ghost use Rattle.ql_exec.specs.Carries.{Changes, IsCausedExec, Leaves};
ghost use Rattle.ql_exec.specs.Selections.{AreFor, counts_from};

use crate::ExecFault;
use crate::change::{assign, without_id};
use crate::fault::fault_of_rel;
use crate::gather::{ValueRows, gather_shown};
use crate::values::values_of;
use ql_edge::{Name, NoMemory};
use ql_eval::{TypedRows, Typeds};
use ql_rel::{Plan, Rel, TableSchema};
use ql_syntax::{ColumnDef, Select};
use ql_value::{Value, Values};
use std::alloc::Global;

/// A row of NULLs as expressions see it: one in place of its id, and one for each column.
fn null_row(alloc: Global, columns: &[ColumnDef]) -> Result<Values, NoMemory>
    ensures { IfOk result (λ row. row ≡ v.Null ∷ effect.nulls columns.now) }
{
    let mut row = Values::with_capacity(alloc, columns.len().saturating_add(1))?;
    row.push(Value::Null)?;
    'columns: for _column in columns {
        row.push(Value::Null)?;
    }
    Ok(row)
}

/// Whether numbers are those of so many columns, in their order.
fn are_all(numbers: &[u64], columns: usize) -> bool
    ensures { result ≡ ((length numbers.now == columns) && counts_from 0 numbers.now) }
{
    if numbers.len() != columns {
        return false;
    }
    let mut place = 0;
    'numbers: for number in numbers {
        if *number != place {
            return false;
        }
        place += 1;
    }
    true
}

/// A row is put together: each value stands in the column that it is for, and NULL in every other one. Values of all
/// columns in their order are the row.
fn place_values(
    alloc: Global,
    columns: &[ColumnDef],
    targets: &[u64],
    new: Values,
) -> Result<Values, NoMemory>
    requires { AreFor columns.now targets.now new }
    ensures { IfOk result (λ row. row ≡ effect.row_from targets.now new columns.now) }
{
    if are_all(targets, columns.len()) {
        return Ok(new);
    }
    let mut row = null_row(alloc, columns)?.into_vec();
    assign(targets, new, &mut row);
    without_id(alloc, row)
}

/// Rows of values, each put together.
fn place_rows(
    alloc: Global,
    columns: &[ColumnDef],
    targets: &[u64],
    rows: ValueRows,
) -> Result<ValueRows, NoMemory>
    requires { AllByRecursion (AreFor columns.now targets.now) rows }
    ensures { IfOk result (λ placed. placed ≡ effect.rows_from targets.now columns.now rows) }
{
    let mut placed = ValueRows::with_capacity(alloc, rows.len())?;
    'rows: for values in rows.into_vec() {
        placed.push(place_values(alloc, columns, targets, values)?)?;
    }
    Ok(placed)
}

/// A new row of a table: the values of its expressions, each in its column, and NULL in every other one.
fn new_row(
    alloc: Global,
    columns: &[ColumnDef],
    targets: &[u64],
    exprs: &Typeds,
) -> Result<Values, ExecFault>
    requires { AreValuesFor (type_of []) columns.now targets.now exprs.now }
    ensures { Answers (effect.new_row targets.now columns.now exprs.now) result }
{
    let new = values_of(alloc, exprs, &[])?;
    Ok(place_values(alloc, columns, targets, new)?)
}

/// New rows of a table, all of them.
fn new_rows(
    alloc: Global,
    columns: &[ColumnDef],
    targets: &[u64],
    rows: &TypedRows,
) -> Result<ValueRows, ExecFault>
    requires { AllByRecursion (AreValuesFor (type_of []) columns.now targets.now) rows.now }
    ensures { Answers (effect.new_rows targets.now columns.now rows.now) result }
{
    let mut values = ValueRows::with_capacity(alloc, rows.len())?;
    'rows: for row in rows.as_slice() {
        values.push(new_row(alloc, columns, targets, row)?)?;
    }
    Ok(values)
}

/// Adds a row to the table at a place.
fn add_row<R: Rel>(alloc: Global, rel: &mut R, table: u32, values: &Values) -> Result<(), ExecFault>
    requires ready { IsTrue (R.is_ready rel.old) }
    requires level { 0 < length (R.saved rel.old) }
    requires table { table < length (R.schema rel.old).tables }
    requires fits { Fits (columns_at table (R.schema rel.old)) values.now }
    ensures done { IfSome (R.db rel.old) (λ d. Changes (row_added table values.now d) result
        (R.db rel.new)) }
    ensures schema { OnOk result (R.schema rel.new ≡ R.schema rel.old) }
    ensures ready { OnOk result (R.is_ready rel.new ≡ R.is_ready rel.old) }
    ensures leaves { Leaves R.saved R.limit R.told R.left R.fixed rel.old rel.new }
    ensures cause { IsCausedExec (R.limit rel.old) (R.db rel.old) result (R.faults rel.old)
        (R.faults rel.new) }
{
    match rel.insert(table, values) {
        Ok(_) => Ok(()),
        Err(fault) => Err(fault_of_rel(alloc, fault)),
    }
}

/// Adds rows to the table at a place, one after another, up to the first refusal.
pub(crate) fn add_rows<R: Rel>(
    alloc: Global,
    rel: &mut R,
    table: u32,
    rows: &ValueRows,
) -> Result<(), ExecFault>
    requires ready { IsTrue (R.is_ready rel.old) }
    requires level { 0 < length (R.saved rel.old) }
    requires table { table < length (R.schema rel.old).tables }
    requires fits { AllByRecursion (Fits (columns_at table (R.schema rel.old))) rows.now }
    ensures done { IfSome (R.db rel.old) (λ d. Changes (rows_added table rows.now d) result
        (R.db rel.new)) }
    ensures schema { OnOk result (R.schema rel.new ≡ R.schema rel.old) }
    ensures ready { OnOk result (R.is_ready rel.new ≡ R.is_ready rel.old) }
    ensures leaves { Leaves R.saved R.limit R.told R.left R.fixed rel.old rel.new }
    ensures cause { IsCausedExec (R.limit rel.old) (R.db rel.old) result (R.faults rel.old)
        (R.faults rel.new) }
{
    'rows: for values in rows.as_slice() {
        add_row(alloc, rel, table, values)?;
    }
    Ok(())
}

/// The place of the table with a name, that behind the last one where there is none.
pub(crate) fn place_named(tables: &[TableSchema], name: &Name) -> usize
    ensures { result ≡ spec.place_named name.now tables.now }
{
    let mut place = 0;
    'tables: for table in tables {
        if table.name.as_slice() == name.as_slice() {
            return place;
        }
        place += 1;
    }
    place
}

/// The place of the table with a name, which is there.
pub(crate) fn table_named<R: Rel>(rel: &R, name: &Name) -> u32
    requires { spec.place_named name.now (R.schema rel.now).tables < length
        (R.schema rel.now).tables }
    ensures { result ≡ spec.place_named name.now (R.schema rel.now).tables }
{
    place_named(rel.schema().tables.as_slice(), name) as u32
}

/// The columns of the table at a place.
pub(crate) fn columns_of<R: Rel>(rel: &R, table: u32) -> &[ColumnDef]
    requires { table < length (R.schema rel.now).tables }
    ensures { result.now ≡ columns_at table (R.schema rel.now) }
{
    rel.schema().tables.as_slice()[table as usize]
        .columns
        .as_slice()
}

/// Carries out an INSERT of rows that has a plan: all of them are made, and then go in one after another.
pub fn insert_rows<R: Rel>(
    alloc: Global,
    rel: &mut R,
    name: &Name,
    plan: &Plan,
) -> Result<(), ExecFault>
    requires ready { IsTrue (R.is_ready rel.old) }
    requires level { 0 < length (R.saved rel.old) }
    requires table { spec.place_named name.now (R.schema rel.old).tables < length
        (R.schema rel.old).tables }
    requires typed { ValuesTyped (columns_at (spec.place_named name.now (R.schema rel.old).tables)
        (R.schema rel.old)) plan.now }
    ensures done { IfSome (R.db rel.old) (λ d. Changes (inserts name.now plan.now.targets
        plan.now.rows d) result (R.db rel.new)) }
    ensures schema { OnOk result (R.schema rel.new ≡ R.schema rel.old) }
    ensures ready { OnOk result (R.is_ready rel.new ≡ R.is_ready rel.old) }
    ensures leaves { Leaves R.saved R.limit R.told R.left R.fixed rel.old rel.new }
    ensures cause { IsCausedExec (R.limit rel.old) (R.db rel.old) result (R.faults rel.old)
        (R.faults rel.new) }
{
    let table = table_named(rel, name);
    let rows = new_rows(
        alloc,
        columns_of(rel, table),
        plan.targets.as_slice(),
        &plan.rows,
    )?;
    add_rows(alloc, rel, table, &rows)
}

/// Carries out an INSERT of the rows of a SELECT that has a plan: all of them are there, and then go in one after another.
pub fn insert_selected<R: Rel>(
    alloc: Global,
    rel: &mut R,
    name: &Name,
    select: &Select,
    plan: &Plan,
) -> Result<(), ExecFault>
    requires ready { IsTrue (R.is_ready rel.old) }
    requires level { 0 < length (R.saved rel.old) }
    requires formed { IfSome (R.db rel.old) IsWellFormed }
    requires table { spec.place_named name.now (R.schema rel.old).tables < length
        (R.schema rel.old).tables }
    requires sets { IsOk (add_sets (R.schema rel.old) [] (out-Select select.now).sets) }
    requires typed { RowsSelected (types_if (add_sets (R.schema rel.old) [] (out-Select
        select.now).sets)) (columns_at (spec.place_named name.now (R.schema rel.old).tables)
        (R.schema rel.old)) plan.now }
    ensures done { IfSome (R.db rel.old) (λ d. Changes (inserts_shown name.now select.now plan.now
        d) result (R.db rel.new)) }
    ensures schema { OnOk result (R.schema rel.new ≡ R.schema rel.old) }
    ensures ready { OnOk result (R.is_ready rel.new ≡ R.is_ready rel.old) }
    ensures leaves { Leaves R.saved R.limit R.told R.left R.fixed rel.old rel.new }
    ensures cause { IsCausedExec (R.limit rel.old) (R.db rel.old) result (R.faults rel.old)
        (R.faults rel.new) }
{
    let table = table_named(rel, name);
    let shown = gather_shown(alloc, rel, select, plan)?;
    let rows = place_rows(
        alloc,
        columns_of(rel, table),
        plan.targets.as_slice(),
        shown,
    )?;
    add_rows(alloc, rel, table, &rows)
}
