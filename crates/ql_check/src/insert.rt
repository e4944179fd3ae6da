//! The plan of INSERT.

ghost use Rattle.std.specs.Prelude.{◌≡◌, [], false, map, IfOk};
ghost use Rattle.std.specs.List.{list_all, list_any};
ghost use Rattle.ql_syntax.specs.Answers.{all_of};
ghost use Rattle.ql_rel.specs.CreatePlans as create;
ghost use Rattle.ql_rel.specs.InsertPlans as spec;
ghost use Rattle.ql_rel.specs.Plans.{row_scope};
ghost use Rattle.ql_syntax.specs.Resolving.{check_expr};
ghost use Rattle.ql_check_expr.specs.Gives.{Gives};
ghost use Rattle.ql_check.specs.Inserts.{rows_plan, with_values, table_plan};

use crate::create::{no_parts, takes_all};
use crate::plan::{Columns, bare_plan, columns_of};
use crate::select::{row_scope, selected};
use crate::tables::known_table;
use crate::targets::{Targets, counted_for, numbers_of, targets_of};
use ql_check_expr::{CheckFault, check_expr};
use ql_edge::{Name, Names};
use ql_rel::{Index, Indexes, Output, Plan, Schema, Selected, Target};
use ql_syntax::{
    CheckedList, ColumnDef, ExprRows, Exprs, RowSource, Scope, Select, Slots, TypedRows, Typeds,
};
use ql_value::{LATER, Refusal};
use std::alloc::Global;

/// Expressions without aggregate.
fn check_each(alloc: Global, scope: &Scope<'_>, exprs: &Exprs) -> Result<CheckedList, CheckFault>
    ensures { Gives (all_of (map (check_expr scope.now false) exprs.now)) result }
{
    let mut parts = CheckedList::with_capacity(alloc, exprs.len())?;
    'exprs: for expr in exprs.as_slice() {
        parts.push(check_expr(alloc, expr, scope, false)?)?;
    }
    Ok(parts)
}

/// A row of VALUES.
fn value_row(
    alloc: Global,
    scope: &Scope<'_>,
    targets: &[Target],
    exprs: &Exprs,
) -> Result<Typeds, CheckFault>
    requires { scope.now ≡ row_scope [] }
    ensures { Gives (spec.value_row targets.now exprs.now) result }
{
    let parts = check_each(alloc, scope, exprs)?;
    counted_for(alloc, targets, parts)
}

/// The rows of VALUES.
fn value_rows(alloc: Global, targets: &[Target], rows: &ExprRows) -> Result<TypedRows, CheckFault>
    ensures { Gives (all_of (map (spec.value_row targets.now) rows.now)) result }
{
    let scope = row_scope(alloc, Slots::new(alloc));
    let mut list = TypedRows::with_capacity(alloc, rows.len())?;
    'rows: for exprs in rows.as_slice() {
        list.push(value_row(alloc, &scope, targets, exprs)?)?;
    }
    Ok(list)
}

/// The plan of an INSERT of rows.
fn rows_plan(alloc: Global, targets: &[Target], rows: &ExprRows) -> Result<Plan, CheckFault>
    ensures { Gives (rows_plan targets.now rows.now) result }
{
    let rows = value_rows(alloc, targets, rows)?;
    let targets = numbers_of(alloc, targets)?;
    Ok(Plan {
        rows,
        targets,
        ..no_parts(alloc)
    })
}

/// The values of an INSERT added to the other parts of its plan.
fn add_values(
    alloc: Global,
    targets: &[Target],
    parts: CheckedList,
    rest: Plan,
) -> Result<Plan, CheckFault>
    ensures { Gives (with_values targets.now parts rest) result }
{
    let fields = counted_for(alloc, targets, parts)?;
    let targets = numbers_of(alloc, targets)?;
    Ok(Plan {
        fields,
        targets,
        ..rest
    })
}

/// The parts of a SELECT as the plan of an INSERT.
fn inserted_plan(alloc: Global, targets: &[Target], x: Selected) -> Result<Plan, CheckFault>
    ensures { Gives (spec.inserted_plan targets.now x) result }
{
    let Selected {
        filter,
        groups,
        output,
        limits,
    } = x;
    let Output {
        fields,
        grouped,
        keys,
    } = output;
    let rest = bare_plan(alloc, filter, groups, grouped, keys, limits);
    let Columns { parts, names } = columns_of(alloc, fields)?;
    add_values(alloc, targets, parts, Plan { names, ..rest })
}

/// The plan of an INSERT of the rows of a SELECT.
fn inserted_select(
    alloc: Global,
    schema: &Schema,
    targets: &[Target],
    select: &Select,
) -> Result<Plan, CheckFault>
    ensures { Gives (spec.inserted_select schema.now targets.now select.now) result }
{
    let parts = selected(alloc, schema, targets, select)?;
    inserted_plan(alloc, targets, parts)
}

/// The plan of an INSERT into columns.
fn source_plan(
    alloc: Global,
    schema: &Schema,
    targets: &[Target],
    source: &RowSource,
) -> Result<Plan, CheckFault>
    ensures { Gives (spec.source_plan schema.now targets.now source.now) result }
{
    match source {
        RowSource::Rows(rows) => rows_plan(alloc, targets, rows),
        RowSource::Query(select) => inserted_select(alloc, schema, targets, select.get()),
    }
}

/// Whether one of the indexes is unique.
fn any_unique(indexes: &Indexes) -> bool
    ensures { result ≡ list_any (λ (i : Index). i.unique) indexes.now }
{
    indexes.as_slice().iter().any(|index| index.unique)
}

/// Whether the columns take every value of their kinds.
fn all_take_all(columns: &[ColumnDef]) -> bool
    ensures { result ≡ list_all create.takes_all columns.now }
{
    columns.iter().all(takes_all)
}

/// Whether no two rows have to differ, and the columns take every value of their kinds.
fn takes_rows(schema: &Schema, columns: &[ColumnDef]) -> bool
    ensures { result ≡ spec.takes_rows schema.now columns.now }
{
    !any_unique(&schema.indexes) && all_take_all(columns)
}

/// Conditions on rows are not built yet.
pub(crate) fn without_checks(
    alloc: Global,
    schema: &Schema,
    columns: &[ColumnDef],
) -> Result<(), CheckFault>
    ensures { Gives (spec.without_checks schema.now columns.now) result }
{
    if !takes_rows(schema, columns) {
        return Err(CheckFault::Refused(Refusal::new(alloc, LATER)));
    }
    Ok(())
}

/// The plan of an INSERT into a table with these columns.
fn table_plan(
    alloc: Global,
    schema: &Schema,
    columns: &[ColumnDef],
    names: &Names,
    source: &RowSource,
) -> Result<Plan, CheckFault>
    ensures { Gives (table_plan schema.now columns.now names.now source.now) result }
{
    let targets = targets_of(alloc, columns, names)?;
    without_checks(alloc, schema, columns)?;
    source_plan(alloc, schema, targets.as_slice(), source)
}

/// The plan of INSERT.
pub(crate) fn insert_plan(
    alloc: Global,
    schema: &Schema,
    name: &Name,
    names: &Names,
    source: &RowSource,
) -> Result<Plan, CheckFault>
    ensures { Gives (spec.insert_plan schema.now name.now names.now source.now) result }
{
    let table = known_table(alloc, name.as_slice(), schema)?;
    table_plan(alloc, schema, table.columns.as_slice(), names, source)
}
