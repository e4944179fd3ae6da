//! The plan of CREATE TABLE.

ghost use Rattle.std.specs.Prelude.{◌≡◌, ℕ, List, [], ◌∷◌, ◌++◌, OnOk};
ghost use Rattle.ql_rel.specs.CreatePlans as spec;
ghost use Rattle.ql_rel.specs.TablePlans.{create_plan};
ghost use Rattle.ql_check_expr.specs.Gives.{Gives};
ghost use Rattle.ql_check.specs.NameSets.{HoldsNames};

use crate::names::{free_column, free_table, is_table, new_name};
use ql_check_expr::CheckFault;
use ql_edge::{Name, Names0, Numbers};
use ql_rel::{Plan, Schema};
use ql_syntax::{ColumnDef, ColumnDefs, OptTypeds, TypedRows, Typeds};
use ql_value::{COUNT, LATER, Refusal};
use std::alloc::Global;
use std::collections::BTreeSet;

/// A plan without parts.
pub(crate) fn no_parts(alloc: Global) -> Plan
    ensures { result ≡ spec.no_parts }
{
    Plan {
        fields: Typeds::new(alloc),
        names: Names0::new(alloc),
        filter: None,
        join_on: None,
        groups: Typeds::new(alloc),
        grouped: false,
        keys: Typeds::new(alloc),
        limit: None,
        offset: None,
        rows: TypedRows::new(alloc),
        targets: Numbers::new(alloc),
        rules: OptTypeds::new(alloc),
        defaults: OptTypeds::new(alloc),
    }
}

/// Whether the column has neither NOT NULL nor a rule nor a default.
pub(crate) fn takes_all(column: &ColumnDef) -> bool
    ensures { result ≡ spec.takes_all column.now }
{
    !column.not_null && column.rule.is_none() && column.default.is_none()
}

/// NOT NULL, rules and defaults are not built yet.
pub(crate) fn without_conditions(alloc: Global, column: &ColumnDef) -> Result<(), CheckFault>
    ensures { Gives (spec.without_conditions column.now) result }
{
    if !takes_all(column) {
        return Err(CheckFault::Refused(Refusal::new(alloc, LATER)));
    }
    Ok(())
}

/// A new column behind those with these names, which its name is added to.
fn new_column<'a>(
    alloc: Global,
    names: &mut BTreeSet<&'a [u8]>,
    column: &'a ColumnDef,
) -> Result<(), CheckFault>
    ensures new { (before : List (List ℕ)) → HoldsNames names.old before
        → Gives (spec.new_column before column.now) result }
    ensures names { (before : List (List ℕ)) → HoldsNames names.old before
        → OnOk result (HoldsNames names.new (before ++ column.now.name ∷ [])) }
{
    new_name(alloc, column.name.as_slice())?;
    free_column(alloc, names, column.name.as_slice())?;
    without_conditions(alloc, column)
}

/// The columns of a new table.
fn new_columns(alloc: Global, columns: &[ColumnDef]) -> Result<(), CheckFault>
    ensures { Gives (spec.new_columns [] columns.now) result }
{
    let mut names = BTreeSet::new(alloc);
    'columns: for column in columns {
        new_column(alloc, &mut names, column)?;
    }
    Ok(())
}

/// The columns of a new table, of which there is one at least.
fn some_columns(alloc: Global, columns: &[ColumnDef]) -> Result<(), CheckFault>
    ensures { Gives (spec.some_columns columns.now) result }
{
    if columns.is_empty() {
        return Err(CheckFault::Refused(Refusal::new(alloc, COUNT)));
    }
    new_columns(alloc, columns)
}

/// The plan of CREATE TABLE of a table that is to be made.
fn create_table_plan(
    alloc: Global,
    schema: &Schema,
    name: &Name,
    columns: &ColumnDefs,
) -> Result<Plan, CheckFault>
    ensures { Gives (spec.create_table_plan schema.now name.now columns.now) result }
{
    new_name(alloc, name.as_slice())?;
    free_table(alloc, name.as_slice(), schema)?;
    some_columns(alloc, columns.as_slice())?;
    Ok(no_parts(alloc))
}

/// The plan of CREATE TABLE.
pub(crate) fn create_plan(
    alloc: Global,
    schema: &Schema,
    quiet: bool,
    name: &Name,
    columns: &ColumnDefs,
) -> Result<Plan, CheckFault>
    ensures { Gives (create_plan schema.now quiet name.now columns.now) result }
{
    if quiet && is_table(name.as_slice(), &schema.tables) {
        new_name(alloc, name.as_slice())?;
        return Ok(no_parts(alloc));
    }
    create_table_plan(alloc, schema, name, columns)
}
