//! UPDATE and DELETE.

ghost use Rattle.std.specs.Prelude.{◌≡◌, ℕ, ◌+◌, ◌<◌, ◌≤◌, IsTrue, IsSome, List, length, drop, All, Ok, IfSome, IfOk, OnOk};
ghost use Rattle.ql_syntax.specs.Answers.{then_with};
ghost use Rattle.ql_rel.specs.declared.db.Row.{Row};
ghost use Rattle.ql_rel.specs.ChangeEffects as spec;
ghost use Rattle.ql_rel.specs.Changes.{changed, removed};
ghost use Rattle.ql_rel.specs.Databases.{schema_of, columns_at};
ghost use Rattle.ql_rel.specs.NewNames.{place_named};
ghost use Rattle.ql_rel.specs.PlanTypes.{ChangeTyped};
ghost use Rattle.ql_rel.specs.Refusals.{change_refusal};
ghost use Rattle.ql_rel.specs.Refused.{unless};
ghost use Rattle.ql_rel.specs.Rels.{row_with};
ghost use Rattle.ql_rel.specs.Rows.{values_of};
ghost use Rattle.ql_rel.specs.WellFormed.{Fits};
ghost use Rattle.ql_exec.specs.Answers.{Answers, AreTypedAt};
ghost use Rattle.ql_exec.specs.Carries.{Changes, IsCausedExec, Leaves};
ghost use Rattle.ql_exec.specs.RowChanges.{Stands, row_changed};
ghost use Rattle.ql_exec.specs.Scans.{table_types};

use crate::ExecFault;
use crate::fault::fault_of_rel;
use crate::insert::table_named;
use crate::query::{next_row, set_row};
use crate::values::{is_meant, values_of};
use ql_edge::{Name, NoMemory};
use ql_rel::{LAST_ID, Plan, Rel, Row};
use ql_value::{Value, Values};
use std::alloc::Global;

/// Puts new values at some places of a row, whose first value is its id.
pub(crate) fn assign(targets: &[u64], new: Values, row: &mut Vec<Value>)
    requires places { All (λ at. at + 1 < length row.old.items) targets.now }
    requires each { length new ≡ length targets.now }
    ensures { drop 1 row.new.items ≡ spec.with_new targets.now new (drop 1 row.old.items) }
{
    let mut place = 0;
    'new: for value in new.into_vec() {
        row[targets[place] as usize + 1] = value;
        place += 1;
    }
}

/// The values of a row without the id before them.
pub(crate) fn without_id(alloc: Global, row: Vec<Value>) -> Result<Values, NoMemory>
    ensures { IfOk result (λ values. values ≡ drop 1 row.items) }
{
    let mut values = Values::with_capacity(alloc, row.len())?;
    let mut items = row.into_iter();
    items.next();
    'values: for value in items {
        values.push(value)?;
    }
    Ok(values)
}

/// The values of a row that UPDATE means: those of the old row, and the new ones in their places.
fn new_values(alloc: Global, plan: &Plan, row: Values) -> Result<Values, ExecFault>
    requires typed { AreTypedAt row plan.now.fields }
    requires places { All (λ at. at + 1 < length row) plan.now.targets }
    requires each { length plan.now.fields ≡ length plan.now.targets }
    ensures { Answers (then_with (values_of row plan.now.fields) (λ new.
        Ok (spec.with_new plan.now.targets new (drop 1 row)))) result }
{
    let new = values_of(alloc, &plan.fields, row.as_slice())?;
    let mut row = row.into_vec();
    assign(plan.targets.as_slice(), new, &mut row);
    Ok(without_id(alloc, row)?)
}

/// Takes a row away.
fn remove_row<R: Rel>(alloc: Global, rel: &mut R, table: u32, id: u64) -> Result<(), ExecFault>
    requires ready { IsTrue (R.is_ready rel.old) }
    requires level { 0 < length (R.saved rel.old) }
    requires table { table < length (R.schema rel.old).tables }
    requires row { IfSome (R.db rel.old) (λ d. IsSome (row_with table id d)) }
    ensures done { IfSome (R.db rel.old) (λ d. Changes (Ok (removed table id d)) result
        (R.db rel.new)) }
    ensures schema { OnOk result (R.schema rel.new ≡ R.schema rel.old) }
    ensures ready { OnOk result (R.is_ready rel.new ≡ R.is_ready rel.old) }
    ensures leaves { Leaves R.saved R.limit R.told R.left R.fixed rel.old rel.new }
    ensures cause { IsCausedExec (R.limit rel.old) (R.db rel.old) result (R.faults rel.old)
        (R.faults rel.new) }
{
    match rel.remove(table, id) {
        Ok(()) => Ok(()),
        Err(fault) => Err(fault_of_rel(alloc, fault)),
    }
}

/// Gives a row other values.
fn put_row<R: Rel>(
    alloc: Global,
    rel: &mut R,
    table: u32,
    id: u64,
    values: &Values,
) -> Result<(), ExecFault>
    requires ready { IsTrue (R.is_ready rel.old) }
    requires level { 0 < length (R.saved rel.old) }
    requires table { table < length (R.schema rel.old).tables }
    requires fits { Fits (columns_at table (R.schema rel.old)) values.now }
    requires row { IfSome (R.db rel.old) (λ d. IsSome (row_with table id d)) }
    ensures done { IfSome (R.db rel.old) (λ d. Changes (unless (change_refusal table id values.now
        (schema_of d)) (changed table id values.now d)) result (R.db rel.new)) }
    ensures schema { OnOk result (R.schema rel.new ≡ R.schema rel.old) }
    ensures ready { OnOk result (R.is_ready rel.new ≡ R.is_ready rel.old) }
    ensures leaves { Leaves R.saved R.limit R.told R.left R.fixed rel.old rel.new }
    ensures cause { IsCausedExec (R.limit rel.old) (R.db rel.old) result (R.faults rel.old)
        (R.faults rel.new) }
{
    match rel.change(table, id, values) {
        Ok(()) => Ok(()),
        Err(fault) => Err(fault_of_rel(alloc, fault)),
    }
}

/// Does to a row of a table what a plan says: if it is meant, it goes, or gets new values.
fn change_row<R: Rel>(
    alloc: Global,
    rel: &mut R,
    table: u32,
    removes: bool,
    plan: &Plan,
    row: Row,
) -> Result<(), ExecFault>
    requires ready { IsTrue (R.is_ready rel.old) }
    requires level { 0 < length (R.saved rel.old) }
    requires table { table < length (R.schema rel.old).tables }
    requires typed { ChangeTyped (table_types (columns_at table (R.schema rel.old)))
        (columns_at table (R.schema rel.old)) plan.now }
    requires small { row.id ≤ LAST_ID }
    requires fits { Fits (columns_at table (R.schema rel.old)) row.values }
    requires row { IfSome (R.db rel.old) (λ d. IsSome (row_with table row.id d)) }
    ensures done { IfSome (R.db rel.old) (λ d. ((before after : List Row) →
        Stands table row before after d → Changes (row_changed removes table plan.now row before
        after d) result (R.db rel.new))) }
    ensures schema { OnOk result (R.schema rel.new ≡ R.schema rel.old) }
    ensures ready { OnOk result (R.is_ready rel.new ≡ R.is_ready rel.old) }
    ensures leaves { Leaves R.saved R.limit R.told R.left R.fixed rel.old rel.new }
    ensures cause { IsCausedExec (R.limit rel.old) (R.db rel.old) result (R.faults rel.old)
        (R.faults rel.new) }
{
    let Row { id, values } = row;
    let row = set_row(alloc, id, values)?;
    if !is_meant(alloc, &plan.filter, row.as_slice())? {
        return Ok(());
    }
    if removes {
        return remove_row(alloc, rel, table, id);
    }
    let values = new_values(alloc, plan, row)?;
    put_row(alloc, rel, table, id, &values)
}

/// Does to the rows of the table at a place what a plan says, one after another by rising id.
fn change_rows<R: Rel>(
    alloc: Global,
    rel: &mut R,
    table: u32,
    removes: bool,
    plan: &Plan,
) -> Result<(), ExecFault>
    requires ready { IsTrue (R.is_ready rel.old) }
    requires level { 0 < length (R.saved rel.old) }
    requires table { table < length (R.schema rel.old).tables }
    requires typed { ChangeTyped (table_types (columns_at table (R.schema rel.old)))
        (columns_at table (R.schema rel.old)) plan.now }
    ensures done { IfSome (R.db rel.old) (λ d. Changes (spec.table_changed removes table plan.now d)
        result (R.db rel.new)) }
    ensures schema { OnOk result (R.schema rel.new ≡ R.schema rel.old) }
    ensures ready { OnOk result (R.is_ready rel.new ≡ R.is_ready rel.old) }
    ensures leaves { Leaves R.saved R.limit R.told R.left R.fixed rel.old rel.new }
    ensures cause { IsCausedExec (R.limit rel.old) (R.db rel.old) result (R.faults rel.old)
        (R.faults rel.new) }
{
    let mut after = 0;
    'rows: while let Some(row) = next_row(alloc, rel, table, after)? {
        after = row.id;
        change_row(alloc, rel, table, removes, plan, row)?;
    }
    Ok(())
}

/// Carries out an UPDATE or a DELETE that has a plan: rows that it means get new values, or go.
pub fn change_table<R: Rel>(
    alloc: Global,
    rel: &mut R,
    name: &Name,
    removes: bool,
    plan: &Plan,
) -> Result<(), ExecFault>
    requires ready { IsTrue (R.is_ready rel.old) }
    requires level { 0 < length (R.saved rel.old) }
    requires table { place_named name.now (R.schema rel.old).tables < length
        (R.schema rel.old).tables }
    requires typed { ChangeTyped (table_types (columns_at (place_named name.now
        (R.schema rel.old).tables) (R.schema rel.old))) (columns_at (place_named name.now
        (R.schema rel.old).tables) (R.schema rel.old)) plan.now }
    ensures done { IfSome (R.db rel.old) (λ d. Changes (spec.changes removes name.now plan.now d)
        result (R.db rel.new)) }
    ensures ready { OnOk result (R.is_ready rel.new ≡ R.is_ready rel.old) }
    ensures leaves { Leaves R.saved R.limit R.told R.left R.fixed rel.old rel.new }
    ensures cause { IsCausedExec (R.limit rel.old) (R.db rel.old) result (R.faults rel.old)
        (R.faults rel.new) }
{
    let table = table_named(rel, name);
    change_rows(alloc, rel, table, removes, plan)
}
