//! The plans of UPDATE and DELETE.

ghost use Rattle.std.specs.Prelude.{◌≡◌, ℕ, [], ◌∷◌, ◌++◌, List, Ok, IfOk, OnOk};
ghost use Rattle.ql_rel.specs.ChangePlans as spec;
ghost use Rattle.ql_check_expr.specs.Gives.{Gives};
ghost use Rattle.ql_check.specs.Changes.{AreParts};
ghost use Rattle.ql_check.specs.NameSets.{HoldsNames};

use crate::create::no_parts;
use crate::from::add_slots;
use crate::insert::without_checks;
use crate::select::{resolve_if, row_scope};
use crate::tables::known_table;
use crate::targets::{for_kind, new_target};
use ql_check_expr::{CheckFault, Group, check_expr};
use ql_edge::{Boxed, Name, NoMemory, Numbers};
use ql_rel::{Assigned, AssignedList, Plan, Schema, Target};
use ql_syntax::{Assign, Assigns, ColumnDef, ColumnDefs, Expr, Scope, Slots, Typed, Typeds};
use std::alloc::Global;
use std::collections::BTreeSet;

/// What UPDATE and DELETE see.
fn table_scope<'a>(
    alloc: Global,
    name: &'a [u8],
    columns: &'a ColumnDefs,
) -> Result<Scope<'a>, NoMemory>
    ensures { IfOk result (λ scope. scope ≡ spec.table_scope name.now columns.now) }
{
    let slots = add_slots(Slots::new(alloc), name, columns)?;
    Ok(row_scope(alloc, slots))
}

/// A value that a row sees, for a column.
fn value_for(
    alloc: Global,
    scope: &Scope<'_>,
    target: Target,
    expr: &Expr,
) -> Result<Assigned, CheckFault>
    ensures { Gives (spec.value_for scope.now target expr.now) result }
{
    let checked = check_expr(alloc, expr, scope, false)?;
    let value = for_kind(alloc, target.kind, checked)?;
    Ok(Assigned {
        at: target.at,
        value,
    })
}

/// An assignment behind those of other columns.
fn assigned<'a>(
    alloc: Global,
    scope: &Scope<'_>,
    columns: &[ColumnDef],
    names: &mut BTreeSet<&'a [u8]>,
    assign: &'a Assign,
) -> Result<Assigned, CheckFault>
    ensures new { (before : List (List ℕ)) → HoldsNames names.old before
        → Gives (spec.assigned scope.now columns.now before assign.now) result }
    ensures names { (before : List (List ℕ)) → HoldsNames names.old before
        → OnOk result (HoldsNames names.new (before ++ assign.now.column ∷ [])) }
{
    let target = new_target(alloc, names, columns, &assign.column)?;
    value_for(alloc, scope, target, &assign.value)
}

/// The assignments of an UPDATE.
fn all_assigned(
    alloc: Global,
    scope: &Scope<'_>,
    columns: &[ColumnDef],
    sets: &[Assign],
) -> Result<AssignedList, CheckFault>
    ensures { Gives (spec.all_assigned scope.now columns.now [] sets.now) result }
{
    let mut names = BTreeSet::new(alloc);
    let mut list = AssignedList::new(alloc);
    'sets: for assign in sets {
        list.push(assigned(alloc, scope, columns, &mut names, assign)?)?;
    }
    Ok(list)
}

/// The columns of an UPDATE and their new values.
#[derive(Drop)]
struct Parts {
    targets: Numbers,
    fields: Typeds,
}

fn parts_of(alloc: Global, changes: AssignedList) -> Result<Parts, NoMemory>
    ensures { IfOk result (λ parts. AreParts parts changes) }
{
    let mut targets = Numbers::new(alloc);
    let mut fields = Typeds::new(alloc);
    'changes: for change in changes.into_vec() {
        let Assigned { at, value } = change;
        targets.push(at)?;
        fields.push(value)?;
    }
    Ok(Parts { targets, fields })
}

/// The parts of the plan of an UPDATE together.
fn changes_plan(
    alloc: Global,
    changes: AssignedList,
    filter: Option<Typed>,
) -> Result<Plan, CheckFault>
    ensures { Gives (Ok (spec.changes_plan changes filter)) result }
{
    let parts = parts_of(alloc, changes)?;
    Ok(Plan {
        fields: parts.fields,
        targets: parts.targets,
        filter,
        ..no_parts(alloc)
    })
}

/// The plan of an UPDATE of a table that is there.
fn changes_of(
    alloc: Global,
    scope: &Scope<'_>,
    columns: &[ColumnDef],
    sets: &Assigns,
    filter: &Option<Boxed<Expr>>,
) -> Result<Plan, CheckFault>
    ensures { Gives (spec.changes_of scope.now columns.now sets.now filter.now) result }
{
    let changes = all_assigned(alloc, scope, columns, sets.as_slice())?;
    let filter = resolve_if(alloc, Group::Truths, scope, filter)?;
    changes_plan(alloc, changes, filter)
}

/// The plan of UPDATE.
pub(crate) fn update_plan(
    alloc: Global,
    schema: &Schema,
    name: &Name,
    sets: &Assigns,
    filter: &Option<Boxed<Expr>>,
) -> Result<Plan, CheckFault>
    ensures { Gives (spec.update_plan schema.now name.now sets.now filter.now) result }
{
    let table = known_table(alloc, name.as_slice(), schema)?;
    without_checks(alloc, schema, table.columns.as_slice())?;
    let scope = table_scope(alloc, name.as_slice(), &table.columns)?;
    changes_of(alloc, &scope, table.columns.as_slice(), sets, filter)
}

/// The plan of DELETE.
pub(crate) fn delete_plan(
    alloc: Global,
    schema: &Schema,
    name: &Name,
    filter: &Option<Boxed<Expr>>,
) -> Result<Plan, CheckFault>
    ensures { Gives (spec.delete_plan schema.now name.now filter.now) result }
{
    let table = known_table(alloc, name.as_slice(), schema)?;
    let scope = table_scope(alloc, name.as_slice(), &table.columns)?;
    let filter = resolve_if(alloc, Group::Truths, &scope, filter)?;
    Ok(Plan {
        filter,
        ..no_parts(alloc)
    })
}
