//! The parts of a SELECT in order.

ghost use Rattle.std.specs.Prelude.{◌≡◌, IfOk};
ghost use Rattle.ql_rel.specs.Plans as spec;
ghost use Rattle.ql_rel.specs.Targets.{kinds_of};
ghost use Rattle.ql_check_expr.specs.Gives.{Gives};
ghost use Rattle.ql_check_expr.specs.Groups.{test_of};

use crate::fields::{any_aggregate, field_slots, fields_of};
use crate::from::add_sets;
use ql_check_expr::{CheckFault, Group, among, check_expr, require_type};
use ql_edge::{Boxed, NoMemory};
use ql_rel::{Limits, Output, ResultFields, Schema, Selected, Source, Target};
use ql_syntax::{Expr, Exprs, Join, Scope, Select, Slots, Typed, Typeds};
use ql_value::{LATER, Refusal};
use std::alloc::Global;

/// A row, and no field.
pub(crate) fn row_scope<'a>(alloc: Global, slots: Slots<'a>) -> Scope<'a>
    ensures { result ≡ spec.row_scope slots.entry }
{
    Scope {
        row: slots,
        fields: Slots::new(alloc),
        hides: false,
    }
}

/// What ORDER BY sees.
fn key_scope<'a>(
    alloc: Global,
    targets: &[Target],
    hides: bool,
    scope: Scope<'a>,
    fields: &'a ResultFields,
) -> Result<Scope<'a>, NoMemory>
    ensures { IfOk result (λ keys.
        keys ≡ spec.key_scope (kinds_of targets.now) hides scope.entry fields.now) }
{
    let fields = field_slots(alloc, targets, fields.as_slice())?;
    let Scope { row, .. } = scope;
    Ok(Scope { row, fields, hides })
}

/// An expression without aggregate, whose kind is of a group.
fn resolve_among(
    alloc: Global,
    group: Group,
    scope: &Scope<'_>,
    expr: &Expr,
) -> Result<Typed, CheckFault>
    ensures { Gives (spec.resolve_among (test_of group) scope.now expr.now) result }
{
    let checked = check_expr(alloc, expr, scope, false)?;
    require_type(alloc, among(group, checked.typing))?;
    Ok(checked.tree)
}

/// The same, where it stands.
pub(crate) fn resolve_if(
    alloc: Global,
    group: Group,
    scope: &Scope<'_>,
    expr: &Option<Boxed<Expr>>,
) -> Result<Option<Typed>, CheckFault>
    ensures { Gives (spec.resolve_if (test_of group) scope.now expr.now) result }
{
    match expr {
        Some(expr) => Ok(Some(resolve_among(alloc, group, scope, expr.get())?)),
        None => Ok(None),
    }
}

/// An expression without aggregate, of any type.
fn resolve(alloc: Global, scope: &Scope<'_>, expr: &Expr) -> Result<Typed, CheckFault>
    ensures { Gives (spec.resolve scope.now expr.now) result }
{
    let checked = check_expr(alloc, expr, scope, false)?;
    Ok(checked.tree)
}

/// Expressions without aggregate, of any types.
fn resolve_each(alloc: Global, scope: &Scope<'_>, exprs: &Exprs) -> Result<Typeds, CheckFault>
    ensures { Gives (spec.resolve_each scope.now exprs.now) result }
{
    let mut trees = Typeds::new(alloc);
    'exprs: for expr in exprs.as_slice() {
        trees.push(resolve(alloc, scope, expr)?)?;
    }
    Ok(trees)
}

/// A join is not built yet.
fn without_join(alloc: Global, join: &Option<Boxed<Join>>) -> Result<(), CheckFault>
    ensures { Gives (spec.without_join join.now) result }
{
    match join {
        Some(_) => Err(CheckFault::Refused(Refusal::new(alloc, LATER))),
        None => Ok(()),
    }
}

/// FROM, join, WHERE and GROUP BY.
fn source_of<'a>(
    alloc: Global,
    schema: &'a Schema,
    select: &'a Select,
) -> Result<Source<'a>, CheckFault>
    ensures { Gives (spec.source_of schema.now select.now) result }
{
    let slots = add_sets(alloc, schema, &select.sets)?;
    without_join(alloc, &select.join)?;
    let row = row_scope(alloc, slots);
    let filter = resolve_if(alloc, Group::Truths, &row, &select.filter)?;
    let groups = resolve_each(alloc, &row, &select.groups)?;
    Ok(Source {
        row,
        filter,
        groups,
    })
}

/// ORDER BY, behind the fields.
fn keys_of<'a>(
    alloc: Global,
    targets: &[Target],
    hides: bool,
    scope: Scope<'a>,
    fields: &'a ResultFields,
    keys: &Exprs,
) -> Result<Typeds, CheckFault>
    ensures { let sees = spec.key_scope (kinds_of targets.now) hides scope.entry fields.now in
        Gives (spec.resolve_each sees keys.now) result }
{
    let scope = key_scope(alloc, targets, hides, scope, fields)?;
    resolve_each(alloc, &scope, keys)
}

/// The fields, then ORDER BY.
fn output_of(
    alloc: Global,
    targets: &[Target],
    scope: Scope<'_>,
    grouped: bool,
    select: &Select,
) -> Result<Output, CheckFault>
    ensures { Gives (spec.output_of (kinds_of targets.now) scope.entry grouped select.now) result }
{
    let fields = fields_of(alloc, &scope, &select.fields)?;
    let grouped = grouped || any_aggregate(fields.as_slice());
    let hides = select.distinct || grouped;
    let keys = keys_of(alloc, targets, hides, scope, &fields, &select.keys)?;
    Ok(Output {
        fields,
        grouped,
        keys,
    })
}

/// LIMIT, then OFFSET.
fn limits_of(alloc: Global, select: &Select) -> Result<Limits, CheckFault>
    ensures { Gives (spec.limits_of select.now) result }
{
    let scope = row_scope(alloc, Slots::new(alloc));
    let limit = resolve_if(alloc, Group::Integers, &scope, &select.limit)?;
    let offset = resolve_if(alloc, Group::Integers, &scope, &select.offset)?;
    Ok(Limits { limit, offset })
}

/// Whether GROUP BY stands.
fn has_groups(groups: &Typeds) -> bool
    ensures { result ≡ spec.is_some_list groups.now }
{
    groups.len() > 0
}

/// The parts of a SELECT in order. Its fields are for these columns, in an INSERT.
pub(crate) fn selected(
    alloc: Global,
    schema: &Schema,
    targets: &[Target],
    select: &Select,
) -> Result<Selected, CheckFault>
    ensures { Gives (spec.selected schema.now (kinds_of targets.now) select.now) result }
{
    let Source {
        row,
        filter,
        groups,
    } = source_of(alloc, schema, select)?;
    let output = output_of(alloc, targets, row, has_groups(&groups), select)?;
    let limits = limits_of(alloc, select)?;
    Ok(Selected {
        filter,
        groups,
        output,
        limits,
    })
}
