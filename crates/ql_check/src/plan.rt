//! The parts of a SELECT together.

ghost use Rattle.std.specs.Prelude.{◌≡◌, Ok, IfOk};
ghost use Rattle.ql_rel.specs.Plans as spec;
ghost use Rattle.ql_check_expr.specs.Gives.{Gives};
ghost use Rattle.ql_check.specs.Outputs.{AreColumns, trees, bare};

use crate::create::no_parts;
use crate::select::selected;
use ql_check_expr::CheckFault;
use ql_edge::{Names0, NoMemory};
use ql_rel::{Limits, Output, Plan, ResultField, ResultFields, Schema, Selected};
use ql_syntax::{CheckedList, Select, Typed, Typeds};
use std::alloc::Global;

/// The expressions and the names of what a SELECT shows.
#[derive(Drop)]
pub(crate) struct Columns {
    pub(crate) parts: CheckedList,
    pub(crate) names: Names0,
}

pub(crate) fn columns_of(alloc: Global, results: ResultFields) -> Result<Columns, NoMemory>
    ensures { IfOk result (λ columns. AreColumns columns results) }
{
    let mut parts = CheckedList::new(alloc);
    let mut names = Names0::new(alloc);
    'results: for field in results.into_vec() {
        let ResultField { name, expr } = field;
        parts.push(expr)?;
        names.push(name)?;
    }
    Ok(Columns { parts, names })
}

/// Expressions without what is known of them.
fn trees_of(alloc: Global, parts: CheckedList) -> Result<Typeds, NoMemory>
    ensures { IfOk result (λ list. list ≡ trees parts) }
{
    let mut list = Typeds::with_capacity(alloc, parts.len())?;
    'parts: for part in parts.into_vec() {
        list.push(part.tree)?;
    }
    Ok(list)
}

/// What the plan of a SELECT has beside its fields.
pub(crate) fn bare_plan(
    alloc: Global,
    filter: Option<Typed>,
    groups: Typeds,
    grouped: bool,
    keys: Typeds,
    limits: Limits,
) -> Plan
    ensures { result ≡ bare filter groups grouped keys limits }
{
    Plan {
        filter,
        groups,
        grouped,
        keys,
        limit: limits.limit,
        offset: limits.offset,
        ..no_parts(alloc)
    }
}

/// The parts of a SELECT as a plan.
fn whole_plan_of(alloc: Global, x: Selected) -> Result<Plan, CheckFault>
    ensures { Gives (Ok (spec.whole_plan_of x)) result }
{
    let Selected {
        filter,
        groups,
        output,
        limits,
    } = x;
    let Output {
        fields,
        grouped,
        keys,
    } = output;
    let rest = bare_plan(alloc, filter, groups, grouped, keys, limits);
    let Columns { parts, names } = columns_of(alloc, fields)?;
    let fields = trees_of(alloc, parts)?;
    Ok(Plan {
        fields,
        names,
        ..rest
    })
}

/// The plan of a SELECT by itself.
pub(crate) fn select_plan(
    alloc: Global,
    schema: &Schema,
    select: &Select,
) -> Result<Plan, CheckFault>
    ensures { Gives (spec.select_plan schema.now select.now) result }
{
    let parts = selected(alloc, schema, &[], select)?;
    whole_plan_of(alloc, parts)
}
