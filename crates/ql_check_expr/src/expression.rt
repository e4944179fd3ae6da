//! What is known of an expression in a scope, or its first refusal.

ghost use Rattle.std.specs.Prelude.{◌≡◌, Ok, map};
ghost use Rattle.ql_syntax.specs.Answers.{refused as spec_refused, then_with};
ghost use Rattle.ql_syntax.specs.Calls.{convert_to as spec_convert_to};
ghost use Rattle.ql_syntax.specs.Checked.{in_brackets as spec_in_brackets};
ghost use Rattle.ql_syntax.specs.Operands.{add_step, add_steps, apply_ops as spec_apply_ops, null_test as spec_null_test};
ghost use Rattle.ql_syntax.specs.Resolving as spec;
ghost use Rattle.ql_check_expr.specs.Forms.{IsBetween, IsChain, IsIn};
ghost use Rattle.ql_check_expr.specs.Gives.{Gives};
ghost use Rattle.ql_check_expr.specs.Names.{bytes_of};

use crate::CheckFault;
use crate::call::{convert_to, group_call, row_call};
use crate::chain::operation;
use crate::checked::{in_brackets, literal_of, of_type};
use crate::predicate::{between, in_list, null_test};
use crate::prefix::apply_ops;
use crate::scope::{column_of, id_of_all, id_of_set};
use ql_edge::{Boxed, Bytes, Name};
use ql_syntax::{
    Checked, CheckedList, Expr, Exprs, Function, Link, Links, Literal, Scope, Typed, Typing,
};
use ql_value::{COUNT, Kind, LATER, Refusal, TYPE, UnOp, Value};
use std::alloc::Global;

/// The bytes of a name, if there is one.
fn name_bytes(name: &Option<Boxed<Name>>) -> Option<&[u8]>
    ensures { bytes_of result ≡ name.now }
{
    match name {
        Some(name) => Some(name.get().as_slice()),
        None => None,
    }
}

/// A string.
#[inline(never)]
fn text(alloc: Global, bytes: &Bytes) -> Result<Checked, CheckFault>
    ensures { Gives (Ok (spec.text_of bytes.now)) result }
{
    let copy = Bytes::from_slice(alloc, bytes.as_slice())?;
    Ok(of_type(
        Typing::OfKind(Kind::Text),
        Typed::Constant(Value::Text(copy)),
    ))
}

/// The name without a table that an expression is.
fn bare_name(expr: &Expr) -> Option<&[u8]>
    ensures { (scope : Scope) → bytes_of result ≡ spec.bare_name (spec.judge scope expr.now).ref }
{
    match expr {
        Expr::Column { table, column } => match table {
            Some(_) => None,
            None => Some(column.get().as_slice()),
        },
        Expr::Chain { .. }
        | Expr::Unary { .. }
        | Expr::Number(_)
        | Expr::Text(_)
        | Expr::Truth(_)
        | Expr::Null
        | Expr::Paren(_)
        | Expr::Call { .. }
        | Expr::Convert { .. }
        | Expr::IsIn { .. }
        | Expr::IsInSelect { .. }
        | Expr::IsBetween { .. }
        | Expr::IsNull { .. } => None,
    }
}

fn is_id(function: Function) -> bool
    ensures { result ≡ spec.is_id function }
{
    match function {
        Function::Id => true,
        _ => false,
    }
}

/// What is known of an expression in a scope, or its first refusal. An aggregate may stand in it only where
/// `aggregates` says so.
#[cycle(check)]
pub fn check_expr(
    alloc: Global,
    expr: &Expr,
    scope: &Scope<'_>,
    aggregates: bool,
) -> Result<Checked, CheckFault>
    ensures { Gives (spec.check_expr scope.now aggregates expr.now) result }
{
    match expr {
        Expr::Chain { .. } => check_chain(alloc, expr, scope, aggregates),
        Expr::Unary { ops, part } => {
            check_unary(alloc, part.get(), scope, aggregates, ops.get().as_slice())
        }
        Expr::Number(size) => literal_of(
            alloc,
            Literal {
                minus: false,
                size: *size,
            },
        ),
        Expr::Text(bytes) => text(alloc, bytes),
        Expr::Truth(truth) => Ok(of_type(
            Typing::OfKind(Kind::Bool),
            Typed::Constant(Value::Bool(*truth)),
        )),
        Expr::Null => Ok(of_type(Typing::OnlyNull, Typed::Constant(Value::Null))),
        Expr::Column { table, column } => {
            column_of(alloc, scope, name_bytes(table), column.get().as_slice())
        }
        Expr::Paren(part) => check_paren(alloc, part.get(), scope, aggregates),
        Expr::Call {
            function,
            parts,
            ..
        } => call(alloc, parts, scope, aggregates, *function),
        Expr::Convert { kind, part } => {
            check_convert(alloc, part.get(), scope, aggregates, *kind)
        }
        Expr::IsIn { .. } => check_in(alloc, expr, scope, aggregates),
        Expr::IsInSelect { part, .. } => check_in_select(alloc, part.get(), scope, aggregates),
        Expr::IsBetween { .. } => check_between(alloc, expr, scope, aggregates),
        Expr::IsNull { not, part } => {
            check_null_test(alloc, part.get(), scope, aggregates, *not)
        }
    }
}

/// A chain.
#[cycle(check)]
#[inline(never)]
fn check_chain(
    alloc: Global,
    expr: &Expr,
    scope: &Scope<'_>,
    aggregates: bool,
) -> Result<Checked, CheckFault>
    requires { IsChain expr.now }
    ensures { Gives (spec.check_expr scope.now aggregates expr.now) result }
{
    match expr {
        Expr::Chain { first, rest } => {
            let first = check_expr(alloc, first.get(), scope, aggregates)?;
            check_links(alloc, rest.get(), scope, aggregates, first)
        }
        _ => unreachable!(),
    }
}

/// `part IN (..)`
#[cycle(check)]
#[inline(never)]
fn check_in(
    alloc: Global,
    expr: &Expr,
    scope: &Scope<'_>,
    aggregates: bool,
) -> Result<Checked, CheckFault>
    requires { IsIn expr.now }
    ensures { Gives (spec.check_expr scope.now aggregates expr.now) result }
{
    match expr {
        Expr::IsIn { not, part, list } => {
            let part = check_expr(alloc, part.get(), scope, aggregates)?;
            let list = check_exprs(alloc, list.get(), scope, aggregates)?;
            in_list(alloc, *not, part, list)
        }
        _ => unreachable!(),
    }
}

/// `part BETWEEN low AND high`
#[cycle(check)]
#[inline(never)]
fn check_between(
    alloc: Global,
    expr: &Expr,
    scope: &Scope<'_>,
    aggregates: bool,
) -> Result<Checked, CheckFault>
    requires { IsBetween expr.now }
    ensures { Gives (spec.check_expr scope.now aggregates expr.now) result }
{
    match expr {
        Expr::IsBetween {
            not,
            part,
            low,
            high,
        } => {
            let part = check_expr(alloc, part.get(), scope, aggregates)?;
            let low = check_expr(alloc, low.get(), scope, aggregates)?;
            let high = check_expr(alloc, high.get(), scope, aggregates)?;
            between(alloc, *not, part, low, high)
        }
        _ => unreachable!(),
    }
}

/// Operators before a part.
#[cycle(check)]
#[inline(never)]
fn check_unary(
    alloc: Global,
    part: &Expr,
    scope: &Scope<'_>,
    aggregates: bool,
    ops: &[UnOp],
) -> Result<Checked, CheckFault>
    ensures { Gives (then_with (spec.check_expr scope.now aggregates part.now)
        (spec_apply_ops ops.now)) result }
{
    let part = check_expr(alloc, part, scope, aggregates)?;
    apply_ops(alloc, ops, part)
}

/// A part in brackets.
#[cycle(check)]
#[inline(never)]
fn check_paren(
    alloc: Global,
    part: &Expr,
    scope: &Scope<'_>,
    aggregates: bool,
) -> Result<Checked, CheckFault>
    ensures { Gives (then_with (spec.check_expr scope.now aggregates part.now)
        (λ c. Ok (spec_in_brackets c))) result }
{
    let part = check_expr(alloc, part, scope, aggregates)?;
    Ok(in_brackets(part))
}

/// A conversion.
#[cycle(check)]
#[inline(never)]
fn check_convert(
    alloc: Global,
    part: &Expr,
    scope: &Scope<'_>,
    aggregates: bool,
    kind: Kind,
) -> Result<Checked, CheckFault>
    ensures { Gives (then_with (spec.check_expr scope.now aggregates part.now)
        (spec_convert_to kind)) result }
{
    let part = check_expr(alloc, part, scope, aggregates)?;
    convert_to(alloc, kind, part)
}

/// `part IN (SELECT ..)`, which is not built yet.
#[cycle(check)]
#[inline(never)]
fn check_in_select(
    alloc: Global,
    part: &Expr,
    scope: &Scope<'_>,
    aggregates: bool,
) -> Result<Checked, CheckFault>
    ensures { Gives (then_with (spec.check_expr scope.now aggregates part.now)
        (λ c. spec_refused LATER)) result }
{
    check_expr(alloc, part, scope, aggregates)?;
    Err(CheckFault::Refused(Refusal::new(alloc, LATER)))
}

/// `part IS NULL`
#[cycle(check)]
#[inline(never)]
fn check_null_test(
    alloc: Global,
    part: &Expr,
    scope: &Scope<'_>,
    aggregates: bool,
    negated: bool,
) -> Result<Checked, CheckFault>
    ensures { Gives (then_with (spec.check_expr scope.now aggregates part.now)
        (λ c. Ok (spec_null_test negated c))) result }
{
    let part = check_expr(alloc, part, scope, aggregates)?;
    null_test(alloc, negated, part)
}

/// The links of a chain behind its first part.
#[cycle(check)]
#[inline(never)]
fn check_links(
    alloc: Global,
    links: &Links,
    scope: &Scope<'_>,
    aggregates: bool,
    first: Checked,
) -> Result<Checked, CheckFault>
    ensures { let steps = spec.steps aggregates (map (spec.judge_link scope.now) links.now) in
        Gives (add_steps first steps) result }
{
    let mut before = first;
    'links: for link in links.as_slice() {
        before = check_link(alloc, link, scope, aggregates, before)?;
    }
    Ok(before)
}

/// A link behind all that stands before it in a chain.
#[cycle(check)]
fn check_link(
    alloc: Global,
    link: &Link,
    scope: &Scope<'_>,
    aggregates: bool,
    before: Checked,
) -> Result<Checked, CheckFault>
    ensures { Gives (add_step before (spec.step_of aggregates (spec.judge_link scope.now link.now)))
        result }
{
    let part = check_expr(alloc, &link.part, scope, aggregates)?;
    operation(alloc, link.op, before, part)
}

/// Expressions from left to right.
#[cycle(check)]
#[inline(never)]
fn check_exprs(
    alloc: Global,
    exprs: &Exprs,
    scope: &Scope<'_>,
    aggregates: bool,
) -> Result<CheckedList, CheckFault>
    ensures { Gives (spec.answers aggregates (map (spec.judge scope.now) exprs.now)) result }
{
    let mut list = CheckedList::new(alloc);
    'exprs: for expr in exprs.as_slice() {
        list.push(check_expr(alloc, expr, scope, aggregates)?)?;
    }
    Ok(list)
}

/// The call of a function.
#[cycle(check)]
#[inline(never)]
fn call(
    alloc: Global,
    parts: &Exprs,
    scope: &Scope<'_>,
    aggregates: bool,
    function: Function,
) -> Result<Checked, CheckFault>
    ensures { Gives (spec.call scope.now aggregates function (map (spec.judge scope.now) parts.now))
        result }
{
    if is_id(function) {
        return id_call(alloc, parts, scope, aggregates);
    }
    if function.is_aggregate() {
        let parts = check_exprs(alloc, parts, scope, false)?;
        return group_call(alloc, aggregates, function, parts);
    }
    let parts = check_exprs(alloc, parts, scope, aggregates)?;
    row_call(alloc, function, parts)
}

/// `id()` and `id(T)`.
#[cycle(check)]
#[inline(never)]
fn id_call(
    alloc: Global,
    parts: &Exprs,
    scope: &Scope<'_>,
    aggregates: bool,
) -> Result<Checked, CheckFault>
    ensures { Gives (spec.id_call scope.now aggregates (map (spec.judge scope.now) parts.now))
        result }
{
    if parts.len() == 0 {
        return id_of_all(alloc, scope);
    }
    if parts.len() == 1 {
        return id_of_part(alloc, &parts.as_slice()[0], scope, aggregates);
    }
    check_exprs(alloc, parts, scope, aggregates)?;
    Err(CheckFault::Refused(Refusal::new(alloc, COUNT)))
}

/// `id` of a part.
#[cycle(check)]
fn id_of_part(
    alloc: Global,
    part: &Expr,
    scope: &Scope<'_>,
    aggregates: bool,
) -> Result<Checked, CheckFault>
    ensures { let name = spec.bare_name (spec.judge scope.now part.now).ref in
        Gives (spec.id_of_part scope.now name (spec.check_expr scope.now aggregates part.now)) result }
{
    match bare_name(part) {
        Some(name) => id_of_set(alloc, scope, name),
        None => {
            check_expr(alloc, part, scope, aggregates)?;
            Err(CheckFault::Refused(Refusal::new(alloc, TYPE)))
        }
    }
}
