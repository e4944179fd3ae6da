//! The value of an expression.

ghost use Rattle.std.specs.Prelude.{List, IfOk};
ghost use Rattle.ql_syntax.specs.declared.typing.Typing.{Typing};
ghost use Rattle.ql_syntax.specs.Typing.{FitsRow, HasType, IsTyped, WellTyped, type_of};
ghost use Rattle.ql_syntax.specs.Values as spec;
ghost use Rattle.ql_eval.specs.Gives.{Gives};
ghost use Rattle.ql_eval.specs.Operand.{GivesOperand, value_of};
ghost use Rattle.ql_eval.specs.Question.{test_of};

use crate::EvalFault;
use crate::compare::{comparison, is_null};
use crate::convert::{convert_value, narrow, value_at};
use crate::function::{Question, answer, length_of};
use crate::logic::{decides, either};
use crate::operand::Operand;
use crate::operate::operate;
use crate::prefix::apply_prefixes;
use ql_syntax::{Function, Typed, TypedLink, TypedLinks, Typeds};
use ql_value::{BinOp, Value};
use std::alloc::Global;

/// The value of an expression at a row, or the first refusal in the order of evaluation. Some
/// types that fit the values of the row must give the expression a type; its value is then one of
/// that type. Only strings and blobs take memory.
pub fn eval(alloc: Global, expr: &Typed, row: &[Value]) -> Result<Value, EvalFault>
    requires { WellTyped row.now expr.now }
    ensures value { Gives (spec.value_at row.now expr.now) result }
    ensures kind { (types : List Typing) → FitsRow types row.now → IsTyped (type_of types expr.now)
        → IfOk result (HasType (type_of types expr.now)) }
{
    evaluate_owned(alloc, expr, row)
}

/// The value of an expression at a row, and a copy of it where it stands elsewhere.
fn evaluate_owned(alloc: Global, expr: &Typed, row: &[Value]) -> Result<Value, EvalFault>
    requires { spec.IsMeant (spec.value_at row.now expr.now) }
    ensures { Gives (spec.value_at row.now expr.now) result }
{
    Ok(evaluate(alloc, expr, row)?.into_value(alloc)?)
}

/// What an expression comes to at a row.
#[cycle(eval)]
fn evaluate<'a>(alloc: Global, expr: &'a Typed, row: &'a [Value]) -> Result<Operand<'a>, EvalFault>
    requires { spec.IsMeant (spec.value_at row.now expr.now) }
    ensures { GivesOperand (spec.value_at row.now expr.now) result }
{
    match expr {
        Typed::Constant(value) => Ok(Operand::Borrowed(value)),
        Typed::Place { at } => Ok(Operand::Borrowed(value_at(row, *at))),
        Typed::Chain { first, rest } => {
            let first = evaluate(alloc, first.get(), row)?;
            evaluate_chain(alloc, rest, row, first)
        }
        Typed::Unary { ops, part } => {
            let value = evaluate(alloc, part.get(), row)?.into_value(alloc)?;
            Ok(Operand::Owned(apply_prefixes(alloc, ops, value)?))
        }
        Typed::Convert { kind, part } => {
            let value = evaluate(alloc, part.get(), row)?.into_value(alloc)?;
            Ok(Operand::Owned(convert_value(alloc, *kind, value)?))
        }
        Typed::Narrow { kind, part } => {
            let value = evaluate(alloc, part.get(), row)?.into_value(alloc)?;
            Ok(Operand::Owned(narrow(*kind, value)?))
        }
        Typed::Call { function, parts } => call(alloc, *function, parts, row),
        Typed::Aggregate { .. } => unreachable!(),
        Typed::IsIn { part, list } => {
            let value = evaluate(alloc, part.get(), row)?;
            Ok(Operand::Owned(is_in(alloc, list, row, value.value())?))
        }
        Typed::IsNull { part } => {
            let value = evaluate(alloc, part.get(), row)?;
            Ok(Operand::Owned(Value::Bool(is_null(value.value()))))
        }
    }
}

/// The links of a chain behind a value.
#[cycle(eval)]
fn evaluate_chain<'a>(
    alloc: Global,
    links: &'a TypedLinks,
    row: &'a [Value],
    first: Operand<'a>,
) -> Result<Operand<'a>, EvalFault>
    requires { spec.IsMeant (spec.chained (value_of first) (spec.steps_at row.now links.now)) }
    ensures { let steps = spec.steps_at row.now links.now in
        GivesOperand (spec.chained (value_of first.entry) steps) result }
{
    let mut left = first;
    'links: for link in links.as_slice() {
        left = evaluate_link(alloc, link, row, left)?;
    }
    Ok(left)
}

/// A link behind the value of its left side.
#[cycle(eval)]
fn evaluate_link<'a>(
    alloc: Global,
    link: &'a TypedLink,
    row: &'a [Value],
    left: Operand<'a>,
) -> Result<Operand<'a>, EvalFault>
    requires { let step = spec.step_at row.now link.now in
        spec.IsMeant (spec.linked step.op (value_of left) step.part) }
    ensures { let step = spec.step_at row.now link.now in
        GivesOperand (spec.linked step.op (value_of left.entry) step.part) result }
{
    if decides(link.op, left.value()) {
        return Ok(left);
    }
    let right = evaluate(alloc, &link.part, row)?;
    Ok(Operand::Owned(operate(alloc, link.op, left, right.value())?))
}

/// Whether a value is equal to one of several parts.
#[cycle(eval)]
fn is_in(alloc: Global, list: &Typeds, row: &[Value], value: &Value) -> Result<Value, EvalFault>
    requires { spec.IsMeant (spec.is_in value.now (spec.values_at row.now list.now)) }
    ensures { Gives (spec.is_in value.now (spec.values_at row.now list.now)) result }
{
    let mut found = Value::Bool(false);
    'list: for part in list.as_slice() {
        found = or_equal(alloc, part, row, value, found)?;
    }
    Ok(found)
}

/// `found || (value == part)`
#[cycle(eval)]
fn or_equal(
    alloc: Global,
    part: &Typed,
    row: &[Value],
    value: &Value,
    found: Value,
) -> Result<Value, EvalFault>
    requires { let same = spec.equals value.now (spec.value_at row.now part.now) in
        spec.IsMeant (spec.linked BinOp.Either found same) }
    ensures { let same = spec.equals value.now (spec.value_at row.now part.now) in
        Gives (spec.linked BinOp.Either found same) result }
{
    if decides(BinOp::Either, &found) {
        return Ok(found);
    }
    let other = evaluate(alloc, part, row)?;
    let same = comparison(BinOp::Eq, value, other.value());
    Ok(either(&found, &same))
}

/// The call of a function.
#[cycle(eval)]
fn call<'a>(
    alloc: Global,
    function: Function,
    parts: &'a Typeds,
    row: &'a [Value],
) -> Result<Operand<'a>, EvalFault>
    requires { spec.IsMeant (spec.called function (spec.values_at row.now parts.now)) }
    ensures { GivesOperand (spec.called function (spec.values_at row.now parts.now)) result }
{
    match function {
        Function::Len => Ok(Operand::Owned(measure(alloc, parts, row)?)),
        Function::Contains => Ok(Operand::Owned(ask(alloc, Question::Contains, parts, row)?)),
        Function::HasPrefix => Ok(Operand::Owned(ask(alloc, Question::HasPrefix, parts, row)?)),
        Function::HasSuffix => Ok(Operand::Owned(ask(alloc, Question::HasSuffix, parts, row)?)),
        Function::Coalesce => coalesce(alloc, parts, row),
        _ => unreachable!(),
    }
}

/// The length of a part.
#[cycle(eval)]
fn measure(alloc: Global, parts: &Typeds, row: &[Value]) -> Result<Value, EvalFault>
    requires { spec.IsMeant (spec.measured (spec.values_at row.now parts.now)) }
    ensures { Gives (spec.measured (spec.values_at row.now parts.now)) result }
{
    let part = evaluate(alloc, &parts.as_slice()[0], row)?;
    length_of(alloc, part.value())
}

/// A question to two parts.
#[cycle(eval)]
fn ask(alloc: Global, question: Question, parts: &Typeds, row: &[Value]) -> Result<Value, EvalFault>
    requires { spec.IsMeant (spec.asked_of (test_of question) (spec.values_at row.now parts.now)) }
    ensures { Gives (spec.asked_of (test_of question) (spec.values_at row.now parts.now)) result }
{
    let left = evaluate(alloc, &parts.as_slice()[0], row)?;
    let right = evaluate(alloc, &parts.as_slice()[1], row)?;
    Ok(answer(question, left.value(), right.value()))
}

/// The first value that is not NULL.
#[cycle(eval)]
fn coalesce<'a>(
    alloc: Global,
    parts: &'a Typeds,
    row: &'a [Value],
) -> Result<Operand<'a>, EvalFault>
    requires { spec.IsMeant (spec.coalesced (spec.values_at row.now parts.now)) }
    ensures { GivesOperand (spec.coalesced (spec.values_at row.now parts.now)) result }
{
    'parts: for part in parts.as_slice() {
        let value = evaluate(alloc, part, row)?;
        if !is_null(value.value()) {
            return Ok(value);
        }
    }
    Ok(Operand::Owned(Value::Null))
}
