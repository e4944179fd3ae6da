//! Operators before a value.

ghost use Rattle.ql_value.specs.Arith.{IsArithmetic, on_numbers};
ghost use Rattle.ql_syntax.specs.Values as spec;
ghost use Rattle.ql_eval.specs.Gives.{Gives};

use crate::EvalFault;
use ql_value::{BinOp, Kind, UnOp, UnOps, Value, arith};
use std::alloc::Global;

/// Operators before a value. The last one comes first.
pub(crate) fn apply_prefixes(alloc: Global, ops: &UnOps, value: Value) -> Result<Value, EvalFault>
    requires { spec.IsMeant (spec.prefixed ops.now value) }
    ensures { Gives (spec.prefixed ops.now value) result }
{
    let mut value = value;
    let mut left = ops.as_slice();
    'ops: while let Some((op, front)) = left.split_last() {
        value = apply_prefix(alloc, *op, value)?;
        left = front;
    }
    Ok(value)
}

/// An operator before a value.
fn apply_prefix(alloc: Global, op: UnOp, value: Value) -> Result<Value, EvalFault>
    requires { spec.IsMeant (spec.prefix op value) }
    ensures { Gives (spec.prefix op value) result }
{
    match value {
        Value::Null => Ok(Value::Null),
        Value::Bool(truth) => Ok(Value::Bool(!truth)),
        Value::Int(kind, number) => apply_to_number(alloc, op, kind, number),
        _ => unreachable!(),
    }
}

/// An operator before a number.
fn apply_to_number(alloc: Global, op: UnOp, kind: Kind, number: i128) -> Result<Value, EvalFault>
    requires { spec.IsMeant (spec.prefix_number op kind number) }
    ensures { Gives (spec.prefix_number op kind number) result }
{
    match op {
        UnOp::Plus => Ok(Value::Int(kind, number)),
        UnOp::Minus => calculate_numbers(alloc, BinOp::Sub, kind, 0, number),
        UnOp::Flip => calculate_numbers(alloc, BinOp::Xor, kind, -1, number),
        UnOp::Not => unreachable!(),
    }
}

/// An operator of arithmetic between two numbers of a kind.
fn calculate_numbers(
    alloc: Global,
    op: BinOp,
    kind: Kind,
    left: i128,
    right: i128,
) -> Result<Value, EvalFault>
    requires { IsArithmetic op }
    ensures { Gives (spec.outcome_of (on_numbers op kind left right)) result }
{
    Ok(arith(alloc, op, &Value::Int(kind, left), &Value::Int(kind, right))?)
}
