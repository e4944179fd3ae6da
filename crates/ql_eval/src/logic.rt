//! Truths by Kleene's tables.

ghost use Rattle.std.specs.Prelude.{◌≡◌};
ghost use Rattle.ql_syntax.specs.Values as spec;

use ql_value::{BinOp, Value};

/// Whether the left side decides alone: false of `&&`, and true of `||`.
pub(crate) fn decides(op: BinOp, left: &Value) -> bool
    ensures { result ≡ spec.decides op left.now }
{
    match (op, left) {
        (BinOp::Both, Value::Bool(truth)) => !*truth,
        (BinOp::Either, Value::Bool(truth)) => *truth,
        _ => false,
    }
}

/// True, false or NULL.
fn truth(value: &Value) -> Value
    requires { spec.IsMeant (spec.truth value.now) }
    ensures { spec.truth value.now ≡ spec.gives result }
{
    match value {
        Value::Null => Value::Null,
        Value::Bool(truth) => Value::Bool(*truth),
        _ => unreachable!(),
    }
}

/// `left && right`
pub(crate) fn both(left: &Value, right: &Value) -> Value
    requires { spec.IsMeant (spec.both left.now right.now) }
    ensures { spec.both left.now right.now ≡ spec.gives result }
{
    match (left, right) {
        (Value::Bool(false), _) => Value::Bool(false),
        (Value::Bool(true), _) => truth(right),
        (Value::Null, Value::Bool(true)) => Value::Null,
        (Value::Null, _) => truth(right),
        _ => unreachable!(),
    }
}

/// `left || right`
pub(crate) fn either(left: &Value, right: &Value) -> Value
    requires { spec.IsMeant (spec.either left.now right.now) }
    ensures { spec.either left.now right.now ≡ spec.gives result }
{
    match (left, right) {
        (Value::Bool(true), _) => Value::Bool(true),
        (Value::Bool(false), _) => truth(right),
        (Value::Null, Value::Bool(false)) => Value::Null,
        (Value::Null, _) => truth(right),
        _ => unreachable!(),
    }
}
