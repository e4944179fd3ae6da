//! Comparisons of two values.

ghost use Rattle.std.specs.Prelude.{◌≡◌};
ghost use Rattle.ql_syntax.specs.Values as spec;

use ql_value::{BinOp, Value, compare};
use std::cmp::Ordering;

pub(crate) fn is_null(value: &Value) -> bool
    ensures { result ≡ spec.is_null value.now }
{
    matches!(value, Value::Null)
}

/// A comparison of two values.
pub(crate) fn comparison(op: BinOp, left: &Value, right: &Value) -> Value
    ensures { result ≡ spec.comparison op left.now right.now }
{
    if is_null(left) {
        return Value::Null;
    }
    if is_null(right) {
        return Value::Null;
    }
    Value::Bool(holds(op, compare(left, right)))
}

/// Whether a comparison holds of values that stand in this order.
fn holds(op: BinOp, order: Ordering) -> bool
    ensures { result ≡ spec.holds op order }
{
    match op {
        BinOp::Eq => order.is_eq(),
        BinOp::Ne => order.is_ne(),
        BinOp::Lt => order.is_lt(),
        BinOp::Le => order.is_le(),
        BinOp::Gt => order.is_gt(),
        BinOp::Ge => order.is_ge(),
        _ => false,
    }
}
