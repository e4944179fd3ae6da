//! The order of values.

ghost use Rattle.std.specs.Prelude.{◌≡◌};
ghost use Rattle.ql_value.specs.Order.{compared, rank};

use crate::Value;
use std::cmp::Ordering;

/// The order of values: NULL first, false before true, numbers by size, strings and blobs by their bytes.
/// Values of different sorts stand in the order in which `Value` names the sorts. It copies nothing.
pub fn compare(left: &Value, right: &Value) -> Ordering
    ensures { result ≡ compared left.now right.now }
{
    match (left, right) {
        (Value::Bool(a), Value::Bool(b)) => a.cmp(b),
        (Value::Int(_, a), Value::Int(_, b)) => a.cmp(b),
        (Value::Text(a), Value::Text(b)) => a.as_slice().cmp(b.as_slice()),
        (Value::Blob(a), Value::Blob(b)) => a.as_slice().cmp(b.as_slice()),
        _ => rank_of(left).cmp(&rank_of(right)),
    }
}

/// The place of the value's sort among the sorts.
fn rank_of(value: &Value) -> u8
    ensures { result ≡ rank value.now }
{
    match value {
        Value::Null => 0,
        Value::Bool(_) => 1,
        Value::Int(_, _) => 2,
        Value::Text(_) => 3,
        Value::Blob(_) => 4,
    }
}
