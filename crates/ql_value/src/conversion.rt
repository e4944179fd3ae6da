//! Conversions between kinds.

ghost use Rattle.std.specs.Prelude.{◌≡◌, IfOk, OnErr};
ghost use Rattle.ql_value.specs.Number.{IsInteger};
ghost use Rattle.ql_value.specs.Convert.{IsByteList, IsConvertible, converted, fitted};

use crate::wrapping::{is_within, wrap};
use crate::{Kind, Value, ValueFault};
use ql_edge::{Bytes, NoMemory};
use std::alloc::Global;

/// The value as one of the kind: a number keeps its low bits, a string or a blob its bytes. NULL stays NULL.
pub fn convert(alloc: Global, kind: Kind, value: &Value) -> Result<Value, NoMemory>
    requires { IsConvertible kind value.now }
    ensures value { IfOk result (λ outcome. outcome ≡ converted kind value.now) }
    ensures memory { OnErr result (IsByteList value.now) }
{
    match value {
        Value::Null => Ok(Value::Null),
        Value::Bool(truth) => Ok(Value::Bool(*truth)),
        Value::Int(_, number) => Ok(Value::Int(kind, wrap(kind, *number))),
        Value::Text(bytes) | Value::Blob(bytes) => {
            let copy = Bytes::from_slice(alloc, bytes.as_slice())?;
            Ok(if kind == Kind::Text {
                Value::Text(copy)
            } else {
                Value::Blob(copy)
            })
        }
    }
}

/// The number as a value of an integer kind, and `Range` where it is none of its numbers.
pub fn fit(kind: Kind, number: i128) -> Result<Value, ValueFault>
    requires { IsInteger kind }
    ensures { result ≡ fitted kind number }
{
    if is_within(kind, number) {
        return Ok(Value::Int(kind, number));
    }
    Err(ValueFault::Range)
}
