//! Values of places, and conversions.

ghost use Rattle.std.specs.Prelude.{◌≡◌};
ghost use Rattle.ql_syntax.specs.Values as spec;
ghost use Rattle.ql_eval.specs.Gives.{Gives};

use crate::EvalFault;
use ql_value::{Kind, Value, convert, fit};
use std::alloc::Global;

/// The value at a place of the row.
pub(crate) fn value_at(row: &[Value], at: usize) -> &Value
    requires { spec.IsMeant (spec.at_place row.now at) }
    ensures { spec.at_place row.now at ≡ spec.gives result.now }
{
    &row[at]
}

/// A value as one of a kind. Strings and blobs are moved, not copied.
pub(crate) fn convert_value(alloc: Global, kind: Kind, value: Value) -> Result<Value, EvalFault>
    requires { spec.IsMeant (spec.convert_to kind value) }
    ensures { Gives (spec.convert_to kind value) result }
{
    match value {
        Value::Text(bytes) | Value::Blob(bytes) => Ok(if kind == Kind::Text {
            Value::Text(bytes)
        } else {
            Value::Blob(bytes)
        }),
        other => Ok(convert(alloc, kind, &other)?),
    }
}

/// A number as one of an integer kind that it met.
pub(crate) fn narrow(kind: Kind, value: Value) -> Result<Value, EvalFault>
    requires { spec.IsMeant (spec.narrow_to kind value) }
    ensures { Gives (spec.narrow_to kind value) result }
{
    match value {
        Value::Null => Ok(Value::Null),
        Value::Int(_, number) => Ok(fit(kind, number)?),
        _ => unreachable!(),
    }
}
