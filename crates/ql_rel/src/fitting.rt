//! Whether values fit columns: the test of what a row that is given has to meet.
ghost use Rattle.std.specs.Prelude.{◌≡◌, true};
ghost use Rattle.ql_value.specs.declared.value.Value.TheVariants as value;
ghost use Rattle.ql_value.specs.Number.{HasKind};
ghost use Rattle.ql_rel.specs.WellFormed.{Fits};

use ql_syntax::ColumnDef;
use ql_value::{Kind, Value, fit};

/// Whether the number is one of the kind.
fn has_number(kind: Kind, own: Kind, number: i128) -> bool
    ensures only { result ≡ true → HasKind kind (value.Int own number) }
    ensures all { HasKind kind (value.Int own number) → result ≡ true }
{
    own == kind && kind.is_integer() && fit(kind, number).is_ok()
}

/// Whether the value is NULL, or one of the kind.
fn has_kind(kind: Kind, value: &Value) -> bool
    ensures only { result ≡ true → HasKind kind value.now }
    ensures all { HasKind kind value.now → result ≡ true }
{
    match value {
        Value::Null => true,
        Value::Int(own, number) => has_number(kind, *own, *number),
        Value::Bool(_) => matches!(kind, Kind::Bool),
        Value::Text(_) => matches!(kind, Kind::Text),
        Value::Blob(_) => matches!(kind, Kind::Blob),
    }
}

/// Whether there is one value for each column, and each is NULL or of its column's kind.
pub fn is_row_of(columns: &[ColumnDef], values: &[Value]) -> bool
    ensures only { result ≡ true → Fits columns.now values.now }
    ensures all { Fits columns.now values.now → result ≡ true }
{
    if columns.len() != values.len() {
        return false;
    }
    for (i, column) in columns.iter().enumerate() {
        if !has_kind(column.kind, &values[i]) {
            return false;
        }
    }
    true
}
