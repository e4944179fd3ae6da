//! How many bytes rows and keys take.

ghost use Rattle.std.specs.Prelude.{◌≡◌, ◌^◌, ◌+◌, ◌-◌, min, sum_by, count_by, ◌==◌};
ghost use Rattle.ql_value.specs.Length.{value_length, length_of_key, length_of_row};

use crate::{Value, Values};

/// How many bytes the row has when it is stored, and 2^64-1 where it has more.
pub fn row_length(values: &Values) -> u64
    ensures { result ≡ length_of_row values.now }
{
    let mut total: u64 = 2;
    for value in values.as_slice() {
        total = total.saturating_add(part_length(value));
    }
    total
}

/// How many bytes the value adds to a row, and 2^64-1 where it adds more.
fn part_length(value: &Value) -> u64
    ensures { result ≡ min (value_length value.now) (2 ^ 64 - 1) }
{
    match value {
        Value::Null | Value::Bool(_) => 1,
        Value::Int(_, _) => 9,
        Value::Text(bytes) | Value::Blob(bytes) => (bytes.len() as u64).saturating_add(5),
    }
}

/// How many bytes the value has as a key, and 2^64-1 where it has more.
pub fn key_length(value: &Value) -> u64
    ensures { result ≡ length_of_key value.now }
{
    match value {
        Value::Null => 1,
        Value::Bool(_) => 2,
        Value::Int(_, _) => 9,
        Value::Text(bytes) | Value::Blob(bytes) => {
            let zeros = zeros_in(bytes.as_slice()) as u64;
            zeros.saturating_add(bytes.len() as u64).saturating_add(3)
        }
    }
}

/// How many bytes are 0.
fn zeros_in(bytes: &[u8]) -> usize
    ensures { result ≡ count_by (λ byte. byte == 0) bytes.now }
{
    bytes.iter().filter(|byte| **byte == 0).count()
}
