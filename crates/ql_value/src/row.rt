//! Rows as bytes.

ghost use Rattle.std.specs.Prelude.{◌≡◌, ◌≤◌, ◌<◌, ◌^◌, ◌++◌, ◌∷◌, [], length, IfOk, OnOk};
ghost use Rattle.std.specs.List.{AllByRecursion};
ghost use Rattle.ql_value.specs.Length.{length_of_row};
ghost use Rattle.ql_value.specs.Number.{IsValue};
ghost use Rattle.ql_value.specs.declared.value.Value.TheVariants as v;
ghost use Rattle.ql_value.specs.Rows.{HasLength, row_bytes, string_bytes, value_bytes};

use crate::{Kind, Value, Values, row_length};
use byteorder::{BigEndian, ByteOrder};
use ql_edge::{Bytes, NoMemory};
use std::alloc::Global;

/// The row as bytes: the number of its values in 2 bytes, and each value behind a tag.
pub fn encode_row(alloc: Global, values: &Values) -> Result<Bytes, NoMemory>
    requires numbers { AllByRecursion IsValue values.now }
    requires count { length values.now ≤ 256 }
    requires size { length_of_row values.now ≤ 16777216 }
    ensures { IfOk result (λ bytes. bytes ≡ row_bytes values.now) }
{
    let mut out = Bytes::with_capacity(alloc, row_length(values) as usize)?;
    let mut count = [0; 2];
    BigEndian::write_u16(&mut count, values.len() as u16);
    out.extend(&count)?;
    for value in values.as_slice() {
        write_value(value, &mut out)?;
    }
    Ok(out)
}

/// Adds a value behind its tag.
fn write_value(value: &Value, out: &mut Bytes) -> Result<(), NoMemory>
    requires number { IsValue value.now }
    requires size { HasLength value.now }
    ensures { OnOk result (out.new ≡ out.old ++ value_bytes value.now) }
{
    match value {
        Value::Null => out.push(0),
        Value::Bool(false) => out.push(1),
        Value::Bool(true) => out.push(2),
        Value::Int(kind, number) => write_number(*kind, *number, out),
        Value::Text(bytes) => {
            out.push(5)?;
            write_string(bytes, out)
        }
        Value::Blob(bytes) => {
            out.push(6)?;
            write_string(bytes, out)
        }
    }
}

/// Adds a number in 8 bytes, behind a tag that says whether its kind has a sign.
fn write_number(kind: Kind, number: i128, out: &mut Bytes) -> Result<(), NoMemory>
    requires { IsValue (v.Int kind number) }
    ensures { OnOk result (out.new ≡ out.old ++ value_bytes (v.Int kind number)) }
{
    let mut bytes = [0; 8];
    if kind.is_signed() {
        out.push(3)?;
        BigEndian::write_i64(&mut bytes, number as i64);
    } else {
        out.push(4)?;
        BigEndian::write_u64(&mut bytes, number as u64);
    }
    out.extend(&bytes)
}

/// Adds bytes behind their number in 4 bytes.
fn write_string(bytes: &Bytes, out: &mut Bytes) -> Result<(), NoMemory>
    requires { length bytes.now < 2 ^ 32 }
    ensures { OnOk result (out.new ≡ out.old ++ string_bytes bytes.now) }
{
    let mut count = [0; 4];
    BigEndian::write_u32(&mut count, bytes.len() as u32);
    out.extend(&count)?;
    out.extend(bytes.as_slice())
}
