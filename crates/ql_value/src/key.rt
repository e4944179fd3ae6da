//! Values as keys.

ghost use Rattle.std.specs.Prelude.{◌≡◌, ◌++◌, ◌∷◌, IfOk, OnOk};
ghost use Rattle.std.specs.Int.{w64, to_be_bytes};
ghost use Rattle.ql_value.specs.Keys.{escaped, key_bytes, string_key};
ghost use Rattle.ql_value.specs.Keys as spec;
ghost use Rattle.ql_value.specs.Length.{length_of_key};
ghost use Rattle.ql_value.specs.Number.{IsValue};
ghost use Rattle.ql_value.specs.declared.value.Value.TheVariants as v;

use crate::{Kind, Value, key_length};
use byteorder::{BigEndian, ByteOrder};
use ql_edge::{Bytes, NoMemory};
use std::alloc::Global;

/// The value as bytes whose order is that of the values of its kind, also where other bytes stand behind them.
pub fn encode_key(alloc: Global, value: &Value) -> Result<Bytes, NoMemory>
    requires { IsValue value.now }
    ensures { IfOk result (λ bytes. bytes ≡ key_bytes value.now) }
{
    let room = usize::try_from(key_length(value)).unwrap_or(0);
    let mut out = Bytes::with_capacity(alloc, room)?;
    match value {
        Value::Null => out.push(0)?,
        Value::Bool(false) => out.extend(&[1, 0])?,
        Value::Bool(true) => out.extend(&[1, 1])?,
        Value::Int(kind, number) => write_number(*kind, *number, &mut out)?,
        Value::Text(bytes) => {
            out.push(4)?;
            write_string(bytes, &mut out)?;
        }
        Value::Blob(bytes) => {
            out.push(5)?;
            write_string(bytes, &mut out)?;
        }
    }
    Ok(out)
}

/// Adds a number in 8 bytes behind its tag, raised where its kind has a sign.
fn write_number(kind: Kind, number: i128, out: &mut Bytes) -> Result<(), NoMemory>
    requires { IsValue (v.Int kind number) }
    ensures { OnOk result (out.new ≡ out.old ++ key_bytes (v.Int kind number)) }
{
    if kind.is_signed() {
        write_tagged(2, raised(number as i64), out)
    } else {
        write_tagged(3, number as u64, out)
    }
}

/// Adds 8 bytes behind a tag.
fn write_tagged(tag: u8, bits: u64, out: &mut Bytes) -> Result<(), NoMemory>
    ensures { OnOk result (out.new ≡ out.old ++ tag ∷ to_be_bytes w64 bits) }
{
    let mut bytes = [0; 8];
    BigEndian::write_u64(&mut bytes, bits);
    out.push(tag)?;
    out.extend(&bytes)
}

/// The number raised by 2^63, so that the least is 0.
fn raised(number: i64) -> u64
    ensures { result ≡ spec.raised number }
{
    (i128::from(number) + (1 << 63)) as u64
}

/// Adds bytes, each zero byte with 255 behind it, and two zero bytes.
fn write_string(bytes: &Bytes, out: &mut Bytes) -> Result<(), NoMemory>
    ensures { OnOk result (out.new ≡ out.old ++ string_key bytes.now) }
{
    for byte in bytes.as_slice() {
        write_byte(*byte, out)?;
    }
    out.extend(&[0, 0])
}

/// Adds a byte, and 255 behind it where it is zero.
fn write_byte(byte: u8, out: &mut Bytes) -> Result<(), NoMemory>
    ensures { OnOk result (out.new ≡ out.old ++ escaped byte) }
{
    if byte == 0 {
        return out.extend(&[0, 255]);
    }
    out.push(byte)
}
