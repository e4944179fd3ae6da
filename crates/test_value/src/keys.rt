//! Values as keys.
ghost use Rattle.std.specs.Prelude.{◌<◌, IfOk};
ghost use Rattle.ql_value.specs.Number.{IsValue};

use ql_edge::{Bytes, NoMemory};
use ql_value::{Kind, Value, compare, encode_key, key_laws, key_length};
use std::alloc::Global;
use std::cmp::Ordering;
use std::test::Fail;

/// A value by its place in a list, and its key: values of one kind rise.
fn sample(alloc: Global, place: usize) -> Result<Value, NoMemory>
    ensures { IfOk result IsValue }
{
    Ok(match place {
        0 => Value::Null,
        1 => Value::Bool(false),
        2 => Value::Bool(true),
        3 => Value::Int(Kind::Int64, -9223372036854775808),
        4 => Value::Int(Kind::Int8, -1),
        5 => Value::Int(Kind::Int64, 9223372036854775807),
        6 => Value::Int(Kind::Uint8, 0),
        7 => Value::Int(Kind::Uint64, 18446744073709551615),
        8 => Value::Text(Bytes::from_slice(alloc, b"")?),
        9 => Value::Text(Bytes::from_slice(alloc, b"\x00a")?),
        10 => Value::Text(Bytes::from_slice(alloc, b"a\xff")?),
        _ => Value::Blob(Bytes::from_slice(alloc, b"\x00\x00")?),
    })
}

/// The keys of the samples.
static KEYS: [&[u8]; 12] = [
    b"\x00",
    b"\x01\x00",
    b"\x01\x01",
    b"\x02\x00\x00\x00\x00\x00\x00\x00\x00",
    b"\x02\x7f\xff\xff\xff\xff\xff\xff\xff",
    b"\x02\xff\xff\xff\xff\xff\xff\xff\xff",
    b"\x03\x00\x00\x00\x00\x00\x00\x00\x00",
    b"\x03\xff\xff\xff\xff\xff\xff\xff\xff",
    b"\x04\x00\x00",
    b"\x04\x00\xffa\x00\x00",
    b"\x04a\xff\x00\x00",
    b"\x05\x00\xff\x00\xff\x00\x00",
];

/// The key of a sample.
fn key(alloc: Global, place: usize) -> Result<Bytes, NoMemory> {
    encode_key(alloc, &sample(alloc, place)?)
}

#[test]
fn spells_keys(rt: HostRuntime) -> Result<(), Fail> {
    for place in 0..12usize {
        let key = key(rt.alloc(), place)?;
        assert_eq!(rt; key.as_slice(), KEYS[place], "{place}");
    }
    key_laws();
    Ok(())
}

/// A number by its place in a list: the ends of each integer kind, and the middle of the unsigned numbers.
fn number(place: usize) -> Value
    ensures { IsValue result }
{
    match place {
        0 => Value::Int(Kind::Int8, -128),
        1 => Value::Int(Kind::Int8, 127),
        2 => Value::Int(Kind::Int16, -32768),
        3 => Value::Int(Kind::Int16, 32767),
        4 => Value::Int(Kind::Int32, -2147483648),
        5 => Value::Int(Kind::Int32, 2147483647),
        6 => Value::Int(Kind::Int64, 0),
        7 => Value::Int(Kind::Uint8, 255),
        8 => Value::Int(Kind::Uint16, 65535),
        9 => Value::Int(Kind::Uint32, 4294967295),
        10 => Value::Int(Kind::Uint64, 9223372036854775807),
        _ => Value::Int(Kind::Uint64, 9223372036854775808),
    }
}

/// The keys of the numbers.
static NUMBER_KEYS: [&[u8]; 12] = [
    b"\x02\x7f\xff\xff\xff\xff\xff\xff\x80",
    b"\x02\x80\x00\x00\x00\x00\x00\x00\x7f",
    b"\x02\x7f\xff\xff\xff\xff\xff\x80\x00",
    b"\x02\x80\x00\x00\x00\x00\x00\x7f\xff",
    b"\x02\x7f\xff\xff\xff\x80\x00\x00\x00",
    b"\x02\x80\x00\x00\x00\x7f\xff\xff\xff",
    b"\x02\x80\x00\x00\x00\x00\x00\x00\x00",
    b"\x03\x00\x00\x00\x00\x00\x00\x00\xff",
    b"\x03\x00\x00\x00\x00\x00\x00\xff\xff",
    b"\x03\x00\x00\x00\x00\xff\xff\xff\xff",
    b"\x03\x7f\xff\xff\xff\xff\xff\xff\xff",
    b"\x03\x80\x00\x00\x00\x00\x00\x00\x00",
];

#[test]
fn spells_numbers(rt: HostRuntime) -> Result<(), Fail> {
    for place in 0..12usize {
        let key = encode_key(rt.alloc(), &number(place))?;
        assert_eq!(rt; key.as_slice(), NUMBER_KEYS[place], "{place}");
    }
    Ok(())
}

/// Strings by rising order, among them fronts of one another, and their keys.
static TEXTS: [(&[u8], &[u8]); 12] = [
    (b"", b"\x04\x00\x00"),
    (b"\x00", b"\x04\x00\xff\x00\x00"),
    (b"\x00\x00", b"\x04\x00\xff\x00\xff\x00\x00"),
    (b"\x00\x01", b"\x04\x00\xff\x01\x00\x00"),
    (b"\x00\xff", b"\x04\x00\xff\xff\x00\x00"),
    (b"\x01", b"\x04\x01\x00\x00"),
    (b"a", b"\x04a\x00\x00"),
    (b"a\x00", b"\x04a\x00\xff\x00\x00"),
    (b"a\x00b", b"\x04a\x00\xffb\x00\x00"),
    (b"ab", b"\x04ab\x00\x00"),
    (b"a\xff", b"\x04a\xff\x00\x00"),
    (b"\xff", b"\x04\xff\x00\x00"),
];

/// A string of the list.
fn text(alloc: Global, place: usize) -> Result<Value, NoMemory>
    requires { place < 12 }
    ensures { IfOk result IsValue }
{
    Ok(Value::Text(Bytes::from_slice(alloc, TEXTS[place].0)?))
}

/// The key of a string of the list, and a byte behind it.
fn text_key(alloc: Global, place: usize, behind: u8) -> Result<Bytes, NoMemory>
    requires { place < 12 }
{
    let mut key = encode_key(alloc, &text(alloc, place)?)?;
    key.push(behind)?;
    Ok(key)
}

#[test]
fn spells_strings(rt: HostRuntime) -> Result<(), Fail> {
    for place in 0..12usize {
        let value = text(rt.alloc(), place)?;
        let key = encode_key(rt.alloc(), &value)?;
        assert_eq!(rt; key.as_slice(), TEXTS[place].1, "{place}");
        assert_eq!(rt; key_length(&value), key.len() as u64, "{place}");
    }
    Ok(())
}

#[test]
fn keys_of_strings_rise(rt: HostRuntime) -> Result<(), Fail> {
    for place in 1..12usize {
        let (low, high) = (text(rt.alloc(), place - 1)?, text(rt.alloc(), place)?);
        assert_eq!(rt; compare(&low, &high), Ordering::Less, "{place}");
        let low = text_key(rt.alloc(), place - 1, 255)?;
        let high = text_key(rt.alloc(), place, 0)?;
        assert!(rt; low.as_slice() < high.as_slice(), "{place}");
    }
    Ok(())
}
