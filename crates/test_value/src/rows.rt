//! Rows as bytes.
ghost use Rattle.std.specs.Prelude.{◌≤◌, [], ◌∷◌};
ghost use Rattle.ql_value.specs.Length.{length_of_row};
ghost use Rattle.ql_value.specs.Number.{IsValue};

use ql_edge::{Bytes, NoMemory};
use ql_value::{
    Kind, Kinds, RowFault, Value, Values, decode_row, encode_row, print_value, row_laws,
};
use std::alloc::Global;
use std::test::Fail;

/// The row `true, -128, 18446744073709551615, "a", blob("\x00\xff"), NULL`, and a byte more.
static ROW: [u8; 36] = [
    0, 6, 2, 3, 255, 255, 255, 255, 255, 255, 255, 128, 4, 255, 255, 255, 255, 255, 255, 255, 255,
    5, 0, 0, 0, 1, 97, 6, 0, 0, 0, 2, 0, 255, 0, 9,
];

/// The kinds of its columns.
fn kinds(alloc: Global) -> Result<Kinds, NoMemory> {
    Kinds::from_slice(
        alloc,
        &[
            Kind::Bool,
            Kind::Int8,
            Kind::Uint64,
            Kind::Text,
            Kind::Blob,
            Kind::Int16,
        ],
    )
}

/// What a row of these kinds prints, `bad` where the bytes are none.
fn shown(alloc: Global, kinds: &Kinds, row: &[u8]) -> Result<Bytes, NoMemory> {
    let mut out = Bytes::new(alloc);
    match decode_row(alloc, kinds, row) {
        Ok(values) => {
            for value in values.as_slice() {
                print_value(value, &mut out)?;
                out.push(b' ')?;
            }
        }
        Err(RowFault::BadRow) => out.extend(b"bad")?,
        Err(RowFault::NoMemory) => return Err(NoMemory),
    }
    Ok(out)
}

#[test]
fn reads_a_row_and_no_front_of_it(rt: HostRuntime) -> Result<(), Fail> {
    let kinds = kinds(rt.alloc())?;
    let out = shown(rt.alloc(), &kinds, &ROW[..35])?;
    let want = b"true -128 18446744073709551615 \"a\" blob(\"\\x00\\xff\") <nil> ";
    assert_eq!(rt; out.as_slice(), want.as_slice());
    for end in 0..35usize {
        let out = shown(rt.alloc(), &kinds, &ROW[..end])?;
        assert_eq!(rt; out.as_slice(), b"bad".as_slice(), "{end}");
    }
    let out = shown(rt.alloc(), &kinds, &ROW)?;
    assert_eq!(rt; out.as_slice(), b"bad".as_slice(), "a byte more");
    row_laws();
    Ok(())
}

/// A kind, a row of one value, and what it prints.
static ROWS: [(Kind, &[u8], &[u8]); 20] = [
    (Kind::Bool, b"\x00\x01\x01", b"false "),
    (Kind::Bool, b"\x00\x01\x00", b"<nil> "),
    (
        Kind::Bool,
        b"\x00\x01\x03\x00\x00\x00\x00\x00\x00\x00\x01",
        b"bad",
    ),
    (Kind::Bool, b"\x00\x01\x07", b"bad"),
    (Kind::Bool, b"\x00\x02\x01\x01", b"bad"),
    (Kind::Bool, b"\x00\x00", b"bad"),
    (
        Kind::Int8,
        b"\x00\x01\x03\x00\x00\x00\x00\x00\x00\x00\x7f",
        b"127 ",
    ),
    (
        Kind::Int8,
        b"\x00\x01\x03\x00\x00\x00\x00\x00\x00\x00\x80",
        b"bad",
    ),
    (
        Kind::Int8,
        b"\x00\x01\x03\xff\xff\xff\xff\xff\xff\xff\x7f",
        b"bad",
    ),
    (
        Kind::Int8,
        b"\x00\x01\x04\x00\x00\x00\x00\x00\x00\x00\x01",
        b"bad",
    ),
    (
        Kind::Int64,
        b"\x00\x01\x03\x80\x00\x00\x00\x00\x00\x00\x00",
        b"-9223372036854775808 ",
    ),
    (
        Kind::Int64,
        b"\x00\x01\x03\x7f\xff\xff\xff\xff\xff\xff\xff",
        b"9223372036854775807 ",
    ),
    (
        Kind::Uint8,
        b"\x00\x01\x04\x00\x00\x00\x00\x00\x00\x00\xff",
        b"255 ",
    ),
    (
        Kind::Uint8,
        b"\x00\x01\x04\x00\x00\x00\x00\x00\x00\x01\x00",
        b"bad",
    ),
    (
        Kind::Uint64,
        b"\x00\x01\x03\x00\x00\x00\x00\x00\x00\x00\x01",
        b"bad",
    ),
    (Kind::Text, b"\x00\x01\x05\x00\x00\x00\x00", b"\"\" "),
    (Kind::Text, b"\x00\x01\x05\x00\x00\x00\x02a", b"bad"),
    (Kind::Text, b"\x00\x01\x06\x00\x00\x00\x01a", b"bad"),
    (Kind::Blob, b"\x00\x01\x05\x00\x00\x00\x01a", b"bad"),
    (Kind::Blob, b"\x00\x01\x06\xff\xff\xff\xff", b"bad"),
];

#[test]
fn reads_a_value_of_each_kind(rt: HostRuntime) -> Result<(), Fail> {
    for row in ROWS.iter() {
        let (kind, bytes, want) = *row;
        let kinds = Kinds::from_slice(rt.alloc(), &[kind])?;
        let out = shown(rt.alloc(), &kinds, bytes)?;
        assert_eq!(rt; out.as_slice(), want, "{bytes:?}");
    }
    Ok(())
}

/// A row of two values, as bytes.
fn spelled(alloc: Global, first: Value, second: Value) -> Result<Bytes, NoMemory>
    requires first { IsValue first }
    requires second { IsValue second }
    requires size { length_of_row (first ∷ second ∷ []) ≤ 16777216 }
{
    let mut values = Values::new(alloc);
    values.push(first)?;
    values.push(second)?;
    encode_row(alloc, &values)
}

#[test]
fn spells_rows(rt: HostRuntime) -> Result<(), Fail> {
    let row = spelled(rt.alloc(), Value::Bool(true), Value::Int(Kind::Int8, -128))?;
    let want = b"\x00\x02\x02\x03\xff\xff\xff\xff\xff\xff\xff\x80";
    assert_eq!(rt; row.as_slice(), want.as_slice());
    let row = spelled(rt.alloc(), Value::Null, Value::Int(Kind::Uint16, 65535))?;
    let want = b"\x00\x02\x00\x04\x00\x00\x00\x00\x00\x00\xff\xff";
    assert_eq!(rt; row.as_slice(), want.as_slice());
    Ok(())
}

/// A row of a string and a blob, as bytes.
fn spelled_bytes(alloc: Global) -> Result<Bytes, NoMemory> {
    let mut text = Bytes::new(alloc);
    text.push(b'a')?;
    spelled(alloc, Value::Text(text), Value::Blob(Bytes::new(alloc)))
}

#[test]
fn spells_strings(rt: HostRuntime) -> Result<(), Fail> {
    let row = spelled_bytes(rt.alloc())?;
    let want = b"\x00\x02\x05\x00\x00\x00\x01a\x06\x00\x00\x00\x00";
    assert_eq!(rt; row.as_slice(), want.as_slice());
    Ok(())
}
