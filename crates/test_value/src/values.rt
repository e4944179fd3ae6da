//! Arithmetic, order, conversions, lengths and printing of values.
ghost use Rattle.ql_value.specs.Arith.{IsArithmetic};
ghost use Rattle.ql_value.specs.Number.{IsInteger};

use ql_edge::{Bytes, NoMemory};
use ql_value::{
    BinOp, Kind, Value, ValueFault, Values, arith, arith_laws, compare, convert, copy_value, fit,
    key_length, kind_laws, order_laws, print_value, refusal_laws, row_length,
};
use std::alloc::Global;
use std::cmp::Ordering;
use std::test::Fail;

/// An integer kind, two of its numbers, and what `*`, `/`, `%`, `<<`, `>>`, `&`, `&^`, `+`, `-`, `|` and `^` give.
static NUMBERS: [(Kind, i128, i128, &str); 64] = [
    (
        Kind::Int8,
        127,
        1,
        "127 127 0 -2 63 1 126 -128 126 127 126 ",
    ),
    (
        Kind::Int8,
        -128,
        1,
        "-128 -128 0 0 -64 0 -128 -127 127 -127 -127 ",
    ),
    (
        Kind::Int8,
        -128,
        -1,
        "-128 -128 0 count count -128 0 127 -127 -1 127 ",
    ),
    (Kind::Int8, 127, 127, "1 1 0 0 0 127 0 -2 0 127 0 "),
    (Kind::Int8, -1, 0, "0 divide divide -1 -1 0 -1 -1 -1 -1 -1 "),
    (Kind::Int8, 1, 7, "7 0 1 -128 0 1 0 8 -6 7 6 "),
    (Kind::Int8, -1, 8, "-8 0 -1 0 -1 8 -9 7 -9 -1 -9 "),
    (Kind::Int8, -7, 2, "-14 -3 -1 -28 -2 0 -7 -5 -9 -5 -5 "),
    (Kind::Int8, 7, -2, "-14 -3 1 count count 6 1 5 9 -1 -7 "),
    (
        Kind::Int16,
        32767,
        1,
        "32767 32767 0 -2 16383 1 32766 -32768 32766 32767 32766 ",
    ),
    (
        Kind::Int16,
        -32768,
        1,
        "-32768 -32768 0 0 -16384 0 -32768 -32767 32767 -32767 -32767 ",
    ),
    (
        Kind::Int16,
        -32768,
        -1,
        "-32768 -32768 0 count count -32768 0 32767 -32767 -1 32767 ",
    ),
    (Kind::Int16, 32767, 32767, "1 1 0 0 0 32767 0 -2 0 32767 0 "),
    (
        Kind::Int16,
        -1,
        0,
        "0 divide divide -1 -1 0 -1 -1 -1 -1 -1 ",
    ),
    (Kind::Int16, 1, 15, "15 0 1 -32768 0 1 0 16 -14 15 14 "),
    (Kind::Int16, -1, 16, "-16 0 -1 0 -1 16 -17 15 -17 -1 -17 "),
    (Kind::Int16, -7, 2, "-14 -3 -1 -28 -2 0 -7 -5 -9 -5 -5 "),
    (Kind::Int16, 7, -2, "-14 -3 1 count count 6 1 5 9 -1 -7 "),
    (
        Kind::Int32,
        2147483647,
        1,
        "2147483647 2147483647 0 -2 1073741823 1 2147483646 -2147483648 2147483646 2147483647 2147483646 ",
    ),
    (
        Kind::Int32,
        -2147483648,
        1,
        "-2147483648 -2147483648 0 0 -1073741824 0 -2147483648 -2147483647 2147483647 -2147483647 -2147483647 ",
    ),
    (
        Kind::Int32,
        -2147483648,
        -1,
        "-2147483648 -2147483648 0 count count -2147483648 0 2147483647 -2147483647 -1 2147483647 ",
    ),
    (
        Kind::Int32,
        2147483647,
        2147483647,
        "1 1 0 0 0 2147483647 0 -2 0 2147483647 0 ",
    ),
    (
        Kind::Int32,
        -1,
        0,
        "0 divide divide -1 -1 0 -1 -1 -1 -1 -1 ",
    ),
    (Kind::Int32, 1, 31, "31 0 1 -2147483648 0 1 0 32 -30 31 30 "),
    (Kind::Int32, -1, 32, "-32 0 -1 0 -1 32 -33 31 -33 -1 -33 "),
    (Kind::Int32, -7, 2, "-14 -3 -1 -28 -2 0 -7 -5 -9 -5 -5 "),
    (Kind::Int32, 7, -2, "-14 -3 1 count count 6 1 5 9 -1 -7 "),
    (
        Kind::Int64,
        9223372036854775807,
        1,
        "9223372036854775807 9223372036854775807 0 -2 4611686018427387903 1 9223372036854775806 -9223372036854775808 9223372036854775806 9223372036854775807 9223372036854775806 ",
    ),
    (
        Kind::Int64,
        -9223372036854775808,
        1,
        "-9223372036854775808 -9223372036854775808 0 0 -4611686018427387904 0 -9223372036854775808 -9223372036854775807 9223372036854775807 -9223372036854775807 -9223372036854775807 ",
    ),
    (
        Kind::Int64,
        -9223372036854775808,
        -1,
        "-9223372036854775808 -9223372036854775808 0 count count -9223372036854775808 0 9223372036854775807 -9223372036854775807 -1 9223372036854775807 ",
    ),
    (
        Kind::Int64,
        9223372036854775807,
        9223372036854775807,
        "1 1 0 0 0 9223372036854775807 0 -2 0 9223372036854775807 0 ",
    ),
    (
        Kind::Int64,
        -1,
        0,
        "0 divide divide -1 -1 0 -1 -1 -1 -1 -1 ",
    ),
    (
        Kind::Int64,
        1,
        63,
        "63 0 1 -9223372036854775808 0 1 0 64 -62 63 62 ",
    ),
    (Kind::Int64, -1, 64, "-64 0 -1 0 -1 64 -65 63 -65 -1 -65 "),
    (Kind::Int64, -7, 2, "-14 -3 -1 -28 -2 0 -7 -5 -9 -5 -5 "),
    (Kind::Int64, 7, -2, "-14 -3 1 count count 6 1 5 9 -1 -7 "),
    (
        Kind::Uint8,
        255,
        1,
        "255 255 0 254 127 1 254 0 254 255 254 ",
    ),
    (Kind::Uint8, 0, 1, "0 0 0 0 0 0 0 1 255 1 1 "),
    (Kind::Uint8, 255, 255, "1 1 0 0 0 255 0 254 0 255 0 "),
    (Kind::Uint8, 1, 0, "0 divide divide 1 1 0 1 1 1 1 1 "),
    (Kind::Uint8, 1, 7, "7 0 1 128 0 1 0 8 250 7 6 "),
    (Kind::Uint8, 1, 8, "8 0 1 0 0 0 1 9 249 9 9 "),
    (Kind::Uint8, 200, 7, "120 28 4 0 1 0 200 207 193 207 207 "),
    (
        Kind::Uint16,
        65535,
        1,
        "65535 65535 0 65534 32767 1 65534 0 65534 65535 65534 ",
    ),
    (Kind::Uint16, 0, 1, "0 0 0 0 0 0 0 1 65535 1 1 "),
    (
        Kind::Uint16,
        65535,
        65535,
        "1 1 0 0 0 65535 0 65534 0 65535 0 ",
    ),
    (Kind::Uint16, 1, 0, "0 divide divide 1 1 0 1 1 1 1 1 "),
    (Kind::Uint16, 1, 15, "15 0 1 32768 0 1 0 16 65522 15 14 "),
    (Kind::Uint16, 1, 16, "16 0 1 0 0 0 1 17 65521 17 17 "),
    (
        Kind::Uint16,
        200,
        7,
        "1400 28 4 25600 1 0 200 207 193 207 207 ",
    ),
    (
        Kind::Uint32,
        4294967295,
        1,
        "4294967295 4294967295 0 4294967294 2147483647 1 4294967294 0 4294967294 4294967295 4294967294 ",
    ),
    (Kind::Uint32, 0, 1, "0 0 0 0 0 0 0 1 4294967295 1 1 "),
    (
        Kind::Uint32,
        4294967295,
        4294967295,
        "1 1 0 0 0 4294967295 0 4294967294 0 4294967295 0 ",
    ),
    (Kind::Uint32, 1, 0, "0 divide divide 1 1 0 1 1 1 1 1 "),
    (
        Kind::Uint32,
        1,
        31,
        "31 0 1 2147483648 0 1 0 32 4294967266 31 30 ",
    ),
    (Kind::Uint32, 1, 32, "32 0 1 0 0 0 1 33 4294967265 33 33 "),
    (
        Kind::Uint32,
        200,
        7,
        "1400 28 4 25600 1 0 200 207 193 207 207 ",
    ),
    (
        Kind::Uint64,
        18446744073709551615,
        1,
        "18446744073709551615 18446744073709551615 0 18446744073709551614 9223372036854775807 1 18446744073709551614 0 18446744073709551614 18446744073709551615 18446744073709551614 ",
    ),
    (
        Kind::Uint64,
        0,
        1,
        "0 0 0 0 0 0 0 1 18446744073709551615 1 1 ",
    ),
    (
        Kind::Uint64,
        18446744073709551615,
        18446744073709551615,
        "1 1 0 0 0 18446744073709551615 0 18446744073709551614 0 18446744073709551615 0 ",
    ),
    (Kind::Uint64, 1, 0, "0 divide divide 1 1 0 1 1 1 1 1 "),
    (
        Kind::Uint64,
        1,
        63,
        "63 0 1 9223372036854775808 0 1 0 64 18446744073709551554 63 62 ",
    ),
    (
        Kind::Uint64,
        1,
        64,
        "64 0 1 0 0 0 1 65 18446744073709551553 65 65 ",
    ),
    (
        Kind::Uint64,
        200,
        7,
        "1400 28 4 25600 1 0 200 207 193 207 207 ",
    ),
];

/// A number of a kind, a count of type uint64, and what `<<` and `>>` give.
static SHIFTS: [(Kind, i128, i128, &str); 8] = [
    (Kind::Int8, -128, 9, "0 -1 "),
    (Kind::Uint8, 1, 8, "0 0 "),
    (Kind::Int16, -1, 9223372036854775808, "0 -1 "),
    (Kind::Int32, 5, 9223372036854775808, "0 0 "),
    (
        Kind::Int64,
        -9223372036854775808,
        18446744073709551615,
        "0 -1 ",
    ),
    (
        Kind::Uint64,
        18446744073709551615,
        9223372036854775808,
        "0 0 ",
    ),
    (Kind::Int64, 1, 63, "-9223372036854775808 0 "),
    (Kind::Uint32, 4294967295, 31, "2147483648 1 "),
];

/// An operator by its place among those of arithmetic.
fn operator(place: u8) -> BinOp
    ensures { IsArithmetic result }
{
    match place {
        0 => BinOp::Mul,
        1 => BinOp::Div,
        2 => BinOp::Rem,
        3 => BinOp::Shl,
        4 => BinOp::Shr,
        5 => BinOp::And,
        6 => BinOp::AndNot,
        7 => BinOp::Add,
        8 => BinOp::Sub,
        9 => BinOp::Or,
        _ => BinOp::Xor,
    }
}

/// Adds what an operation gives and a space.
fn show(outcome: Result<Value, ValueFault>, out: &mut Bytes) -> Result<(), NoMemory> {
    match outcome {
        Ok(value) => print_value(&value, out)?,
        Err(ValueFault::Divide) => out.extend(b"divide")?,
        Err(ValueFault::Range) => out.extend(b"range")?,
        Err(ValueFault::NegativeCount) => out.extend(b"count")?,
        Err(ValueFault::NoMemory) => return Err(NoMemory),
    }
    out.push(b' ')
}

/// Adds what an operator gives on two numbers.
fn show_numbers(
    alloc: Global,
    place: u8,
    left: (Kind, i128),
    right: (Kind, i128),
    out: &mut Bytes,
) -> Result<(), NoMemory> {
    let left = Value::Int(left.0, left.1);
    let right = Value::Int(right.0, right.1);
    show(arith(alloc, operator(place), &left, &right), out)
}

#[test]
fn numbers(rt: HostRuntime) -> Result<(), Fail> {
    for row in NUMBERS.iter() {
        let (kind, left, right, wanted) = *row;
        let mut out = Bytes::new(rt.alloc());
        for place in 0..11u8 {
            show_numbers(rt.alloc(), place, (kind, left), (kind, right), &mut out)?;
        }
        assert_eq!(rt; out.as_slice(), wanted.as_bytes(), "{left} and {right}");
    }
    for row in SHIFTS.iter() {
        let (kind, left, count, wanted) = *row;
        let mut out = Bytes::new(rt.alloc());
        show_numbers(rt.alloc(), 3, (kind, left), (Kind::Uint64, count), &mut out)?;
        show_numbers(rt.alloc(), 4, (kind, left), (Kind::Uint64, count), &mut out)?;
        assert_eq!(rt; out.as_slice(), wanted.as_bytes(), "{left} by {count}");
    }
    Ok(())
}

/// One value of each sort, by its place.
fn sample(alloc: Global, place: u8) -> Result<Value, NoMemory> {
    Ok(match place {
        0 => Value::Null,
        1 => Value::Bool(false),
        2 => Value::Bool(true),
        3 => Value::Int(Kind::Int64, -9223372036854775808),
        4 => Value::Int(Kind::Uint64, 18446744073709551615),
        5 => Value::Text(Bytes::from_slice(alloc, b"")?),
        6 => Value::Text(Bytes::from_slice(alloc, b"a\"b\\c\nd\re\tf\x00\x1f\x7f\x80\xff ~")?),
        _ => Value::Blob(Bytes::from_slice(alloc, b"a\"b\\c\nd\re\tf\x00\x1f\x7f\x80\xff ~")?),
    })
}

/// A sample, what it prints, and how long it is in a row and as a key.
static SAMPLES: [(u8, &[u8], u64, u64); 8] = [
    (0, b"<nil>", 3, 1),
    (1, b"false", 3, 2),
    (2, b"true", 3, 2),
    (3, b"-9223372036854775808", 11, 9),
    (4, b"18446744073709551615", 11, 9),
    (5, b"\"\"", 7, 3),
    (
        6,
        b"\"a\\\"b\\\\c\\nd\\re\\tf\\x00\\x1f\\x7f\x80\xff ~\"",
        25,
        22,
    ),
    (
        7,
        b"blob(\"a\\\"b\\\\c\\nd\\re\\tf\\x00\\x1f\\x7f\\x80\\xff ~\")",
        25,
        22,
    ),
];

/// What a sample prints.
fn printed(alloc: Global, place: u8) -> Result<Bytes, NoMemory> {
    let mut out = Bytes::new(alloc);
    print_value(&sample(alloc, place)?, &mut out)?;
    Ok(out)
}

/// A row with a copy of a sample.
fn row_with(alloc: Global, place: u8) -> Result<Values, NoMemory> {
    let mut row = Values::new(alloc);
    row.push(copy_value(alloc, &sample(alloc, place)?)?)?;
    Ok(row)
}

#[test]
fn printing(rt: HostRuntime) -> Result<(), Fail> {
    for row in SAMPLES.iter() {
        let (place, text, _, _) = *row;
        let out = printed(rt.alloc(), place)?;
        assert_eq!(rt; out.as_slice(), text);
    }
    Ok(())
}

#[test]
fn lengths(rt: HostRuntime) -> Result<(), Fail> {
    for row in SAMPLES.iter() {
        let (place, _, in_row, as_key) = *row;
        let length = row_length(&row_with(rt.alloc(), place)?);
        assert_eq!(rt; length, in_row, "a row of sample {place}");
        let length = key_length(&sample(rt.alloc(), place)?);
        assert_eq!(rt; length, as_key, "a key of sample {place}");
    }
    let mut both = row_with(rt.alloc(), 6)?;
    both.push(Value::Null)?;
    assert_eq!(rt; row_length(&both), 26);
    Ok(())
}

#[test]
fn order(rt: HostRuntime) -> Result<(), Fail> {
    for i in 0..8u8 {
        for j in 0..8u8 {
            let order = compare(&sample(rt.alloc(), i)?, &sample(rt.alloc(), j)?);
            assert_eq!(rt; order, i.cmp(&j), "{i} and {j}");
        }
    }
    for row in BYTES.iter() {
        let (left, right, wanted) = *row;
        let first = Value::Text(Bytes::from_slice(rt.alloc(), left)?);
        let second = Value::Text(Bytes::from_slice(rt.alloc(), right)?);
        assert_eq!(rt; compare(&first, &second), wanted, "strings");
        let first = Value::Blob(Bytes::from_slice(rt.alloc(), left)?);
        let second = Value::Blob(Bytes::from_slice(rt.alloc(), right)?);
        assert_eq!(rt; compare(&first, &second), wanted, "blobs");
    }
    Ok(())
}

/// Two lists of bytes and their order.
static BYTES: [(&[u8], &[u8], Ordering); 5] = [
    (b"", b"\x00", Ordering::Less),
    (b"\x02", b"\x01\x01", Ordering::Greater),
    (b"ab", b"ab", Ordering::Equal),
    (b"a", b"a\x00", Ordering::Less),
    (b"\xff", b"\x7f\xff", Ordering::Greater),
];

/// A number, and what `convert` and `fit` make of it at each integer kind from int8 to uint64.
static CONVERSIONS: [(i128, &str); 11] = [
    (
        300,
        "44 range 300 300 300 300 300 300 44 range 300 300 300 300 300 300 ",
    ),
    (
        -1,
        "-1 -1 -1 -1 -1 -1 -1 -1 255 range 65535 range 4294967295 range 18446744073709551615 range ",
    ),
    (
        -129,
        "127 range -129 -129 -129 -129 -129 -129 127 range 65407 range 4294967167 range 18446744073709551487 range ",
    ),
    (
        127,
        "127 127 127 127 127 127 127 127 127 127 127 127 127 127 127 127 ",
    ),
    (
        128,
        "-128 range 128 128 128 128 128 128 128 128 128 128 128 128 128 128 ",
    ),
    (
        65536,
        "0 range 0 range 65536 65536 65536 65536 0 range 0 range 65536 65536 65536 65536 ",
    ),
    (
        4294967295,
        "-1 range -1 range -1 range 4294967295 4294967295 255 range 65535 range 4294967295 4294967295 4294967295 4294967295 ",
    ),
    (
        -2147483648,
        "0 range 0 range -2147483648 -2147483648 -2147483648 -2147483648 0 range 0 range 2147483648 range 18446744071562067968 range ",
    ),
    (
        9223372036854775808,
        "0 range 0 range 0 range -9223372036854775808 range 0 range 0 range 0 range 9223372036854775808 9223372036854775808 ",
    ),
    (
        -9223372036854775808,
        "0 range 0 range 0 range -9223372036854775808 -9223372036854775808 0 range 0 range 0 range 9223372036854775808 range ",
    ),
    (
        18446744073709551616,
        "0 range 0 range 0 range 0 range 0 range 0 range 0 range 0 range ",
    ),
];

/// An integer kind by its place.
fn integer(place: u8) -> Kind
    ensures { IsInteger result }
{
    match place {
        0 => Kind::Int8,
        1 => Kind::Int16,
        2 => Kind::Int32,
        3 => Kind::Int64,
        4 => Kind::Uint8,
        5 => Kind::Uint16,
        6 => Kind::Uint32,
        _ => Kind::Uint64,
    }
}

#[test]
fn conversions(rt: HostRuntime) -> Result<(), Fail> {
    for row in CONVERSIONS.iter() {
        let (number, wanted) = *row;
        let mut out = Bytes::new(rt.alloc());
        for place in 0..8u8 {
            let kind = integer(place);
            let value = Value::Int(Kind::Int64, number);
            show(Ok(convert(rt.alloc(), kind, &value)?), &mut out)?;
            show(fit(kind, number), &mut out)?;
        }
        assert_eq!(rt; out.as_slice(), wanted.as_bytes(), "{number}");
    }
    Ok(())
}

#[test]
fn strings(rt: HostRuntime) -> Result<(), Fail> {
    let mut out = Bytes::new(rt.alloc());
    let ab = Value::Text(Bytes::from_slice(rt.alloc(), b"ab")?);
    let c = Value::Text(Bytes::from_slice(rt.alloc(), b"\xc3")?);
    let one = Value::Int(Kind::Int8, 1);
    show(arith(rt.alloc(), BinOp::Add, &ab, &c), &mut out)?;
    show(arith(rt.alloc(), BinOp::Add, &ab, &Value::Null), &mut out)?;
    show(arith(rt.alloc(), BinOp::Div, &Value::Null, &one), &mut out)?;
    show(arith(rt.alloc(), BinOp::Shl, &one, &Value::Null), &mut out)?;
    let blob = convert(rt.alloc(), Kind::Blob, &c)?;
    print_value(&blob, &mut out)?;
    print_value(&convert(rt.alloc(), Kind::Blob, &Value::Null)?, &mut out)?;
    print_value(
        &convert(rt.alloc(), Kind::Bool, &Value::Bool(true))?,
        &mut out,
    )?;
    let wanted = b"\"ab\xc3\" <nil> <nil> <nil> blob(\"\\xc3\")<nil>true";
    assert_eq!(rt; out.as_slice(), wanted.as_slice());
    order_laws();
    arith_laws();
    kind_laws();
    refusal_laws();
    Ok(())
}
