//! Reading rows from bytes.

ghost use Rattle.std.specs.Prelude.{◌≡◌, ℕ, List, Some, IfOk};
ghost use Rattle.std.specs.Int.{w16, w32, w64};
ghost use Rattle.ql_edge.specs.Answers.{Gives};
ghost use Rattle.ql_value.specs.RowReading.{blob_at, integer_at, number_at, number_of, present_at, row_in, stands_for, string_at, text_at, truth_at, value_at, values_at};
ghost use Rattle.ql_value.specs.Rows.{Spells, number_tag};
ghost use Rattle.ql_value.specs.declared.value.Value.{Value};

use crate::wrapping::is_within;
use crate::{Kind, RowFault, Value, Values};
use ql_edge::{Bytes, Items};
use std::alloc::Global;

fn u16_at(bytes: &[u8]) -> Result<(u16, &[u8]), RowFault>
    ensures { Gives (λ x. Some (x.0, x.1.now)) stands_for (number_at w16 bytes.now) result }
{
    if bytes.len() < 2 {
        return Err(RowFault::BadRow);
    }
    let (front, rest) = bytes.split_at(2);
    Ok((u16::from_be_bytes([front[0], front[1]]), rest))
}

fn u32_at(bytes: &[u8]) -> Result<(u32, &[u8]), RowFault>
    ensures { Gives (λ x. Some (x.0, x.1.now)) stands_for (number_at w32 bytes.now) result }
{
    if bytes.len() < 4 {
        return Err(RowFault::BadRow);
    }
    let (front, rest) = bytes.split_at(4);
    let number = u32::from_be_bytes([front[0], front[1], front[2], front[3]]);
    Ok((number, rest))
}

fn u64_at(bytes: &[u8]) -> Result<(u64, &[u8]), RowFault>
    ensures { Gives (λ x. Some (x.0, x.1.now)) stands_for (number_at w64 bytes.now) result }
{
    if bytes.len() < 8 {
        return Err(RowFault::BadRow);
    }
    let (front, rest) = bytes.split_at(8);
    let number = u64::from_be_bytes([
        front[0], front[1], front[2], front[3], front[4], front[5], front[6], front[7],
    ]);
    Ok((number, rest))
}

/// The number of which the kind has these bits.
fn number_from(kind: Kind, bits: u64) -> i128
    ensures { result ≡ number_of kind bits }
{
    if kind.is_signed() {
        i128::from(bits.cast_signed())
    } else {
        i128::from(bits)
    }
}

/// A number of the kind in 8 bytes.
#[tactic(auto, unfolding(crate::specs::RowReading::integer_at))]
fn read_integer(kind: Kind, bytes: &[u8]) -> Result<(Value, &[u8]), RowFault>
    ensures { Gives (λ x. Some (x.0, x.1.now)) stands_for (integer_at kind bytes.now) result }
{
    let (bits, rest) = u64_at(bytes)?;
    let number = number_from(kind, bits);
    if !is_within(kind, number) {
        return Err(RowFault::BadRow);
    }
    Ok((Value::Int(kind, number), rest))
}

/// A string or a blob behind the number of its bytes.
#[tactic(auto, unfolding(crate::specs::RowReading::string_at))]
fn read_string(alloc: Global, bytes: &[u8]) -> Result<(Bytes, &[u8]), RowFault>
    ensures { Gives (λ x. Some (x.0, x.1.now)) stands_for (string_at bytes.now) result }
{
    let (len, rest) = u32_at(bytes)?;
    let len = len as usize;
    if rest.len() < len {
        return Err(RowFault::BadRow);
    }
    let (text, rest) = rest.split_at(len);
    Ok((Bytes::from_slice(alloc, text)?, rest))
}

#[tactic(auto, unfolding(crate::specs::RowReading::truth_at))]
fn read_truth(tag: u8, rest: &[u8]) -> Result<(Value, &[u8]), RowFault>
    ensures { Gives (λ x. Some (x.0, x.1.now)) stands_for (truth_at tag rest.now) result }
{
    if tag == 1 {
        return Ok((Value::Bool(false), rest));
    }
    if tag == 2 {
        return Ok((Value::Bool(true), rest));
    }
    Err(RowFault::BadRow)
}

#[tactic(auto, unfolding(crate::specs::RowReading::text_at))]
fn read_text(alloc: Global, tag: u8, rest: &[u8]) -> Result<(Value, &[u8]), RowFault>
    ensures { Gives (λ x. Some (x.0, x.1.now)) stands_for (text_at tag rest.now) result }
{
    if tag != 5 {
        return Err(RowFault::BadRow);
    }
    let (text, rest) = read_string(alloc, rest)?;
    Ok((Value::Text(text), rest))
}

#[tactic(auto, unfolding(crate::specs::RowReading::blob_at))]
fn read_blob(alloc: Global, tag: u8, rest: &[u8]) -> Result<(Value, &[u8]), RowFault>
    ensures { Gives (λ x. Some (x.0, x.1.now)) stands_for (blob_at tag rest.now) result }
{
    if tag != 6 {
        return Err(RowFault::BadRow);
    }
    let (bytes, rest) = read_string(alloc, rest)?;
    Ok((Value::Blob(bytes), rest))
}

/// A value of the kind that is not NULL, behind its tag.
fn read_present(alloc: Global, kind: Kind, tag: u8, rest: &[u8]) -> Result<(Value, &[u8]), RowFault>
    ensures { Gives (λ x. Some (x.0, x.1.now)) stands_for (present_at kind tag rest.now) result }
{
    match kind {
        Kind::Bool => read_truth(tag, rest),
        Kind::Text => read_text(alloc, tag, rest),
        Kind::Blob => read_blob(alloc, tag, rest),
        Kind::Int8 | Kind::Int16 | Kind::Int32 | Kind::Int64 => {
            if tag != 3 {
                return Err(RowFault::BadRow);
            }
            read_integer(kind, rest)
        }
        Kind::Uint8 | Kind::Uint16 | Kind::Uint32 | Kind::Uint64 => {
            if tag != 4 {
                return Err(RowFault::BadRow);
            }
            read_integer(kind, rest)
        }
    }
}

/// A value of the kind, or NULL.
#[tactic(auto, unfolding(crate::specs::RowReading::value_at))]
fn read_value(alloc: Global, kind: Kind, bytes: &[u8]) -> Result<(Value, &[u8]), RowFault>
    ensures { Gives (λ x. Some (x.0, x.1.now)) stands_for (value_at kind bytes.now) result }
{
    match bytes {
        [] => Err(RowFault::BadRow),
        [0, rest @ ..] => Ok((Value::Null, rest)),
        [tag, rest @ ..] => read_present(alloc, kind, *tag, rest),
    }
}

/// One value of each kind.
fn read_values<'a>(
    alloc: Global,
    kinds: &[Kind],
    bytes: &'a [u8],
) -> Result<(Values, &'a [u8]), RowFault>
    ensures { Gives (λ x. Some (x.0, x.1.now)) stands_for (values_at kinds.now bytes.now) result }
{
    let mut values = Values::with_capacity(alloc, kinds.len())?;
    let mut rest = bytes;
    for kind in kinds {
        let (value, after) = read_value(alloc, *kind, rest)?;
        values.push(value)?;
        rest = after;
    }
    Ok((values, rest))
}

/// The row, read from left to right.
#[tactic(auto, unfolding(crate::specs::RowReading::row_in))]
fn read_row(alloc: Global, kinds: &Kinds, bytes: &[u8]) -> Result<Values, RowFault>
    ensures { Gives Some stands_for (row_in kinds.now bytes.now) result }
{
    let (count, rest) = u16_at(bytes)?;
    let (values, rest) = read_values(alloc, kinds.as_slice(), rest)?;
    if usize::from(count) != kinds.len() {
        return Err(RowFault::BadRow);
    }
    if !rest.is_empty() {
        return Err(RowFault::BadRow);
    }
    Ok(values)
}

/// A list of kinds, one for each column.
pub type Kinds = Items<Kind>;

/// The row of these kinds that the bytes spell. `BadRow` comes exactly where they spell none.
pub fn decode_row(alloc: Global, kinds: &Kinds, bytes: &[u8]) -> Result<Values, RowFault>
    ensures read { IfOk result (λ values. Spells kinds.now values bytes.now) }
    ensures exact { (values : List Value) → Spells kinds.now values bytes.now
        → Gives Some stands_for (Some values) result }
{
    read_row(alloc, kinds, bytes)
}
