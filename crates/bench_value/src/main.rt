//! Makes a million keys of numbers and a million rows of three values, reads the rows back, and says how many bytes they
//! had; the times that took go to standard error.
#![tactic(auto)]

use ql_edge::{Bytes, NoMemory};
use ql_value::{Kind, Kinds, RowFault, Value, Values, decode_row, encode_key, encode_row};
use std::alloc::Global;
use std::io;
use std::time::Instant;

/// How many bytes the keys of the numbers below 1,000,000 have.
fn keys(alloc: Global) -> Result<usize, NoMemory> {
    let mut bytes: usize = 0;
    for number in 0..1_000_000u32 {
        let key = encode_key(alloc, &Value::Int(Kind::Int64, i128::from(number)))?;
        bytes = bytes.saturating_add(key.len());
    }
    Ok(bytes)
}

/// A row of a number, a truth and NULL.
fn row(alloc: Global, number: u32) -> Result<Bytes, NoMemory> {
    let mut values = Values::with_capacity(alloc, 3)?;
    values.push(Value::Int(Kind::Int64, i128::from(number)))?;
    values.push(Value::Bool(true))?;
    values.push(Value::Null)?;
    encode_row(alloc, &values)
}

/// How many bytes a million rows have, each read back.
fn rows(alloc: Global) -> Result<usize, RowFault> {
    let kinds = Kinds::from_slice(alloc, &[Kind::Int64, Kind::Bool, Kind::Text])?;
    let mut bytes: usize = 0;
    for number in 0..1_000_000u32 {
        let row = row(alloc, number)?;
        let values = decode_row(alloc, &kinds, row.as_slice())?;
        bytes = bytes.saturating_add(row.len()).saturating_add(values.len());
    }
    Ok(bytes)
}

fn main(rt: HostRuntime) -> io::Result<()> {
    let start = Instant::now(&rt)?;
    let of_keys = keys(rt.alloc()).unwrap_or(0);
    let time_of_keys = start.elapsed(&rt)?;
    let start = Instant::now(&rt)?;
    let of_rows = rows(rt.alloc()).unwrap_or(0);
    let time_of_rows = start.elapsed(&rt)?;
    println!(rt; "{of_keys} bytes of keys")?;
    println!(rt; "{of_rows} bytes and values of rows")?;
    eprintln!(rt;
        "{} {} us",
        time_of_keys.as_micros(),
        time_of_rows.as_micros()
    )?;
    Ok(())
}
