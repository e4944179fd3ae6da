//! Words and texts.

use crate::reply::Reply;
use ql_edge::{Bytes, NoMemory};
use ql_rel::{RelFault, Row, Schema, TableSchema};
use ql_value::{Value, Values};
use std::alloc::Global;

/// What stands before the first blank, and what stands behind it.
pub fn first_word(text: &str) -> (&str, &str) {
    match text.split_once(' ') {
        Some(parts) => parts,
        None => (text, ""),
    }
}

/// How many, at most a million.
pub fn count_of(word: &str) -> u32 {
    word.parse::<u32>().unwrap_or(0).min(1_000_000)
}

/// The place of a table or a column.
pub fn place(word: &str) -> u32 {
    word.parse::<u32>().unwrap_or(u32::MAX)
}

/// An id.
pub fn id_of(word: &str) -> u64 {
    word.parse::<u64>().unwrap_or(0)
}

/// So many letters.
pub fn letters(alloc: Global, word: &str) -> Result<Bytes, NoMemory> {
    let count = count_of(word) as usize;
    let mut bytes = Bytes::with_capacity(alloc, count)?;
    for _ in 0..count {
        bytes.push(b'a')?;
    }
    Ok(bytes)
}

/// Adds a text.
pub fn put(out: &mut Bytes, text: &str) -> Result<(), NoMemory> {
    out.extend(text.as_bytes())
}

/// Adds a number.
pub fn put_number(alloc: Global, out: &mut Bytes, number: u64) -> Result<(), NoMemory> {
    let text = format!(in alloc; "{number}")?;
    put(out, text.as_str())
}

/// What a refusal is called.
fn refusal_word(fault: &RelFault) -> &'static str {
    match fault {
        RelFault::RowTooLong => "row too long",
        RelFault::KeyTooLong(_) => "key too long",
        RelFault::IdsSpent => "ids spent",
        RelFault::TableLimit => "limit",
        RelFault::Trouble(_) => "trouble",
    }
}

/// Adds what a call answered.
pub fn put_reply(alloc: Global, out: &mut Bytes, reply: &Reply) -> Result<(), NoMemory> {
    match reply {
        Reply::Done => put(out, "ok"),
        Reply::NotAllowed => put(out, "not allowed"),
        Reply::NoRow => put(out, "no row"),
        Reply::Refused(fault) => put(out, refusal_word(fault)),
        Reply::Trouble => put(out, "trouble"),
        Reply::Id(id) => put_number(alloc, out, *id),
    }
}

/// Adds a value: a string or a blob by the number of its bytes.
fn put_value(alloc: Global, out: &mut Bytes, value: &Value) -> Result<(), NoMemory> {
    match value {
        Value::Null => put(out, "null"),
        Value::Bool(truth) => put(out, if *truth { "true" } else { "false" }),
        Value::Int(_, number) => {
            let text = format!(in alloc; "{number}")?;
            put(out, text.as_str())
        }
        Value::Text(bytes) => put_number(alloc, out, bytes.len() as u64),
        Value::Blob(bytes) => put_number(alloc, out, bytes.len() as u64),
    }
}

/// Adds values, each behind a blank.
pub fn put_values(alloc: Global, out: &mut Bytes, values: &Values) -> Result<(), NoMemory> {
    for value in values.as_slice() {
        put(out, " ")?;
        put_value(alloc, out, value)?;
    }
    Ok(())
}

/// Adds the id and the values of a row.
pub fn put_row(alloc: Global, out: &mut Bytes, row: &Row) -> Result<(), NoMemory> {
    put_number(alloc, out, row.id)?;
    put_values(alloc, out, &row.values)
}

/// Adds the name and the number of columns of a table, behind a blank each.
fn put_table(alloc: Global, out: &mut Bytes, table: &TableSchema) -> Result<(), NoMemory> {
    put(out, " ")?;
    out.extend(table.name.as_slice())?;
    put(out, " ")?;
    put_number(alloc, out, table.columns.len() as u64)
}

/// Adds the number of tables, and the name and the number of columns of the first ten.
pub fn put_schema(alloc: Global, out: &mut Bytes, schema: &Schema) -> Result<(), NoMemory> {
    put_number(alloc, out, schema.tables.len() as u64)?;
    for table in schema.tables.as_slice().iter().take(10) {
        put_table(alloc, out, table)?;
    }
    Ok(())
}
