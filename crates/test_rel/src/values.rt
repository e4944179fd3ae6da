//! The values that words mean.

use crate::texts::{first_word, letters};
use ql_edge::NoMemory;
use ql_syntax::ColumnDef;
use ql_value::{Kind, Value, Values};
use std::alloc::Global;

/// The value of a kind that a word means.
fn value_of(alloc: Global, kind: Kind, word: &str) -> Result<Value, NoMemory> {
    if word == "null" {
        return Ok(Value::Null);
    }
    match kind {
        Kind::Bool => Ok(Value::Bool(word == "true")),
        Kind::Text => Ok(Value::Text(letters(alloc, word)?)),
        Kind::Blob => Ok(Value::Blob(letters(alloc, word)?)),
        _ => Ok(Value::Int(kind, i128::from(word.parse::<i64>().unwrap_or(0)))),
    }
}

/// The values that words mean, each of its column's kind; NULL for a word that is too many.
pub fn values_of(alloc: Global, columns: &[ColumnDef], words: &str) -> Result<Values, NoMemory> {
    let mut values = Values::new(alloc);
    let mut rest = words;
    for column in columns {
        let (word, more) = first_word(rest);
        if word.is_empty() {
            return Ok(values);
        }
        values.push(value_of(alloc, column.kind, word)?)?;
        rest = more;
    }
    if !rest.is_empty() {
        values.push(Value::Null)?;
    }
    Ok(values)
}
