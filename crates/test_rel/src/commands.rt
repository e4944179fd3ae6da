//! What the lines say.

use crate::calls::{
    begin, change, commit, drop_table, fetch, insert, remove, rollback, scan, truncate,
};
use crate::default::put_default;
use crate::made::{do_narrow, do_widen};
use crate::reply::Reply;
use crate::statements::do_statement;
use crate::texts::{
    count_of, first_word, id_of, letters, place, put, put_number, put_reply, put_row, put_schema,
};
use crate::values::values_of;
use ql_edge::{Bytes, NoMemory};
use ql_rel::{Rel, Row, is_past_text};
use ql_value::Values;
use std::alloc::Global;

/// A row to be read into.
fn no_row(alloc: Global) -> Row {
    Row {
        id: 0,
        values: Values::new(alloc),
    }
}

/// The values that words mean in the table at a place.
fn table_values<R: Rel>(
    alloc: Global,
    rel: &R,
    table: u32,
    words: &str,
) -> Result<Values, NoMemory> {
    match rel.schema().tables.as_slice().get(table as usize) {
        Some(table) => values_of(alloc, table.columns.as_slice(), words),
        None => Ok(Values::new(alloc)),
    }
}

/// Adds a row, or gives one other values.
fn do_values<R: Rel>(
    alloc: Global,
    rel: &mut R,
    is_new: bool,
    words: &str,
) -> Result<Reply, NoMemory> {
    let (table, words) = first_word(words);
    let table = place(table);
    if is_new {
        let values = table_values(alloc, rel, table, words)?;
        return Ok(insert(rel, table, &values));
    }
    let (id, words) = first_word(words);
    let values = table_values(alloc, rel, table, words)?;
    let mut row = no_row(alloc);
    Ok(change(rel, table, id_of(id), &values, &mut row))
}

/// Gives a row, and shows it.
fn do_row<R: Rel>(
    alloc: Global,
    rel: &mut R,
    is_scan: bool,
    words: &str,
    out: &mut Bytes,
) -> Result<(), NoMemory> {
    let (table, id) = first_word(words);
    let mut row = no_row(alloc);
    let reply = if is_scan {
        scan(rel, place(table), id_of(id), &mut row)
    } else {
        fetch(rel, place(table), id_of(id), &mut row)
    };
    match reply {
        Reply::Id(_) => put_row(alloc, out, &row),
        other => put_reply(alloc, out, &other),
    }
}

/// Takes a row away.
fn do_remove<R: Rel>(alloc: Global, rel: &mut R, words: &str) -> Reply {
    let (table, id) = first_word(words);
    let mut row = no_row(alloc);
    remove(rel, place(table), id_of(id), &mut row)
}

/// Shows the depth, whether the relation is ready, and how many rows were given.
fn put_state<R: Rel>(alloc: Global, rel: &R, out: &mut Bytes) -> Result<(), NoMemory> {
    let text = format!(in alloc;
        "depth {} ready {} given {}",
        rel.depth(),
        rel.ready(),
        rel.given()
    )?;
    put(out, text.as_str())
}

/// Shows how many rows of a table a scan gives, and the last id.
fn put_walk<R: Rel>(
    alloc: Global,
    rel: &mut R,
    table: u32,
    out: &mut Bytes,
) -> Result<(), NoMemory> {
    let mut row = no_row(alloc);
    let mut after = 0;
    let mut found: u64 = 0;
    for _ in 0..10_000_000 {
        match scan(rel, table, after, &mut row) {
            Reply::Id(id) => after = id,
            _ => break,
        }
        found = found.saturating_add(1);
    }
    put_number(alloc, out, found)?;
    put(out, " ")?;
    put_number(alloc, out, after)
}

/// Shows whether a text of so many letters, or of so many brackets, is past the limits of a rule.
fn put_past(alloc: Global, word: &str, is_nested: bool, out: &mut Bytes) -> Result<(), NoMemory> {
    let mut text = letters(alloc, word)?;
    if is_nested {
        let count = text.len();
        text.clear();
        for _ in 0..count {
            text.push(b'(')?;
        }
    }
    put(
        out,
        if is_past_text(text.as_slice()) {
            "past"
        } else {
            "within"
        },
    )
}

/// Makes the call that a line names, if it answers a `Reply`.
fn call<R: Rel>(
    alloc: Global,
    rel: &mut R,
    verb: &str,
    words: &str,
) -> Result<Option<Reply>, NoMemory> {
    match verb {
        "begin" => Ok(Some(begin(rel))),
        "commit" => Ok(Some(commit(rel))),
        "rollback" => Ok(Some(rollback(rel))),
        "drop" => Ok(Some(drop_table(rel, place(words)))),
        "truncate" => Ok(Some(truncate(rel, place(words)))),
        "remove" => Ok(Some(do_remove(alloc, rel, words))),
        "insert" => Ok(Some(do_values(alloc, rel, true, words)?)),
        "change" => Ok(Some(do_values(alloc, rel, false, words)?)),
        "widen" => Ok(Some(do_widen(alloc, rel, words)?)),
        "narrow" => Ok(Some(do_narrow(alloc, rel, words)?)),
        _ => Ok(None),
    }
}

/// Does what a line that is no call says.
fn do_other<R: Rel>(
    alloc: Global,
    rel: &mut R,
    line: &str,
    out: &mut Bytes,
) -> Result<(), NoMemory> {
    let (verb, words) = first_word(line);
    match verb {
        "state" => put_state(alloc, rel, out),
        "schema" => put_schema(alloc, out, rel.schema()),
        "walk" => put_walk(alloc, rel, place(words), out),
        "fetch" => do_row(alloc, rel, false, words, out),
        "scan" => do_row(alloc, rel, true, words, out),
        "default" => put_default(alloc, words, out),
        "text" => put_past(alloc, words, false, out),
        "brackets" => put_past(alloc, words, true, out),
        _ => do_statement(alloc, rel, line.as_bytes(), out),
    }
}

/// Does what a line says.
fn do_part<R: Rel>(
    alloc: Global,
    rel: &mut R,
    line: &str,
    out: &mut Bytes,
) -> Result<(), NoMemory> {
    let (verb, words) = first_word(line);
    match call(alloc, rel, verb, words)? {
        Some(reply) => put_reply(alloc, out, &reply),
        None => do_other(alloc, rel, line, out),
    }
}

/// Does what a line says, as often as it says, and shows what the last time answered.
fn do_times<R: Rel>(
    alloc: Global,
    rel: &mut R,
    words: &str,
    out: &mut Bytes,
) -> Result<(), NoMemory> {
    let start = out.len();
    let (count, line) = first_word(words);
    for _ in 0..count_of(count) {
        out.truncate(start);
        do_part(alloc, rel, line, out)?;
    }
    Ok(())
}

/// Does what a line says, and shows what it answered, on a line.
pub fn do_line<R: Rel>(
    alloc: Global,
    rel: &mut R,
    line: &str,
    out: &mut Bytes,
) -> Result<(), NoMemory> {
    match first_word(line) {
        ("times", words) => do_times(alloc, rel, words, out)?,
        _ => do_part(alloc, rel, line, out)?,
    }
    put(out, "\n")
}
