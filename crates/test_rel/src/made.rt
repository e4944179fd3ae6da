//! Columns of tables, changed as a statement makes them in a relation of its own.
ghost use Rattle.std.specs.Prelude.{IsSome, IfSome};

use crate::columns::{add_column, column, drop_column};
use crate::reply::Reply;
use crate::statements::run;
use crate::texts::{first_word, place};
use ql_edge::{Bytes, NoMemory};
use ql_mem_rel::MemRel;
use ql_rel::Rel;
use ql_value::Kind;
use std::alloc::Global;

/// A relation in which the statement of a text was carried out.
fn make(alloc: Global, text: &str) -> Option<MemRel>
    ensures { IfSome result (λ made. IsSome (⟦<MemRel as Rel>⟧.db made)) }
{
    let mut made = MemRel::new(alloc);
    if made.begin().is_err() {
        return None;
    }
    let mut out = Bytes::new(alloc);
    match run(alloc, &mut made, text.as_bytes(), &mut out) {
        Some(Ok(())) => Some(made),
        _ => None,
    }
}

/// Adds a column, after which the schema is what a CREATE TABLE makes.
pub fn do_widen<R: Rel>(alloc: Global, rel: &mut R, text: &str) -> Result<Reply, NoMemory> {
    let Some(made) = make(alloc, text) else {
        return Ok(Reply::NotAllowed);
    };
    let column = column(alloc, b"added", Kind::Bool)?;
    add_column(alloc, rel, &column, &made)
}

/// Takes the column at a place away, after which the schema is what a CREATE TABLE makes.
pub fn do_narrow<R: Rel>(alloc: Global, rel: &mut R, words: &str) -> Result<Reply, NoMemory> {
    let (column, text) = first_word(words);
    match make(alloc, text) {
        Some(made) => drop_column(alloc, rel, place(column), &made),
        None => Ok(Reply::NotAllowed),
    }
}
