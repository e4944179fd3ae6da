//! A table with a default, in a database without levels.

use crate::columns::column;
use crate::reply::{Reply, of_change};
use crate::texts::{letters, put_reply};
use ql_edge::{Boxed, Bytes, Name, NoMemory};
use ql_mem_rel::PlainDb;
use ql_rel::TableSchema;
use ql_syntax::{ColumnDefs, Expr};
use ql_value::Kind;
use std::alloc::Global;

/// The table of these columns, made in a database of its own.
fn create(alloc: Global, columns: ColumnDefs) -> Result<Reply, NoMemory> {
    if columns.is_empty() {
        return Ok(Reply::NotAllowed);
    }
    let table = TableSchema {
        name: Name::new(alloc, b"t")?,
        columns,
    };
    Ok(of_change(PlainDb::new(alloc).create_table(alloc, &table)))
}

/// Makes a table whose only column has a string of so many letters as its default, and shows what that answered.
pub fn put_default(alloc: Global, word: &str, out: &mut Bytes) -> Result<(), NoMemory> {
    let mut column = column(alloc, b"a", Kind::Text)?;
    column.default = Some(Boxed::new(alloc, Expr::Text(letters(alloc, word)?))?);
    let mut columns = ColumnDefs::new(alloc);
    columns.push(column)?;
    let reply = create(alloc, columns)?;
    put_reply(alloc, out, &reply)
}
