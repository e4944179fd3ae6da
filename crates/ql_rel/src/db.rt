//! A database as a value.

use crate::schema::Indexes;
use ql_edge::{Items, Name};
use ql_syntax::ColumnDefs;
use ql_value::Values;

/// A row of a table: its id, and a value for each column.
#[derive(Debug, Drop)]
pub struct Row {
    pub id: u64,
    pub values: Values,
}

/// Rows by rising id.
pub type Rows = Items<Row>;

/// A table with its rows.
#[derive(Drop)]
pub struct Table {
    pub name: Name,
    pub columns: ColumnDefs,
    pub rows: Rows,
}

/// Tables by name, in the order of their bytes.
pub type Tables = Items<Table>;

/// A database as a value.
#[derive(Drop)]
pub struct Db {
    /// The id of the next row.
    pub next_id: u64,
    pub tables: Tables,
    pub indexes: Indexes,
}
