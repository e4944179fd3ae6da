//! The tables of a database without their rows.

use ql_edge::{Items, Name};
use ql_syntax::{ColumnDefs, Item};

/// An index of a table, by a column or by the id of the row. A unique one has no two rows of one value that is not NULL.
#[derive(Debug, Drop)]
pub struct Index {
    pub name: Name,
    pub table: Name,
    pub item: Item,
    pub unique: bool,
}

/// Indexes by name, in the order of their bytes.
pub type Indexes = Items<Index>;

/// A table without its rows.
#[derive(Drop)]
pub struct TableSchema {
    pub name: Name,
    pub columns: ColumnDefs,
}

/// Tables without their rows by name, in the order of their bytes.
pub type TableSchemas = Items<TableSchema>;

/// The tables of a database without their rows, and its indexes.
#[derive(Drop)]
pub struct Schema {
    pub tables: TableSchemas,
    pub indexes: Indexes,
}
