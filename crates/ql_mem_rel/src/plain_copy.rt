//! Copies of a database.
ghost use Rattle.std.specs.Prelude.{◌≡◌, [], IfOk, OnOk};
ghost use Rattle.ql_rel.specs.Databases.{empty_db};
ghost use Rattle.ql_mem_rel.specs.Kept.{db_of};

use crate::plain_db::PlainDb;
use crate::row_copy::copy_row;
use crate::row_list::RowList;
use crate::row_piece::RowPiece;
use ql_edge::NoMemory;
use ql_rel::{Indexes, Row, Schema, TableSchemas, copy_schema};
use std::alloc::Global;

/// A copy of a piece.
fn copy_piece(alloc: Global, rows: &[Row]) -> Result<RowPiece, NoMemory>
    ensures { IfOk result (λ copy. copy ≡ rows.now) }
{
    let mut copy = RowPiece::with_capacity(alloc, rows.len())?;
    for row in rows {
        copy.push(copy_row(alloc, row)?)?;
    }
    Ok(copy)
}

/// A copy of the rows of a table.
fn copy_rows(alloc: Global, rows: &RowList) -> Result<RowList, NoMemory>
    ensures { IfOk result (λ copy. copy ≡ rows.now) }
{
    let pieces = rows.pieces();
    let mut copy = RowList::with_capacity(alloc, pieces.len())?;
    for piece in pieces {
        copy.push_piece(copy_piece(alloc, piece.as_slice())?)?;
    }
    Ok(copy)
}

/// Copies of the rows of all tables.
fn copy_all(alloc: Global, rows: &[RowList]) -> Result<Vec<RowList>, NoMemory>
    ensures { IfOk result (λ copy. copy.items ≡ rows.now) }
{
    let mut copy = Vec::with_capacity(alloc, rows.len())?;
    for list in rows {
        copy.push(copy_rows(alloc, list)?)?;
    }
    Ok(copy)
}

impl PlainDb {
    /// The database with no tables.
    pub fn new(alloc: Global) -> PlainDb
        ensures { db_of result ≡ empty_db }
    {
        let schema = Schema {
            tables: TableSchemas::new(alloc),
            indexes: Indexes::new(alloc),
        };
        PlainDb {
            next_id: 1,
            schema,
            rows: Vec::new(alloc),
        }
    }

    /// A copy of the database.
    pub fn copy(&self, alloc: Global) -> Result<PlainDb, NoMemory>
        ensures db { IfOk result (λ copy. db_of copy ≡ db_of self.now) }
        ensures schema { IfOk result (λ copy. copy.schema ≡ self.now.schema) }
    {
        let schema = copy_schema(alloc, &self.schema)?;
        let rows = copy_all(alloc, &self.rows)?;
        Ok(PlainDb {
            next_id: self.next_id,
            schema,
            rows,
        })
    }
}
