//! Tables in memory, the plain form of a relation: levels are copies of all of them.
#![tactic(auto)]

mod mem_rel;
mod plain_columns;
mod plain_copy;
mod plain_db;
mod plain_rows;
mod plain_tables;
mod row_check;
mod row_copy;
mod row_list;
mod row_piece;
mod row_pieces;
mod schema_change;

pub use mem_rel::MemRel;
pub use plain_db::PlainDb;
