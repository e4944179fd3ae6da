//! A database in memory.
ghost use Rattle.std.specs.Prelude.{◌≡◌, ◌≤◌, length, vec_len};
ghost use Rattle.ql_rel.specs.Limits.{IsWithin};
ghost use Rattle.ql_mem_rel.specs.PlainDbs.{Hold, Hold-prop, IsWithin-prop};

use crate::row_list::RowList;
use ql_rel::Schema;

/// A database in memory, the plain one: its schema, and beside it the rows of each table.
#[derive(Drop)]
pub struct PlainDb {
    pub(crate) next_id: u64,
    pub(crate) schema: Schema,
    pub(crate) rows: Vec<RowList>,
    ghost begun: { 1 ≤ next_id },
    ghost one_each: { vec_len rows ≡ length schema.tables },
    ghost within: { IsWithin schema } by { IsWithin-prop schema },
    ghost held: { Hold next_id schema.tables rows.items } by { Hold-prop next_id schema.tables rows.items },
}

impl PlainDb {
    /// The tables without their rows, and the indexes.
    pub fn schema(&self) -> &Schema
        ensures { result.now ≡ self.now.schema }
    {
        &self.schema
    }
}
