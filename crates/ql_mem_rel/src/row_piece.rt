//! Some rows of one table, by rising id.
ghost use Rattle.std.specs.Prelude.{◌≡◌, [], ◌∷◌, ◌++◌, ◌≤◌, length, map, filter, slice_get, find, IfOk, OnOk, OnErr};
ghost use Rattle.std.specs.Option.{option_copied};
ghost use Rattle.ql_rel.specs.Changes.{with_values, is_other};
ghost use Rattle.ql_mem_rel.specs.Pieces.{end_id};
ghost use Rattle.ql_mem_rel.specs.Places.{place_after, place_with};
ghost use Rattle.ql_rel.specs.Rels.{is_after, has_id};
ghost use Rattle.ql_rel.specs.WellFormed.{Rise};

use ql_edge::NoMemory;
use ql_rel::Row;
use ql_value::Values;
use std::alloc::Global;
use std::marker::Model;

/// Some rows of a table that follow one another, which contracts see as their list.
#[derive(Debug, Drop)]
pub(crate) struct RowPiece {
    rows: Vec<Row>,
}

impl Model for RowPiece {
    ghost use Rattle.std.specs.Prelude.{List};
    ghost use Rattle.ql_rel.specs.declared.db.Row.{Row};

    ghost Value = { List Row };

    ghost view = { λ l. l.rows.items };
}

impl RowPiece {
    pub fn new(alloc: Global) -> RowPiece
        ensures { result ≡ [] }
    {
        RowPiece {
            rows: Vec::new(alloc),
        }
    }

    /// No rows, with room for so many.
    pub fn with_capacity(alloc: Global, capacity: usize) -> Result<RowPiece, NoMemory>
        ensures { IfOk result (λ list. list ≡ []) }
    {
        Ok(RowPiece {
            rows: Vec::with_capacity(alloc, capacity)?,
        })
    }

    pub fn as_slice(&self) -> &[Row]
        ensures { result.now ≡ self.now }
    {
        self.rows.as_slice()
    }

    pub fn push(&mut self, row: Row) -> Result<(), NoMemory>
        ensures ok { OnOk result (self.new ≡ self.old ++ row ∷ []) }
        ensures err { OnErr result (self.new ≡ self.old) }
    {
        self.rows.push(row)?;
        Ok(())
    }

    pub fn len(&self) -> usize
        ensures { result ≡ length self.now }
    {
        self.rows.len()
    }

    /// The id of the last row, or 0 where there is none.
    pub fn last_id(&self) -> u64
        ensures { result ≡ end_id self.now }
    {
        match self.rows.as_slice().last() {
            Some(row) => row.id,
            None => 0,
        }
    }

    /// The place of the first row whose id is over `id`.
    fn place_after(&self, id: u64) -> usize
        requires { Rise 1 self.now }
        ensures { result ≡ place_after id self.now }
    {
        self.rows.as_slice().partition_point(|row| row.id <= id)
    }

    /// The place of the row with the id.
    fn place_with(&self, id: u64) -> Option<usize>
        requires { Rise 1 self.now }
        ensures { result ≡ place_with id self.now }
    {
        let at = self.place_after(id.saturating_sub(1));
        let row = self.rows.as_slice().get(at)?;
        if row.id == id { Some(at) } else { None }
    }

    /// The first row whose id is over `id`.
    #[tactic(auto, using(crate::proofs::PlaceLemmas::found_after))]
    pub fn first_after(&self, id: u64) -> Option<&Row>
        requires { Rise 1 self.now }
        ensures { option_copied result ≡ find (is_after id) self.now }
    {
        let at = self.place_after(id);
        self.rows.as_slice().get(at)
    }

    /// The row with the id.
    pub fn with_id(&self, id: u64) -> Option<&Row>
        requires { Rise 1 self.now }
        ensures { option_copied result ≡ find (has_id id) self.now }
    {
        match self.place_with(id) {
            Some(at) => self.rows.as_slice().get(at),
            None => None,
        }
    }

    /// Gives the row with the id other values, where there is one.
    pub fn change(&mut self, id: u64, values: Values)
        requires { Rise 1 self.old }
        ensures { self.new ≡ map (with_values id values) self.old }
    {
        if let Some(at) = self.place_with(id) {
            self.rows[at] = Row { id, values };
        }
    }

    /// Takes the row with the id away, where there is one.
    pub fn remove(&mut self, id: u64)
        requires { Rise 1 self.old }
        ensures { self.new ≡ filter (is_other id) self.old }
    {
        if let Some(at) = self.place_with(id) {
            self.rows.remove(at);
        }
    }
}
