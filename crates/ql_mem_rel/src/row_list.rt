//! The rows of one table, by rising id.
ghost use Rattle.std.specs.Prelude.{◌≡◌, [], ◌∷◌, ◌++◌, map, filter, find, IfOk, OnOk, OnErr};
ghost use Rattle.std.specs.Option.{option_copied};
ghost use Rattle.ql_rel.specs.Changes.{with_values, is_other};
ghost use Rattle.ql_mem_rel.specs.Pieces.{rows_of};
ghost use Rattle.ql_rel.specs.Rels.{is_after, has_id};
ghost use Rattle.ql_rel.specs.WellFormed.{Rise};

use crate::row_piece::RowPiece;
use crate::row_pieces::{change, first_after, push, push_piece, remove, with_id};
use ql_edge::NoMemory;
use ql_rel::Row;
use ql_value::Values;
use std::alloc::Global;
use std::marker::Model;

/// The rows of a table, which contracts see as their list.
///
/// They lie in pieces of bounded size, so that no call moves more rows than those of one piece.
#[derive(Debug, Drop)]
pub(crate) struct RowList {
    pieces: Vec<RowPiece>,
}

impl Model for RowList {
    ghost use Rattle.std.specs.Prelude.{List};
    ghost use Rattle.ql_rel.specs.declared.db.Row.{Row};
    ghost use Rattle.ql_mem_rel.specs.Pieces.{rows_of, AllFilled};

    ghost Value = { List Row };

    ghost view = { λ l. rows_of l.pieces.items };

    ghost invariant = { λ l. AllFilled l.pieces.items };
}

impl RowList {
    pub fn new(alloc: Global) -> RowList
        ensures { result ≡ [] }
    {
        RowList {
            pieces: Vec::new(alloc),
        }
    }

    /// No rows, with room for so many pieces.
    pub fn with_capacity(alloc: Global, pieces: usize) -> Result<RowList, NoMemory>
        ensures { IfOk result (λ list. list ≡ []) }
    {
        Ok(RowList {
            pieces: Vec::with_capacity(alloc, pieces)?,
        })
    }

    /// The pieces, of which the rows are those of one after the other.
    pub fn pieces(&self) -> &[RowPiece]
        ensures { rows_of result.now ≡ self.now }
    {
        self.pieces.as_slice()
    }

    pub fn push(&mut self, alloc: Global, row: Row) -> Result<(), NoMemory>
        ensures ok { OnOk result (self.new ≡ self.old ++ row ∷ []) }
        ensures err { OnErr result (self.new ≡ self.old) }
    {
        push(alloc, &mut self.pieces, row)
    }

    /// Adds the rows of a piece.
    pub fn push_piece(&mut self, piece: RowPiece) -> Result<(), NoMemory>
        ensures ok { OnOk result (self.new ≡ self.old ++ piece) }
        ensures err { OnErr result (self.new ≡ self.old) }
    {
        push_piece(&mut self.pieces, piece)
    }

    /// Lets the rows go.
    pub fn clear(&mut self)
        ensures { self.new ≡ [] }
    {
        self.pieces.clear();
    }

    /// The first row whose id is over `id`.
    pub fn first_after(&self, id: u64) -> Option<&Row>
        requires { Rise 1 self.now }
        ensures { option_copied result ≡ find (is_after id) self.now }
    {
        first_after(self.pieces.as_slice(), id)
    }

    /// The row with the id.
    pub fn with_id(&self, id: u64) -> Option<&Row>
        requires { Rise 1 self.now }
        ensures { option_copied result ≡ find (has_id id) self.now }
    {
        with_id(self.pieces.as_slice(), id)
    }

    /// Gives the row with the id other values, where there is one.
    pub fn change(&mut self, id: u64, values: Values)
        requires { Rise 1 self.old }
        ensures { self.new ≡ map (with_values id values) self.old }
    {
        change(&mut self.pieces, id, values);
    }

    /// Takes the row with the id away, where there is one.
    pub fn remove(&mut self, id: u64)
        requires { Rise 1 self.old }
        ensures { self.new ≡ filter (is_other id) self.old }
    {
        remove(&mut self.pieces, id);
    }
}
