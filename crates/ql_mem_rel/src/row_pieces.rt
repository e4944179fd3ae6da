//! The rows of one table in pieces: where a row lies, and its change in that piece alone.
ghost use Rattle.std.specs.Prelude.{◌≡◌, ◌∷◌, [], ◌++◌, ◌<◌, length, map, filter, find, vec_len, OnOk, OnErr};
ghost use Rattle.std.specs.Bool.{OnTrue};
ghost use Rattle.std.specs.Option.{option_copied};
ghost use Rattle.ql_rel.specs.Changes.{changed_at, with_values, is_other};
ghost use Rattle.ql_mem_rel.specs.Pieces.{rows_of, piece_after, AllFilled, AllFilledBut};
ghost use Rattle.ql_rel.specs.Rels.{is_after, has_id};
ghost use Rattle.ql_rel.specs.WellFormed.{Rise};

use crate::row_piece::RowPiece;
use ql_edge::NoMemory;
use ql_rel::Row;
use ql_value::Values;
use std::alloc::Global;

/// As many rows as are put into one piece.
const PIECE_ROWS: usize = 256;

/// The place of the first piece that has a row whose id is over `id`.
fn piece_after(pieces: &[RowPiece], id: u64) -> usize
    requires filled { AllFilled pieces.now }
    requires rise { Rise 1 (rows_of pieces.now) }
    ensures { result ≡ piece_after id pieces.now }
{
    pieces.partition_point(|piece| piece.last_id() <= id)
}

/// The first row whose id is over `id`.
pub(crate) fn first_after(pieces: &[RowPiece], id: u64) -> Option<&Row>
    requires filled { AllFilled pieces.now }
    requires rise { Rise 1 (rows_of pieces.now) }
    ensures { option_copied result ≡ find (is_after id) (rows_of pieces.now) }
{
    let at = piece_after(pieces, id);
    match pieces.get(at) {
        Some(piece) => piece.first_after(id),
        None => None,
    }
}

/// The row with the id.
pub(crate) fn with_id(pieces: &[RowPiece], id: u64) -> Option<&Row>
    requires filled { AllFilled pieces.now }
    requires rise { Rise 1 (rows_of pieces.now) }
    ensures { option_copied result ≡ find (has_id id) (rows_of pieces.now) }
{
    let at = piece_after(pieces, id.saturating_sub(1));
    match pieces.get(at) {
        Some(piece) => piece.with_id(id),
        None => None,
    }
}

/// Gives the row with the id other values, where there is one.
pub(crate) fn change(pieces: &mut Vec<RowPiece>, id: u64, values: Values)
    requires filled { AllFilled pieces.old.items }
    requires rise { Rise 1 (rows_of pieces.old.items) }
    ensures rows { rows_of pieces.new.items ≡ map (with_values id values)
        (rows_of pieces.old.items) }
    ensures filled { AllFilled pieces.new.items }
{
    let at = piece_after(pieces.as_slice(), id.saturating_sub(1));
    if at < pieces.len() {
        pieces[at].change(id, values);
    }
}

/// Takes the row with the id out of a piece, where it is there.
fn remove_at(pieces: &mut Vec<RowPiece>, at: usize, id: u64)
    requires within { at < vec_len pieces.old }
    requires filled { AllFilled pieces.old.items }
    requires rise { Rise 1 (rows_of pieces.old.items) }
    ensures pieces { pieces.new.items ≡ changed_at at (filter (is_other id)) pieces.old.items }
    ensures filled { AllFilledBut at pieces.new.items }
    ensures len { vec_len pieces.new ≡ vec_len pieces.old }
{
    pieces[at].remove(id);
}

/// Takes a piece away where it is empty.
fn drop_empty(pieces: &mut Vec<RowPiece>, at: usize)
    requires within { at < vec_len pieces.old }
    requires filled { AllFilledBut at pieces.old.items }
    ensures rows { rows_of pieces.new.items ≡ rows_of pieces.old.items }
    ensures filled { AllFilled pieces.new.items }
{
    if pieces[at].len() == 0 {
        pieces.remove(at);
    }
}

/// Takes the row with the id away, where there is one.
pub(crate) fn remove(pieces: &mut Vec<RowPiece>, id: u64)
    requires filled { AllFilled pieces.old.items }
    requires rise { Rise 1 (rows_of pieces.old.items) }
    ensures rows { rows_of pieces.new.items ≡ filter (is_other id) (rows_of pieces.old.items) }
    ensures filled { AllFilled pieces.new.items }
{
    let at = piece_after(pieces.as_slice(), id.saturating_sub(1));
    if at < pieces.len() {
        remove_at(pieces, at, id);
        drop_empty(pieces, at);
    }
}

/// Adds a piece behind the others, unless it is empty.
pub(crate) fn push_piece(pieces: &mut Vec<RowPiece>, piece: RowPiece) -> Result<(), NoMemory>
    requires filled { AllFilled pieces.old.items }
    ensures ok { OnOk result (rows_of pieces.new.items ≡ rows_of pieces.old.items ++ piece) }
    ensures err { OnErr result (rows_of pieces.new.items ≡ rows_of pieces.old.items) }
    ensures filled { AllFilled pieces.new.items }
{
    if piece.len() == 0 {
        return Ok(());
    }
    pieces.push(piece)?;
    Ok(())
}

/// Whether the last piece takes one more row.
fn has_room(pieces: &[RowPiece]) -> bool
    ensures { OnTrue result (0 < length pieces.now) }
{
    match pieces.last() {
        Some(piece) => piece.len() < PIECE_ROWS,
        None => false,
    }
}

/// Adds a row to the last piece.
fn push_last(pieces: &mut Vec<RowPiece>, row: Row) -> Result<(), NoMemory>
    requires some { 0 < vec_len pieces.old }
    requires filled { AllFilled pieces.old.items }
    ensures ok { OnOk result (rows_of pieces.new.items ≡ rows_of pieces.old.items ++ row ∷ []) }
    ensures err { OnErr result (rows_of pieces.new.items ≡ rows_of pieces.old.items) }
    ensures filled { AllFilled pieces.new.items }
{
    let last = pieces.len() - 1;
    pieces[last].push(row)
}

/// Adds a row behind the others. After a refusal all is as before.
pub(crate) fn push(alloc: Global, pieces: &mut Vec<RowPiece>, row: Row) -> Result<(), NoMemory>
    requires filled { AllFilled pieces.old.items }
    ensures ok { OnOk result (rows_of pieces.new.items ≡ rows_of pieces.old.items ++ row ∷ []) }
    ensures err { OnErr result (rows_of pieces.new.items ≡ rows_of pieces.old.items) }
    ensures filled { AllFilled pieces.new.items }
{
    if has_room(pieces.as_slice()) {
        return push_last(pieces, row);
    }
    let mut piece = RowPiece::new(alloc);
    piece.push(row)?;
    push_piece(pieces, piece)
}
