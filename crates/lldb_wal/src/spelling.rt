//! A batch as it is spelled in a log.
ghost use Rattle.std.specs.Prelude.{◌≡◌, ◌+◌, ◌^◌, ◌<◌, ◌≤◌, ◌++◌, length, IfOk, OnOk};
ghost use Rattle.std.specs.Int.{w32, w64, to_be_bytes};
ghost use Rattle.lldb_base.specs.Batch.{cost};
ghost use Rattle.lldb_wal.specs.Spelling.{piece_bytes, batch_bytes};

use byteorder::{BigEndian, ByteOrder};
use lldb_base::{Batch, Piece};
use ql_edge::{Bytes, NoMemory};
use std::alloc::Global;

/// Adds a number in 8 bytes.
fn add_number(out: &mut Bytes, number: u64) -> Result<(), NoMemory>
    ensures { OnOk result (out.new ≡ out.old ++ to_be_bytes w64 number) }
{
    let mut bytes = [0; 8];
    BigEndian::write_u64(&mut bytes, number);
    out.extend(&bytes)
}

/// Adds a number in 4 bytes.
fn add_count(out: &mut Bytes, count: u32) -> Result<(), NoMemory>
    ensures { OnOk result (out.new ≡ out.old ++ to_be_bytes w32 count) }
{
    let mut bytes = [0; 4];
    BigEndian::write_u32(&mut bytes, count);
    out.extend(&bytes)
}

/// Adds a piece, `shift` behind its place.
fn add_piece(out: &mut Bytes, piece: &Piece, shift: u64) -> Result<(), NoMemory>
    requires place { shift + piece.now.place < 2 ^ 64 }
    requires count { length piece.now.bytes < 2 ^ 32 }
    ensures { OnOk result (out.new ≡ out.old ++ piece_bytes shift piece.now) }
{
    add_number(out, shift + piece.place)?;
    add_count(out, piece.bytes.len() as u32)?;
    out.extend(piece.bytes.as_slice())?;
    Ok(())
}

/// How many bytes a batch takes in a log, behind the header.
#[tactic(auto, using(crate::proofs::Spells::count_of_cost))]
fn spelled_length(batch: &Batch) -> usize
    ensures { result ≡ 16 + cost batch.now.pieces }
{
    let pieces = batch.pieces();
    (16 + batch.bytes() + 12 * pieces.len() as u64) as usize
}

/// The bytes of a batch in a log, behind the header: each piece stands `shift` behind its place.
pub(crate) fn spell_batch(alloc: Global, batch: &Batch, shift: u64) -> Result<Bytes, NoMemory>
    requires { shift + batch.now.size ≤ 2 ^ 60 + 16 }
    ensures { IfOk result (λ bytes. bytes ≡ batch_bytes shift batch.now) }
{
    let mut out = Bytes::with_capacity(alloc, spelled_length(batch))?;
    let pieces = batch.pieces();
    add_number(&mut out, pieces.len() as u64)?;
    for piece in pieces {
        add_piece(&mut out, piece, shift)?;
    }
    add_number(&mut out, shift + batch.length())?;
    Ok(out)
}
