//! Pieces of bytes that are written together.
ghost use Rattle.std.specs.Prelude.{◌≡◌, ℕ, ◌+◌, ◌^◌, ◌<◌, ◌≤◌, [], ◌∷◌, ◌++◌, length, true, false, OnOk, OnErr};
ghost use Rattle.lldb_base.specs.Batch.{IsBatch, end_of, bytes_of, cost};

use ql_edge::{Bytes, Items, NoMemory};
use std::alloc::Global;
use std::marker::Model;

/// Bytes, and the place where they are written.
#[derive(Debug, Drop)]
pub struct Piece {
    pub place: u64,
    pub bytes: Bytes,
}

/// Pieces by rising place, and the length that the content has once they are written.
#[derive(Debug, Drop)]
pub struct Batch {
    alloc: Global,
    pieces: Items<Piece>,
    size: u64,
}

impl Model for Batch {
    ghost use Rattle.lldb_base.specs.Batch.{Edits, IsBatch};

    ghost Value = { Edits };

    ghost view = { λ b. record { pieces = b.pieces; size = b.size } };

    ghost invariant = { λ b. IsBatch (record { pieces = b.pieces; size = b.size }) };
}

impl Batch {
    /// No pieces yet, and the length that the content is to have. It takes no memory.
    pub fn new(alloc: Global, length: u64) -> Batch
        ensures pieces { result.pieces ≡ [] }
        ensures size { result.size ≡ length }
    {
        Batch {
            alloc,
            pieces: Items::new(alloc),
            size: length,
        }
    }

    /// Adds a copy of the bytes as the last piece. After a refusal all is as before.
    #[tactic(auto, using(crate::proofs::Pieces::batch_push))]
    pub fn push(&mut self, place: u64, bytes: &[u8]) -> Result<(), NoMemory>
        requires some { 1 ≤ length bytes.now }
        requires most { length bytes.now ≤ 65536 }
        requires behind { end_of 0 self.old.pieces ≤ place }
        requires within { place + length bytes.now ≤ self.old.size }
        requires room { cost self.old.pieces + length bytes.now + 12 ≤ 2 ^ 61 }
        ensures ok { OnOk result (self.new.pieces ≡ self.old.pieces ++ record
            { place = place; bytes = bytes.now } ∷ []) }
        ensures err { OnErr result (self.new.pieces ≡ self.old.pieces) }
        ensures size { self.new.size ≡ self.old.size }
    {
        let bytes = Bytes::from_slice(self.alloc, bytes)?;
        self.pieces.push(Piece { place, bytes })?;
        Ok(())
    }

    pub fn pieces(&self) -> &[Piece]
        ensures value { result.now ≡ self.now.pieces }
        ensures batch { IsBatch self.now }
    {
        self.pieces.as_slice()
    }

    /// The length that the content has once the pieces are written.
    pub fn length(&self) -> u64
        ensures value { result ≡ self.now.size }
        ensures batch { IsBatch self.now }
    {
        self.size
    }

    /// Sets the length that the content is to have.
    pub fn set_length(&mut self, length: u64)
        requires { end_of 0 self.old.pieces ≤ length }
        ensures pieces { self.new.pieces ≡ self.old.pieces }
        ensures size { self.new.size ≡ length }
    {
        self.size = length;
    }

    /// How many bytes the pieces have.
    #[tactic(auto, using(crate::proofs::Pieces::piece_counted))]
    pub fn bytes(&self) -> u64
        ensures { result ≡ bytes_of self.now.pieces }
    {
        let mut bytes = 0;
        let pieces = self.pieces.as_slice();
        for piece in pieces {
            bytes += piece.bytes.len() as u64;
        }
        bytes
    }

    /// Whether a content of a size stays as it is where the batch is moved by a shift: there is no piece, and the size is
    /// the same.
    pub fn is_idle(&self, shift: u64, size: u64) -> bool
        ensures yes { result ≡ true → (self.now.pieces ≡ []) × (shift + self.now.size ≡ size) }
        ensures no { result ≡ false → self.now.pieces ≡ [] → shift + self.now.size ≡ size → ⊥ }
    {
        self.pieces.is_empty() && shift <= size && size - shift == self.size
    }

    /// The length of the content where all is moved by a shift.
    pub(crate) fn end(&self, shift: u64) -> u64
        requires { shift + self.now.size ≤ 2 ^ 60 + 16 + cost self.now.pieces }
        ensures { result ≡ shift + self.now.size }
    {
        shift + self.length()
    }

    /// A shift that is moved on by an offset.
    pub(crate) fn shift_behind(&self, offset: u64, shift: u64) -> u64
        requires offset { offset ≤ 2 ^ 60 + 16 }
        requires shift { shift + self.now.size ≤ 2 ^ 60 + 16 + cost self.now.pieces }
        ensures { result ≡ offset + shift }
    {
        let _ = &self.pieces;
        offset + shift
    }
}
