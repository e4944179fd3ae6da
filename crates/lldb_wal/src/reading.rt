//! The pieces of a log, as far as they were read.
ghost use Rattle.std.specs.Prelude.{◌≡◌, ◌+◌, ◌^◌, ◌≤◌, [], ◌∷◌, ◌++◌, length, OnOk};
ghost use Rattle.lldb_base.specs.Batch.{end_of, cost};

use crate::fields::LONGEST;
use lldb_base::Batch;
use ql_edge::NoMemory;
use std::alloc::Global;

/// Where the first piece of a batch stands in a log, in bytes.
pub(crate) const FIRST: u64 = 24;

/// How far the pieces of a batch may reach in a log.
const FARTHEST: u64 = (1 << 61) + FIRST;

/// The pieces that were read of a log, and where the field behind them stands.
#[derive(Debug, Drop)]
pub(crate) struct Reading {
    pub batch: Batch,
    /// Where the last piece ends in the data file.
    pub last: u64,
    /// Where the next field stands in the log.
    pub at: u64,
    ghost last_is: { last ≡ end_of 0 batch.pieces },
    ghost at_is: { at ≡ 24 + cost batch.pieces },
    ghost near: { at ≤ 2 ^ 61 + 24 },
    ghost open_end: { batch.size ≡ 2 ^ 60 + 16 },
}

impl Reading {
    /// No pieces yet. It takes no memory.
    pub fn new(alloc: Global) -> Reading
        ensures pieces { result.batch.pieces ≡ [] }
        ensures last { result.last ≡ 0 }
        ensures at { result.at ≡ 24 }
    {
        Reading {
            batch: Batch::new(alloc, LONGEST),
            last: 0,
            at: FIRST,
        }
    }

    /// Adds a copy of the next piece. Pieces that reach farther than a batch can are refused as too many for the memory.
    #[tactic(auto, using(lldb_base::proofs::Pieces::end_push, lldb_base::proofs::Pieces::cost_push))]
    pub fn add(&mut self, place: u64, bytes: &[u8]) -> Result<(), NoMemory>
        requires apart { self.old.last ≤ place }
        requires some { 1 ≤ length bytes.now }
        requires most { length bytes.now ≤ 65536 }
        requires within { place + length bytes.now ≤ 2 ^ 60 + 16 }
        ensures pieces { OnOk result (self.new.batch.pieces ≡ self.old.batch.pieces ++ record
            { place = place; bytes = bytes.now } ∷ []) }
        ensures last { OnOk result (self.new.last ≡ place + length bytes.now) }
        ensures at { OnOk result (self.new.at ≡ self.old.at + 12 + length bytes.now) }
    {
        let count = bytes.len() as u64;
        if self.at + 12 + count > FARTHEST {
            return Err(NoMemory);
        }
        self.batch.push(place, bytes)?;
        self.last = place + count;
        self.at = self.at + 12 + count;
        Ok(())
    }

    /// The batch of all pieces, and the length that the data file has after it.
    pub fn into_batch(self, length: u64) -> Batch
        requires { self.last ≤ length }
        ensures pieces { result.pieces ≡ self.batch.pieces }
        ensures size { result.size ≡ length }
    {
        let mut batch = self.batch;
        batch.set_length(length);
        batch
    }
}
