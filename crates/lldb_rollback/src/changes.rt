//! What differs between two contents.
ghost use Rattle.std.specs.Prelude.{◌≡◌, ◌+◌, ◌^◌, ◌≤◌, ◌↔◌, length, take, drop, IsTrue, IfOk};
ghost use Rattle.lldb_base.specs.Batch.{applied, CanTake};
ghost use Rattle.lldb_rollback.specs.Changes.{AreChanged};

use lldb_base::Batch;
use ql_edge::NoMemory;
use std::alloc::Global;

/// How many bytes are compared at a time.
const PAGE: usize = 4096;

/// Whether the piece stands in the bytes at a place.
fn stands_at(bytes: &[u8], at: usize, piece: &[u8]) -> bool
    requires { 1 ≤ length piece.now }
    ensures { IsTrue result ↔ (take (length piece.now) (drop at bytes.now) ≡ piece.now) }
{
    if bytes.len() < at || bytes.len() - at < piece.len() {
        return false;
    }
    &bytes[at..at + piece.len()] == piece
}

/// The pages that differ, as a batch that makes the new content from the old one.
pub fn changes(alloc: Global, old: &[u8], new: &[u8]) -> Result<Batch, NoMemory>
    requires { length new.now ≤ 2 ^ 60 + 16 }
    ensures applied { IfOk result (λ batch. applied 0 batch old.now ≡ new.now) }
    ensures fits { IfOk result (λ batch. CanTake 0 0 (length old.now) batch) }
    ensures size { IfOk result (λ batch. batch.size ≡ length new.now) }
    ensures changed { IfOk result (λ batch. AreChanged old.now batch.pieces) }
{
    let mut batch = Batch::new(alloc, new.len() as u64);
    let mut at = 0;
    while at < new.len() {
        let end = new.len().min(at + PAGE);
        let page = &new[at..end];
        if !stands_at(old, at, page) {
            batch.push(at as u64, page)?;
        }
        at = end;
    }
    Ok(batch)
}
