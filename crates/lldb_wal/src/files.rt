//! What two files are, as far as their first bytes say.
ghost use Rattle.std.specs.Prelude.{◌≡◌, ℕ, ◌≤◌, ◌&&◌, nat_le, List, length, take, bytes_eq, IfSome, IfNone};
ghost use Rattle.lldb_wal.specs.Fields.{header, longest};
ghost use Rattle.lldb_wal.specs.Opening.{beside, is_fresh, opening_by};
ghost use Rattle.lldb_wal.specs.States.{log_state};

use crate::Opening;
use crate::fields::{HEADER, LONGEST};
use crate::header::is_fresh;

/// Whether a data file is a database's, by its first bytes and its length.
fn is_ours(magic: &[u8; 16], front: &[u8], size: u64) -> bool
    ensures { result ≡ (bytes_eq front.now magic.now && nat_le size longest) }
{
    front == magic.as_slice() && size <= LONGEST
}

/// Whether a data file of a length that is not a database's is what was left of one in the making, by the first bytes of its log.
fn was_being_made(size: u64, head: &[u8]) -> bool
    ensures { result ≡ (nat_le size header && is_fresh head.now) }
{
    size <= HEADER && is_fresh(head)
}

/// What two files are, for the magic with which they are opened: `front` are the first 16 bytes of the data file, or all where
/// it is shorter, `size` is its length, and `head` are the first 32 bytes of the log, or all. Where there is no answer, they are
/// what the log is.
pub(crate) fn judge_heads(magic: &[u8; 16], front: &[u8], size: u64, head: &[u8]) -> Option<Opening>
    ensures decided { IfSome result (λ found. (log : List ℕ) → head.now ≡ take 32 log →
        found ≡ opening_by magic.now front.now size log) }
    ensures left { IfNone result ((log : List ℕ) →
        opening_by magic.now front.now size log ≡ beside (log_state size log)) }
{
    if size == 0 {
        return Some(Opening::New);
    }
    if is_ours(magic, front, size) {
        return None;
    }
    if was_being_made(size, head) {
        return Some(Opening::New);
    }
    Some(Opening::NotDatabase)
}
