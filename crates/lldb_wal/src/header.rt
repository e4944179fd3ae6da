//! What the first bytes of a log say.
ghost use Rattle.std.specs.Prelude.{◌≡◌, ℕ, ◌≤◌, List, length, take, bytes_eq, IfOk, IfErr};
ghost use Rattle.std.specs.Int.{w64};
ghost use Rattle.lldb_wal.specs.Fields.{number};
ghost use Rattle.lldb_wal.specs.Log.{log_magic, IsUngated, IsLog};
ghost use Rattle.lldb_wal.specs.Opening.{is_fresh};

use crate::LogState;
use crate::fields::u64_at;

/// How many bytes of a log decide whether it is open, and with how many pieces.
pub(crate) const HEAD: u64 = 32;

/// The first 15 bytes of a log.
const LOG_MAGIC: &[u8; 15] = b"QL lldb log fmt";

/// Whether bytes begin as a log does.
fn begins_log(log: &[u8]) -> bool
    requires { 15 ≤ length log.now }
    ensures { result ≡ bytes_eq (take 15 log.now) log_magic }
{
    &log[..15] == LOG_MAGIC.as_slice()
}

/// Whether a log has its header and holds nothing: its first 32 bytes say it, or all of a shorter one.
pub(crate) fn is_fresh(head: &[u8]) -> bool
    ensures { result ≡ is_fresh head.now }
{
    if head.len() < 16 {
        return false;
    }
    begins_log(head) && (head.len() < 32 || head[15] != 1)
}

/// How many pieces an open log has, or what the log is, by its first 32 bytes, or all of a shorter one.
pub(crate) fn read_head(head: &[u8]) -> Result<u64, LogState>
    ensures long { IfOk result (λ _. 32 ≤ length head.now) }
    ensures open { IfOk result (λ _. (log : List ℕ) → head.now ≡ take 32 log → IsUngated log) }
    ensures count { IfOk result (λ count. (log : List ℕ) → head.now ≡ take 32 log →
        count ≡ number w64 16 log) }
    ensures decided { IfErr result (λ state. (size : ℕ) (log : List ℕ) →
        head.now ≡ take 32 log → IsLog size log state) }
{
    if head.len() < 32 {
        return Err(LogState::Closed);
    }
    if !begins_log(head) {
        return Err(LogState::Faulty { at: 0 });
    }
    if head[15] != 1 {
        return Err(LogState::Closed);
    }
    Ok(u64_at(head, 16))
}
