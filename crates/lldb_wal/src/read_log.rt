//! What the log of a volume is, read in parts of bounded size.
ghost use Rattle.std.specs.Prelude.{◌≡◌, ℕ, ◌≤◌, List, length, take, IsSome, IfOk, IfSome};
ghost use Rattle.std.specs.Int.{w64};
ghost use Rattle.ql_edge.specs.Cause.{IsCaused};
ghost use Rattle.ql_edge.specs.Frame.{Stays};
ghost use Rattle.lldb_wal.specs.Fields.{number};
ghost use Rattle.lldb_wal.specs.Log.{IsUngated, Follow, IsLog};
ghost use Rattle.lldb_wal.specs.Parts.{IsRest};

use crate::LogState;
use crate::fields::{read_piece, read_size};
use crate::header::read_head;
use crate::reading::{FIRST, Reading};
use crate::window::Window;
use ql_edge::{DeviceFault, Volume};
use std::alloc::Global;

/// What a log is behind all of its pieces, by the first bytes that stand there.
fn judge_end(size: u64, rest: &[u8], reading: Reading) -> LogState
    ensures { (log : List ℕ) → IsRest log rest.now reading.at → IsUngated log →
        length reading.batch.pieces ≡ number w64 16 log →
        Follow size log reading.last reading.at 0 24 reading.batch.pieces → IsLog size log result }
{
    match read_size(size, reading.last, rest) {
        None => LogState::Faulty { at: reading.at },
        Some(_) if rest.len() > 8 => LogState::Faulty { at: reading.at + 8 },
        Some(length) => LogState::Open(reading.into_batch(length)),
    }
}

/// What an open log of a length is, of which so many pieces are to be read.
fn read_batch<V: Volume>(
    alloc: Global,
    volume: &mut V,
    size: u64,
    count: u64,
    total: u64,
) -> Result<LogState, DeviceFault>
    requires attached { IsSome (V.attached volume.old) }
    requires long { 24 ≤ total }
    requires total { IfSome (V.files volume.old) (λ f. length f.1 ≡ total) }
    requires open { IfSome (V.files volume.old) (λ f. IsUngated f.1) }
    requires count { IfSome (V.files volume.old) (λ f. count ≡ number w64 16 f.1) }
    ensures is { IfOk result (λ state. IfSome (V.files volume.old)
        (λ f. IsLog size f.1 state)) }
    ensures same { V.same volume.old volume.new }
    ensures frame { Stays V.told V.left V.fixed V.attached volume.old volume.new }
    ensures cause { IsCaused result (V.faults volume.old) (V.faults volume.new) }
{
    let mut window = Window::new(alloc, FIRST, total);
    let mut reading = Reading::new(alloc);
    let mut read = 0;
    while read < count {
        window.fill(volume, reading.at)?;
        match read_piece(size, reading.last, window.rest(reading.at)) {
            Ok((place, bytes)) => reading.add(place, bytes)?,
            Err(behind) => return Ok(LogState::Faulty {
                at: reading.at + behind,
            }),
        }
        read += 1;
    }
    window.fill(volume, reading.at)?;
    Ok(judge_end(size, window.rest(reading.at), reading))
}

/// What a log of a length is: its first 32 bytes are given, or all of a shorter one.
pub(crate) fn read_log<V: Volume>(
    alloc: Global,
    volume: &mut V,
    size: u64,
    total: u64,
    head: &[u8],
) -> Result<LogState, DeviceFault>
    requires attached { IsSome (V.attached volume.old) }
    requires total { IfSome (V.files volume.old) (λ f. length f.1 ≡ total) }
    requires head { IfSome (V.files volume.old) (λ f. head.now ≡ take 32 f.1) }
    requires within { length head.now ≤ total }
    ensures is { IfOk result (λ state. IfSome (V.files volume.old)
        (λ f. IsLog size f.1 state)) }
    ensures same { V.same volume.old volume.new }
    ensures frame { Stays V.told V.left V.fixed V.attached volume.old volume.new }
    ensures cause { IsCaused result (V.faults volume.old) (V.faults volume.new) }
{
    match read_head(head) {
        Ok(count) => read_batch(alloc, volume, size, count, total),
        Err(state) => Ok(state),
    }
}
