//! A batch that goes through the log into the data file.
ghost use Rattle.std.specs.Prelude.{◌≡◌, ◌+◌, ◌^◌, ◌≤◌, ◌++◌, length, take, get_or, option_map, IsSome, IfSome, OnOk};
ghost use Rattle.ql_edge.specs.Cause.{IsCaused};
ghost use Rattle.ql_edge.specs.Disk.{file_of, with_piece, Torn, OnFile};
ghost use Rattle.ql_edge.specs.Frame.{Stays};
ghost use Rattle.ql_edge.specs.Stops.{Leaves, After, Adds, HasShown};
ghost use Rattle.lldb_base.specs.Batch.{IsBatch, CanTake};
ghost use Rattle.lldb_wal.specs.Fields.{header, longest};
ghost use Rattle.lldb_wal.specs.Log.{log_magic};
ghost use Rattle.lldb_wal.specs.Spelling.{log_header, batch_bytes};
ghost use Rattle.lldb_wal.specs.Kept.{Beside, IsDurable, IsAtRest, IsLogged, IsCompleted, IsOpenWith, IsNew, IsOldOrNew, with_pieces, with_batch, with_log, stored};

use crate::fields::HEADER;
use lldb_base::Batch;
use ql_edge::{DeviceFault, Volume, Which};

/// Where the gate of a log stands.
const GATE: u64 = 15;

/// Writes a piece to a file, and makes the file stable.
pub(crate) fn write_synced<V: Volume>(
    volume: &mut V,
    which: Which,
    at: u64,
    piece: &[u8],
) -> Result<(), DeviceFault>
    requires attached { IsSome (V.attached volume.old) }
    requires within { IfSome (V.files volume.old) (λ f. at ≤ length (file_of which f)) }
    requires end { at + length piece.now ≤ 2 ^ 62 }
    ensures written { OnOk result (V.files volume.new
        ≡ option_map (with_piece which at piece.now) (V.files volume.old)) }
    ensures durable { OnOk result (IfSome (V.files volume.new)
        (λ f. Leaves (V.may_leave volume.new) (λ c. file_of which c ≡ file_of which f))) }
    ensures stops { Leaves (V.may_leave volume.new)
        (After (OnFile which (Torn at (length piece.now))) (V.may_leave volume.old)) }
    ensures time { Adds (V.moment volume.old) (V.moment volume.new) (V.left_since volume.old)
        (V.left_since volume.new)
        (After (OnFile which (Torn at (length piece.now))) (V.may_leave volume.old))
        (HasShown (V.told volume.old)) }
    ensures frame { Stays V.told V.left V.fixed V.attached volume.old volume.new }
    ensures cause { IsCaused result (V.faults volume.old) (V.faults volume.new) }
{
    volume.write_at(which, at, piece)?;
    volume.sync(which)
}

/// Writes a batch to a log that is closed, and opens it once the batch is stable.
fn log_batch<V: Volume>(volume: &mut V, batch: &[u8]) -> Result<(), DeviceFault>
    requires attached { IsSome (V.attached volume.old) }
    requires end { 16 + length batch.now ≤ 2 ^ 62 }
    requires at_rest { IsAtRest (V.files volume.old) (V.may_leave volume.old) }
    ensures opened { OnOk result (V.files volume.new
        ≡ option_map (with_log (log_header 1 ++ batch.now)) (V.files volume.old)) }
    ensures durable { OnOk result (IsDurable (V.files volume.new) (V.may_leave volume.new)) }
    ensures stops { Leaves (V.may_leave volume.new)
        (Beside (V.files volume.old) (IsLogged (log_header 1 ++ batch.now))) }
    ensures time { Adds (V.moment volume.old) (V.moment volume.new) (V.left_since volume.old)
        (V.left_since volume.new)
        (Beside (V.files volume.old) (IsLogged (log_header 1 ++ batch.now)))
        (HasShown (V.told volume.old)) }
    ensures frame { Stays V.told V.left V.fixed V.attached volume.old volume.new }
    ensures cause { IsCaused result (V.faults volume.old) (V.faults volume.new) }
{
    write_synced(volume, Which::Log, HEADER, batch)?;
    write_synced(volume, Which::Log, GATE, &[1])?;
    Ok(())
}

/// Writes the pieces of a batch to the data file, each `shift` behind its place.
fn write_pieces<V: Volume>(volume: &mut V, batch: &Batch, shift: u64) -> Result<(), DeviceFault>
    requires attached { IsSome (V.attached volume.old) }
    requires end { shift + batch.now.size ≤ 2 ^ 60 + 16 }
    requires takes { IfSome (V.files volume.old) (λ f. CanTake header shift (length f.0) batch.now) }
    requires long { IfSome (V.files volume.old) (λ f. header ≤ length f.0) }
    requires within { IfSome (V.files volume.old) (λ f. length f.0 ≤ longest) }
    requires durable { IsDurable (V.files volume.old) (V.may_leave volume.old) }
    ensures written { OnOk result (V.files volume.new
        ≡ option_map (with_pieces shift batch.now.pieces) (V.files volume.old)) }
    ensures made { IsBatch batch.now }
    ensures stops { Leaves (V.may_leave volume.new)
        (Beside (V.files volume.old) (IsCompleted shift batch.now)) }
    ensures time { Adds (V.moment volume.old) (V.moment volume.new) (V.left_since volume.old)
        (V.left_since volume.new) (Beside (V.files volume.old) (IsCompleted shift batch.now))
        (HasShown (V.told volume.old)) }
    ensures frame { Stays V.told V.left V.fixed V.attached volume.old volume.new }
    ensures cause { IsCaused result (V.faults volume.old) (V.faults volume.new) }
{
    let pieces = batch.pieces();
    for piece in pieces {
        volume.write_at(Which::Data, shift + piece.place, piece.bytes.as_slice())?;
    }
    Ok(())
}

/// Carries a batch out on the data file, beside the open log that has it.
fn apply_batch<V: Volume>(volume: &mut V, batch: &Batch, shift: u64) -> Result<(), DeviceFault>
    requires attached { IsSome (V.attached volume.old) }
    requires end { shift + batch.now.size ≤ 2 ^ 60 + 16 }
    requires takes { IfSome (V.files volume.old) (λ f. CanTake header shift (length f.0) batch.now) }
    requires long { IfSome (V.files volume.old) (λ f. header ≤ length f.0) }
    requires within { IfSome (V.files volume.old) (λ f. length f.0 ≤ longest) }
    requires durable { IsDurable (V.files volume.old) (V.may_leave volume.old) }
    ensures applied { OnOk result (V.files volume.new
        ≡ option_map (with_batch shift batch.now) (V.files volume.old)) }
    ensures durable { OnOk result (IsDurable (V.files volume.new) (V.may_leave volume.new)) }
    ensures made { IsBatch batch.now }
    ensures stops { Leaves (V.may_leave volume.new)
        (Beside (V.files volume.old) (IsCompleted shift batch.now)) }
    ensures time { Adds (V.moment volume.old) (V.moment volume.new) (V.left_since volume.old)
        (V.left_since volume.new) (Beside (V.files volume.old) (IsCompleted shift batch.now))
        (HasShown (V.told volume.old)) }
    ensures frame { Stays V.told V.left V.fixed V.attached volume.old volume.new }
    ensures cause { IsCaused result (V.faults volume.old) (V.faults volume.new) }
{
    write_pieces(volume, batch, shift)?;
    volume.cut(Which::Data, shift + batch.length())?;
    volume.sync(Which::Data)?;
    Ok(())
}

/// Closes a log, and lets its batch go.
fn close_log<V: Volume>(volume: &mut V) -> Result<(), DeviceFault>
    requires attached { IsSome (V.attached volume.old) }
    requires magic { IfSome (V.files volume.old) (λ f. take 15 f.1 ≡ log_magic) }
    requires gate { IfSome (V.files volume.old) (λ f. get_or f.1 15 0 ≡ 1) }
    requires durable { IsDurable (V.files volume.old) (V.may_leave volume.old) }
    ensures closed { OnOk result (V.files volume.new
        ≡ option_map (with_log (log_header 0)) (V.files volume.old)) }
    ensures at_rest { OnOk result (IsAtRest (V.files volume.new) (V.may_leave volume.new)) }
    ensures stops { Leaves (V.may_leave volume.new)
        (Beside (V.files volume.old) (λ f c. IsLogged f.1 f c)) }
    ensures time { Adds (V.moment volume.old) (V.moment volume.new) (V.left_since volume.old)
        (V.left_since volume.new) (Beside (V.files volume.old) (λ f c. IsLogged f.1 f c))
        (HasShown (V.told volume.old)) }
    ensures frame { Stays V.told V.left V.fixed V.attached volume.old volume.new }
    ensures cause { IsCaused result (V.faults volume.old) (V.faults volume.new) }
{
    write_synced(volume, Which::Log, GATE, &[0])?;
    volume.cut(Which::Log, HEADER)?;
    Ok(())
}

/// Carries out the batch of a log that is open and stable, and closes the log.
pub(crate) fn finish_batch<V: Volume>(
    volume: &mut V,
    batch: &Batch,
    shift: u64,
) -> Result<(), DeviceFault>
    requires attached { IsSome (V.attached volume.old) }
    requires end { shift + batch.now.size ≤ 2 ^ 60 + 16 }
    requires takes { IfSome (V.files volume.old) (λ f. CanTake header shift (length f.0) batch.now) }
    requires long { IfSome (V.files volume.old) (λ f. header ≤ length f.0) }
    requires within { IfSome (V.files volume.old) (λ f. length f.0 ≤ longest) }
    requires open { IfSome (V.files volume.old) (λ f. IsOpenWith shift batch.now f.1) }
    requires durable { IsDurable (V.files volume.old) (V.may_leave volume.old) }
    ensures stored { OnOk result (V.files volume.new
        ≡ option_map (stored shift batch.now) (V.files volume.old)) }
    ensures at_rest { OnOk result (IsAtRest (V.files volume.new) (V.may_leave volume.new)) }
    ensures made { IsBatch batch.now }
    ensures stops { Leaves (V.may_leave volume.new)
        (Beside (V.files volume.old) (IsNew shift batch.now)) }
    ensures time { Adds (V.moment volume.old) (V.moment volume.new) (V.left_since volume.old)
        (V.left_since volume.new) (Beside (V.files volume.old) (IsNew shift batch.now))
        (HasShown (V.told volume.old)) }
    ensures frame { Stays V.told V.left V.fixed V.attached volume.old volume.new }
    ensures cause { IsCaused result (V.faults volume.old) (V.faults volume.new) }
{
    apply_batch(volume, batch, shift)?;
    close_log(volume)?;
    Ok(())
}

/// Commits a batch to two files at rest, of which `spelled` are the bytes in the log.
pub(crate) fn store_batch<V: Volume>(
    volume: &mut V,
    batch: &Batch,
    shift: u64,
    spelled: &[u8],
) -> Result<(), DeviceFault>
    requires attached { IsSome (V.attached volume.old) }
    requires made { IsBatch batch.now }
    requires end { shift + batch.now.size ≤ 2 ^ 60 + 16 }
    requires spelled { spelled.now ≡ batch_bytes shift batch.now }
    requires takes { IfSome (V.files volume.old) (λ f. CanTake header shift (length f.0) batch.now) }
    requires long { IfSome (V.files volume.old) (λ f. header ≤ length f.0) }
    requires within { IfSome (V.files volume.old) (λ f. length f.0 ≤ longest) }
    requires at_rest { IsAtRest (V.files volume.old) (V.may_leave volume.old) }
    ensures stored { OnOk result (V.files volume.new
        ≡ option_map (stored shift batch.now) (V.files volume.old)) }
    ensures at_rest { OnOk result (IsAtRest (V.files volume.new) (V.may_leave volume.new)) }
    ensures stops { Leaves (V.may_leave volume.new)
        (Beside (V.files volume.old) (IsOldOrNew shift batch.now)) }
    ensures stops_new { OnOk result (Leaves (V.may_leave volume.new)
        (Beside (V.files volume.old) (IsNew shift batch.now))) }
    ensures time { Adds (V.moment volume.old) (V.moment volume.new) (V.left_since volume.old)
        (V.left_since volume.new) (Beside (V.files volume.old) (IsOldOrNew shift batch.now))
        (HasShown (V.told volume.old)) }
    ensures frame { Stays V.told V.left V.fixed V.attached volume.old volume.new }
    ensures cause { IsCaused result (V.faults volume.old) (V.faults volume.new) }
{
    log_batch(volume, spelled)?;
    finish_batch(volume, batch, shift)?;
    Ok(())
}
