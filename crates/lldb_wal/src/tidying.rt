//! A closed log that becomes its header.
ghost use Rattle.std.specs.Prelude.{◌≡◌, ◌<◌, ◌≤◌, length, take, true, option_map, IsSome, IfSome, OnOk};
ghost use Rattle.ql_edge.specs.Cause.{IsCaused};
ghost use Rattle.ql_edge.specs.Disk.{with_piece, with_cut};
ghost use Rattle.ql_edge.specs.Frame.{Stays};
ghost use Rattle.ql_edge.specs.Stops.{Leaves, Adds, HasShown};
ghost use Rattle.ql_edge.specs.declared.volume.Which.TheVariants as which;
ghost use Rattle.lldb_wal.specs.Kept.{Beside, IsDurable, IsAtRest, with_log};
ghost use Rattle.lldb_wal.specs.Opened.{IsClosedLog, IsTidied};
ghost use Rattle.lldb_wal.specs.Spelling.{log_header};

use crate::commit::write_synced;
use crate::fields::HEADER;
use crate::header::HEAD;
use crate::two_files::read_front;
use ql_edge::{DeviceFault, Volume, Which};
use std::alloc::Global;

/// The first 16 bytes of a log that is closed.
pub(crate) const CLOSED: [u8; 16] = *b"QL lldb log fmt\0";

/// Cuts a closed log that is long enough for a batch to its first 16 bytes.
fn shorten_log<V: Volume>(volume: &mut V) -> Result<(), DeviceFault>
    requires attached { IsSome (V.attached volume.old) }
    requires closed { IfSome (V.files volume.old) (λ f. IsClosedLog f.1) }
    requires long { IfSome (V.files volume.old) (λ f. 32 ≤ length f.1) }
    requires durable { IsDurable (V.files volume.old) (V.may_leave volume.old) }
    ensures cut { OnOk result (V.files volume.new
        ≡ option_map (with_cut which.Log 16) (V.files volume.old)) }
    ensures durable { OnOk result (IsDurable (V.files volume.new) (V.may_leave volume.new)) }
    ensures stops { Leaves (V.may_leave volume.new) (Beside (V.files volume.old) IsTidied) }
    ensures time { Adds (V.moment volume.old) (V.moment volume.new) (V.left_since volume.old)
        (V.left_since volume.new) (Beside (V.files volume.old) IsTidied)
        (HasShown (V.told volume.old)) }
    ensures frame { Stays V.told V.left V.fixed V.attached volume.old volume.new }
    ensures cause { IsCaused result (V.faults volume.old) (V.faults volume.new) }
{
    volume.cut(Which::Log, HEADER)?;
    volume.sync(Which::Log)?;
    Ok(())
}

/// Writes the closed header to a log that is too short for a batch.
fn write_header<V: Volume>(volume: &mut V) -> Result<(), DeviceFault>
    requires attached { IsSome (V.attached volume.old) }
    requires short { IfSome (V.files volume.old) (λ f. length f.1 < 32) }
    requires durable { IsDurable (V.files volume.old) (V.may_leave volume.old) }
    ensures written { OnOk result (V.files volume.new
        ≡ option_map (with_piece which.Log 0 (log_header 0)) (V.files volume.old)) }
    ensures durable { OnOk result (IsDurable (V.files volume.new) (V.may_leave volume.new)) }
    ensures stops { Leaves (V.may_leave volume.new) (Beside (V.files volume.old) IsTidied) }
    ensures time { Adds (V.moment volume.old) (V.moment volume.new) (V.left_since volume.old)
        (V.left_since volume.new) (Beside (V.files volume.old) IsTidied)
        (HasShown (V.told volume.old)) }
    ensures frame { Stays V.told V.left V.fixed V.attached volume.old volume.new }
    ensures cause { IsCaused result (V.faults volume.old) (V.faults volume.new) }
{
    write_synced(volume, Which::Log, 0, &CLOSED)?;
    Ok(())
}

/// Makes a closed log that is long enough for a batch its closed header. `named` says whether it begins so.
fn tidy_long<V: Volume>(volume: &mut V, named: bool) -> Result<(), DeviceFault>
    requires attached { IsSome (V.attached volume.old) }
    requires closed { IfSome (V.files volume.old) (λ f. IsClosedLog f.1) }
    requires long { IfSome (V.files volume.old) (λ f. 32 ≤ length f.1) }
    requires named { named ≡ true → IfSome (V.files volume.old)
        (λ f. take 16 f.1 ≡ log_header 0) }
    requires durable { IsDurable (V.files volume.old) (V.may_leave volume.old) }
    ensures tidied { OnOk result (V.files volume.new
        ≡ option_map (with_log (log_header 0)) (V.files volume.old)) }
    ensures at_rest { OnOk result (IsAtRest (V.files volume.new) (V.may_leave volume.new)) }
    ensures stops { Leaves (V.may_leave volume.new) (Beside (V.files volume.old) IsTidied) }
    ensures time { Adds (V.moment volume.old) (V.moment volume.new) (V.left_since volume.old)
        (V.left_since volume.new) (Beside (V.files volume.old) IsTidied)
        (HasShown (V.told volume.old)) }
    ensures frame { Stays V.told V.left V.fixed V.attached volume.old volume.new }
    ensures cause { IsCaused result (V.faults volume.old) (V.faults volume.new) }
{
    shorten_log(volume)?;
    if named {
        return Ok(());
    }
    write_header(volume)?;
    Ok(())
}

/// Makes a log that is too short for a batch its closed header.
fn tidy_short<V: Volume>(volume: &mut V) -> Result<(), DeviceFault>
    requires attached { IsSome (V.attached volume.old) }
    requires short { IfSome (V.files volume.old) (λ f. length f.1 < 32) }
    requires durable { IsDurable (V.files volume.old) (V.may_leave volume.old) }
    ensures tidied { OnOk result (V.files volume.new
        ≡ option_map (with_log (log_header 0)) (V.files volume.old)) }
    ensures at_rest { OnOk result (IsAtRest (V.files volume.new) (V.may_leave volume.new)) }
    ensures stops { Leaves (V.may_leave volume.new) (Beside (V.files volume.old) IsTidied) }
    ensures time { Adds (V.moment volume.old) (V.moment volume.new) (V.left_since volume.old)
        (V.left_since volume.new) (Beside (V.files volume.old) IsTidied)
        (HasShown (V.told volume.old)) }
    ensures frame { Stays V.told V.left V.fixed V.attached volume.old volume.new }
    ensures cause { IsCaused result (V.faults volume.old) (V.faults volume.new) }
{
    write_header(volume)?;
    volume.cut(Which::Log, HEADER)?;
    Ok(())
}

/// Whether a log of a length is its closed header, by its first 16 bytes, or all of a shorter one.
fn is_header(length: u64, front: &[u8]) -> bool
    ensures long { result ≡ true → length ≡ 16 }
    ensures named { result ≡ true → front.now ≡ log_header 0 }
{
    length == HEADER && front == CLOSED.as_slice()
}

/// Whether bytes are the closed header of a log.
fn is_named(front: &[u8]) -> bool
    ensures { result ≡ true → front.now ≡ log_header 0 }
{
    front == CLOSED.as_slice()
}

/// Makes a closed log of a length its closed header, where it is not that. `front` are its first 16 bytes, or all.
fn tidy_by<V: Volume>(volume: &mut V, size: u64, front: &[u8]) -> Result<(), DeviceFault>
    requires attached { IsSome (V.attached volume.old) }
    requires length { IfSome (V.files volume.old) (λ f. length f.1 ≡ size) }
    requires front { IfSome (V.files volume.old) (λ f. front.now ≡ take 16 f.1) }
    requires closed { IfSome (V.files volume.old) (λ f. IsClosedLog f.1) }
    requires durable { IsDurable (V.files volume.old) (V.may_leave volume.old) }
    ensures tidied { OnOk result (V.files volume.new
        ≡ option_map (with_log (log_header 0)) (V.files volume.old)) }
    ensures at_rest { OnOk result (IsAtRest (V.files volume.new) (V.may_leave volume.new)) }
    ensures stops { Leaves (V.may_leave volume.new) (Beside (V.files volume.old) IsTidied) }
    ensures time { Adds (V.moment volume.old) (V.moment volume.new) (V.left_since volume.old)
        (V.left_since volume.new) (Beside (V.files volume.old) IsTidied)
        (HasShown (V.told volume.old)) }
    ensures frame { Stays V.told V.left V.fixed V.attached volume.old volume.new }
    ensures cause { IsCaused result (V.faults volume.old) (V.faults volume.new) }
{
    if size >= HEAD {
        return tidy_long(volume, is_named(front));
    }
    if is_header(size, front) {
        return Ok(());
    }
    tidy_short(volume)
}

/// Makes a closed log its closed header, where it is not that.
pub(crate) fn tidy_log<V: Volume>(alloc: Global, volume: &mut V) -> Result<(), DeviceFault>
    requires attached { IsSome (V.attached volume.old) }
    requires closed { IfSome (V.files volume.old) (λ f. IsClosedLog f.1) }
    requires durable { IsDurable (V.files volume.old) (V.may_leave volume.old) }
    ensures tidied { OnOk result (V.files volume.new
        ≡ option_map (with_log (log_header 0)) (V.files volume.old)) }
    ensures at_rest { OnOk result (IsAtRest (V.files volume.new) (V.may_leave volume.new)) }
    ensures stops { Leaves (V.may_leave volume.new) (Beside (V.files volume.old) IsTidied) }
    ensures time { Adds (V.moment volume.old) (V.moment volume.new) (V.left_since volume.old)
        (V.left_since volume.new) (Beside (V.files volume.old) IsTidied)
        (HasShown (V.told volume.old)) }
    ensures frame { Stays V.told V.left V.fixed V.attached volume.old volume.new }
    ensures cause { IsCaused result (V.faults volume.old) (V.faults volume.new) }
{
    let log = read_front(alloc, volume, Which::Log, HEADER)?;
    tidy_by(volume, log.length, &log.bytes)?;
    Ok(())
}
