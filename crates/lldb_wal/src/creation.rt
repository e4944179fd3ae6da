//! A database that is made.
ghost use Rattle.std.specs.Prelude.{◌≡◌, ◌≤◌, length, option_map, IsSome, IfSome, OnOk};
ghost use Rattle.ql_edge.specs.Cause.{IsCaused};
ghost use Rattle.ql_edge.specs.Frame.{Stays};
ghost use Rattle.ql_edge.specs.Stops.{Leaves, Adds, HasShown};
ghost use Rattle.lldb_wal.specs.Kept.{Beside, IsDurable, IsAtRest, with_log};
ghost use Rattle.lldb_wal.specs.Opened.{IsCreated, IsSameData, IsUnmade, created, with_data};
ghost use Rattle.lldb_wal.specs.Opening.{opening};
ghost use Rattle.lldb_wal.specs.Spelling.{log_header};
ghost use Rattle.lldb_wal.specs.declared.state.Opening.TheVariants.{New};

use crate::commit::write_synced;
use crate::fields::HEADER;
use crate::tidying::{CLOSED, tidy_log};
use ql_edge::{DeviceFault, Volume, Which};
use std::alloc::Global;

/// Makes the log its closed header, whatever it holds.
fn make_log<V: Volume>(volume: &mut V) -> Result<(), DeviceFault>
    requires attached { IsSome (V.attached volume.old) }
    requires durable { IsDurable (V.files volume.old) (V.may_leave volume.old) }
    ensures made { OnOk result (V.files volume.new
        ≡ option_map (with_log (log_header 0)) (V.files volume.old)) }
    ensures durable { OnOk result (IsDurable (V.files volume.new) (V.may_leave volume.new)) }
    ensures stops { Leaves (V.may_leave volume.new) (Beside (V.files volume.old) IsSameData) }
    ensures time { Adds (V.moment volume.old) (V.moment volume.new) (V.left_since volume.old)
        (V.left_since volume.new) (Beside (V.files volume.old) IsSameData)
        (HasShown (V.told volume.old)) }
    ensures frame { Stays V.told V.left V.fixed V.attached volume.old volume.new }
    ensures cause { IsCaused result (V.faults volume.old) (V.faults volume.new) }
{
    volume.write_at(Which::Log, 0, &CLOSED)?;
    volume.cut(Which::Log, HEADER)?;
    volume.sync(Which::Log)?;
    Ok(())
}

/// Writes the magic to a data file that has no more bytes, beside a log that is fresh.
fn write_magic<V: Volume>(volume: &mut V, magic: &[u8; 16]) -> Result<(), DeviceFault>
    requires attached { IsSome (V.attached volume.old) }
    requires sixteen { length magic.now ≡ 16 }
    requires unmade { IfSome (V.files volume.old) IsUnmade }
    requires durable { IsDurable (V.files volume.old) (V.may_leave volume.old) }
    ensures written { OnOk result (V.files volume.new
        ≡ option_map (with_data magic.now) (V.files volume.old)) }
    ensures durable { OnOk result (IsDurable (V.files volume.new) (V.may_leave volume.new)) }
    ensures stops { Leaves (V.may_leave volume.new) (Beside (V.files volume.old) (IsCreated magic.now)) }
    ensures time { Adds (V.moment volume.old) (V.moment volume.new) (V.left_since volume.old)
        (V.left_since volume.new) (Beside (V.files volume.old) (IsCreated magic.now))
        (HasShown (V.told volume.old)) }
    ensures frame { Stays V.told V.left V.fixed V.attached volume.old volume.new }
    ensures cause { IsCaused result (V.faults volume.old) (V.faults volume.new) }
{
    write_synced(volume, Which::Data, 0, magic.as_slice())?;
    Ok(())
}

/// Makes a database of a data file without bytes.
fn create_empty<V: Volume>(volume: &mut V, magic: &[u8; 16]) -> Result<(), DeviceFault>
    requires attached { IsSome (V.attached volume.old) }
    requires sixteen { length magic.now ≡ 16 }
    requires empty { IfSome (V.files volume.old) (λ f. length f.0 ≡ 0) }
    requires durable { IsDurable (V.files volume.old) (V.may_leave volume.old) }
    ensures created { OnOk result (V.files volume.new
        ≡ option_map (created magic.now) (V.files volume.old)) }
    ensures at_rest { OnOk result (IsAtRest (V.files volume.new) (V.may_leave volume.new)) }
    ensures stops { Leaves (V.may_leave volume.new) (Beside (V.files volume.old) (IsCreated magic.now)) }
    ensures time { Adds (V.moment volume.old) (V.moment volume.new) (V.left_since volume.old)
        (V.left_since volume.new) (Beside (V.files volume.old) (IsCreated magic.now))
        (HasShown (V.told volume.old)) }
    ensures frame { Stays V.told V.left V.fixed V.attached volume.old volume.new }
    ensures cause { IsCaused result (V.faults volume.old) (V.faults volume.new) }
{
    make_log(volume)?;
    write_magic(volume, magic)?;
    Ok(())
}

/// Makes a database of what was left of one in the making.
fn complete<V: Volume>(alloc: Global, volume: &mut V, magic: &[u8; 16]) -> Result<(), DeviceFault>
    requires attached { IsSome (V.attached volume.old) }
    requires sixteen { length magic.now ≡ 16 }
    requires unmade { IfSome (V.files volume.old) IsUnmade }
    requires durable { IsDurable (V.files volume.old) (V.may_leave volume.old) }
    ensures created { OnOk result (V.files volume.new
        ≡ option_map (created magic.now) (V.files volume.old)) }
    ensures at_rest { OnOk result (IsAtRest (V.files volume.new) (V.may_leave volume.new)) }
    ensures stops { Leaves (V.may_leave volume.new) (Beside (V.files volume.old) (IsCreated magic.now)) }
    ensures time { Adds (V.moment volume.old) (V.moment volume.new) (V.left_since volume.old)
        (V.left_since volume.new) (Beside (V.files volume.old) (IsCreated magic.now))
        (HasShown (V.told volume.old)) }
    ensures frame { Stays V.told V.left V.fixed V.attached volume.old volume.new }
    ensures cause { IsCaused result (V.faults volume.old) (V.faults volume.new) }
{
    write_magic(volume, magic)?;
    tidy_log(alloc, volume)?;
    Ok(())
}

/// Makes a database of two files that are new, of which the data file has a size.
fn create_by<V: Volume>(
    alloc: Global,
    volume: &mut V,
    magic: &[u8; 16],
    size: u64,
) -> Result<(), DeviceFault>
    requires attached { IsSome (V.attached volume.old) }
    requires sixteen { length magic.now ≡ 16 }
    requires size { IfSome (V.files volume.old) (λ f. size ≡ length f.0) }
    requires found { IfSome (V.files volume.old) (λ f. opening magic.now f.0 f.1 ≡ New) }
    requires durable { IsDurable (V.files volume.old) (V.may_leave volume.old) }
    ensures created { OnOk result (V.files volume.new
        ≡ option_map (created magic.now) (V.files volume.old)) }
    ensures at_rest { OnOk result (IsAtRest (V.files volume.new) (V.may_leave volume.new)) }
    ensures stops { Leaves (V.may_leave volume.new) (Beside (V.files volume.old) (IsCreated magic.now)) }
    ensures time { Adds (V.moment volume.old) (V.moment volume.new) (V.left_since volume.old)
        (V.left_since volume.new) (Beside (V.files volume.old) (IsCreated magic.now))
        (HasShown (V.told volume.old)) }
    ensures frame { Stays V.told V.left V.fixed V.attached volume.old volume.new }
    ensures cause { IsCaused result (V.faults volume.old) (V.faults volume.new) }
{
    if size == 0 {
        return create_empty(volume, magic);
    }
    complete(alloc, volume, magic)
}

/// Makes a database of two files that are new.
pub(crate) fn create<V: Volume>(
    alloc: Global,
    volume: &mut V,
    magic: &[u8; 16],
) -> Result<(), DeviceFault>
    requires attached { IsSome (V.attached volume.old) }
    requires sixteen { length magic.now ≡ 16 }
    requires found { IfSome (V.files volume.old) (λ f. opening magic.now f.0 f.1 ≡ New) }
    requires durable { IsDurable (V.files volume.old) (V.may_leave volume.old) }
    ensures created { OnOk result (V.files volume.new
        ≡ option_map (created magic.now) (V.files volume.old)) }
    ensures at_rest { OnOk result (IsAtRest (V.files volume.new) (V.may_leave volume.new)) }
    ensures stops { Leaves (V.may_leave volume.new) (Beside (V.files volume.old) (IsCreated magic.now)) }
    ensures time { Adds (V.moment volume.old) (V.moment volume.new) (V.left_since volume.old)
        (V.left_since volume.new) (Beside (V.files volume.old) (IsCreated magic.now))
        (HasShown (V.told volume.old)) }
    ensures frame { Stays V.told V.left V.fixed V.attached volume.old volume.new }
    ensures cause { IsCaused result (V.faults volume.old) (V.faults volume.new) }
{
    let size = volume.length(Which::Data)?;
    create_by(alloc, volume, magic, size)?;
    Ok(())
}
