//! Two files that are brought to rest when they are opened.
ghost use Rattle.std.specs.Prelude.{◌≡◌, ◌+◌, ◌^◌, ◌≤◌, length, option_map, IsSome, IfSome, IfOk, OnOk};
ghost use Rattle.ql_edge.specs.Cause.{IsCaused};
ghost use Rattle.ql_edge.specs.Frame.{Stays};
ghost use Rattle.ql_edge.specs.Stops.{Leaves, Adds, HasShown};
ghost use Rattle.lldb_wal.specs.Filer.{IsStored, data_of};
ghost use Rattle.lldb_wal.specs.Kept.{Beside, IsDurable, IsAtRest};
ghost use Rattle.lldb_wal.specs.Opened.{IsSameKept, opened_data, settled};
ghost use Rattle.lldb_wal.specs.Opening.{opening};
ghost use Rattle.lldb_wal.specs.Fault.{IsCausedFault, Judges, Unwritten};
ghost use Rattle.lldb_wal.specs.declared.state.Opening.TheVariants.{New, Closed, Open};

use crate::commit::finish_batch;
use crate::creation::create;
use crate::fields::LONGEST;
use crate::tidying::tidy_log;
use crate::two_files::read_files;
use crate::{Opening, WalFault};
use lldb_base::Batch;
use ql_edge::{DeviceFault, Volume, Which};
use std::alloc::Global;

/// Carries out the batch of an open log that was read, and closes the log.
///
/// Where bytes are told no batch is too long for the data file.
#[tactic(auto, using(crate::proofs::Settled::same_self, crate::proofs::Times::adds_none))]
fn recover<V: Volume>(volume: &mut V, magic: &[u8; 16], batch: &Batch) -> Result<(), DeviceFault>
    requires attached { IsSome (V.attached volume.old) }
    requires sixteen { length magic.now ≡ 16 }
    requires found { IfSome (V.files volume.old)
        (λ f. opening magic.now f.0 f.1 ≡ Open batch.now) }
    requires durable { IsDurable (V.files volume.old) (V.may_leave volume.old) }
    ensures settled { OnOk result (V.files volume.new
        ≡ option_map (settled magic.now) (V.files volume.old)) }
    ensures at_rest { OnOk result (IsAtRest (V.files volume.new) (V.may_leave volume.new)) }
    ensures stops { Leaves (V.may_leave volume.new)
        (Beside (V.files volume.old) (IsSameKept magic.now)) }
    ensures time { Adds (V.moment volume.old) (V.moment volume.new) (V.left_since volume.old)
        (V.left_since volume.new) (Beside (V.files volume.old) (IsSameKept magic.now))
        (HasShown (V.told volume.old)) }
    ensures frame { Stays V.told V.left V.fixed V.attached volume.old volume.new }
    ensures cause { IsCaused result (V.faults volume.old) (V.faults volume.new) }
{
    let end = batch.length();
    if end > LONGEST {
        return Err(DeviceFault::NoMemory);
    }
    finish_batch(volume, batch, 0)?;
    Ok(())
}

/// Makes the log its closed header, beside a data file that is all.
fn close<V: Volume>(alloc: Global, volume: &mut V, magic: &[u8; 16]) -> Result<(), DeviceFault>
    requires attached { IsSome (V.attached volume.old) }
    requires sixteen { length magic.now ≡ 16 }
    requires found { IfSome (V.files volume.old) (λ f. opening magic.now f.0 f.1 ≡ Closed) }
    requires durable { IsDurable (V.files volume.old) (V.may_leave volume.old) }
    ensures settled { OnOk result (V.files volume.new
        ≡ option_map (settled magic.now) (V.files volume.old)) }
    ensures at_rest { OnOk result (IsAtRest (V.files volume.new) (V.may_leave volume.new)) }
    ensures stops { Leaves (V.may_leave volume.new)
        (Beside (V.files volume.old) (IsSameKept magic.now)) }
    ensures time { Adds (V.moment volume.old) (V.moment volume.new) (V.left_since volume.old)
        (V.left_since volume.new) (Beside (V.files volume.old) (IsSameKept magic.now))
        (HasShown (V.told volume.old)) }
    ensures frame { Stays V.told V.left V.fixed V.attached volume.old volume.new }
    ensures cause { IsCaused result (V.faults volume.old) (V.faults volume.new) }
{
    tidy_log(alloc, volume)?;
    Ok(())
}

/// Makes a database of two files that are new.
fn make<V: Volume>(alloc: Global, volume: &mut V, magic: &[u8; 16]) -> Result<(), DeviceFault>
    requires attached { IsSome (V.attached volume.old) }
    requires sixteen { length magic.now ≡ 16 }
    requires found { IfSome (V.files volume.old) (λ f. opening magic.now f.0 f.1 ≡ New) }
    requires durable { IsDurable (V.files volume.old) (V.may_leave volume.old) }
    ensures settled { OnOk result (V.files volume.new
        ≡ option_map (settled magic.now) (V.files volume.old)) }
    ensures at_rest { OnOk result (IsAtRest (V.files volume.new) (V.may_leave volume.new)) }
    ensures stops { Leaves (V.may_leave volume.new)
        (Beside (V.files volume.old) (IsSameKept magic.now)) }
    ensures time { Adds (V.moment volume.old) (V.moment volume.new) (V.left_since volume.old)
        (V.left_since volume.new) (Beside (V.files volume.old) (IsSameKept magic.now))
        (HasShown (V.told volume.old)) }
    ensures frame { Stays V.told V.left V.fixed V.attached volume.old volume.new }
    ensures cause { IsCaused result (V.faults volume.old) (V.faults volume.new) }
{
    create(alloc, volume, magic)?;
    Ok(())
}

/// Brings two files to rest, by what they were found to be.
#[tactic(auto, using(crate::proofs::Opened::judges_device, crate::proofs::Opened::unwritten_device))]
fn carry_out<V: Volume>(
    alloc: Global,
    volume: &mut V,
    magic: &[u8; 16],
    found: Opening,
) -> Result<(), WalFault>
    requires attached { IsSome (V.attached volume.old) }
    requires sixteen { length magic.now ≡ 16 }
    requires found { IfSome (V.files volume.old) (λ f. found ≡ opening magic.now f.0 f.1) }
    requires durable { IsDurable (V.files volume.old) (V.may_leave volume.old) }
    ensures settled { OnOk result (V.files volume.new
        ≡ option_map (settled magic.now) (V.files volume.old)) }
    ensures at_rest { OnOk result (IsAtRest (V.files volume.new) (V.may_leave volume.new)) }
    ensures judges { Judges magic.now (V.files volume.old) result }
    ensures unwritten { Unwritten result (V.same volume.old volume.new) }
    ensures stops { Leaves (V.may_leave volume.new)
        (Beside (V.files volume.old) (IsSameKept magic.now)) }
    ensures time { Adds (V.moment volume.old) (V.moment volume.new) (V.left_since volume.old)
        (V.left_since volume.new) (Beside (V.files volume.old) (IsSameKept magic.now))
        (HasShown (V.told volume.old)) }
    ensures frame { Stays V.told V.left V.fixed V.attached volume.old volume.new }
    ensures cause { IsCausedFault result (V.faults volume.old) (V.faults volume.new) }
{
    match found {
        Opening::New => {
            make(alloc, volume, magic)?;
            Ok(())
        }
        Opening::Closed => {
            close(alloc, volume, magic)?;
            Ok(())
        }
        Opening::Open(batch) => {
            recover(volume, magic, &batch)?;
            Ok(())
        }
        Opening::NotDatabase => Err(WalFault::NotDatabase),
        Opening::BadLog { at } => Err(WalFault::BadLog { at }),
    }
}

/// Brings two files of which a stop leaves what is read to rest: creates, recovers, or closes the log.
#[tactic(auto, using(crate::proofs::Opened::judges_device, crate::proofs::Opened::unwritten_device))]
fn settle<V: Volume>(alloc: Global, volume: &mut V, magic: &[u8; 16]) -> Result<(), WalFault>
    requires attached { IsSome (V.attached volume.old) }
    requires sixteen { length magic.now ≡ 16 }
    requires durable { IsDurable (V.files volume.old) (V.may_leave volume.old) }
    ensures settled { OnOk result (V.files volume.new
        ≡ option_map (settled magic.now) (V.files volume.old)) }
    ensures at_rest { OnOk result (IsAtRest (V.files volume.new) (V.may_leave volume.new)) }
    ensures judges { Judges magic.now (V.files volume.old) result }
    ensures unwritten { Unwritten result (V.same volume.old volume.new) }
    ensures stops { Leaves (V.may_leave volume.new)
        (Beside (V.files volume.old) (IsSameKept magic.now)) }
    ensures time { Adds (V.moment volume.old) (V.moment volume.new) (V.left_since volume.old)
        (V.left_since volume.new) (Beside (V.files volume.old) (IsSameKept magic.now))
        (HasShown (V.told volume.old)) }
    ensures frame { Stays V.told V.left V.fixed V.attached volume.old volume.new }
    ensures cause { IsCausedFault result (V.faults volume.old) (V.faults volume.new) }
{
    let found = read_files(alloc, volume, magic)?;
    carry_out(alloc, volume, magic, found)
}

/// Brings two files to rest, and answers the size of the data file.
#[tactic(auto, using(crate::proofs::Opened::judges_device, crate::proofs::Opened::unwritten_device))]
pub(crate) fn open_size<V: Volume>(
    alloc: Global,
    volume: &mut V,
    magic: &[u8; 16],
) -> Result<u64, WalFault>
    requires attached { IsSome (V.attached volume.old) }
    requires sixteen { length magic.now ≡ 16 }
    requires durable { IsDurable (V.files volume.old) (V.may_leave volume.old) }
    ensures content { IfOk result (λ _. option_map data_of (V.files volume.new)
        ≡ option_map (opened_data magic.now) (V.files volume.old)) }
    ensures stored { IfOk result (λ size. IsStored magic.now size (V.files volume.new)) }
    ensures within { IfOk result (λ size. size ≤ 2 ^ 60 + 16) }
    ensures at_rest { IfOk result (λ _. IsAtRest (V.files volume.new) (V.may_leave volume.new)) }
    ensures judges { Judges magic.now (V.files volume.old) result }
    ensures unwritten { Unwritten result (V.same volume.old volume.new) }
    ensures stops { Leaves (V.may_leave volume.new)
        (Beside (V.files volume.old) (IsSameKept magic.now)) }
    ensures time { Adds (V.moment volume.old) (V.moment volume.new) (V.left_since volume.old)
        (V.left_since volume.new) (Beside (V.files volume.old) (IsSameKept magic.now))
        (HasShown (V.told volume.old)) }
    ensures frame { Stays V.told V.left V.fixed V.attached volume.old volume.new }
    ensures cause { IsCausedFault result (V.faults volume.old) (V.faults volume.new) }
{
    settle(alloc, volume, magic)?;
    let size = volume.length(Which::Data)?;
    if size > LONGEST {
        return Err(WalFault::NoMemory);
    }
    Ok(size)
}
