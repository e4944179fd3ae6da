//! Opening two files on a machine in memory, and what they hold then.
ghost use Rattle.std.specs.Prelude.{◌≡◌, ◌+◌, ◌^◌, ◌≤◌, true, None, IfOk, IsTrue};

use crate::text::{add, add_sum};
use lldb_base::{BaseFiler, Refused};
use lldb_wal::{WalFault, WalFiler};
use ql_edge::{Bytes, MemMachine, MemPlan, NoMemory, Numbers, Volume};
use std::alloc::Global;

const MAGIC: [u8; 16] = *b"QL lldb database";

/// How long a data file in memory may become.
pub(crate) const LIMIT: u64 = 300_000;

/// A machine with two files, both stored, on which some calls fail.
pub(crate) fn make_machine(
    alloc: Global,
    data_bytes: Bytes,
    log_bytes: Bytes,
    fails: Numbers,
) -> Result<MemMachine, NoMemory>
    ensures { IfOk result (λ m. ⟦<MemMachine as Volume>⟧.attached m ≡ None) }
{
    let plan = MemPlan {
        fails,
        read_most: 1,
        show_total: None,
    };
    MemMachine::new(alloc, data_bytes, log_bytes, Bytes::new(alloc), plan)
}

/// Attaches two files, and opens them.
pub(crate) fn open<V: Volume>(
    alloc: Global,
    volume: V,
    name: &str,
    limit: u64,
) -> Result<WalFiler<V>, Refused<V, WalFault>>
    requires attached { V.attached volume ≡ None }
    requires limit { limit ≤ 2 ^ 60 + 16 }
    ensures { IfOk result (λ f. IsTrue (⟦<WalFiler<V> as BaseFiler>⟧.is_sound f)) }
{
    let mut volume = volume;
    match volume.attach(alloc, name) {
        Ok(()) => WalFiler::open_on(alloc, volume, MAGIC, limit),
        Err(fault) => Err(Refused {
            below: volume,
            fault: WalFault::from(fault),
        }),
    }
}

/// Adds why files were not opened.
pub(crate) fn add_fault(alloc: Global, text: &mut String, fault: WalFault) -> Result<(), NoMemory> {
    match fault {
        WalFault::NotDatabase => add(text, " not_database"),
        WalFault::BadLog { at } => {
            let more = format!(in alloc; " bad_log:{at}")?;
            add(text, more.as_str())
        }
        WalFault::Failed => add(text, " failed"),
        WalFault::NoMemory => add(text, " no_memory"),
    }
}

/// Adds the sum of all that a filer holds.
fn add_content(
    alloc: Global,
    text: &mut String,
    filer: &mut WalFiler<MemMachine>,
) -> Result<(), NoMemory>
    requires { IsTrue (⟦<WalFiler<MemMachine> as BaseFiler>⟧.is_sound filer.old) }
{
    let mut bytes = vec![in alloc; 0; filer.size() as usize]?;
    match filer.read_at(0, &mut bytes) {
        Ok(()) => add_sum(alloc, text, &bytes),
        Err(_) => add(text, " unread"),
    }
}

/// Adds the sums of both files of a machine.
pub(crate) fn add_files(
    alloc: Global,
    text: &mut String,
    machine: &MemMachine,
) -> Result<(), NoMemory> {
    add_sum(alloc, text, machine.data_bytes().as_slice())?;
    add_sum(alloc, text, machine.log_bytes().as_slice())
}

/// Opens two files on a machine of their own, adds what they hold and are then, and gives the machine.
fn reopen(
    alloc: Global,
    text: &mut String,
    data_bytes: Bytes,
    log_bytes: Bytes,
) -> Result<MemMachine, NoMemory> {
    let machine = make_machine(alloc, data_bytes, log_bytes, Numbers::new(alloc))?;
    let below = match open(alloc, machine, "db", LIMIT) {
        Ok(mut filer) => {
            add_content(alloc, text, &mut filer)?;
            filer.into_below()
        }
        Err(refused) => {
            add_fault(alloc, text, refused.fault)?;
            refused.below
        }
    };
    add_files(alloc, text, &below)?;
    Ok(below)
}

/// Opens two files, and then what this leaves of them, each on a machine of their own.
pub(crate) fn reopen_twice(
    alloc: Global,
    text: &mut String,
    data_bytes: Bytes,
    log_bytes: Bytes,
) -> Result<(), NoMemory> {
    let once = reopen(alloc, text, data_bytes, log_bytes)?;
    let data_bytes = Bytes::from_slice(alloc, once.data_bytes().as_slice())?;
    let log_bytes = Bytes::from_slice(alloc, once.log_bytes().as_slice())?;
    reopen(alloc, text, data_bytes, log_bytes)?;
    Ok(())
}
