//! What the tests make, and how what a run leaves is compared.
ghost use Rattle.std.specs.Prelude.{◌<◌};

use ql_edge::{Bytes, MemMachine, MemPlan, NoMemory, Numbers};
use ql_shell::{code, run};
use std::alloc::Global;
use std::process::Abort;

pub fn bytes(alloc: Global, text: &[u8]) -> Result<Bytes, NoMemory> {
    let mut made = Bytes::new(alloc);
    made.extend(text)?;
    Ok(made)
}

/// A machine with these files, on which nothing fails.
pub fn with_files(alloc: Global, data: &[u8], log: &[u8]) -> Result<MemMachine, NoMemory> {
    let data = bytes(alloc, data)?;
    let log = bytes(alloc, log)?;
    let plan = MemPlan {
        fails: Numbers::new(alloc),
        read_most: 1,
        show_total: None,
    };
    MemMachine::new(alloc, data, log, Bytes::new(alloc), plan)
}

/// A machine with empty files whose calls of these numbers fail.
pub fn failing(
    alloc: Global,
    script: &[u8],
    calls: &[u64],
    read_most: u64,
    show_total: Option<u64>,
) -> Result<MemMachine, NoMemory>
    requires { 0 < read_most }
{
    let mut fails = Numbers::new(alloc);
    fails.extend(calls)?;
    let script = bytes(alloc, script)?;
    let plan = MemPlan {
        fails,
        read_most,
        show_total,
    };
    MemMachine::new(alloc, Bytes::new(alloc), Bytes::new(alloc), script, plan)
}

/// A machine with empty files on which nothing fails.
pub fn sound(alloc: Global, script: &[u8]) -> Result<MemMachine, NoMemory> {
    failing(alloc, script, &[], 1000, None)
}

/// What a run leaves: what was shown and warned, the exit status, and how many calls failed.
#[derive(Clone, Copy)]
pub struct Left<'a> {
    pub shown: &'a [u8],
    pub warned: &'a [u8],
    pub status: u8,
    pub faults: u64,
}

/// Compares what a run left. The machine is borrowed, so that no exit lets it go.
fn compare(rt: &impl Abort, machine: &MemMachine, status: u8, want: &Left<'_>) {
    assert_eq!(rt; machine.shown().as_slice(), want.shown);
    assert_eq!(rt; machine.warned().as_slice(), want.warned);
    assert_eq!(rt; status, want.status);
    assert_eq!(rt; machine.faults(), want.faults);
}

/// Runs words over a machine, and compares what is left.
pub fn leaves(
    rt: &(impl Abort + Alloc<A = Global>),
    words: &Vec<String>,
    machine: MemMachine,
    want: &Left<'_>,
) {
    let (machine, status) = run(rt.alloc(), words, machine);
    compare(rt, &machine, code(&status), want);
}
