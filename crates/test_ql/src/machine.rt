//! A machine in memory, and the lists.
ghost use Rattle.std.specs.Prelude.{◌<◌};

use crate::made::{failing, sound, with_files};
use ql_edge::{
    DeviceFault, Items, Machine, MemMachine, Name, Names, Names0, Numbers, Shows, show_all,
    warn_all,
};
use std::alloc::Global;
use std::process::Abort;
use std::test::Fail;

#[test]
fn numbers(rt: HostRuntime) -> Result<(), Fail> {
    let mut numbers = Numbers::new(rt.alloc());
    numbers.push(3)?;
    numbers.extend(&[1, 2])?;
    assert_eq!(rt; numbers.as_slice(), [3, 1, 2].as_slice());
    assert_eq!(rt; numbers.len(), 3);
    assert_eq!(rt; numbers.into_vec().len(), 3);
    Ok(())
}

#[test]
fn names(rt: HostRuntime) -> Result<(), Fail> {
    let mut names = Names::new(rt.alloc());
    names.push(Name::new(rt.alloc(), b"tea")?)?;
    assert_eq!(rt; names.len(), 1);
    assert_eq!(rt; Name::new(rt.alloc(), b"t")?.as_slice(), b"t".as_slice());
    Ok(())
}

#[test]
fn clears_a_list(rt: HostRuntime) -> Result<(), Fail> {
    let mut list: Names0 = Items::new(rt.alloc());
    list.push(Name::new(rt.alloc(), b"tea")?.into_bytes())?;
    list.clear();
    assert_eq!(rt; list.len(), 0);
    Ok(())
}

/// What one read of at most so many bytes gives.
fn read(alloc: Global, machine: &mut MemMachine, most: usize) -> Result<Vec<u8>, DeviceFault>
    requires { 0 < most }
{
    let mut out = vec![in alloc; 0; most].map_err(|_| DeviceFault::NoMemory)?;
    let taken = machine.read(&mut out)?;
    out.truncate(taken as usize);
    Ok(out)
}

/// Whether one read of at most so many bytes gives these.
fn gives(
    alloc: Global,
    machine: &mut MemMachine,
    most: usize,
    want: &[u8],
) -> Result<bool, DeviceFault>
    requires { 0 < most }
{
    Ok(read(alloc, machine, most)?.as_slice() == want)
}

/// Reads `abcde`, at most two bytes at once, where the second call fails.
fn read_pieces(
    rt: &(impl Abort + Alloc<A = Global>),
    machine: &mut MemMachine,
) -> Result<(), DeviceFault> {
    assert!(rt; gives(rt.alloc(), machine, 3, b"ab")?);
    assert!(rt; gives(rt.alloc(), machine, 3, b"").is_err());
    assert!(rt; gives(rt.alloc(), machine, 1, b"c")?);
    assert!(rt; gives(rt.alloc(), machine, 3, b"de")?);
    assert!(rt; gives(rt.alloc(), machine, 3, b"")?);
    assert_eq!(rt; machine.faults(), 1);
    Ok(())
}

#[test]
fn reads_in_pieces(rt: HostRuntime) -> Result<(), Fail> {
    let mut machine = failing(rt.alloc(), b"abcde", &[1], 2, None)?;
    read_pieces(&rt, &mut machine)?;
    Ok(())
}

/// How many bytes a machine shows, or none where it refuses. What the call promises is not at stake here.
fn show(machine: &mut MemMachine, piece: &[u8]) -> Option<u64> {
    machine.show(piece).ok()
}

/// Shows four pieces, where the first call fails and three bytes are shown at most.
fn show_pieces(rt: &impl Abort, machine: &mut MemMachine) {
    assert_eq!(rt; show(machine, b"ab"), None);
    assert_eq!(rt; show(machine, b"ab"), Some(2));
    assert_eq!(rt; show(machine, b"cd"), Some(1));
    assert_eq!(rt; show(machine, b"d"), None);
    assert_eq!(rt; show(machine, b""), Some(0));
    assert_eq!(rt; machine.shown().as_slice(), b"abc".as_slice());
    assert_eq!(rt; machine.faults(), 2);
}

#[test]
fn shows_up_to_its_total(rt: HostRuntime) -> Result<(), Fail> {
    let mut machine = failing(rt.alloc(), b"", &[0], 1, Some(3))?;
    show_pieces(&rt, &mut machine);
    Ok(())
}

/// Shows and warns whole texts.
fn show_texts(rt: &impl Abort, machine: &mut MemMachine) -> Result<(), DeviceFault> {
    show_all(machine, b"one ")?;
    show_all(machine, b"two")?;
    warn_all(machine, b"three")?;
    assert_eq!(rt; machine.shown().as_slice(), b"one two".as_slice());
    assert_eq!(rt; machine.warned().as_slice(), b"three".as_slice());
    Ok(())
}

#[test]
fn shows_and_warns_whole_texts(rt: HostRuntime) -> Result<(), Fail> {
    let mut machine = sound(rt.alloc(), b"")?;
    show_texts(&rt, &mut machine)?;
    Ok(())
}

/// Shows a text of which five bytes are shown.
fn show_short(rt: &impl Abort, machine: &mut MemMachine) {
    assert_eq!(rt; show_all(machine, b"one two"), Err(DeviceFault::Failed));
    assert_eq!(rt; machine.shown().as_slice(), b"one t".as_slice());
}

#[test]
fn shows_a_front_of_a_text(rt: HostRuntime) -> Result<(), Fail> {
    let mut short = failing(rt.alloc(), b"", &[], 1, Some(5))?;
    show_short(&rt, &mut short);
    Ok(())
}

/// Compares the files of a machine, which has shown and warned nothing.
fn compare_files(rt: &impl Abort, machine: &MemMachine) {
    assert_eq!(rt; machine.data_bytes().as_slice(), b"data".as_slice());
    assert_eq!(rt; machine.log_bytes().as_slice(), b"log".as_slice());
    assert_eq!(rt; machine.shown().len(), 0);
    assert_eq!(rt; machine.warned().len(), 0);
}

#[test]
fn keeps_its_files(rt: HostRuntime) -> Result<(), Fail> {
    let machine = with_files(rt.alloc(), b"data", b"log")?;
    compare_files(&rt, &machine);
    Ok(())
}
