//! Makes a few calls on a machine in memory, and writes what they answer, and then each image that a stop may leave: after
//! how many calls, which of the three, both files in hexadecimal digits, and how many bytes were shown.
#![tactic(auto)]

ghost use Rattle.std.specs.Prelude.{◌≡◌, ◌+◌, ◌≤◌, length, None, IsSome, IfOk, OnOk, IfSome};
ghost use Rattle.ql_edge.specs.Disk.{file_of};
ghost use Rattle.ql_edge.specs.MemMachine.{calls_of};

use ql_edge::{Bytes, DeviceFault, MemMachine, MemPlan, NoMemory, Numbers, Shows, Volume, Which};
use std::alloc::Global;
use std::io;

/// A data file of two bytes and a log of none, on a machine whose eleventh call fails.
fn make_machine(alloc: Global) -> Result<MemMachine, NoMemory>
    ensures { IfOk result (λ m. ⟦<MemMachine as Volume>⟧.attached m ≡ None) }
{
    let mut fails = Numbers::new(alloc);
    fails.push(10)?;
    let plan = MemPlan {
        fails,
        read_most: 1,
        show_total: None,
    };
    let data_bytes = Bytes::from_slice(alloc, b"ab")?;
    MemMachine::new(
        alloc,
        data_bytes,
        Bytes::new(alloc),
        Bytes::new(alloc),
        plan,
    )
}

/// The place, or the end of the file where that comes before it.
fn within(machine: &MemMachine, which: Which, at: u64) -> u64
    ensures within { IfSome (⟦<MemMachine as Volume>⟧.files machine.now)
        (λ f. result ≤ length (file_of which f)) }
    ensures no_later { result ≤ at }
{
    match which {
        Which::Data => at.min(machine.data_bytes().len() as u64),
        Which::Log => at.min(machine.log_bytes().len() as u64),
    }
}

/// Writes a piece at a place, or at the end where that comes before it.
fn write(machine: &mut MemMachine, which: Which, at: u64, piece: &[u8]) -> Result<(), DeviceFault>
    requires attached { IsSome (⟦<MemMachine as Volume>⟧.attached machine.old) }
    requires short { at + length piece.now ≤ 64 }
    ensures { ⟦<MemMachine as Volume>⟧.attached machine.new
        ≡ ⟦<MemMachine as Volume>⟧.attached machine.old }
{
    let at = within(machine, which, at);
    machine.write_at(which, at, piece)
}

/// Cuts a file to a length, where it is longer.
fn cut(machine: &mut MemMachine, which: Which, to: u64) -> Result<(), DeviceFault>
    requires { IsSome (⟦<MemMachine as Volume>⟧.attached machine.old) }
    ensures { ⟦<MemMachine as Volume>⟧.attached machine.new
        ≡ ⟦<MemMachine as Volume>⟧.attached machine.old }
{
    let to = within(machine, which, to);
    machine.cut(which, to)
}

/// Shows two bytes.
fn show(machine: &mut MemMachine) -> Result<(), DeviceFault>
    ensures { ⟦<MemMachine as Volume>⟧.attached machine.new
        ≡ ⟦<MemMachine as Volume>⟧.attached machine.old }
{
    machine.show(b"ok")?;
    Ok(())
}

/// Reads the front of a file, and answers its length.
fn read_front(machine: &mut MemMachine, which: Which, out: &mut [u8]) -> Result<u64, DeviceFault>
    requires { IsSome (⟦<MemMachine as Volume>⟧.attached machine.old) }
    ensures { ⟦<MemMachine as Volume>⟧.attached machine.new
        ≡ ⟦<MemMachine as Volume>⟧.attached machine.old }
{
    let length = machine.length(which)?;
    let count = out.len().min(length as usize);
    machine.read_at(which, 0, &mut out[..count])?;
    Ok(length)
}

/// A call of each kind. Answers the length of the data file, and gives its front.
fn make_calls(alloc: Global, machine: &mut MemMachine, out: &mut [u8]) -> Result<u64, DeviceFault>
    requires { ⟦<MemMachine as Volume>⟧.attached machine.old ≡ None }
    ensures { OnOk result (IsSome (⟦<MemMachine as Volume>⟧.attached machine.new)) }
{
    machine.attach(alloc, "name")?;
    write(machine, Which::Data, 1, b"XYZ")?;
    show(machine)?;
    cut(machine, Which::Data, 2)?;
    write(machine, Which::Log, 0, b"L")?;
    machine.sync(Which::Data)?;
    write(machine, Which::Data, 2, b"q")?;
    machine.sync(Which::Log)?;
    read_front(machine, Which::Data, out)
}

/// Writes the bytes of a file.
fn write_digits(rt: &HostRuntime, file: &str, bytes: &[u8]) -> io::Result<()> {
    print!(rt; " {file}=")?;
    for byte in bytes {
        print!(rt; "{byte:02x}")?;
    }
    Ok(())
}

/// Writes the three images that a stop after so many calls may leave.
fn write_images(rt: &HostRuntime, machine: &MemMachine, moment: u64) -> io::Result<()>
    requires { moment ≤ calls_of machine.now }
{
    for pick in 0..3 {
        match machine.image(rt.alloc(), moment, pick) {
            Ok(image) => {
                print!(rt; "{moment} {pick}")?;
                write_digits(rt, "data", image.data_bytes.as_slice())?;
                write_digits(rt, "log", image.log_bytes.as_slice())?;
                println!(rt; " shown={}", image.shown)?;
            }
            Err(NoMemory) => println!(rt; "no memory")?,
        }
    }
    Ok(())
}

/// Makes the calls, and one that fails, and writes what they answer.
fn write_answers(rt: &HostRuntime, machine: &mut MemMachine) -> io::Result<()>
    requires { ⟦<MemMachine as Volume>⟧.attached machine.old ≡ None }
{
    let mut front = [0; 3];
    match make_calls(rt.alloc(), machine, &mut front) {
        Ok(length) => {
            let failed = write(machine, Which::Data, 0, b"no");
            write_digits(rt, "front", &front)?;
            print!(rt; " length={length} written={}", machine.written())?;
            println!(rt; " failed={}", matches!(failed, Err(DeviceFault::Failed)))
        }
        Err(_) => println!(rt; "not all calls were made"),
    }
}

fn main(rt: HostRuntime) -> io::Result<()> {
    match make_machine(rt.alloc()) {
        Ok(mut machine) => {
            write_answers(&rt, &mut machine)?;
            let calls = machine.moments();
            for moment in 0..calls {
                write_images(&rt, &machine, moment)?;
            }
            write_images(&rt, &machine, calls)
        }
        Err(NoMemory) => println!(rt; "no memory"),
    }
}
