//! Reads the two files of the name that its first word is, and shows what they are.
//!
//! One line: `new`, `no database`, `bad log PLACE`, `closed`, or `open COUNT LENGTH`. Behind the last stands a line
//! `PLACE LENGTH CHECKSUM` for each piece.
#![tactic(auto)]

ghost use Rattle.std.specs.Prelude.{◌≡◌, None};
ghost use Rattle.ql_edge.specs.HostMachine.{name_of};

use lldb_base::Batch;
use lldb_wal::{Opening, read_files};
use ql_edge::{DeviceFault, HostMachine, NoMemory, Volume, show_all};
use std::alloc::Global;
use std::process::ExitCode;
use std::{env, io};

/// The 64-bit FNV-1a hash of bytes.
fn checksum(bytes: &[u8]) -> u64 {
    let mut value: u64 = 0xCBF2_9CE4_8422_2325;
    for &byte in bytes {
        value = (value ^ byte as u64).wrapping_mul(0x0100_0000_01B3);
    }
    value
}

/// How many pieces a batch has, and the new length; then each piece.
fn describe_batch(alloc: Global, batch: &Batch) -> Result<String, NoMemory> {
    let pieces = batch.pieces();
    let mut text = format!(in alloc; "open {} {}\n", pieces.len(), batch.length())?;
    for piece in pieces {
        let bytes = piece.bytes.as_slice();
        let line = format!(in alloc; "{} {} {}\n", piece.place, bytes.len(), checksum(bytes))?;
        text.push_str(line.as_str())?;
    }
    Ok(text)
}

/// What two files are, in words.
fn describe(alloc: Global, found: &Opening) -> Result<String, NoMemory> {
    match found {
        Opening::New => Ok(String::from_str(alloc, "new\n")?),
        Opening::NotDatabase => Ok(String::from_str(alloc, "no database\n")?),
        Opening::BadLog { at } => Ok(format!(in alloc; "bad log {at}\n")?),
        Opening::Closed => Ok(String::from_str(alloc, "closed\n")?),
        Opening::Open(batch) => describe_batch(alloc, batch),
    }
}

/// Reads the files of a name, and shows what they are.
fn show_files(alloc: Global, machine: &mut HostMachine, name: &str) -> Result<(), DeviceFault>
    requires { name_of machine.old ≡ None }
{
    machine.attach(alloc, name)?;
    let found = read_files(alloc, machine, b"QL lldb database")?;
    let text = describe(alloc, &found)?;
    show_all(machine, text.as_bytes())
}

/// The first word behind the program's name.
fn first_word(rt: &HostRuntime) -> io::Result<Option<String>> {
    Ok(env::args(rt)?.skip(1).next())
}

fn main(rt: HostRuntime) -> ExitCode {
    let alloc = rt.alloc();
    let word = first_word(&rt);
    let mut machine = HostMachine::new(rt);
    match word {
        Ok(Some(name)) => match show_files(alloc, &mut machine, name.as_str()) {
            Ok(()) => ExitCode::SUCCESS,
            Err(_) => ExitCode::FAILURE,
        },
        Ok(None) => ExitCode::SUCCESS,
        Err(_) => ExitCode::FAILURE,
    }
}
