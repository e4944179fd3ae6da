//! Does to two files of the host what its words say, one call a word, and shows what each answered.
//!
//! The first word is the name to attach, with `^@` for each zero byte. Each further one is `VERB:FILE:NUMBER:TEXT`, where
//! FILE is `data` or `log`: `length`, `read` (TEXT is a count of at most 64), `write`, `cut`, `sync` or `show` (the TEXT). At
//! the end it reads from standard input once, so that a test can keep it waiting with its lock.
#![tactic(auto)]

ghost use Rattle.std.specs.Prelude.{◌≡◌, ◌^◌, ◌≤◌, length, None, IsSome, OnOk};
ghost use Rattle.ql_edge.specs.HostMachine.{name_of};

use ql_edge::{DeviceFault, HostMachine, Machine, Volume, Which, show_all};
use std::alloc::Global;
use std::process::ExitCode;
use std::{env, io};

/// The largest place that a word may name.
const PLACE_LIMIT: u64 = 1 << 61;

/// How many bytes a word writes at most.
const PIECE_LIMIT: usize = 1 << 20;

/// The words behind the program's name.
fn words(rt: &HostRuntime) -> io::Result<Vec<String>> {
    let mut words = Vec::new(rt.alloc());
    for word in env::args(rt)?.skip(1) {
        words.push(word)?;
    }
    Ok(words)
}

/// What stands before the first colon, and what stands behind it.
fn split(text: &str) -> (&str, &str) {
    match text.split_once(':') {
        Some(parts) => parts,
        None => (text, ""),
    }
}

/// At most so many bytes of a text as one word may write.
fn first_bytes(text: &str) -> &[u8]
    ensures { length result.now ≤ 2 ^ 20 }
{
    let bytes = text.as_bytes();
    &bytes[..bytes.len().min(PIECE_LIMIT)]
}

/// Shows some bytes of a file.
fn show_bytes(
    machine: &mut HostMachine,
    which: Which,
    at: u64,
    count: usize,
) -> Result<(), DeviceFault>
    requires { IsSome (name_of machine.old) }
    ensures { name_of machine.new ≡ name_of machine.old }
{
    let mut bytes = [0; 64];
    let count = count.min(64);
    machine.read_at(which, at, &mut bytes[..count])?;
    show_all(machine, &bytes[..count])
}

/// Shows the length of a file.
fn show_length(alloc: Global, machine: &mut HostMachine, which: Which) -> Result<(), DeviceFault>
    requires { IsSome (name_of machine.old) }
    ensures { name_of machine.new ≡ name_of machine.old }
{
    let length = machine.length(which)?;
    match length.to_string(alloc) {
        Ok(text) => show_all(machine, text.as_bytes()),
        Err(_) => Err(DeviceFault::NoMemory),
    }
}

/// Makes the call that a word asks for.
fn call(alloc: Global, machine: &mut HostMachine, word: &str) -> Result<(), DeviceFault>
    requires { IsSome (name_of machine.old) }
    ensures { name_of machine.new ≡ name_of machine.old }
{
    let (verb, rest) = split(word);
    let (file, rest) = split(rest);
    let (number, text) = split(rest);
    let which = if file == "log" {
        Which::Log
    } else {
        Which::Data
    };
    let at = number.parse::<u64>().unwrap_or(0).min(PLACE_LIMIT);
    match verb {
        "length" => show_length(alloc, machine, which),
        "read" => show_bytes(machine, which, at, text.parse::<usize>().unwrap_or(0)),
        "write" => machine.write_at(which, at, first_bytes(text)),
        "cut" => machine.cut(which, at),
        "sync" => machine.sync(which),
        _ => show_all(machine, text.as_bytes()),
    }
}

/// Shows what a call answered.
fn show_answer(machine: &mut HostMachine, answer: Result<(), DeviceFault>)
    ensures { name_of machine.new ≡ name_of machine.old }
{
    let line = match answer {
        Ok(()) => " ok\n",
        Err(DeviceFault::Failed) => " failed\n",
        Err(DeviceFault::NoMemory) => " no memory\n",
    };
    let _ = show_all(machine, line.as_bytes());
}

/// Makes the calls that the words ask for.
fn carry_out(alloc: Global, machine: &mut HostMachine, words: &[String])
    requires { IsSome (name_of machine.old) }
{
    for word in words {
        let answer = call(alloc, machine, word.as_str());
        show_answer(machine, answer);
    }
}

/// Attaches the name that a word spells.
fn attach_name(alloc: Global, machine: &mut HostMachine, word: &str) -> Result<(), DeviceFault>
    requires { name_of machine.old ≡ None }
    ensures { OnOk result (IsSome (name_of machine.new)) }
{
    match word.replace(alloc, "^@", "\0") {
        Ok(name) => machine.attach(alloc, name.as_str()),
        Err(_) => Err(DeviceFault::NoMemory),
    }
}

/// Attaches the name that the first word spells, and goes on with the others.
fn attach(alloc: Global, machine: &mut HostMachine, words: &[String])
    requires { name_of machine.old ≡ None }
{
    let Some(word) = words.first() else {
        return;
    };
    match attach_name(alloc, machine, word.as_str()) {
        Ok(()) => {
            show_answer(machine, Ok(()));
            carry_out(alloc, machine, &words[1..]);
        }
        Err(fault) => show_answer(machine, Err(fault)),
    }
}

fn main(rt: HostRuntime) -> ExitCode {
    let alloc = rt.alloc();
    let words = words(&rt);
    let mut machine = HostMachine::new(rt);
    match words {
        Ok(words) => {
            attach(alloc, &mut machine, &words);
            let _ = machine.read(&mut [0]);
            ExitCode::SUCCESS
        }
        Err(_) => ExitCode::FAILURE,
    }
}
