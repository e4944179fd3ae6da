//! The command: carries out the script that its words hold, or else the one on standard input.
#![tactic(auto)]

use ql_edge::{HostMachine, warn_all};
use ql_shell::{Status, code, run};
use std::io::ErrorKind;
use std::process::ExitCode;
use std::{env, io};

/// The words behind the program's name.
fn words(rt: &HostRuntime) -> io::Result<Vec<String>> {
    let mut words = Vec::new(rt.alloc());
    for word in env::args(rt)?.skip(1) {
        words.push(word)?;
    }
    Ok(words)
}

/// Warns why the words cannot be read, and gives the exit status for it.
fn refuse_words(mut machine: HostMachine, error: &io::Error) -> ExitCode {
    let (line, status) = match error.kind() {
        ErrorKind::OutOfMemory => (b"ql: out of memory\n".as_slice(), Status::NoMemory),
        _ => (b"ql: device fault\n".as_slice(), Status::Fault),
    };
    let _ = warn_all(&mut machine, line);
    ExitCode::from(code(&status))
}

fn main(rt: HostRuntime) -> ExitCode {
    let alloc = rt.alloc();
    let words = words(&rt);
    let machine = HostMachine::new(rt);
    match words {
        Ok(words) => {
            let (_machine, status) = run(alloc, &words, machine);
            ExitCode::from(code(&status))
        }
        Err(error) => refuse_words(machine, &error),
    }
}
