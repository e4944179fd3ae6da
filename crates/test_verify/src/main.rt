//! Takes each line of standard input as a letter, a blank and a content in hexadecimal, and writes what is found in it.
//!
//! The letter says which log is told: `a` one that takes all findings, `f` one that takes the first, a digit from 1 to 9 one
//! that takes so many. A line of the output has the findings, what the verifier answered, how many the log was told, and,
//! where nothing is found, the handles.
#![tactic(auto)]

mod bounded;
mod words;

ghost use Rattle.std.specs.Prelude.{◌≡◌, ◌≤◌, ◌^◌, [], IsTrue, length};
ghost use Rattle.lldb_verify.specs.Logs.{has_room};

use bounded::BoundedLog;
use lldb_base::{Filer, MemFiler};
use lldb_rollback::RollbackFiler;
use lldb_verify::{AllLog, Bits, FaultLog, FirstLog, verify};
use ql_edge::{Bytes, NoMemory};
use std::alloc::Global;
use std::io;
use std::io::{BufRead, BufReader};
use words::describe;

/// The number of a digit.
fn digit(byte: u8) -> u8
    ensures { result ≤ 15 }
{
    match byte {
        b'0'..=b'9' => byte - b'0',
        b'A'..=b'F' => byte - b'A' + 10,
        _ => 0,
    }
}

/// The bytes that digits spell.
fn content_of(alloc: Global, digits: &[u8]) -> Result<Bytes, NoMemory> {
    let mut bytes = Bytes::new(alloc);
    for i in 0..digits.len() / 2 {
        bytes.push(digit(digits[2 * i]) * 16 + digit(digits[2 * i + 1]))?;
    }
    Ok(bytes)
}

/// What is found in a content, as a log is told.
fn judge(alloc: Global, content: Bytes, log: &mut Box<dyn FaultLog>) -> Result<String, NoMemory>
    requires short { length content ≤ 2 ^ 40 }
    requires empty { list log.old ≡ [] }
    requires room { IsTrue (has_room (bound log.old) (length (list log.old))) }
{
    let below = MemFiler::new(alloc, content, 1 << 40);
    let mut filer = RollbackFiler::new(alloc, below);
    let mut bits = Bits::new(alloc, filer.size() / 16)?;
    let answer = verify(&mut filer, &mut bits, log);
    describe(alloc, log, &answer, &bits)
}

/// The same, with the log that a letter says.
fn judge_by(alloc: Global, letter: u8, content: Bytes) -> Result<String, NoMemory>
    requires short { length content ≤ 2 ^ 40 }
{
    match letter {
        b'1'..=b'9' => {
            let mut log: Box<dyn FaultLog> = Box::new(
                alloc,
                BoundedLog::new(alloc, (letter - b'0') as u64),
            )?;
            judge(alloc, content, &mut log)
        }
        b'f' => {
            let mut log: Box<dyn FaultLog> = Box::new(alloc, FirstLog::new())?;
            judge(alloc, content, &mut log)
        }
        _ => {
            let mut log: Box<dyn FaultLog> = Box::new(alloc, AllLog::new(alloc))?;
            judge(alloc, content, &mut log)
        }
    }
}

/// What is found in the content of a line.
fn report(alloc: Global, line: &[u8]) -> Result<String, NoMemory> {
    if line.len() < 2 {
        return Ok(String::from_str(alloc, "no content")?);
    }
    let content = content_of(alloc, &line[2..])?;
    if content.len() > 1 << 40 {
        return Ok(String::from_str(alloc, "too long")?);
    }
    judge_by(alloc, line[0], content)
}

fn main(rt: HostRuntime) -> io::Result<()> {
    let alloc = rt.alloc();
    for line in BufReader::new(alloc, rt.stdin())?.split(alloc, b'\n') {
        match report(alloc, &line?) {
            Ok(text) => println!(rt; "{}", text)?,
            Err(NoMemory) => println!(rt; "no memory")?,
        }
    }
    Ok(())
}
