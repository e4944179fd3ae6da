//! Verifies a content in memory of as many used blocks of 100 bytes as its word says, and says what is found. The microseconds
//! that this took go to standard error.
#![tactic(auto)]

ghost use Rattle.std.specs.Prelude.{◌≡◌, ◌≤◌, ◌^◌, true, length};

use lldb_base::{Filer, MemFiler};
use lldb_rollback::RollbackFiler;
use lldb_verify::{AllLog, Bits, FaultLog, Stats, VerifyFault, verify};
use ql_edge::{Bytes, NoMemory};
use std::alloc::Global;
use std::time::Instant;
use std::{env, io};

/// How many blocks there are where no word says it.
const FEW: u64 = 10_000;

/// A block of 100 bytes: their number, and seven atoms in all.
fn block() -> [u8; 112] {
    let mut block = [7; 112];
    block[0] = 100;
    block[111] = 0;
    block
}

/// A table of empty lists, and so many blocks.
fn content_of(alloc: Global, count: u64) -> Result<Bytes, NoMemory> {
    let mut bytes = Bytes::new(alloc);
    bytes.extend(&[0; 128])?;
    let block = block();
    for _ in 0..count {
        bytes.extend(&block)?;
    }
    Ok(bytes)
}

/// What is verified.
fn filer_of(alloc: Global, content: Bytes) -> RollbackFiler<MemFiler>
    requires { length content ≤ 2 ^ 40 }
    ensures { ⟦<RollbackFiler<MemFiler> as Filer>⟧.is_sound result ≡ true }
{
    RollbackFiler::new(alloc, MemFiler::new(alloc, content, 1 << 40))
}

/// The number that the first word says.
fn count_asked(rt: &HostRuntime) -> io::Result<u64> {
    let word = env::args(rt)?.skip(1).next();
    match word {
        Some(word) => Ok(word.as_str().parse::<u64>().unwrap_or(FEW)),
        None => Ok(FEW),
    }
}

/// What is found, in words.
fn words(alloc: Global, answer: &Result<Stats, VerifyFault>) -> Result<String, NoMemory> {
    match answer {
        Ok(stats) => Ok(format!(in alloc; "atoms {}, used {}", stats.atoms, stats.used)?),
        Err(_) => Ok(String::from_str(alloc, "not sound")?),
    }
}

fn main(rt: HostRuntime) -> io::Result<()> {
    let alloc = rt.alloc();
    let count = count_asked(&rt)?;
    let Ok(content) = content_of(alloc, count) else {
        return println!(rt; "no memory");
    };
    if content.len() > 1 << 40 {
        return println!(rt; "too long");
    }
    let mut filer = filer_of(alloc, content);
    let Ok(mut bits) = Bits::new(alloc, filer.size() / 16) else {
        return println!(rt; "no memory");
    };
    let Ok(log) = Box::new(alloc, AllLog::new(alloc)) else {
        return println!(rt; "no memory");
    };
    let mut log: Box<dyn FaultLog> = log;
    let start = Instant::now(&rt)?;
    let answer = verify(&mut filer, &mut bits, &mut log);
    let took = start.elapsed(&rt)?.as_micros();
    let Ok(text) = words(alloc, &answer) else {
        return println!(rt; "no memory");
    };
    println!(rt; "{}", text.as_str())?;
    eprintln!(rt; "{took} us")
}
