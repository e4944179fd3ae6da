//! Reads a script on standard input and says what its tokens are; the time that took goes to standard error.
#![tactic(auto)]

use ql_lex::{LexFault, tokens};
use std::io;
use std::io::Read;
use std::time::Instant;

fn main(rt: HostRuntime) -> io::Result<()> {
    let mut script = Vec::new(rt.alloc());
    rt.stdin().read_to_end(&mut script)?;
    let start = Instant::now(&rt)?;
    let found = tokens(rt.alloc(), &script);
    let time = start.elapsed(&rt)?;
    match found {
        Ok(found) => println!(rt; "{} tokens", found.len())?,
        Err(LexFault::BadByte(at)) => println!(rt; "bad byte at {at}")?,
        Err(LexFault::BadLiteral(at)) => println!(rt; "bad literal at {at}")?,
        Err(LexFault::Unclosed(at)) => println!(rt; "unclosed at {at}")?,
        Err(LexFault::NoMemory) => println!(rt; "no memory")?,
    }
    eprintln!(rt; "{} us", time.as_micros())?;
    Ok(())
}
