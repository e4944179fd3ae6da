//! Takes each line of standard input as a script, and writes what it comes to on a line of its own.
//!
//! A script comes to its fault, or to its statements as they print, and to the shape of each field that a SELECT shows.
#![tactic(auto)]

mod answer;
mod shape;

use answer::add_answer;
use ql_edge::{Bytes, NoMemory};
use std::io;
use std::io::{BufRead, BufReader, Write};

fn main(rt: HostRuntime) -> io::Result<()> {
    let alloc = rt.alloc();
    for line in BufReader::new(alloc, rt.stdin())?.split(alloc, b'\n') {
        let mut out = Bytes::new(alloc);
        let added = add_answer(alloc, &line?, &mut out);
        rt.stdout().write_all(out.as_slice())?;
        match added {
            Ok(()) => println!(rt; "")?,
            Err(NoMemory) => println!(rt; "no memory")?,
        }
    }
    Ok(())
}
