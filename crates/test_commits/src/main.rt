//! Carries out each line of standard input on two files in memory, and says what came of it and what a stop leaves.
//!
//! A line is `FAIL DATA LOG COMMIT ..`: the number of the device call that fails (a large one for none), counted from 0, the
//! bytes of both files in hexadecimal digits, `-` where there are none, and commits. A commit is `SHIFT,LENGTH` and then
//! `:PLACE,BYTES` for each piece.
//!
//! The first line of an answer says how opening and each commit went, then the sums of both files, and how many device calls
//! there were. The others say, for each moment and each image that a stop there may leave, what opening it gives, and opening it
//! once more: the sum of the content, and those of both files. A sum is a length and a hash.
//!
//! With a word it reads nothing, and times commits on the two files of that name, which are to be new.
#![tactic(auto)]

mod growing;
mod opening;
mod scenario;
mod text;
mod timing;

use ql_edge::NoMemory;
use scenario::add_outcome;
use std::io::{BufRead, BufReader};
use std::{env, io};
use timing::time_commits;

/// Answers each line of standard input.
fn answer_lines(rt: &HostRuntime) -> io::Result<()> {
    let alloc = rt.alloc();
    for line in BufReader::new(alloc, rt.stdin())?.lines(alloc) {
        let mut text = String::new(alloc);
        match add_outcome(alloc, &mut text, line?.as_str()) {
            Ok(()) => print!(rt; "{}", text.as_str())?,
            Err(NoMemory) => println!(rt; "no memory")?,
        }
    }
    Ok(())
}

fn main(rt: HostRuntime) -> io::Result<()> {
    let word = env::args(&rt)?.skip(1).next();
    match word {
        Some(name) => time_commits(&rt, name.as_str()),
        None => answer_lines(&rt),
    }
}
