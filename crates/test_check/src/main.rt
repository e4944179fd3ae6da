//! Takes each line of standard input as a script, and writes what the checker says of it on a line of its own.
//!
//! The CREATE statements at the head of a script make a schema. Each statement from the first other one on is checked
//! against it, and comes to its refusal, as `3 Ambiguous a`, or to its plan, and ` | ` stands between these. A script that
//! does not read comes to `no script`.
//!
//! A plan is `ok` and its fields with commas between them, as in `ok a@1, t.b@5, -`: a field is its name, or `-` where it
//! has none, and `@` and a place where it is the value at that place of the row. Where rows are grouped, ` GROUP` and
//! the columns of GROUP BY follow, and where there is an ORDER BY, ` ORDER` and its expressions, all without names. The
//! plan of an UPDATE is `ok SET` and its columns by their numbers with their new values, as in `ok SET 1 = -@2, 0 = -`, and
//! that of an INSERT is `ok INTO`, the columns, and ` ROWS` with the number of rows or ` SELECT` with what the plan of the SELECT
//! has behind its `ok`. Every other plan is `ok`.
#![tactic(auto)]

mod answer;
mod plan;

use answer::add_answer;
use ql_edge::{Bytes, NoMemory};
use std::io;
use std::io::{BufRead, BufReader, Write};

fn main(rt: HostRuntime) -> io::Result<()> {
    let alloc = rt.alloc();
    for line in BufReader::new(alloc, rt.stdin())?.split(alloc, b'\n') {
        let mut out = Bytes::new(alloc);
        let added = add_answer(alloc, &line?, &mut out);
        rt.stdout().write_all(out.as_slice())?;
        match added {
            Ok(()) => println!(rt; "")?,
            Err(NoMemory) => println!(rt; "no memory")?,
        }
    }
    Ok(())
}
