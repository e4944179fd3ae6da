//! Does to tables in memory what each line of standard input says, and shows on a line what the call answered.
//!
//! A line is `begin`, `commit`, `rollback`, `state`, `schema`, `insert TABLE VALUE ..`, `change TABLE ID VALUE ..`,
//! `remove TABLE ID`, `fetch TABLE ID`, `scan TABLE ID`, `walk TABLE`, `truncate TABLE`, `drop TABLE`, `times COUNT LINE`,
//! `widen STATEMENT`, `narrow PLACE STATEMENT`, or a statement; `text COUNT` and `brackets COUNT` of a rule's text; and, in a
//! database without levels, `default COUNT`. A table is named by its place. A value is `null`, a truth, a number, or for a
//! string or a blob the number of its bytes. `widen` adds a column with the name `added` to the only table, and `narrow` takes
//! the column at a place from it, where the table is then as the CREATE TABLE makes it.
#![tactic(auto)]

mod calls;
mod columns;
mod commands;
mod default;
mod made;
mod reply;
mod statements;
mod texts;
mod values;

use commands::do_line;
use ql_edge::Bytes;
use ql_mem_rel::MemRel;
use std::io;
use std::io::Write;

/// How many bytes of answers are gathered before they are written.
const MANY: usize = 60_000;

fn main(rt: HostRuntime) -> io::Result<()> {
    let alloc = rt.alloc();
    let mut rel = MemRel::new(alloc);
    let mut out = Bytes::new(alloc);
    for line in rt.lines(alloc) {
        let line = line?;
        if do_line(alloc, &mut rel, line.as_str(), &mut out).is_err() {
            eprintln!(rt; "no memory")?;
        }
        if out.len() > MANY {
            rt.stdout().write_all(out.as_slice())?;
            out.clear();
        }
    }
    rt.stdout().write_all(out.as_slice())
}
