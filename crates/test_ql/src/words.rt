//! Words of the command line.
use crate::made::{Left, leaves, sound};
use ql_edge::NoMemory;
use ql_shell::SCRIPT_LIMIT;
use std::alloc::Global;
use std::process::Abort;
use std::test::Fail;

/// What stands on standard input.
const INPUT: &[u8] = b"SELECT * FROM input;";

/// Words, what is shown and warned, and the exit status.
struct Row {
    words: &'static [&'static str],
    shown: &'static [u8],
    warned: &'static [u8],
    status: u8,
}

const ROWS: [Row; 9] = [
    Row {
        words: &["SELECT 1"],
        shown: b"1\n",
        warned: b"",
        status: 0,
    },
    Row {
        words: &["SELECT", "1"],
        shown: b"1\n",
        warned: b"",
        status: 0,
    },
    Row {
        words: &["--", "SELECT", "1"],
        shown: b"1\n",
        warned: b"",
        status: 0,
    },
    Row {
        words: &[
            "CREATE TABLE t",
            "(a int64); INSERT INTO t VALUES (5);",
            "SELECT * FROM t",
        ],
        shown: b"5\n",
        warned: b"",
        status: 0,
    },
    Row {
        words: &["-"],
        shown: b"",
        warned: b"ql: byte 0: unexpected\n",
        status: 1,
    },
    Row {
        words: &[""],
        shown: b"",
        warned: b"",
        status: 0,
    },
    Row {
        words: &["--"],
        shown: b"",
        warned: b"ql: statement 1: 1 NoTable input\n",
        status: 1,
    },
    Row {
        words: &["-nope"],
        shown: b"",
        warned: b"ql: usage, word 1\n",
        status: 2,
    },
    Row {
        words: &["--nope=x", "-", "--"],
        shown: b"",
        warned: b"ql: usage, word 1\n",
        status: 2,
    },
];

fn made(alloc: Global, words: &[&str]) -> Result<Vec<String>, NoMemory> {
    let mut made = Vec::new(alloc);
    for word in words {
        made.push(String::from_str(alloc, word)?)?;
    }
    Ok(made)
}

/// Runs words over a machine, and compares what is left.
fn carry_out(
    rt: &(impl Abort + Alloc<A = Global>),
    words: &Vec<String>,
    want: &Left<'_>,
) -> Result<(), NoMemory> {
    leaves(rt, words, sound(rt.alloc(), INPUT)?, want);
    Ok(())
}

fn carry_out_row(rt: &(impl Abort + Alloc<A = Global>), row: &Row) -> Result<(), NoMemory> {
    let words = made(rt.alloc(), row.words)?;
    let want = Left {
        shown: row.shown,
        warned: row.warned,
        status: row.status,
        faults: 0,
    };
    carry_out(rt, &words, &want)
}

#[test]
fn reads_words(rt: HostRuntime) -> Result<(), Fail> {
    for row in &ROWS {
        carry_out_row(&rt, row)?;
    }
    Ok(())
}

/// `SELECT * FROM u;` in one word, and so many spaces in another.
fn long_words(alloc: Global, spaces: usize) -> Result<Vec<String>, NoMemory> {
    let mut second = String::new(alloc);
    for _ in 0..spaces {
        second.push(' ')?;
    }
    let mut words = Vec::new(alloc);
    words.push(String::from_str(alloc, "SELECT * FROM u;")?)?;
    words.push(second)?;
    Ok(words)
}

#[test]
fn joins_words_up_to_the_limit(rt: HostRuntime) -> Result<(), Fail> {
    let words = long_words(rt.alloc(), SCRIPT_LIMIT - 17)?;
    let want = Left {
        shown: b"",
        warned: b"ql: statement 1: 1 NoTable u\n",
        status: 1,
        faults: 0,
    };
    carry_out(&rt, &words, &want)?;
    Ok(())
}

#[test]
fn joins_no_words_over_the_limit(rt: HostRuntime) -> Result<(), Fail> {
    let words = long_words(rt.alloc(), SCRIPT_LIMIT - 16)?;
    let want = Left {
        shown: b"",
        warned: b"ql: script too long\n",
        status: 1,
        faults: 0,
    };
    carry_out(&rt, &words, &want)?;
    Ok(())
}
