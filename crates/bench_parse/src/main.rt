//! Reads a script on standard input, lexes and parses it, and lets all go. With the word `copy` it also copies the fields
//! of its first statement, if that is a SELECT. It says how many statements and copies there are, or the fault. The
//! microseconds that the lexer, the parser, the copies and letting the statements go took are written to standard error.
#![tactic(auto)]

use ql_edge::NoMemory;
use ql_lex::tokens;
use ql_parse::{ParseFault, script};
use ql_syntax::{Exprs, Statement, Statements, copy_expr};
use std::alloc::Global;
use std::io::Read;
use std::time::Instant;
use std::{env, io};

/// Copies of the fields of the first statement.
fn copies(alloc: Global, statements: &Statements) -> Result<Exprs, NoMemory> {
    let mut copies = Exprs::new(alloc);
    if let Some(Statement::Query(query)) = statements.as_slice().first() {
        for field in query.get().fields.as_slice() {
            copies.push(copy_expr(alloc, &field.expr)?)?;
        }
    }
    Ok(copies)
}

/// Copies the fields of the first statement where that is asked for, and answers how many copies there are.
fn count_copies(alloc: Global, asked: bool, statements: &Statements) -> Result<usize, NoMemory> {
    if !asked {
        return Ok(0);
    }
    let copies = copies(alloc, statements)?;
    Ok(copies.len())
}

/// Whether the words of the command line ask for copies.
fn asks_for_copies(rt: &HostRuntime) -> io::Result<bool> {
    let mut asked = false;
    for word in env::args(rt)?.skip(1) {
        asked = asked || word.as_bytes() == b"copy".as_slice();
    }
    Ok(asked)
}

fn main(rt: HostRuntime) -> io::Result<()> {
    let alloc = rt.alloc();
    let asked = asks_for_copies(&rt)?;
    let mut source = Vec::new(alloc);
    rt.stdin().read_to_end(&mut source)?;
    let start = Instant::now(&rt)?;
    let Ok(tokens) = tokens(alloc, &source) else {
        return println!(rt; "no tokens");
    };
    let lexed = start.elapsed(&rt)?.as_micros();
    let statements = match script(alloc, &source, tokens) {
        Ok(statements) => statements,
        Err(ParseFault::Unexpected(at)) => return println!(rt; "unexpected at {at}"),
        Err(ParseFault::TooNested(at)) => return println!(rt; "too nested at {at}"),
        Err(ParseFault::NoMemory) => return println!(rt; "no memory"),
    };
    let parsed = start.elapsed(&rt)?.as_micros();
    let Ok(copies) = count_copies(alloc, asked, &statements) else {
        return println!(rt; "no memory");
    };
    let copied = start.elapsed(&rt)?.as_micros();
    println!(rt; "{} statements, {copies} copies", statements.len())?;
    drop(statements);
    let ended = start.elapsed(&rt)?.as_micros();
    eprintln!(rt; "{lexed} {parsed} {copied} {ended} us")
}
