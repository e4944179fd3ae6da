//! What a script comes to, as a line.
use crate::shape::add_shape;
use ql_edge::{Bytes, NoMemory};
use ql_lex::{LexFault, tokens};
use ql_parse::{ParseFault, script};
use ql_print::print_statement;
use ql_syntax::{Statement, Statements};
use ql_value::print_number;
use std::alloc::Global;

/// Adds the name of a fault and its place.
fn add_fault(name: &[u8], place: u64, out: &mut Bytes) -> Result<(), NoMemory> {
    out.extend(name)?;
    out.push(b' ')?;
    print_number(place, out)
}

/// Adds statements as they print.
fn add_statements(statements: &Statements, out: &mut Bytes) -> Result<(), NoMemory> {
    for (i, statement) in statements.as_slice().iter().enumerate() {
        if i > 0 {
            out.extend(b"; ")?;
        }
        print_statement(statement, out)?;
    }
    Ok(())
}

/// Adds the shapes of the fields that a statement shows.
fn add_fields(alloc: Global, statement: &Statement, out: &mut Bytes) -> Result<(), NoMemory> {
    if let Statement::Query(query) = statement {
        for field in query.get().fields.as_slice() {
            out.extend(b" | ")?;
            add_shape(alloc, &field.expr, out)?;
        }
    }
    Ok(())
}

/// Adds the statements of a script, and then the shapes of all fields.
fn add_script(alloc: Global, statements: &Statements, out: &mut Bytes) -> Result<(), NoMemory> {
    add_statements(statements, out)?;
    for statement in statements.as_slice() {
        add_fields(alloc, statement, out)?;
    }
    Ok(())
}

/// Adds what a script comes to.
pub fn add_answer(alloc: Global, source: &[u8], out: &mut Bytes) -> Result<(), NoMemory> {
    let tokens = match tokens(alloc, source) {
        Ok(tokens) => tokens,
        Err(LexFault::BadByte(at)) => return add_fault(b"bad byte", at, out),
        Err(LexFault::BadLiteral(at)) => return add_fault(b"bad literal", at, out),
        Err(LexFault::Unclosed(at)) => return add_fault(b"unclosed", at, out),
        Err(LexFault::NoMemory) => return Err(NoMemory),
    };
    match script(alloc, source, tokens) {
        Ok(statements) => add_script(alloc, &statements, out),
        Err(ParseFault::Unexpected(at)) => add_fault(b"unexpected", at, out),
        Err(ParseFault::TooNested(at)) => add_fault(b"too nested", at, out),
        Err(ParseFault::NoMemory) => Err(NoMemory),
    }
}
