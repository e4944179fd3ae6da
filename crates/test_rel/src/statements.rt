//! Statements, from their text.
ghost use Rattle.std.specs.Prelude.{◌<◌, length, All, IsTrue, IsSome, IfSome, OnOk};
ghost use Rattle.ql_syntax.specs.ReadsBack.{IsReadBack};

use crate::texts::{put, put_number};
use ql_edge::{Bytes, NoMemory};
use ql_exec::{ExecFault, exec};
use ql_lex::tokens;
use ql_parse::script;
use ql_print::print_statement;
use ql_rel::Rel;
use ql_syntax::{Statement, Statements};
use std::alloc::Global;

/// The last of some statements.
fn last(statements: Statements) -> Option<Statement>
    requires { All IsReadBack statements }
    ensures { IfSome result IsReadBack }
{
    statements.into_vec().pop()
}

/// The last statement of a text. What it prints is read as it again.
fn read(alloc: Global, text: &[u8]) -> Option<Statement>
    ensures { IfSome result IsReadBack }
{
    let Ok(tokens) = tokens(alloc, text) else {
        return None;
    };
    let Ok(statements) = script(alloc, text, tokens) else {
        return None;
    };
    let mut printed = Bytes::new(alloc);
    match print_statement(statements.first()?, &mut printed) {
        Ok(()) => last(statements),
        Err(NoMemory) => None,
    }
}

/// Carries out a statement inside a level.
fn carry_out<R: Rel>(
    alloc: Global,
    rel: &mut R,
    statement: &Statement,
    out: &mut Bytes,
) -> Result<(), ExecFault>
    requires ready { IsTrue (R.is_ready rel.old) }
    requires level { 0 < length (R.saved rel.old) }
    requires read { IsReadBack statement.now }
    ensures { OnOk result (IsSome (R.db rel.old) → IsSome (R.db rel.new)) }
{
    exec(alloc, rel, statement, false, out)
}

/// Carries out the last statement of a text inside a level, and answers nothing where that is not allowed.
pub fn run<R: Rel>(
    alloc: Global,
    rel: &mut R,
    text: &[u8],
    out: &mut Bytes,
) -> Option<Result<(), ExecFault>>
    ensures { IfSome result (λ done. OnOk done (IsSome (R.db rel.old) → IsSome (R.db rel.new))) }
{
    let statement = read(alloc, text)?;
    if !rel.ready() || rel.depth() == 0 {
        return None;
    }
    Some(carry_out(alloc, rel, &statement, out))
}

/// Carries out the last statement of a text inside a level, and shows what it answered.
pub fn do_statement<R: Rel>(
    alloc: Global,
    rel: &mut R,
    text: &[u8],
    out: &mut Bytes,
) -> Result<(), NoMemory> {
    match run(alloc, rel, text, out) {
        None => put(out, "not allowed"),
        Some(Ok(())) => put(out, "ok"),
        Some(Err(ExecFault::Refused(refusal))) => put_number(alloc, out, u64::from(refusal.number)),
        Some(Err(ExecFault::Trouble(_))) => put(out, "trouble"),
    }
}
