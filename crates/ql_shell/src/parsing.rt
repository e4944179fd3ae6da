//! From the bytes of a script to its statements.
ghost use Rattle.std.specs.Prelude.{◌≡◌, ◌⊎◌, ◌≤◌, All, List, Result, Ok, Err, IfOk, IfErr, length};
ghost use Rattle.ql_lex.specs.Tokens.{Reads};
ghost use Rattle.ql_lex.specs.declared.token.Token.{Token};
ghost use Rattle.ql_syntax.specs.declared.statement.Statement.{Statement};
ghost use Rattle.ql_syntax.specs.ReadsBack.{IsReadBack};
ghost use Rattle.ql_shell.specs.Cause.{status_of_lexing, status_of_parsing};
ghost use Rattle.ql_shell.specs.Comes as spec;
ghost use Rattle.ql_shell.specs.Comes.{Comes, longest_script, read_as};
ghost use Rattle.ql_shell.specs.Run.{IsUnread};
ghost use Rattle.ql_shell.specs.declared.status.ScriptFault.{ScriptFault};
ghost use Rattle.ql_shell.specs.declared.status.Status.TheVariants as status;

use crate::status::{ScriptFault, Status};
use ql_edge::NoMemory;
use ql_lex::{LexFault, Tokens, tokens};
use ql_parse::{ParseFault, script};
use ql_syntax::Statements;
use std::alloc::Global;

/// The status of a run whose script has no tokens.
fn lexing_status(fault: LexFault) -> Status
    ensures { result ≡ status_of_lexing fault }
{
    match fault {
        LexFault::BadByte(place) => Status::Script(ScriptFault::BadByte(place)),
        LexFault::BadLiteral(place) => Status::Script(ScriptFault::BadLiteral(place)),
        LexFault::Unclosed(place) => Status::Script(ScriptFault::Unclosed(place)),
        LexFault::NoMemory => Status::NoMemory,
    }
}

/// The place of the first byte of the token with this number, and the length of the source where there is none.
fn place_of(source: &[u8], tokens: &Tokens, at: u64) -> u64
    ensures { result ≡ spec.place_of source.now tokens.now at }
{
    match tokens.as_slice().get(at as usize) {
        Some(token) => token.from,
        None => source.len() as u64,
    }
}

/// The place of the token with this number in a source that has tokens.
///
/// Reading lets the tokens go, so the source is cut into tokens once more, which only want of memory can stop.
fn find_place(alloc: Global, source: &[u8], at: u64) -> Result<u64, NoMemory>
    ensures { (ts : List Token) → Reads source.now (Ok ts)
        → IfOk result (λ place. place ≡ spec.place_of source.now ts at) }
{
    match tokens(alloc, source) {
        Ok(tokens) => Ok(place_of(source, &tokens, at)),
        Err(_) => Err(NoMemory),
    }
}

/// The fault of a script that has tokens and no statements.
fn parsing_fault(alloc: Global, source: &[u8], fault: ParseFault) -> Result<ScriptFault, NoMemory>
    ensures { (ts : List Token) → Reads source.now (Ok ts)
        → IfOk result (λ f. status_of_parsing source.now ts fault ≡ status.Script f) }
{
    match fault {
        ParseFault::Unexpected(at) => Ok(ScriptFault::Unexpected(find_place(alloc, source, at)?)),
        ParseFault::TooNested(at) => Ok(ScriptFault::TooNested(find_place(alloc, source, at)?)),
        ParseFault::NoMemory => Err(NoMemory),
    }
}

/// Reads the statements of a script that is not too long. What each of them prints is read as it again.
pub fn read_statements(alloc: Global, source: &[u8]) -> Result<Statements, Status>
    requires { length source.now ≤ longest_script }
    ensures read { IfOk result (λ ss. Comes source.now (Ok ss)) }
    ensures fault { (f : ScriptFault) → result ≡ Err (status.Script f) → Comes source.now (Err f) }
    ensures unread { IfErr result IsUnread }
    ensures read_back { IfOk result (All IsReadBack) }

    // What the script comes to is the answer, unless memory runs out.
    ensures only { (outcome : Result (List Statement) ScriptFault) → Comes source.now outcome
        → (result ≡ read_as outcome) ⊎ (result ≡ Err status.NoMemory) }
{
    let tokens = match tokens(alloc, source) {
        Ok(tokens) => tokens,
        Err(fault) => return Err(lexing_status(fault)),
    };
    match script(alloc, source, tokens) {
        Ok(statements) => Ok(statements),
        Err(fault) => Err(Status::Script(parsing_fault(alloc, source, fault)?)),
    }
}
