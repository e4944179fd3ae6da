//! Statements, and scripts of them.

ghost use Rattle.std.specs.Prelude.{◌≡◌, ◌⊎◌, ◌++◌, ℕ, List, Ok, Err, IfOk, OnOk, IfErr};
ghost use Rattle.ql_lex.specs.Tokens.{Reads};
ghost use Rattle.ql_parse.specs.Later.{later_rule, listed, maybe_statement_of};
ghost use Rattle.ql_syntax.specs.Lexemes.{lexemes};
ghost use Rattle.ql_cursor.specs.Parses.{Answers, Fails, Adds};
ghost use Rattle.ql_syntax.specs.Rules as rule;
ghost use Rattle.ql_parse.specs.ScriptLaws.{ScriptLaws};
ghost use Rattle.ql_syntax.specs.Scripts.{IsUnexpected, IsTooNested};
ghost use Rattle.ql_syntax.specs.Statements.{IsRead, later_of, statements_of};
ghost use Rattle.ql_parse.specs.declared.fault.ParseFault.TheVariants as fault;
ghost use Rattle.ql_parse.specs.declared.scripts.TheConstants.{BRACKET_LIMIT};
ghost use Rattle.ql_syntax.specs.declared.statement.Statement.{Statement};

use crate::fault::{ParseFault, parse_fault};
use crate::statement::{begins_statement, statement};
use ql_cursor::{Cursor, Fault, eat_mark, unexpected};
use ql_edge::NoMemory;
use ql_lex::{Mark, Tokens};
use ql_syntax::{Statement, Statements};
use std::alloc::Global;

/// How many brackets may be open at once.
pub const BRACKET_LIMIT: usize = 200;

/// Adds a statement, if there is one.
fn add(found: &mut Statements, statement: Option<Statement>) -> Result<(), NoMemory>
    ensures { OnOk result (found.new ≡ found.old ++ listed statement) }
{
    if let Some(statement) = statement {
        found.push(statement)?;
    }
    Ok(())
}

/// A statement that may be empty.
fn maybe_statement(
    alloc: Global,
    room: usize,
    cursor: &mut Cursor<'_>,
) -> Result<Option<Statement>, Fault>
    ensures { Answers room (rule.maybe (rule.the rule.statement)) maybe_statement_of
        cursor.old result cursor.new }
{
    if !begins_statement(cursor) {
        return Ok(None);
    }
    Ok(Some(statement(alloc, room, cursor)?))
}

/// Adds the statements behind semicolons.
fn add_later(
    alloc: Global,
    room: usize,
    cursor: &mut Cursor<'_>,
    found: &mut Statements,
) -> Result<(), Fault>
    ensures ok { OnOk result (Adds room later_rule later_of
        cursor.old found.old cursor.new found.new) }
    ensures err { IfErr result (Fails room later_rule cursor.old) }
{
    'later: while eat_mark(cursor, Mark::Semicolon) {
        let statement = maybe_statement(alloc, room, cursor)?;
        add(found, statement)?;
    }
    Ok(())
}

/// The statements of all tokens.
fn statements(alloc: Global, cursor: &mut Cursor<'_>) -> Result<Statements, Fault>
    ensures { Answers BRACKET_LIMIT rule.script statements_of cursor.old result cursor.new }
{
    let mut found = Statements::new(alloc);
    let first = maybe_statement(alloc, BRACKET_LIMIT, cursor)?;
    add(&mut found, first)?;
    add_later(alloc, BRACKET_LIMIT, cursor, &mut found)?;
    if cursor.left() > 0 {
        return Err(unexpected(cursor));
    }
    found.shrink_to_fit();
    Ok(found)
}

/// Reads the tokens of a source as the statements of a script.
///
/// The grammar stands in docs/LANGUAGE.md.
pub fn script(alloc: Global, source: &[u8], tokens: Tokens) -> Result<Statements, ParseFault>
    requires { Reads source.now (Ok tokens) }
    ensures read { IfOk result (IsRead (lexemes source.now tokens)) }
    ensures unexpected { (i : ℕ) → result ≡ Err (fault.Unexpected i)
        → IsUnexpected (lexemes source.now tokens) i }
    ensures too_nested { (i : ℕ) → result ≡ Err (fault.TooNested i)
        → IsTooNested (lexemes source.now tokens) i }

    // Each of these is the answer where it holds, unless memory runs out.
    ensures just_read { (ss : List Statement) → IsRead (lexemes source.now tokens) ss
        → (result ≡ Ok ss) ⊎ (result ≡ Err fault.NoMemory) }
    ensures just_unexpected { (i : ℕ) → IsUnexpected (lexemes source.now tokens) i
        → (result ≡ Err (fault.Unexpected i)) ⊎ (result ≡ Err fault.NoMemory) }
    ensures just_nested { (i : ℕ) → IsTooNested (lexemes source.now tokens) i
        → (result ≡ Err (fault.TooNested i)) ⊎ (result ≡ Err fault.NoMemory) }

    // Laws of the words above, for every list of tokens.
    ensures laws { ScriptLaws }
{
    let count = tokens.len();
    let mut cursor = Cursor::new(source, tokens);
    match statements(alloc, &mut cursor) {
        Ok(found) => Ok(found),
        Err(fault) => Err(parse_fault(fault, count)),
    }
}
