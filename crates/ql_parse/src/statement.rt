//! A statement, by its first keyword.

ghost use Rattle.std.specs.Prelude.{◌≡◌, None, Some};
ghost use Rattle.ql_lex.specs.declared.token.TokenKind.TheVariants as kind;
ghost use Rattle.ql_syntax.specs.Lexemes.{kind_at};
ghost use Rattle.ql_cursor.specs.Parses.{Answers, AnswersAnywhere};
ghost use Rattle.ql_syntax.specs.Rules as rule;
ghost use Rattle.ql_parse.specs.StatementParts as spec;
ghost use Rattle.ql_syntax.specs.Statements.{statement_of};

use crate::alter::{alteration, removal, truncation};
use crate::create::creation;
use crate::insert::insertion;
use crate::update::{deletion, update};
use ql_cursor::{Cursor, Fault, expect_word, unexpected};
use ql_lex::{TokenKind, Word};
use ql_parse_expr::parse_boxed_select;
use ql_syntax::Statement;
use std::alloc::Global;

/// Whether a statement can begin at the next token.
pub fn begins_statement(cursor: &Cursor<'_>) -> bool
    ensures { result ≡ rule.enters (rule.the rule.statement) cursor.now }
{
    matches!(
        cursor.kind(),
        Some(TokenKind::Word(
            Word::Begin
                | Word::Commit
                | Word::Rollback
                | Word::Select
                | Word::Create
                | Word::Drop
                | Word::Alter
                | Word::Truncate
                | Word::Insert
                | Word::Update
                | Word::Delete
        ))
    )
}

/// BEGIN TRANSACTION.
fn begin(cursor: &mut Cursor<'_>) -> Result<Statement, Fault>
    ensures { AnswersAnywhere spec.begin_rule spec.begin_of cursor.old result cursor.new }
{
    expect_word(cursor, Word::Begin)?;
    expect_word(cursor, Word::Transaction)?;
    Ok(Statement::Begin)
}

/// A statement that begins with a keyword, the next token.
fn statement_by_word(
    alloc: Global,
    room: usize,
    cursor: &mut Cursor<'_>,
    word: Word,
) -> Result<Statement, Fault>
    requires next { kind_at cursor.old ≡ Some (kind.Word word) }
    ensures { Answers room (rule.the rule.statement) statement_of
        cursor.old result cursor.new }
{
    match word {
        Word::Begin => begin(cursor),
        Word::Commit => {
            cursor.skip();
            Ok(Statement::Commit)
        }
        Word::Rollback => {
            cursor.skip();
            Ok(Statement::Rollback)
        }
        Word::Select => Ok(Statement::Query(parse_boxed_select(alloc, room, cursor)?)),
        Word::Create => creation(alloc, room, cursor),
        Word::Drop => removal(alloc, cursor),
        Word::Alter => alteration(alloc, room, cursor),
        Word::Truncate => truncation(alloc, cursor),
        Word::Insert => insertion(alloc, room, cursor),
        Word::Update => update(alloc, room, cursor),
        Word::Delete => deletion(alloc, room, cursor),
        _ => Err(unexpected(cursor)),
    }
}

/// A statement.
pub fn statement(alloc: Global, room: usize, cursor: &mut Cursor<'_>) -> Result<Statement, Fault>
    ensures { Answers room (rule.the rule.statement) statement_of
        cursor.old result cursor.new }
{
    let Some(kind) = cursor.kind() else {
        return Err(unexpected(cursor));
    };
    match kind {
        TokenKind::Word(word) => statement_by_word(alloc, room, cursor, word),
        _ => Err(unexpected(cursor)),
    }
}
