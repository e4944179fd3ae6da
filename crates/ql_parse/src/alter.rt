//! DROP, TRUNCATE and ALTER TABLE.

ghost use Rattle.ql_cursor.specs.Parses.{Answers, AnswersAnywhere};
ghost use Rattle.ql_syntax.specs.Rules as rule;
ghost use Rattle.ql_parse.specs.StatementParts as spec;
ghost use Rattle.ql_syntax.specs.Statements.{alteration_of, removal_of, truncation_of};

use crate::columns::column_def;
use crate::exists::if_exists;
use ql_cursor::{Cursor, Fault, expect_name, expect_word, sees_word, unexpected};
use ql_edge::{Boxed, Name};
use ql_lex::Word;
use ql_syntax::Statement;
use std::alloc::Global;

/// A keyword, IF EXISTS or none of it, and a name.
fn quiet_name(alloc: Global, cursor: &mut Cursor<'_>, word: Word) -> Result<(bool, Name), Fault>
    ensures { AnswersAnywhere (spec.quiet_rule word) spec.quiet_of cursor.old result cursor.new }
{
    expect_word(cursor, word)?;
    let quiet = if_exists(cursor)?;
    let name = expect_name(alloc, cursor)?;
    Ok((quiet, name))
}

/// DROP TABLE or DROP INDEX.
pub fn removal(alloc: Global, cursor: &mut Cursor<'_>) -> Result<Statement, Fault>
    ensures { AnswersAnywhere (rule.the rule.removal) removal_of cursor.old result cursor.new }
{
    expect_word(cursor, Word::Drop)?;
    if sees_word(cursor, Word::Table) {
        let (quiet, table) = quiet_name(alloc, cursor, Word::Table)?;
        return Ok(Statement::DropTable { quiet, table });
    }
    if sees_word(cursor, Word::Index) {
        let (quiet, index) = quiet_name(alloc, cursor, Word::Index)?;
        return Ok(Statement::DropIndex { quiet, index });
    }
    Err(unexpected(cursor))
}

/// TRUNCATE TABLE.
pub fn truncation(alloc: Global, cursor: &mut Cursor<'_>) -> Result<Statement, Fault>
    ensures { AnswersAnywhere spec.truncation_rule truncation_of cursor.old result cursor.new }
{
    expect_word(cursor, Word::Truncate)?;
    expect_word(cursor, Word::Table)?;
    let table = expect_name(alloc, cursor)?;
    Ok(Statement::Truncate { table })
}

/// The change of a table, from ADD or DROP on.
fn change(
    alloc: Global,
    room: usize,
    cursor: &mut Cursor<'_>,
    table: Name,
) -> Result<Statement, Fault>
    ensures { Answers room spec.change_rule (spec.change_of table)
        cursor.old result cursor.new }
{
    if sees_word(cursor, Word::Add) {
        cursor.skip();
        let definition = column_def(alloc, room, cursor)?;
        let column = Boxed::new(alloc, definition)?;
        return Ok(Statement::AddColumn { table, column });
    }
    if !sees_word(cursor, Word::Drop) {
        return Err(unexpected(cursor));
    }
    cursor.skip();
    expect_word(cursor, Word::Column)?;
    let column = expect_name(alloc, cursor)?;
    Ok(Statement::DropColumn { table, column })
}

/// ALTER TABLE.
pub fn alteration(alloc: Global, room: usize, cursor: &mut Cursor<'_>) -> Result<Statement, Fault>
    ensures { Answers room (rule.the rule.alteration) alteration_of
        cursor.old result cursor.new }
{
    expect_word(cursor, Word::Alter)?;
    expect_word(cursor, Word::Table)?;
    let table = expect_name(alloc, cursor)?;
    change(alloc, room, cursor, table)
}
