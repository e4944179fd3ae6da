//! IF EXISTS and IF NOT EXISTS.

ghost use Rattle.ql_cursor.specs.Parses.{AnswersAnywhere};
ghost use Rattle.ql_syntax.specs.Rules as rule;
ghost use Rattle.ql_syntax.specs.Trees.{is_present};

use ql_cursor::{Cursor, Fault, expect_word, sees_word};
use ql_lex::Word;

/// IF EXISTS, or none of it: whether it stands there.
pub fn if_exists(cursor: &mut Cursor<'_>) -> Result<bool, Fault>
    ensures { AnswersAnywhere (rule.maybe rule.if_exists) is_present cursor.old result cursor.new }
{
    if !sees_word(cursor, Word::If) {
        return Ok(false);
    }
    cursor.skip();
    expect_word(cursor, Word::Exists)?;
    Ok(true)
}

/// IF NOT EXISTS, or none of it: whether it stands there.
pub fn unless_exists(cursor: &mut Cursor<'_>) -> Result<bool, Fault>
    ensures { AnswersAnywhere (rule.maybe rule.if_not_exists) is_present
        cursor.old result cursor.new }
{
    if !sees_word(cursor, Word::If) {
        return Ok(false);
    }
    cursor.skip();
    expect_word(cursor, Word::Not)?;
    expect_word(cursor, Word::Exists)?;
    Ok(true)
}
