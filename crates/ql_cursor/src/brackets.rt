//! What stands in brackets.

ghost use Rattle.std.specs.Prelude.{◌≡◌, ℕ, ◌<◌, true, drop, OnOk, IfErr};
ghost use Rattle.ql_syntax.specs.Lexemes as lexeme;
ghost use Rattle.ql_cursor.specs.Parts.{PartOf, ReadsInside};
ghost use Rattle.ql_cursor.specs.Parses.{AnswersEnclosed, Fails};
ghost use Rattle.ql_syntax.specs.Rules.{Rule};
ghost use Rattle.ql_syntax.specs.Rules as rule;

use crate::cursor::Cursor;
use crate::fault::Fault;
use crate::steps::{expect_mark, sees_mark, unexpected};
use ql_lex::Mark;

/// Takes `(`, where one more bracket may be opened.
fn open_bracket(room: usize, cursor: &mut Cursor<'_>) -> Result<(), Fault>
    ensures room { OnOk result (0 < room) }
    ensures found { OnOk result (lexeme.sees lexeme.is_open cursor.old ≡ true) }
    ensures taken { OnOk result (cursor.new ≡ drop 1 cursor.old) }
    ensures err { IfErr result (λ d. (x : Rule) → Fails room (rule.bracketed x) cursor.old d) }
{
    if !sees_mark(cursor, Mark::Open) {
        return Err(unexpected(cursor));
    }
    if room == 0 {
        return Err(Fault::TooNested(cursor.left()));
    }
    cursor.skip();
    Ok(())
}

/// What the grammar has in brackets.
pub trait Enclosed {
    type Part;

    ghost of: { PartOf Self.Part };
}

/// A part in brackets, which is parsed with room for one bracket less.
pub fn in_brackets<B: Enclosed, P: Fn(usize, &mut Cursor<'_>) -> Result<B::Part, Fault>>(
    room: usize,
    cursor: &mut Cursor<'_>,
    part: P,
) -> Result<B::Part, Fault>
where
    B::Part: Drop,
    requires { ReadsInside room B.of.rule B.of.tree (P.pre part) (P.post part) }
    ensures { AnswersEnclosed room B.of.rule B.of.tree cursor.old result cursor.new }
{
    open_bracket(room, cursor)?;
    let value = part(room - 1, cursor)?;
    expect_mark(cursor, Mark::Close)?;
    Ok(value)
}
