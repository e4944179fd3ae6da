//! What can begin at the next token.

ghost use Rattle.std.specs.Prelude.{◌≡◌};
ghost use Rattle.ql_parse_expr.specs.Predicates.{membership_rule};
ghost use Rattle.ql_syntax.specs.Rules.{enters, join, the, set};

use ql_cursor::Cursor;
use ql_lex::{Mark, TokenKind, Word};

/// Whether NOT, IN or BETWEEN is the next token.
pub fn begins_membership(cursor: &Cursor<'_>) -> bool
    ensures { result ≡ enters membership_rule cursor.now }
{
    matches!(
        cursor.kind(),
        Some(TokenKind::Word(Word::Not | Word::In | Word::Between))
    )
}

/// Whether a join can begin at the next token.
pub fn begins_join(cursor: &Cursor<'_>) -> bool
    ensures { result ≡ enters join cursor.now }
{
    matches!(
        cursor.kind(),
        Some(TokenKind::Word(Word::Left | Word::Right | Word::Full))
    )
}

/// Whether a record set can begin at the next token.
pub fn begins_set(cursor: &Cursor<'_>) -> bool
    ensures { result ≡ enters (the set) cursor.now }
{
    matches!(
        cursor.kind(),
        Some(TokenKind::Name | TokenKind::Mark(Mark::Open))
    )
}
