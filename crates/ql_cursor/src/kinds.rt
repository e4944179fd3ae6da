//! What the next token is or can begin.

ghost use Rattle.std.specs.Prelude.{◌≡◌, true, false, [], ◌∷◌, MatchOption};
ghost use Rattle.ql_lex.specs.declared.token.TokenKind.TheVariants as kind;
ghost use Rattle.ql_syntax.specs.Lexemes as spec;
ghost use Rattle.ql_cursor.specs.Kinds.{token_of, kind_of_next};
ghost use Rattle.ql_syntax.specs.Rules.{begins_expr};
ghost use Rattle.ql_syntax.specs.Trees.{kind_named};

use crate::cursor::Cursor;
use ql_lex::{Mark, TokenKind, Word};
use ql_value::Kind;

/// The kind of values that a keyword names.
pub fn kind_of(word: Word) -> Option<Kind>
    ensures { MatchOption result
        (spec.is_kind (token_of (kind.Word word)) ≡ false)
        (λ k. (spec.is_kind (token_of (kind.Word word)) ≡ true) × (k ≡ kind_named (kind.Word word))) }
{
    match word {
        Word::Bool => Some(Kind::Bool),
        Word::String => Some(Kind::Text),
        Word::Blob => Some(Kind::Blob),
        Word::Byte => Some(Kind::Uint8),
        Word::Rune => Some(Kind::Int32),
        Word::Int => Some(Kind::Int64),
        Word::Uint => Some(Kind::Uint64),
        Word::Int8 => Some(Kind::Int8),
        Word::Int16 => Some(Kind::Int16),
        Word::Int32 => Some(Kind::Int32),
        Word::Int64 => Some(Kind::Int64),
        Word::Uint8 => Some(Kind::Uint8),
        Word::Uint16 => Some(Kind::Uint16),
        Word::Uint32 => Some(Kind::Uint32),
        Word::Uint64 => Some(Kind::Uint64),
        _ => None,
    }
}

/// The kind of values that the next token names.
pub fn next_kind(cursor: &Cursor<'_>) -> Option<Kind>
    ensures { MatchOption result
        (spec.sees spec.is_kind cursor.now ≡ false)
        (λ k. (spec.sees spec.is_kind cursor.now ≡ true) × (k ≡ kind_of_next cursor.now)) }
{
    match cursor.kind() {
        Some(TokenKind::Word(word)) => kind_of(word),
        _ => None,
    }
}

fn begins_by_mark(mark: Mark) -> bool
    ensures { result ≡ begins_expr (token_of (kind.Mark mark) ∷ []) }
{
    matches!(
        mark,
        Mark::Plus | Mark::Minus | Mark::Bang | Mark::Caret | Mark::Open
    )
}

fn begins_by_word(word: Word) -> bool
    ensures { result ≡ begins_expr (token_of (kind.Word word) ∷ []) }
{
    match word {
        Word::True | Word::False | Word::Null => true,
        _ => kind_of(word).is_some(),
    }
}

/// Whether an expression can begin at the next token.
pub fn begins_expr(cursor: &Cursor<'_>) -> bool
    ensures { result ≡ begins_expr cursor.now }
{
    match cursor.kind() {
        Some(TokenKind::Number | TokenKind::Text | TokenKind::Name) => true,
        Some(TokenKind::Mark(mark)) => begins_by_mark(mark),
        Some(TokenKind::Word(word)) => begins_by_word(word),
        None => false,
    }
}
