//! The operators of each level, and those before a part.

ghost use Rattle.std.specs.Prelude.{◌≡◌, true, false, List, ℕ, MatchOption};
ghost use Rattle.ql_syntax.specs.Lexemes as spec;
ghost use Rattle.ql_cursor.specs.Kinds.{token_of};
ghost use Rattle.ql_parse_expr.specs.Levels.{is_op, next_op, next_un_op};
ghost use Rattle.ql_syntax.specs.Trees.{bin_op, un_op};
ghost use Rattle.ql_lex.specs.declared.token.TokenKind.TheVariants as kind;

use ql_cursor::Cursor;
use ql_lex::{Mark, TokenKind, Word};
use ql_value::{BinOp, UnOp};

/// The levels of operators between two parts, from the loosest to the tightest.
#[derive(Clone, Copy, Debug, PartialEq, Eq)]
pub enum Level {
    Either,
    Both,
    Comparison,
    Sum,
    Product,
}

fn mark_op(level: Level, mark: Mark) -> Option<BinOp>
    ensures { MatchOption result
        (is_op level (token_of (kind.Mark mark)) ≡ false)
        (λ op. (is_op level (token_of (kind.Mark mark)) ≡ true) × (op ≡ bin_op (kind.Mark mark))) }
{
    match (level, mark) {
        (Level::Either, Mark::OrOr) => Some(BinOp::Either),
        (Level::Both, Mark::AndAnd) => Some(BinOp::Both),
        (Level::Comparison, Mark::EqualEqual | Mark::Equal) => Some(BinOp::Eq),
        (Level::Comparison, Mark::BangEqual | Mark::LessGreater) => Some(BinOp::Ne),
        (Level::Comparison, Mark::Less) => Some(BinOp::Lt),
        (Level::Comparison, Mark::LessEqual) => Some(BinOp::Le),
        (Level::Comparison, Mark::Greater) => Some(BinOp::Gt),
        (Level::Comparison, Mark::GreaterEqual) => Some(BinOp::Ge),
        (Level::Sum, Mark::Plus) => Some(BinOp::Add),
        (Level::Sum, Mark::Minus) => Some(BinOp::Sub),
        (Level::Sum, Mark::Bar) => Some(BinOp::Or),
        (Level::Sum, Mark::Caret) => Some(BinOp::Xor),
        (Level::Product, Mark::Star) => Some(BinOp::Mul),
        (Level::Product, Mark::Slash) => Some(BinOp::Div),
        (Level::Product, Mark::Percent) => Some(BinOp::Rem),
        (Level::Product, Mark::ShiftLeft) => Some(BinOp::Shl),
        (Level::Product, Mark::ShiftRight) => Some(BinOp::Shr),
        (Level::Product, Mark::Ampersand) => Some(BinOp::And),
        (Level::Product, Mark::AndNot) => Some(BinOp::AndNot),
        _ => None,
    }
}

fn word_op(level: Level, word: Word) -> Option<BinOp>
    ensures { MatchOption result
        (is_op level (token_of (kind.Word word)) ≡ false)
        (λ op. (is_op level (token_of (kind.Word word)) ≡ true) × (op ≡ bin_op (kind.Word word))) }
{
    match (level, word) {
        (Level::Either, Word::Or) => Some(BinOp::Either),
        (Level::Both, Word::And) => Some(BinOp::Both),
        (Level::Comparison, Word::Like) => Some(BinOp::Like),
        _ => None,
    }
}

/// The operator of a level that the next token is.
pub fn next_op(level: Level, cursor: &Cursor<'_>) -> Option<BinOp>
    ensures { MatchOption result
        (spec.sees (is_op level) cursor.now ≡ false)
        (λ op. (spec.sees (is_op level) cursor.now ≡ true) × (op ≡ next_op cursor.now)) }
{
    match cursor.kind() {
        Some(TokenKind::Mark(mark)) => mark_op(level, mark),
        Some(TokenKind::Word(word)) => word_op(level, word),
        _ => None,
    }
}

fn prefix(mark: Mark) -> Option<UnOp>
    ensures { MatchOption result
        (spec.is_prefix (token_of (kind.Mark mark)) ≡ false)
        (λ op. (spec.is_prefix (token_of (kind.Mark mark)) ≡ true) × (op ≡ un_op (kind.Mark mark))) }
{
    match mark {
        Mark::Plus => Some(UnOp::Plus),
        Mark::Minus => Some(UnOp::Minus),
        Mark::Bang => Some(UnOp::Not),
        Mark::Caret => Some(UnOp::Flip),
        _ => None,
    }
}

/// The operator before a part that the next token is.
pub fn next_prefix(cursor: &Cursor<'_>) -> Option<UnOp>
    ensures { MatchOption result
        (spec.sees spec.is_prefix cursor.now ≡ false)
        (λ op. (spec.sees spec.is_prefix cursor.now ≡ true) × (op ≡ next_un_op cursor.now)) }
{
    match cursor.kind() {
        Some(TokenKind::Mark(mark)) => prefix(mark),
        _ => None,
    }
}
