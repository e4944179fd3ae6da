//! The steps over single tokens.

ghost use Rattle.std.specs.Prelude.{◌≡◌, ℕ, true, false, length, drop};
ghost use Rattle.std.specs.Str.{bytes_eq};
ghost use Rattle.ql_syntax.specs.Lexemes as spec;
ghost use Rattle.ql_syntax.specs.Rules as rule;
ghost use Rattle.ql_cursor.specs.Parses.{Gives, AnswersAnywhere, no_value};
ghost use Rattle.ql_syntax.specs.Trees.{name_of, is_present};
ghost use Rattle.ql_cursor.specs.declared.fault.Fault.TheVariants as fault;

use crate::cursor::Cursor;
use crate::fault::Fault;
use ql_edge::{Boxed, Name};
use ql_lex::{Mark, TokenKind, Word};
use std::alloc::Global;

/// The fault of a token that nothing can take.
pub fn unexpected(cursor: &Cursor<'_>) -> Fault
    ensures { result ≡ fault.Unexpected (length cursor.now) }
{
    Fault::Unexpected(cursor.left())
}

/// Whether the next token is this keyword.
pub fn sees_word(cursor: &Cursor<'_>, word: Word) -> bool
    ensures { result ≡ spec.sees (spec.is_word word) cursor.now }
{
    match cursor.kind() {
        Some(TokenKind::Word(found)) => found == word,
        _ => false,
    }
}

/// Whether the next token is this mark.
pub fn sees_mark(cursor: &Cursor<'_>, mark: Mark) -> bool
    ensures { result ≡ spec.sees (spec.is_mark mark) cursor.now }
{
    match cursor.kind() {
        Some(TokenKind::Mark(found)) => found == mark,
        _ => false,
    }
}

/// Whether the next token is a name.
pub fn sees_name(cursor: &Cursor<'_>) -> bool
    ensures { result ≡ spec.sees spec.is_name cursor.now }
{
    matches!(cursor.kind(), Some(TokenKind::Name))
}

/// Takes a keyword.
pub fn expect_word(cursor: &mut Cursor<'_>, word: Word) -> Result<(), Fault>
    ensures { AnswersAnywhere (rule.word word) no_value cursor.old result cursor.new }
{
    if sees_word(cursor, word) {
        cursor.skip();
        Ok(())
    } else {
        Err(unexpected(cursor))
    }
}

/// Takes a mark.
pub fn expect_mark(cursor: &mut Cursor<'_>, mark: Mark) -> Result<(), Fault>
    ensures { AnswersAnywhere (rule.mark mark) no_value cursor.old result cursor.new }
{
    if sees_mark(cursor, mark) {
        cursor.skip();
        Ok(())
    } else {
        Err(unexpected(cursor))
    }
}

/// Takes a keyword, if it is the next token.
pub fn eat_word(cursor: &mut Cursor<'_>, word: Word) -> bool
    ensures { (n : ℕ) → Gives n (rule.maybe (rule.word word)) is_present
        cursor.old result cursor.new }
{
    let found = sees_word(cursor, word);
    if found {
        cursor.skip();
    }
    found
}

/// Takes a name.
pub fn expect_name(alloc: Global, cursor: &mut Cursor<'_>) -> Result<Name, Fault>
    ensures { AnswersAnywhere rule.name name_of cursor.old result cursor.new }
{
    if !sees_name(cursor) {
        return Err(unexpected(cursor));
    }
    let name = cursor.name(alloc)?;
    cursor.skip();
    Ok(name)
}

/// Takes a name, and puts it on the heap.
pub fn expect_boxed_name(alloc: Global, cursor: &mut Cursor<'_>) -> Result<Boxed<Name>, Fault>
    ensures { AnswersAnywhere rule.name name_of cursor.old result cursor.new }
{
    let name = expect_name(alloc, cursor)?;
    Ok(Boxed::new(alloc, name)?)
}

/// Takes a mark, if it is the next token.
pub fn eat_mark(cursor: &mut Cursor<'_>, mark: Mark) -> bool
    ensures found { result ≡ spec.sees (spec.is_mark mark) cursor.old }
    ensures taken { result ≡ true → cursor.new ≡ drop 1 cursor.old }
    ensures kept { result ≡ false → cursor.new ≡ cursor.old }
    ensures read { (n : ℕ) → Gives n (rule.maybe (rule.mark mark)) is_present
        cursor.old result cursor.new }
{
    let found = sees_mark(cursor, mark);
    if found {
        cursor.skip();
    }
    found
}

/// Whether `(` stands behind the next token.
pub fn sees_open_behind(cursor: &Cursor<'_>) -> bool
    ensures { result ≡ spec.sees spec.is_open (drop 1 cursor.now) }
{
    match cursor.second_kind() {
        Some(TokenKind::Mark(mark)) => mark == Mark::Open,
        _ => false,
    }
}

/// Whether a name is spelled so.
pub fn is_spelled(text: &[u8], name: &[u8]) -> bool
    ensures { result ≡ bytes_eq text.now name.now }
{
    text == name
}
