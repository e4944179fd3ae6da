//! The tokens that are left to read.

ghost use Rattle.std.specs.Prelude.{◌≡◌, [], ◌∷◌, length, drop, reverse, All, IfOk, IsTrue, MatchOption};
ghost use Rattle.ql_lex.specs.Meaning.{text_value};
ghost use Rattle.ql_lex.specs.Numbers.{number_value};
ghost use Rattle.ql_lex.specs.Tokens.{IsIn, spelling_of};
ghost use Rattle.ql_syntax.specs.Lexemes as spec;

use ql_edge::{Bytes, Name, NoMemory};
use ql_lex::{Token, TokenKind, Tokens, number_of, text_of};
use std::alloc::Global;
use std::marker::Model;

/// For how many tokens that were read room is kept at most, before it is given back.
const ROOM_KEPT: usize = 65_536;

/// The tokens of a source that are left to read. Contracts see them with their spellings.
#[derive(Drop)]
pub struct Cursor<'a> {
    source: &'a [u8],
    /// In reverse order, so that a token that was read gives its room back.
    tokens: Vec<Token>,
}

/// The next token and those behind it, where tokens stand in reverse order.
fn next(tokens: &[Token]) -> Option<(Token, &[Token])>
    ensures { MatchOption result
        (reverse tokens.now ≡ [])
        (λ p. reverse tokens.now ≡ p.0 ∷ reverse p.1.now) }
{
    let (token, rest) = tokens.split_last()?;
    Some((*token, rest))
}

/// The bytes that a token stands on.
fn spelling<'a>(source: &'a [u8], token: &Token) -> &'a [u8]
    requires { IsIn source.now token.now }
    ensures { result.now ≡ spelling_of source.now token.now }
{
    &source[token.from as usize..token.to as usize]
}

impl<'a> Model for Cursor<'a> {
    ghost use Rattle.std.specs.Prelude.{List, All, reverse};
    ghost use Rattle.ql_lex.specs.Tokens.{IsIn};
    ghost use Rattle.ql_syntax.specs.Lexemes.{Lexeme, lexemes};

    ghost Value = { List Lexeme };

    ghost view = { λ c. lexemes c.source.now (reverse c.tokens.items) };

    ghost invariant = { λ c. All (IsIn c.source.now) (reverse c.tokens.items) };
}

impl<'a> Cursor<'a> {
    /// All tokens of a source.
    pub fn new(source: &'a [u8], tokens: Tokens) -> Cursor<'a>
        requires { All (IsIn source.now) tokens }
        ensures { result ≡ spec.lexemes source.now tokens }
    {
        let mut tokens = tokens.into_vec();
        tokens.reverse();
        Cursor { source, tokens }
    }

    /// How many tokens are left.
    pub fn left(&self) -> usize
        ensures { result ≡ length self.now }
    {
        self.tokens.len()
    }

    /// What the next token is.
    pub fn kind(&self) -> Option<TokenKind>
        ensures { result ≡ spec.kind_at self.now }
    {
        let (token, _) = next(&self.tokens)?;
        Some(token.kind)
    }

    /// What the token behind the next one is.
    pub fn second_kind(&self) -> Option<TokenKind>
        ensures { result ≡ spec.kind_at (drop 1 self.now) }
    {
        let (_, rest) = next(&self.tokens)?;
        let (token, _) = next(rest)?;
        Some(token.kind)
    }

    /// The bytes that the next token stands on, none at the end.
    pub fn text(&self) -> &'a [u8]
        ensures { result.now ≡ spec.text_at self.now }
    {
        match next(&self.tokens) {
            Some((token, _)) => spelling(self.source, &token),
            None => &[],
        }
    }

    /// The next token, a name.
    pub fn name(&self, alloc: Global) -> Result<Name, NoMemory>
        requires { IsTrue (spec.sees spec.is_name self.now) }
        ensures { IfOk result (λ name. name ≡ spec.text_at self.now) }
    {
        match next(&self.tokens) {
            Some((token, _)) => Name::new(alloc, spelling(self.source, &token)),
            None => unreachable!(),
        }
    }

    /// The number that the next token is.
    pub fn number(&self) -> u64
        requires { IsTrue (spec.sees spec.is_number self.now) }
        ensures { result ≡ number_value (spec.text_at self.now) }
    {
        match next(&self.tokens) {
            Some((token, _)) => number_of(self.source, &token),
            None => unreachable!(),
        }
    }

    /// The bytes that the next token means, a string.
    pub fn string(&self, alloc: Global) -> Result<Bytes, NoMemory>
        requires { IsTrue (spec.sees spec.is_text self.now) }
        ensures { IfOk result (λ bytes. bytes ≡ text_value (spec.text_at self.now)) }
    {
        match next(&self.tokens) {
            Some((token, _)) => text_of(alloc, self.source, &token),
            None => unreachable!(),
        }
    }

    /// Goes behind the next token.
    pub fn skip(&mut self)
        ensures { self.new ≡ drop 1 self.old }
    {
        self.tokens.pop();
        let left = self.tokens.len();
        if self.tokens.capacity() - left >= ROOM_KEPT {
            self.tokens.shrink_to(left);
        }
    }
}
