ghost use Rattle.std.specs.Prelude.{◌≡◌, ◌∷◌, MatchResult};
ghost use Rattle.ql_lex.specs.Bytes.{start};
ghost use Rattle.ql_lex.specs.Pieces.{Cuts, Spoils};
ghost use Rattle.ql_lex.specs.Words.{Names};
ghost use Rattle.ql_lex.specs.declared.bytes.Start.TheVariants as begin;

use crate::TokenKind;
use crate::bytes::{Start, first, start_of, tail};
use crate::comments::after_comment;
use crate::marks::mark_at;
use crate::numbers::number;
use crate::runs::{Run, after_run, word_at};
use crate::strings::after_string;
use crate::token::Flaw;
use crate::words::word_of;
use ql_edge::NAME_LIMIT;

/// A piece of a script.
#[derive(Clone, Copy)]
pub enum Piece {
    /// A blank or a comment.
    Gap,
    Token(TokenKind),
}

/// The piece that a text begins with, and what stands behind it.
#[derive(Clone, Copy)]
pub struct Cut<'a> {
    pub piece: Piece,
    pub rest: &'a [u8],
}

/// What a word is: a keyword or a name.
fn kind_of(word: &[u8]) -> TokenKind
    ensures { Names word.now result }
{
    match word_of(word) {
        Some(keyword) => TokenKind::Word(keyword),
        None => TokenKind::Name,
    }
}

fn word_piece<'a>(b: u8, rest: &'a [u8], z: &'a [u8]) -> Result<Cut<'a>, Flaw>
    requires { z.now ≡ b ∷ rest.now }
    ensures { MatchResult result (λ cut. Cuts begin.Word b rest.now cut.piece cut.rest.now)
        (Spoils begin.Word b rest.now) }
{
    let (word, behind) = word_at(b, rest, z);
    let len = word.len();
    if len > NAME_LIMIT {
        return Err(Flaw::BadLiteral);
    }
    Ok(Cut {
        piece: Piece::Token(kind_of(word)),
        rest: behind,
    })
}

fn number_piece<'a>(b: u8, rest: &'a [u8], z: &'a [u8]) -> Result<Cut<'a>, Flaw>
    requires { z.now ≡ b ∷ rest.now }
    ensures { MatchResult result (λ cut. Cuts begin.Number b rest.now cut.piece cut.rest.now)
        (Spoils begin.Number b rest.now) }
{
    let (word, behind) = word_at(b, rest, z);
    match number(word) {
        Some(_) => Ok(Cut {
            piece: Piece::Token(TokenKind::Number),
            rest: behind,
        }),
        None => Err(Flaw::BadLiteral),
    }
}

fn raw_piece<'a>(b: u8, rest: &'a [u8]) -> Result<Cut<'a>, Flaw>
    ensures { MatchResult result (λ cut. Cuts begin.RawString b rest.now cut.piece cut.rest.now)
        (Spoils begin.RawString b rest.now) }
{
    match first(after_run(Run::Raw, rest)) {
        Some((_, behind)) => Ok(Cut {
            piece: Piece::Token(TokenKind::Text),
            rest: behind,
        }),
        None => Err(Flaw::Unclosed),
    }
}

fn string_piece<'a>(b: u8, rest: &'a [u8]) -> Result<Cut<'a>, Flaw>
    ensures { MatchResult result (λ cut. Cuts begin.String b rest.now cut.piece cut.rest.now)
        (Spoils begin.String b rest.now) }
{
    match after_string(rest) {
        Ok(behind) => Ok(Cut {
            piece: Piece::Token(TokenKind::Text),
            rest: behind,
        }),
        Err(flaw) => Err(flaw),
    }
}

fn line_piece<'a>(b: u8, rest: &'a [u8]) -> Cut<'a>
    ensures { Cuts begin.LineComment b rest.now result.piece result.rest.now }
{
    Cut {
        piece: Piece::Gap,
        rest: after_run(Run::Line, rest),
    }
}

fn block_piece<'a>(b: u8, rest: &'a [u8]) -> Result<Cut<'a>, Flaw>
    ensures { MatchResult result (λ cut. Cuts begin.BlockComment b rest.now cut.piece cut.rest.now)
        (Spoils begin.BlockComment b rest.now) }
{
    match after_comment(tail(rest)) {
        Some(behind) => Ok(Cut {
            piece: Piece::Gap,
            rest: behind,
        }),
        None => Err(Flaw::Unclosed),
    }
}

fn mark_piece<'a>(b: u8, rest: &'a [u8], z: &'a [u8]) -> Result<Cut<'a>, Flaw>
    requires { z.now ≡ b ∷ rest.now }
    ensures { MatchResult result (λ cut. Cuts begin.Other b rest.now cut.piece cut.rest.now)
        (Spoils begin.Other b rest.now) }
{
    match mark_at(z) {
        Some((mark, behind)) => Ok(Cut {
            piece: Piece::Token(TokenKind::Mark(mark)),
            rest: behind,
        }),
        None => Err(Flaw::BadByte),
    }
}

/// The piece that the text `z` begins with. The first byte of `z` and the others are given too.
pub fn piece_at<'a>(b: u8, rest: &'a [u8], z: &'a [u8]) -> Result<Cut<'a>, Flaw>
    requires { z.now ≡ b ∷ rest.now }
    ensures { MatchResult result
        (λ cut. Cuts (start b rest.now) b rest.now cut.piece cut.rest.now)
        (Spoils (start b rest.now) b rest.now) }
{
    match start_of(b, rest) {
        Start::Blank => Ok(Cut {
            piece: Piece::Gap,
            rest,
        }),
        Start::LineComment => Ok(line_piece(b, rest)),
        Start::BlockComment => block_piece(b, rest),
        Start::Word => word_piece(b, rest, z),
        Start::Number => number_piece(b, rest, z),
        Start::RawString => raw_piece(b, rest),
        Start::String => string_piece(b, rest),
        Start::Other => mark_piece(b, rest, z),
    }
}
