ghost use Rattle.std.specs.Prelude.{◌≡◌, List, [], ◌∷◌, ◌++◌, length, MatchOption, IfSome};
ghost use Rattle.ql_lex.specs.Marks.{mark_bytes, mark_of_one, mark_of_two, IsLongest, HasNoMark, HasNoPair};

use crate::bytes::first;

/// A mark: an operator or a sign of punctuation.
#[derive(Clone, Copy, Debug, PartialEq, Eq)]
pub enum Mark {
    /// `+`
    Plus,
    /// `-`
    Minus,
    /// `*`
    Star,
    /// `/`
    Slash,
    /// `%`
    Percent,
    /// `&`
    Ampersand,
    /// `|`
    Bar,
    /// `^`
    Caret,
    /// `&&`
    AndAnd,
    /// `||`
    OrOr,
    /// `==`
    EqualEqual,
    /// `=`
    Equal,
    /// `!=`
    BangEqual,
    /// `<>`
    LessGreater,
    /// `<`
    Less,
    /// `<=`
    LessEqual,
    /// `>`
    Greater,
    /// `>=`
    GreaterEqual,
    /// `<<`
    ShiftLeft,
    /// `>>`
    ShiftRight,
    /// `&^`
    AndNot,
    /// `!`
    Bang,
    /// `(`
    Open,
    /// `)`
    Close,
    /// `,`
    Comma,
    /// `;`
    Semicolon,
    /// `.`
    Dot,
}

/// The mark that one byte is.
#[inline]
fn one_byte(a: u8) -> Option<Mark>
    ensures value { result ≡ mark_of_one a }
    ensures bytes { IfSome result (λ mark. mark_bytes mark ≡ a ∷ []) }
{
    match a {
        b'+' => Some(Mark::Plus),
        b'-' => Some(Mark::Minus),
        b'*' => Some(Mark::Star),
        b'/' => Some(Mark::Slash),
        b'%' => Some(Mark::Percent),
        b'&' => Some(Mark::Ampersand),
        b'|' => Some(Mark::Bar),
        b'^' => Some(Mark::Caret),
        b'=' => Some(Mark::Equal),
        b'<' => Some(Mark::Less),
        b'>' => Some(Mark::Greater),
        b'!' => Some(Mark::Bang),
        b'(' => Some(Mark::Open),
        b')' => Some(Mark::Close),
        b',' => Some(Mark::Comma),
        b';' => Some(Mark::Semicolon),
        b'.' => Some(Mark::Dot),
        _ => None,
    }
}

/// The mark that two bytes are.
#[inline]
fn two_bytes(a: u8, b: u8) -> Option<Mark>
    ensures value { result ≡ mark_of_two a b }
    ensures bytes { IfSome result (λ mark. mark_bytes mark ≡ a ∷ b ∷ []) }
{
    match a {
        b'&' => match b {
            b'&' => Some(Mark::AndAnd),
            b'^' => Some(Mark::AndNot),
            _ => None,
        },
        b'|' => match b {
            b'|' => Some(Mark::OrOr),
            _ => None,
        },
        b'=' => match b {
            b'=' => Some(Mark::EqualEqual),
            _ => None,
        },
        b'!' => match b {
            b'=' => Some(Mark::BangEqual),
            _ => None,
        },
        b'<' => match b {
            b'>' => Some(Mark::LessGreater),
            b'=' => Some(Mark::LessEqual),
            b'<' => Some(Mark::ShiftLeft),
            _ => None,
        },
        b'>' => match b {
            b'=' => Some(Mark::GreaterEqual),
            b'>' => Some(Mark::ShiftRight),
            _ => None,
        },
        _ => None,
    }
}

/// The mark of two bytes that a byte and the text behind it begin with, and what stands behind it.
#[inline]
fn pair_at(a: u8, rest: &[u8]) -> Option<(Mark, &[u8])>
    ensures { MatchOption result
        (HasNoPair a rest.now)
        (λ p. (a ∷ rest.now ≡ mark_bytes p.0 ++ p.1.now) × (length (mark_bytes p.0) ≡ 2)) }
{
    let Some((b, behind)) = first(rest) else {
        return None;
    };
    let mark = two_bytes(a, b)?;
    Some((mark, behind))
}

/// The longest mark that the text begins with, and what stands behind it.
#[tactic(auto, using(crate::proofs::MarkLemmas::longest_two, crate::proofs::MarkLemmas::longest_one, crate::proofs::MarkLemmas::no_mark, crate::proofs::MarkLemmas::no_mark_none))]
#[inline]
pub fn mark_at(text: &[u8]) -> Option<(Mark, &[u8])>
    ensures { MatchOption result
        (HasNoMark text.now)
        (λ p. (text.now ≡ mark_bytes p.0 ++ p.1.now) × IsLongest p.0 text.now) }
{
    let Some((a, rest)) = first(text) else {
        return None;
    };
    match pair_at(a, rest) {
        Some((mark, behind)) => Some((mark, behind)),
        None => {
            let mark = one_byte(a)?;
            Some((mark, rest))
        }
    }
}
