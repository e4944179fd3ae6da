ghost use Rattle.std.specs.Prelude.{◌≡◌, ◌<◌, [], ◌∷◌, ◌++◌, true, false, Ok, Err, MatchOption, MatchResult, OnOk, OnErr};
ghost use Rattle.ql_lex.specs.Escapes as spec;

use crate::bytes::first;
use crate::numbers::{are_digits, value_from};
use crate::token::Flaw;
use ql_edge::{Bytes, NoMemory};

/// How an escape goes on behind its first byte.
#[derive(Clone, Copy)]
pub enum Form {
    /// It is whole, and stands for this byte.
    Alone(u8),
    /// So many digits in a base follow. With the value so far they make a byte.
    Byte {
        base: u64,
        count: usize,
        so_far: u64,
    },
    /// So many hexadecimal digits follow, and make a character.
    Character {
        count: usize,
    },
    /// There is no such escape.
    Unknown,
}

/// What an escape stands for.
#[derive(Clone, Copy)]
pub enum Code {
    Byte(u8),
    Character(char),
}

fn form_of(b: u8) -> Form
    ensures { result ≡ spec.form_of b }
{
    match b {
        b'a' => Form::Alone(7),
        b'b' => Form::Alone(8),
        b'f' => Form::Alone(12),
        b'n' => Form::Alone(10),
        b'r' => Form::Alone(13),
        b't' => Form::Alone(9),
        b'v' => Form::Alone(11),
        b'\\' => Form::Alone(92),
        b'"' => Form::Alone(34),
        b'x' => Form::Byte {
            base: 16,
            count: 2,
            so_far: 0,
        },
        b'0'..=b'7' => Form::Byte {
            base: 8,
            count: 2,
            so_far: (b - b'0') as u64,
        },
        b'u' => Form::Character { count: 4 },
        b'U' => Form::Character { count: 8 },
        _ => Form::Unknown,
    }
}

/// The next digits, and what stands behind them.
fn digits_at(base: u64, count: usize, text: &[u8]) -> Result<(&[u8], &[u8]), Flaw>
    ensures { MatchResult result
        (λ found. spec.digits_at base count text.now ≡ Ok (found.0.now, found.1.now))
        (λ f. spec.digits_at base count text.now ≡ Err f) }
{
    if text.len() < count {
        return Err(if are_digits(base, text) {
            Flaw::Unclosed
        } else {
            Flaw::BadLiteral
        });
    }
    let front = &text[..count];
    if !are_digits(base, front) {
        return Err(Flaw::BadLiteral);
    }
    Ok((front, &text[count..]))
}

fn byte_escape(base: u64, count: usize, so_far: u64, text: &[u8]) -> Result<(Code, &[u8]), Flaw>
    requires { 0 < base }
    ensures { MatchResult result
        (λ e. spec.byte_of_digits base so_far (spec.digits_at base count text.now)
        ≡ Ok (e.0, e.1.now))
        (λ f. spec.byte_of_digits base so_far (spec.digits_at base count text.now) ≡ Err f) }
{
    let (front, behind) = digits_at(base, count, text)?;
    let Some(value) = value_from(base, so_far, front) else {
        return Err(Flaw::BadLiteral);
    };
    if value > 255 {
        return Err(Flaw::BadLiteral);
    }
    Ok((Code::Byte(value as u8), behind))
}

/// The character with this number.
fn character(value: u64) -> Option<char>
    ensures { MatchOption result
        (spec.is_character value ≡ false)
        (λ c. (spec.is_character value ≡ true) × (c ≡ value)) }
{
    if value > 0x10_FFFF {
        return None;
    }
    char::from_u32(value as u32)
}

fn character_escape(count: usize, text: &[u8]) -> Result<(Code, &[u8]), Flaw>
    ensures { MatchResult result
        (λ e. spec.character_of_digits (spec.digits_at 16 count text.now) ≡ Ok (e.0, e.1.now))
        (λ f. spec.character_of_digits (spec.digits_at 16 count text.now) ≡ Err f) }
{
    let (front, behind) = digits_at(16, count, text)?;
    let Some(value) = value_from(16, 0, front) else {
        return Err(Flaw::BadLiteral);
    };
    let Some(c) = character(value) else {
        return Err(Flaw::BadLiteral);
    };
    Ok((Code::Character(c), behind))
}

/// What the escape at the front of the text stands for, and what stands behind it. The text begins behind the backslash.
pub fn escape_at(text: &[u8]) -> Result<(Code, &[u8]), Flaw>
    ensures { MatchResult result
        (λ e. spec.escape_at text.now ≡ Ok (e.0, e.1.now))
        (λ f. spec.escape_at text.now ≡ Err f) }
{
    let Some((b, rest)) = first(text) else {
        return Err(Flaw::Unclosed);
    };
    match form_of(b) {
        Form::Alone(byte) => Ok((Code::Byte(byte), rest)),
        Form::Byte {
            base,
            count,
            so_far,
        } => byte_escape(base, count, so_far, rest),
        Form::Character { count } => character_escape(count, rest),
        Form::Unknown => Err(Flaw::BadLiteral),
    }
}

/// Adds the bytes that an escape stands for at the end.
pub fn push_code(out: &mut Bytes, code: Code) -> Result<(), NoMemory>
    ensures ok { OnOk result (out.new ≡ out.old ++ spec.code_bytes code) }
    ensures err { OnErr result (out.new ≡ out.old) }
{
    match code {
        Code::Byte(b) => {
            out.push(b)?;
            Ok(())
        }
        Code::Character(c) => {
            let mut buffer = [0; 4];
            out.extend(c.encode_utf8(&mut buffer).as_bytes())?;
            Ok(())
        }
    }
}
