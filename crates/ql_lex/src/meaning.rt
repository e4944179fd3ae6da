ghost use Rattle.std.specs.Prelude.{◌≡◌, true, IfOk, IsTrue};
ghost use Rattle.ql_lex.specs.Meaning as spec;
ghost use Rattle.ql_lex.specs.Numbers.{is_number, number_value};
ghost use Rattle.ql_lex.specs.Tokens.{spelling_of};

use crate::Token;
use crate::bytes::first;
use crate::escapes::{escape_at, push_code};
use crate::numbers::number;
use ql_edge::{Bytes, NoMemory};
use std::alloc::Global;

/// The bytes that a token stands on.
fn spelling<'a>(source: &'a [u8], token: &Token) -> &'a [u8]
    ensures { result.now ≡ spelling_of source.now token.now }
{
    let (from, to) = (token.from as usize, token.to as usize);
    let text = &source[from.min(source.len())..];
    &text[..to.saturating_sub(from).min(text.len())]
}

/// The number that a number token of this source is.
pub fn number_of(source: &[u8], token: &Token) -> u64
    requires { IsTrue (is_number (spelling_of source.now token.now)) }
    ensures { result ≡ number_value (spelling_of source.now token.now) }
{
    match number(spelling(source, token)) {
        Some(value) => value,
        None => unreachable!(),
    }
}

/// The bytes of a spelling between its quotes.
fn inside(spelling: &[u8]) -> &[u8]
    ensures { result.now ≡ spec.inside spelling.now }
{
    if spelling.len() < 2 {
        return &[];
    }
    &spelling[1..spelling.len() - 1]
}

fn raw_bytes(alloc: Global, text: &[u8]) -> Result<Bytes, NoMemory>
    ensures { IfOk result (λ out. out ≡ spec.raw_value text.now) }
{
    let mut out = Bytes::new(alloc);
    for b in text {
        if *b != b'\r' {
            out.push(*b)?;
        }
    }
    Ok(out)
}

fn string_bytes(alloc: Global, text: &[u8]) -> Result<Bytes, NoMemory>
    ensures { IfOk result (λ out. out ≡ spec.string_value 0 text.now) }
{
    let mut out = Bytes::new(alloc);
    let mut z = text;
    'bytes: while let Some((b, rest)) = first(z) {
        z = rest;
        if b != b'\\' {
            out.push(b)?;
        } else if let Ok((code, behind)) = escape_at(rest) {
            push_code(&mut out, code)?;
            z = behind;
        }
    }
    Ok(out)
}

/// The bytes that a string token of this source means.
pub fn text_of(alloc: Global, source: &[u8], token: &Token) -> Result<Bytes, NoMemory>
    ensures { IfOk result (λ bytes. bytes ≡ spec.text_value (spelling_of source.now token.now)) }
{
    let spelling = spelling(source, token);
    let text = inside(spelling);
    match spelling {
        [b'`', ..] => raw_bytes(alloc, text),
        _ => string_bytes(alloc, text),
    }
}
