ghost use Rattle.std.specs.Prelude.{◌≡◌, MatchResult};
ghost use Rattle.ql_lex.specs.Strings as spec;

use crate::bytes::first;
use crate::escapes::escape_at;
use crate::token::Flaw;

/// What comes next in an interpreted string.
#[derive(Clone, Copy)]
pub enum StringByte {
    /// The end of the text.
    End,
    Quote,
    Newline,
    Backslash,
    /// A byte that stands for itself.
    Plain,
}

#[inline]
pub fn byte_in_string(b: u8) -> StringByte
    ensures { result ≡ spec.byte_in_string b }
{
    match b {
        b'"' => StringByte::Quote,
        b'\n' => StringByte::Newline,
        b'\\' => StringByte::Backslash,
        _ => StringByte::Plain,
    }
}

/// What stands behind an interpreted string. The text begins behind its opening quote.
#[tactic(auto, using(crate::proofs::StringLemmas::goes_on_same, crate::proofs::StringLemmas::over_plain, crate::proofs::StringLemmas::over_escape, crate::proofs::StringLemmas::at_quote, crate::proofs::StringLemmas::at_newline, crate::proofs::StringLemmas::at_end, crate::proofs::StringLemmas::at_bad_escape))]
pub fn after_string(text: &[u8]) -> Result<&[u8], Flaw>
    ensures { MatchResult result (λ rest. spec.ClosesString text.now rest.now)
        (spec.SpoilsString text.now) }
{
    let mut z = text;
    'bytes: while let Some((b, rest)) = first(z) {
        match byte_in_string(b) {
            StringByte::Quote => return Ok(rest),
            StringByte::Newline => return Err(Flaw::BadLiteral),
            StringByte::Backslash => {
                let (_, behind) = escape_at(rest)?;
                z = behind;
            }
            StringByte::End | StringByte::Plain => z = rest,
        }
    }
    Err(Flaw::Unclosed)
}
