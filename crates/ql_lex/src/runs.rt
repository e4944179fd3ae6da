ghost use Rattle.std.specs.Prelude.{◌≡◌, ◌≤◌, ◌∷◌, length};
ghost use Rattle.std.specs.List.{prefix_len};
ghost use Rattle.ql_lex.specs.Bytes.{is_in_word, after};
ghost use Rattle.ql_lex.specs.Pieces.{word_of};
ghost use Rattle.ql_lex.specs.Runs as spec;

use crate::bytes::{is_digit, is_letter};

/// The bytes that something goes on with.
#[derive(Clone, Copy)]
pub enum Run {
    /// An identifier or a number.
    Word,
    /// A comment to the end of the line.
    Line,
    /// A raw string.
    Raw,
}

#[inline]
fn passes(run: Run, b: u8) -> bool
    ensures { result ≡ spec.passes run b }
{
    match run {
        Run::Word => is_letter(b) || is_digit(b),
        Run::Line => b != b'\n',
        Run::Raw => b != b'`',
    }
}

/// How many bytes of the text the run takes.
#[inline]
fn run_len(run: Run, text: &[u8]) -> usize
    ensures value { result ≡ prefix_len (spec.passes run) text.now }
    ensures within { result ≤ length text.now }
{
    let mut end = 0;
    'bytes: while end < text.len() {
        if !passes(run, text[end]) {
            return end;
        }
        end += 1;
    }
    end
}

/// What stands behind a run.
#[tactic(auto, using(crate::proofs::RunLemmas::from_there))]
#[inline]
pub fn after_run(run: Run, text: &[u8]) -> &[u8]
    ensures { result.now ≡ after (spec.passes run) text.now }
{
    &text[run_len(run, text)..]
}

/// The word that the text `z` begins with, and what stands behind it. The first byte of `z` and the others are given too.
#[tactic(auto, using(crate::proofs::RunLemmas::from_there, crate::proofs::RunLemmas::word_front))]
#[inline]
pub fn word_at<'a>(b: u8, rest: &'a [u8], z: &'a [u8]) -> (&'a [u8], &'a [u8])
    requires { z.now ≡ b ∷ rest.now }
    ensures word { result.0.now ≡ word_of b rest.now }
    ensures behind { result.1.now ≡ after is_in_word rest.now }
{
    let len = run_len(Run::Word, rest);
    (&z[..len + 1], &rest[len..])
}
