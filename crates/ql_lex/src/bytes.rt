ghost use Rattle.std.specs.Prelude.{◌≡◌, [], ◌∷◌, drop, MatchOption};
ghost use Rattle.ql_lex.specs.Bytes as spec;

/// What a text begins with, as its first bytes say.
#[derive(Clone, Copy)]
pub enum Start {
    Blank,
    /// `--` or `//`.
    LineComment,
    /// `/*`.
    BlockComment,
    /// An identifier or a keyword.
    Word,
    Number,
    RawString,
    String,
    /// A mark, or a byte that begins nothing.
    Other,
}

/// The first byte and the others.
#[inline]
pub fn first(text: &[u8]) -> Option<(u8, &[u8])>
    ensures { MatchOption result (text.now ≡ []) (λ p. text.now ≡ p.0 ∷ p.1.now) }
{
    let (b, rest) = text.split_first()?;
    Some((*b, rest))
}

/// The bytes behind the first.
#[inline]
pub fn tail(text: &[u8]) -> &[u8]
    ensures { result.now ≡ drop 1 text.now }
{
    match first(text) {
        Some((_, rest)) => rest,
        None => text,
    }
}

#[inline]
pub fn is_blank(b: u8) -> bool
    ensures { result ≡ spec.is_blank b }
{
    b == b' ' || b == b'\t' || b == b'\r' || b == b'\n'
}

#[inline]
pub fn is_letter(b: u8) -> bool
    ensures { result ≡ spec.is_letter b }
{
    (b >= b'a' && b <= b'z') || (b >= b'A' && b <= b'Z') || b == b'_'
}

#[inline]
pub fn is_digit(b: u8) -> bool
    ensures { result ≡ spec.is_digit b }
{
    b >= b'0' && b <= b'9'
}

#[inline]
fn pair_start(b: u8, rest: &[u8]) -> Start
    ensures { result ≡ spec.sign_start b rest.now }
{
    let Some((c, _)) = first(rest) else {
        return Start::Other;
    };
    if (b == b'-' && c == b'-') || (b == b'/' && c == b'/') {
        Start::LineComment
    } else if b == b'/' && c == b'*' {
        Start::BlockComment
    } else {
        Start::Other
    }
}

/// What a text begins with, of which the first byte and the others are given.
#[inline]
pub fn start_of(b: u8, rest: &[u8]) -> Start
    ensures { result ≡ spec.start b rest.now }
{
    if is_blank(b) {
        Start::Blank
    } else if is_letter(b) {
        Start::Word
    } else if is_digit(b) {
        Start::Number
    } else if b == b'`' {
        Start::RawString
    } else if b == b'"' {
        Start::String
    } else {
        pair_start(b, rest)
    }
}
