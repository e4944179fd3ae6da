ghost use Rattle.std.specs.Prelude.{◌≡◌, ℕ, ◌<◌, ◌^◌};
ghost use Rattle.ql_lex.specs.declared.token.LexFault.TheVariants as variant;
ghost use Rattle.ql_lex.specs.Fault.{fault_at};

use crate::{Mark, Word};
use ql_edge::{Items, NoMemory};

/// A token of a script, and the bytes that it stands on.
#[derive(Clone, Copy, Debug, PartialEq, Eq)]
pub struct Token {
    pub kind: TokenKind,
    /// The place of its first byte, counted from 0.
    pub from: u64,
    /// The place behind its last byte.
    pub to: u64,
}

/// What a token is.
#[derive(Clone, Copy, Debug, PartialEq, Eq)]
pub enum TokenKind {
    /// An identifier that is no keyword.
    Name,
    /// A number, which `number_of` reads.
    Number,
    /// A string of either form, which `text_of` reads.
    Text,
    /// An operator or a sign of punctuation.
    Mark(Mark),
    /// A keyword.
    Word(Word),
}

/// The tokens of a script, in their order.
pub type Tokens = Items<Token>;

/// Why a script has no tokens. The number is the place of a byte, counted from 0.
#[derive(Clone, Copy, Debug, PartialEq, Eq)]
pub enum LexFault {
    /// No token begins with this byte.
    BadByte(u64),
    /// The number, the identifier or the string that begins here is none.
    BadLiteral(u64),
    /// The string or the comment that begins here has no end.
    Unclosed(u64),
    /// Memory ran out. It says nothing of the script.
    NoMemory,
}

impl From<NoMemory> for LexFault {
    ghost from_gives = { λ _ fault. fault ≡ variant.NoMemory };

    fn from(_: NoMemory) -> LexFault {
        LexFault::NoMemory
    }
}

/// What is wrong with the piece that a text begins with.
#[derive(Clone, Copy)]
pub enum Flaw {
    /// No token begins with its first byte.
    BadByte,
    /// It is no number, identifier or string.
    BadLiteral,
    /// It has no end.
    Unclosed,
}

impl Flaw {
    /// The fault of a piece with this flaw that begins at a place.
    pub fn at(self, place: u64) -> LexFault
        ensures { result ≡ fault_at self place }
    {
        match self {
            Flaw::BadByte => LexFault::BadByte(place),
            Flaw::BadLiteral => LexFault::BadLiteral(place),
            Flaw::Unclosed => LexFault::Unclosed(place),
        }
    }
}
