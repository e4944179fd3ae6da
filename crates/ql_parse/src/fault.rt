//! Why tokens are no script.

ghost use Rattle.std.specs.Prelude.{◌≡◌};
ghost use Rattle.ql_parse.specs.declared.fault.ParseFault.TheVariants as public;
ghost use Rattle.ql_parse.specs.ScriptFaults.{parse_fault};

use ql_cursor::Fault;
use ql_edge::NoMemory;

/// Why a list of tokens is no script.
#[derive(Clone, Copy, Debug, PartialEq, Eq)]
pub enum ParseFault {
    /// The token with this number, counted from 0, is unexpected. The number of all tokens stands for an end that comes too early.
    Unexpected(u64),
    /// The token with this number opens one bracket too many.
    TooNested(u64),
    /// Memory ran out. It says nothing of the script.
    NoMemory,
}

impl From<NoMemory> for ParseFault {
    ghost from_gives = { λ _ fault. fault ≡ public.NoMemory };

    fn from(_: NoMemory) -> ParseFault {
        ParseFault::NoMemory
    }
}

/// The fault of a script of so many tokens, by that of a part.
pub fn parse_fault(fault: Fault, count: usize) -> ParseFault
    ensures { result ≡ parse_fault count fault }
{
    match fault {
        Fault::Unexpected(left) => ParseFault::Unexpected(count.saturating_sub(left) as u64),
        Fault::TooNested(left) => ParseFault::TooNested(count.saturating_sub(left) as u64),
        Fault::NoMemory => ParseFault::NoMemory,
    }
}
