//! Why tokens do not read.

ghost use Rattle.std.specs.Prelude.{◌≡◌};
ghost use Rattle.ql_cursor.specs.declared.fault.Fault.TheVariants as variant;

use ql_edge::NoMemory;

/// Why a part of a script does not read. The number is that of the tokens that are left, from the place on.
#[derive(Clone, Copy, Debug, PartialEq, Eq)]
pub enum Fault {
    /// The next token is unexpected, or the end comes too early.
    Unexpected(usize),
    /// The next token opens a bracket, and no more may be opened.
    TooNested(usize),
    /// Memory ran out. It says nothing of the script.
    NoMemory,
}

impl From<NoMemory> for Fault {
    ghost from_gives = { λ _ fault. fault ≡ variant.NoMemory };

    fn from(_: NoMemory) -> Fault {
        Fault::NoMemory
    }
}
