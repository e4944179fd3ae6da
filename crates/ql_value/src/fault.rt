//! Why an operation on values gives none, and why bytes are no row.

ghost use Rattle.std.specs.Prelude.{◌≡◌};
ghost use Rattle.ql_value.specs.declared.fault.RowFault.TheVariants as row;
ghost use Rattle.ql_value.specs.declared.fault.ValueFault.TheVariants as variant;

use ql_edge::NoMemory;

/// Why an operation on values gives none.
#[derive(Clone, Copy, Debug, PartialEq, Eq)]
pub enum ValueFault {
    /// The divisor is 0.
    Divide,
    /// The number is outside its kind.
    Range,
    /// The shift count is negative.
    NegativeCount,
    /// A growth was refused.
    NoMemory,
}

impl From<NoMemory> for ValueFault {
    ghost from_gives = { λ _ fault. fault ≡ variant.NoMemory };

    fn from(_: NoMemory) -> ValueFault {
        ValueFault::NoMemory
    }
}

/// Why bytes give no row.
#[derive(Clone, Copy, Debug, PartialEq, Eq)]
pub enum RowFault {
    /// They are no row of these kinds.
    BadRow,
    /// A growth was refused.
    NoMemory,
}

impl From<NoMemory> for RowFault {
    ghost from_gives = { λ _ fault. fault ≡ row.NoMemory };

    fn from(_: NoMemory) -> RowFault {
        RowFault::NoMemory
    }
}
