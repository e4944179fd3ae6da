//! Why an expression has no value.

ghost use Rattle.std.specs.Prelude.{◌≡◌};
ghost use Rattle.ql_eval.specs.Gives.{fault_of};
ghost use Rattle.ql_eval.specs.declared.fault.EvalFault.TheVariants as variant;

use ql_edge::NoMemory;
use ql_value::ValueFault;

/// Why an expression has no value.
#[derive(Clone, Copy, Debug, PartialEq, Eq)]
pub enum EvalFault {
    /// A divisor is 0.
    Divide,
    /// A number is outside the kind that it meets.
    Range,
    /// A shift count is negative.
    NegativeCount,
    /// A growth was refused.
    NoMemory,
}

impl From<NoMemory> for EvalFault {
    ghost from_gives = { λ _ fault. fault ≡ variant.NoMemory };

    fn from(_: NoMemory) -> EvalFault {
        EvalFault::NoMemory
    }
}

impl From<ValueFault> for EvalFault {
    ghost from_gives = { λ from fault. fault ≡ fault_of from };

    fn from(fault: ValueFault) -> EvalFault {
        match fault {
            ValueFault::Divide => EvalFault::Divide,
            ValueFault::Range => EvalFault::Range,
            ValueFault::NegativeCount => EvalFault::NegativeCount,
            ValueFault::NoMemory => EvalFault::NoMemory,
        }
    }
}
