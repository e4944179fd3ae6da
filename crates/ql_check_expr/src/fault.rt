//! Why a statement has no plan.

ghost use Rattle.std.specs.Prelude.{◌≡◌};
ghost use Rattle.ql_check_expr.specs.declared.fault.CheckFault.TheVariants as variant;

use ql_edge::NoMemory;
use ql_value::Refusal;

/// Why a statement has no plan.
#[derive(Debug, Drop)]
pub enum CheckFault {
    /// The first refusal of the statement.
    Refused(Refusal),
    /// A growth was refused.
    NoMemory,
}

impl From<NoMemory> for CheckFault {
    ghost from_gives = { λ _ fault. fault ≡ variant.NoMemory };

    fn from(_: NoMemory) -> CheckFault {
        CheckFault::NoMemory
    }
}
