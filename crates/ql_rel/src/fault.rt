//! Why a relation refuses a call.
ghost use Rattle.std.specs.Prelude.{◌≡◌};
ghost use Rattle.lldb_base.specs.declared.trouble.Trouble.TheVariants as trouble;
ghost use Rattle.ql_rel.specs.declared.fault.RelFault.TheVariants as variant;

use lldb_base::Trouble;
use ql_edge::{Name, NoMemory};

/// Why a relation refused a call.
#[derive(Debug, Drop)]
pub enum RelFault {
    /// The values are more than 65,787 bytes as a row.
    RowTooLong,
    /// A value is more than 1,092 bytes as a key of the index with this name.
    KeyTooLong(Name),
    /// All ids are given away.
    IdsSpent,
    /// A limit of the schema would be passed: tables, indexes, columns, or the text of a rule or default.
    TableLimit,
    /// What lies under the tables refused.
    Trouble(Trouble),
}

impl From<NoMemory> for RelFault {
    ghost from_gives = { λ _ fault. fault ≡ variant.Trouble trouble.NoMemory };

    fn from(_: NoMemory) -> RelFault {
        RelFault::Trouble(Trouble::NoMemory)
    }
}
