//! Why a statement was not carried out.

ghost use Rattle.std.specs.Prelude.{◌≡◌, []};
ghost use Rattle.lldb_base.specs.declared.trouble.Trouble.TheVariants as trouble;
ghost use Rattle.ql_exec.specs.Answers as spec;
ghost use Rattle.ql_exec.specs.declared.fault.ExecFault.TheVariants as variant;

use lldb_base::Trouble;
use ql_check::CheckFault;
use ql_edge::NoMemory;
use ql_rel::RelFault;
use ql_value::{IDS_SPENT, KEY_TOO_LONG, ROW_TOO_LONG, Refusal, TABLE_LIMIT_REFUSAL};
use std::alloc::Global;

/// Why a statement was not carried out.
#[derive(Debug, Drop)]
pub enum ExecFault {
    /// The statement was refused.
    Refused(Refusal),
    /// What lies under the tables refused.
    Trouble(Trouble),
}

impl From<NoMemory> for ExecFault {
    ghost from_gives = { λ _ fault. fault ≡ variant.Trouble trouble.NoMemory };

    fn from(_: NoMemory) -> ExecFault {
        ExecFault::Trouble(Trouble::NoMemory)
    }
}

/// A refusal that shows no name.
pub(crate) fn refusal(alloc: Global, number: u8) -> ExecFault
    ensures { result ≡ ExecFault.Refused (record { number = number; name = [] }) }
{
    ExecFault::Refused(Refusal::new(alloc, number))
}

/// What a relation's refusal becomes.
pub(crate) fn fault_of_rel(alloc: Global, fault: RelFault) -> ExecFault
    ensures { result ≡ spec.fault_of_rel fault }
{
    match fault {
        RelFault::RowTooLong => refusal(alloc, ROW_TOO_LONG),
        RelFault::KeyTooLong(index) => ExecFault::Refused(Refusal {
            number: KEY_TOO_LONG,
            name: index.into_bytes(),
        }),
        RelFault::IdsSpent => refusal(alloc, IDS_SPENT),
        RelFault::TableLimit => refusal(alloc, TABLE_LIMIT_REFUSAL),
        RelFault::Trouble(trouble) => ExecFault::Trouble(trouble),
    }
}

/// What the refusal of a statement that has no plan becomes.
pub(crate) fn fault_of_check(fault: CheckFault) -> ExecFault
    ensures { result ≡ spec.fault_of_check fault }
{
    match fault {
        CheckFault::Refused(refusal) => ExecFault::Refused(refusal),
        CheckFault::NoMemory => ExecFault::Trouble(Trouble::NoMemory),
    }
}
