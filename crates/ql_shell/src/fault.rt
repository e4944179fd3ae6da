//! Why a statement was not carried out.
ghost use Rattle.std.specs.Prelude.{◌≡◌};
ghost use Rattle.lldb_base.specs.Trouble.{trouble_of};
ghost use Rattle.ql_shell.specs.Goings.{step_fault_of};
ghost use Rattle.lldb_base.specs.declared.trouble.Trouble.TheVariants as trouble;
ghost use Rattle.ql_shell.specs.declared.fault.StepFault.TheVariants as step;

use lldb_base::Trouble;
use ql_edge::{DeviceFault, NoMemory};
use ql_exec::ExecFault;
use ql_value::Refusal;

/// Why a statement was not carried out.
#[derive(Debug, Drop)]
pub enum StepFault {
    /// The statement was refused.
    Refused(Refusal),
    /// A device failed, or memory ran out.
    Trouble(Trouble),
}

impl From<DeviceFault> for StepFault {
    ghost from_gives = { λ fault s. s ≡ step.Trouble (trouble_of fault) };

    fn from(fault: DeviceFault) -> StepFault {
        StepFault::Trouble(Trouble::from(fault))
    }
}

impl From<ExecFault> for StepFault {
    ghost from_gives = { λ fault s. s ≡ step_fault_of fault };

    fn from(fault: ExecFault) -> StepFault {
        match fault {
            ExecFault::Refused(refusal) => StepFault::Refused(refusal),
            ExecFault::Trouble(trouble) => StepFault::Trouble(trouble),
        }
    }
}

impl From<NoMemory> for StepFault {
    ghost from_gives = { λ _ fault. fault ≡ step.Trouble trouble.NoMemory };

    fn from(_: NoMemory) -> StepFault {
        StepFault::Trouble(Trouble::NoMemory)
    }
}

impl From<Trouble> for StepFault {
    ghost from_gives = { λ trouble fault. fault ≡ step.Trouble trouble };

    fn from(trouble: Trouble) -> StepFault {
        StepFault::Trouble(trouble)
    }
}
