//! What is found is told.
ghost use Rattle.std.specs.Prelude.{◌≡◌, ℕ, ◌++◌, [], ◌∷◌, IsTrue, length, OnOk};
ghost use Rattle.lldb_verify.specs.Logs.{has_room, kept_one};
ghost use Rattle.lldb_verify.specs.Told.{Tells, IsCausedFault, fault_of};

use crate::{FaultLog, Finding, VerifyFault};
use lldb_base::Trouble;

impl From<Trouble> for VerifyFault {
    ghost from_gives = { λ trouble fault. fault ≡ fault_of trouble };

    fn from(trouble: Trouble) -> VerifyFault {
        match trouble {
            Trouble::Failed => VerifyFault::Failed,
            Trouble::NoMemory => VerifyFault::NoMemory,
            Trouble::Full { .. } => VerifyFault::Failed,
            Trouble::Damaged => VerifyFault::Failed,
        }
    }
}

/// Tells a finding, where there is one.
pub(crate) fn tell(log: &mut Box<dyn FaultLog>, finding: Option<Finding>) -> Result<(), VerifyFault>
    requires room { IsTrue (has_room (bound log.old) (length (list log.old))) }
    ensures told { Tells (list log.old ++ kept_one finding) (bound log.old) (list log.new) result }
    ensures room { OnOk result (IsTrue (has_room (bound log.old) (length (list log.new)))) }
    ensures bound { bound log.new ≡ bound log.old }
    ensures cause { (n : ℕ) → IsCausedFault result n n }
{
    match finding {
        Some(finding) => tell_one(log, finding),
        None => Ok(()),
    }
}

/// Tells a finding.
fn tell_one(log: &mut Box<dyn FaultLog>, finding: Finding) -> Result<(), VerifyFault>
    requires room { IsTrue (has_room (bound log.old) (length (list log.old))) }
    ensures told { Tells (list log.old ++ finding ∷ []) (bound log.old) (list log.new) result }
    ensures room { OnOk result (IsTrue (has_room (bound log.old) (length (list log.new)))) }
    ensures bound { bound log.new ≡ bound log.old }
    ensures cause { (n : ℕ) → IsCausedFault result n n }
{
    match log.tell(&finding) {
        Ok(more) => {
            if more {
                Ok(())
            } else {
                Err(VerifyFault::Stopped { last: finding })
            }
        }
        Err(_) => Err(VerifyFault::NoMemory),
    }
}
