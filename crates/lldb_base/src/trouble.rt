//! Why a filer or a heap refuses a call.
ghost use Rattle.std.specs.Prelude.{◌≡◌};
ghost use Rattle.lldb_base.specs.Trouble.{trouble_of};
ghost use Rattle.lldb_base.specs.declared.trouble.Trouble.TheVariants as variant;

use ql_edge::{DeviceFault, NoMemory};

/// Why a call was refused.
#[derive(Clone, Copy, Debug, PartialEq, Eq)]
pub enum Trouble {
    /// The device failed, and its count of faults rose.
    Failed,
    /// Memory ran out.
    NoMemory,
    /// The content would be longer than its limit.
    Full {
        /// The size that would be needed, in bytes.
        need: u64,
        /// The limit, in bytes.
        limit: u64,
    },
    /// The content is not what was written.
    Damaged,
}

impl From<NoMemory> for Trouble {
    ghost from_gives = { λ _ trouble. trouble ≡ variant.NoMemory };

    fn from(_: NoMemory) -> Trouble {
        Trouble::NoMemory
    }
}

impl From<DeviceFault> for Trouble {
    ghost from_gives = { λ fault trouble. trouble ≡ trouble_of fault };

    fn from(fault: DeviceFault) -> Trouble {
        match fault {
            DeviceFault::Failed => Trouble::Failed,
            DeviceFault::NoMemory => Trouble::NoMemory,
        }
    }
}

/// A layer that could not be opened: what lies below it, handed back, and why.
#[derive(Debug, Drop)]
pub struct Refused<F, E> {
    pub below: F,
    pub fault: E,
}
