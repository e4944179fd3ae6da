//! Why two files are not opened.
ghost use Rattle.std.specs.Prelude.{◌≡◌};
ghost use Rattle.lldb_wal.specs.Fault.{fault_of};

use ql_edge::DeviceFault;

/// Why a database was not opened.
#[derive(Clone, Copy, Debug, PartialEq, Eq)]
pub enum WalFault {
    /// The data file is something else, and nothing was written.
    NotDatabase,
    /// The log is no log, and nothing was written.
    BadLog {
        /// The place of the first field that is not whole or breaks a rule, in bytes.
        at: u64,
    },
    /// The device failed, and its count of faults rose.
    Failed,
    /// Memory ran out.
    NoMemory,
}

impl From<DeviceFault> for WalFault {
    ghost from_gives = { λ fault wal. wal ≡ fault_of fault };

    fn from(fault: DeviceFault) -> WalFault {
        match fault {
            DeviceFault::Failed => WalFault::Failed,
            DeviceFault::NoMemory => WalFault::NoMemory,
        }
    }
}
