//! Why a call on a device, or a growth, was refused.
ghost use Rattle.std.specs.Prelude.{◌≡◌};
ghost use Rattle.ql_edge.specs.declared.fault.DeviceFault.TheVariants as variant;

use std::alloc::{AllocError, AllocFailed};

/// A growth that was refused. The value that was to grow is as before.
#[derive(Clone, Copy, Debug, PartialEq, Eq)]
pub struct NoMemory;

impl From<AllocError> for NoMemory {
    fn from(_: AllocError) -> NoMemory {
        NoMemory
    }
}

impl<T: Drop> From<AllocFailed<T>> for NoMemory {
    fn from(_: AllocFailed<T>) -> NoMemory {
        NoMemory
    }
}

/// Why a device refused a call.
#[derive(Clone, Copy, Debug, PartialEq, Eq)]
pub enum DeviceFault {
    /// The device failed, and its count of faults rose.
    Failed,
    /// Memory ran out, and nothing changed.
    NoMemory,
}

impl From<NoMemory> for DeviceFault {
    ghost from_gives = { λ _ fault. fault ≡ variant.NoMemory };

    fn from(_: NoMemory) -> DeviceFault {
        DeviceFault::NoMemory
    }
}
