//! How a run ends, and the exit status for it.
ghost use Rattle.std.specs.Prelude.{◌≡◌};
ghost use Rattle.ql_edge.specs.declared.fault.DeviceFault.TheVariants as device;
ghost use Rattle.ql_shell.specs.Code.{code_of};
ghost use Rattle.ql_shell.specs.Cause.{status_of};
ghost use Rattle.ql_shell.specs.declared.status.Status.TheVariants as status;

use ql_edge::{DeviceFault, NoMemory};
use ql_value::Refusal;

/// Why a script was refused as a whole. The number is the place of a byte, counted from 0.
#[derive(Clone, Copy, Debug, PartialEq, Eq)]
pub enum ScriptFault {
    /// It has more bytes than a script may have.
    TooLong,
    /// No token begins with this byte.
    BadByte(u64),
    /// The number, the identifier or the string that begins here is none.
    BadLiteral(u64),
    /// The string or the comment that begins here has no end.
    Unclosed(u64),
    /// The token that begins here is not expected. The script's length stands for an end that comes too early.
    Unexpected(u64),
    /// The bracket here is one more than may be open at once.
    TooNested(u64),
}

/// How a run ended.
#[derive(Debug, Drop)]
pub enum Status {
    /// Every statement was carried out.
    Done,
    Script(ScriptFault),
    /// A statement, counted from 1, was refused. Those before it were carried out.
    Refused { statement: u64, refusal: Refusal },
    /// A word of the command line, counted from 1, is not understood.
    Usage { word: u64 },
    /// A device failed.
    Fault,
    NoMemory,
}

impl From<DeviceFault> for Status {
    ghost from_gives = { λ fault s. s ≡ status_of fault };

    fn from(fault: DeviceFault) -> Status {
        match fault {
            DeviceFault::Failed => Status::Fault,
            DeviceFault::NoMemory => Status::NoMemory,
        }
    }
}

impl From<NoMemory> for Status {
    ghost from_gives = { λ _ s. s ≡ status.NoMemory };

    fn from(_: NoMemory) -> Status {
        Status::NoMemory
    }
}

/// The exit status of the program for a status.
pub fn code(status: &Status) -> u8
    ensures { result ≡ code_of status.now }
{
    match status {
        Status::Done => 0,
        Status::Script(_) | Status::Refused { .. } => 1,
        Status::Usage { .. } => 2,
        Status::Fault => 3,
        Status::NoMemory => 5,
    }
}
