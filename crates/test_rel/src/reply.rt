//! What a call answered.

use ql_edge::NoMemory;
use ql_rel::RelFault;

/// What a call answered.
#[derive(Debug, Drop)]
pub enum Reply {
    Done,
    /// The call asks for what does not hold, and was not made.
    NotAllowed,
    /// The id of a row that was added or given.
    Id(u64),
    /// No row was given.
    NoRow,
    Refused(RelFault),
    Trouble,
}

/// What a change answered.
pub fn of_change(answer: Result<(), RelFault>) -> Reply {
    match answer {
        Ok(()) => Reply::Done,
        Err(fault) => Reply::Refused(fault),
    }
}

/// What a new row answered.
pub fn of_insert(answer: Result<u64, RelFault>) -> Reply {
    match answer {
        Ok(id) => Reply::Id(id),
        Err(fault) => Reply::Refused(fault),
    }
}

/// What a call answered that wants nothing but memory.
pub fn of_memory(answer: Result<(), NoMemory>) -> Reply {
    match answer {
        Ok(()) => Reply::Done,
        Err(NoMemory) => Reply::Trouble,
    }
}
