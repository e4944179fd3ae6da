//! What a log is, and what two files are.
ghost use Rattle.std.specs.Prelude.{◌≡◌};
ghost use Rattle.lldb_wal.specs.Opening.{beside};

use lldb_base::Batch;

/// What a log is, beside a data file of a size.
#[derive(Debug, Drop)]
pub enum LogState {
    /// It holds nothing.
    Closed,
    /// It holds a batch that may not be in the data file yet.
    Open(Batch),
    /// It is no log.
    Faulty {
        /// The place of the first field that is not whole or breaks a rule, in bytes.
        at: u64,
    },
}

/// What the two files of a database are before anything is written.
#[derive(Debug, Drop)]
pub enum Opening {
    /// There is no database yet, or one that was being made.
    New,
    /// The data file is something else.
    NotDatabase,
    /// The data file is a database's, and the log is no log.
    BadLog {
        /// The place of the first field that is not whole or breaks a rule, in bytes.
        at: u64,
    },
    /// The data file is all.
    Closed,
    /// The data file is to be completed by a batch.
    Open(Batch),
}

impl LogState {
    /// What a database is by its log.
    pub(crate) fn into_opening(self) -> Opening
        ensures { result ≡ beside self }
    {
        match self {
            LogState::Closed => Opening::Closed,
            LogState::Open(batch) => Opening::Open(batch),
            LogState::Faulty { at } => Opening::BadLog { at },
        }
    }
}
