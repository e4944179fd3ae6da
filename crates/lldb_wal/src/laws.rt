//! What is said of logs and files beside what they are.
ghost use Rattle.lldb_wal.specs.Examples.{LogExamples};
ghost use Rattle.lldb_wal.specs.Laws.{LogLaws};
ghost use Rattle.lldb_wal.specs.Spelling.{SpellingLaws};

/// Each byte list is one thing as a log: closed, open with one batch, or faulty at one place; and what two files hold follows
/// from that. The call does nothing.
pub fn log_laws()
    ensures { LogLaws }
{}

/// Files of a few bytes, and what they are. The call does nothing.
pub fn log_examples()
    ensures { LogExamples }
{}

/// A batch that is spelled in a log is read back. The call does nothing.
pub fn spelling_laws()
    ensures { SpellingLaws }
{}
