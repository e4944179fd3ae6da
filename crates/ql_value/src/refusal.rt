//! The refusals that a statement may meet.

ghost use Rattle.std.specs.Prelude.{◌≡◌, [], IfOk};
ghost use Rattle.ql_value.specs.Refusal.{refusal_word};

use ql_edge::{Bytes, NoMemory};
use std::alloc::Global;

/// The refusal of a statement that names a table that is not there.
pub const NO_TABLE: u8 = 1;

/// The refusal of a column that no record set has, and of a record set that is not there.
pub const NO_COLUMN: u8 = 2;

/// The refusal of a name that has several meanings.
pub const AMBIGUOUS: u8 = 3;

/// The refusal of a statement that makes a table that is there.
pub const EXISTS: u8 = 4;

/// The refusal of operands that an operator does not take. It names nothing.
pub const TYPE: u8 = 5;

/// The refusal of another number of parts than is wanted. It names nothing.
pub const COUNT: u8 = 6;

/// The refusal of a literal outside the kind that it meets. It names nothing.
pub const CONSTANT_RANGE: u8 = 7;

/// The refusal of an aggregate where none may stand. It names nothing.
pub const AGGREGATE: u8 = 8;

/// The refusal of a new name that begins with two underscores, and of a change to a set that describes the database
/// itself. It shows the name.
pub const RESERVED: u8 = 9;

/// The refusal of a statement that is not carried out yet. It names nothing.
pub const LATER: u8 = 10;

/// The refusal of a divisor that is 0. It names nothing.
pub const DIVIDE: u8 = 20;

/// The refusal of a number outside the kind that it meets as a value. It names nothing.
pub const RANGE: u8 = 21;

/// The refusal of a shift count that is negative. It names nothing.
pub const NEGATIVE_COUNT: u8 = 22;

/// The refusal of a row that is too long. It names nothing.
pub const ROW_TOO_LONG: u8 = 33;

/// The refusal of a value that is too long as a key of an index. It shows the index's name.
pub const KEY_TOO_LONG: u8 = 34;

/// The refusal of a row for which no id is left. It names nothing.
pub const IDS_SPENT: u8 = 35;

/// The refusal of a table, an index, a column, a rule or a default past the limits of a schema. It names nothing.
pub const TABLE_LIMIT_REFUSAL: u8 = 36;

/// Why a statement was refused.
#[derive(Debug, Drop)]
pub struct Refusal {
    /// What went wrong, by its number.
    pub number: u8,
    /// The name that it is about, and empty where there is none.
    pub name: Bytes,
}

impl Refusal {
    /// A refusal that names nothing. It takes no memory.
    pub fn new(alloc: Global, number: u8) -> Refusal
        ensures { result ≡ record { number = number; name = [] } }
    {
        Refusal {
            number,
            name: Bytes::new(alloc),
        }
    }

    /// A refusal that shows a copy of a name.
    pub fn with_name(alloc: Global, number: u8, name: &[u8]) -> Result<Refusal, NoMemory>
        ensures { IfOk result (λ refusal. refusal ≡ record { number = number; name = name.now }) }
    {
        let name = Bytes::from_slice(alloc, name)?;
        Ok(Refusal { number, name })
    }

    /// The word for the refusal's number.
    pub fn word(&self) -> &'static [u8]
        ensures { result.now ≡ refusal_word self.now.number }
    {
        match self.number {
            NO_TABLE => b"NoTable",
            NO_COLUMN => b"NoColumn",
            AMBIGUOUS => b"Ambiguous",
            EXISTS => b"Exists",
            TYPE => b"Type",
            COUNT => b"Count",
            CONSTANT_RANGE => b"ConstantRange",
            AGGREGATE => b"Aggregate",
            RESERVED => b"Reserved",
            LATER => b"Later",
            DIVIDE => b"Divide",
            RANGE => b"Range",
            NEGATIVE_COUNT => b"NegativeCount",
            ROW_TOO_LONG => b"RowTooLong",
            KEY_TOO_LONG => b"KeyTooLong",
            IDS_SPENT => b"IdsSpent",
            TABLE_LIMIT_REFUSAL => b"TableLimit",
            _ => b"",
        }
    }
}
