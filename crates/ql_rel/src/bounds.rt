//! How large the parts of a database may grow.

/// How many tables a database has at most.
pub const TABLE_LIMIT: usize = 4096;

/// How many indexes a database has at most.
pub const INDEX_LIMIT: usize = 4096;

/// How many columns a table has at most. It has one at least.
pub const COLUMN_LIMIT: usize = 256;

/// How many bytes the printed text of a rule or a default has at most.
pub const TEXT_LIMIT: usize = 16384;

/// How many brackets of a printed rule or default are open at once at most. One more is open around it in its CREATE TABLE.
pub const BRACKET_LIMIT: usize = 199;

/// How many bytes a stored row has at most.
pub const ROW_LIMIT: u64 = 65787;

/// How many bytes a value has at most as a key of an index.
pub const KEY_LIMIT: u64 = 1092;

/// The greatest id of a row.
pub const LAST_ID: u64 = 9223372036854775807;
