//! The parts of an UPDATE as they are checked in turn.

use ql_edge::Items;
use ql_syntax::Typed;
use ql_value::Kind;

/// A column that values are for.
#[derive(Clone, Copy, Debug)]
pub struct Target {
    /// Its number among the columns of its table, counted from 0.
    pub at: u64,
    pub kind: Kind,
}

/// A column of an UPDATE, by its number, and its new value.
#[derive(Drop)]
pub struct Assigned {
    pub at: u64,
    pub value: Typed,
}

/// The assignments of an UPDATE, in order.
pub type AssignedList = Items<Assigned>;
