//! What is known of an expression whose names are resolved.

use crate::{Typed, Typing};
use ql_edge::Items;

/// An integer literal, with or without one minus before it.
#[derive(Clone, Copy, Debug)]
pub struct Literal {
    pub minus: bool,
    pub size: u64,
}

/// What is known of an expression whose names are resolved.
#[derive(Drop)]
pub struct Checked {
    /// The literal that the expression is, if it is one.
    pub literal: Option<Literal>,
    /// Whether it is untyped, which means that it has no kind of its own.
    pub untyped: bool,
    /// Its type, int64 where it is untyped.
    pub typing: Typing,
    /// The resolved expression, which computes in int64 where it is untyped.
    pub tree: Typed,
}

/// Expressions in the order of the text.
pub type CheckedList = Items<Checked>;
