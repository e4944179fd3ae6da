//! What each function of the parser is given.

use std::alloc::Global;

/// Parses what stands in a script with room for so many more open brackets.
///
/// What stands inside a further bracket is parsed by the two functions that it holds, so that each function here is proved by
/// itself, and recursion goes through brackets alone.
#[derive(Clone, Copy)]
pub struct Parser<E, S> {
    pub alloc: Global,
    /// How many more brackets may be opened.
    pub room: usize,
    /// Parses an expression with a smaller room.
    pub expr: E,
    /// Parses a SELECT with a smaller room.
    pub select: S,
}
