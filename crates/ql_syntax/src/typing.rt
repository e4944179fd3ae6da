//! The types of expressions.

use ql_value::Kind;

/// What is known of the values of an expression.
#[derive(Clone, Copy, Debug)]
pub enum Typing {
    /// They are all NULL.
    OnlyNull,
    /// They are NULL or of the kind.
    OfKind(Kind),
    /// The table of operators has no such form.
    Ill,
}
