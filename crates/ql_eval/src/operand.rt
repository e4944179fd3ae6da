//! What a part of an expression comes to, wherever its value stands.

ghost use Rattle.std.specs.Prelude.{◌≡◌, IfOk};
ghost use Rattle.ql_eval.specs.Operand.{value_of};

use ql_edge::NoMemory;
use ql_value::{Value, copy_value};
use std::alloc::Global;

/// The value of a part of an expression.
#[derive(Drop)]
pub(crate) enum Operand<'a> {
    /// It stands in the expression or in the row.
    Borrowed(&'a Value),
    /// It was made.
    Owned(Value),
}

impl<'a> Operand<'a> {
    pub(crate) fn value(&self) -> &Value
        ensures { result.now ≡ value_of self.now }
    {
        match self {
            Operand::Borrowed(value) => value,
            Operand::Owned(value) => value,
        }
    }

    /// The value, and a copy of it where it stands elsewhere.
    pub(crate) fn into_value(self, alloc: Global) -> Result<Value, NoMemory>
        ensures { IfOk result (λ value. value ≡ value_of self.entry) }
    {
        match self {
            Operand::Borrowed(value) => copy_value(alloc, value),
            Operand::Owned(value) => Ok(value),
        }
    }
}
