//! Values and their kinds.

ghost use Rattle.std.specs.Prelude.{◌≡◌, IfOk, OnErr};
ghost use Rattle.ql_value.specs.Convert.{IsByteList};
ghost use Rattle.ql_value.specs.Kinds as spec;

use ql_edge::{Bytes, Items, NoMemory};
use std::alloc::Global;

/// The type of a column, and of a value that is not NULL.
#[derive(Clone, Copy, Debug, PartialEq, Eq)]
pub enum Kind {
    Bool,
    Int8,
    Int16,
    Int32,
    Int64,
    Uint8,
    Uint16,
    Uint32,
    Uint64,
    Text,
    Blob,
}

impl Kind {
    /// Whether its values are numbers.
    pub fn is_integer(self) -> bool
        ensures { result ≡ spec.is_integer self }
    {
        match self {
            Kind::Bool | Kind::Text | Kind::Blob => false,
            Kind::Int8 | Kind::Int16 | Kind::Int32 | Kind::Int64 => true,
            Kind::Uint8 | Kind::Uint16 | Kind::Uint32 | Kind::Uint64 => true,
        }
    }

    /// Whether its values are numbers with a sign.
    pub fn is_signed(self) -> bool
        ensures { result ≡ spec.is_signed self }
    {
        matches!(self, Kind::Int8 | Kind::Int16 | Kind::Int32 | Kind::Int64)
    }

    /// Whether its values are truths.
    pub fn is_truth(self) -> bool
        ensures { result ≡ spec.is_truth self }
    {
        matches!(self, Kind::Bool)
    }

    /// Whether its values are strings.
    pub fn is_text(self) -> bool
        ensures { result ≡ spec.is_text self }
    {
        matches!(self, Kind::Text)
    }

    /// Whether its values are strings or blobs.
    pub fn is_byte_list(self) -> bool
        ensures { result ≡ spec.is_byte_list self }
    {
        matches!(self, Kind::Text | Kind::Blob)
    }
}

/// A value of a row. The number of an `Int` is one of its kind.
#[derive(Debug, Drop)]
pub enum Value {
    Null,
    Bool(bool),
    Int(Kind, i128),
    Text(Bytes),
    Blob(Bytes),
}

/// The values of a row, in the order of its columns.
pub type Values = Items<Value>;

/// A copy of the value. Only a string or a blob takes memory.
pub fn copy_value(alloc: Global, value: &Value) -> Result<Value, NoMemory>
    ensures value { IfOk result (λ copy. copy ≡ value.now) }
    ensures memory { OnErr result (IsByteList value.now) }
{
    match value {
        Value::Null => Ok(Value::Null),
        Value::Bool(truth) => Ok(Value::Bool(*truth)),
        Value::Int(kind, number) => Ok(Value::Int(*kind, *number)),
        Value::Text(bytes) => Ok(Value::Text(Bytes::from_slice(alloc, bytes.as_slice())?)),
        Value::Blob(bytes) => Ok(Value::Blob(Bytes::from_slice(alloc, bytes.as_slice())?)),
    }
}
