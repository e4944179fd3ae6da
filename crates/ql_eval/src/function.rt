//! The functions that expressions call.

ghost use Rattle.std.specs.Prelude.{◌≡◌};
ghost use Rattle.ql_syntax.specs.Values as spec;
ghost use Rattle.ql_eval.specs.Gives.{Gives};
ghost use Rattle.ql_eval.specs.Question.{test_of};

use crate::EvalFault;
use memchr::memmem;
use ql_value::{Kind, Value, convert};
use std::alloc::Global;

/// The length of a string or a blob in bytes.
pub(crate) fn length_of(alloc: Global, value: &Value) -> Result<Value, EvalFault>
    requires { spec.IsMeant (spec.length_of value.now) }
    ensures { Gives (spec.length_of value.now) result }
{
    match value {
        Value::Null => Ok(Value::Null),
        Value::Text(bytes) | Value::Blob(bytes) => length_number(alloc, bytes.len()),
        _ => unreachable!(),
    }
}

/// A length as a number.
fn length_number(alloc: Global, length: usize) -> Result<Value, EvalFault>
    ensures { Gives (spec.length_number length) result }
{
    let number = Value::Int(Kind::Int64, length as i128);
    Ok(convert(alloc, Kind::Int64, &number)?)
}

/// Whether the second list stands in the first.
pub(crate) fn contains(bytes: &[u8], part: &[u8]) -> bool
    ensures { result ≡ spec.contains bytes.now part.now }
{
    memmem::find(bytes, part).is_some()
}

/// Whether the second list stands at the front of the first.
pub(crate) fn has_prefix(bytes: &[u8], part: &[u8]) -> bool
    ensures { result ≡ spec.has_prefix bytes.now part.now }
{
    bytes.starts_with(part)
}

/// Whether the second list stands at the end of the first.
pub(crate) fn has_suffix(bytes: &[u8], part: &[u8]) -> bool
    ensures { result ≡ spec.has_suffix bytes.now part.now }
{
    bytes.ends_with(part)
}

/// A question to two strings.
#[derive(Clone, Copy)]
pub(crate) enum Question {
    Contains,
    HasPrefix,
    HasSuffix,
}

/// Whether a question to two strings holds.
fn test(question: Question, bytes: &[u8], part: &[u8]) -> bool
    ensures { result ≡ test_of question bytes.now part.now }
{
    match question {
        Question::Contains => contains(bytes, part),
        Question::HasPrefix => has_prefix(bytes, part),
        Question::HasSuffix => has_suffix(bytes, part),
    }
}

/// The answer to a question to two values.
pub(crate) fn answer(question: Question, left: &Value, right: &Value) -> Value
    requires { spec.IsMeant (spec.asked (test_of question) left.now right.now) }
    ensures { spec.asked (test_of question) left.now right.now ≡ spec.gives result }
{
    match (left, right) {
        (Value::Null, _) => Value::Null,
        (_, Value::Null) => Value::Null,
        (Value::Text(bytes), Value::Text(part)) => {
            Value::Bool(test(question, bytes.as_slice(), part.as_slice()))
        }
        _ => unreachable!(),
    }
}
