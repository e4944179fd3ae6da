//! The operators of arithmetic.

ghost use Rattle.std.specs.Prelude.{◌≡◌, ◌≢◌, ◌^◌, ◌<◌, pos, ◌+ℤ◌, ◌-ℤ◌, ◌*ℤ◌, int_div, bit_and, bit_or, bit_xor, ◌++◌, IfOk};
ghost use Rattle.std.specs.Int.{IsNonZero, w128, int_div_euclid};
ghost use Rattle.ql_value.specs.Number.{width, residue, wrapped};
ghost use Rattle.ql_value.specs.Arith.{IsArithmetic, AreOperands, AreTexts, arith_of, stands_for, on_numbers, flipped};
ghost use Rattle.ql_edge.specs.Answers.{Gives};

use crate::wrapping::{width_of, wrap};
use crate::{BinOp, Kind, Value, ValueFault};
use ql_edge::{Bytes, NoMemory};
use std::alloc::Global;

/// An operator of arithmetic on two values. A NULL on either side gives NULL; memory is taken only to join strings.
pub fn arith(alloc: Global, op: BinOp, left: &Value, right: &Value) -> Result<Value, ValueFault>
    requires { AreOperands op left.now right.now }
    ensures value { Gives Ok stands_for (arith_of op left.now right.now) result }
    ensures memory { result ≡ Err ValueFault.NoMemory → AreTexts left.now right.now }
{
    match (left, right) {
        (Value::Null, _) => Ok(Value::Null),
        (_, Value::Null) => Ok(Value::Null),
        (Value::Int(kind, a), Value::Int(_, b)) => calculate(op, *kind, *a, *b),
        (Value::Text(a), Value::Text(b)) => Ok(Value::Text(join(alloc, a, b)?)),
        _ => unreachable!(),
    }
}

/// The bytes of the first, and then those of the second.
fn join(alloc: Global, first: &Bytes, second: &Bytes) -> Result<Bytes, NoMemory>
    ensures { IfOk result (λ both. both ≡ first.now ++ second.now) }
{
    let mut both = Bytes::from_slice(alloc, first.as_slice())?;
    both.extend(second.as_slice())?;
    Ok(both)
}

/// An operator of arithmetic on two numbers, the first of this kind.
fn calculate(op: BinOp, kind: Kind, a: i128, b: i128) -> Result<Value, ValueFault>
    requires { IsArithmetic op }
    ensures value { result ≡ on_numbers op kind a b }
    ensures no_memory { result ≢ Err ValueFault.NoMemory }
{
    match op {
        BinOp::Mul => Ok(Value::Int(kind, product(kind, a, b))),
        BinOp::Div => quotient(kind, a, b),
        BinOp::Rem => rest(kind, a, b),
        BinOp::Shl => left_shift(kind, a, b),
        BinOp::Shr => right_shift(kind, a, b),
        BinOp::And => Ok(Value::Int(kind, bits_of_both(kind, a, b))),
        BinOp::AndNot => Ok(Value::Int(kind, bits_of_first_alone(kind, a, b))),
        BinOp::Add => Ok(Value::Int(kind, sum(kind, a, b))),
        BinOp::Sub => Ok(Value::Int(kind, difference(kind, a, b))),
        BinOp::Or => Ok(Value::Int(kind, bits_of_either(kind, a, b))),
        BinOp::Xor => Ok(Value::Int(kind, bits_of_one(kind, a, b))),
        _ => unreachable!(),
    }
}

fn sum(kind: Kind, a: i128, b: i128) -> i128
    ensures { result ≡ wrapped kind (a +ℤ b) }
{
    wrap(kind, a.wrapping_add(b))
}

fn difference(kind: Kind, a: i128, b: i128) -> i128
    ensures { result ≡ wrapped kind (a -ℤ b) }
{
    wrap(kind, a.wrapping_sub(b))
}

fn product(kind: Kind, a: i128, b: i128) -> i128
    ensures { result ≡ wrapped kind (a *ℤ b) }
{
    wrap(kind, a.wrapping_mul(b))
}

/// `a / b`
fn quotient(kind: Kind, a: i128, b: i128) -> Result<Value, ValueFault>
    ensures value { result ≡ on_numbers BinOp.Div kind a b }
    ensures no_memory { result ≢ Err ValueFault.NoMemory }
{
    if b == 0 {
        return Err(ValueFault::Divide);
    }
    Ok(Value::Int(kind, whole_part(kind, a, b)))
}

fn whole_part(kind: Kind, a: i128, b: i128) -> i128
    requires { IsNonZero w128 b }
    ensures { result ≡ wrapped kind (int_div a b) }
{
    wrap(kind, a.wrapping_div(b))
}

/// `a % b`
fn rest(kind: Kind, a: i128, b: i128) -> Result<Value, ValueFault>
    ensures value { result ≡ on_numbers BinOp.Rem kind a b }
    ensures no_memory { result ≢ Err ValueFault.NoMemory }
{
    if b == 0 {
        return Err(ValueFault::Divide);
    }
    Ok(Value::Int(kind, wrap(kind, a.wrapping_rem(b))))
}

fn bits_of_both(kind: Kind, a: i128, b: i128) -> i128
    ensures { result ≡ wrapped kind (pos (bit_and (residue kind a) (residue kind b))) }
{
    wrap(kind, a & b)
}

fn bits_of_first_alone(kind: Kind, a: i128, b: i128) -> i128
    ensures { result ≡ wrapped kind (pos (bit_and (residue kind a) (flipped kind b))) }
{
    wrap(kind, a & !b)
}

fn bits_of_either(kind: Kind, a: i128, b: i128) -> i128
    ensures { result ≡ wrapped kind (pos (bit_or (residue kind a) (residue kind b))) }
{
    wrap(kind, a | b)
}

fn bits_of_one(kind: Kind, a: i128, b: i128) -> i128
    ensures { result ≡ wrapped kind (pos (bit_xor (residue kind a) (residue kind b))) }
{
    wrap(kind, a ^ b)
}

/// `a << count`
fn left_shift(kind: Kind, a: i128, count: i128) -> Result<Value, ValueFault>
    ensures value { result ≡ on_numbers BinOp.Shl kind a count }
    ensures no_memory { result ≢ Err ValueFault.NoMemory }
{
    if count < 0 {
        return Err(ValueFault::NegativeCount);
    }
    let kept = if count < i128::from(width_of(kind)) {
        shl(kind, a, count as u32)
    } else {
        wrap(kind, 0)
    };
    Ok(Value::Int(kind, kept))
}

/// `a >> count`
fn right_shift(kind: Kind, a: i128, count: i128) -> Result<Value, ValueFault>
    ensures value { result ≡ on_numbers BinOp.Shr kind a count }
    ensures no_memory { result ≢ Err ValueFault.NoMemory }
{
    if count < 0 {
        return Err(ValueFault::NegativeCount);
    }
    let kept = if count < i128::from(width_of(kind)) {
        shr(kind, a, count as u32)
    } else if a < 0 {
        wrap(kind, -1)
    } else {
        wrap(kind, 0)
    };
    Ok(Value::Int(kind, kept))
}

fn shl(kind: Kind, a: i128, count: u32) -> i128
    requires { count < width kind }
    ensures { result ≡ wrapped kind (a *ℤ pos (2 ^ count)) }
{
    wrap(kind, a.wrapping_shl(count))
}

fn shr(kind: Kind, a: i128, count: u32) -> i128
    requires { count < width kind }
    ensures { result ≡ wrapped kind (int_div_euclid a (pos (2 ^ count))) }
{
    wrap(kind, a.wrapping_shr(count))
}
