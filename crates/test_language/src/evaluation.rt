//! The value of a typed expression.
ghost use Rattle.std.specs.Prelude.{◌≡◌, [], IfOk};
ghost use Rattle.ql_syntax.specs.declared.typing.Typing.TheVariants.{OfKind};
ghost use Rattle.ql_syntax.specs.Typing.{IsTyped, operator_type, type_of};

use ql_edge::{Boxed, NoMemory};
use ql_eval::{EvalFault, eval};
use ql_syntax::{Typed, TypedLink, TypedLinks};
use ql_value::{BinOp, Kind, Value};
use std::alloc::Global;
use std::test::Fail;

/// A number as an expression.
fn number(n: i64) -> Typed
    ensures { type_of [] result ≡ OfKind Kind.Int64 }
{
    Typed::Constant(Value::Int(Kind::Int64, i128::from(n)))
}

/// `left op right`
fn between(alloc: Global, left: i64, op: BinOp, right: i64) -> Result<Typed, NoMemory>
    requires { IsTyped (operator_type op (OfKind Kind.Int64) (OfKind Kind.Int64)) }
    ensures { IfOk result (λ e. IsTyped (type_of [] e)) }
{
    let mut rest = TypedLinks::new(alloc);
    rest.push(TypedLink {
        op,
        part: number(right),
    })?;
    let first = Boxed::new(alloc, number(left))?;
    Ok(Typed::Chain { first, rest })
}

#[test]
fn difference(rt: HostRuntime) -> Result<(), Fail> {
    let expr = between(rt.alloc(), 7, BinOp::Sub, 2)?;
    let value = eval(rt.alloc(), &expr, &[]);
    assert!(rt; matches!(value, Ok(Value::Int(Kind::Int64, 5))));
    Ok(())
}

#[test]
fn divisor_of_zero(rt: HostRuntime) -> Result<(), Fail> {
    let expr = between(rt.alloc(), 1, BinOp::Div, 0)?;
    let value = eval(rt.alloc(), &expr, &[]);
    assert!(rt; matches!(value, Err(EvalFault::Divide)));
    Ok(())
}

/// `0 - expr`
fn behind(alloc: Global, expr: Typed) -> Result<Typed, NoMemory>
    requires { type_of [] expr ≡ OfKind Kind.Int64 }
    ensures { IfOk result (λ e. type_of [] e ≡ OfKind Kind.Int64) }
{
    let mut rest = TypedLinks::new(alloc);
    rest.push(TypedLink {
        op: BinOp::Sub,
        part: expr,
    })?;
    let first = Boxed::new(alloc, number(0))?;
    Ok(Typed::Chain { first, rest })
}

#[test]
fn nested(rt: HostRuntime) -> Result<(), Fail> {
    let mut expr = number(3);
    for _ in 0..600u32 {
        expr = behind(rt.alloc(), expr)?;
    }
    let value = eval(rt.alloc(), &expr, &[]);
    assert!(rt; matches!(value, Ok(Value::Int(Kind::Int64, 3))));
    Ok(())
}
