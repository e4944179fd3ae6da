//! Operators between two parts, of which chains are made.

ghost use Rattle.std.specs.Prelude.{◌≡◌, IfOk};
ghost use Rattle.ql_syntax.specs.Operands as spec;
ghost use Rattle.ql_check_expr.specs.Gives.{Gives};

use crate::CheckFault;
use crate::checked::{meet_type, no_literal, require_type};
use crate::table::operator_type;
use ql_edge::{Boxed, NoMemory};
use ql_syntax::{Checked, Typed, TypedLink, TypedLinks};
use ql_value::{BinOp, LATER, Refusal};
use std::alloc::Global;

/// Whether an untyped side meets the kind of the other side.
fn shares_kind(op: BinOp) -> bool
    ensures { result ≡ spec.shares_kind op }
{
    match op {
        BinOp::Shl | BinOp::Shr | BinOp::Both | BinOp::Either | BinOp::Like => false,
        _ => true,
    }
}

/// Whether untyped expressions are built from the operator.
fn is_arithmetic(op: BinOp) -> bool
    ensures { result ≡ spec.is_arithmetic op }
{
    match op {
        BinOp::Eq
        | BinOp::Ne
        | BinOp::Lt
        | BinOp::Le
        | BinOp::Gt
        | BinOp::Ge
        | BinOp::Both
        | BinOp::Either
        | BinOp::Like => false,
        _ => true,
    }
}

fn is_like(op: BinOp) -> bool
    ensures { result ≡ spec.is_like op }
{
    match op {
        BinOp::Like => true,
        _ => false,
    }
}

/// `left op right`
pub(crate) fn pair(alloc: Global, left: Typed, op: BinOp, right: Typed) -> Result<Typed, NoMemory>
    ensures { IfOk result (λ tree. tree ≡ spec.pair left op right) }
{
    let mut rest = TypedLinks::new(alloc);
    rest.push(TypedLink { op, part: right })?;
    let first = Boxed::new(alloc, left)?;
    Ok(Typed::Chain { first, rest })
}

/// A further operator behind a tree. A chain stays flat, so that its depth does not grow.
fn longer_chain(alloc: Global, left: Typed, op: BinOp, right: Typed) -> Result<Typed, NoMemory>
    ensures { IfOk result (λ tree. tree ≡ spec.longer_chain left op right) }
{
    match left {
        Typed::Chain { first, rest } => {
            let mut rest = rest;
            rest.push(TypedLink { op, part: right })?;
            Ok(Typed::Chain { first, rest })
        }
        other => pair(alloc, other, op, right),
    }
}

/// Two sides whose kinds are settled.
fn by_table(
    alloc: Global,
    op: BinOp,
    untyped: bool,
    left: Checked,
    right: Checked,
) -> Result<Checked, CheckFault>
    ensures { Gives (spec.by_table op untyped left right) result }
{
    let typing = require_type(alloc, operator_type(op, left.typing, right.typing))?;
    let tree = longer_chain(alloc, left.tree, op, right.tree)?;
    Ok(no_literal(untyped, typing, tree))
}

/// The untyped one of two sides meets the kind of the other.
fn meet_sides(
    alloc: Global,
    op: BinOp,
    left: Checked,
    right: Checked,
) -> Result<Checked, CheckFault>
    ensures { Gives (spec.meet_sides op left right) result }
{
    let typing = left.typing;
    let left = meet_type(alloc, right.typing, left)?;
    let right = meet_type(alloc, typing, right)?;
    by_table(alloc, op, false, left, right)
}

/// An operator between two sides.
#[inline(never)]
pub(crate) fn operation(
    alloc: Global,
    op: BinOp,
    left: Checked,
    right: Checked,
) -> Result<Checked, CheckFault>
    ensures { Gives (spec.operation op left right) result }
{
    if is_like(op) {
        return Err(CheckFault::Refused(Refusal::new(alloc, LATER)));
    }
    if left.untyped && right.untyped {
        return by_table(alloc, op, is_arithmetic(op), left, right);
    }
    if shares_kind(op) {
        return meet_sides(alloc, op, left, right);
    }
    by_table(alloc, op, false, left, right)
}
