//! Operators before a part.
#![tactic(auto, using(crate::proofs::Prefixes::none_before, crate::proofs::Prefixes::some_before, crate::proofs::Prefixes::last_prefix, crate::proofs::Prefixes::minus_last, crate::proofs::Prefixes::front_last))]

ghost use Rattle.std.specs.Prelude.{◌≡◌, [], ◌∷◌, ◌++◌, Ok, Some, true, false, MatchOption};
ghost use Rattle.ql_syntax.specs.Typing as types;
ghost use Rattle.ql_syntax.specs.Operands as spec;
ghost use Rattle.ql_check_expr.specs.Gives.{Gives};

use crate::CheckFault;
use crate::checked::{literal_of, no_literal, require_type};
use crate::table::prefix_type;
use ql_edge::Boxed;
use ql_syntax::{Checked, Literal, Typed, Typing};
use ql_value::{UnOp, UnOps};
use std::alloc::Global;

/// The last operator, and those before it.
fn last(ops: &[UnOp]) -> Option<(UnOp, &[UnOp])>
    ensures { MatchOption result (ops.now ≡ []) (λ pair. ops.now ≡ pair.1.now ++ pair.0 ∷ []) }
{
    if ops.is_empty() {
        return None;
    }
    let end = ops.len() - 1;
    Some((ops[end], &ops[..end]))
}

/// What operators before a part take and give. The last one comes first.
fn prefixed_type(ops: &[UnOp], typing: Typing) -> Typing
    ensures { result ≡ types.prefixed_type ops.now typing }
{
    let mut typing = typing;
    let mut left = ops;
    'ops: while let Some((op, front)) = last(left) {
        typing = prefix_type(op, typing);
        left = front;
    }
    typing
}

/// The operators before a last minus.
fn before_minus(ops: &[UnOp]) -> Option<&[UnOp]>
    ensures { MatchOption result (spec.ends_with_minus ops.now ≡ false)
        (λ front. (spec.ends_with_minus ops.now ≡ true) × (spec.but_last ops.now ≡ front.now)) }
{
    match last(ops) {
        Some((UnOp::Minus, front)) => Some(front),
        _ => None,
    }
}

/// Operators before a part whose literal has its minus.
fn ops_before(alloc: Global, ops: &[UnOp], checked: Checked) -> Result<Checked, CheckFault>
    ensures { Gives (spec.ops_before ops.now checked) result }
{
    if ops.len() > 0 {
        ops_by_table(alloc, ops, checked)
    } else {
        Ok(checked)
    }
}

/// At least one operator before a part.
fn ops_by_table(alloc: Global, ops: &[UnOp], checked: Checked) -> Result<Checked, CheckFault>
    ensures { Gives (spec.ops_by_table ops.now checked) result }
{
    let typing = require_type(alloc, prefixed_type(ops, checked.typing))?;
    let ops = UnOps::from_slice(alloc, ops)?;
    let part = Boxed::new(alloc, checked.tree)?;
    Ok(no_literal(checked.untyped, typing, Typed::Unary { ops, part }))
}

/// Operators before a part. A minus directly before a literal belongs to it.
#[inline(never)]
pub(crate) fn apply_ops(
    alloc: Global,
    ops: &[UnOp],
    checked: Checked,
) -> Result<Checked, CheckFault>
    ensures { Gives (spec.apply_ops ops.now checked) result }
{
    match checked.literal {
        Some(literal) => before_literal(alloc, ops, literal, checked),
        None => ops_before(alloc, ops, checked),
    }
}

/// Operators before a literal.
fn before_literal(
    alloc: Global,
    ops: &[UnOp],
    literal: Literal,
    checked: Checked,
) -> Result<Checked, CheckFault>
    ensures { Gives (spec.apply_ops_by ops.now (Some literal) checked) result }
{
    if literal.minus {
        return ops_before(alloc, ops, checked);
    }
    let Some(front) = before_minus(ops) else {
        return ops_before(alloc, ops, checked);
    };
    let negative = literal_of(
        alloc,
        Literal {
            minus: true,
            size: literal.size,
        },
    )?;
    ops_before(alloc, front, negative)
}
