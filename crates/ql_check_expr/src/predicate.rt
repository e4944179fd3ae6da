//! IN, BETWEEN and IS NULL.

ghost use Rattle.std.specs.Prelude.{◌≡◌, [], ◌∷◌, Ok};
ghost use Rattle.ql_syntax.specs.Operands as spec;
ghost use Rattle.ql_check_expr.specs.Gives.{Gives};

use crate::CheckFault;
use crate::chain::pair;
use crate::checked::{meet_type, of_type, require_type};
use crate::copy::copy_typed;
use crate::parts::{first_kind, kind_before, meet_all, meet_each, trees};
use crate::table::{Group, among, meet, truth_of};
use ql_edge::Boxed;
use ql_syntax::{Checked, CheckedList, Typed, Typing};
use ql_value::{BinOp, Kind, UnOp, UnOps};
use std::alloc::Global;

/// A truth, or with NOT its opposite.
fn truth(alloc: Global, negated: bool, tree: Typed) -> Result<Checked, CheckFault>
    ensures { Gives (Ok (spec.truth negated tree)) result }
{
    if !negated {
        return Ok(of_type(Typing::OfKind(Kind::Bool), tree));
    }
    let mut ops = UnOps::new(alloc);
    ops.push(UnOp::Not)?;
    let part = Boxed::new(alloc, tree)?;
    Ok(of_type(Typing::OfKind(Kind::Bool), Typed::Unary { ops, part }))
}

/// `part IN (list)`
#[inline(never)]
pub(crate) fn in_list(
    alloc: Global,
    negated: bool,
    part: Checked,
    list: CheckedList,
) -> Result<Checked, CheckFault>
    ensures { Gives (spec.in_list negated part list) result }
{
    let typing = kind_before(part.untyped, part.typing, first_kind(list.as_slice()));
    let part = meet_type(alloc, typing, part)?;
    let list = meet_each(alloc, typing, list)?;
    require_type(alloc, truth_of(meet_all(part.typing, list.as_slice())))?;
    let list = trees(alloc, list)?;
    let part = Boxed::new(alloc, part.tree)?;
    truth(alloc, negated, Typed::IsIn { part, list })
}

/// `(part >= low) && (part <= high)`
fn between_tree(alloc: Global, part: Typed, low: Typed, high: Typed) -> Result<Typed, CheckFault>
    ensures { Gives (Ok (spec.between_tree part low high)) result }
{
    let copy = copy_typed(alloc, &part)?;
    let below = pair(alloc, part, BinOp::Ge, low)?;
    let above = pair(alloc, copy, BinOp::Le, high)?;
    Ok(pair(alloc, below, BinOp::Both, above)?)
}

/// The kind of the first of three parts that has one.
fn kind_of_three(part: &Checked, low: &Checked, high: &Checked) -> Typing
    ensures { result ≡ spec.first_kind (part.now ∷ low.now ∷ high.now ∷ []) }
{
    let last = kind_before(high.untyped, high.typing, Typing::OnlyNull);
    let later = kind_before(low.untyped, low.typing, last);
    kind_before(part.untyped, part.typing, later)
}

/// `part BETWEEN low AND high`
#[inline(never)]
pub(crate) fn between(
    alloc: Global,
    negated: bool,
    part: Checked,
    low: Checked,
    high: Checked,
) -> Result<Checked, CheckFault>
    ensures { Gives (spec.between negated part low high) result }
{
    let typing = kind_of_three(&part, &low, &high);
    let part = meet_type(alloc, typing, part)?;
    let low = meet_type(alloc, typing, low)?;
    let high = meet_type(alloc, typing, high)?;
    let one = meet(meet(part.typing, low.typing), high.typing);
    require_type(alloc, truth_of(among(Group::Ordered, one)))?;
    let tree = between_tree(alloc, part.tree, low.tree, high.tree)?;
    truth(alloc, negated, tree)
}

/// `part IS NULL`
#[inline(never)]
pub(crate) fn null_test(alloc: Global, negated: bool, part: Checked) -> Result<Checked, CheckFault>
    ensures { Gives (Ok (spec.null_test negated part)) result }
{
    let part = Boxed::new(alloc, part.tree)?;
    truth(alloc, negated, Typed::IsNull { part })
}
