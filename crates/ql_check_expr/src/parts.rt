//! Parts that meet one type.

ghost use Rattle.std.specs.Prelude.{◌≡◌, Ok};
ghost use Rattle.ql_syntax.specs.Typing as types;
ghost use Rattle.ql_syntax.specs.Operands as spec;
ghost use Rattle.ql_check_expr.specs.Gives.{Gives};
ghost use Rattle.ql_check_expr.specs.Groups.{has_kind_of};

use crate::CheckFault;
use crate::checked::meet_type;
use crate::table::meet;
use ql_syntax::{Checked, CheckedList, Typeds, Typing};
use std::alloc::Global;

/// The kind of a part that has one, else that of the parts behind it.
pub(crate) fn kind_before(untyped: bool, typing: Typing, more: Typing) -> Typing
    ensures { result ≡ spec.kind_before untyped typing more }
{
    match (untyped, typing) {
        (false, Typing::OfKind(kind)) => Typing::OfKind(kind),
        _ => more,
    }
}

/// Whether a part has a kind.
fn has_kind(part: &Checked) -> bool
    ensures { result ≡ has_kind_of part.now.untyped part.now.typing }
{
    match (part.untyped, part.typing) {
        (false, Typing::OfKind(_)) => true,
        _ => false,
    }
}

/// The kind of the first part that has one.
pub(crate) fn first_kind(parts: &[Checked]) -> Typing
    ensures { result ≡ spec.first_kind parts.now }
{
    'parts: for part in parts {
        if has_kind(part) {
            return part.typing;
        }
    }
    Typing::OnlyNull
}

/// Each part beside a type.
pub(crate) fn meet_each(
    alloc: Global,
    typing: Typing,
    parts: CheckedList,
) -> Result<CheckedList, CheckFault>
    ensures { Gives (spec.meet_each typing parts) result }
{
    let mut met = CheckedList::new(alloc);
    'parts: for part in parts.into_vec() {
        met.push(meet_type(alloc, typing, part)?)?;
    }
    Ok(met)
}

/// The one type of a part and further parts.
pub(crate) fn meet_all(first: Typing, parts: &[Checked]) -> Typing
    ensures { result ≡ types.meet_all first (spec.types parts.now) }
{
    let mut typing = first;
    'parts: for part in parts {
        typing = meet(typing, part.typing);
    }
    typing
}

/// The expressions of parts.
pub(crate) fn trees(alloc: Global, parts: CheckedList) -> Result<Typeds, CheckFault>
    ensures { Gives (Ok (spec.trees parts)) result }
{
    let mut trees = Typeds::new(alloc);
    'parts: for part in parts.into_vec() {
        trees.push(part.tree)?;
    }
    Ok(trees)
}
