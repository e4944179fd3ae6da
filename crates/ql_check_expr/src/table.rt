//! The table of operators: what they take and give.

ghost use Rattle.std.specs.Prelude.{◌≡◌};
ghost use Rattle.ql_syntax.specs.Typing as spec;
ghost use Rattle.ql_check_expr.specs.Groups.{test_of};

use ql_syntax::Typing;
use ql_value::{BinOp, Kind, UnOp};

/// A group of kinds.
#[derive(Clone, Copy, Debug)]
pub enum Group {
    Integers,
    Truths,
    /// All kinds but that of truths.
    Ordered,
    /// Integers and strings, which `+` takes.
    Sums,
    Strings,
    /// Strings and blobs.
    ByteLists,
    /// The kinds that are converted to this one.
    Into(Kind),
}

/// Whether a value of the second kind is converted to the first.
fn converts(to: Kind, from: Kind) -> bool
    ensures { result ≡ spec.converts to from }
{
    to.is_truth() && from.is_truth()
        || to.is_integer() && from.is_integer()
        || to.is_byte_list() && from.is_byte_list()
}

/// Whether the kind is of the group.
fn holds(group: Group, kind: Kind) -> bool
    ensures { result ≡ test_of group kind }
{
    match group {
        Group::Integers => kind.is_integer(),
        Group::Truths => kind.is_truth(),
        Group::Ordered => !kind.is_truth(),
        Group::Sums => kind.is_integer() || kind.is_text(),
        Group::Strings => kind.is_text(),
        Group::ByteLists => kind.is_byte_list(),
        Group::Into(to) => converts(to, kind),
    }
}

/// The type, where its kind is of the group.
pub fn among(group: Group, typing: Typing) -> Typing
    ensures { result ≡ spec.among (test_of group) typing }
{
    match typing {
        Typing::OfKind(kind) => {
            if holds(group, kind) {
                Typing::OfKind(kind)
            } else {
                Typing::Ill
            }
        }
        other => other,
    }
}

/// The second type, where there is a first one.
pub(crate) fn given_type(first: Typing, typing: Typing) -> Typing
    ensures { result ≡ spec.given_type first typing }
{
    match first {
        Typing::Ill => Typing::Ill,
        _ => typing,
    }
}

/// The one type of two parts.
pub(crate) fn meet(left: Typing, right: Typing) -> Typing
    ensures { result ≡ spec.meet left right }
{
    match (left, right) {
        (Typing::Ill, _) => Typing::Ill,
        (_, Typing::Ill) => Typing::Ill,
        (Typing::OnlyNull, other) => other,
        (other, Typing::OnlyNull) => other,
        (Typing::OfKind(a), Typing::OfKind(b)) => {
            if a == b {
                Typing::OfKind(a)
            } else {
                Typing::Ill
            }
        }
    }
}

/// A truth, where there is a type.
pub(crate) fn truth_of(typing: Typing) -> Typing
    ensures { result ≡ spec.truth_of typing }
{
    given_type(typing, Typing::OfKind(Kind::Bool))
}

/// What an operator between two parts gives.
pub(crate) fn operator_type(op: BinOp, left: Typing, right: Typing) -> Typing
    ensures { result ≡ spec.operator_type op left right }
{
    match op {
        BinOp::Add => among(Group::Sums, meet(left, right)),
        BinOp::Shl | BinOp::Shr => {
            given_type(among(Group::Integers, right), among(Group::Integers, left))
        }
        BinOp::Eq | BinOp::Ne => truth_of(meet(left, right)),
        BinOp::Lt | BinOp::Le | BinOp::Gt | BinOp::Ge => {
            truth_of(among(Group::Ordered, meet(left, right)))
        }
        BinOp::Both | BinOp::Either => truth_of(among(Group::Truths, meet(left, right))),
        BinOp::Like => Typing::Ill,
        _ => among(Group::Integers, meet(left, right)),
    }
}

/// What an operator before a part takes and gives.
pub(crate) fn prefix_type(op: UnOp, typing: Typing) -> Typing
    ensures { result ≡ spec.prefix_type op typing }
{
    match op {
        UnOp::Not => among(Group::Truths, typing),
        _ => among(Group::Integers, typing),
    }
}
