//! Literals and untyped expressions, and what they take from what they meet.

ghost use Rattle.std.specs.Prelude.{◌≡◌, Ok, true, false, MatchOption};
ghost use Rattle.ql_value.specs.Number.{IsInteger, has_number};
ghost use Rattle.ql_syntax.specs.Checked as spec;
ghost use Rattle.ql_check_expr.specs.Gives.{Gives};

use crate::CheckFault;
use ql_edge::Boxed;
use ql_syntax::{Checked, Literal, Typed, Typing};
use ql_value::{CONSTANT_RANGE, Kind, Refusal, TYPE, Value, convert, fit};
use std::alloc::Global;

/// An expression that is no literal.
pub(crate) fn no_literal(untyped: bool, typing: Typing, tree: Typed) -> Checked
    ensures { result ≡ spec.no_literal untyped typing tree }
{
    Checked {
        literal: None,
        untyped,
        typing,
        tree,
    }
}

/// An expression that has a type of its own.
pub fn of_type(typing: Typing, tree: Typed) -> Checked
    ensures { result ≡ spec.of_type typing tree }
{
    no_literal(false, typing, tree)
}

/// The number that a literal means.
fn number_of(literal: Literal) -> i128
    ensures { result ≡ spec.number_of literal }
{
    let size = i128::from(literal.size);
    if literal.minus { -size } else { size }
}

fn is_int64(number: i128) -> bool
    ensures { result ≡ has_number Kind.Int64 number }
{
    fit(Kind::Int64, number).is_ok()
}

/// The kind of a literal that meets none.
fn literal_kind(number: i128) -> Kind
    ensures value { result ≡ spec.literal_kind number }
    ensures integer { IsInteger result }
{
    if is_int64(number) {
        Kind::Int64
    } else {
        Kind::Uint64
    }
}

/// A literal. It is untyped within int64.
#[inline(never)]
pub(crate) fn literal_of(alloc: Global, literal: Literal) -> Result<Checked, CheckFault>
    ensures { Gives (Ok (spec.literal_of literal)) result }
{
    let number = number_of(literal);
    let kind = literal_kind(number);
    let value = convert(alloc, kind, &Value::Int(kind, number))?;
    Ok(Checked {
        literal: Some(literal),
        untyped: is_int64(number),
        typing: Typing::OfKind(kind),
        tree: Typed::Constant(value),
    })
}

/// The same expression in brackets.
#[inline(never)]
pub(crate) fn in_brackets(checked: Checked) -> Checked
    ensures { result ≡ spec.in_brackets checked }
{
    Checked {
        literal: None,
        ..checked
    }
}

/// A literal as a number of an integer kind.
pub(crate) fn literal_in(alloc: Global, kind: Kind, literal: Literal) -> Result<Checked, CheckFault>
    requires { IsInteger kind }
    ensures { Gives (spec.literal_in kind literal) result }
{
    match fit(kind, number_of(literal)) {
        Ok(value) => Ok(of_type(Typing::OfKind(kind), Typed::Constant(value))),
        Err(_) => Err(CheckFault::Refused(Refusal::new(alloc, CONSTANT_RANGE))),
    }
}

/// A value computed in int64 as one of an integer kind.
fn narrow(alloc: Global, kind: Kind, tree: Typed) -> Result<Typed, CheckFault>
    ensures { Gives (Ok (spec.narrow kind tree)) result }
{
    if kind == Kind::Int64 {
        return Ok(tree);
    }
    let part = Boxed::new(alloc, tree)?;
    Ok(Typed::Narrow { kind, part })
}

/// An untyped expression that meets an integer kind.
pub(crate) fn take_kind(
    alloc: Global,
    kind: Kind,
    literal: Option<Literal>,
    tree: Typed,
) -> Result<Checked, CheckFault>
    requires { IsInteger kind }
    ensures { Gives (spec.take_kind kind literal tree) result }
{
    match literal {
        Some(literal) => literal_in(alloc, kind, literal),
        None => Ok(of_type(Typing::OfKind(kind), narrow(alloc, kind, tree)?)),
    }
}

/// The integer kind that a type is.
pub(crate) fn integer_of(typing: Typing) -> Option<Kind>
    ensures { MatchOption result (spec.is_number_type typing ≡ false)
        (λ kind. (spec.is_number_type typing ≡ true) × (spec.kind_or_int64 typing ≡ kind)
        × IsInteger kind) }
{
    match typing {
        Typing::OfKind(kind) => { if kind.is_integer() { Some(kind) } else { None } }
        _ => None,
    }
}

/// The kind of a type, or int64 where it has none.
pub(crate) fn kind_or_int64(typing: Typing) -> Kind
    ensures { result ≡ spec.kind_or_int64 typing }
{
    match typing {
        Typing::OfKind(kind) => kind,
        _ => Kind::Int64,
    }
}

/// An expression beside one of a type.
pub fn meet_type(alloc: Global, typing: Typing, checked: Checked) -> Result<Checked, CheckFault>
    ensures { Gives (spec.meet_type typing checked) result }
{
    if !checked.untyped {
        return Ok(checked);
    }
    match integer_of(typing) {
        Some(kind) => take_kind(alloc, kind, checked.literal, checked.tree),
        None => Ok(checked),
    }
}

/// The type, where the table of operators has one.
pub fn require_type(alloc: Global, typing: Typing) -> Result<Typing, CheckFault>
    ensures { Gives (spec.require_type typing) result }
{
    match typing {
        Typing::Ill => Err(CheckFault::Refused(Refusal::new(alloc, TYPE))),
        other => Ok(other),
    }
}
