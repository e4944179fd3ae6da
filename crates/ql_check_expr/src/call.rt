//! Conversions and the calls of functions.

ghost use Rattle.std.specs.Prelude.{◌≡◌, Ok};
ghost use Rattle.ql_syntax.specs.Typing as types;
ghost use Rattle.ql_syntax.specs.Calls as spec;
ghost use Rattle.ql_syntax.specs.Operands.{types as types_of};
ghost use Rattle.ql_check_expr.specs.Gives.{Gives};
ghost use Rattle.ql_check_expr.specs.Groups.{test_of};

use crate::CheckFault;
use crate::checked::{kind_or_int64, literal_in, of_type, require_type};
use crate::parts::{first_kind, meet_all, meet_each, trees};
use crate::table::{Group, among, given_type, meet, truth_of};
use ql_edge::Boxed;
use ql_syntax::{Checked, CheckedList, Function, Typed, Typing};
use ql_value::{AGGREGATE, COUNT, Kind, Refusal};
use std::alloc::Global;

/// A conversion by the table of operators.
fn convert_by_table(alloc: Global, kind: Kind, part: Checked) -> Result<Checked, CheckFault>
    ensures { Gives (spec.convert_by_table kind part) result }
{
    let from = among(Group::Into(kind), part.typing);
    let typing = require_type(alloc, given_type(from, Typing::OfKind(kind)))?;
    let part = Boxed::new(alloc, part.tree)?;
    Ok(of_type(typing, Typed::Convert { kind, part }))
}

/// A conversion. A literal has to be within an integer kind.
#[inline(never)]
pub(crate) fn convert_to(alloc: Global, kind: Kind, part: Checked) -> Result<Checked, CheckFault>
    ensures { Gives (spec.convert_to kind part) result }
{
    if !kind.is_integer() {
        return convert_by_table(alloc, kind, part);
    }
    match part.literal {
        Some(literal) => literal_in(alloc, kind, literal),
        None => convert_by_table(alloc, kind, part),
    }
}

/// The type of the one part of `len`.
fn length_type(parts: &[Checked]) -> Typing
    ensures { result ≡ types.call_type Function.Len (types_of parts.now) }
{
    if parts.len() != 1 {
        return Typing::Ill;
    }
    given_type(
        among(Group::ByteLists, parts[0].typing),
        Typing::OfKind(Kind::Int64),
    )
}

/// The type of a question to two strings.
fn question_type(parts: &[Checked]) -> Typing
    ensures { result ≡ types.call_type Function.Contains (types_of parts.now) }
{
    if parts.len() != 2 {
        return Typing::Ill;
    }
    truth_of(among(Group::Strings, meet(parts[0].typing, parts[1].typing)))
}

/// The one type of the parts of coalesce.
fn coalesce_type(parts: &[Checked]) -> Typing
    ensures { result ≡ types.call_type Function.Coalesce (types_of parts.now) }
{
    match parts.split_first() {
        Some((first, rest)) => meet_all(first.typing, rest),
        None => Typing::Ill,
    }
}

/// What a call gives.
fn call_type(function: Function, parts: &[Checked]) -> Typing
    ensures { result ≡ types.call_type function (types_of parts.now) }
{
    match function {
        Function::Len => length_type(parts),
        Function::Contains | Function::HasPrefix | Function::HasSuffix => question_type(parts),
        Function::Coalesce => coalesce_type(parts),
        _ => Typing::Ill,
    }
}

/// A call by the table of operators.
fn call_by_table(
    alloc: Global,
    function: Function,
    parts: CheckedList,
) -> Result<Checked, CheckFault>
    ensures { Gives (spec.call_by_table function parts) result }
{
    let typing = require_type(alloc, call_type(function, parts.as_slice()))?;
    let parts = trees(alloc, parts)?;
    Ok(of_type(typing, Typed::Call { function, parts }))
}

/// coalesce
fn coalesce_of(alloc: Global, parts: CheckedList) -> Result<Checked, CheckFault>
    ensures { Gives (spec.coalesce_of parts) result }
{
    let typing = first_kind(parts.as_slice());
    let parts = meet_each(alloc, typing, parts)?;
    call_by_table(alloc, Function::Coalesce, parts)
}

/// The call of a function of a row other than id.
#[inline(never)]
pub(crate) fn row_call(
    alloc: Global,
    function: Function,
    parts: CheckedList,
) -> Result<Checked, CheckFault>
    ensures { Gives (spec.row_call function parts) result }
{
    if !function.takes(parts.len()) {
        return Err(CheckFault::Refused(Refusal::new(alloc, COUNT)));
    }
    match function {
        Function::Coalesce => coalesce_of(alloc, parts),
        _ => call_by_table(alloc, function, parts),
    }
}

/// The first part.
fn first(parts: CheckedList) -> Option<Checked>
    ensures { result ≡ spec.first_part parts }
{
    parts.into_vec().into_iter().next()
}

/// `count` of a part, or of rows.
fn count_of(alloc: Global, part: Option<Checked>) -> Result<Checked, CheckFault>
    ensures { Gives (Ok (spec.count_of part)) result }
{
    let mut tree = None;
    if let Some(part) = part {
        tree = Some(Boxed::new(alloc, part.tree)?);
    }
    Ok(of_type(
        Typing::OfKind(Kind::Int64),
        Typed::Aggregate {
            function: Function::Count,
            kind: Kind::Int64,
            part: tree,
        },
    ))
}

/// An aggregate of values of the kinds of a group.
fn aggregate_of(
    alloc: Global,
    function: Function,
    group: Group,
    part: Option<Checked>,
) -> Result<Checked, CheckFault>
    ensures { Gives (spec.aggregate_first function (test_of group) part) result }
{
    let Some(part) = part else {
        return Err(CheckFault::Refused(Refusal::new(alloc, COUNT)));
    };
    let typing = require_type(alloc, among(group, part.typing))?;
    let kind = kind_or_int64(typing);
    let tree = Boxed::new(alloc, part.tree)?;
    Ok(of_type(
        Typing::OfKind(kind),
        Typed::Aggregate {
            function,
            kind,
            part: Some(tree),
        },
    ))
}

/// An aggregate with the right number of parts.
fn group_value(
    alloc: Global,
    function: Function,
    part: Option<Checked>,
) -> Result<Checked, CheckFault>
    ensures { Gives (spec.group_value function part) result }
{
    match function {
        Function::Count => count_of(alloc, part),
        Function::Sum | Function::Avg => aggregate_of(alloc, function, Group::Integers, part),
        Function::Min | Function::Max => aggregate_of(alloc, function, Group::Ordered, part),
        _ => Err(CheckFault::Refused(Refusal::new(alloc, COUNT))),
    }
}

/// An aggregate, where one may stand.
#[inline(never)]
pub(crate) fn group_call(
    alloc: Global,
    allowed: bool,
    function: Function,
    parts: CheckedList,
) -> Result<Checked, CheckFault>
    ensures { Gives (spec.allowed_call allowed function parts) result }
{
    if !allowed {
        return Err(CheckFault::Refused(Refusal::new(alloc, AGGREGATE)));
    }
    if !function.takes(parts.len()) {
        return Err(CheckFault::Refused(Refusal::new(alloc, COUNT)));
    }
    group_value(alloc, function, first(parts))
}
