//! What names mean.

ghost use Rattle.std.specs.Prelude.{◌≡◌, ◌+◌, ◌<◌, ◌^◌, List, [], ◌∷◌, ◌++◌, length, Some, None, IfOk};
ghost use Rattle.ql_syntax.specs.Scopes as spec;
ghost use Rattle.ql_syntax.specs.Resolving.{at_place};
ghost use Rattle.ql_check_expr.specs.Gives.{Gives};
ghost use Rattle.ql_check_expr.specs.Names.{Hits, bytes_of, place_of};

use crate::CheckFault;
use crate::checked::of_type;
use ql_edge::{Bytes, NoMemory};
use ql_syntax::{Checked, NameRef, RowPlace, Scope, Slot, Typed};
use ql_value::{AMBIGUOUS, NO_COLUMN, Refusal};
use std::alloc::Global;

/// How many places a name may mean.
#[derive(Clone, Copy, Debug)]
enum Hit {
    Nothing,
    One(RowPlace),
    Several,
}

pub fn is_called(own: &Option<NameRef<'_>>, name: &[u8]) -> bool
    ensures { result ≡ spec.is_called own.now name.now }
{
    match own {
        Some(own) => own.as_slice() == name,
        None => false,
    }
}

/// Whether the slot is of the record set, if one is named.
fn is_of_set(set: Option<&[u8]>, slot: &Slot<'_>) -> bool
    ensures { result ≡ spec.is_of_set (bytes_of set.entry) slot.now }
{
    match set {
        Some(set) => is_called(&slot.set, set),
        None => true,
    }
}

/// Whether the slot is the column, or the id where none is named.
fn is_of_column(column: Option<&[u8]>, slot: &Slot<'_>) -> bool
    ensures { result ≡ spec.is_of_column (bytes_of column.entry) slot.now }
{
    match column {
        Some(column) => is_called(&slot.column, column),
        None => slot.column.is_none(),
    }
}

/// A further place behind those that were found.
fn add_hit(hit: Hit, found: RowPlace) -> Hit
    ensures { (list : List RowPlace) → Hits hit list → Hits result (list ++ found ∷ []) }
{
    match hit {
        Hit::Nothing => Hit::One(found),
        _ => Hit::Several,
    }
}

/// One slot more.
fn look_at(hit: Hit, set: Option<&[u8]>, column: Option<&[u8]>, at: usize, slot: &Slot<'_>) -> Hit
    ensures { let more =
        spec.places_named (bytes_of set.entry) (bytes_of column.entry) at (slot.now ∷ []) in
        (list : List RowPlace) → Hits hit list → Hits result (list ++ more) }
{
    if is_of_set(set, slot) && is_of_column(column, slot) {
        add_hit(
            hit,
            RowPlace {
                at,
                typing: slot.typing,
            },
        )
    } else {
        hit
    }
}

/// The places that a name may mean. The first slot has the number `start`.
fn search(set: Option<&[u8]>, column: Option<&[u8]>, start: usize, slots: &[Slot<'_>]) -> Hit
    requires numbers { start + length slots.now < 2 ^ 64 }
    ensures { Hits result
        (spec.places_named (bytes_of set.entry) (bytes_of column.entry) start slots.now) }
{
    let mut hit = Hit::Nothing;
    let mut at = start;
    'slots: for slot in slots {
        hit = look_at(hit, set, column, at, slot);
        at += 1;
    }
    hit
}

/// The places of the source row that names are looked for among.
fn seen_slots<'a, 'b>(scope: &'b Scope<'a>) -> &'b [Slot<'a>]
    ensures { result.now ≡ spec.seen_slots scope.now }
{
    if scope.hides {
        return &[];
    }
    scope.row.as_slice()
}

/// The one place that a name means.
fn one_of(alloc: Global, name: &[u8], hit: Hit) -> Result<RowPlace, CheckFault>
    ensures { (list : List RowPlace) → Hits hit list → Gives (spec.the_one name.now list) result }
{
    match hit {
        Hit::Nothing => Err(CheckFault::Refused(Refusal::with_name(alloc, NO_COLUMN, name)?)),
        Hit::One(found) => Ok(found),
        Hit::Several => Err(CheckFault::Refused(Refusal::with_name(alloc, AMBIGUOUS, name)?)),
    }
}

/// The place of a column that is so written.
fn find_column(
    alloc: Global,
    scope: &Scope<'_>,
    set: Option<&[u8]>,
    column: &[u8],
    name: &[u8],
) -> Result<RowPlace, CheckFault>
    ensures { let fields =
        spec.places_named None (Some name.now) (length scope.now.row) scope.now.fields in
        let columns =
        spec.places_named (bytes_of set.entry) (Some column.now) 0 (spec.seen_slots scope.now) in
        Gives (spec.the_one name.now (spec.first_some fields columns)) result }
{
    let behind = scope.row.as_slice().len();
    match search(None, Some(name), behind, scope.fields.as_slice()) {
        Hit::Nothing => {
            let hit = search(set, Some(column), 0, seen_slots(scope));
            one_of(alloc, name, hit)
        }
        hit => one_of(alloc, name, hit),
    }
}

/// The name `T.c`.
pub fn qualified_name(alloc: Global, set: &[u8], column: &[u8]) -> Result<Bytes, NoMemory>
    ensures { IfOk result (λ name. name ≡ spec.written (Some set.now) column.now) }
{
    let mut name = Bytes::new(alloc);
    name.extend(set)?;
    name.push(b'.')?;
    name.extend(column)?;
    Ok(name)
}

/// What `c` or `T.c` means.
fn column_place(
    alloc: Global,
    scope: &Scope<'_>,
    set: Option<&[u8]>,
    column: &[u8],
) -> Result<RowPlace, CheckFault>
    ensures { Gives (spec.column_place scope.now (bytes_of set.entry) column.now) result }
{
    match set {
        Some(own) => {
            let name = qualified_name(alloc, own, column)?;
            find_column(alloc, scope, set, column, name.as_slice())
        }
        None => find_column(alloc, scope, None, column, column),
    }
}

/// A part with its type, at a place of the row.
fn as_place(found: RowPlace) -> Checked
    ensures { result ≡ place_of found }
{
    of_type(found.typing, Typed::Place { at: found.at })
}

/// A column as an expression.
#[inline(never)]
pub(crate) fn column_of(
    alloc: Global,
    scope: &Scope<'_>,
    set: Option<&[u8]>,
    column: &[u8],
) -> Result<Checked, CheckFault>
    ensures { Gives (at_place (spec.column_place scope.now (bytes_of set.entry) column.now))
        result }
{
    Ok(as_place(column_place(alloc, scope, set, column)?))
}

/// The id of the only record set.
#[inline(never)]
pub(crate) fn id_of_all(alloc: Global, scope: &Scope<'_>) -> Result<Checked, CheckFault>
    ensures { Gives (at_place (spec.id_place scope.now)) result }
{
    let hit = search(None, None, 0, seen_slots(scope));
    Ok(as_place(one_of(alloc, b"id", hit)?))
}

/// The id of the record set with a name.
#[inline(never)]
pub(crate) fn id_of_set(alloc: Global, scope: &Scope<'_>, set: &[u8]) -> Result<Checked, CheckFault>
    ensures { Gives (at_place (spec.id_place_of scope.now set.now)) result }
{
    let hit = search(Some(set), None, 0, seen_slots(scope));
    Ok(as_place(one_of(alloc, set, hit)?))
}
