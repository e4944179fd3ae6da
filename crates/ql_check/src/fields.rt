//! What a SELECT shows.

ghost use Rattle.std.specs.Prelude.{◌≡◌, ◌++◌, ◌&&◌, if◌then◌else◌, None, IfOk, slice_get};
ghost use Rattle.ql_syntax.specs.declared.syntax.Field.{out-Field};
ghost use Rattle.ql_rel.specs.Plans as spec;
ghost use Rattle.ql_rel.specs.Targets.{kinds_of};
ghost use Rattle.ql_value.specs.Kinds.{is_integer};
ghost use Rattle.ql_syntax.specs.declared.typing.Typing.TheVariants.{OfKind};
ghost use Rattle.ql_syntax.specs.Resolving.{plain_name};
ghost use Rattle.ql_check_expr.specs.Gives.{Gives};
ghost use Rattle.ql_check.specs.Outputs.{name_or_none, slot_for};

use ql_check_expr::{CheckFault, check_expr, has_aggregate, of_type, qualified_name};
use ql_edge::{Boxed, Bytes, Name, NoMemory};
use ql_rel::{ResultField, ResultFields, Target};
use ql_syntax::{Checked, Expr, Field, Fields, NameRef, Scope, Slot, Slots, Typed, Typing};
use ql_value::{COUNT, Kind, Refusal};
use std::alloc::Global;

/// The name of the column that an expression is, with or without its table.
fn column_name(expr: &Expr) -> Option<&Name>
    ensures { spec.field_name None (plain_name expr.now) ≡ name_or_none result }
{
    match expr {
        Expr::Column { column, .. } => Some(column.get()),
        Expr::Chain { .. }
        | Expr::Unary { .. }
        | Expr::Number(_)
        | Expr::Text(_)
        | Expr::Truth(_)
        | Expr::Null
        | Expr::Paren(_)
        | Expr::Call { .. }
        | Expr::Convert { .. }
        | Expr::IsIn { .. }
        | Expr::IsInSelect { .. }
        | Expr::IsBetween { .. }
        | Expr::IsNull { .. } => None,
    }
}

/// The name of a field.
fn field_name(alloc: Global, alias: &Option<Boxed<Name>>, expr: &Expr) -> Result<Bytes, NoMemory>
    ensures { IfOk result (λ name. name ≡ spec.field_name alias.now (plain_name expr.now)) }
{
    match alias {
        Some(alias) => Bytes::from_slice(alloc, alias.get().as_slice()),
        None => match column_name(expr) {
            Some(name) => Bytes::from_slice(alloc, name.as_slice()),
            None => Ok(Bytes::new(alloc)),
        },
    }
}

/// A field.
fn result_field(alloc: Global, scope: &Scope<'_>, field: &Field) -> Result<ResultField, CheckFault>
    ensures { let layer = out-Field field.now in
        Gives (spec.result_field scope.now layer.alias layer.expr) result }
{
    let expr = check_expr(alloc, &field.expr, scope, true)?;
    let name = field_name(alloc, &field.alias, &field.expr)?;
    Ok(ResultField { name, expr })
}

/// Fields that are written.
fn written_fields(
    alloc: Global,
    scope: &Scope<'_>,
    fields: &Fields,
) -> Result<ResultFields, CheckFault>
    ensures { Gives (spec.written_fields scope.now fields.now) result }
{
    let mut list = ResultFields::new(alloc);
    'fields: for field in fields.as_slice() {
        list.push(result_field(alloc, scope, field)?)?;
    }
    Ok(list)
}

/// Whether the slot is the id of a record set with a name.
fn is_named_set(slot: &Slot<'_>) -> bool
    ensures { result ≡ spec.is_named_set slot.now.set slot.now.column }
{
    match (&slot.set, &slot.column) {
        (Some(_), None) => true,
        _ => false,
    }
}

/// Whether two record sets or more have a name.
fn are_several(slots: &[Slot<'_>]) -> bool
    ensures { result ≡ spec.are_several slots.now }
{
    let mut one = false;
    'slots: for slot in slots {
        if is_named_set(slot) {
            if one {
                return true;
            }
            one = true;
        }
    }
    false
}

/// The name of a column of `*`.
fn star_name(
    alloc: Global,
    several: bool,
    set: &Option<NameRef<'_>>,
    column: &[u8],
) -> Result<Bytes, NoMemory>
    ensures { IfOk result (λ name. name ≡ spec.star_name several set.now column.now) }
{
    match (several, set) {
        (true, Some(set)) => qualified_name(alloc, set.as_slice(), column),
        _ => Bytes::from_slice(alloc, column),
    }
}

/// The fields so far, with that of a slot which is a column.
fn add_star_field(
    alloc: Global,
    several: bool,
    at: usize,
    slot: &Slot<'_>,
    before: ResultFields,
) -> Result<ResultFields, NoMemory>
    ensures { let more = spec.star_field several at slot.now slot.now.column in
        IfOk result (λ list. list ≡ before ++ more) }
{
    let Some(column) = &slot.column else {
        return Ok(before);
    };
    let name = star_name(alloc, several, &slot.set, column.as_slice())?;
    let mut list = before;
    list.push(ResultField {
        name,
        expr: of_type(slot.typing, Typed::Place { at }),
    })?;
    Ok(list)
}

/// The fields of `*`.
fn star_fields(alloc: Global, several: bool, slots: &[Slot<'_>]) -> Result<ResultFields, NoMemory>
    ensures { IfOk result (λ list. list ≡ spec.star_fields several 0 slots.now) }
{
    let mut list = ResultFields::new(alloc);
    'slots: for (at, slot) in slots.iter().enumerate() {
        list = add_star_field(alloc, several, at, slot, list)?;
    }
    Ok(list)
}

/// `*`
fn star(alloc: Global, slots: &[Slot<'_>]) -> Result<ResultFields, CheckFault>
    ensures { Gives (spec.star slots.now) result }
{
    if slots.is_empty() {
        return Err(CheckFault::Refused(Refusal::new(alloc, COUNT)));
    }
    Ok(star_fields(alloc, are_several(slots), slots)?)
}

/// What a SELECT shows.
pub(crate) fn fields_of(
    alloc: Global,
    scope: &Scope<'_>,
    fields: &Fields,
) -> Result<ResultFields, CheckFault>
    ensures { Gives (spec.result_fields scope.now fields.now) result }
{
    if fields.len() == 0 {
        return star(alloc, scope.row.as_slice());
    }
    written_fields(alloc, scope, fields)
}

/// Whether an aggregate stands in one of the fields.
pub(crate) fn any_aggregate(fields: &[ResultField]) -> bool
    ensures { result ≡ spec.any_field_aggregate fields.now }
{
    'fields: for field in fields {
        if has_aggregate(&field.expr.tree) {
            return true;
        }
    }
    false
}

/// The name of a field as that of a place.
fn place_name(name: &Bytes) -> Option<NameRef<'_>>
    ensures { result ≡ spec.place_name name.now }
{
    if name.len() == 0 {
        return None;
    }
    Some(NameRef::new(name.as_slice()))
}

/// A field as a place behind the row.
fn field_slot(field: &ResultField) -> Slot<'_>
    ensures { result ≡ spec.field_slot field.now }
{
    Slot {
        set: None,
        column: place_name(&field.name),
        typing: field.expr.typing,
    }
}

/// The type of an expression that is for a column of a kind.
fn met_typing(kind: Kind, expr: &Checked) -> Typing
    ensures { result ≡ (if expr.now.untyped && is_integer kind then OfKind kind
        else expr.now.typing) }
{
    if expr.untyped && kind.is_integer() {
        Typing::OfKind(kind)
    } else {
        expr.typing
    }
}

/// A field as a place, where it is for a column of a kind.
fn met_slot(kind: Kind, field: &ResultField) -> Slot<'_>
    ensures { result ≡ spec.met_slot kind field.now }
{
    Slot {
        set: None,
        column: place_name(&field.name),
        typing: met_typing(kind, &field.expr),
    }
}

/// A field as a place, where it is for the column at a number or for none.
fn slot_at<'a>(targets: &[Target], at: usize, field: &'a ResultField) -> Slot<'a>
    ensures { result ≡ slot_for (slice_get targets.now at) field.now }
{
    match targets.get(at) {
        Some(target) => met_slot(target.kind, field),
        None => field_slot(field),
    }
}

/// The fields as places behind the row: the first of them are for these columns.
pub(crate) fn field_slots<'a>(
    alloc: Global,
    targets: &[Target],
    fields: &'a [ResultField],
) -> Result<Slots<'a>, NoMemory>
    ensures { IfOk result (λ slots. slots ≡ spec.field_slots (kinds_of targets.now) fields.now) }
{
    let mut slots = Slots::new(alloc);
    'fields: for (at, field) in fields.iter().enumerate() {
        slots.push(slot_at(targets, at, field))?;
    }
    Ok(slots)
}
