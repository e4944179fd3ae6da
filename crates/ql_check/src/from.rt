//! The record sets of a FROM.

ghost use Rattle.std.specs.Prelude.{◌≡◌, [], ◌∷◌, ◌++◌, Some, IfOk};
ghost use Rattle.ql_rel.specs.Plans as spec;
ghost use Rattle.ql_check_expr.specs.Gives.{Gives};
ghost use Rattle.ql_check.specs.Found.{table_of};

use ql_check_expr::{CheckFault, is_called};
use ql_edge::{Boxed, Name, NoMemory};
use ql_rel::{Schema, TableSchema, TableSchemas};
use ql_syntax::{
    ColumnDef, ColumnDefs, FromSet, FromSets, NameRef, SetSource, Slot, Slots, Typing,
};
use ql_value::{AMBIGUOUS, Kind, LATER, NO_TABLE, Refusal};
use std::alloc::Global;

/// The table with a name.
pub(crate) fn table_named<'a>(name: &[u8], tables: &'a TableSchemas) -> Option<&'a TableSchema>
    ensures { table_of result ≡ spec.table_named name.now tables.now }
{
    'tables: for table in tables.as_slice() {
        if table.name.as_slice() == name {
            return Some(table);
        }
    }
    None
}

/// Whether the set describes the database itself.
pub(crate) fn is_metadata(name: &[u8]) -> bool
    ensures { result ≡ spec.is_metadata name.now }
{
    name == b"__Table".as_slice() || name == b"__Column".as_slice() || name == b"__Index".as_slice()
}

/// Whether some record set has the name.
fn is_taken(name: &[u8], slots: &[Slot<'_>]) -> bool
    ensures { result ≡ spec.is_taken name.now slots.now }
{
    'slots: for slot in slots {
        if is_called(&slot.set, name) {
            return true;
        }
    }
    false
}

/// A place for a column of a record set.
fn column_slot<'a>(set: &'a [u8], column: &'a ColumnDef) -> Slot<'a>
    ensures { let typing = Typing.OfKind column.now.kind in
        result ≡ record { set = Some set.now; column = Some column.now.name; typing = typing } }
{
    Slot {
        set: Some(NameRef::new(set)),
        column: Some(NameRef::new(column.name.as_slice())),
        typing: Typing::OfKind(column.kind),
    }
}

/// The places of a record set behind others.
pub(crate) fn add_slots<'a>(
    before: Slots<'a>,
    set: &'a [u8],
    columns: &'a ColumnDefs,
) -> Result<Slots<'a>, NoMemory>
    ensures { IfOk result (λ slots. slots ≡ before.entry ++ spec.set_slots set.now columns.now) }
{
    let mut slots = before;
    slots.push(Slot {
        set: Some(NameRef::new(set)),
        column: None,
        typing: Typing::OfKind(Kind::Int64),
    })?;
    'columns: for column in columns.as_slice() {
        slots.push(column_slot(set, column))?;
    }
    Ok(slots)
}

/// A table as a further record set with a name.
fn add_table<'a>(
    alloc: Global,
    slots: Slots<'a>,
    set: &'a [u8],
    name: &[u8],
    table: Option<&'a TableSchema>,
) -> Result<Slots<'a>, CheckFault>
    ensures { Gives (spec.add_table slots.entry set.now name.now (table_of table.entry)) result }
{
    let Some(table) = table else {
        return Err(CheckFault::Refused(Refusal::with_name(alloc, NO_TABLE, name)?));
    };
    if is_taken(set, slots.as_slice()) {
        return Err(CheckFault::Refused(Refusal::with_name(alloc, AMBIGUOUS, set)?));
    }
    Ok(add_slots(slots, set, &table.columns)?)
}

/// What a record set is called.
fn set_name<'a>(alias: &'a Option<Boxed<Name>>, table: &'a Name) -> &'a [u8]
    ensures { result.now ≡ spec.set_name alias.now table.now }
{
    match alias {
        Some(alias) => alias.get().as_slice(),
        None => table.as_slice(),
    }
}

/// A further record set that is a table.
fn add_named<'a>(
    alloc: Global,
    schema: &'a Schema,
    slots: Slots<'a>,
    alias: &'a Option<Boxed<Name>>,
    name: &'a Name,
) -> Result<Slots<'a>, CheckFault>
    ensures { Gives (spec.add_named schema.now slots.entry alias.now name.now) result }
{
    if is_metadata(name.as_slice()) {
        return Err(CheckFault::Refused(Refusal::new(alloc, LATER)));
    }
    let table = table_named(name.as_slice(), &schema.tables);
    add_table(alloc, slots, set_name(alias, name), name.as_slice(), table)
}

/// A further record set.
fn add_set<'a>(
    alloc: Global,
    schema: &'a Schema,
    slots: Slots<'a>,
    set: &'a FromSet,
) -> Result<Slots<'a>, CheckFault>
    ensures { Gives (spec.add_set schema.now slots.entry set.now) result }
{
    match &set.source {
        SetSource::Table(name) => add_named(alloc, schema, slots, &set.alias, name.get()),
        SetSource::Query(_) => Err(CheckFault::Refused(Refusal::new(alloc, LATER))),
    }
}

/// The record sets of a FROM, from left to right.
pub(crate) fn add_sets<'a>(
    alloc: Global,
    schema: &'a Schema,
    sets: &'a FromSets,
) -> Result<Slots<'a>, CheckFault>
    ensures { Gives (spec.add_sets schema.now [] sets.now) result }
{
    let mut slots = Slots::new(alloc);
    'sets: for set in sets.as_slice() {
        slots = add_set(alloc, schema, slots, set)?;
    }
    Ok(slots)
}
