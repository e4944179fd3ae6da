//! Columns that come and go. What the schema is then is made on a relation of its own before, by its CREATE TABLE.
ghost use Rattle.std.specs.Prelude.{◌≡◌, ◌<◌, ◌≤◌, false, true, IsSome, IfSome, IfOk, [], ◌∷◌, ◌++◌, length, remove};
ghost use Rattle.ql_rel.specs.Changes.{column_added, column_dropped};
ghost use Rattle.ql_rel.specs.Databases.{columns_at, name_at, schema_of};
ghost use Rattle.ql_rel.specs.Limits.{is_past_added};
ghost use Rattle.ql_rel.specs.Names.{column_names, has_name, is_column_taken};
ghost use Rattle.ql_rel.specs.WellFormed.{IsMade};
ghost use Rattle.test_rel.specs.Only.{only};

use crate::calls::may_change;
use crate::reply::{Reply, of_change};
use ql_edge::{Name, NoMemory};
use ql_rel::{COLUMN_LIMIT, Rel, Schema, TableSchema, add_columns, copy_column};
use ql_syntax::{ColumnDef, ColumnDefs};
use ql_value::Kind;
use std::alloc::Global;

/// A column of a kind that takes all values, with a name.
pub fn column(alloc: Global, name: &[u8], kind: Kind) -> Result<ColumnDef, NoMemory>
    requires some { 0 < length name.now }
    requires within { length name.now ≤ 128 }
{
    Ok(ColumnDef {
        name: Name::new(alloc, name)?,
        kind,
        not_null: false,
        rule: None,
        default: None,
    })
}

/// Whether two names are the same.
fn is_same_name(a: &Name, b: &Name) -> bool
    ensures { result ≡ true → a.now ≡ b.now }
{
    a.as_slice() == b.as_slice()
}

/// Whether two columns are the same, and have neither rule nor default.
fn is_same_column(a: &ColumnDef, b: &ColumnDef) -> bool
    ensures { result ≡ true → a.now ≡ b.now }
{
    match (&a.rule, &a.default, &b.rule, &b.default) {
        (None, None, None, None) => {
            is_same_name(&a.name, &b.name) && a.kind == b.kind && a.not_null == b.not_null
        }
        _ => false,
    }
}

/// Whether columns are the same, and have neither rules nor defaults.
fn are_same(a: &[ColumnDef], b: &[ColumnDef]) -> bool
    ensures { result ≡ true → a.now ≡ b.now }
{
    if a.len() != b.len() {
        return false;
    }
    for (i, column) in a.iter().enumerate() {
        if !is_same_column(column, &b[i]) {
            return false;
        }
    }
    true
}

/// Whether a column has the name.
fn has_column(columns: &[ColumnDef], name: &Name) -> bool
    ensures { result ≡ has_name name.now (column_names columns.now) }
{
    for column in columns {
        if column.name.as_slice() == name.as_slice() {
            return true;
        }
    }
    false
}

/// The only table of a schema without indexes.
fn only_table(schema: &Schema) -> Option<&TableSchema>
    ensures { IfSome result (λ t. schema.now ≡ only t.now.name t.now.columns) }
{
    if !schema.indexes.is_empty() {
        return None;
    }
    match schema.tables.as_slice() {
        [table] => Some(table),
        _ => None,
    }
}

/// Copies of the columns, with one more behind them.
fn wider(alloc: Global, columns: &[ColumnDef], column: &ColumnDef) -> Result<ColumnDefs, NoMemory>
    ensures { IfOk result (λ wide. wide ≡ columns.now ++ column.now ∷ []) }
{
    let mut wide = ColumnDefs::new(alloc);
    add_columns(alloc, columns, &mut wide)?;
    wide.push(copy_column(alloc, column)?)?;
    Ok(wide)
}

/// Copies of the columns but the one at a place.
fn narrower(alloc: Global, columns: &[ColumnDef], place: usize) -> Result<ColumnDefs, NoMemory>
    requires { place < length columns.now }
    ensures { IfOk result (λ narrow. narrow ≡ remove columns.now place) }
{
    let mut narrow = ColumnDefs::new(alloc);
    add_columns(alloc, &columns[..place], &mut narrow)?;
    add_columns(alloc, &columns[place + 1..], &mut narrow)?;
    Ok(narrow)
}

/// Whether the only table of a relation has this name and these columns, and so a CREATE statement makes it.
fn is_made<R: Rel>(made: &R, name: &Name, columns: &ColumnDefs) -> bool
    requires { IsSome (R.db made.now) }
    ensures { result ≡ true → IsMade (only name.now columns.now) }
{
    if !made.ready() {
        return false;
    }
    match only_table(made.schema()) {
        Some(table) => {
            is_same_name(&table.name, name)
                && are_same(table.columns.as_slice(), columns.as_slice())
        }
        None => false,
    }
}

/// Whether a column may be added to the only table of a relation, as it is on another one.
fn may_add<R: Rel, M: Rel>(
    alloc: Global,
    rel: &R,
    column: &ColumnDef,
    made: &M,
) -> Result<bool, NoMemory>
    requires { IsSome (M.db made.now) }
    ensures free { IfOk result (λ may. may ≡ true →
        is_column_taken (name_at 0 (R.schema rel.now)) column.now.name
        (columns_at 0 (R.schema rel.now)) (R.schema rel.now).indexes ≡ false) }
    ensures made { IfOk result (λ may. may ≡ true → IfSome (R.db rel.now) (λ d.
        is_past_added column.now (columns_at 0 (schema_of d)) ≡ false →
        IsMade (schema_of (column_added 0 column.now d)))) }
{
    let Some(table) = only_table(rel.schema()) else {
        return Ok(false);
    };
    let columns = table.columns.as_slice();
    if has_column(columns, &column.name) {
        return Ok(false);
    }
    if columns.len() >= COLUMN_LIMIT {
        return Ok(true);
    }
    let wide = wider(alloc, columns, column)?;
    Ok(is_made(made, &table.name, &wide))
}

/// Adds a column to the only table of a relation, as it is on another one.
pub fn add_column<R: Rel, M: Rel>(
    alloc: Global,
    rel: &mut R,
    column: &ColumnDef,
    made: &M,
) -> Result<Reply, NoMemory>
    requires { IsSome (M.db made.now) }
{
    if !may_change(rel, 0) {
        return Ok(Reply::NotAllowed);
    }
    if !may_add(alloc, rel, column, made)? {
        return Ok(Reply::NotAllowed);
    }
    Ok(of_change(rel.add_column(0, column)))
}

/// Whether the column at a place may be taken from the only table of a relation, as it is on another one.
fn may_drop<R: Rel, M: Rel>(alloc: Global, rel: &R, place: u32, made: &M) -> Result<bool, NoMemory>
    requires { IsSome (M.db made.now) }
    ensures column { IfOk result (λ may. may ≡ true →
        place < length (columns_at 0 (R.schema rel.now))) }
    ensures other { IfOk result (λ may. may ≡ true →
        1 < length (columns_at 0 (R.schema rel.now))) }
    ensures made { IfOk result (λ may. may ≡ true → IfSome (R.db rel.now) (λ d.
        IsMade (schema_of (column_dropped 0 place d)))) }
{
    let Some(table) = only_table(rel.schema()) else {
        return Ok(false);
    };
    let columns = table.columns.as_slice();
    let place = place as usize;
    if place >= columns.len() || columns.len() < 2 {
        return Ok(false);
    }
    let narrow = narrower(alloc, columns, place)?;
    Ok(is_made(made, &table.name, &narrow))
}

/// Takes the column at a place from the only table of a relation, as it is on another one.
pub fn drop_column<R: Rel, M: Rel>(
    alloc: Global,
    rel: &mut R,
    place: u32,
    made: &M,
) -> Result<Reply, NoMemory>
    requires { IsSome (M.db made.now) }
{
    if !may_change(rel, 0) {
        return Ok(Reply::NotAllowed);
    }
    if !may_drop(alloc, rel, place, made)? {
        return Ok(Reply::NotAllowed);
    }
    Ok(of_change(rel.drop_column(0, place)))
}
