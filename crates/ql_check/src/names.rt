//! The names that a statement gives.

ghost use Rattle.std.specs.Prelude.{◌≡◌, ℕ, not, List, [], ◌∷◌, ◌++◌, IfOk, OnOk};
ghost use Rattle.ql_rel.specs.Accepted as accepted;
ghost use Rattle.ql_rel.specs.Names as spec;
ghost use Rattle.ql_rel.specs.NewNames.{new_name, free_table, free_column};
ghost use Rattle.ql_check_expr.specs.Gives.{Gives};
ghost use Rattle.ql_check.specs.NameSets.{HoldsNames};

use ql_check_expr::CheckFault;
use ql_edge::NoMemory;
use ql_rel::{Indexes, Schema, TableSchemas};
use ql_value::{EXISTS, RESERVED, Refusal};
use std::alloc::Global;
use std::collections::BTreeSet;

/// Whether the name begins with two underscores.
fn is_reserved(name: &[u8]) -> bool
    ensures { result ≡ accepted.is_reserved name.now }
{
    match name {
        [b'_', b'_', ..] => true,
        _ => false,
    }
}

/// A new name.
pub(crate) fn new_name(alloc: Global, name: &[u8]) -> Result<(), CheckFault>
    ensures { Gives (new_name name.now) result }
{
    if is_reserved(name) {
        return Err(CheckFault::Refused(Refusal::with_name(alloc, RESERVED, name)?));
    }
    Ok(())
}

/// Whether a table has the name.
pub(crate) fn is_table(name: &[u8], tables: &TableSchemas) -> bool
    ensures { result ≡ spec.has_name name.now (spec.table_names tables.now) }
{
    'tables: for table in tables.as_slice() {
        if table.name.as_slice() == name {
            return true;
        }
    }
    false
}

/// Whether an index has the name.
fn is_index(name: &[u8], indexes: &Indexes) -> bool
    ensures { result ≡ spec.has_name name.now (spec.index_names indexes.now) }
{
    'indexes: for index in indexes.as_slice() {
        if index.name.as_slice() == name {
            return true;
        }
    }
    false
}

/// The name of a new table.
pub(crate) fn free_table(alloc: Global, name: &[u8], schema: &Schema) -> Result<(), CheckFault>
    ensures { Gives (free_table name.now schema.now) result }
{
    if is_table(name, &schema.tables) || is_index(name, &schema.indexes) {
        return Err(CheckFault::Refused(Refusal::with_name(alloc, EXISTS, name)?));
    }
    Ok(())
}

/// Adds a name to a set, and answers whether it is a new one.
pub(crate) fn add_name<'a>(names: &mut BTreeSet<&'a [u8]>, name: &'a [u8]) -> Result<bool, NoMemory>
    ensures added { (before : List (List ℕ)) → HoldsNames names.old before
        → IfOk result (λ added. added ≡ not (spec.has_name name.now before)) }
    ensures names { (before : List (List ℕ)) → HoldsNames names.old before
        → OnOk result (HoldsNames names.new (before ++ name.now ∷ [])) }
{
    match names.insert(name) {
        Ok(added) => Ok(added),
        Err(_) => Err(NoMemory),
    }
}

/// The name of a new column beside others, which it is added to.
pub(crate) fn free_column<'a>(
    alloc: Global,
    names: &mut BTreeSet<&'a [u8]>,
    name: &'a [u8],
) -> Result<(), CheckFault>
    ensures free { (before : List (List ℕ)) → HoldsNames names.old before
        → Gives (free_column name.now before) result }
    ensures names { (before : List (List ℕ)) → HoldsNames names.old before
        → OnOk result (HoldsNames names.new (before ++ name.now ∷ [])) }
{
    if !add_name(names, name)? {
        return Err(CheckFault::Refused(Refusal::with_name(alloc, EXISTS, name)?));
    }
    Ok(())
}
