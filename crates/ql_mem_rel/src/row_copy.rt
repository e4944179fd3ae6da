//! Copies of rows.
ghost use Rattle.std.specs.Prelude.{◌≡◌, ◌++◌, IfOk, OnOk};

use ql_edge::NoMemory;
use ql_rel::Row;
use ql_value::{Value, Values, copy_value};
use std::alloc::Global;

/// Adds copies of the values.
pub(crate) fn add_values(alloc: Global, values: &[Value], copy: &mut Values) -> Result<(), NoMemory>
    ensures { OnOk result (copy.new ≡ copy.old ++ values.now) }
{
    for value in values {
        copy.push(copy_value(alloc, value)?)?;
    }
    Ok(())
}

/// A copy of the values of a row.
pub(crate) fn copy_values(alloc: Global, values: &Values) -> Result<Values, NoMemory>
    ensures { IfOk result (λ copy. copy ≡ values.now) }
{
    let mut copy = Values::with_capacity(alloc, values.len())?;
    add_values(alloc, values.as_slice(), &mut copy)?;
    Ok(copy)
}

/// Makes `out` a copy of the row. It keeps the room of the values.
pub(crate) fn read_row(alloc: Global, row: &Row, out: &mut Row) -> Result<(), NoMemory>
    ensures { OnOk result (out.new ≡ row.now) }
{
    out.id = row.id;
    out.values.clear();
    add_values(alloc, row.values.as_slice(), &mut out.values)
}

/// A copy of a row.
pub(crate) fn copy_row(alloc: Global, row: &Row) -> Result<Row, NoMemory>
    ensures { IfOk result (λ copy. copy ≡ row.now) }
{
    let values = copy_values(alloc, &row.values)?;
    Ok(Row { id: row.id, values })
}
