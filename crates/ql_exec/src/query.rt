//! The rows of a table, one by one.

ghost use Rattle.std.specs.Prelude.{◌≡◌, ℕ, ◌<◌, ◌≤◌, IsTrue, length, IfSome, IfOk};
ghost use Rattle.ql_rel.specs.Databases.{columns_at};
ghost use Rattle.ql_rel.specs.SelectRows as spec;
ghost use Rattle.ql_rel.specs.Rels.{row_after};
ghost use Rattle.ql_rel.specs.WellFormed.{Fits, IsWellFormed};
ghost use Rattle.ql_exec.specs.Carries.{IsCausedExec, IsTroubleAlone, Leaves};

use crate::ExecFault;
use crate::fault::fault_of_rel;
use lldb_base::Trouble;
use ql_edge::NoMemory;
use ql_rel::{LAST_ID, Rel, Row};
use ql_value::{Kind, Value, Values};
use std::alloc::Global;

/// A row of a table as expressions see it: its id, then its values.
pub(crate) fn set_row(alloc: Global, id: u64, values: Values) -> Result<Values, NoMemory>
    ensures { IfOk result (λ row. row ≡ spec.set_row (record { id = id; values = values })) }
{
    let mut row = Values::with_capacity(alloc, values.len().saturating_add(1))?;
    row.push(Value::Int(Kind::Int64, i128::from(id)))?;
    'values: for value in values.into_vec() {
        row.push(value)?;
    }
    Ok(row)
}

/// The first row of a table whose id is over `after`. An id over the greatest is of a damaged content.
pub(crate) fn next_row<R: Rel>(
    alloc: Global,
    rel: &mut R,
    table: u32,
    after: u64,
) -> Result<Option<Row>, ExecFault>
    requires ready { IsTrue (R.is_ready rel.old) }
    requires table { table < length (R.schema rel.old).tables }
    requires formed { IfSome (R.db rel.old) IsWellFormed }
    ensures row { IfOk result (λ row. IfSome (R.db rel.old) (λ d. row ≡ row_after table after d)) }
    ensures over { IfOk result (λ row. IfSome row (λ r. after < r.id)) }
    ensures small { IfOk result (λ row. IfSome row (λ r. r.id ≤ LAST_ID)) }
    ensures fits { IfOk result (λ row. IfSome row (λ r. Fits (columns_at table
        (R.schema rel.old)) r.values)) }
    ensures trouble { IsTroubleAlone result }
    ensures db { R.db rel.new ≡ R.db rel.old }
    ensures schema { R.schema rel.new ≡ R.schema rel.old }
    ensures ready { R.is_ready rel.new ≡ R.is_ready rel.old }
    ensures leaves { Leaves R.saved R.limit R.told R.left R.fixed rel.old rel.new }
    ensures cause { IsCausedExec (R.limit rel.old) (R.db rel.old) result (R.faults rel.old)
        (R.faults rel.new) }
{
    let mut row = Row {
        id: 0,
        values: Values::new(alloc),
    };
    match rel.scan(table, after, &mut row) {
        Ok(true) => {
            if row.id > LAST_ID {
                return Err(ExecFault::Trouble(Trouble::Damaged));
            }
            Ok(Some(row))
        }
        Ok(false) => Ok(None),
        Err(fault) => Err(fault_of_rel(alloc, fault)),
    }
}
