//! CREATE TABLE.

ghost use Rattle.std.specs.Prelude.{◌≡◌, ℕ, ◌<◌, IsTrue, length, IfSome, IfOk, OnOk, IsOk};
ghost use Rattle.ql_syntax.specs.declared.statement.Statement.TheVariants as s;
ghost use Rattle.ql_syntax.specs.ReadsBack.{IsReadBack};
ghost use Rattle.ql_rel.specs.declared.schema.TableSchema.{TableSchema};
ghost use Rattle.ql_rel.specs.StatementEffects.{creates};
ghost use Rattle.ql_rel.specs.TablePlans as plan;
ghost use Rattle.ql_rel.specs.WellFormed.{IsWellFormed};
ghost use Rattle.ql_exec.specs.Carries.{Changes, IsCausedExec, Leaves};

use crate::ExecFault;
use crate::fault::fault_of_rel;
use crate::insert::place_named;
use ql_edge::{Name, NoMemory};
use ql_print::made_laws;
use ql_rel::{Rel, TableSchema, add_columns, copy_name};
use ql_syntax::ColumnDefs;
use std::alloc::Global;

/// A table without rows, copied from its statement.
fn table_of(alloc: Global, name: &Name, columns: &ColumnDefs) -> Result<TableSchema, NoMemory>
    ensures { IfOk result (λ table. table ≡ record { name = name.now; columns = columns.now }) }
{
    let name = copy_name(alloc, name)?;
    let mut copy = ColumnDefs::with_capacity(alloc, columns.len())?;
    add_columns(alloc, columns.as_slice(), &mut copy)?;
    Ok(TableSchema {
        name,
        columns: copy,
    })
}

/// Whether a CREATE TABLE has nothing to do.
fn is_idle<R: Rel>(rel: &R, quiet: bool, name: &Name, columns: &ColumnDefs) -> bool
    ensures { result ≡ plan.is_idle (R.schema rel.now) (s.CreateTable quiet name.now columns.now) }
{
    let tables = rel.schema().tables.as_slice();
    quiet && place_named(tables, name) != tables.len()
}

/// Carries out a CREATE TABLE that has a plan: with IF NOT EXISTS a table that is there is left as it is.
pub fn create_table<R: Rel>(
    alloc: Global,
    rel: &mut R,
    quiet: bool,
    name: &Name,
    columns: &ColumnDefs,
) -> Result<(), ExecFault>
    requires ready { IsTrue (R.is_ready rel.old) }
    requires level { 0 < length (R.saved rel.old) }
    requires formed { IfSome (R.db rel.old) IsWellFormed }
    requires plan { IsOk (plan.create_plan (R.schema rel.old) quiet name.now columns.now) }
    requires read { IsReadBack (s.CreateTable quiet name.now columns.now) }
    ensures done { IfSome (R.db rel.old) (λ d. Changes (creates quiet (record {
      name = name.now;
      columns = columns.now;
    }) d) result (R.db rel.new)) }
    ensures ready { OnOk result (R.is_ready rel.new ≡ R.is_ready rel.old) }
    ensures leaves { Leaves R.saved R.limit R.told R.left R.fixed rel.old rel.new }
    ensures cause { IsCausedExec (R.limit rel.old) (R.db rel.old) result (R.faults rel.old)
        (R.faults rel.new) }
{
    if is_idle(rel, quiet, name, columns) {
        return Ok(());
    }
    made_laws();
    let table = table_of(alloc, name, columns)?;
    match rel.create_table(&table) {
        Ok(()) => Ok(()),
        Err(fault) => Err(fault_of_rel(alloc, fault)),
    }
}
