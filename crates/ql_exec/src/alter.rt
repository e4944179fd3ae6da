//! ALTER TABLE.

ghost use Rattle.std.specs.Prelude.{◌≡◌, ℕ, ◌<◌, IsTrue, length, Ok, IfSome, OnOk, IsOk};
ghost use Rattle.ql_syntax.specs.declared.statement.Statement.TheVariants as s;
ghost use Rattle.ql_syntax.specs.ReadsBack.{IsReadBack};
ghost use Rattle.ql_rel.specs.Databases.{columns_at};
ghost use Rattle.ql_rel.specs.NewNames as new;
ghost use Rattle.ql_rel.specs.StatementEffects.{adds_column, drops_column};
ghost use Rattle.ql_rel.specs.TablePlans as plan;
ghost use Rattle.ql_rel.specs.WellFormed.{IsWellFormed};
ghost use Rattle.ql_exec.specs.Carries.{Changes, IsCausedExec, Leaves};

use crate::ExecFault;
use crate::fault::fault_of_rel;
use crate::insert::{columns_of, table_named};
use ql_edge::Name;
use ql_print::made_laws;
use ql_rel::Rel;
use ql_syntax::ColumnDef;
use std::alloc::Global;

/// The place of the column with a name, that behind the last one where there is none.
fn column_place(columns: &[ColumnDef], name: &Name) -> usize
    ensures { result ≡ new.column_place name.now columns.now }
{
    let mut place = 0;
    'columns: for column in columns {
        if column.name.as_slice() == name.as_slice() {
            return place;
        }
        place += 1;
    }
    place
}

/// The place of the column with a name, which is there.
fn column_named<R: Rel>(rel: &R, table: u32, name: &Name) -> u32
    requires table { table < length (R.schema rel.now).tables }
    requires column { new.column_place name.now (columns_at table (R.schema rel.now)) <
        length (columns_at table (R.schema rel.now)) }
    ensures { result ≡ new.column_place name.now (columns_at table (R.schema rel.now)) }
{
    column_place(columns_of(rel, table), name) as u32
}

/// Carries out an ALTER TABLE ADD that has a plan: the column stands behind the others, NULL in each row.
pub fn add_column<R: Rel>(
    alloc: Global,
    rel: &mut R,
    name: &Name,
    column: &ColumnDef,
) -> Result<(), ExecFault>
    requires ready { IsTrue (R.is_ready rel.old) }
    requires level { 0 < length (R.saved rel.old) }
    requires formed { IfSome (R.db rel.old) IsWellFormed }
    requires plan { IsOk (plan.add_column_plan (R.schema rel.old) name.now column.now) }
    requires read { IsReadBack (s.AddColumn name.now column.now) }
    ensures done { IfSome (R.db rel.old) (λ d. Changes (adds_column name.now column.now d) result
        (R.db rel.new)) }
    ensures ready { OnOk result (R.is_ready rel.new ≡ R.is_ready rel.old) }
    ensures leaves { Leaves R.saved R.limit R.told R.left R.fixed rel.old rel.new }
    ensures cause { IsCausedExec (R.limit rel.old) (R.db rel.old) result (R.faults rel.old)
        (R.faults rel.new) }
{
    made_laws();
    let table = table_named(rel, name);
    match rel.add_column(table, column) {
        Ok(()) => Ok(()),
        Err(fault) => Err(fault_of_rel(alloc, fault)),
    }
}

/// Carries out an ALTER TABLE DROP COLUMN that has a plan: the column goes with its values and its indexes.
pub fn drop_column<R: Rel>(
    alloc: Global,
    rel: &mut R,
    name: &Name,
    column: &Name,
) -> Result<(), ExecFault>
    requires ready { IsTrue (R.is_ready rel.old) }
    requires level { 0 < length (R.saved rel.old) }
    requires formed { IfSome (R.db rel.old) IsWellFormed }
    requires plan { IsOk (plan.drop_column_plan (R.schema rel.old) name.now column.now) }
    ensures done { IfSome (R.db rel.old) (λ d. Changes (Ok (drops_column name.now column.now d))
        result (R.db rel.new)) }
    ensures ready { OnOk result (R.is_ready rel.new ≡ R.is_ready rel.old) }
    ensures leaves { Leaves R.saved R.limit R.told R.left R.fixed rel.old rel.new }
    ensures cause { IsCausedExec (R.limit rel.old) (R.db rel.old) result (R.faults rel.old)
        (R.faults rel.new) }
{
    made_laws();
    let table = table_named(rel, name);
    let place = column_named(rel, table, column);
    match rel.drop_column(table, place) {
        Ok(()) => Ok(()),
        Err(fault) => Err(fault_of_rel(alloc, fault)),
    }
}
