//! DROP TABLE and TRUNCATE TABLE.

ghost use Rattle.std.specs.Prelude.{◌≡◌, ℕ, ◌<◌, IsTrue, false, length, Ok, IfSome, OnOk};
ghost use Rattle.ql_syntax.specs.declared.statement.Statement.TheVariants as s;
ghost use Rattle.ql_rel.specs.NewNames as new;
ghost use Rattle.ql_rel.specs.StatementEffects.{drops, empties};
ghost use Rattle.ql_rel.specs.TablePlans as plan;
ghost use Rattle.ql_exec.specs.Carries.{Changes, IsCausedExec, Leaves};

use crate::ExecFault;
use crate::fault::fault_of_rel;
use crate::insert::{place_named, table_named};
use ql_edge::Name;
use ql_rel::Rel;
use std::alloc::Global;

/// Whether a DROP TABLE has nothing to do.
fn is_idle<R: Rel>(rel: &R, quiet: bool, name: &Name) -> bool
    ensures { result ≡ plan.is_idle (R.schema rel.now) (s.DropTable quiet name.now) }
{
    let tables = rel.schema().tables.as_slice();
    quiet && place_named(tables, name) == tables.len()
}

/// Carries out a DROP TABLE that has a plan: with IF EXISTS a table that is not there is left as it is.
pub fn drop_table<R: Rel>(
    alloc: Global,
    rel: &mut R,
    quiet: bool,
    name: &Name,
) -> Result<(), ExecFault>
    requires ready { IsTrue (R.is_ready rel.old) }
    requires level { 0 < length (R.saved rel.old) }
    requires table { plan.is_idle (R.schema rel.old) (s.DropTable quiet name.now) ≡ false →
        new.place_named name.now (R.schema rel.old).tables < length (R.schema rel.old).tables }
    ensures done { IfSome (R.db rel.old) (λ d. Changes (Ok (drops quiet name.now d)) result
        (R.db rel.new)) }
    ensures ready { OnOk result (R.is_ready rel.new ≡ R.is_ready rel.old) }
    ensures leaves { Leaves R.saved R.limit R.told R.left R.fixed rel.old rel.new }
    ensures cause { IsCausedExec (R.limit rel.old) (R.db rel.old) result (R.faults rel.old)
        (R.faults rel.new) }
{
    if is_idle(rel, quiet, name) {
        return Ok(());
    }
    let table = table_named(rel, name);
    match rel.drop_table(table) {
        Ok(()) => Ok(()),
        Err(fault) => Err(fault_of_rel(alloc, fault)),
    }
}

/// Carries out a TRUNCATE TABLE that has a plan.
pub fn truncate_table<R: Rel>(alloc: Global, rel: &mut R, name: &Name) -> Result<(), ExecFault>
    requires ready { IsTrue (R.is_ready rel.old) }
    requires level { 0 < length (R.saved rel.old) }
    requires table { new.place_named name.now (R.schema rel.old).tables < length
        (R.schema rel.old).tables }
    ensures done { IfSome (R.db rel.old) (λ d. Changes (Ok (empties name.now d)) result
        (R.db rel.new)) }
    ensures ready { OnOk result (R.is_ready rel.new ≡ R.is_ready rel.old) }
    ensures leaves { Leaves R.saved R.limit R.told R.left R.fixed rel.old rel.new }
    ensures cause { IsCausedExec (R.limit rel.old) (R.db rel.old) result (R.faults rel.old)
        (R.faults rel.new) }
{
    let table = table_named(rel, name);
    match rel.truncate(table) {
        Ok(()) => Ok(()),
        Err(fault) => Err(fault_of_rel(alloc, fault)),
    }
}
