//! A statement that has a plan.

ghost use Rattle.std.specs.Prelude.{◌≡◌, IsTrue, length, Ok, IfSome, OnOk, OnErr};
ghost use Rattle.ql_syntax.specs.ReadsBack.{IsReadBack};
ghost use Rattle.ql_rel.specs.StatementEffects.{carried};
ghost use Rattle.ql_rel.specs.StatementPlans.{statement_plan};
ghost use Rattle.ql_rel.specs.WellFormed.{IsWellFormed};
ghost use Rattle.ql_exec.specs.Carries.{Does, IsCausedExec, Leaves};
ghost use Rattle.ql_exec.specs.Depths.{IsDeepEnough, LeavesDb};

use crate::ExecFault;
use crate::alter::{add_column, drop_column};
use crate::change::change_table;
use crate::create::create_table;
use crate::drop::{drop_table, truncate_table};
use crate::fault::refusal;
use crate::insert::{insert_rows, insert_selected};
use crate::select::add_select;
use ql_edge::Bytes;
use ql_rel::{Plan, Rel};
use ql_syntax::{RowSource, Statement};
use ql_value::LATER;
use std::alloc::Global;

/// Carries out a statement that has a plan: its text is added behind what is there, where the truth says so with the
/// names of its fields. After a refusal the text is as before. What is not built yet is refused.
pub fn carry<R: Rel>(
    alloc: Global,
    rel: &mut R,
    with_names: bool,
    statement: &Statement,
    plan: &Plan,
    out: &mut Bytes,
) -> Result<(), ExecFault>
    requires ready { IsTrue (R.is_ready rel.old) }
    requires level { IsDeepEnough statement.now (length (R.saved rel.old)) }
    requires formed { IfSome (R.db rel.old) IsWellFormed }
    requires plan { statement_plan (R.schema rel.old) statement.now ≡ Ok plan.now }
    requires read { IsReadBack statement.now }
    ensures done { IfSome (R.db rel.old) (λ d. Does (carried with_names statement.now plan.now d)
        result out.old out.new (R.db rel.new)) }
    ensures alone { LeavesDb statement.now (R.db rel.old) (R.db rel.new) }
    ensures kept { OnErr result (out.new ≡ out.old) }
    ensures ready { OnOk result (R.is_ready rel.new ≡ R.is_ready rel.old) }
    ensures leaves { Leaves R.saved R.limit R.told R.left R.fixed rel.old rel.new }
    ensures cause { IsCausedExec (R.limit rel.old) (R.db rel.old) result (R.faults rel.old)
        (R.faults rel.new) }
{
    match statement {
        Statement::Query(select) => add_select(alloc, rel, with_names, select.get(), plan, out),
        Statement::CreateTable {
            quiet,
            table,
            columns,
        } => create_table(alloc, rel, *quiet, table, columns),
        Statement::DropTable { quiet, table } => drop_table(alloc, rel, *quiet, table),
        Statement::AddColumn { table, column } => add_column(alloc, rel, table, column.get()),
        Statement::DropColumn { table, column } => drop_column(alloc, rel, table, column),
        Statement::Insert { table, source, .. } => match source.get() {
            RowSource::Rows(_) => insert_rows(alloc, rel, table, plan),
            RowSource::Query(select) => insert_selected(alloc, rel, table, select.get(), plan),
        },
        Statement::Update { table, .. } => change_table(alloc, rel, table, false, plan),
        Statement::Delete { table, .. } => change_table(alloc, rel, table, true, plan),
        Statement::Truncate { table } => truncate_table(alloc, rel, table),
        _ => Err(refusal(alloc, LATER)),
    }
}
