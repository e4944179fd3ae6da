//! The plan of a statement.

ghost use Rattle.std.specs.Prelude.{IfOk};
ghost use Rattle.ql_rel.specs.PlanTypes.{PlanTyped};
ghost use Rattle.ql_rel.specs.StatementPlans.{statement_plan};
ghost use Rattle.ql_check_expr.specs.Gives.{Gives};

use crate::change::{delete_plan, update_plan};
use crate::create::create_plan;
use crate::insert::insert_plan;
use crate::plan::select_plan;
use crate::tables::{add_column_plan, drop_column_plan, drop_plan, whole_plan};
use ql_check_expr::CheckFault;
use ql_rel::{Plan, Schema};
use ql_syntax::Statement;
use ql_value::{LATER, Refusal};
use std::alloc::Global;

/// The plan of a statement over the tables of a schema, or its first refusal. Statements on indexes and on transactions are
/// not built yet. The expressions of a plan have types at the rows that they will see, as `eval` asks.
pub fn check(alloc: Global, statement: &Statement, schema: &Schema) -> Result<Plan, CheckFault>
    ensures plan { Gives (statement_plan schema.now statement.now) result }
    ensures typed { IfOk result (PlanTyped schema.now statement.now) }
{
    statement_plan(alloc, statement, schema)
}

/// The plan of a statement, or its first refusal.
fn statement_plan(alloc: Global, statement: &Statement, schema: &Schema) -> Result<Plan, CheckFault>
    ensures { Gives (statement_plan schema.now statement.now) result }
{
    match statement {
        Statement::Query(select) => select_plan(alloc, schema, select.get()),
        Statement::CreateTable {
            quiet,
            table,
            columns,
        } => create_plan(alloc, schema, *quiet, table, columns),
        Statement::DropTable { quiet, table } => drop_plan(alloc, schema, *quiet, table),
        Statement::AddColumn { table, column } => {
            add_column_plan(alloc, schema, table, column.get())
        }
        Statement::DropColumn { table, column } => drop_column_plan(alloc, schema, table, column),
        Statement::Insert {
            table,
            columns,
            source,
        } => insert_plan(alloc, schema, table, columns, source.get()),
        Statement::Update {
            table,
            sets,
            filter,
        } => update_plan(alloc, schema, table, sets, filter),
        Statement::Delete { table, filter } => delete_plan(alloc, schema, table, filter),
        Statement::Truncate { table } => whole_plan(alloc, schema, table),
        Statement::Begin
        | Statement::Commit
        | Statement::Rollback
        | Statement::CreateIndex { .. }
        | Statement::DropIndex { .. } => Err(CheckFault::Refused(Refusal::new(alloc, LATER))),
    }
}
