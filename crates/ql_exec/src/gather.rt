//! The rows that a SELECT shows, all of them, by its plan.

ghost use Rattle.std.specs.Prelude.{◌≡◌, List, [], ◌∷◌, ◌++◌, IsTrue, IsOk, IfSome, IfOk, OnOk};
ghost use Rattle.std.specs.List.{AllByRecursion};
ghost use Rattle.ql_value.specs.declared.value.Value.{Value};
ghost use Rattle.ql_syntax.specs.declared.syntax.Select.{out-Select};
ghost use Rattle.ql_syntax.specs.declared.typed.Typed.{Typed};
ghost use Rattle.ql_syntax.specs.declared.typing.Typing.{Typing};
ghost use Rattle.ql_syntax.specs.Answers.{then_with};
ghost use Rattle.ql_syntax.specs.Typing.{type_of};
ghost use Rattle.ql_rel.specs.Plans.{add_sets};
ghost use Rattle.ql_rel.specs.PlanTypes as types;
ghost use Rattle.ql_rel.specs.SelectRows as spec;
ghost use Rattle.ql_rel.specs.WellFormed.{IsWellFormed};
ghost use Rattle.ql_exec.specs.Carries.{IsCausedExec, Leaves, Shows};
ghost use Rattle.ql_exec.specs.Selections.{shown_values, IsResultOf, AreResults};
ghost use Rattle.ql_exec.specs.Turns.{rows_of, types_if, IsThere, results_left};
ghost use Rattle.ql_exec.specs.Windows as windows;

use crate::ExecFault;
use crate::fault::refusal;
use crate::limits::{Window, count_of, shows_next, window_of};
use crate::select::{is_in_turn, open_rows};
use crate::source::{RowsLeft, next_result, pass_rows};
use ql_edge::{Items, NoMemory};
use ql_rel::{Plan, Rel, ResultRow};
use ql_syntax::Select;
use ql_value::{LATER, Values};
use std::alloc::Global;

/// Rows of values.
pub(crate) type ValueRows = Items<Values>;

/// Keeps the values of the next row of a result, if it is shown.
fn keep_row(window: &mut Window, row: ResultRow, rows: &mut ValueRows) -> Result<(), NoMemory>
    ensures shown { OnOk result ((more : List (List Value)) → rows.new ++ windows.shown window.new
        more ≡ rows.old ++ windows.shown window.old (row.values ∷ more)) }
    ensures made { OnOk result ((types : List Typing) (fields : List Typed) →
        IsResultOf types fields row.values → AllByRecursion (IsResultOf types fields) rows.old →
        AllByRecursion (IsResultOf types fields) rows.new) }
{
    if shows_next(window) {
        let ResultRow { values, .. } = row;
        rows.push(values)?;
    }
    Ok(())
}

/// Gathers the rows of a result without groups that a window shows.
fn gather_plain<R: Rel>(
    alloc: Global,
    rel: &mut R,
    left: &mut RowsLeft,
    plan: &Plan,
    window: &mut Window,
) -> Result<ValueRows, ExecFault>
    requires ready { IsTrue (R.is_ready rel.old) }
    requires there { IsThere left.old.table (R.schema rel.old) }
    requires formed { IfSome (R.db rel.old) IsWellFormed }
    requires filter { types.IsFilter (types_if left.old.table (R.schema rel.old)) plan.now.filter }
    requires fields { types.AreTyped (type_of (types_if left.old.table (R.schema rel.old)))
        plan.now.fields }
    ensures rows { IfSome (R.db rel.old) (λ d. Shows (then_with (results_left plan.now.filter
        plan.now.fields (rows_of left.old d)) (shown_values window.old)) result) }
    ensures made { IfOk result (AllByRecursion (IsResultOf (types_if left.old.table
        (R.schema rel.old)) plan.now.fields)) }
    ensures db { R.db rel.new ≡ R.db rel.old }
    ensures schema { R.schema rel.new ≡ R.schema rel.old }
    ensures ready { R.is_ready rel.new ≡ R.is_ready rel.old }
    ensures leaves { Leaves R.saved R.limit R.told R.left R.fixed rel.old rel.new }
    ensures cause { IsCausedExec (R.limit rel.old) (R.db rel.old) result (R.faults rel.old)
        (R.faults rel.new) }
{
    let mut rows = ValueRows::new(alloc);
    'rows: while let Some(row) = next_result(alloc, rel, left, plan)? {
        keep_row(window, row, &mut rows)?;
    }
    Ok(rows)
}

/// Gathers the rows of a result that a window shows.
fn gather_result<R: Rel>(
    alloc: Global,
    rel: &mut R,
    left: &mut RowsLeft,
    plan: &Plan,
    window: &mut Window,
) -> Result<ValueRows, ExecFault>
    requires ready { IsTrue (R.is_ready rel.old) }
    requires there { IsThere left.old.table (R.schema rel.old) }
    requires formed { IfSome (R.db rel.old) IsWellFormed }
    requires typed { types.SelectTyped (types_if left.old.table (R.schema rel.old)) plan.now }
    ensures rows { IfSome (R.db rel.old) (λ d. Shows (then_with (spec.filtered plan.now.filter
        (rows_of left.old d)) (λ meant. then_with (spec.results_of plan.now meant) (shown_values
        window.old))) result) }
    ensures made { IfOk result (AreResults (types_if left.old.table (R.schema rel.old)) plan.now) }
    ensures db { R.db rel.new ≡ R.db rel.old }
    ensures schema { R.schema rel.new ≡ R.schema rel.old }
    ensures ready { R.is_ready rel.new ≡ R.is_ready rel.old }
    ensures leaves { Leaves R.saved R.limit R.told R.left R.fixed rel.old rel.new }
    ensures cause { IsCausedExec (R.limit rel.old) (R.db rel.old) result (R.faults rel.old)
        (R.faults rel.new) }
{
    if plan.grouped {
        pass_rows(alloc, rel, left, &plan.filter)?;
        return Err(refusal(alloc, LATER));
    }
    gather_plain(alloc, rel, left, plan, window)
}

/// Gathers the rows that a SELECT shows which shows them in turn.
fn gather_in_turn<R: Rel>(
    alloc: Global,
    rel: &mut R,
    select: &Select,
    plan: &Plan,
) -> Result<ValueRows, ExecFault>
    requires ready { IsTrue (R.is_ready rel.old) }
    requires formed { IfSome (R.db rel.old) IsWellFormed }
    requires sets { IsOk (add_sets (R.schema rel.old) [] (out-Select select.now).sets) }
    requires typed { types.SelectTyped (types.types_if (add_sets (R.schema rel.old) []
        (out-Select select.now).sets)) plan.now }
    requires in_turn { IsTrue (spec.is_in_turn (out-Select select.now).distinct plan.now) }
    ensures rows { IfSome (R.db rel.old) (λ d. Shows (spec.shown_rows d select.now plan.now)
        result) }
    ensures made { IfOk result (AreResults (types.types_if (add_sets (R.schema rel.old) []
        (out-Select select.now).sets)) plan.now) }
    ensures db { R.db rel.new ≡ R.db rel.old }
    ensures schema { R.schema rel.new ≡ R.schema rel.old }
    ensures ready { R.is_ready rel.new ≡ R.is_ready rel.old }
    ensures leaves { Leaves R.saved R.limit R.told R.left R.fixed rel.old rel.new }
    ensures cause { IsCausedExec (R.limit rel.old) (R.db rel.old) result (R.faults rel.old)
        (R.faults rel.new) }
{
    let limit = count_of(alloc, &plan.limit)?;
    let offset = count_of(alloc, &plan.offset)?;
    let Some(mut left) = open_rows(rel, select) else {
        return Err(refusal(alloc, LATER));
    };
    let mut window = window_of(limit, offset);
    gather_result(alloc, rel, &mut left, plan, &mut window)
}

/// Gathers the rows that a SELECT shows.
pub(crate) fn gather_shown<R: Rel>(
    alloc: Global,
    rel: &mut R,
    select: &Select,
    plan: &Plan,
) -> Result<ValueRows, ExecFault>
    requires ready { IsTrue (R.is_ready rel.old) }
    requires formed { IfSome (R.db rel.old) IsWellFormed }
    requires sets { IsOk (add_sets (R.schema rel.old) [] (out-Select select.now).sets) }
    requires typed { types.SelectTyped (types.types_if (add_sets (R.schema rel.old) []
        (out-Select select.now).sets)) plan.now }
    ensures rows { IfSome (R.db rel.old) (λ d. Shows (spec.shown_rows d select.now plan.now)
        result) }
    ensures made { IfOk result (AreResults (types.types_if (add_sets (R.schema rel.old) []
        (out-Select select.now).sets)) plan.now) }
    ensures db { R.db rel.new ≡ R.db rel.old }
    ensures schema { R.schema rel.new ≡ R.schema rel.old }
    ensures ready { R.is_ready rel.new ≡ R.is_ready rel.old }
    ensures leaves { Leaves R.saved R.limit R.told R.left R.fixed rel.old rel.new }
    ensures cause { IsCausedExec (R.limit rel.old) (R.db rel.old) result (R.faults rel.old)
        (R.faults rel.new) }
{
    if !is_in_turn(select.distinct, plan) {
        return Err(refusal(alloc, LATER));
    }
    gather_in_turn(alloc, rel, select, plan)
}
