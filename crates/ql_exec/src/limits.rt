//! LIMIT and OFFSET.

ghost use Rattle.std.specs.Prelude.{◌≡◌, List, [], ◌∷◌, ◌++◌, if◌then◌else◌, IfSome, OnOk};
ghost use Rattle.ql_value.specs.Kinds.{is_integer};
ghost use Rattle.ql_value.specs.declared.value.Value.{Value};
ghost use Rattle.ql_syntax.specs.Typing.{IsTyped, among, type_of};
ghost use Rattle.ql_rel.specs.RowLists as lists;
ghost use Rattle.ql_rel.specs.SelectRows as spec;
ghost use Rattle.ql_exec.specs.Answers.{Answers};
ghost use Rattle.ql_exec.specs.Windows as windows;

use crate::ExecFault;
use crate::fault::refusal;
use crate::text::add_line;
use crate::values::value_of;
use ql_edge::{Bytes, NoMemory};
use ql_eval::Typed;
use ql_value::{NEGATIVE_COUNT, Value};
use std::alloc::Global;

/// Which of the rows to come are shown.
#[derive(Debug, Drop)]
pub struct Window {
    /// How many are not shown first.
    pub skip: u128,
    /// How many are shown then, at most.
    pub most: Option<u128>,
}

/// A number as a count.
fn count(alloc: Global, number: i128) -> Result<Option<u128>, ExecFault>
    ensures { Answers (spec.count number) result }
{
    if number < 0 {
        return Err(refusal(alloc, NEGATIVE_COUNT));
    }
    Ok(Some(number.unsigned_abs()))
}

/// The count of a LIMIT or an OFFSET, none where it is not written or NULL.
pub(crate) fn count_of(alloc: Global, expr: &Option<Typed>) -> Result<Option<u128>, ExecFault>
    requires { IfSome expr.now (λ e. IsTyped (among is_integer (type_of [] e))) }
    ensures { Answers (spec.count_of expr.now) result }
{
    let Some(expr) = expr else {
        return Ok(None);
    };
    match value_of(alloc, expr, &[])? {
        Value::Int(_, number) => count(alloc, number),
        _ => Ok(None),
    }
}

/// What LIMIT and OFFSET show.
pub(crate) fn window_of(limit: Option<u128>, offset: Option<u128>) -> Window
    ensures { (rows : List (List Value)) → windows.shown result rows ≡ lists.window offset limit rows }
{
    Window {
        skip: offset.unwrap_or(0),
        most: limit,
    }
}

/// Whether the next row is shown.
pub(crate) fn shows_next(window: &mut Window) -> bool
    ensures { (row : List Value) (rows : List (List Value)) → windows.shown window.old (row ∷ rows)
        ≡ (if result then row ∷ windows.shown window.new rows else windows.shown window.new rows) }
{
    if window.skip > 0 {
        window.skip -= 1;
        return false;
    }
    match window.most {
        None => true,
        Some(0) => false,
        Some(most) => {
            window.most = Some(most - 1);
            true
        }
    }
}

/// Adds the line of the next row, if it is shown.
pub(crate) fn show_row(window: &mut Window, row: &[Value], text: &mut Bytes) -> Result<(), NoMemory>
    ensures { OnOk result ((rows : List (List Value)) → text.new ++ windows.shown_lines window.new
        rows ≡ text.old ++ windows.shown_lines window.old (row.now ∷ rows)) }
{
    if shows_next(window) {
        add_line(row, text)?;
    }
    Ok(())
}
