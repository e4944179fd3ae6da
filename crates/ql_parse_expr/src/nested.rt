//! The two functions that recursion through brackets goes by.

ghost use Rattle.ql_cursor.specs.Parses.{Answers};
ghost use Rattle.ql_syntax.specs.Rules as rule;
ghost use Rattle.ql_syntax.specs.Trees.{expr_of, select_of};

use crate::parser::Parser;
use ql_cursor::{Cursor, Fault};
use ql_syntax::{Expr, Select};
use std::alloc::Global;

/// An expression, with room for so many more open brackets.
#[cycle(parse)]
pub fn parse_expr(alloc: Global, room: usize, cursor: &mut Cursor<'_>) -> Result<Expr, Fault>
    ensures { Answers room (rule.the rule.expr) expr_of cursor.old result cursor.new }
{
    let parser = Parser {
        alloc,
        room,
        expr: parse_expr,
        select: parse_select,
    };
    parser.expression(cursor)
}

/// A SELECT, with room for so many more open brackets.
#[cycle(parse)]
pub fn parse_select(alloc: Global, room: usize, cursor: &mut Cursor<'_>) -> Result<Select, Fault>
    ensures { Answers room (rule.the rule.select) select_of cursor.old result cursor.new }
{
    let parser = Parser {
        alloc,
        room,
        expr: parse_expr,
        select: parse_select,
    };
    parser.query(cursor)
}
