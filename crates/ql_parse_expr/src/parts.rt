//! Expressions and SELECTs as parts of a statement.

ghost use Rattle.ql_cursor.specs.Parses.{Answers};
ghost use Rattle.ql_syntax.specs.Rules as rule;
ghost use Rattle.ql_syntax.specs.Rules.{◌then◌};
ghost use Rattle.ql_syntax.specs.Trees.{expr_of, exprs_of, option_of, select_of};

use crate::markers::ExprList;
use crate::nested::{parse_expr, parse_select};
use crate::parser::Parser;
use ql_cursor::{Cursor, Fault, list};
use ql_edge::Boxed;
use ql_lex::Word;
use ql_syntax::{Expr, Exprs, Select};
use std::alloc::Global;

/// An expression, on the heap.
pub fn parse_boxed_expr(
    alloc: Global,
    room: usize,
    cursor: &mut Cursor<'_>,
) -> Result<Boxed<Expr>, Fault>
    ensures { Answers room (rule.the rule.expr) expr_of cursor.old result cursor.new }
{
    let part = parse_expr(alloc, room, cursor)?;
    Ok(Boxed::new(alloc, part)?)
}

/// A SELECT, on the heap.
pub fn parse_boxed_select(
    alloc: Global,
    room: usize,
    cursor: &mut Cursor<'_>,
) -> Result<Boxed<Select>, Fault>
    ensures { Answers room (rule.the rule.select) select_of cursor.old result cursor.new }
{
    let query = parse_select(alloc, room, cursor)?;
    Ok(Boxed::new(alloc, query)?)
}

/// Expressions with commas between them.
pub fn parse_exprs(alloc: Global, room: usize, cursor: &mut Cursor<'_>) -> Result<Exprs, Fault>
    ensures { Answers room (rule.list (rule.the rule.expr)) exprs_of cursor.old result cursor.new }
{
    list::<ExprList, _>(alloc, room, cursor, |room, cursor| {
        parse_expr(alloc, room, cursor)
    })
}

/// A keyword and the expression behind it, or none of both.
pub fn parse_clause(
    alloc: Global,
    room: usize,
    cursor: &mut Cursor<'_>,
    word: Word,
) -> Result<Option<Boxed<Expr>>, Fault>
    ensures { Answers room (rule.maybe (rule.word word then rule.the rule.expr))
        option_of cursor.old result cursor.new }
{
    let parser = Parser {
        alloc,
        room,
        expr: parse_expr,
        select: parse_select,
    };
    parser.clause(cursor, word)
}
