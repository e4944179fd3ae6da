//! The columns of a CREATE TABLE or ADD.

ghost use Rattle.ql_syntax.specs.Lexemes.{is_kind};
ghost use Rattle.ql_cursor.specs.Parses.{Answers, AnswersAnywhere};
ghost use Rattle.ql_syntax.specs.Rules as rule;
ghost use Rattle.ql_parse.specs.StatementLists as spec;
ghost use Rattle.ql_parse.specs.StatementParts.{constraint_rule, constraint_of};
ghost use Rattle.ql_syntax.specs.Statements.{kind_of, column_of, columns_of};

use ql_cursor::{
    Cursor, Fault, Listed, begins_expr, expect_name, expect_word, list, next_kind, sees_name,
    sees_word, unexpected,
};
use ql_edge::Boxed;
use ql_lex::Word;
use ql_parse_expr::{parse_boxed_expr, parse_clause};
use ql_syntax::{ColumnDef, ColumnDefs, Expr};
use ql_value::Kind;
use std::alloc::Global;

/// The columns of a table.
pub struct ColumnList;

impl Listed for ColumnList {
    type Member = ColumnDef;

    ghost of = { spec.column_list };

    fn begins(cursor: &Cursor<'_>) -> bool {
        sees_name(cursor)
    }
}

/// A kind of values.
fn expect_kind(cursor: &mut Cursor<'_>) -> Result<Kind, Fault>
    ensures { AnswersAnywhere (rule.token is_kind) kind_of cursor.old result cursor.new }
{
    let Some(kind) = next_kind(cursor) else {
        return Err(unexpected(cursor));
    };
    cursor.skip();
    Ok(kind)
}

/// NOT NULL or a rule in its place: whether it is NOT NULL, and the rule.
fn constraint(
    alloc: Global,
    room: usize,
    cursor: &mut Cursor<'_>,
) -> Result<(bool, Option<Boxed<Expr>>), Fault>
    ensures { Answers room constraint_rule constraint_of cursor.old result cursor.new }
{
    if sees_word(cursor, Word::Not) {
        cursor.skip();
        expect_word(cursor, Word::Null)?;
        return Ok((true, None));
    }
    if begins_expr(cursor) {
        let rule = parse_boxed_expr(alloc, room, cursor)?;
        return Ok((false, Some(rule)));
    }
    Ok((false, None))
}

/// A column of a table.
pub fn column_def(alloc: Global, room: usize, cursor: &mut Cursor<'_>) -> Result<ColumnDef, Fault>
    ensures { Answers room (rule.the rule.column) column_of
        cursor.old result cursor.new }
{
    let name = expect_name(alloc, cursor)?;
    let kind = expect_kind(cursor)?;
    let (not_null, rule) = constraint(alloc, room, cursor)?;
    let default = parse_clause(alloc, room, cursor, Word::Default)?;
    Ok(ColumnDef {
        name,
        kind,
        not_null,
        rule,
        default,
    })
}

/// The columns of a table, inside their brackets.
pub fn column_defs(alloc: Global, room: usize, cursor: &mut Cursor<'_>) -> Result<ColumnDefs, Fault>
    ensures { Answers room (rule.list (rule.the rule.column)) columns_of
        cursor.old result cursor.new }
{
    list::<ColumnList, _>(alloc, room, cursor, |room, cursor| {
        column_def(alloc, room, cursor)
    })
}
