//! INSERT.

ghost use Rattle.ql_cursor.specs.Parses.{Answers};
ghost use Rattle.ql_syntax.specs.Rules as rule;
ghost use Rattle.ql_parse.specs.StatementLists as lists;
ghost use Rattle.ql_parse.specs.StatementParts as spec;
ghost use Rattle.ql_syntax.specs.Statements.{insertion_of, names_of, row_of, source_of};

use ql_cursor::{
    Cursor, Enclosed, Fault, Listed, expect_name, expect_word, in_brackets, list, sees_mark,
    sees_name, sees_word, unexpected,
};
use ql_edge::{Boxed, Name, Names};
use ql_lex::{Mark, Word};
use ql_parse_expr::{parse_boxed_select, parse_exprs};
use ql_syntax::{Exprs, RowSource, Statement};
use std::alloc::Global;

/// Names.
pub struct NameList;

impl Listed for NameList {
    type Member = Name;

    ghost of = { lists.name_list };

    fn begins(cursor: &Cursor<'_>) -> bool {
        sees_name(cursor)
    }
}

/// The rows of an INSERT.
pub struct RowList;

impl Listed for RowList {
    type Member = Exprs;

    ghost of = { lists.row_list };

    fn begins(cursor: &Cursor<'_>) -> bool {
        sees_mark(cursor, Mark::Open)
    }
}

/// The names of columns.
pub struct ColumnNames;

impl Enclosed for ColumnNames {
    type Part = Names;

    ghost of = { lists.names };
}

/// A row of an INSERT.
pub struct Row;

impl Enclosed for Row {
    type Part = Exprs;

    ghost of = { lists.row };
}

/// Names inside their brackets.
fn names(alloc: Global, room: usize, cursor: &mut Cursor<'_>) -> Result<Names, Fault>
    ensures { Answers room (rule.list rule.name) names_of cursor.old result cursor.new }
{
    list::<NameList, _>(alloc, room, cursor, |_, cursor| expect_name(alloc, cursor))
}

/// The names of columns in brackets, or none.
fn column_names(alloc: Global, room: usize, cursor: &mut Cursor<'_>) -> Result<Names, Fault>
    ensures { Answers room (rule.maybe (rule.bracketed (rule.list rule.name))) names_of
        cursor.old result cursor.new }
{
    if !sees_mark(cursor, Mark::Open) {
        return Ok(Names::new(alloc));
    }
    in_brackets::<ColumnNames, _>(room, cursor, |room, cursor| names(alloc, room, cursor))
}

/// A row of an INSERT.
fn one_row(alloc: Global, room: usize, cursor: &mut Cursor<'_>) -> Result<Exprs, Fault>
    ensures { Answers room spec.row_rule row_of cursor.old result cursor.new }
{
    in_brackets::<Row, _>(
        room,
        cursor,
        |room, cursor| parse_exprs(alloc, room, cursor),
    )
}

/// Where an INSERT takes its rows from.
fn rows(alloc: Global, room: usize, cursor: &mut Cursor<'_>) -> Result<RowSource, Fault>
    ensures { Answers room spec.source_rule source_of cursor.old result cursor.new }
{
    if sees_word(cursor, Word::Values) {
        cursor.skip();
        let rows = list::<RowList, _>(alloc, room, cursor, |_, cursor| {
            one_row(alloc, room, cursor)
        })?;
        return Ok(RowSource::Rows(rows));
    }
    if sees_word(cursor, Word::Select) {
        return Ok(RowSource::Query(parse_boxed_select(alloc, room, cursor)?));
    }
    Err(unexpected(cursor))
}

/// INSERT.
pub fn insertion(alloc: Global, room: usize, cursor: &mut Cursor<'_>) -> Result<Statement, Fault>
    ensures { Answers room (rule.the rule.insertion) insertion_of
        cursor.old result cursor.new }
{
    expect_word(cursor, Word::Insert)?;
    expect_word(cursor, Word::Into)?;
    let table = expect_name(alloc, cursor)?;
    let columns = column_names(alloc, room, cursor)?;
    let source = rows(alloc, room, cursor)?;
    let source = Boxed::new(alloc, source)?;
    Ok(Statement::Insert {
        table,
        columns,
        source,
    })
}
