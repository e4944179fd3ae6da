//! UPDATE and DELETE.

ghost use Rattle.ql_cursor.specs.Parses.{Answers};
ghost use Rattle.ql_syntax.specs.Rules as rule;
ghost use Rattle.ql_parse.specs.StatementLists as lists;
ghost use Rattle.ql_parse.specs.StatementParts as spec;
ghost use Rattle.ql_syntax.specs.Statements.{assign_of, update_of, deletion_of};

use ql_cursor::{
    Cursor, Fault, Listed, eat_word, expect_mark, expect_name, expect_word, list, sees_name,
};
use ql_lex::{Mark, Word};
use ql_parse_expr::{parse_clause, parse_expr};
use ql_syntax::{Assign, Statement};
use std::alloc::Global;

/// The assignments of an UPDATE.
pub struct AssignList;

impl Listed for AssignList {
    type Member = Assign;

    ghost of = { lists.assign_list };

    fn begins(cursor: &Cursor<'_>) -> bool {
        sees_name(cursor)
    }
}

/// An assignment of an UPDATE.
fn assign(alloc: Global, room: usize, cursor: &mut Cursor<'_>) -> Result<Assign, Fault>
    ensures { Answers room spec.assign_rule assign_of cursor.old result cursor.new }
{
    let column = expect_name(alloc, cursor)?;
    expect_mark(cursor, Mark::Equal)?;
    let value = parse_expr(alloc, room, cursor)?;
    Ok(Assign { column, value })
}

/// UPDATE.
pub fn update(alloc: Global, room: usize, cursor: &mut Cursor<'_>) -> Result<Statement, Fault>
    ensures { Answers room (rule.the rule.update) update_of
        cursor.old result cursor.new }
{
    expect_word(cursor, Word::Update)?;
    let table = expect_name(alloc, cursor)?;
    eat_word(cursor, Word::Set);
    let sets = list::<AssignList, _>(alloc, room, cursor, |_, cursor| {
        assign(alloc, room, cursor)
    })?;
    let filter = parse_clause(alloc, room, cursor, Word::Where)?;
    Ok(Statement::Update {
        table,
        sets,
        filter,
    })
}

/// DELETE.
pub fn deletion(alloc: Global, room: usize, cursor: &mut Cursor<'_>) -> Result<Statement, Fault>
    ensures { Answers room (rule.the rule.deletion) deletion_of
        cursor.old result cursor.new }
{
    expect_word(cursor, Word::Delete)?;
    expect_word(cursor, Word::From)?;
    let table = expect_name(alloc, cursor)?;
    let filter = parse_clause(alloc, room, cursor, Word::Where)?;
    Ok(Statement::Delete { table, filter })
}
