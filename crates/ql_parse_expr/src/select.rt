//! SELECT.

ghost use Rattle.std.specs.Prelude.{ℕ};
ghost use Rattle.ql_parse_expr.specs.Nests.{Nests};
ghost use Rattle.ql_cursor.specs.Parses.{Answers, Gives};
ghost use Rattle.ql_syntax.specs.Rules as rule;
ghost use Rattle.ql_parse_expr.specs.Selects as spec;
ghost use Rattle.ql_syntax.specs.Trees.{behind_by, select_of};

use crate::markers::{ExprList, RefList};
use crate::parser::Parser;
use crate::primary::column;
use ql_cursor::{Cursor, Fault, eat_word, expect_word, list, sees_word};
use ql_edge::Boxed;
use ql_lex::Word;
use ql_syntax::{Expr, Exprs, Select};
use std::alloc::Global;

/// ORDER BY and its direction, and behind them LIMIT and OFFSET.
type Ending = ((Exprs, bool), (Option<Boxed<Expr>>, Option<Boxed<Expr>>));

/// What stands behind FROM and its record sets.
#[derive(Drop)]
pub struct Tail {
    pub filter: Option<Boxed<Expr>>,
    pub groups: Exprs,
    pub ending: Ending,
}

/// ASC, DESC or nothing: whether it is DESC.
fn direction(cursor: &mut Cursor<'_>) -> bool
    ensures { (n : ℕ) → Gives n spec.direction_rule spec.direction_of cursor.old result cursor.new }
{
    if sees_word(cursor, Word::Asc) {
        cursor.skip();
        return false;
    }
    if sees_word(cursor, Word::Desc) {
        cursor.skip();
        return true;
    }
    false
}

/// GROUP BY and its columns, or nothing.
fn groups(alloc: Global, room: usize, cursor: &mut Cursor<'_>) -> Result<Exprs, Fault>
    ensures { Answers room spec.group_rule behind_by cursor.old result cursor.new }
{
    if !sees_word(cursor, Word::Group) {
        return Ok(Exprs::new(alloc));
    }
    expect_word(cursor, Word::Group)?;
    expect_word(cursor, Word::By)?;
    Ok(list::<RefList, _>(alloc, room, cursor, |_, cursor| { column(alloc, cursor) })?)
}

impl<
    E: Fn(Global, usize, &mut Cursor<'_>) -> Result<Expr, Fault>,
    S: Fn(Global, usize, &mut Cursor<'_>) -> Result<Select, Fault>,
> Parser<E, S> {
    /// ORDER BY, its expressions and its direction, or nothing.
    fn order(&self, cursor: &mut Cursor<'_>) -> Result<(Exprs, bool), Fault>
        requires { Nests self.now.room
            (E.pre self.now.expr) (E.post self.now.expr)
            (S.pre self.now.select) (S.post self.now.select) }
        ensures { Answers self.now.room spec.order_rule spec.order_of cursor.old result cursor.new }
    {
        if !sees_word(cursor, Word::Order) {
            return Ok((Exprs::new(self.alloc), false));
        }
        expect_word(cursor, Word::Order)?;
        expect_word(cursor, Word::By)?;
        let keys = list::<ExprList, _>(self.alloc, self.room, cursor, |_, cursor| {
            self.expression(cursor)
        })?;
        let descending = direction(cursor);
        Ok((keys, descending))
    }

    /// LIMIT and OFFSET.
    fn limits(
        &self,
        cursor: &mut Cursor<'_>,
    ) -> Result<(Option<Boxed<Expr>>, Option<Boxed<Expr>>), Fault>
        requires { Nests self.now.room
            (E.pre self.now.expr) (E.post self.now.expr)
            (S.pre self.now.select) (S.post self.now.select) }
        ensures { Answers self.now.room spec.limits_rule spec.limits_of
            cursor.old result cursor.new }
    {
        let limit = self.clause(cursor, Word::Limit)?;
        let offset = self.clause(cursor, Word::Offset)?;
        Ok((limit, offset))
    }

    /// What stands behind WHERE and GROUP BY.
    fn ending(&self, cursor: &mut Cursor<'_>) -> Result<Ending, Fault>
        requires { Nests self.now.room
            (E.pre self.now.expr) (E.post self.now.expr)
            (S.pre self.now.select) (S.post self.now.select) }
        ensures { Answers self.now.room spec.ending_rule spec.ending_of
            cursor.old result cursor.new }
    {
        let order = self.order(cursor)?;
        let limits = self.limits(cursor)?;
        Ok((order, limits))
    }

    /// WHERE, and what stands behind it.
    fn tail(&self, cursor: &mut Cursor<'_>) -> Result<Tail, Fault>
        requires { Nests self.now.room
            (E.pre self.now.expr) (E.post self.now.expr)
            (S.pre self.now.select) (S.post self.now.select) }
        ensures { Answers self.now.room spec.tail_rule spec.tail_of cursor.old result cursor.new }
    {
        let filter = self.clause(cursor, Word::Where)?;
        let groups = groups(self.alloc, self.room, cursor)?;
        let ending = self.ending(cursor)?;
        Ok(Tail {
            filter,
            groups,
            ending,
        })
    }

    /// A SELECT.
    pub fn query(&self, cursor: &mut Cursor<'_>) -> Result<Select, Fault>
        requires { Nests self.now.room
            (E.pre self.now.expr) (E.post self.now.expr)
            (S.pre self.now.select) (S.post self.now.select) }
        ensures { Answers self.now.room (rule.the rule.select) select_of
            cursor.old result cursor.new }
    {
        expect_word(cursor, Word::Select)?;
        let distinct = eat_word(cursor, Word::Distinct);
        let fields = self.fields(cursor)?;
        let sources = self.from(cursor)?;
        let tail = self.tail(cursor)?;
        let ((keys, descending), (limit, offset)) = tail.ending;
        Ok(Select {
            distinct,
            fields,
            sets: sources.sets,
            join: sources.join,
            filter: tail.filter,
            groups: tail.groups,
            keys,
            descending,
            limit,
            offset,
        })
    }
}
