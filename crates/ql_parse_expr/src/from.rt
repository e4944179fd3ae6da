//! The fields of a SELECT, and what stands behind FROM.

ghost use Rattle.ql_parse_expr.specs.Nests.{Nests};
ghost use Rattle.ql_cursor.specs.Parses.{Answers, AnswersAnywhere};
ghost use Rattle.ql_syntax.specs.Rules as rule;
ghost use Rattle.ql_parse_expr.specs.Selects as spec;
ghost use Rattle.ql_syntax.specs.Trees.{alias_of, field_of, fields_of, set_of, side_of, source_of};

use crate::begins::begins_join;
use crate::markers::{FieldList, SetList, Subselect};
use crate::parser::Parser;
use ql_cursor::{
    Cursor, Fault, begins_expr, eat_word, expect_boxed_name, expect_word, in_brackets, list,
    sees_mark, sees_name, sees_word, unexpected,
};
use ql_edge::{Boxed, Name};
use ql_lex::{Mark, Word};
use ql_syntax::{Expr, Field, Fields, FromSet, FromSets, Join, Select, SetSource, Side};
use std::alloc::Global;

/// What stands behind FROM.
#[derive(Drop)]
pub struct Sources {
    pub sets: FromSets,
    pub join: Option<Boxed<Join>>,
}

/// The name behind AS, or nothing.
fn alias(alloc: Global, cursor: &mut Cursor<'_>) -> Result<Option<Boxed<Name>>, Fault>
    ensures { AnswersAnywhere spec.alias_rule alias_of cursor.old result cursor.new }
{
    if !sees_word(cursor, Word::As) {
        return Ok(None);
    }
    expect_word(cursor, Word::As)?;
    let name = expect_boxed_name(alloc, cursor)?;
    Ok(Some(name))
}

/// The side of a join.
fn side(cursor: &mut Cursor<'_>) -> Result<Side, Fault>
    ensures { AnswersAnywhere spec.side_rule side_of cursor.old result cursor.new }
{
    if sees_word(cursor, Word::Left) {
        cursor.skip();
        return Ok(Side::Left);
    }
    if sees_word(cursor, Word::Right) {
        cursor.skip();
        return Ok(Side::Right);
    }
    if sees_word(cursor, Word::Full) {
        cursor.skip();
        return Ok(Side::Full);
    }
    Err(unexpected(cursor))
}

impl<
    E: Fn(Global, usize, &mut Cursor<'_>) -> Result<Expr, Fault>,
    S: Fn(Global, usize, &mut Cursor<'_>) -> Result<Select, Fault>,
> Parser<E, S> {
    fn field(&self, cursor: &mut Cursor<'_>) -> Result<Field, Fault>
        requires { Nests self.now.room
            (E.pre self.now.expr) (E.post self.now.expr)
            (S.pre self.now.select) (S.post self.now.select) }
        ensures { Answers self.now.room spec.field_rule field_of cursor.old result cursor.new }
    {
        let expr = self.expression(cursor)?;
        let alias = alias(self.alloc, cursor)?;
        Ok(Field { expr, alias })
    }

    /// The fields of a SELECT, none of them for `*`.
    pub fn fields(&self, cursor: &mut Cursor<'_>) -> Result<Fields, Fault>
        requires { Nests self.now.room
            (E.pre self.now.expr) (E.post self.now.expr)
            (S.pre self.now.select) (S.post self.now.select) }
        ensures { Answers self.now.room spec.fields_rule fields_of cursor.old result cursor.new }
    {
        if sees_mark(cursor, Mark::Star) {
            cursor.skip();
            return Ok(Fields::new(self.alloc));
        }
        if !begins_expr(cursor) {
            return Err(unexpected(cursor));
        }
        Ok(list::<FieldList, _>(self.alloc, self.room, cursor, |_, cursor| {
            self.field(cursor)
        })?)
    }

    /// What a record set is made of.
    fn source(&self, cursor: &mut Cursor<'_>) -> Result<SetSource, Fault>
        requires { Nests self.now.room
            (E.pre self.now.expr) (E.post self.now.expr)
            (S.pre self.now.select) (S.post self.now.select) }
        ensures { Answers self.now.room spec.source_rule source_of cursor.old result cursor.new }
    {
        if sees_name(cursor) {
            return Ok(SetSource::Table(expect_boxed_name(self.alloc, cursor)?));
        }
        if !sees_mark(cursor, Mark::Open) {
            return Err(unexpected(cursor));
        }
        let query = in_brackets::<Subselect, _>(self.room, cursor, |room, cursor| {
            self.subselect(room, cursor)
        })?;
        Ok(SetSource::Query(Boxed::new(self.alloc, query)?))
    }

    fn set(&self, cursor: &mut Cursor<'_>) -> Result<FromSet, Fault>
        requires { Nests self.now.room
            (E.pre self.now.expr) (E.post self.now.expr)
            (S.pre self.now.select) (S.post self.now.select) }
        ensures { Answers self.now.room (rule.the rule.set) set_of cursor.old result cursor.new }
    {
        let source = self.source(cursor)?;
        let alias = alias(self.alloc, cursor)?;
        Ok(FromSet { source, alias })
    }

    fn join(&self, cursor: &mut Cursor<'_>) -> Result<Boxed<Join>, Fault>
        requires { Nests self.now.room
            (E.pre self.now.expr) (E.post self.now.expr)
            (S.pre self.now.select) (S.post self.now.select) }
        ensures { Answers self.now.room rule.join spec.one_join_of cursor.old result cursor.new }
    {
        let side = side(cursor)?;
        eat_word(cursor, Word::Outer);
        expect_word(cursor, Word::Join)?;
        let set = self.set(cursor)?;
        expect_word(cursor, Word::On)?;
        let on = self.expression(cursor)?;
        Ok(Boxed::new(self.alloc, Join { side, set, on })?)
    }

    /// A join, or nothing.
    fn maybe_join(&self, cursor: &mut Cursor<'_>) -> Result<Option<Boxed<Join>>, Fault>
        requires { Nests self.now.room
            (E.pre self.now.expr) (E.post self.now.expr)
            (S.pre self.now.select) (S.post self.now.select) }
        ensures { Answers self.now.room (rule.maybe rule.join) spec.maybe_join_of
            cursor.old result cursor.new }
    {
        if !begins_join(cursor) {
            return Ok(None);
        }
        Ok(Some(self.join(cursor)?))
    }

    /// FROM, its record sets and the join behind them, or nothing.
    pub fn from(&self, cursor: &mut Cursor<'_>) -> Result<Sources, Fault>
        requires { Nests self.now.room
            (E.pre self.now.expr) (E.post self.now.expr)
            (S.pre self.now.select) (S.post self.now.select) }
        ensures { Answers self.now.room spec.from_rule spec.from_of cursor.old result cursor.new }
    {
        if !sees_word(cursor, Word::From) {
            return Ok(Sources {
                sets: FromSets::new(self.alloc),
                join: None,
            });
        }
        expect_word(cursor, Word::From)?;
        let sets = list::<SetList, _>(self.alloc, self.room, cursor, |_, cursor| {
            self.set(cursor)
        })?;
        let join = self.maybe_join(cursor)?;
        Ok(Sources { sets, join })
    }
}
