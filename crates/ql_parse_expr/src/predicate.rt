//! IS NULL, IN and BETWEEN.

ghost use Rattle.std.specs.Prelude.{◌≡◌, ◌<◌, ℕ};
ghost use Rattle.ql_lex.specs.declared.words.Word.TheVariants as w;
ghost use Rattle.ql_parse_expr.specs.Enclosed.{members, subselect};
ghost use Rattle.ql_parse_expr.specs.Nests.{Nests};
ghost use Rattle.ql_cursor.specs.Parses.{Answers, AnswersAnywhere};
ghost use Rattle.ql_parse_expr.specs.Predicates.{null_rule, null_of, member_rule, member_of, range_rule, range_of, membership_rule, membership_of};
ghost use Rattle.ql_syntax.specs.Rules as rule;
ghost use Rattle.ql_syntax.specs.Rules.{◌then◌, ◌or◌};
ghost use Rattle.ql_syntax.specs.Trees.{select_of, tested_of};

use crate::begins::begins_membership;
use crate::markers::InnerMembers;
use crate::members::Members;
use crate::parser::Parser;
use ql_cursor::{
    Cursor, Fault, begins_expr, eat_mark, eat_word, expect_word, in_brackets, sees_word, unexpected,
};
use ql_edge::Boxed;
use ql_lex::{Mark, Word};
use ql_syntax::{Expr, Select};
use std::alloc::Global;

/// IS NULL or IS NOT NULL.
fn null_test(alloc: Global, cursor: &mut Cursor<'_>, part: Expr) -> Result<Expr, Fault>
    ensures { AnswersAnywhere null_rule (null_of part) cursor.old result cursor.new }
{
    expect_word(cursor, Word::Is)?;
    let not = eat_word(cursor, Word::Not);
    expect_word(cursor, Word::Null)?;
    let part = Boxed::new(alloc, part)?;
    Ok(Expr::IsNull { not, part })
}

impl<
    E: Fn(Global, usize, &mut Cursor<'_>) -> Result<Expr, Fault>,
    S: Fn(Global, usize, &mut Cursor<'_>) -> Result<Select, Fault>,
> Parser<E, S> {
    /// A SELECT inside a bracket, where the room is smaller.
    fn inner_select(&self, room: usize, cursor: &mut Cursor<'_>) -> Result<Select, Fault>
        requires nests { Nests self.now.room
            (E.pre self.now.expr) (E.post self.now.expr)
            (S.pre self.now.select) (S.post self.now.select) }
        requires within { room < self.now.room }
        ensures { Answers room (rule.the rule.select) select_of cursor.old result cursor.new }
    {
        (self.select)(self.alloc, room, cursor)
    }

    /// A SELECT inside a bracket, and a semicolon behind it or none.
    pub fn subselect(&self, room: usize, cursor: &mut Cursor<'_>) -> Result<Select, Fault>
        requires nests { Nests self.now.room
            (E.pre self.now.expr) (E.post self.now.expr)
            (S.pre self.now.select) (S.post self.now.select) }
        requires within { room < self.now.room }
        ensures { Answers room subselect.rule subselect.tree cursor.old result cursor.new }
    {
        let query = self.inner_select(room, cursor)?;
        eat_mark(cursor, Mark::Semicolon);
        Ok(query)
    }

    /// The members of an IN, inside its brackets.
    fn members(&self, room: usize, cursor: &mut Cursor<'_>) -> Result<Members, Fault>
        requires nests { Nests self.now.room
            (E.pre self.now.expr) (E.post self.now.expr)
            (S.pre self.now.select) (S.post self.now.select) }
        requires within { room < self.now.room }
        ensures { Answers room members.rule members.tree cursor.old result cursor.new }
    {
        if begins_expr(cursor) {
            return Ok(Members::Listed(self.exprs(room, cursor)?));
        }
        if sees_word(cursor, Word::Select) {
            return Ok(Members::Query(self.subselect(room, cursor)?));
        }
        Err(unexpected(cursor))
    }

    /// IN and its members.
    fn member(&self, cursor: &mut Cursor<'_>, not: bool, part: Expr) -> Result<Expr, Fault>
        requires { Nests self.now.room
            (E.pre self.now.expr) (E.post self.now.expr)
            (S.pre self.now.select) (S.post self.now.select) }
        ensures { Answers self.now.room member_rule (member_of part not)
            cursor.old result cursor.new }
    {
        expect_word(cursor, Word::In)?;
        let members = in_brackets::<InnerMembers, _>(self.room, cursor, |room, cursor| {
            self.members(room, cursor)
        })?;
        let part = Boxed::new(self.alloc, part)?;
        match members {
            Members::Listed(list) => Ok(Expr::IsIn {
                not,
                part,
                list: Boxed::new(self.alloc, list)?,
            }),
            Members::Query(query) => Ok(Expr::IsInSelect {
                not,
                part,
                query: Boxed::new(self.alloc, query)?,
            }),
        }
    }

    /// BETWEEN and its two bounds.
    fn range(&self, cursor: &mut Cursor<'_>, not: bool, part: Expr) -> Result<Expr, Fault>
        requires { Nests self.now.room
            (E.pre self.now.expr) (E.post self.now.expr)
            (S.pre self.now.select) (S.post self.now.select) }
        ensures { Answers self.now.room range_rule (range_of part not)
            cursor.old result cursor.new }
    {
        expect_word(cursor, Word::Between)?;
        let low = self.boxed_sum(cursor)?;
        expect_word(cursor, Word::And)?;
        let high = self.boxed_sum(cursor)?;
        let part = Boxed::new(self.alloc, part)?;
        Ok(Expr::IsBetween {
            not,
            part,
            low,
            high,
        })
    }

    /// IN or BETWEEN, with NOT before it or without.
    fn membership(&self, cursor: &mut Cursor<'_>, part: Expr) -> Result<Expr, Fault>
        requires { Nests self.now.room
            (E.pre self.now.expr) (E.post self.now.expr)
            (S.pre self.now.select) (S.post self.now.select) }
        ensures { Answers self.now.room membership_rule (membership_of part)
            cursor.old result cursor.new }
    {
        let not = eat_word(cursor, Word::Not);
        if sees_word(cursor, Word::In) {
            return Ok(self.member(cursor, not, part)?);
        }
        if sees_word(cursor, Word::Between) {
            return Ok(self.range(cursor, not, part)?);
        }
        Err(unexpected(cursor))
    }

    /// A part, with the predicate behind it if there is one.
    pub fn maybe_predicate(&self, cursor: &mut Cursor<'_>, part: Expr) -> Result<Expr, Fault>
        requires { Nests self.now.room
            (E.pre self.now.expr) (E.post self.now.expr)
            (S.pre self.now.select) (S.post self.now.select) }
        ensures { Answers self.now.room (rule.maybe (rule.the rule.predicate)) (tested_of part)
            cursor.old result cursor.new }
    {
        if begins_membership(cursor) {
            return Ok(self.membership(cursor, part)?);
        }
        if sees_word(cursor, Word::Is) {
            return Ok(null_test(self.alloc, cursor, part)?);
        }
        Ok(part)
    }
}
