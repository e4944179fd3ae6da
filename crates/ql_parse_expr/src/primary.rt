//! The parts between operators: literals, columns, calls, conversions and brackets.

ghost use Rattle.std.specs.Prelude.{◌≡◌, ◌<◌, Some};
ghost use Rattle.ql_lex.specs.declared.words.Word.{Word};
ghost use Rattle.ql_lex.specs.declared.token.TokenKind.TheVariants as kind;
ghost use Rattle.ql_lex.specs.declared.marks.Mark.TheVariants as m;
ghost use Rattle.ql_parse_expr.specs.Enclosed.{count_parts, parts, count_parts_of, count_call_of, call_of};
ghost use Rattle.ql_syntax.specs.Lexemes.{kind_at, is_count, is_function, is_open};
ghost use Rattle.ql_parse_expr.specs.Nests.{Nests};
ghost use Rattle.ql_cursor.specs.Parses.{Answers, AnswersAnywhere, AnswersEnclosed};
ghost use Rattle.ql_syntax.specs.Rules as rule;
ghost use Rattle.ql_syntax.specs.Rules.{◌then◌, ◌or◌};
ghost use Rattle.ql_syntax.specs.Trees.{expr_of, exprs_of};

use crate::functions::{function_of, is_count};
use crate::markers::{CountParts, ExprList, InnerExpr, Parts};
use crate::parser::Parser;
use ql_cursor::{
    Cursor, Fault, begins_expr, eat_mark, expect_boxed_name, in_brackets, list, next_kind,
    sees_mark, sees_open_behind, sees_word, unexpected,
};
use ql_edge::Boxed;
use ql_lex::{Mark, TokenKind, Word};
use ql_syntax::{Expr, Exprs, Function, Select};
use std::alloc::Global;

/// A column, with or without its table.
pub fn column(alloc: Global, cursor: &mut Cursor<'_>) -> Result<Expr, Fault>
    ensures { AnswersAnywhere (rule.the rule.ref) expr_of cursor.old result cursor.new }
{
    let first = expect_boxed_name(alloc, cursor)?;
    if !eat_mark(cursor, Mark::Dot) {
        return Ok(Expr::Column {
            table: None,
            column: first,
        });
    }
    let column = expect_boxed_name(alloc, cursor)?;
    Ok(Expr::Column {
        table: Some(first),
        column,
    })
}

impl<
    E: Fn(Global, usize, &mut Cursor<'_>) -> Result<Expr, Fault>,
    S: Fn(Global, usize, &mut Cursor<'_>) -> Result<Select, Fault>,
> Parser<E, S> {
    /// An expression inside a bracket, where the room is smaller.
    fn inner_expr(&self, room: usize, cursor: &mut Cursor<'_>) -> Result<Expr, Fault>
        requires nests { Nests self.now.room
            (E.pre self.now.expr) (E.post self.now.expr)
            (S.pre self.now.select) (S.post self.now.select) }
        requires within { room < self.now.room }
        ensures { Answers room (rule.the rule.expr) expr_of cursor.old result cursor.new }
    {
        (self.expr)(self.alloc, room, cursor)
    }

    /// Expressions inside a bracket, where the room is smaller.
    pub fn exprs(&self, room: usize, cursor: &mut Cursor<'_>) -> Result<Exprs, Fault>
        requires nests { Nests self.now.room
            (E.pre self.now.expr) (E.post self.now.expr)
            (S.pre self.now.select) (S.post self.now.select) }
        requires within { room < self.now.room }
        ensures { Answers room (rule.list (rule.the rule.expr)) exprs_of
            cursor.old result cursor.new }
    {
        list::<ExprList, _>(
            self.alloc,
            room,
            cursor,
            |room, cursor| self.inner_expr(room, cursor),
        )
    }

    /// The parts of a call inside its brackets, or none.
    fn parts(&self, room: usize, cursor: &mut Cursor<'_>) -> Result<Exprs, Fault>
        requires nests { Nests self.now.room
            (E.pre self.now.expr) (E.post self.now.expr)
            (S.pre self.now.select) (S.post self.now.select) }
        requires within { room < self.now.room }
        ensures { Answers room (rule.maybe (rule.list (rule.the rule.expr))) exprs_of
            cursor.old result cursor.new }
    {
        if begins_expr(cursor) {
            Ok(self.exprs(room, cursor)?)
        } else {
            Ok(Exprs::new(self.alloc))
        }
    }

    /// What stands in the brackets of a call of count: whether it is `*`, and the parts.
    fn count_parts(&self, room: usize, cursor: &mut Cursor<'_>) -> Result<(bool, Exprs), Fault>
        requires nests { Nests self.now.room
            (E.pre self.now.expr) (E.post self.now.expr)
            (S.pre self.now.select) (S.post self.now.select) }
        requires within { room < self.now.room }
        ensures { Answers room (rule.maybe (rule.mark m.Star or rule.list (rule.the rule.expr)))
            count_parts_of cursor.old result cursor.new }
    {
        if eat_mark(cursor, Mark::Star) {
            return Ok((true, Exprs::new(self.alloc)));
        }
        let parts = self.parts(room, cursor)?;
        Ok((false, parts))
    }

    /// A name at the next token: a call, where it is that of a function directly before `(`, else
    /// a column.
    fn column_or_call(&self, cursor: &mut Cursor<'_>) -> Result<Expr, Fault>
        requires nests { Nests self.now.room
            (E.pre self.now.expr) (E.post self.now.expr)
            (S.pre self.now.select) (S.post self.now.select) }
        requires name { kind_at cursor.old ≡ Some kind.Name }
        ensures { Answers self.now.room (rule.the rule.primary) expr_of
            cursor.old result cursor.new }
    {
        if !sees_open_behind(cursor) {
            return Ok(column(self.alloc, cursor)?);
        }
        let Some(function) = function_of(cursor.text()) else {
            return Ok(column(self.alloc, cursor)?);
        };
        cursor.skip();
        if is_count(function) {
            Ok(self.count_call(cursor)?)
        } else {
            Ok(self.call(function, cursor)?)
        }
    }

    /// The brackets of a call of count.
    fn count_call(&self, cursor: &mut Cursor<'_>) -> Result<Expr, Fault>
        requires { Nests self.now.room
            (E.pre self.now.expr) (E.post self.now.expr)
            (S.pre self.now.select) (S.post self.now.select) }
        ensures { AnswersEnclosed self.now.room count_parts.rule count_call_of
            cursor.old result cursor.new }
    {
        let (star, parts) = in_brackets::<CountParts, _>(self.room, cursor, |room, cursor| {
            self.count_parts(room, cursor)
        })?;
        Ok(Expr::Call {
            function: Function::Count,
            star,
            parts,
        })
    }

    /// The brackets of a call of another function.
    fn call(&self, function: Function, cursor: &mut Cursor<'_>) -> Result<Expr, Fault>
        requires { Nests self.now.room
            (E.pre self.now.expr) (E.post self.now.expr)
            (S.pre self.now.select) (S.post self.now.select) }
        ensures { AnswersEnclosed self.now.room parts.rule (call_of function)
            cursor.old result cursor.new }
    {
        let parts = in_brackets::<Parts, _>(self.room, cursor, |room, cursor| {
            self.parts(room, cursor)
        })?;
        Ok(Expr::Call {
            function,
            star: false,
            parts,
        })
    }

    /// A keyword at the next token: a literal or a conversion.
    fn literal_or_conversion(&self, cursor: &mut Cursor<'_>) -> Result<Expr, Fault>
        requires nests { Nests self.now.room
            (E.pre self.now.expr) (E.post self.now.expr)
            (S.pre self.now.select) (S.post self.now.select) }
        requires word { (a : Word) × (kind_at cursor.old ≡ Some (kind.Word a)) }
        ensures { Answers self.now.room (rule.the rule.primary) expr_of
            cursor.old result cursor.new }
    {
        if sees_word(cursor, Word::True) {
            cursor.skip();
            return Ok(Expr::Truth(true));
        }
        if sees_word(cursor, Word::False) {
            cursor.skip();
            return Ok(Expr::Truth(false));
        }
        if sees_word(cursor, Word::Null) {
            cursor.skip();
            return Ok(Expr::Null);
        }
        let Some(kind) = next_kind(cursor) else {
            return Err(unexpected(cursor));
        };
        cursor.skip();
        let part = self.inner(cursor)?;
        Ok(Expr::Convert { kind, part })
    }

    /// An expression in brackets.
    fn inner(&self, cursor: &mut Cursor<'_>) -> Result<Boxed<Expr>, Fault>
        requires { Nests self.now.room
            (E.pre self.now.expr) (E.post self.now.expr)
            (S.pre self.now.select) (S.post self.now.select) }
        ensures { AnswersEnclosed self.now.room (rule.the rule.expr) expr_of
            cursor.old result cursor.new }
    {
        let part = in_brackets::<InnerExpr, _>(self.room, cursor, |room, cursor| {
            self.inner_expr(room, cursor)
        })?;
        Ok(Boxed::new(self.alloc, part)?)
    }

    /// A part between operators: a literal, a column, a call, a conversion or brackets.
    pub fn primary(&self, cursor: &mut Cursor<'_>) -> Result<Expr, Fault>
        requires { Nests self.now.room
            (E.pre self.now.expr) (E.post self.now.expr)
            (S.pre self.now.select) (S.post self.now.select) }
        ensures { Answers self.now.room (rule.the rule.primary) expr_of
            cursor.old result cursor.new }
    {
        let Some(kind) = cursor.kind() else {
            return Err(unexpected(cursor));
        };
        match kind {
            TokenKind::Number => {
                let number = cursor.number();
                cursor.skip();
                Ok(Expr::Number(number))
            }
            TokenKind::Text => {
                let text = cursor.string(self.alloc)?;
                cursor.skip();
                Ok(Expr::Text(text))
            }
            TokenKind::Name => self.column_or_call(cursor),
            TokenKind::Word(_) => self.literal_or_conversion(cursor),
            TokenKind::Mark(_) => {
                if !sees_mark(cursor, Mark::Open) {
                    return Err(unexpected(cursor));
                }
                Ok(Expr::Paren(self.inner(cursor)?))
            }
        }
    }
}
