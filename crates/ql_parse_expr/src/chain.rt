//! Expressions by the levels of their operators.

ghost use Rattle.std.specs.Prelude.{◌≡◌, IfOk};
ghost use Rattle.ql_parse_expr.specs.Levels.{chain_of, chain_rule, links, part_of};
ghost use Rattle.ql_syntax.specs.Lexemes.{is_prefix};
ghost use Rattle.ql_syntax.specs.Rules as rule;
ghost use Rattle.ql_cursor.specs.Parts.{ReadsPart};
ghost use Rattle.ql_parse_expr.specs.Nests.{Nests};
ghost use Rattle.ql_cursor.specs.Parses.{Answers, AnswersAnywhere};
ghost use Rattle.ql_syntax.specs.Trees.{chain, signed, expr_of, links_of, ops_of};

use crate::level::{Level, next_op, next_prefix};
use crate::parser::Parser;
use ql_cursor::{Cursor, Fault};
use ql_edge::{Boxed, NoMemory};
use ql_syntax::{Expr, Link, Links, Select};
use ql_value::UnOps;
use std::alloc::Global;

/// A part with links behind it. One with none is that part.
fn make_chain(alloc: Global, first: Expr, rest: Links) -> Result<Expr, NoMemory>
    ensures { IfOk result (λ e. e ≡ chain first rest) }
{
    if rest.is_empty() {
        return Ok(first);
    }
    let first = Boxed::new(alloc, first)?;
    let rest = Boxed::new(alloc, rest)?;
    Ok(Expr::Chain { first, rest })
}

/// A part with operators before it. One with none is that part.
fn make_unary(alloc: Global, ops: UnOps, part: Expr) -> Result<Expr, NoMemory>
    ensures { IfOk result (λ e. e ≡ signed ops part) }
{
    if ops.is_empty() {
        return Ok(part);
    }
    let ops = Boxed::new(alloc, ops)?;
    let part = Boxed::new(alloc, part)?;
    Ok(Expr::Unary { ops, part })
}

/// The operators before a part.
fn prefixes(alloc: Global, cursor: &mut Cursor<'_>) -> Result<UnOps, Fault>
    ensures { AnswersAnywhere (rule.many (rule.token is_prefix)) ops_of
        cursor.old result cursor.new }
{
    let mut ops = UnOps::new(alloc);
    'ops: while let Some(op) = next_prefix(cursor) {
        ops.push(op)?;
        cursor.skip();
    }
    ops.shrink_to_fit();
    Ok(ops)
}

impl<
    E: Fn(Global, usize, &mut Cursor<'_>) -> Result<Expr, Fault>,
    S: Fn(Global, usize, &mut Cursor<'_>) -> Result<Select, Fault>,
> Parser<E, S> {
    /// The operators of a level and the parts behind them.
    fn links<P: Fn(&mut Cursor<'_>) -> Result<Expr, Fault>>(
        &self,
        level: Level,
        cursor: &mut Cursor<'_>,
        part: P,
    ) -> Result<Links, Fault>
        requires { ReadsPart self.now.room (rule.the (part_of level)) expr_of
            (P.pre part) (P.post part) }
        ensures { Answers self.now.room (links level) links_of cursor.old result cursor.new }
    {
        let mut links = Links::new(self.alloc);
        'links: while let Some(op) = next_op(level, cursor) {
            cursor.skip();
            let part = part(cursor)?;
            links.push(Link { op, part })?;
        }
        links.shrink_to_fit();
        Ok(links)
    }

    /// Parts of a level, and the operators between them.
    fn chain<P: Fn(&mut Cursor<'_>) -> Result<Expr, Fault>>(
        &self,
        level: Level,
        cursor: &mut Cursor<'_>,
        part: P,
    ) -> Result<Expr, Fault>
        requires { ReadsPart self.now.room (rule.the (part_of level)) expr_of
            (P.pre part) (P.post part) }
        ensures { Answers self.now.room (chain_rule level) chain_of cursor.old result cursor.new }
    {
        let first = part(cursor)?;
        let rest = self.links(level, cursor, part)?;
        Ok(make_chain(self.alloc, first, rest)?)
    }

    /// An expression.
    pub fn expression(&self, cursor: &mut Cursor<'_>) -> Result<Expr, Fault>
        requires { Nests self.now.room
            (E.pre self.now.expr) (E.post self.now.expr)
            (S.pre self.now.select) (S.post self.now.select) }
        ensures { Answers self.now.room (rule.the rule.expr) expr_of cursor.old result cursor.new }
    {
        self.chain(Level::Either, cursor, |cursor| self.term(cursor))
    }

    /// An expression, on the heap.
    pub fn boxed_expression(&self, cursor: &mut Cursor<'_>) -> Result<Boxed<Expr>, Fault>
        requires { Nests self.now.room
            (E.pre self.now.expr) (E.post self.now.expr)
            (S.pre self.now.select) (S.post self.now.select) }
        ensures { Answers self.now.room (rule.the rule.expr) expr_of cursor.old result cursor.new }
    {
        let part = self.expression(cursor)?;
        Ok(Boxed::new(self.alloc, part)?)
    }

    fn term(&self, cursor: &mut Cursor<'_>) -> Result<Expr, Fault>
        requires { Nests self.now.room
            (E.pre self.now.expr) (E.post self.now.expr)
            (S.pre self.now.select) (S.post self.now.select) }
        ensures { Answers self.now.room (rule.the rule.term) expr_of cursor.old result cursor.new }
    {
        self.chain(Level::Both, cursor, |cursor| self.factor(cursor))
    }

    fn factor(&self, cursor: &mut Cursor<'_>) -> Result<Expr, Fault>
        requires { Nests self.now.room
            (E.pre self.now.expr) (E.post self.now.expr)
            (S.pre self.now.select) (S.post self.now.select) }
        ensures { Answers self.now.room (rule.the rule.factor) expr_of
            cursor.old result cursor.new }
    {
        let part = self.chain(Level::Comparison, cursor, |cursor| self.sum(cursor))?;
        Ok(self.maybe_predicate(cursor, part)?)
    }

    /// A sum, the part of comparisons.
    fn sum(&self, cursor: &mut Cursor<'_>) -> Result<Expr, Fault>
        requires { Nests self.now.room
            (E.pre self.now.expr) (E.post self.now.expr)
            (S.pre self.now.select) (S.post self.now.select) }
        ensures { Answers self.now.room (rule.the rule.sum) expr_of cursor.old result cursor.new }
    {
        self.chain(Level::Sum, cursor, |cursor| self.product(cursor))
    }

    /// A sum, on the heap.
    pub fn boxed_sum(&self, cursor: &mut Cursor<'_>) -> Result<Boxed<Expr>, Fault>
        requires { Nests self.now.room
            (E.pre self.now.expr) (E.post self.now.expr)
            (S.pre self.now.select) (S.post self.now.select) }
        ensures { Answers self.now.room (rule.the rule.sum) expr_of cursor.old result cursor.new }
    {
        let part = self.sum(cursor)?;
        Ok(Boxed::new(self.alloc, part)?)
    }

    fn product(&self, cursor: &mut Cursor<'_>) -> Result<Expr, Fault>
        requires { Nests self.now.room
            (E.pre self.now.expr) (E.post self.now.expr)
            (S.pre self.now.select) (S.post self.now.select) }
        ensures { Answers self.now.room (rule.the rule.product) expr_of
            cursor.old result cursor.new }
    {
        self.chain(Level::Product, cursor, |cursor| self.unary(cursor))
    }

    fn unary(&self, cursor: &mut Cursor<'_>) -> Result<Expr, Fault>
        requires { Nests self.now.room
            (E.pre self.now.expr) (E.post self.now.expr)
            (S.pre self.now.select) (S.post self.now.select) }
        ensures { Answers self.now.room (rule.the rule.unary) expr_of cursor.old result cursor.new }
    {
        let ops = prefixes(self.alloc, cursor)?;
        let part = self.primary(cursor)?;
        Ok(make_unary(self.alloc, ops, part)?)
    }
}
