//! A keyword with an expression behind it.

ghost use Rattle.ql_parse_expr.specs.Nests.{Nests};
ghost use Rattle.ql_cursor.specs.Parses.{Answers};
ghost use Rattle.ql_syntax.specs.Rules as rule;
ghost use Rattle.ql_syntax.specs.Rules.{◌then◌};
ghost use Rattle.ql_syntax.specs.Trees.{option_of};

use crate::parser::Parser;
use ql_cursor::{Cursor, Fault, sees_word};
use ql_edge::Boxed;
use ql_lex::Word;
use ql_syntax::{Expr, Select};
use std::alloc::Global;

impl<
    E: Fn(Global, usize, &mut Cursor<'_>) -> Result<Expr, Fault>,
    S: Fn(Global, usize, &mut Cursor<'_>) -> Result<Select, Fault>,
> Parser<E, S> {
    /// A keyword and the expression behind it, or none of both.
    pub fn clause(&self, cursor: &mut Cursor<'_>, word: Word) -> Result<Option<Boxed<Expr>>, Fault>
        requires { Nests self.now.room
            (E.pre self.now.expr) (E.post self.now.expr)
            (S.pre self.now.select) (S.post self.now.select) }
        ensures { Answers self.now.room (rule.maybe (rule.word word then rule.the rule.expr))
            option_of cursor.old result cursor.new }
    {
        if !sees_word(cursor, word) {
            return Ok(None);
        }
        cursor.skip();
        let part = self.boxed_expression(cursor)?;
        Ok(Some(part))
    }
}
