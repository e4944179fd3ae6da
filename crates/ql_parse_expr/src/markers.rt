//! The lists of expressions and SELECTs, and what stands in brackets there.

ghost use Rattle.std.specs.Prelude.{◌≡◌};
ghost use Rattle.ql_parse_expr.specs.Lists as lists;
ghost use Rattle.ql_parse_expr.specs.Enclosed as enclosed;

use crate::begins::begins_set;
use crate::members::Members;
use ql_cursor::{Cursor, Enclosed, Listed, begins_expr, sees_name};
use ql_syntax::{Expr, Exprs, Field, FromSet, Select};

/// Expressions.
pub struct ExprList;

impl Listed for ExprList {
    type Member = Expr;

    ghost of = { lists.expr_list };

    fn begins(cursor: &Cursor<'_>) -> bool {
        begins_expr(cursor)
    }
}

/// The fields of a SELECT.
pub struct FieldList;

impl Listed for FieldList {
    type Member = Field;

    ghost of = { lists.field_list };

    fn begins(cursor: &Cursor<'_>) -> bool {
        begins_expr(cursor)
    }
}

/// The record sets behind FROM.
pub struct SetList;

impl Listed for SetList {
    type Member = FromSet;

    ghost of = { lists.set_list };

    fn begins(cursor: &Cursor<'_>) -> bool {
        begins_set(cursor)
    }
}

/// The columns behind GROUP BY.
pub struct RefList;

impl Listed for RefList {
    type Member = Expr;

    ghost of = { lists.ref_list };

    fn begins(cursor: &Cursor<'_>) -> bool {
        sees_name(cursor)
    }
}

/// An expression.
pub struct InnerExpr;

impl Enclosed for InnerExpr {
    type Part = Expr;

    ghost of = { enclosed.inner_expr };
}

/// The parts of a call.
pub struct Parts;

impl Enclosed for Parts {
    type Part = Exprs;

    ghost of = { enclosed.parts };
}

/// What stands in a call of count: whether it is `*`, and the parts.
pub struct CountParts;

impl Enclosed for CountParts {
    type Part = (bool, Exprs);

    ghost of = { enclosed.count_parts };
}

/// The members of an IN, listed or by a SELECT.
pub struct InnerMembers;

impl Enclosed for InnerMembers {
    type Part = Members;

    ghost of = { enclosed.members };
}

/// A SELECT.
pub struct Subselect;

impl Enclosed for Subselect {
    type Part = Select;

    ghost of = { enclosed.subselect };
}
