//! From the tokens of a script to its statements.
#![tactic(auto)]

mod alter;
mod columns;
mod create;
mod exists;
mod fault;
mod insert;
mod scripts;
mod statement;
mod update;

pub use fault::ParseFault;
pub use ql_syntax::{
    Assign, Assigns, ColumnDef, ColumnDefs, Expr, ExprRows, Exprs, Field, Fields, FromSet,
    FromSets, Function, Item, Join, Link, Links, RowSource, Select, SetSource, Side, Statement,
    Statements, copy_expr,
};
pub use scripts::{BRACKET_LIMIT, script};
