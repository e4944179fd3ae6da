//! The syntax of the language: trees of statements and expressions, what an expression sees and what is known of it, typed
//! expressions, and what they mean and print.
#![tactic(auto)]

mod checked;
mod copy;
mod scope;
mod statement;
mod syntax;
mod typed;
mod typing;

pub use checked::{Checked, CheckedList, Literal};
pub use copy::copy_expr;
pub use scope::{NameRef, RowPlace, Scope, Slot, Slots};
pub use statement::{
    Assign, Assigns, ColumnDef, ColumnDefs, ExprRows, Item, RowSource, Statement, Statements,
};
pub use syntax::{
    Expr, Exprs, Field, Fields, FromSet, FromSets, Function, Join, Link, Links, Select, SetSource,
    Side,
};
pub use typed::{OptTypeds, Typed, TypedLink, TypedLinks, TypedRows, Typeds};
pub use typing::Typing;
