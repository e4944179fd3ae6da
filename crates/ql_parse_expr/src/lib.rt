//! From tokens to expressions and SELECTs.
#![tactic(auto)]

mod begins;
mod chain;
mod clause;
mod from;
mod functions;
mod level;
mod markers;
mod members;
mod nested;
mod parser;
mod parts;
mod predicate;
mod primary;
mod select;

pub use nested::{parse_expr, parse_select};
pub use parts::{parse_boxed_expr, parse_boxed_select, parse_clause, parse_exprs};
