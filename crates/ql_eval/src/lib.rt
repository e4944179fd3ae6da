//! The value of a typed expression at a row.
#![tactic(auto)]

mod compare;
mod convert;
mod evaluation;
mod fault;
mod function;
mod logic;
mod operand;
mod operate;
mod prefix;

pub use evaluation::eval;
pub use fault::EvalFault;
pub use ql_syntax::{OptTypeds, Typed, TypedLink, TypedLinks, TypedRows, Typeds};
