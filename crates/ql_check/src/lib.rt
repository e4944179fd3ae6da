//! The plan of a statement, or its first refusal.
#![tactic(auto)]

mod change;
mod create;
mod fields;
mod from;
mod insert;
mod names;
mod plan;
mod select;
mod statement;
mod tables;
mod targets;

pub use ql_check_expr::CheckFault;
pub use ql_rel::Plan;
pub use statement::check;
