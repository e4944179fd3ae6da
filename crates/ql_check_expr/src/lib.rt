//! Names and types of an expression: what is known of it, or its first refusal.
#![tactic(auto)]

mod aggregate;
mod call;
mod chain;
mod checked;
mod copy;
mod expression;
mod fault;
mod parts;
mod predicate;
mod prefix;
mod scope;
mod table;

pub use aggregate::has_aggregate;
pub use checked::{meet_type, of_type, require_type};
pub use expression::check_expr;
pub use fault::CheckFault;
pub use scope::{is_called, qualified_name};
pub use table::{Group, among};
