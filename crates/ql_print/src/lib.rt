//! From statements and expressions to their text.
#![tactic(auto)]

mod laws;
mod print;
mod print_statements;
mod spelling;

pub use laws::made_laws;
pub use print::print_expr;
pub use print_statements::{print_column, print_item, print_statement};
pub use spelling::{operator_bytes, prefix_bytes};
