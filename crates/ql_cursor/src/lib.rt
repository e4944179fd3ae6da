//! The tokens that are left to read, and the steps by which a parser takes them.
#![tactic(auto)]

mod brackets;
mod cursor;
mod fault;
mod kinds;
mod lists;
mod steps;

pub use brackets::{Enclosed, in_brackets};
pub use cursor::Cursor;
pub use fault::Fault;
pub use kinds::{begins_expr, kind_of, next_kind};
pub use lists::{Listed, list};
pub use steps::{
    eat_mark, eat_word, expect_boxed_name, expect_mark, expect_name, expect_word, is_spelled,
    sees_mark, sees_name, sees_open_behind, sees_word, unexpected,
};
