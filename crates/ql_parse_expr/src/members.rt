//! The members of an IN.

use ql_syntax::{Exprs, Select};

/// The members of an IN.
#[derive(Drop)]
pub enum Members {
    Listed(Exprs),
    Query(Select),
}
