//! Tests of ql_lex by its public calls: they stand here since a crate with tests is proved twice.
#![tactic(auto)]

#[cfg(test)]
mod tokens;
