//! Tests of ql_value by its public calls: they stand here since a crate with tests is proved twice.
#![tactic(auto)]

#[cfg(test)]
mod keys;
#[cfg(test)]
mod rows;
#[cfg(test)]
mod values;
