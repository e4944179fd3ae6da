//! Tests of the parser, the printer, the checker and the evaluator, each by its public calls: they stand here since a
//! crate with tests is proved twice.
#![tactic(auto)]

#[cfg(test)]
mod evaluation;
#[cfg(test)]
mod plans;
#[cfg(test)]
mod printing;
#[cfg(test)]
mod statements;
