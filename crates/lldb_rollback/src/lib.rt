//! Nested levels over any base filer.
#![tactic(auto)]

mod changes;
mod levels;
mod stack;

pub use levels::RollbackFiler;

#[cfg(test)]
mod tests;
