//! Tests of sessions by their public calls, over tables of which one call fails.
#![tactic(auto)]

#[cfg(test)]
mod failing;
#[cfg(test)]
mod levels;
