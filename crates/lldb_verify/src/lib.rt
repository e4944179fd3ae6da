//! The verifier: what is wrong with a content of blocks, in order.
#![tactic(auto)]

mod bits;
mod finding;
mod laws;
mod lists;
mod log;
mod place;
mod reading;
mod seen;
mod targets;
mod tell;
mod tiles;
mod unlisted;
mod verifier;
mod window;

pub use bits::Bits;
pub use finding::{Finding, Stats, VerifyFault};
pub use laws::findings_laws;
pub use log::{AllLog, FaultLog, FirstLog};
pub use verifier::verify;

#[cfg(test)]
mod tests;
