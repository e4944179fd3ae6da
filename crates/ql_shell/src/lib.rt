//! Carries out a script: from the words and the bytes to what is shown, warned and answered.
#![tactic(auto)]

mod fault;
mod levels;
mod line;
mod options;
mod pair;
mod parsing;
mod reading;
mod script_run;
mod session;
mod status;
mod words;

pub use fault::StepFault;
pub use script_run::{SCRIPT_LIMIT, run};
pub use session::Session;
pub use status::{ScriptFault, Status, code};
