//! The write-ahead log beside a data file: what it holds, and what two files are when they are opened.
#![tactic(auto)]

mod commit;
mod creation;
mod fault;
mod fields;
mod filer;
mod files;
mod header;
mod laws;
mod read_log;
mod reading;
mod settling;
mod spelling;
mod state;
mod tidying;
mod two_files;
mod window;

pub use fault::WalFault;
pub use filer::WalFiler;
pub use laws::{log_examples, log_laws, spelling_laws};
pub use state::{LogState, Opening};
pub use two_files::read_files;
