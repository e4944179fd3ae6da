//! Contents by handle in blocks of a content, over any filer.
#![tactic(auto, using(crate::proofs::Stays::stops_none, crate::proofs::Stays::stops_then))]

mod allocator;
mod bytes;
mod chain;
mod content;
mod create;
mod front;
mod links;
mod release;
mod remove;
mod replace;
mod room;
mod site;
mod write;

pub use allocator::Allocator;
pub use content::read_content;
pub use create::create_content;
pub use remove::remove_content;
pub use replace::replace_content;
