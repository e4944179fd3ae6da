//! Filers and heaps: what the layers above a device hold, as traits, and their simplest forms.
#![tactic(auto)]

mod base;
mod batch;
mod filer;
mod heap;
mod inner;
mod laws;
mod maps;
mod mem_heap;
mod memory;
mod past;
mod texts;
mod trouble;

pub use base::BaseFiler;
pub use batch::{Batch, Piece};
pub use filer::Filer;
pub use heap::Heap;
pub use inner::InnerFiler;
pub use laws::batch_laws;
pub use mem_heap::MemHeap;
pub use memory::{MemFiler, put_piece};
pub use texts::Texts;
pub use trouble::{Refused, Trouble};

#[cfg(test)]
mod tests;
