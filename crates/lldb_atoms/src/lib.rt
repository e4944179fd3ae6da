//! Blocks of a content: their heads and endings, the classes and the table of free lists.
#![tactic(auto)]

mod block;
mod class;
mod ending;
mod head;
mod laws;
mod numbers;
mod table;

pub use block::{Block, atoms_for, atoms_of};
pub use class::class_of;
pub use ending::tail;
pub use head::{read_head, write_head};
pub use laws::{block_laws, sound_laws, table_laws, tiling_laws};
pub use numbers::{read_seven, seven_bytes};
pub use table::FreeTable;

#[cfg(test)]
mod tests;
