//! A row of blocks and its edits, as laws for the crates that edit blocks in bytes.
#![tactic(auto)]

mod laws;

pub use laws::{bridge_laws, edit_laws, heap_laws, map_laws, read_laws, rest_laws, write_laws};
