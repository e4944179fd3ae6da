//! B-trees in the handles of a heap: sorted pairs of a key and a value.
#![tactic(auto)]

mod bound;
mod cursor;
mod decode;
mod destroy;
mod entry;
mod laws;
mod look;
mod lower;
mod mend;
mod node;
mod remove;
mod set;
mod splice;
mod store;
mod tree;
mod walk;

pub use bound::Bound;
pub use cursor::Cursor;
pub use decode::{KEY_LIMIT, NODE_LIMIT, read_node};
pub use laws::{node_laws, tree_laws};
pub use node::{Child, Children, Node, NodeFault, Pair, Pairs};
pub use tree::Tree;
