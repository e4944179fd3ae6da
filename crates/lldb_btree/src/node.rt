//! Nodes in memory.

use lldb_base::Trouble;
use ql_edge::{Bytes, Items, NoMemory};

/// A key with its value.
#[derive(Debug, Drop)]
pub struct Pair {
    pub key: Bytes,
    pub value: Bytes,
}

/// A node below another, by the greatest key under it.
#[derive(Debug, Drop)]
pub struct Child {
    pub key: Bytes,
    pub handle: u64,
}

/// A list of pairs.
pub type Pairs = Items<Pair>;

/// A list of children.
pub type Children = Items<Child>;

/// A node of a tree.
#[derive(Debug, Drop)]
pub enum Node {
    Leaf(Pairs),
    Inner(Children),
}

/// Why bytes are not read as a node.
#[derive(Clone, Copy, Debug, PartialEq, Eq)]
pub enum NodeFault {
    /// They spell no node.
    BadNode,
    NoMemory,
}

impl From<NoMemory> for NodeFault {
    ghost use Rattle.std.specs.Prelude.{◌≡◌};
    ghost use Rattle.lldb_btree.specs.declared.node.NodeFault.TheVariants as variant;

    ghost from_gives = { λ _ fault. fault ≡ variant.NoMemory };

    fn from(_: NoMemory) -> NodeFault {
        NodeFault::NoMemory
    }
}

impl From<NodeFault> for Trouble {
    ghost use Rattle.std.specs.Prelude.{◌≡◌};
    ghost use Rattle.lldb_btree.specs.Reading.{trouble_of};

    ghost from_gives = { λ fault trouble. trouble ≡ trouble_of fault };

    fn from(fault: NodeFault) -> Trouble {
        match fault {
            NodeFault::BadNode => Trouble::Damaged,
            NodeFault::NoMemory => Trouble::NoMemory,
        }
    }
}
