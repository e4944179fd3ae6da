//! What the bytes of nodes and the trees of a heap have in common.
ghost use Rattle.lldb_btree.specs.Laws.{OneSpelling, TreeLaws};

/// Two nodes that fit and have the same bytes are the same. The call does nothing.
pub fn node_laws()
    ensures { OneSpelling }
{}

/// There is one tree at most at a handle of a map. So many levels want so many pairs, and there are never more than 17. The
/// call does nothing.
pub fn tree_laws()
    ensures { TreeLaws }
{}
