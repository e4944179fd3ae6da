//! Which bytes are read as nodes, and a tree whose nodes were written by hand.

use crate::plot::Plot;
use lldb_base::{Heap, Trouble};
use lldb_btree::{NodeFault, read_node};
use ql_edge::Bytes;
use std::alloc::Global;
use std::test::Fail;

/// A root over two leaves: a, c and e have the values 1, 2 and none.
const BY_HAND: [&[u8]; 3] = [
    b"\x01\x02\0\x01c\0\0\0\0\0\0\0\x09\0\x01e\0\0\0\0\0\0\0\x0a",
    b"\0\x02\0\x01a\x011\0\x01c\x012",
    b"\0\x01\0\x01e\0",
];

/// The tree of those contents.
fn by_hand(alloc: Global) -> Result<Plot, Trouble> {
    Plot::of(alloc, &BY_HAND)
}

/// Whether that tree has a key.
fn has_by_hand(alloc: Global, key: &[u8]) -> Result<bool, Trouble> {
    let mut plot = by_hand(alloc)?;
    Ok(plot.get(key)?.is_some())
}

#[test]
fn a_key_by_hand(rt: HostRuntime) -> Result<(), Fail> {
    let found = has_by_hand(rt.alloc(), b"c")?;
    assert!(rt; found);
    Ok(())
}

#[test]
fn no_key_by_hand(rt: HostRuntime) -> Result<(), Fail> {
    let found = has_by_hand(rt.alloc(), b"d")?;
    assert!(rt; !found);
    Ok(())
}

/// The pairs of that tree from a key on, and what is wanted.
struct Walk<'a> {
    from: &'a [u8],
    wanted: &'a [u8],
}

const WALKS: [Walk<'static>; 3] = [
    Walk {
        from: b"",
        wanted: b"a1-c2-e-",
    },
    Walk {
        from: b"b",
        wanted: b"c2-e-",
    },
    Walk {
        from: b"ee",
        wanted: b"",
    },
];

/// The pairs of that tree from a key on.
fn walk_by_hand(alloc: Global, from: &[u8]) -> Result<Bytes, Trouble> {
    let mut plot = by_hand(alloc)?;
    plot.listed(from, 8)
}

#[test]
fn a_walk_by_hand(rt: HostRuntime) -> Result<(), Fail> {
    for walk in &WALKS {
        let listed = walk_by_hand(rt.alloc(), walk.from)?;
        assert_eq!(rt; listed.as_slice(), walk.wanted);
    }
    Ok(())
}

/// How many nodes of an empty tree a look-up and a count of levels read.
fn reads_of_none(alloc: Global) -> Result<u64, Trouble> {
    let mut plot = Plot::new(alloc)?;
    plot.get(b"key")?;
    plot.depth()?;
    Ok(plot.heap.reads())
}

#[test]
fn an_empty_tree(rt: HostRuntime) -> Result<(), Fail> {
    let reads = reads_of_none(rt.alloc())?;
    assert_eq!(rt; reads, 2);
    Ok(())
}

/// Bytes that spell a node: keys of no byte, a front, values of none and of one; an inner node without children.
const NODES: [&[u8]; 3] = [b"\0\0", b"\0\x03\0\0\0\0\x01a\x011\0\x02a\xff\0", b"\x01\0"];

/// Bytes that spell none: too short, another kind, keys that do not rise, a byte too many, a value of 17 bytes.
const NO_NODES: [&[u8]; 6] = [
    b"",
    b"\0",
    b"\x02\0",
    b"\0\x02\0\x01a\0\0\x01a\0",
    b"\0\0\0",
    b"\0\x01\0\0\x1112345678901234567",
];

#[test]
fn nodes(rt: HostRuntime) {
    for bytes in NODES {
        assert!(rt; read_node(rt.alloc(), bytes).is_ok());
    }
    for bytes in NO_NODES {
        assert_eq!(rt;
            read_node(rt.alloc(), bytes).err(),
            Some(NodeFault::BadNode)
        );
    }
}
