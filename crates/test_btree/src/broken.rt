//! Heaps that hold no tree: each call returns, with `Damaged` or with an answer.

use crate::plot::Plot;
use lldb_base::{Heap, Trouble};
use ql_edge::Bytes;
use std::alloc::Global;
use std::test::Fail;

/// What stands at handle 8 and on.
struct Case<'a> {
    name: &'a str,
    contents: &'a [&'a [u8]],
}

/// Whatever is looked up or set here, damage is found.
const DAMAGED: [Case<'static>; 11] = [
    Case {
        name: "no byte",
        contents: &[b""],
    },
    Case {
        name: "one byte",
        contents: &[b"\0"],
    },
    Case {
        name: "another kind",
        contents: &[b"\x02\0"],
    },
    Case {
        name: "an empty inner node",
        contents: &[b"\x01\0"],
    },
    Case {
        name: "an empty inner node below",
        contents: &[b"\x01\x01\0\x01z\0\0\0\0\0\0\0\x09", b"\x01\0"],
    },
    Case {
        name: "a node that names itself",
        contents: &[b"\x01\x01\0\x01z\0\0\0\0\0\0\0\x08"],
    },
    Case {
        name: "two that name each other",
        contents: &[
            b"\x01\x01\0\x01z\0\0\0\0\0\0\0\x09",
            b"\x01\x01\0\x01z\0\0\0\0\0\0\0\x08",
        ],
    },
    Case {
        name: "a child that is not live",
        contents: &[b"\x01\x01\0\x01z\0\0\0\0\0\0\0\x63"],
    },
    Case {
        name: "a key that is longer than what is there",
        contents: &[b"\0\x01\0\x09z\0"],
    },
    Case {
        name: "a value of 17 bytes",
        contents: &[b"\0\x01\0\x01a\x1112345678901234567"],
    },
    Case {
        name: "half a handle",
        contents: &[b"\x01\x01\0\x01z\0\0\0\0"],
    },
];

/// Nothing is promised here but that each call returns.
const ODD: [Case<'static>; 8] = [
    Case {
        name: "a leaf at the wrong level",
        contents: &[
            b"\x01\x02\0\x01c\0\0\0\0\0\0\0\x09\0\x01z\0\0\0\0\0\0\0\x0a",
            b"\0\x02\0\x01a\0\0\x01c\0",
            b"\x01\x01\0\x01z\0\0\0\0\0\0\0\x0b",
            b"\0\x01\0\x01z\0",
        ],
    },
    Case {
        name: "keys of a leaf out of order",
        contents: &[b"\0\x03\0\x01x\0\0\x01a\0\0\x01m\0"],
    },
    Case {
        name: "keys of an inner node out of order",
        contents: &[
            b"\x01\x02\0\x01z\0\0\0\0\0\0\0\x09\0\x01a\0\0\0\0\0\0\0\x0a",
            b"\0\x01\0\x01z\0",
            b"\0\x01\0\x01a\0",
        ],
    },
    Case {
        name: "a key below those of its child",
        contents: &[
            b"\x01\x01\0\x01a\0\0\0\0\0\0\0\x09",
            b"\0\x02\0\x01c\0\0\x01z\0",
        ],
    },
    Case {
        name: "a child that is named twice",
        contents: &[
            b"\x01\x02\0\x01a\0\0\0\0\0\0\0\x09\0\x01z\0\0\0\0\0\0\0\x09",
            b"\0\x02\0\x01a\0\0\x01z\0",
        ],
    },
    Case {
        name: "a key that stands twice",
        contents: &[b"\0\x02\0\x01m\0\0\x01m\0"],
    },
    Case {
        name: "bytes behind a leaf",
        contents: &[b"\0\x01\0\x01a\0more"],
    },
    Case {
        name: "a pair too few",
        contents: &[b"\0\x02\0\x01m\0"],
    },
];

/// Whether a call found damage.
fn is_damage<T>(answer: &Result<T, Trouble>) -> bool {
    match answer {
        Ok(_) => false,
        Err(trouble) => *trouble == Trouble::Damaged,
    }
}

/// Whether a call answered, or found damage.
fn is_allowed<T>(answer: &Result<T, Trouble>) -> bool {
    answer.is_ok() || is_damage(answer)
}

/// Whether all calls that only read found damage.
fn reads_damage(plot: &mut Plot) -> bool {
    let mut cursor = plot.tree.cursor();
    is_damage(&plot.get(b"key")) && is_damage(&plot.depth()) && is_damage(&plot.next(&mut cursor))
}

#[test]
fn damaged(rt: HostRuntime) -> Result<(), Fail> {
    for case in &DAMAGED {
        let mut plot = Plot::of(rt.alloc(), case.contents)?;
        assert!(rt; reads_damage(&mut plot), "{}", case.name);
        assert!(rt; is_damage(&plot.remove(b"key")), "{}", case.name);
        assert!(rt; is_damage(&plot.set(b"key", b"")), "{}", case.name);
    }
    Ok(())
}

/// Whether all calls that only read, a pass among them, answer or find damage.
fn reads_well(plot: &mut Plot) -> bool {
    is_allowed(&plot.get(b"key")) && is_allowed(&plot.depth()) && is_allowed(&plot.listed(b"", 300))
}

/// Whether a key is removed or damage is found, and the calls that only read answer or find damage then.
fn shrinks(plot: &mut Plot, key: &[u8]) -> bool {
    let removed = plot.remove(key);
    if !plot.heap.ready() {
        return is_damage(&removed);
    }
    is_allowed(&removed) && reads_well(plot)
}

/// Whether the calls that only read answer or find damage, also when a key of some bytes was set, and when it was removed.
fn goes_on(plot: &mut Plot, key: &[u8]) -> bool {
    if !reads_well(plot) {
        return false;
    }
    let set = plot.set(key, b"new");
    if !plot.heap.ready() {
        return is_damage(&set);
    }
    is_allowed(&set) && reads_well(plot) && shrinks(plot, key)
}

#[test]
fn odd(rt: HostRuntime) -> Result<(), Fail> {
    for case in &ODD {
        for key in [b"".as_slice(), b"b".as_slice(), b"\xff".as_slice()] {
            let mut plot = Plot::of(rt.alloc(), case.contents)?;
            assert!(rt; goes_on(&mut plot, key), "{}", case.name);
        }
    }
    Ok(())
}

/// A leaf of so many pairs, whose keys have so many bytes and a byte that tells them apart.
fn leaf(alloc: Global, count: u8, length: u16) -> Result<Bytes, Trouble> {
    let mut leaf = Bytes::from_slice(alloc, &[0, count])?;
    for turn in 0..count {
        leaf.extend(&length.saturating_add(1).to_be_bytes())?;
        leaf.push(turn)?;
        for _ in 0..length {
            leaf.push(b'x')?;
        }
        leaf.push(0)?;
    }
    Ok(leaf)
}

/// Counts of pairs and lengths of their keys that are too many for a leaf, or too long.
const TOO_MUCH: [(u8, u16); 6] = [
    (33, 1),
    (255, 1),
    (32, 1100),
    (31, 1100),
    (32, 2000),
    (2, 30_000),
];

#[test]
fn too_much_in_a_leaf(rt: HostRuntime) -> Result<(), Fail> {
    for (count, length) in TOO_MUCH {
        for key in [b"".as_slice(), b"\x0fxy".as_slice(), b"\xff".as_slice()] {
            let content = leaf(rt.alloc(), count, length)?;
            let mut plot = Plot::of(rt.alloc(), &[content.as_slice()])?;
            assert!(rt; goes_on(&mut plot, key), "{count} keys of {length}");
        }
    }
    Ok(())
}

/// So many inner nodes, each with one child, over a leaf with the key z.
fn chain(alloc: Global, inner: u64) -> Result<Plot, Trouble> {
    let mut plot = Plot::of(alloc, &[])?;
    for below in 9..inner.saturating_add(9) {
        let mut node = Bytes::from_slice(alloc, b"\x01\x01\0\x01z")?;
        node.extend(&below.to_be_bytes())?;
        plot.add(node.as_slice())?;
    }
    plot.add(b"\0\x01\0\x01z\0")?;
    Ok(plot)
}

#[test]
fn seventeen_levels(rt: HostRuntime) -> Result<(), Fail> {
    let mut plot = chain(rt.alloc(), 16)?;
    assert_eq!(rt; plot.depth()?, 17);
    assert!(rt; plot.get(b"z")?.is_some());
    assert!(rt; goes_on(&mut plot, b"key"));
    let mut plot = chain(rt.alloc(), 17)?;
    assert!(rt; reads_damage(&mut plot));
    assert!(rt; is_damage(&plot.set(b"key", b"")));
    Ok(())
}

/// The next of some numbers that look random.
fn turn(seed: &mut u64) -> u64 {
    *seed = seed
        .wrapping_mul(6_364_136_223_846_793_005)
        .wrapping_add(1_442_695_040_888_963_407);
    *seed >> 40
}

/// Makes one byte of a content another.
fn change(plot: &mut Plot, handle: u64, at: u64, byte: u8) -> Result<(), Trouble> {
    if !plot.heap.ready() || plot.heap.depth() == 0 {
        return Err(Trouble::Failed);
    }
    let mut content = Bytes::new(plot.alloc);
    plot.heap.read(handle, &mut content)?;
    let mut content = content.into_vec();
    let len = content.len();
    if len == 0 || len > 65_787 {
        return Err(Trouble::Failed);
    }
    content[(at % len as u64) as usize] = byte;
    plot.heap.replace(handle, &content)
}

/// A tree of 100 keys of two bytes, in 8 contents, with one byte of one of them changed.
fn one_byte_changed(alloc: Global, seed: &mut u64) -> Result<Plot, Trouble> {
    let mut plot = Plot::new(alloc)?;
    for number in 0..100u16 {
        plot.set(&number.to_be_bytes(), b"v")?;
    }
    let handle = 8 + turn(seed) % 6;
    let at = turn(seed);
    let byte = (turn(seed) % 256) as u8;
    change(&mut plot, handle, at, byte)?;
    Ok(plot)
}

#[test]
fn one_byte_is_changed(rt: HostRuntime) -> Result<(), Fail> {
    let mut seed = 1;
    for _ in 0..200 {
        let mut plot = one_byte_changed(rt.alloc(), &mut seed)?;
        let key = (turn(&mut seed) % 110) as u16;
        assert!(rt; goes_on(&mut plot, &key.to_be_bytes()), "{seed}");
    }
    Ok(())
}
