//! Trees that grow: the worked row, splits of leaves, of inner nodes and of the root, and keys at their limits.

use crate::plot::Plot;
use lldb_base::{Heap, Trouble};
use ql_edge::Bytes;
use std::alloc::Global;
use std::test::Fail;

/// A tree of the keys 0 to 32 of one byte.
fn with_33_keys(alloc: Global) -> Result<Plot, Trouble> {
    let mut plot = Plot::new(alloc)?;
    for key in 0..33u8 {
        plot.set(&[key], b"")?;
    }
    Ok(plot)
}

/// What that tree lists from a key on.
fn listed_of_33(alloc: Global, from: u8) -> Result<Bytes, Trouble> {
    let mut plot = with_33_keys(alloc)?;
    plot.listed(&[from], 3)
}

#[test]
fn thirty_three_pairs(rt: HostRuntime) -> Result<(), Fail> {
    let listed = listed_of_33(rt.alloc(), 31)?;
    assert_eq!(rt; listed.as_slice(), b"\x1f-\x20-".as_slice());
    Ok(())
}

/// How many levels that tree has.
fn levels_of_33(alloc: Global) -> Result<u32, Trouble> {
    let mut plot = with_33_keys(alloc)?;
    plot.depth()
}

#[test]
fn two_levels(rt: HostRuntime) -> Result<(), Fail> {
    let levels = levels_of_33(rt.alloc())?;
    assert_eq!(rt; levels, 2);
    Ok(())
}

/// Sets keys of two bytes in rising order, from one number on and below another.
fn set_rising(plot: &mut Plot, from: u16, to: u16) -> Result<(), Trouble> {
    for number in from..to {
        let key = number.to_be_bytes();
        plot.set(&key, &key)?;
    }
    Ok(())
}

/// After how many keys in rising order a tree has how many levels.
struct Rising {
    count: u16,
    levels: u32,
}

/// A split leaves 16 of 33 entries, so the root has 33 leaves with key 16 * 32 + 17.
const RISING: [Rising; 5] = [
    Rising {
        count: 1,
        levels: 1,
    },
    Rising {
        count: 32,
        levels: 1,
    },
    Rising {
        count: 528,
        levels: 2,
    },
    Rising {
        count: 529,
        levels: 3,
    },
    Rising {
        count: 2000,
        levels: 3,
    },
];

/// How many levels a tree has after so many keys in rising order.
fn levels_after(alloc: Global, count: u16) -> Result<u32, Trouble> {
    let mut plot = Plot::new(alloc)?;
    set_rising(&mut plot, 0, count)?;
    plot.depth()
}

#[test]
fn three_levels(rt: HostRuntime) -> Result<(), Fail> {
    for row in &RISING {
        let levels = levels_after(rt.alloc(), row.count)?;
        assert_eq!(rt; levels, row.levels);
    }
    Ok(())
}

/// How many nodes a look-up reads in a tree of three levels.
fn reads_of_three(alloc: Global) -> Result<u64, Trouble> {
    let mut plot = Plot::new(alloc)?;
    set_rising(&mut plot, 0, 600)?;
    let before = plot.heap.reads();
    plot.get(b"\x01\x00")?;
    Ok(plot.heap.reads().saturating_sub(before))
}

#[test]
fn a_read_a_level(rt: HostRuntime) -> Result<(), Fail> {
    let reads = reads_of_three(rt.alloc())?;
    assert_eq!(rt; reads, 3);
    Ok(())
}

/// Keys in falling order: fronts of each other, bytes 0 and 255, one and no byte.
const FALLING: [&[u8]; 9] = [
    b"\xff\xff",
    b"\xff\0",
    b"\xff",
    b"a\xff",
    b"a\0b",
    b"a\0",
    b"a",
    b"\0",
    b"",
];

/// A tree of those keys, and two of 1,100 bytes: below all others but the first, and above all.
fn at_the_limits(alloc: Global) -> Result<Plot, Trouble> {
    let mut plot = Plot::new(alloc)?;
    plot.set(&[255; 1100], b"1234567890123456")?;
    for key in FALLING {
        plot.set(key, b"")?;
    }
    plot.set(&[0; 1100], b"z")?;
    Ok(plot)
}

/// What that tree lists from a key on.
fn listed_at_the_limits(alloc: Global, from: &[u8], count: u32) -> Result<Bytes, Trouble> {
    let mut plot = at_the_limits(alloc)?;
    plot.listed(from, count)
}

#[test]
fn keys_at_their_limits(rt: HostRuntime) -> Result<(), Fail> {
    let listed = listed_at_the_limits(rt.alloc(), b"\0\x01", 7)?;
    let wanted = b"a-a\0-a\0b-a\xff-\xff-\xff\0-\xff\xff-";
    assert_eq!(rt; listed.as_slice(), wanted.as_slice());
    Ok(())
}

#[test]
fn all_keys_at_their_limits(rt: HostRuntime) -> Result<(), Fail> {
    let listed = listed_at_the_limits(rt.alloc(), b"", 12)?;
    assert_eq!(rt; listed.len(), 1102 + 23 + 1117);
    Ok(())
}

/// How long the value of a key is in that tree.
fn length_at_the_limits(alloc: Global, key: &[u8]) -> Result<Option<usize>, Trouble> {
    let mut plot = at_the_limits(alloc)?;
    match plot.get(key)? {
        Some(value) => Ok(Some(value.len())),
        None => Ok(None),
    }
}

#[test]
fn the_longest_key(rt: HostRuntime) -> Result<(), Fail> {
    let found = length_at_the_limits(rt.alloc(), &[255; 1100])?;
    assert_eq!(rt; found, Some(16));
    Ok(())
}

#[test]
fn a_value_is_replaced(rt: HostRuntime) -> Result<(), Fail> {
    let mut plot = Plot::new(rt.alloc())?;
    plot.set(b"a", b"1")?;
    plot.set(b"b", b"2")?;
    plot.set(b"a", b"345")?;
    assert_eq!(rt; plot.listed(b"", 3)?.as_slice(), b"a345-b2-".as_slice());
    Ok(())
}
