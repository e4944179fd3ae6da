//! Trees that shrink to nothing: keys removed in one order or another, and what is left at each step.

use crate::plot::Plot;
use lldb_base::{Heap, Trouble};
use std::alloc::Global;
use std::test::Fail;

/// In which order the keys that were set are removed.
#[derive(Clone, Copy, Debug, PartialEq, Eq)]
enum Order {
    Rising,
    Falling,
    /// From the middle on, a key above it and one below it in turn.
    MiddleOut,
    /// From both ends, so that the middle is left last.
    EndsIn,
    /// Each further one by a step that has no factor in common with the number of keys.
    Scattered,
}

/// A step between keys that are removed one after the other. It shares no factor with the counts below.
const STEP: u32 = 379;

impl Order {
    /// The number of the key that is removed in a turn, of so many.
    fn number(self, turn: u32, count: u32) -> u32 {
        let half = turn / 2;
        match self {
            Order::Rising => turn,
            Order::Falling => count.saturating_sub(turn.saturating_add(1)),
            Order::MiddleOut => {
                let middle = count / 2;
                if turn % 2 == 0 {
                    middle.saturating_add(half)
                } else {
                    middle.saturating_sub(half + 1)
                }
            }
            Order::EndsIn => {
                if turn % 2 == 0 {
                    half
                } else {
                    count.saturating_sub(half + 1)
                }
            }
            Order::Scattered => turn.saturating_mul(STEP) % count.max(1),
        }
    }
}

struct Case {
    count: u32,
    order: Order,
}

/// Two leaves with one pair too many, two leaves with some to share, and three levels.
const CASES: [Case; 15] = [
    Case {
        count: 33,
        order: Order::Rising,
    },
    Case {
        count: 33,
        order: Order::Falling,
    },
    Case {
        count: 33,
        order: Order::MiddleOut,
    },
    Case {
        count: 33,
        order: Order::EndsIn,
    },
    Case {
        count: 33,
        order: Order::Scattered,
    },
    Case {
        count: 40,
        order: Order::Rising,
    },
    Case {
        count: 40,
        order: Order::Falling,
    },
    Case {
        count: 40,
        order: Order::MiddleOut,
    },
    Case {
        count: 40,
        order: Order::EndsIn,
    },
    Case {
        count: 40,
        order: Order::Scattered,
    },
    Case {
        count: 1100,
        order: Order::Rising,
    },
    Case {
        count: 1100,
        order: Order::Falling,
    },
    Case {
        count: 1100,
        order: Order::MiddleOut,
    },
    Case {
        count: 1100,
        order: Order::EndsIn,
    },
    Case {
        count: 1100,
        order: Order::Scattered,
    },
];

/// A tree of so many keys of four bytes, each with itself as its value.
fn filled(alloc: Global, count: u32) -> Result<Plot, Trouble> {
    let mut plot = Plot::new(alloc)?;
    for number in 0..count {
        let key = number.to_be_bytes();
        plot.set(&key, &key)?;
    }
    Ok(plot)
}

/// Whether a number is above the one before it.
fn is_above(number: u32, last: Option<u32>) -> bool {
    match last {
        Some(last) => last < number,
        None => true,
    }
}

/// How many pairs of so many are there, each with its value and in order.
fn counted(plot: &mut Plot, count: u32) -> Result<u32, Trouble> {
    let mut cursor = plot.tree.cursor();
    let mut last: Option<u32> = None;
    for turn in 0..count.saturating_add(1) {
        let Some(pair) = plot.next(&mut cursor)? else {
            return Ok(turn);
        };
        let Some((key, _)) = pair.key.as_slice().split_first_chunk::<4>() else {
            return Err(Trouble::Damaged);
        };
        let number = u32::from_be_bytes(*key);
        if pair.value.as_slice() != pair.key.as_slice() || !is_above(number, last) {
            return Err(Trouble::Damaged);
        }
        last = Some(number);
    }
    Err(Trouble::Damaged)
}

/// Whether a key is removed where it is there, and is not there then.
fn is_removed(plot: &mut Plot, number: u32) -> Result<bool, Trouble> {
    let key = number.to_be_bytes();
    Ok(plot.remove(&key)? && plot.get(&key)?.is_none() && !plot.remove(&key)?)
}

/// Removes all keys of a tree in an order. It answers the first turn after which something is not as it should be.
fn emptied(plot: &mut Plot, case: &Case) -> Result<Option<u32>, Trouble> {
    for turn in 0..case.count {
        let number = case.order.number(turn, case.count);
        if !is_removed(plot, number)? {
            return Ok(Some(turn));
        }
        let left = case.count.saturating_sub(turn.saturating_add(1));
        if (left < 40 || turn % 100 == 0)
            && !(plot.is_well()? && counted(plot, case.count)? == left)
        {
            return Ok(Some(turn));
        }
    }
    Ok(None)
}

#[test]
fn in_each_order(rt: HostRuntime) -> Result<(), Fail> {
    for case in &CASES {
        let mut plot = filled(rt.alloc(), case.count)?;
        let wrong = emptied(&mut plot, case)?;
        assert_eq!(rt; wrong, None);
        assert_eq!(rt; plot.depth()?, 1);
        assert!(rt; plot.destroy()?);
    }
    Ok(())
}

/// Whether a heap with a tree of so many pairs is empty once it is destroyed.
fn is_destroyed(alloc: Global, count: u32) -> Result<bool, Trouble> {
    let mut plot = filled(alloc, count)?;
    plot.destroy()
}

#[test]
fn nothing_is_left(rt: HostRuntime) -> Result<(), Fail> {
    for count in [0, 1, 32, 33, 529, 2000] {
        let empty = is_destroyed(rt.alloc(), count)?;
        assert!(rt; empty);
    }
    Ok(())
}

/// Whether another tree in the same heap, and a content beside both, stay where one tree is emptied and destroyed.
fn leaves_others(alloc: Global) -> Result<bool, Trouble> {
    let mut plot = filled(alloc, 600)?;
    let first = plot.tree;
    let beside = plot.add(b"beside")?;
    if !plot.heap.ready() || plot.heap.depth() == 0 {
        return Err(Trouble::Failed);
    }
    plot.tree = lldb_btree::Tree::create(alloc, &mut plot.heap)?;
    for number in 0..600u32 {
        plot.set(&number.to_be_bytes(), b"")?;
        plot.remove(&(number / 2).to_be_bytes())?;
    }
    plot.destroy()?;
    plot.tree = first;
    let mut content = ql_edge::Bytes::new(alloc);
    if !plot.heap.ready() {
        return Err(Trouble::Failed);
    }
    plot.heap.read(beside, &mut content)?;
    Ok(
        content.as_slice() == b"beside".as_slice()
            && plot.is_well()?
            && counted(&mut plot, 600)? == 600,
    )
}

#[test]
fn other_contents_stay(rt: HostRuntime) -> Result<(), Fail> {
    let kept = leaves_others(rt.alloc())?;
    assert!(rt; kept);
    Ok(())
}

/// How many nodes a removal reads at most in a tree of three levels.
fn most_reads(alloc: Global) -> Result<u64, Trouble> {
    let mut plot = filled(alloc, 1100)?;
    let mut most: u64 = 0;
    for turn in 0..1100 {
        let key = Order::Scattered.number(turn, 1100).to_be_bytes();
        let before = plot.heap.reads();
        plot.remove(&key)?;
        most = most.max(plot.heap.reads().saturating_sub(before));
    }
    Ok(most)
}

#[test]
fn two_reads_a_level(rt: HostRuntime) -> Result<(), Fail> {
    let most = most_reads(rt.alloc())?;
    assert!(rt; most <= 6);
    Ok(())
}
