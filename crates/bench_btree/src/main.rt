//! Fills two trees with as many pairs as its word says, looks each key up, passes over all, reads as many nodes at random and
//! removes all keys, and says what it did. The microseconds that each took go to standard error.
#![tactic(auto)]

ghost use Rattle.std.specs.Prelude.{◌≡◌, ◌≤◌, length, true, IsTrue, IfOk, OnOk};

use lldb_base::{Heap, MemHeap, Trouble};
use lldb_btree::Tree;
use ql_edge::{Bytes, NoMemory};
use std::alloc::Global;
use std::time::Instant;
use std::{env, io};

/// How many pairs there are where no word says it.
const FEW: u64 = 10_000;

/// A heap with a level begun.
fn begun(alloc: Global) -> Result<MemHeap, NoMemory>
    ensures ready { IfOk result (λ h. IsTrue (⟦<MemHeap as Heap>⟧.is_ready h)) }
    ensures depth { IfOk result (λ h. 1 ≤ length (⟦<MemHeap as Heap>⟧.saved h)) }
{
    let mut heap = MemHeap::new(alloc);
    heap.begin_update()?;
    Ok(heap)
}

/// A key of 9 bytes.
fn key_of(number: u64) -> [u8; 9] {
    let [a, b, c, d, e, f, g, h] = number.to_be_bytes();
    [3, a, b, c, d, e, f, g, h]
}

/// Another number, which looks random. Different numbers have different ones.
fn mixed(number: u64) -> u64 {
    let number = (number ^ (number >> 30)).wrapping_mul(0xBF58_476D_1CE4_E5B9);
    let number = (number ^ (number >> 27)).wrapping_mul(0x94D0_49BB_1331_11EB);
    number ^ (number >> 31)
}

/// The key of a number: in the order of the numbers, or in none.
fn key_in(rising: bool, number: u64) -> [u8; 9] {
    if rising {
        key_of(number)
    } else {
        key_of(mixed(number))
    }
}

/// A tree of so many pairs in a heap.
fn filled<H: Heap>(alloc: Global, heap: &mut H, count: u64, rising: bool) -> Result<Tree, Trouble>
    requires ready { IsTrue (H.is_ready heap.old) }
    requires depth { 1 ≤ length (H.saved heap.old) }
    ensures { OnOk result (H.is_ready heap.new ≡ true) }
{
    let tree = Tree::create(alloc, heap)?;
    for number in 0..count {
        let key = key_in(rising, number);
        tree.set(alloc, heap, &key, &number.to_be_bytes())?;
    }
    Ok(tree)
}

/// How many of so many keys in random order are found.
fn found<H: Heap>(alloc: Global, heap: &mut H, tree: Tree, count: u64) -> Result<u64, Trouble>
    requires { IsTrue (H.is_ready heap.old) }
    ensures { H.is_ready heap.new ≡ H.is_ready heap.old }
{
    let mut value = Bytes::new(alloc);
    let mut found: u64 = 0;
    for turn in 0..count {
        let number = mixed(turn.wrapping_add(count)) % count;
        let key = key_in(false, number);
        if tree.get(alloc, heap, &key, &mut value)? {
            found = found.saturating_add(1);
        }
    }
    Ok(found)
}

/// How many pairs a cursor gives.
fn passed<H: Heap>(alloc: Global, heap: &mut H, tree: Tree) -> Result<u64, Trouble>
    requires { IsTrue (H.is_ready heap.old) }
    ensures { H.is_ready heap.new ≡ H.is_ready heap.old }
{
    let mut cursor = tree.cursor();
    let mut key = Bytes::new(alloc);
    let mut value = Bytes::new(alloc);
    for passed in 0..u64::MAX {
        if !cursor.next(alloc, heap, &mut key, &mut value)? {
            return Ok(passed);
        }
    }
    Ok(u64::MAX)
}

/// How many of so many nodes at random handles are read. A leaf has 32 pairs at most, so there are that many handles.
fn read<H: Heap>(alloc: Global, heap: &mut H, count: u64) -> Result<u64, Trouble>
    requires { IsTrue (H.is_ready heap.old) }
{
    let nodes = (count / 32).max(1);
    let mut node = Bytes::new(alloc);
    let mut read: u64 = 0;
    for turn in 0..count {
        let handle = (mixed(turn) % nodes).saturating_add(8);
        heap.read(handle, &mut node)?;
        read = read.saturating_add(1);
    }
    Ok(read)
}

/// Between the numbers of two keys that are removed one after the other. It shares no factor with a power of ten.
const STEP: u64 = 379_009;

/// How many of so many keys in random order are removed.
fn removed<H: Heap>(alloc: Global, heap: &mut H, tree: Tree, count: u64) -> Result<u64, Trouble>
    requires ready { IsTrue (H.is_ready heap.old) }
    requires depth { 1 ≤ length (H.saved heap.old) }
{
    let mut removed: u64 = 0;
    for turn in 0..count {
        let number = turn.wrapping_mul(STEP) % count;
        let key = key_in(false, number);
        if tree.remove(alloc, heap, &key)? {
            removed = removed.saturating_add(1);
        }
    }
    Ok(removed)
}

/// How many of so many keys are removed from a heap that may still be used, 0 where it may not.
fn emptied(alloc: Global, heap: &mut MemHeap, tree: Tree, count: u64) -> u64 {
    if !heap.ready() {
        return 0;
    }
    if heap.depth() == 0 {
        return 0;
    }
    removed(alloc, heap, tree, count).unwrap_or(0)
}

/// The number that the first word says.
fn count_asked(rt: &HostRuntime) -> io::Result<u64> {
    let word = env::args(rt)?.skip(1).next();
    match word {
        Some(word) => Ok(word.as_str().parse::<u64>().unwrap_or(FEW)),
        None => Ok(FEW),
    }
}

/// How many levels a tree of so many pairs has that were set in rising order.
fn levels_of_rising(alloc: Global, count: u64) -> Result<u32, Trouble> {
    let mut heap = begun(alloc)?;
    let tree = filled(alloc, &mut heap, count, true)?;
    tree.depth(alloc, &mut heap)
}

fn main(rt: HostRuntime) -> io::Result<()> {
    let alloc = rt.alloc();
    let count = count_asked(&rt)?;
    let start = Instant::now(&rt)?;
    let of_rising = levels_of_rising(alloc, count).unwrap_or(0);
    let rising = start.elapsed(&rt)?.as_micros();
    let Ok(mut heap) = begun(alloc) else {
        return println!(rt; "no memory");
    };
    let start = Instant::now(&rt)?;
    let Ok(tree) = filled(alloc, &mut heap, count, false) else {
        return println!(rt; "no tree");
    };
    let random = start.elapsed(&rt)?.as_micros();
    let levels = tree.depth(alloc, &mut heap).unwrap_or(0);
    let start = Instant::now(&rt)?;
    let found = found(alloc, &mut heap, tree, count).unwrap_or(0);
    let gets = start.elapsed(&rt)?.as_micros();
    let start = Instant::now(&rt)?;
    let passed = passed(alloc, &mut heap, tree).unwrap_or(0);
    let pass = start.elapsed(&rt)?.as_micros();
    let start = Instant::now(&rt)?;
    let read = read(alloc, &mut heap, count).unwrap_or(0);
    let reads = start.elapsed(&rt)?.as_micros();
    let start = Instant::now(&rt)?;
    let removed = emptied(alloc, &mut heap, tree, count);
    let removes = start.elapsed(&rt)?.as_micros();
    println!(rt;
        "{of_rising} and {levels} levels, {found} found, {passed} passed, {removed} removed, {read} read"
    )?;
    eprintln!(rt; "{rising} {random} {gets} {pass} {removes} {reads} us")
}
