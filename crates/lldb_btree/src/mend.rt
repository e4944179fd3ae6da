//! Storing a child that may have one entry too few, and what this makes of its parent.
ghost use Rattle.std.specs.Prelude.{◌≡◌, ℕ, ◌+◌, ◌<◌, ◌≤◌, true, Bool, List, [], ◌∷◌, ◌++◌, length, map, IsTrue, IfOk, OnOk, IsSomeAnd};
ghost use Rattle.std.specs.List.{AllByRecursion};
ghost use Rattle.lldb_base.specs.Contents.{Contents};
ghost use Rattle.lldb_base.specs.Trouble.{IsCausedTrouble, Refuses};
ghost use Rattle.lldb_btree.specs.Changes.{IsStored};
ghost use Rattle.lldb_btree.specs.Frames.{KeepsLevels};
ghost use Rattle.lldb_btree.specs.Nodes.{Entry, body, child_entry, count, FitsChild};
ghost use Rattle.lldb_btree.specs.Removal.{CanMend, CanMendWith, CanPut, IsBeside, IsPut, either_way};
ghost use Rattle.lldb_btree.specs.Splicing.{AddsNodes, AreNode, IsFullFor};
ghost use Rattle.lldb_btree.specs.Trees.{Part, child_of};
ghost use Rattle.lldb_btree.specs.declared.node.Child as child;
ghost use Rattle.lldb_btree.specs.declared.node.Pair as pair;

use crate::NODE_LIMIT;
use crate::destroy::first_child;
use crate::look::split_head;
use crate::splice::{front_of, joined, skip};
use crate::store::{Stored, store, store_one};
use lldb_base::{Heap, Trouble};
use ql_edge::Bytes;
use std::alloc::Global;

/// How many entries a node has at least that is no root.
const LEAST: usize = NODE_LIMIT / 2;

/// The bytes before the last of so many children, and its handle.
fn last_child(bytes: &[u8], count: usize) -> Option<(&[u8], u64)>
    ensures { (cs : List child.Child) (c : child.Child) → AllByRecursion FitsChild cs → FitsChild c
        → count ≡ length cs + 1 → bytes.now ≡ body (map child_entry (cs ++ (c ∷ [])))
        → IsSomeAnd result (λ r. (r.0.now ≡ body (map child_entry cs)) × (r.1 ≡ c.handle)) }
{
    let last = skip(false, bytes, count.saturating_sub(1))?;
    let (handle, _) = first_child(last)?;
    Some((front_of(bytes, last.len()), handle))
}

/// The child behind a child or, where there is none, the one before it, which is the last of so many; with the bytes of the
/// entries before both and behind both, and whether it is the one behind.
fn neighbour<'a>(
    front: &'a [u8],
    before: usize,
    back: &'a [u8],
) -> Option<(&'a [u8], u64, &'a [u8], bool)>
    ensures { (l r : List Part) → AllByRecursion FitsChild (map child_of l)
        → AllByRecursion FitsChild (map child_of r) → 1 ≤ length l + length r
        → before ≡ length l + length r → front.now ≡ body (map child_entry (map child_of l))
        → back.now ≡ body (map child_entry (map child_of r)) → IsSomeAnd result
        (λ x. IsBeside l r x.0.now x.1 x.2.now x.3) }
{
    let left = back.len();
    if left == 0 {
        let (rest, other) = last_child(front, before)?;
        return Some((rest, other, back, false));
    }
    let (other, rest) = first_child(back)?;
    Some((front, other, rest, true))
}

/// The bytes of two nodes of one kind as those of one, which may have twice as many entries as a node.
fn both(alloc: Global, first: &[u8], second: &[u8]) -> Result<Bytes, Trouble>
    ensures both { (leaf : Bool) (es fs : List Entry) → AreNode leaf es first.now → AreNode leaf fs
        second.now → length es + length fs ≤ 64 → IfOk result
        (λ all. AreNode leaf (es ++ fs) all) }
    ensures refuses { Refuses (λ _ _. ⊥) ((leaf : Bool) (es fs : List Entry) → AreNode leaf es
        first.now → AreNode leaf fs second.now → length es + length fs ≤ 64 → ⊥) result }
    ensures cause { (n : ℕ) → IsCausedTrouble result n n }
{
    let Some((leaf, count, front)) = split_head(first) else {
        return Err(Trouble::Damaged);
    };
    let Some((other, more, back)) = split_head(second) else {
        return Err(Trouble::Damaged);
    };
    if leaf != other {
        return Err(Trouble::Damaged);
    }
    let all = count + more;
    if all > 2 * NODE_LIMIT {
        return Err(Trouble::Damaged);
    }
    Ok(joined(alloc, leaf, all, front, back, &[])?)
}

/// Stores two neighbours together: as one node at the handle of the left one, or as two with half of the entries each. The
/// handle of the right one is removed.
fn mend<H: Heap>(
    alloc: Global,
    heap: &mut H,
    left: u64,
    right: u64,
    first: &[u8],
    second: &[u8],
) -> Result<Stored, Trouble>
    requires ready { IsTrue (H.is_ready heap.old) }
    requires depth { 1 ≤ length (H.saved heap.old) }
    ensures few { IfOk result (λ s. (1 ≤ s.count) × (s.count ≤ 2)) }
    ensures mended { (m : Contents) (d : ℕ) (ps qs : List pair.Pair) (us ts : List ℕ) → CanMend
        (H.map_of heap.old) m d left right first.now second.now ps qs us ts → IfOk result
        (λ s. IsStored (H.map_of heap.new) m d 0 ((left ∷ us) ++ (right ∷ ts)) (ps ++ qs) s.count
        s.entries) }
    ensures ready { OnOk result (H.is_ready heap.new ≡ true) }
    ensures refuses { Refuses (IsFullFor (H.limit_of heap.old) (H.size_of heap.new))
        ((m : Contents) (d : ℕ) (ps qs : List pair.Pair) (us ts : List ℕ) → CanMend
        (H.map_of heap.old) m d left right first.now second.now ps qs us ts → ⊥) result }
    ensures grows { AddsNodes 2 (H.size_of heap.old) (H.size_of heap.new) }
    ensures reads { H.reads_of heap.new ≡ H.reads_of heap.old }
    ensures frame { KeepsLevels H.saved H.saved_sizes H.limit_of H.is_sound H.told H.left H.fixed
        heap.old heap.new }
    ensures cause { IsCausedTrouble result (H.faults heap.old) (H.faults heap.new) }
{
    let all = both(alloc, first, second)?;
    heap.remove(right)?;
    store(alloc, heap, left, all.as_slice(), &[], false)
}

/// The same of a child and its neighbour, which is behind it or before it.
fn mend_with<H: Heap>(
    alloc: Global,
    heap: &mut H,
    child: u64,
    other: u64,
    node: &[u8],
    next: &[u8],
    behind: bool,
) -> Result<Stored, Trouble>
    requires ready { IsTrue (H.is_ready heap.old) }
    requires depth { 1 ≤ length (H.saved heap.old) }
    ensures few { IfOk result (λ s. (1 ≤ s.count) × (s.count ≤ 2)) }
    ensures mended { (m : Contents) (d : ℕ) (ps qs : List pair.Pair) (us ts : List ℕ) → CanMendWith
        behind (H.map_of heap.old) m d child other node.now next.now ps qs us ts → IfOk result
        (λ s. IsStored (H.map_of heap.new) m d 0 (either_way behind (child ∷ us) (other ∷ ts))
        (either_way behind ps qs) s.count s.entries) }
    ensures ready { OnOk result (H.is_ready heap.new ≡ true) }
    ensures refuses { Refuses (IsFullFor (H.limit_of heap.old) (H.size_of heap.new))
        ((m : Contents) (d : ℕ) (ps qs : List pair.Pair) (us ts : List ℕ) → CanMendWith behind
        (H.map_of heap.old) m d child other node.now next.now ps qs us ts → ⊥) result }
    ensures grows { AddsNodes 2 (H.size_of heap.old) (H.size_of heap.new) }
    ensures reads { H.reads_of heap.new ≡ H.reads_of heap.old }
    ensures frame { KeepsLevels H.saved H.saved_sizes H.limit_of H.is_sound H.told H.left H.fixed
        heap.old heap.new }
    ensures cause { IsCausedTrouble result (H.faults heap.old) (H.faults heap.new) }
{
    if behind {
        mend(alloc, heap, child, other, node, next)
    } else {
        mend(alloc, heap, other, child, next, node)
    }
}

/// Stores a child with too few entries together with its neighbour, which is read.
fn refill<H: Heap>(
    alloc: Global,
    heap: &mut H,
    many: usize,
    front: &[u8],
    child: u64,
    node: &[u8],
    back: &[u8],
) -> Result<Bytes, Trouble>
    requires ready { IsTrue (H.is_ready heap.old) }
    requires depth { 1 ≤ length (H.saved heap.old) }
    requires some { 2 ≤ many }
    requires few { many ≤ 32 }
    ensures put { (m : Contents) (d : ℕ) (before : List ℕ) (pairs : List pair.Pair) → CanPut
        (H.map_of heap.old) m d many child front.now node.now back.now before pairs → IfOk result
        (λ all. IsPut (H.map_of heap.new) m d many before pairs all) }
    ensures ready { OnOk result (H.is_ready heap.new ≡ true) }
    ensures refuses { Refuses (IsFullFor (H.limit_of heap.old) (H.size_of heap.new))
        ((m : Contents) (d : ℕ) (before : List ℕ) (pairs : List pair.Pair) → CanPut
        (H.map_of heap.old) m d many child front.now node.now back.now before pairs → ⊥) result }
    ensures grows { AddsNodes 2 (H.size_of heap.old) (H.size_of heap.new) }
    ensures reads { H.reads_of heap.new ≤ H.reads_of heap.old + 1 }
    ensures frame { KeepsLevels H.saved H.saved_sizes H.limit_of H.is_sound H.told H.left H.fixed
        heap.old heap.new }
    ensures cause { IsCausedTrouble result (H.faults heap.old) (H.faults heap.new) }
{
    let Some((front, other, back, behind)) = neighbour(front, many - 1, back) else {
        return Err(Trouble::Damaged);
    };
    let mut next = Bytes::new(alloc);
    heap.read(other, &mut next)?;
    let stored = mend_with(alloc, heap, child, other, node, next.as_slice(), behind)?;
    let all = joined(
        alloc,
        false,
        many + stored.count - 2,
        front,
        stored.entries.as_slice(),
        back,
    )?;
    Ok(all)
}

/// Stores a child that has entries enough.
fn keep<H: Heap>(
    alloc: Global,
    heap: &mut H,
    many: usize,
    front: &[u8],
    child: u64,
    node: &[u8],
    back: &[u8],
) -> Result<Bytes, Trouble>
    requires ready { IsTrue (H.is_ready heap.old) }
    requires depth { 1 ≤ length (H.saved heap.old) }
    requires few { many ≤ 32 }
    ensures put { (m : Contents) (d : ℕ) (before : List ℕ) (pairs : List pair.Pair) → (c : CanPut
        (H.map_of heap.old) m d many child front.now node.now back.now before pairs) → 16
        ≤ count c.loose.node → IfOk result (λ all. IsPut (H.map_of heap.new) m d many before pairs
        all) }
    ensures ready { OnOk result (H.is_ready heap.new ≡ true) }
    ensures refuses { Refuses (IsFullFor (H.limit_of heap.old) (H.size_of heap.new))
        ((m : Contents) (d : ℕ) (before : List ℕ) (pairs : List pair.Pair) → (c : CanPut
        (H.map_of heap.old) m d many child front.now node.now back.now before pairs) → 16
        ≤ count c.loose.node → ⊥) result }
    ensures grows { AddsNodes 1 (H.size_of heap.old) (H.size_of heap.new) }
    ensures reads { H.reads_of heap.new ≡ H.reads_of heap.old }
    ensures frame { KeepsLevels H.saved H.saved_sizes H.limit_of H.is_sound H.told H.left H.fixed
        heap.old heap.new }
    ensures cause { IsCausedTrouble result (H.faults heap.old) (H.faults heap.new) }
{
    let stored = store_one(alloc, heap, child, node, &[], false)?;
    let all = joined(alloc, false, many, front, stored.entries.as_slice(), back)?;
    Ok(all)
}

/// Stores the bytes of a child, and answers those of its parent: the entries of so many children, those before the child and
/// those behind it. A child with one entry too few shares with its neighbour, which is read, or becomes one node with it.
pub(crate) fn put_back<H: Heap>(
    alloc: Global,
    heap: &mut H,
    many: usize,
    front: &[u8],
    child: u64,
    node: &[u8],
    back: &[u8],
) -> Result<Bytes, Trouble>
    requires ready { IsTrue (H.is_ready heap.old) }
    requires depth { 1 ≤ length (H.saved heap.old) }
    requires some { 2 ≤ many }
    requires few { many ≤ 32 }
    ensures put { (m : Contents) (d : ℕ) (before : List ℕ) (pairs : List pair.Pair) → CanPut
        (H.map_of heap.old) m d many child front.now node.now back.now before pairs → IfOk result
        (λ all. IsPut (H.map_of heap.new) m d many before pairs all) }
    ensures ready { OnOk result (H.is_ready heap.new ≡ true) }
    ensures refuses { Refuses (IsFullFor (H.limit_of heap.old) (H.size_of heap.new))
        ((m : Contents) (d : ℕ) (before : List ℕ) (pairs : List pair.Pair) → CanPut
        (H.map_of heap.old) m d many child front.now node.now back.now before pairs → ⊥) result }
    ensures grows { AddsNodes 2 (H.size_of heap.old) (H.size_of heap.new) }
    ensures reads { H.reads_of heap.new ≤ H.reads_of heap.old + 1 }
    ensures frame { KeepsLevels H.saved H.saved_sizes H.limit_of H.is_sound H.told H.left H.fixed
        heap.old heap.new }
    ensures cause { IsCausedTrouble result (H.faults heap.old) (H.faults heap.new) }
{
    let Some((_, entries, _)) = split_head(node) else {
        return Err(Trouble::Damaged);
    };
    if entries < LEAST {
        refill(alloc, heap, many, front, child, node, back)
    } else {
        keep(alloc, heap, many, front, child, node, back)
    }
}
