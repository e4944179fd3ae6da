//! Storing a root from below which a key was removed.
ghost use Rattle.std.specs.Prelude.{◌≡◌, ℕ, ◌+◌, ◌≤◌, true, List, [], ◌∷◌, length, Some, None, IsTrue, OnOk};
ghost use Rattle.lldb_base.specs.Contents.{Contents};
ghost use Rattle.lldb_base.specs.Trouble.{IsCausedTrouble, Refuses};
ghost use Rattle.lldb_btree.specs.Frames.{KeepsLevels};
ghost use Rattle.lldb_btree.specs.Nodes.{spelling, FitsChild};
ghost use Rattle.lldb_btree.specs.Removal.{CanLower, HoldsLess};
ghost use Rattle.lldb_btree.specs.Splicing.{AddsNodes, IsFullFor};
ghost use Rattle.lldb_btree.specs.declared.node.Child as child;
ghost use Rattle.lldb_btree.specs.declared.node.Node as node;
ghost use Rattle.lldb_btree.specs.declared.node.Pair as pair;

use crate::destroy::first_child;
use crate::look::split_head;
use crate::store::save;
use lldb_base::{Heap, Trouble};
use ql_edge::Bytes;
use std::alloc::Global;

/// The child of an inner node that has no other one.
fn only_child(bytes: &[u8]) -> Option<u64>
    ensures only { (c : child.Child) → FitsChild c → bytes.now ≡ spelling (node.Node.Inner (c ∷ []))
        → result ≡ Some c.handle }
    ensures leaf { (pairs : List pair.Pair) → bytes.now ≡ spelling (node.Node.Leaf pairs) → result
        ≡ None }
    ensures many { (children : List child.Child) → 2 ≤ length children → bytes.now ≡ spelling
        (node.Node.Inner children) → result ≡ None }
{
    let (leaf, count, entries) = split_head(bytes)?;
    if leaf {
        return None;
    }
    if count != 1 {
        return None;
    }
    let (handle, _) = first_child(entries)?;
    Some(handle)
}

/// Gives a root's handle the bytes of its only child, whose handle is removed.
fn replace_root<H: Heap>(alloc: Global, heap: &mut H, handle: u64, only: u64) -> Result<(), Trouble>
    requires ready { IsTrue (H.is_ready heap.old) }
    requires depth { 1 ≤ length (H.saved heap.old) }
    ensures lowered { (old m : Contents) (d : ℕ) (before bytes : List ℕ) (pairs : List pair.Pair)
        (x : child.Child) → (c : CanLower (H.map_of heap.old) old m d handle before bytes pairs)
        → c.node ≡ node.Node.Inner (x ∷ []) → only ≡ x.handle → OnOk result (HoldsLess
        (H.map_of heap.new) old handle (d + 1) before pairs) }
    ensures ready { OnOk result (H.is_ready heap.new ≡ true) }
    ensures refuses { Refuses (IsFullFor (H.limit_of heap.old) (H.size_of heap.new))
        ((old m : Contents) (d : ℕ) (before bytes : List ℕ) (pairs : List pair.Pair)
        (x : child.Child) → (c : CanLower (H.map_of heap.old) old m d handle before bytes pairs)
        → c.node ≡ node.Node.Inner (x ∷ []) → only ≡ x.handle → ⊥) result }
    ensures grows { AddsNodes 1 (H.size_of heap.old) (H.size_of heap.new) }
    ensures reads { H.reads_of heap.new ≤ H.reads_of heap.old + 1 }
    ensures frame { KeepsLevels H.saved H.saved_sizes H.limit_of H.is_sound H.told H.left H.fixed
        heap.old heap.new }
    ensures cause { IsCausedTrouble result (H.faults heap.old) (H.faults heap.new) }
{
    let mut node = Bytes::new(alloc);
    heap.read(only, &mut node)?;
    heap.remove(only)?;
    save(heap, handle, node.as_slice())
}

/// Stores the bytes of a root from below which a key was removed. Where it has one child left, that takes its place, which is
/// read.
pub(crate) fn lower_root<H: Heap>(
    alloc: Global,
    heap: &mut H,
    handle: u64,
    node: &[u8],
) -> Result<(), Trouble>
    requires ready { IsTrue (H.is_ready heap.old) }
    requires depth { 1 ≤ length (H.saved heap.old) }
    ensures lowered { (old m : Contents) (d : ℕ) (before : List ℕ) (pairs : List pair.Pair)
        → CanLower (H.map_of heap.old) old m d handle before node.now pairs → OnOk result (HoldsLess
        (H.map_of heap.new) old handle (d + 1) before pairs) }
    ensures ready { OnOk result (H.is_ready heap.new ≡ true) }
    ensures refuses { Refuses (IsFullFor (H.limit_of heap.old) (H.size_of heap.new))
        ((old m : Contents) (d : ℕ) (before : List ℕ) (pairs : List pair.Pair) → CanLower
        (H.map_of heap.old) old m d handle before node.now pairs → ⊥) result }
    ensures grows { AddsNodes 1 (H.size_of heap.old) (H.size_of heap.new) }
    ensures reads { H.reads_of heap.new ≤ H.reads_of heap.old + 1 }
    ensures frame { KeepsLevels H.saved H.saved_sizes H.limit_of H.is_sound H.told H.left H.fixed
        heap.old heap.new }
    ensures cause { IsCausedTrouble result (H.faults heap.old) (H.faults heap.new) }
{
    match only_child(node) {
        Some(only) => replace_root(alloc, heap, handle, only),
        None => save(heap, handle, node),
    }
}
