//! Storing the bytes of nodes.
ghost use Rattle.std.specs.Prelude.{◌≡◌, ℕ, ◌+◌, ◌^◌, ◌<◌, ◌≤◌, true, List, [], ◌∷◌, length, Some, None, IsTrue, IfOk, OnOk, IfSome};
ghost use Rattle.lldb_base.specs.Contents.{Contents, content_of, with_content};
ghost use Rattle.lldb_base.specs.Heaps.{MayBeDead};
ghost use Rattle.lldb_base.specs.Trouble.{IsCausedTrouble, Refuses};
ghost use Rattle.lldb_btree.specs.Changes.{CanStore, IsStored, CanRoot};
ghost use Rattle.lldb_btree.specs.Frames.{KeepsLevels};
ghost use Rattle.lldb_btree.specs.Nodes.{count};
ghost use Rattle.lldb_btree.specs.Splicing.{AddsNodes, IsFullFor};
ghost use Rattle.lldb_btree.specs.Trees.{HoldsTree, greatest};
ghost use Rattle.lldb_btree.specs.declared.node.Pair as pair;

use crate::NODE_LIMIT;
use crate::look::split_head;
use crate::splice::{cut_node, push_last, spelled, two_children};
use lldb_base::{Heap, Trouble};
use ql_edge::Bytes;
use std::alloc::Global;

/// How many bytes a node has at most: 32 entries of a key of 1,100 bytes and a value of 16, behind two bytes.
const NODE_BYTES: usize = 35_810;

/// How much room there is at first for the entry of a child: most keys are short.
const ENTRY_ROOM: usize = 64;

/// Children that took the place of one: how many, and their entries.
#[derive(Drop)]
pub(crate) struct Stored {
    pub(crate) count: usize,
    pub(crate) entries: Bytes,
}

/// Gives a handle the bytes of a node.
pub(crate) fn save<H: Heap>(heap: &mut H, handle: u64, node: &[u8]) -> Result<(), Trouble>
    requires ready { IsTrue (H.is_ready heap.old) }
    requires depth { 1 ≤ length (H.saved heap.old) }
    ensures put { OnOk result (IfSome (H.map_of heap.old) (λ map. IfSome (content_of handle map)
        (λ _. H.map_of heap.new ≡ Some (with_content handle node.now map)))) }
    ensures ready { OnOk result (H.is_ready heap.new ≡ true) }
    ensures refuses { Refuses (IsFullFor (H.limit_of heap.old) (H.size_of heap.new))
        (length node.now ≤ 35810 → MayBeDead handle (H.map_of heap.old)) result }
    ensures grows { AddsNodes 1 (H.size_of heap.old) (H.size_of heap.new) }
    ensures reads { H.reads_of heap.new ≡ H.reads_of heap.old }
    ensures frame { KeepsLevels H.saved H.saved_sizes H.limit_of H.is_sound H.told H.left H.fixed
        heap.old heap.new }
    ensures cause { IsCausedTrouble result (H.faults heap.old) (H.faults heap.new) }
{
    let len = node.len();
    if len > NODE_BYTES {
        return Err(Trouble::Damaged);
    }
    heap.replace(handle, node)
}

/// A new handle with the bytes of a node.
fn make<H: Heap>(heap: &mut H, node: &[u8]) -> Result<u64, Trouble>
    requires ready { IsTrue (H.is_ready heap.old) }
    requires depth { 1 ≤ length (H.saved heap.old) }
    ensures range { IfOk result (λ handle. handle < 2 ^ 64) }
    ensures fresh { IfOk result (λ handle. IfSome (H.map_of heap.old)
        (λ map. content_of handle map ≡ None)) }
    ensures created { IfOk result (λ handle. IfSome (H.map_of heap.old)
        (λ map. H.map_of heap.new ≡ Some (with_content handle node.now map))) }
    ensures ready { OnOk result (H.is_ready heap.new ≡ true) }
    ensures refuses { Refuses (IsFullFor (H.limit_of heap.old) (H.size_of heap.new))
        (length node.now ≤ 35810 → H.map_of heap.old ≡ None) result }
    ensures grows { AddsNodes 1 (H.size_of heap.old) (H.size_of heap.new) }
    ensures reads { H.reads_of heap.new ≡ H.reads_of heap.old }
    ensures frame { KeepsLevels H.saved H.saved_sizes H.limit_of H.is_sound H.told H.left H.fixed
        heap.old heap.new }
    ensures cause { IsCausedTrouble result (H.faults heap.old) (H.faults heap.new) }
{
    let len = node.len();
    if len > NODE_BYTES {
        return Err(Trouble::Damaged);
    }
    heap.create(node)
}

/// Stores the bytes of a node with too many entries as two nodes, the first of them at its handle.
fn store_two<H: Heap>(
    alloc: Global,
    heap: &mut H,
    handle: u64,
    node: &[u8],
) -> Result<Stored, Trouble>
    requires ready { IsTrue (H.is_ready heap.old) }
    requires depth { 1 ≤ length (H.saved heap.old) }
    ensures few { IfOk result (λ s. (1 ≤ s.count) × (s.count ≤ 2)) }
    ensures stored { (m : Contents) (d : ℕ) (pairs : List pair.Pair) (under : List ℕ) → (c : CanStore
        (H.map_of heap.old) m d handle node.now pairs under) → 33 ≤ count c.node → IfOk result
        (λ s. IsStored (H.map_of heap.new) m d 1 (handle ∷ under) pairs s.count s.entries) }
    ensures ready { OnOk result (H.is_ready heap.new ≡ true) }
    ensures refuses { Refuses (IsFullFor (H.limit_of heap.old) (H.size_of heap.new))
        ((m : Contents) (d : ℕ) (pairs : List pair.Pair) (under : List ℕ) → (c : CanStore
        (H.map_of heap.old) m d handle node.now pairs under) → 33 ≤ count c.node → ⊥) result }
    ensures grows { AddsNodes 2 (H.size_of heap.old) (H.size_of heap.new) }
    ensures reads { H.reads_of heap.new ≡ H.reads_of heap.old }
    ensures frame { KeepsLevels H.saved H.saved_sizes H.limit_of H.is_sound H.told H.left H.fixed
        heap.old heap.new }
    ensures cause { IsCausedTrouble result (H.faults heap.old) (H.faults heap.new) }
{
    let cut = cut_node(alloc, node)?;
    let front = cut.front.as_slice();
    let back = cut.back.as_slice();
    save(heap, handle, front)?;
    let more = make(heap, back)?;
    let entries = two_children(alloc, front, handle, back, more)?;
    Ok(Stored { count: 2, entries })
}

/// Stores the bytes of a node at its handle. `ends` says that a key is the last one of the node.
pub(crate) fn store_one<H: Heap>(
    alloc: Global,
    heap: &mut H,
    handle: u64,
    node: &[u8],
    key: &[u8],
    ends: bool,
) -> Result<Stored, Trouble>
    requires ready { IsTrue (H.is_ready heap.old) }
    requires depth { 1 ≤ length (H.saved heap.old) }
    requires key { length key.now ≤ 1100 }
    ensures one { IfOk result (λ s. s.count ≡ 1) }
    ensures stored { (m : Contents) (d : ℕ) (pairs : List pair.Pair) (under : List ℕ) → (c : CanStore
        (H.map_of heap.old) m d handle node.now pairs under) → count c.node ≤ 32
        → (ends ≡ true → key.now ≡ greatest pairs) → IfOk result
        (λ s. IsStored (H.map_of heap.new) m d 0 (handle ∷ under) pairs s.count s.entries) }
    ensures ready { OnOk result (H.is_ready heap.new ≡ true) }
    ensures refuses { Refuses (IsFullFor (H.limit_of heap.old) (H.size_of heap.new))
        ((m : Contents) (d : ℕ) (pairs : List pair.Pair) (under : List ℕ) → (c : CanStore
        (H.map_of heap.old) m d handle node.now pairs under) → count c.node ≤ 32 → ⊥) result }
    ensures grows { AddsNodes 1 (H.size_of heap.old) (H.size_of heap.new) }
    ensures reads { H.reads_of heap.new ≡ H.reads_of heap.old }
    ensures frame { KeepsLevels H.saved H.saved_sizes H.limit_of H.is_sound H.told H.left H.fixed
        heap.old heap.new }
    ensures cause { IsCausedTrouble result (H.faults heap.old) (H.faults heap.new) }
{
    let mut entries = Bytes::with_capacity(alloc, ENTRY_ROOM)?;
    save(heap, handle, node)?;
    push_last(&mut entries, node, handle, key, ends)?;
    Ok(Stored { count: 1, entries })
}

/// Stores the bytes of a node at its handle, and what is too much at a new one. `ends` says that a key is the last one of the
/// node.
pub(crate) fn store<H: Heap>(
    alloc: Global,
    heap: &mut H,
    handle: u64,
    node: &[u8],
    key: &[u8],
    ends: bool,
) -> Result<Stored, Trouble>
    requires ready { IsTrue (H.is_ready heap.old) }
    requires depth { 1 ≤ length (H.saved heap.old) }
    requires key { length key.now ≤ 1100 }
    ensures few { IfOk result (λ s. (1 ≤ s.count) × (s.count ≤ 2)) }
    ensures stored { (m : Contents) (d : ℕ) (pairs : List pair.Pair) (under : List ℕ) → CanStore
        (H.map_of heap.old) m d handle node.now pairs under
        → (ends ≡ true → key.now ≡ greatest pairs) → IfOk result
        (λ s. IsStored (H.map_of heap.new) m d 1 (handle ∷ under) pairs s.count s.entries) }
    ensures ready { OnOk result (H.is_ready heap.new ≡ true) }
    ensures refuses { Refuses (IsFullFor (H.limit_of heap.old) (H.size_of heap.new))
        ((m : Contents) (d : ℕ) (pairs : List pair.Pair) (under : List ℕ) → CanStore
        (H.map_of heap.old) m d handle node.now pairs under → ⊥) result }
    ensures grows { AddsNodes 2 (H.size_of heap.old) (H.size_of heap.new) }
    ensures reads { H.reads_of heap.new ≡ H.reads_of heap.old }
    ensures frame { KeepsLevels H.saved H.saved_sizes H.limit_of H.is_sound H.told H.left H.fixed
        heap.old heap.new }
    ensures cause { IsCausedTrouble result (H.faults heap.old) (H.faults heap.new) }
{
    let Some((_, count, _)) = split_head(node) else {
        return Err(Trouble::Damaged);
    };
    if count > NODE_LIMIT {
        store_two(alloc, heap, handle, node)
    } else {
        store_one(alloc, heap, handle, node, key, ends)
    }
}

/// Makes a root of the bytes of a node with one entry too many: an inner node over two new ones, at the root's handle.
fn save_two<H: Heap>(alloc: Global, heap: &mut H, handle: u64, node: &[u8]) -> Result<(), Trouble>
    requires ready { IsTrue (H.is_ready heap.old) }
    requires depth { 1 ≤ length (H.saved heap.old) }
    ensures rooted { (old m : Contents) (d : ℕ) (before : List ℕ) (pairs : List pair.Pair)
        → (c : CanRoot (H.map_of heap.old) old m d handle before node.now pairs) → 33
        ≤ count c.node → OnOk result (HoldsTree (H.map_of heap.new) old handle (d + 1) before
        pairs) }
    ensures ready { OnOk result (H.is_ready heap.new ≡ true) }
    ensures refuses { Refuses (IsFullFor (H.limit_of heap.old) (H.size_of heap.new))
        ((old m : Contents) (d : ℕ) (before : List ℕ) (pairs : List pair.Pair) → (c : CanRoot
        (H.map_of heap.old) old m d handle before node.now pairs) → 33 ≤ count c.node → ⊥) result }
    ensures grows { AddsNodes 3 (H.size_of heap.old) (H.size_of heap.new) }
    ensures reads { H.reads_of heap.new ≡ H.reads_of heap.old }
    ensures frame { KeepsLevels H.saved H.saved_sizes H.limit_of H.is_sound H.told H.left H.fixed
        heap.old heap.new }
    ensures cause { IsCausedTrouble result (H.faults heap.old) (H.faults heap.new) }
{
    let cut = cut_node(alloc, node)?;
    let front = cut.front.as_slice();
    let back = cut.back.as_slice();
    let first = make(heap, front)?;
    let second = make(heap, back)?;
    let children = two_children(alloc, front, first, back, second)?;
    let root = spelled(alloc, false, 2, children.as_slice())?;
    save(heap, handle, root.as_slice())
}

/// Stores the bytes of a root at its handle. Where it has too many entries, it becomes an inner node over two new ones.
pub(crate) fn save_root<H: Heap>(
    alloc: Global,
    heap: &mut H,
    handle: u64,
    node: &[u8],
) -> Result<(), Trouble>
    requires ready { IsTrue (H.is_ready heap.old) }
    requires depth { 1 ≤ length (H.saved heap.old) }
    ensures rooted { (old m : Contents) (d : ℕ) (before : List ℕ) (pairs : List pair.Pair) → CanRoot
        (H.map_of heap.old) old m d handle before node.now pairs → OnOk result (HoldsTree
        (H.map_of heap.new) old handle (d + 1) before pairs) }
    ensures ready { OnOk result (H.is_ready heap.new ≡ true) }
    ensures refuses { Refuses (IsFullFor (H.limit_of heap.old) (H.size_of heap.new))
        ((old m : Contents) (d : ℕ) (before : List ℕ) (pairs : List pair.Pair) → CanRoot
        (H.map_of heap.old) old m d handle before node.now pairs → ⊥) result }
    ensures grows { AddsNodes 3 (H.size_of heap.old) (H.size_of heap.new) }
    ensures reads { H.reads_of heap.new ≡ H.reads_of heap.old }
    ensures frame { KeepsLevels H.saved H.saved_sizes H.limit_of H.is_sound H.told H.left H.fixed
        heap.old heap.new }
    ensures cause { IsCausedTrouble result (H.faults heap.old) (H.faults heap.new) }
{
    let Some((_, count, _)) = split_head(node) else {
        return Err(Trouble::Damaged);
    };
    if count > NODE_LIMIT {
        save_two(alloc, heap, handle, node)
    } else {
        save(heap, handle, node)
    }
}
