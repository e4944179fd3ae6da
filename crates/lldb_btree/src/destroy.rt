//! Removing all nodes under a handle.
ghost use Rattle.std.specs.Prelude.{◌≡◌, ℕ, ◌+◌, ◌<◌, ◌≤◌, true, List, ◌++◌, length, IsTrue, OnOk, IsSomeAnd};
ghost use Rattle.lldb_base.specs.Contents.{Contents};
ghost use Rattle.lldb_base.specs.Trouble.{IsCausedTrouble, Refuses};
ghost use Rattle.lldb_btree.specs.Changes.{CanEdit, CanClear};
ghost use Rattle.lldb_btree.specs.Frames.{KeepsLevels};
ghost use Rattle.lldb_btree.specs.Nodes.{child_entry, entry_bytes, FitsChild};
ghost use Rattle.lldb_btree.specs.Trees.{Part, IsCleared, footprint_of};
ghost use Rattle.lldb_btree.specs.declared.node.Child as child;

use crate::entry::split_entry;
use crate::look::{handle_in, split_head};
use lldb_base::{Heap, Trouble};
use ql_edge::Bytes;
use std::alloc::Global;

/// The handle of the first child, and what follows its entry.
pub(crate) fn first_child(bytes: &[u8]) -> Option<(u64, &[u8])>
    ensures { (c : child.Child) (more : List ℕ) → FitsChild c → bytes.now
        ≡ entry_bytes (child_entry c) ++ more → IsSomeAnd result
        (λ r. (r.0 ≡ c.handle) × (r.1.now ≡ more)) }
{
    let (_, tail, rest) = split_entry(false, bytes)?;
    let handle = handle_in(tail)?;
    Some((handle, rest))
}

/// Removes the node at a handle and all below it, with room for so many levels. It reads each node once.
#[cycle(clear)]
pub(crate) fn clear_node<H: Heap>(
    alloc: Global,
    heap: &mut H,
    handle: u64,
    room: u32,
) -> Result<(), Trouble>
    requires ready { IsTrue (H.is_ready heap.old) }
    requires depth { 1 ≤ length (H.saved heap.old) }
    ensures cleared { (m : Contents) (d least : ℕ) (p : Part) → CanEdit (H.map_of heap.old) m d
        least p handle room → OnOk result (IsCleared (H.map_of heap.new) m p.footprint) }
    ensures ready { OnOk result (H.is_ready heap.new ≡ true) }
    ensures refuses { Refuses (λ _ _. ⊥) ((m : Contents) (d least : ℕ) (p : Part) → CanEdit
        (H.map_of heap.old) m d least p handle room → ⊥) result }
    ensures shrinks { H.size_of heap.new ≤ H.size_of heap.old }
    ensures reads { (m : Contents) (d least : ℕ) (p : Part) → CanEdit (H.map_of heap.old) m d least
        p handle room → H.reads_of heap.new ≤ H.reads_of heap.old + length p.footprint }
    ensures frame { KeepsLevels H.saved H.saved_sizes H.limit_of H.is_sound H.told H.left H.fixed
        heap.old heap.new }
    ensures cause { IsCausedTrouble result (H.faults heap.old) (H.faults heap.new) }
{
    if room == 0 {
        return Err(Trouble::Damaged);
    }
    let mut node = Bytes::new(alloc);
    heap.read(handle, &mut node)?;
    let Some((leaf, count, bytes)) = split_head(node.as_slice()) else {
        return Err(Trouble::Damaged);
    };
    if leaf {
        return heap.remove(handle);
    }
    clear_children(alloc, heap, bytes, count, room - 1)?;
    heap.remove(handle)
}

/// Removes the nodes that the first of so many children name, and all below them, with room for so many levels.
#[cycle(clear)]
fn clear_children<H: Heap>(
    alloc: Global,
    heap: &mut H,
    bytes: &[u8],
    count: usize,
    room: u32,
) -> Result<(), Trouble>
    requires ready { IsTrue (H.is_ready heap.old) }
    requires depth { 1 ≤ length (H.saved heap.old) }
    requires few { count < 256 }
    ensures cleared { (m : Contents) (d : ℕ) (parts : List Part) → CanClear (H.map_of heap.old) m d
        parts bytes.now count room → OnOk result (IsCleared (H.map_of heap.new) m
        (footprint_of parts)) }
    ensures ready { OnOk result (H.is_ready heap.new ≡ true) }
    ensures refuses { Refuses (λ _ _. ⊥) ((m : Contents) (d : ℕ) (parts : List Part) → CanClear
        (H.map_of heap.old) m d parts bytes.now count room → ⊥) result }
    ensures shrinks { H.size_of heap.new ≤ H.size_of heap.old }
    ensures reads { (m : Contents) (d : ℕ) (parts : List Part) → CanClear (H.map_of heap.old) m d
        parts bytes.now count room → H.reads_of heap.new
        ≤ H.reads_of heap.old + length (footprint_of parts) }
    ensures frame { KeepsLevels H.saved H.saved_sizes H.limit_of H.is_sound H.told H.left H.fixed
        heap.old heap.new }
    ensures cause { IsCausedTrouble result (H.faults heap.old) (H.faults heap.new) }
{
    if count == 0 {
        return Ok(());
    }
    let Some((handle, rest)) = first_child(bytes) else {
        return Err(Trouble::Damaged);
    };
    clear_node(alloc, heap, handle, room)?;
    clear_children(alloc, heap, rest, count - 1, room)
}
