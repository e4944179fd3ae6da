//! A way down a tree.
ghost use Rattle.std.specs.Prelude.{◌≡◌, ℕ, ◌+◌, ◌≤◌, List, IsTrue, IfOk};
ghost use Rattle.lldb_base.specs.Contents.{Contents};
ghost use Rattle.lldb_base.specs.Trouble.{IsCausedTrouble, Refuses};
ghost use Rattle.lldb_btree.specs.Bounds.{is_ahead};
ghost use Rattle.lldb_btree.specs.Frames.{KeepsContents, KeepsLevels};
ghost use Rattle.lldb_btree.specs.Pairs.{first};
ghost use Rattle.lldb_btree.specs.Reading.{trouble_of};
ghost use Rattle.lldb_btree.specs.Trees.{Part, CanWalk, IsTold, MayBeNoTree};
ghost use Rattle.lldb_btree.specs.declared.node.Pair as pair;

use crate::look::{Found, look};
use crate::{Bound, NodeFault, Pair};
use lldb_base::{Heap, Trouble};
use ql_edge::Bytes;
use std::alloc::Global;

/// How many levels a tree has at most: more would want more handles than there are.
pub(crate) const LEVELS: u32 = 17;

/// What a fault of a node is to whoever reads a tree.
fn trouble_of(fault: NodeFault) -> Trouble
    ensures { result ≡ trouble_of fault }
{
    Trouble::from(fault)
}

/// The first pair ahead of a bound under a handle, with room for so many levels. It reads one node a level, each into the same
/// buffer.
pub(crate) fn first_pair<H: Heap>(
    alloc: Global,
    heap: &mut H,
    handle: u64,
    room: u32,
    bound: &Bound,
    node: &mut Bytes,
) -> Result<Option<Pair>, Trouble>
    requires { IsTrue (H.is_ready heap.old) }
    ensures found { (m : Contents) (d least : ℕ) (p : Part) → CanWalk (H.map_of heap.old) m d least
        p handle room → IfOk result (λ found. found ≡ first (is_ahead bound.now) p.pairs) }
    ensures refuses { Refuses (λ _ _. ⊥) ((m : Contents) (d least : ℕ) (p : Part) → CanWalk
        (H.map_of heap.old) m d least p handle room → ⊥) result }
    ensures reads { (m : Contents) (d least : ℕ) (p : Part) → CanWalk (H.map_of heap.old) m d least
        p handle room → H.reads_of heap.new ≤ H.reads_of heap.old + (d + 1) }
    ensures contents { KeepsContents H.map_of H.size_of H.most_free H.is_ready heap.old heap.new }
    ensures frame { KeepsLevels H.saved H.saved_sizes H.limit_of H.is_sound H.told H.left H.fixed
        heap.old heap.new }
    ensures cause { IsCausedTrouble result (H.faults heap.old) (H.faults heap.new) }
{
    if room == 0 {
        return Err(Trouble::Damaged);
    }
    heap.read(handle, node)?;
    let found = match look(alloc, node.as_slice(), bound) {
        Ok(found) => found,
        Err(fault) => return Err(trouble_of(fault)),
    };
    match found {
        Found::Down(child) => first_pair(alloc, heap, child, room - 1, bound, node),
        Found::Here(answer) => Ok(answer),
    }
}

/// The first pair ahead of a bound in the tree at a handle. It reads one node a level.
pub(crate) fn first_of_tree<H: Heap>(
    alloc: Global,
    heap: &mut H,
    handle: u64,
    bound: &Bound,
) -> Result<Option<Pair>, Trouble>
    requires { IsTrue (H.is_ready heap.old) }
    ensures found { (levels : ℕ) (pairs : List pair.Pair) (footprint : List ℕ) → IsTold
        (H.map_of heap.old) handle levels pairs footprint → IfOk result
        (λ found. found ≡ first (is_ahead bound.now) pairs) }
    ensures refuses { Refuses (λ _ _. ⊥) (MayBeNoTree handle (H.map_of heap.old)) result }
    ensures reads { (levels : ℕ) (pairs : List pair.Pair) (footprint : List ℕ) → IsTold
        (H.map_of heap.old) handle levels pairs footprint → H.reads_of heap.new
        ≤ H.reads_of heap.old + levels }
    ensures contents { KeepsContents H.map_of H.size_of H.most_free H.is_ready heap.old heap.new }
    ensures frame { KeepsLevels H.saved H.saved_sizes H.limit_of H.is_sound H.told H.left H.fixed
        heap.old heap.new }
    ensures cause { IsCausedTrouble result (H.faults heap.old) (H.faults heap.new) }
{
    let mut node = Bytes::new(alloc);
    first_pair(alloc, heap, handle, LEVELS, bound, &mut node)
}

/// How many levels are under a handle, with room for so many. It reads one node a level.
pub(crate) fn levels_under<H: Heap>(
    alloc: Global,
    heap: &mut H,
    handle: u64,
    room: u32,
) -> Result<u32, Trouble>
    requires ready { IsTrue (H.is_ready heap.old) }
    requires room { room ≤ 17 }
    ensures most { IfOk result (λ levels. levels ≤ room) }
    ensures levels { (m : Contents) (d least : ℕ) (p : Part) → CanWalk (H.map_of heap.old) m d least
        p handle room → IfOk result (λ levels. levels ≡ d + 1) }
    ensures refuses { Refuses (λ _ _. ⊥) ((m : Contents) (d least : ℕ) (p : Part) → CanWalk
        (H.map_of heap.old) m d least p handle room → ⊥) result }
    ensures reads { (m : Contents) (d least : ℕ) (p : Part) → CanWalk (H.map_of heap.old) m d least
        p handle room → H.reads_of heap.new ≤ H.reads_of heap.old + (d + 1) }
    ensures contents { KeepsContents H.map_of H.size_of H.most_free H.is_ready heap.old heap.new }
    ensures frame { KeepsLevels H.saved H.saved_sizes H.limit_of H.is_sound H.told H.left H.fixed
        heap.old heap.new }
    ensures cause { IsCausedTrouble result (H.faults heap.old) (H.faults heap.new) }
{
    if room == 0 {
        return Err(Trouble::Damaged);
    }
    let mut node = Bytes::new(alloc);
    heap.read(handle, &mut node)?;
    let found = match look(alloc, node.as_slice(), &Bound::Start) {
        Ok(found) => found,
        Err(fault) => return Err(trouble_of(fault)),
    };
    match found {
        Found::Down(child) => {
            let levels = levels_under(alloc, heap, child, room - 1)?;
            Ok(levels + 1)
        }
        Found::Here(_) => Ok(1),
    }
}
