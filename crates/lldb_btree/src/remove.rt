//! Removing a key below a node: the bytes of the node that comes of it.
ghost use Rattle.std.specs.Prelude.{◌≡◌, ℕ, ◌+◌, ◌*◌, ◌≤◌, true, List, length, map, IsTrue, IfOk, OnOk};
ghost use Rattle.std.specs.List.{AllByRecursion};
ghost use Rattle.lldb_base.specs.Contents.{Contents};
ghost use Rattle.lldb_base.specs.Trouble.{IsCausedTrouble, Refuses};
ghost use Rattle.lldb_btree.specs.Frames.{KeepsContents, KeepsLevels};
ghost use Rattle.lldb_btree.specs.Nodes.{body, pair_entry};
ghost use Rattle.lldb_btree.specs.Pairs.{FitsPair};
ghost use Rattle.lldb_btree.specs.Removal.{CanTake, IsTaken, IsTakenHere, WhereNone};
ghost use Rattle.lldb_btree.specs.Splicing.{AddsNodes, IsFullFor};
ghost use Rattle.lldb_btree.specs.Trees.{Part};
ghost use Rattle.lldb_btree.specs.declared.bound.Bound.TheVariants as bound;
ghost use Rattle.lldb_btree.specs.declared.node.Pair as pair;

use crate::entry::seek;
use crate::look::split_head;
use crate::mend::put_back;
use crate::set::{past_key, way};
use crate::splice::{front_of, joined};
use crate::{Bound, NODE_LIMIT};
use lldb_base::{Heap, Trouble};
use ql_edge::{Bytes, NoMemory};
use std::alloc::Global;

/// A key that is removed, and the bound at which it is looked for.
#[derive(Drop)]
pub(crate) struct Wanted {
    key: Bytes,
    from: Bound,
    ghost from_is: { from ≡ bound.From key },
}

impl Wanted {
    pub(crate) fn new(alloc: Global, key: &[u8]) -> Result<Wanted, NoMemory>
        ensures { IfOk result (λ wanted. wanted.key ≡ key.now) }
    {
        let from = Bound::From(Bytes::from_slice(alloc, key)?);
        let key = Bytes::from_slice(alloc, key)?;
        Ok(Wanted { key, from })
    }
}

/// A leaf of so many pairs without the one of a key, or nothing where no pair has it.
fn remove_in_leaf(
    alloc: Global,
    count: usize,
    bytes: &[u8],
    wanted: &Wanted,
) -> Result<Option<Bytes>, Trouble>
    requires { count ≤ 32 }
    ensures taken { (pairs : List pair.Pair) → AllByRecursion FitsPair pairs → length pairs ≡ count
        → bytes.now ≡ body (map pair_entry pairs) → IfOk result
        (λ r. IsTakenHere wanted.now.key pairs r) }
    ensures refuses { Refuses (λ _ _. ⊥) ((pairs : List pair.Pair) → AllByRecursion FitsPair pairs
        → length pairs ≡ count → bytes.now ≡ body (map pair_entry pairs) → ⊥) result }
    ensures cause { (n : ℕ) → IsCausedTrouble result n n }
{
    let Some((rest, left)) = seek(true, bytes, count, &wanted.from) else {
        return Err(Trouble::Damaged);
    };
    let Some((back, more)) = past_key(left, rest, wanted.key.as_slice()) else {
        return Err(Trouble::Damaged);
    };
    if more > 0 {
        return Ok(None);
    }
    let front = front_of(bytes, rest.len());
    let node = joined(alloc, true, count.saturating_sub(1), front, back, &[])?;
    Ok(Some(node))
}

/// What comes of the node at a handle where a key is removed below it, with room for so many levels, or nothing where no pair
/// has the key. The node is not written; what is below it is. It reads one node a level, and one more above the leaves.
pub(crate) fn remove_below<H: Heap>(
    alloc: Global,
    heap: &mut H,
    handle: u64,
    room: u32,
    wanted: &Wanted,
) -> Result<Option<Bytes>, Trouble>
    requires ready { IsTrue (H.is_ready heap.old) }
    requires depth { 1 ≤ length (H.saved heap.old) }
    ensures taken { (m : Contents) (d least : ℕ) (p : Part) → CanTake (H.map_of heap.old) m d least
        p handle room → IfOk result
        (λ r. IsTaken (H.map_of heap.new) m d least p wanted.now.key r) }
    ensures kept { IfOk result (λ r. WhereNone r (KeepsContents H.map_of H.size_of H.most_free
        H.is_ready heap.old heap.new)) }
    ensures ready { OnOk result (H.is_ready heap.new ≡ true) }
    ensures refuses { Refuses (IsFullFor (H.limit_of heap.old) (H.size_of heap.new))
        ((m : Contents) (d least : ℕ) (p : Part) → CanTake (H.map_of heap.old) m d least p handle
        room → ⊥) result }
    ensures most { AddsNodes (2 * room) (H.size_of heap.old) (H.size_of heap.new) }
    ensures grows { (m : Contents) (d least : ℕ) (p : Part) → CanTake (H.map_of heap.old) m d least
        p handle room → AddsNodes (2 * d) (H.size_of heap.old) (H.size_of heap.new) }
    ensures reads { (m : Contents) (d least : ℕ) (p : Part) → CanTake (H.map_of heap.old) m d least
        p handle room → H.reads_of heap.new ≤ H.reads_of heap.old + (2 * d + 1) }
    ensures frame { KeepsLevels H.saved H.saved_sizes H.limit_of H.is_sound H.told H.left H.fixed
        heap.old heap.new }
    ensures cause { IsCausedTrouble result (H.faults heap.old) (H.faults heap.new) }
{
    if room == 0 {
        return Err(Trouble::Damaged);
    }
    let mut old = Bytes::new(alloc);
    heap.read(handle, &mut old)?;
    let Some((leaf, count, bytes)) = split_head(old.as_slice()) else {
        return Err(Trouble::Damaged);
    };
    if count > NODE_LIMIT {
        return Err(Trouble::Damaged);
    }
    if leaf {
        return remove_in_leaf(alloc, count, bytes, wanted);
    }
    if count < 2 {
        return Err(Trouble::Damaged);
    }
    let Some((front, child, back)) = way(bytes, count, &wanted.from) else {
        return Err(Trouble::Damaged);
    };
    let below = remove_below(alloc, heap, child, room - 1, wanted)?;
    let Some(below) = below else {
        return Ok(None);
    };
    let node = put_back(alloc, heap, count, front, child, below.as_slice(), back)?;
    Ok(Some(node))
}
