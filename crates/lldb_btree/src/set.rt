//! Setting a pair below a node: the bytes of the node that comes of it.
ghost use Rattle.std.specs.Prelude.{◌≡◌, ℕ, ◌+◌, ◌*◌, ◌<◌, ◌≤◌, true, false, Bool, List, [], ◌∷◌, length, map, Some, None, IsTrue, IfOk, OnOk, IfSome, IsSomeAnd};
ghost use Rattle.std.specs.List.{AllByRecursion};
ghost use Rattle.lldb_base.specs.Contents.{Contents, content_of, with_content};
ghost use Rattle.lldb_base.specs.Heaps.{MayBeDead};
ghost use Rattle.lldb_base.specs.Trouble.{IsCausedTrouble, Refuses};
ghost use Rattle.lldb_btree.specs.Bounds.{is_ahead};
ghost use Rattle.lldb_btree.specs.Changes.{CanEdit, IsEdited, CanStore, IsStored};
ghost use Rattle.lldb_btree.specs.Frames.{KeepsLevels};
ghost use Rattle.lldb_btree.specs.Nodes.{Entry, IsEntry, spelling, body, entry_bytes, pair_entry, child_entry, FitsChild};
ghost use Rattle.lldb_btree.specs.Pairs.{FitsPair, insert};
ghost use Rattle.lldb_btree.specs.Splicing.{past_key, AddsNodes, IsWay, IsFullFor};
ghost use Rattle.lldb_btree.specs.Trees.{Part, greatest};
ghost use Rattle.lldb_btree.specs.declared.bound.Bound.TheVariants as bound;
ghost use Rattle.lldb_btree.specs.declared.node.Child as child;
ghost use Rattle.lldb_btree.specs.declared.node.Node.TheVariants as node;
ghost use Rattle.lldb_btree.specs.declared.node.Pair as pair;

use crate::entry::{seek, split_entry};
use crate::look::{handle_in, split_head};
use crate::splice::{front_of, joined, push_entry};
use crate::store::store;
use crate::{Bound, NODE_LIMIT};
use lldb_base::{Heap, Trouble};
use ql_edge::{Bytes, NoMemory};
use std::alloc::Global;
use std::cmp::Ordering;

/// A pair that is set: its key as a bound, and its entry.
#[derive(Drop)]
pub(crate) struct Put {
    key: Bytes,
    value: Bytes,
    from: Bound,
    entry: Bytes,
    ghost key_fits: { length key ≤ 1100 },
    ghost value_fits: { length value ≤ 16 },
    ghost from_is: { from ≡ bound.From key },
    ghost entry_is: { entry ≡ entry_bytes (record { key = key; tail = length value ∷ value }) },
}

impl Put {
    pub(crate) fn new(alloc: Global, key: &[u8], value: &[u8]) -> Result<Put, NoMemory>
        requires key { length key.now ≤ 1100 }
        requires value { length value.now ≤ 16 }
        ensures key { IfOk result (λ put. put.key ≡ key.now) }
        ensures value { IfOk result (λ put. put.value ≡ value.now) }
    {
        let mut tail = Bytes::from_slice(alloc, &[value.len() as u8])?;
        tail.extend(value)?;
        let mut entry = Bytes::new(alloc);
        push_entry(&mut entry, key, tail.as_slice())?;
        let from = Bound::From(Bytes::from_slice(alloc, key)?);
        let key = Bytes::from_slice(alloc, key)?;
        let value = Bytes::from_slice(alloc, value)?;
        Ok(Put {
            key,
            value,
            from,
            entry,
        })
    }
}

/// What a set makes of a node: its bytes, and whether the key that was set is the last one in it.
#[derive(Drop)]
pub(crate) struct Changed {
    pub(crate) node: Bytes,
    pub(crate) ends: bool,
}

/// Whether a key that ends a run is the last one of a node, which has these bytes behind the run.
fn is_last(ends: bool, back: &[u8]) -> bool
    ensures { result ≡ true → (ends ≡ true) × (back.now ≡ []) }
{
    ends && back.is_empty()
}

/// What follows the first of so many entries where it has the key, and how many entries a pair with the key adds.
pub(crate) fn past_key<'a>(left: usize, bytes: &'a [u8], key: &[u8]) -> Option<(&'a [u8], usize)>
    ensures most { IfSome result (λ r. r.1 ≤ 1) }
    ensures past { (es : List Entry) → AllByRecursion (IsEntry true) es → length es ≡ left
        → bytes.now ≡ body es → IsSomeAnd result (λ r. (r.0.now ≡ body (past_key key.now es))
        × (left + r.1 ≡ length (past_key key.now es) + 1)) }
{
    if left == 0 {
        return Some((bytes, 1));
    }
    let (first, _, rest) = split_entry(true, bytes)?;
    match key.cmp(&first) {
        Ordering::Less => Some((bytes, 1)),
        Ordering::Equal => Some((rest, 0)),
        Ordering::Greater => Some((bytes, 1)),
    }
}

/// A leaf of so many pairs with one set.
fn set_in_leaf(alloc: Global, count: usize, bytes: &[u8], put: &Put) -> Result<Changed, Trouble>
    requires { count ≤ 32 }
    ensures set { (pairs : List pair.Pair) → AllByRecursion FitsPair pairs → length pairs ≡ count
        → bytes.now ≡ body (map pair_entry pairs) → IfOk result (λ c. c.node ≡ spelling
        (node.Leaf (insert put.now.key put.now.value pairs))) }
    ensures ends { (pairs : List pair.Pair) → AllByRecursion FitsPair pairs → length pairs ≡ count
        → bytes.now ≡ body (map pair_entry pairs) → IfOk result (λ c. c.ends ≡ true → greatest
        (insert put.now.key put.now.value pairs) ≡ put.now.key) }
    ensures refuses { Refuses (λ _ _. ⊥) ((pairs : List pair.Pair) → AllByRecursion FitsPair pairs
        → length pairs ≡ count → bytes.now ≡ body (map pair_entry pairs) → ⊥) result }
    ensures cause { (n : ℕ) → IsCausedTrouble result n n }
{
    let Some((rest, left)) = seek(true, bytes, count, &put.from) else {
        return Err(Trouble::Damaged);
    };
    let Some((back, more)) = past_key(left, rest, put.key.as_slice()) else {
        return Err(Trouble::Damaged);
    };
    let front = front_of(bytes, rest.len());
    let node = joined(alloc, true, count + more, front, put.entry.as_slice(), back)?;
    let ends = is_last(true, back);
    Ok(Changed { node, ends })
}

/// The handle of the child where a search goes on, with the bytes before its entry and behind it.
pub(crate) fn way<'a>(
    bytes: &'a [u8],
    count: usize,
    from: &Bound,
) -> Option<(&'a [u8], u64, &'a [u8])>
    ensures { (children : List child.Child) → AllByRecursion FitsChild children → 0
        < length children → length children ≡ count → bytes.now ≡ body (map child_entry children)
        → IsSomeAnd result (λ r. IsWay (is_ahead from.now) children r.0.now r.1 r.2.now) }
{
    let (rest, _) = seek(false, bytes, count, from)?;
    let (_, tail, back) = split_entry(false, rest)?;
    let handle = handle_in(tail)?;
    Some((front_of(bytes, rest.len()), handle, back))
}

/// What comes of the node at a handle where a pair is set below it, with room for so many levels. It is not written; what is
/// below it is. It reads one node a level.
pub(crate) fn set_below<H: Heap>(
    alloc: Global,
    heap: &mut H,
    handle: u64,
    room: u32,
    put: &Put,
) -> Result<Changed, Trouble>
    requires ready { IsTrue (H.is_ready heap.old) }
    requires depth { 1 ≤ length (H.saved heap.old) }
    ensures set { (m : Contents) (d least : ℕ) (p : Part) → CanEdit (H.map_of heap.old) m d least p
        handle room → IfOk result (λ c. IsEdited (H.map_of heap.new) m d least p
        (insert put.now.key put.now.value p.pairs) c.node) }
    ensures ends { (m : Contents) (d least : ℕ) (p : Part) → CanEdit (H.map_of heap.old) m d least p
        handle room → IfOk result (λ c. c.ends ≡ true → greatest
        (insert put.now.key put.now.value p.pairs) ≡ put.now.key) }
    ensures ready { OnOk result (H.is_ready heap.new ≡ true) }
    ensures refuses { Refuses (IsFullFor (H.limit_of heap.old) (H.size_of heap.new))
        ((m : Contents) (d least : ℕ) (p : Part) → CanEdit (H.map_of heap.old) m d least p handle
        room → ⊥) result }
    ensures most { AddsNodes (2 * room) (H.size_of heap.old) (H.size_of heap.new) }
    ensures grows { (m : Contents) (d least : ℕ) (p : Part) → CanEdit (H.map_of heap.old) m d least
        p handle room → AddsNodes (2 * d) (H.size_of heap.old) (H.size_of heap.new) }
    ensures reads { (m : Contents) (d least : ℕ) (p : Part) → CanEdit (H.map_of heap.old) m d least
        p handle room → H.reads_of heap.new ≤ H.reads_of heap.old + (d + 1) }
    ensures frame { KeepsLevels H.saved H.saved_sizes H.limit_of H.is_sound H.told H.left H.fixed
        heap.old heap.new }
    ensures cause { IsCausedTrouble result (H.faults heap.old) (H.faults heap.new) }
{
    if room == 0 {
        return Err(Trouble::Damaged);
    }
    let mut old = Bytes::new(alloc);
    heap.read(handle, &mut old)?;
    let Some((leaf, count, bytes)) = split_head(old.as_slice()) else {
        return Err(Trouble::Damaged);
    };
    if count > NODE_LIMIT {
        return Err(Trouble::Damaged);
    }
    if leaf {
        return set_in_leaf(alloc, count, bytes, put);
    }
    let Some((front, child, back)) = way(bytes, count, &put.from) else {
        return Err(Trouble::Damaged);
    };
    let below = set_below(alloc, heap, child, room - 1, put)?;
    let stored = store(
        alloc,
        heap,
        child,
        below.node.as_slice(),
        put.key.as_slice(),
        below.ends,
    )?;
    let node = joined(
        alloc,
        false,
        count + stored.count - 1,
        front,
        stored.entries.as_slice(),
        back,
    )?;
    let ends = is_last(below.ends, back);
    Ok(Changed { node, ends })
}
