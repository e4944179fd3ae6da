//! A search in the bytes of a node.
ghost use Rattle.std.specs.Prelude.{◌≡◌, ℕ, ◌+◌, ◌^◌, ◌<◌, ◌≤◌, Bool, true, false, List, [], ◌∷◌, ◌++◌, length, IfSome, IsSomeAnd, Some, None, Ok};
ghost use Rattle.std.specs.Int.{w64, to_be_bytes};
ghost use Rattle.std.specs.List.{AllByRecursion};
ghost use Rattle.lldb_btree.specs.Bounds.{is_ahead};
ghost use Rattle.lldb_btree.specs.Nodes.{spelling, entry_bytes, pair_entry, child_entry, FitsChild};
ghost use Rattle.lldb_btree.specs.Pairs.{FitsPair, first};
ghost use Rattle.lldb_btree.specs.Reading.{mark, Reads, LeadsTo};
ghost use Rattle.lldb_btree.specs.declared.node.Child.{Child};
ghost use Rattle.lldb_btree.specs.declared.node.Node.TheVariants as node;
ghost use Rattle.lldb_btree.specs.declared.node.Pair as pair;

use crate::entry::{seek, split_entry};
use crate::{Bound, NodeFault, Pair};
use ql_edge::Bytes;
use std::alloc::Global;

/// What a search finds in a node: the child where it goes on, or its answer.
#[derive(Drop)]
pub(crate) enum Found {
    Down(u64),
    Here(Option<Pair>),
}

/// The first byte and the others.
pub(crate) fn split_byte(bytes: &[u8]) -> Option<(u8, &[u8])>
    ensures is { IfSome result (λ r. bytes.now ≡ r.0 ∷ r.1.now) }
    ensures whole { (b : ℕ) (rest : List ℕ) → bytes.now ≡ b ∷ rest → IsSomeAnd result
        (λ r. (r.0 ≡ b) × (r.1.now ≡ rest)) }
{
    let (b, rest) = bytes.split_first()?;
    Some((*b, rest))
}

/// Whether a node is a leaf, its count, and the bytes of its entries.
pub(crate) fn split_head(bytes: &[u8]) -> Option<(bool, usize, &[u8])>
    ensures small { IfSome result (λ r. r.1 < 256) }
    ensures is { IfSome result (λ r. bytes.now ≡ mark r.0 ∷ r.1 ∷ r.2.now) }
    ensures whole { (leaf : Bool) (count : ℕ) (rest : List ℕ) → bytes.now ≡ mark leaf ∷ count ∷ rest
        → IsSomeAnd result (λ r. (r.0 ≡ leaf) × (r.1 ≡ count) × (r.2.now ≡ rest)) }
{
    let (kind, rest) = split_byte(bytes)?;
    let (count, rest) = split_byte(rest)?;
    match kind {
        0 => Some((true, count as usize, rest)),
        1 => Some((false, count as usize, rest)),
        _ => None,
    }
}

/// The pair of a key, and of what stands behind it in a leaf.
fn found_pair(alloc: Global, key: &[u8], tail: &[u8]) -> Result<Found, NodeFault>
    ensures { (p : pair.Pair) → key.now ≡ p.key → tail.now ≡ length p.value ∷ p.value → Reads
        (λ found. found ≡ Found.Here (Some p)) result }
{
    let Some((_, value)) = split_byte(tail) else {
        return Err(NodeFault::BadNode);
    };
    let key = Bytes::from_slice(alloc, key)?;
    let value = Bytes::from_slice(alloc, value)?;
    Ok(Found::Here(Some(Pair { key, value })))
}

/// The handle that stands behind a key in an inner node.
pub(crate) fn handle_in(tail: &[u8]) -> Option<u64>
    ensures { (handle : ℕ) → handle < 2 ^ 64 → tail.now ≡ to_be_bytes w64 handle → result ≡ Some
        handle }
{
    match tail.split_first_chunk::<8>() {
        Some((handle, _)) => Some(u64::from_be_bytes(*handle)),
        None => None,
    }
}

/// The child of that handle.
fn found_child(tail: &[u8]) -> Result<Found, NodeFault>
    ensures { (handle : ℕ) → handle < 2 ^ 64 → tail.now ≡ to_be_bytes w64 handle → result ≡ Ok
        (Found.Down handle) }
{
    match handle_in(tail) {
        Some(handle) => Ok(Found::Down(handle)),
        None => Err(NodeFault::BadNode),
    }
}

/// What the first of so many entries says.
fn first_found(alloc: Global, leaf: bool, bytes: &[u8], left: usize) -> Result<Found, NodeFault>
    ensures none { leaf ≡ true → left ≡ 0 → result ≡ Ok (Found.Here None) }
    ensures pair { (p : pair.Pair) (more : List ℕ) → leaf ≡ true → 0 < left → FitsPair p → bytes.now
        ≡ entry_bytes (pair_entry p) ++ more → Reads (λ found. found ≡ Found.Here (Some p)) result }
    ensures child { (c : Child) (more : List ℕ) → leaf ≡ false → 0 < left → FitsChild c → bytes.now
        ≡ entry_bytes (child_entry c) ++ more → result ≡ Ok (Found.Down c.handle) }
{
    if left == 0 {
        return no_entry(leaf);
    }
    let Some((key, tail, _)) = split_entry(leaf, bytes) else {
        return Err(NodeFault::BadNode);
    };
    if leaf {
        found_pair(alloc, key, tail)
    } else {
        found_child(tail)
    }
}

/// What a search finds where no entry is left.
fn no_entry(leaf: bool) -> Result<Found, NodeFault>
    ensures { leaf ≡ true → result ≡ Ok (Found.Here None) }
{
    if leaf {
        Ok(Found::Here(None))
    } else {
        Err(NodeFault::BadNode)
    }
}

/// What a search for the first key ahead of a bound finds in the bytes of a node. Of the pairs that it passes it copies
/// nothing.
pub(crate) fn look(alloc: Global, bytes: &[u8], bound: &Bound) -> Result<Found, NodeFault>
    ensures leaf { (pairs : List pair.Pair) → AllByRecursion FitsPair pairs → bytes.now ≡ spelling
        (node.Leaf pairs) → Reads (λ found. found ≡ Found.Here
        (first (is_ahead bound.now) pairs)) result }
    ensures inner { (children : List Child) → AllByRecursion FitsChild children → 0
        < length children → bytes.now ≡ spelling (node.Inner children) → Reads
        (LeadsTo (is_ahead bound.now) children) result }
{
    let Some((leaf, count, rest)) = split_head(bytes) else {
        return Err(NodeFault::BadNode);
    };
    let Some((rest, left)) = seek(leaf, rest, count, bound) else {
        return Err(NodeFault::BadNode);
    };
    first_found(alloc, leaf, rest, left)
}
