//! Reading a whole node.
ghost use Rattle.std.specs.Prelude.{◌≡◌, ℕ, ◌≤◌, ◌↔◌, List, [], ◌∷◌, length, option_map, IfOk, OnOk, IsTrue, None, ◌^◌, ◌<◌};
ghost use Rattle.std.specs.Int.{w64, to_be_bytes};
ghost use Rattle.lldb_btree.specs.Decoding.{ArePairs, AreChildren, Adds, BadOnly, MayFollow};
ghost use Rattle.lldb_btree.specs.Nodes.{spelling, IsProper};
ghost use Rattle.lldb_btree.specs.Pairs.{order};
ghost use Rattle.lldb_btree.specs.declared.node.Child as child;
ghost use Rattle.lldb_btree.specs.declared.node.Node as node;
ghost use Rattle.lldb_btree.specs.declared.node.Pair as pair;

use crate::entry::split_entry;
use crate::look::{split_byte, split_head};
use crate::{Child, Children, Node, NodeFault, Pair, Pairs};
use ql_edge::{Bytes, NoMemory};
use std::alloc::Global;
use std::cmp::Ordering;

/// How many bytes a key has at most.
pub const KEY_LIMIT: usize = 1100;

/// How many pairs or children a node has at most.
pub const NODE_LIMIT: usize = 32;

/// Whether one key is below another.
fn is_below(low: &[u8], high: &[u8]) -> bool
    ensures { IsTrue result ↔ (order low.now high.now ≡ Ordering.Less) }
{
    match low.cmp(&high) {
        Ordering::Less => true,
        Ordering::Equal => false,
        Ordering::Greater => false,
    }
}

/// Whether a key is short enough and above the key before it.
fn may_follow(above: Option<&[u8]>, key: &[u8]) -> bool
    ensures { IsTrue result ↔ MayFollow (option_map (λ k. k.now) above.entry) key.now }
{
    match above {
        Some(above) => is_below(above, key) && key.len() <= KEY_LIMIT,
        None => key.len() <= KEY_LIMIT,
    }
}

/// Nothing, where no bytes are left.
fn at_end(bytes: &[u8]) -> Result<(), NodeFault>
    ensures ok { OnOk result (bytes.now ≡ []) }
    ensures refused { BadOnly (λ (u : Unit {0}). bytes.now ≡ []) result }
{
    if bytes.is_empty() {
        Ok(())
    } else {
        Err(NodeFault::BadNode)
    }
}

/// A copy of a key and of the value that stands behind it.
fn make_pair(alloc: Global, key: &[u8], tail: &[u8]) -> Result<Pair, NodeFault>
    ensures made { (value : List ℕ) → tail.now ≡ length value ∷ value → IfOk result
        (λ p. (p.key ≡ key.now) × (p.value ≡ value)) }
    ensures refused { BadOnly (λ (value : List ℕ). tail.now ≡ length value ∷ value) result }
{
    let Some((_, value)) = split_byte(tail) else {
        return Err(NodeFault::BadNode);
    };
    let key = Bytes::from_slice(alloc, key)?;
    let value = Bytes::from_slice(alloc, value)?;
    Ok(Pair { key, value })
}

/// A copy of a key, with the handle that stands behind it.
fn make_child(alloc: Global, key: &[u8], tail: &[u8]) -> Result<Child, NoMemory>
    requires { length tail.now ≡ 8 }
    ensures key { IfOk result (λ c. c.key ≡ key.now) }
    ensures handle { IfOk result (λ c. to_be_bytes w64 c.handle ≡ tail.now) }
    ensures range { IfOk result (λ c. c.handle < 2 ^ 64) }
{
    let Some((handle, _)) = tail.split_first_chunk::<8>() else {
        unreachable!()
    };
    let handle = u64::from_be_bytes(*handle);
    let key = Bytes::from_slice(alloc, key)?;
    Ok(Child { key, handle })
}

/// Reads so many pairs from all of the bytes, and adds them to `pairs`. Their keys rise from `above` on.
fn read_pairs(
    alloc: Global,
    left: usize,
    bytes: &[u8],
    above: Option<&[u8]>,
    pairs: &mut Pairs,
) -> Result<(), NodeFault>
    ensures read { OnOk result (Adds (ArePairs (option_map (λ k. k.now) above.entry) left
        bytes.now) pairs.old pairs.new) }
    ensures refused { BadOnly (ArePairs (option_map (λ k. k.now) above.entry) left
        bytes.now) result }
{
    if left == 0 {
        return at_end(bytes);
    }
    let Some((key, tail, rest)) = split_entry(true, bytes) else {
        return Err(NodeFault::BadNode);
    };
    if !may_follow(above, key) {
        return Err(NodeFault::BadNode);
    }
    let pair = make_pair(alloc, key, tail)?;
    pairs.push(pair)?;
    read_pairs(alloc, left - 1, rest, Some(key), pairs)
}

/// Reads so many children from all of the bytes, and adds them to `children`. Their keys rise from `above` on.
fn read_children(
    alloc: Global,
    left: usize,
    bytes: &[u8],
    above: Option<&[u8]>,
    children: &mut Children,
) -> Result<(), NodeFault>
    ensures read { OnOk result (Adds (AreChildren (option_map (λ k. k.now) above.entry) left
        bytes.now) children.old children.new) }
    ensures refused { BadOnly (AreChildren (option_map (λ k. k.now) above.entry) left
        bytes.now) result }
{
    if left == 0 {
        return at_end(bytes);
    }
    let Some((key, tail, rest)) = split_entry(false, bytes) else {
        return Err(NodeFault::BadNode);
    };
    if !may_follow(above, key) {
        return Err(NodeFault::BadNode);
    }
    let child = make_child(alloc, key, tail)?;
    children.push(child)?;
    read_children(alloc, left - 1, rest, Some(key), children)
}

/// The leaf of so many pairs.
fn read_leaf(alloc: Global, count: usize, bytes: &[u8]) -> Result<Node, NodeFault>
    ensures read { IfOk result (λ n. (pairs : List pair.Pair) × (n ≡ Node.Leaf pairs) × ArePairs
        None count bytes.now pairs) }
    ensures refused { BadOnly (ArePairs None count bytes.now) result }
{
    let mut pairs = Pairs::new(alloc);
    read_pairs(alloc, count, bytes, None, &mut pairs)?;
    Ok(Node::Leaf(pairs))
}

/// The inner node of so many children.
fn read_inner(alloc: Global, count: usize, bytes: &[u8]) -> Result<Node, NodeFault>
    ensures read { IfOk result (λ n. (children : List child.Child) × (n ≡ Node.Inner children)
        × AreChildren None count bytes.now children) }
    ensures refused { BadOnly (AreChildren None count bytes.now) result }
{
    let mut children = Children::new(alloc);
    read_children(alloc, count, bytes, None, &mut children)?;
    Ok(Node::Inner(children))
}

/// Reads the node that bytes spell: at most 32 pairs or children, their keys rising and of at most 1,100 bytes, values of at
/// most 16. It answers `BadNode` exactly where they spell none. Who goes down a tree judges the least counts.
pub fn read_node(alloc: Global, bytes: &[u8]) -> Result<Node, NodeFault>
    ensures read { IfOk result (λ n. IsProper n × (bytes.now ≡ spelling n)) }
    ensures refused { BadOnly (λ (n : node.Node). IsProper n × (bytes.now ≡ spelling n)) result }
{
    let Some((leaf, count, rest)) = split_head(bytes) else {
        return Err(NodeFault::BadNode);
    };
    if count > NODE_LIMIT {
        return Err(NodeFault::BadNode);
    }
    if leaf {
        read_leaf(alloc, count, rest)
    } else {
        read_inner(alloc, count, rest)
    }
}
