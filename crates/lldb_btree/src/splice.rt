//! Runs of entries, cut and put together as bytes.
ghost use Rattle.std.specs.Prelude.{◌≡◌, ℕ, ◌+◌, ◌-◌, ◌/◌, ◌<◌, ◌≤◌, Bool, true, List, [], ◌∷◌, ◌++◌, length, take, drop, IfOk, OnOk, IfSome, IsSomeAnd};
ghost use Rattle.std.specs.List.{AllByRecursion};
ghost use Rattle.lldb_base.specs.Trouble.{IsCausedTrouble, Refuses};
ghost use Rattle.lldb_btree.specs.Nodes.{Entry, IsEntry, entry_bytes, body};
ghost use Rattle.lldb_btree.specs.Reading.{mark};
ghost use Rattle.lldb_btree.specs.Splicing.{AreNode, AreNoNode, key_at_end, entry_of};

use crate::KEY_LIMIT;
use crate::entry::split_entry;
use crate::look::split_head;
use lldb_base::Trouble;
use ql_edge::{Bytes, NoMemory};
use std::alloc::Global;

/// Adds the bytes of an entry at the end.
pub(crate) fn push_entry(out: &mut Bytes, key: &[u8], tail: &[u8]) -> Result<(), NoMemory>
    requires { length key.now ≤ 1100 }
    ensures { OnOk result (out.new ≡ out.old ++ entry_bytes
        (record { key = key.now; tail = tail.now })) }
{
    out.extend(&(key.len() as u16).to_be_bytes())?;
    out.extend(key)?;
    out.extend(tail)
}

/// The byte that a node begins with.
fn mark_of(leaf: bool) -> u8
    ensures { result ≡ mark leaf }
{
    if leaf { 0 } else { 1 }
}

/// The two bytes that a node with so many entries begins with, and room for so many bytes behind them.
fn head(alloc: Global, leaf: bool, count: usize, room: usize) -> Result<Bytes, NoMemory>
    requires { count < 256 }
    ensures { IfOk result (λ head. head ≡ mark leaf ∷ count ∷ []) }
{
    let mut head = Bytes::with_capacity(alloc, room.saturating_add(2))?;
    head.extend(&[mark_of(leaf), count as u8])?;
    Ok(head)
}

/// The bytes of a node with so many entries.
pub(crate) fn spelled(
    alloc: Global,
    leaf: bool,
    count: usize,
    entries: &[u8],
) -> Result<Bytes, NoMemory>
    requires { count < 256 }
    ensures { IfOk result (λ all. all ≡ mark leaf ∷ count ∷ entries.now) }
{
    let mut all = head(alloc, leaf, count, entries.len())?;
    all.extend(entries)?;
    Ok(all)
}

/// The bytes of a node with so many entries, which stand in three runs.
pub(crate) fn joined(
    alloc: Global,
    leaf: bool,
    count: usize,
    front: &[u8],
    middle: &[u8],
    back: &[u8],
) -> Result<Bytes, NoMemory>
    requires { count < 256 }
    ensures { IfOk result (λ all. all ≡ mark leaf ∷ count
        ∷ ((front.now ++ middle.now) ++ back.now)) }
{
    let room = front
        .len()
        .saturating_add(middle.len())
        .saturating_add(back.len());
    let mut all = head(alloc, leaf, count, room)?;
    all.extend(front)?;
    all.extend(middle)?;
    all.extend(back)?;
    Ok(all)
}

/// The bytes before so many last ones.
pub(crate) fn front_of(bytes: &[u8], last: usize) -> &[u8]
    ensures { (front back : List ℕ) → bytes.now ≡ front ++ back → length back ≡ last → result.now
        ≡ front }
{
    &bytes[..bytes.len().saturating_sub(last)]
}

/// The bytes behind so many entries.
pub(crate) fn skip(leaf: bool, bytes: &[u8], count: usize) -> Option<&[u8]>
    ensures { (es : List Entry) → AllByRecursion (IsEntry leaf) es → count ≤ length es → bytes.now
        ≡ body es → IsSomeAnd result (λ rest. rest.now ≡ body (drop count es)) }
{
    if count == 0 {
        return Some(bytes);
    }
    let (_, _, rest) = split_entry(leaf, bytes)?;
    skip(leaf, rest, count - 1)
}

/// The key of the last of so many entries, where there is one that is not too long.
fn last_key(leaf: bool, bytes: &[u8], count: usize) -> Option<&[u8]>
    ensures short { IfSome result (λ key. length key.now ≤ 1100) }
    ensures last { (es : List Entry) → AllByRecursion (IsEntry leaf) es → length es ≡ count → 0
        < length es → bytes.now ≡ body es → IsSomeAnd result (λ key. key.now ≡ key_at_end es) }
{
    if count == 0 {
        return None;
    }
    let last = skip(leaf, bytes, count - 1)?;
    let (key, _, _) = split_entry(leaf, last)?;
    let len = key.len();
    if len > KEY_LIMIT {
        return None;
    }
    Some(key)
}

/// The last key of the node that bytes spell.
fn key_of(node: &[u8]) -> Option<&[u8]>
    ensures short { IfSome result (λ key. length key.now ≤ 1100) }
    ensures last { (leaf : Bool) (es : List Entry) → AreNode leaf es node.now → 0 < length es
        → IsSomeAnd result (λ key. key.now ≡ key_at_end es) }
{
    let (leaf, count, bytes) = split_head(node)?;
    last_key(leaf, bytes, count)
}

/// Adds the entry of a child, which has the bytes of a node.
pub(crate) fn push_child(entries: &mut Bytes, node: &[u8], handle: u64) -> Result<(), Trouble>
    ensures pushed { (leaf : Bool) (es : List Entry) → AreNode leaf es node.now → 0 < length es
        → OnOk result (entries.new ≡ entries.old ++ entry_bytes (entry_of es handle)) }
    ensures refuses { Refuses (λ _ _. ⊥) (AreNoNode node.now) result }
    ensures cause { (n : ℕ) → IsCausedTrouble result n n }
{
    let Some(key) = key_of(node) else {
        return Err(Trouble::Damaged);
    };
    push_entry(entries, key, &handle.to_be_bytes())?;
    Ok(())
}

/// Adds the entry of a child, which has the bytes of a node. Where a key is known to be the last one of the node, it is not
/// looked for there.
pub(crate) fn push_last(
    entries: &mut Bytes,
    node: &[u8],
    handle: u64,
    key: &[u8],
    ends: bool,
) -> Result<(), Trouble>
    requires { length key.now ≤ 1100 }
    ensures pushed { (leaf : Bool) (es : List Entry) → AreNode leaf es node.now → 0 < length es
        → (ends ≡ true → key.now ≡ key_at_end es)
        → OnOk result (entries.new ≡ entries.old ++ entry_bytes (entry_of es handle)) }
    ensures refuses { Refuses (λ _ _. ⊥) (AreNoNode node.now) result }
    ensures cause { (n : ℕ) → IsCausedTrouble result n n }
{
    if ends {
        push_entry(entries, key, &handle.to_be_bytes())?;
        return Ok(());
    }
    push_child(entries, node, handle)
}

/// The entries of two children, which have the bytes of nodes.
pub(crate) fn two_children(
    alloc: Global,
    left: &[u8],
    handle: u64,
    right: &[u8],
    more: u64,
) -> Result<Bytes, Trouble>
    ensures two { (leaf : Bool) (es fs : List Entry) → AreNode leaf es left.now → 0 < length es
        → AreNode leaf fs right.now → 0 < length fs → IfOk result (λ all. all ≡ body
        (entry_of es handle ∷ entry_of fs more ∷ [])) }
    ensures refuses { Refuses (λ _ _. ⊥) ((leaf : Bool) (es fs : List Entry) → AreNode leaf es
        left.now → 0 < length es → AreNode leaf fs right.now → 0 < length fs → ⊥) result }
    ensures cause { (n : ℕ) → IsCausedTrouble result n n }
{
    let mut all = Bytes::new(alloc);
    push_child(&mut all, left, handle)?;
    push_child(&mut all, right, more)?;
    Ok(all)
}

/// A node cut in two.
#[derive(Drop)]
pub(crate) struct Halves {
    pub(crate) front: Bytes,
    pub(crate) back: Bytes,
}

/// The bytes of a node cut into those of two, each with half of the entries.
pub(crate) fn cut_node(alloc: Global, node: &[u8]) -> Result<Halves, Trouble>
    ensures front { (leaf : Bool) (es : List Entry) → AreNode leaf es node.now → IfOk result
        (λ h. AreNode leaf (take (length es / 2) es) h.front) }
    ensures back { (leaf : Bool) (es : List Entry) → AreNode leaf es node.now → IfOk result
        (λ h. AreNode leaf (drop (length es / 2) es) h.back) }
    ensures refuses { Refuses (λ _ _. ⊥) (AreNoNode node.now) result }
    ensures cause { (n : ℕ) → IsCausedTrouble result n n }
{
    let Some((leaf, count, bytes)) = split_head(node) else {
        return Err(Trouble::Damaged);
    };
    let half = count / 2;
    let Some(rest) = skip(leaf, bytes, half) else {
        return Err(Trouble::Damaged);
    };
    let front = spelled(alloc, leaf, half, front_of(bytes, rest.len()))?;
    let back = spelled(alloc, leaf, count - half, rest)?;
    Ok(Halves { front, back })
}
