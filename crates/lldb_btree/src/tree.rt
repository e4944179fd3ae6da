//! Trees.
ghost use Rattle.std.specs.Prelude.{◌≡◌, ℕ, ◌+◌, ◌*◌, ◌≤◌, List, [], length, Some, IsTrue, IfOk, OnOk, OnErr, true, false};
ghost use Rattle.lldb_base.specs.Contents.{Contents, atoms_for};
ghost use Rattle.lldb_base.specs.Heaps.{IsFull, most_added};
ghost use Rattle.lldb_base.specs.Trouble.{IsCausedTrouble, Refuses};
ghost use Rattle.lldb_btree.specs.Frames.{KeepsContents, KeepsLevels, UnlessYes};
ghost use Rattle.lldb_btree.specs.Pairs.{find, insert, value_in, IsFound};
ghost use Rattle.lldb_btree.specs.Removal.{IsRemoved};
ghost use Rattle.lldb_btree.specs.Splicing.{AddsNodes, IsFullFor};
ghost use Rattle.lldb_btree.specs.Trees.{IsTree, IsTold, MayBeNoTree, HoldsTree, IsCleared};
ghost use Rattle.lldb_btree.specs.declared.node.Pair as pair;

use crate::destroy::clear_node;
use crate::lower::lower_root;
use crate::remove::{Wanted, remove_below};
use crate::set::{Put, set_below};
use crate::store::save_root;
use crate::walk::{LEVELS, first_of_tree, levels_under};
use crate::{Bound, Cursor, Pair};
use lldb_base::{Heap, Trouble};
use ql_edge::Bytes;
use std::alloc::Global;
use std::cmp::Ordering;

/// A tree, by the handle of its root, which never changes.
#[derive(Clone, Copy, Debug, PartialEq, Eq)]
pub struct Tree {
    pub handle: u64,
}

/// The value of a pair, where it has the key.
fn value_of(found: Option<Pair>, key: &[u8]) -> Option<Bytes>
    ensures { result ≡ value_in key.now found }
{
    let Pair { key: there, value } = found?;
    match key.cmp(&there.as_slice()) {
        Ordering::Equal => Some(value),
        _ => None,
    }
}

impl Tree {
    /// Makes an empty tree.
    pub fn create<H: Heap>(_: Global, heap: &mut H) -> Result<Tree, Trouble>
        requires ready { IsTrue (H.is_ready heap.old) }
        requires depth { 1 ≤ length (H.saved heap.old) }
        ensures created { (map : Contents) → H.map_of heap.old ≡ Some map → IfOk result
            (λ tree. HoldsTree (H.map_of heap.new) map tree.handle 0 [] []) }
        ensures ready { OnOk result (H.is_ready heap.new ≡ true) }
        ensures refuses { Refuses (IsFull (atoms_for 2) (H.most_free heap.old) (H.size_of heap.old)
            (H.size_of heap.new) (H.limit_of heap.old)) (H.map_of heap.old ≡ None) result }
        ensures grows { H.size_of heap.new ≤ H.size_of heap.old + most_added (atoms_for 2)
            (H.size_of heap.old) }
        ensures reads { H.reads_of heap.new ≡ H.reads_of heap.old }
        ensures frame { KeepsLevels H.saved H.saved_sizes H.limit_of H.is_sound H.told H.left
            H.fixed heap.old heap.new }
        ensures cause { IsCausedTrouble result (H.faults heap.old) (H.faults heap.new) }
    {
        let handle = heap.create(&[0, 0])?;
        Ok(Tree { handle })
    }

    /// Makes `value` the value of a key, and answers false where no pair has the key. `value` is left as it was unless the
    /// answer is true.
    pub fn get<H: Heap>(
        &self,
        alloc: Global,
        heap: &mut H,
        key: &[u8],
        value: &mut Bytes,
    ) -> Result<bool, Trouble>
        requires { IsTrue (H.is_ready heap.old) }
        ensures found { (levels : ℕ) (pairs : List pair.Pair) (footprint : List ℕ) → IsTold
            (H.map_of heap.old) self.now.handle levels pairs footprint → IfOk result
            (λ found. IsFound found (find key.now pairs) value.new) }
        ensures value { UnlessYes result (value.new ≡ value.old) }
        ensures refuses { Refuses (λ _ _. ⊥) (MayBeNoTree self.now.handle
            (H.map_of heap.old)) result }
        ensures reads { (levels : ℕ) (pairs : List pair.Pair) (footprint : List ℕ) → IsTold
            (H.map_of heap.old) self.now.handle levels pairs footprint → H.reads_of heap.new
            ≤ H.reads_of heap.old + levels }
        ensures contents { KeepsContents H.map_of H.size_of H.most_free H.is_ready heap.old
            heap.new }
        ensures frame { KeepsLevels H.saved H.saved_sizes H.limit_of H.is_sound H.told H.left
            H.fixed heap.old heap.new }
        ensures cause { IsCausedTrouble result (H.faults heap.old) (H.faults heap.new) }
    {
        let from = Bytes::from_slice(alloc, key)?;
        let found = first_of_tree(alloc, heap, self.handle, &Bound::From(from))?;
        match value_of(found, key) {
            Some(there) => {
                *value = there;
                Ok(true)
            }
            None => Ok(false),
        }
    }

    /// Gives a key a value, in place of the one that it had. A split makes at most one new node a level, and one more where
    /// the root is split. After a refusal the tree is to be rolled back.
    pub fn set<H: Heap>(
        &self,
        alloc: Global,
        heap: &mut H,
        key: &[u8],
        value: &[u8],
    ) -> Result<(), Trouble>
        requires ready { IsTrue (H.is_ready heap.old) }
        requires depth { 1 ≤ length (H.saved heap.old) }
        requires key { length key.now ≤ 1100 }
        requires value { length value.now ≤ 16 }
        ensures set { (map : Contents) (levels : ℕ) (pairs : List pair.Pair) (footprint : List ℕ)
            → H.map_of heap.old ≡ Some map → IsTree map self.now.handle levels pairs footprint
            → OnOk result (HoldsTree (H.map_of heap.new) map self.now.handle levels footprint
            (insert key.now value.now pairs)) }
        ensures ready { OnOk result (H.is_ready heap.new ≡ true) }
        ensures refuses { Refuses (IsFullFor (H.limit_of heap.old) (H.size_of heap.new))
            (MayBeNoTree self.now.handle (H.map_of heap.old)) result }
        ensures most { AddsNodes 37 (H.size_of heap.old) (H.size_of heap.new) }
        ensures grows { (levels : ℕ) (pairs : List pair.Pair) (footprint : List ℕ) → IsTold
            (H.map_of heap.old) self.now.handle levels pairs footprint → AddsNodes (2 * levels + 1)
            (H.size_of heap.old) (H.size_of heap.new) }
        ensures reads { (levels : ℕ) (pairs : List pair.Pair) (footprint : List ℕ) → IsTold
            (H.map_of heap.old) self.now.handle levels pairs footprint → H.reads_of heap.new
            ≤ H.reads_of heap.old + levels }
        ensures frame { KeepsLevels H.saved H.saved_sizes H.limit_of H.is_sound H.told H.left
            H.fixed heap.old heap.new }
        ensures cause { IsCausedTrouble result (H.faults heap.old) (H.faults heap.new) }
    {
        let put = Put::new(alloc, key, value)?;
        let root = set_below(alloc, heap, self.handle, LEVELS, &put)?;
        save_root(alloc, heap, self.handle, root.node.as_slice())
    }

    /// Removes a key with its value, and answers false where no pair has it: then nothing has changed. A node with too few
    /// entries shares with a neighbour or becomes one with it, and a root with one child left gives way to that. After a refusal
    /// the tree is to be rolled back.
    pub fn remove<H: Heap>(&self, alloc: Global, heap: &mut H, key: &[u8]) -> Result<bool, Trouble>
        requires ready { IsTrue (H.is_ready heap.old) }
        requires depth { 1 ≤ length (H.saved heap.old) }
        ensures removed { (map : Contents) (levels : ℕ) (pairs : List pair.Pair)
            (footprint : List ℕ) → H.map_of heap.old ≡ Some map → IsTree map self.now.handle levels
            pairs footprint → IfOk result (λ had. IsRemoved had (H.map_of heap.new) map
            self.now.handle levels footprint pairs key.now) }
        ensures kept { IfOk result (λ had. had ≡ false → KeepsContents H.map_of H.size_of
            H.most_free H.is_ready heap.old heap.new) }
        ensures ready { OnOk result (H.is_ready heap.new ≡ true) }
        ensures refuses { Refuses (IsFullFor (H.limit_of heap.old) (H.size_of heap.new))
            (MayBeNoTree self.now.handle (H.map_of heap.old)) result }
        ensures most { AddsNodes 35 (H.size_of heap.old) (H.size_of heap.new) }
        ensures grows { (levels : ℕ) (pairs : List pair.Pair) (footprint : List ℕ) → IsTold
            (H.map_of heap.old) self.now.handle levels pairs footprint → AddsNodes (2 * levels)
            (H.size_of heap.old) (H.size_of heap.new) }
        ensures reads { (levels : ℕ) (pairs : List pair.Pair) (footprint : List ℕ) → IsTold
            (H.map_of heap.old) self.now.handle levels pairs footprint → H.reads_of heap.new
            ≤ H.reads_of heap.old + 2 * levels }
        ensures frame { KeepsLevels H.saved H.saved_sizes H.limit_of H.is_sound H.told H.left
            H.fixed heap.old heap.new }
        ensures cause { IsCausedTrouble result (H.faults heap.old) (H.faults heap.new) }
    {
        let wanted = Wanted::new(alloc, key)?;
        let root = remove_below(alloc, heap, self.handle, LEVELS, &wanted)?;
        let Some(root) = root else {
            return Ok(false);
        };
        lower_root(alloc, heap, self.handle, root.as_slice())?;
        Ok(true)
    }

    /// Removes the nodes of the tree and nothing else. After a refusal the tree is to be rolled back.
    pub fn destroy<H: Heap>(self, alloc: Global, heap: &mut H) -> Result<(), Trouble>
        requires ready { IsTrue (H.is_ready heap.old) }
        requires depth { 1 ≤ length (H.saved heap.old) }
        ensures destroyed { (map : Contents) (levels : ℕ) (pairs : List pair.Pair)
            (footprint : List ℕ) → H.map_of heap.old ≡ Some map → IsTree map self.handle levels
            pairs footprint → OnOk result (IsCleared (H.map_of heap.new) map footprint) }
        ensures ready { OnOk result (H.is_ready heap.new ≡ true) }
        ensures refuses { Refuses (λ _ _. ⊥) (MayBeNoTree self.handle (H.map_of heap.old)) result }
        ensures shrinks { H.size_of heap.new ≤ H.size_of heap.old }
        ensures reads { (levels : ℕ) (pairs : List pair.Pair) (footprint : List ℕ) → IsTold
            (H.map_of heap.old) self.handle levels pairs footprint → H.reads_of heap.new
            ≤ H.reads_of heap.old + length footprint }
        ensures frame { KeepsLevels H.saved H.saved_sizes H.limit_of H.is_sound H.told H.left
            H.fixed heap.old heap.new }
        ensures cause { IsCausedTrouble result (H.faults heap.old) (H.faults heap.new) }
    {
        clear_node(alloc, heap, self.handle, LEVELS)
    }

    /// How many levels the tree has: 1 where its root is a leaf.
    pub fn depth<H: Heap>(&self, alloc: Global, heap: &mut H) -> Result<u32, Trouble>
        requires { IsTrue (H.is_ready heap.old) }
        ensures depth { (levels : ℕ) (pairs : List pair.Pair) (footprint : List ℕ) → IsTold
            (H.map_of heap.old) self.now.handle levels pairs footprint → IfOk result
            (λ depth. depth ≡ levels) }
        ensures refuses { Refuses (λ _ _. ⊥) (MayBeNoTree self.now.handle
            (H.map_of heap.old)) result }
        ensures reads { (levels : ℕ) (pairs : List pair.Pair) (footprint : List ℕ) → IsTold
            (H.map_of heap.old) self.now.handle levels pairs footprint → H.reads_of heap.new
            ≤ H.reads_of heap.old + levels }
        ensures contents { KeepsContents H.map_of H.size_of H.most_free H.is_ready heap.old
            heap.new }
        ensures frame { KeepsLevels H.saved H.saved_sizes H.limit_of H.is_sound H.told H.left
            H.fixed heap.old heap.new }
        ensures cause { IsCausedTrouble result (H.faults heap.old) (H.faults heap.new) }
    {
        levels_under(alloc, heap, self.handle, LEVELS)
    }

    /// A cursor before the first pair. It takes no memory.
    pub fn cursor(&self) -> Cursor
        ensures tree { result.tree ≡ self.now }
        ensures bound { result.bound ≡ Bound.Start }
    {
        Cursor {
            tree: *self,
            bound: Bound::Start,
        }
    }
}
