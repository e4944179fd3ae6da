//! A walk over a tree's pairs.
ghost use Rattle.std.specs.Prelude.{◌≡◌, ℕ, ◌+◌, ◌≤◌, List, IsTrue, IfOk, OnOk, OnErr};
ghost use Rattle.lldb_base.specs.Trouble.{IsCausedTrouble, Refuses};
ghost use Rattle.lldb_btree.specs.Bounds.{is_ahead};
ghost use Rattle.lldb_btree.specs.Frames.{KeepsContents, KeepsLevels, UnlessYes, OnYes};
ghost use Rattle.lldb_btree.specs.Pairs.{first, IsGiven};
ghost use Rattle.lldb_btree.specs.Trees.{IsTold, MayBeNoTree};
ghost use Rattle.lldb_btree.specs.declared.node.Pair as pair;

use crate::walk::first_of_tree;
use crate::{Bound, Tree};
use lldb_base::{Heap, Trouble};
use ql_edge::{Bytes, NoMemory};
use std::alloc::Global;

/// A place between the pairs of a tree. It stays where it is while the tree is changed.
#[derive(Drop)]
pub struct Cursor {
    pub tree: Tree,
    /// Where the next pair is looked for.
    pub bound: Bound,
}

impl Cursor {
    /// Puts the cursor before the first pair whose key is not below `from`. After a refusal it is where it was.
    pub fn seek(&mut self, alloc: Global, from: &[u8]) -> Result<(), NoMemory>
        ensures tree { self.new.tree ≡ self.old.tree }
        ensures bound { OnOk result (self.new.bound ≡ Bound.From from.now) }
        ensures refused { OnErr result (self.new.bound ≡ self.old.bound) }
    {
        self.bound = Bound::From(Bytes::from_slice(alloc, from)?);
        Ok(())
    }

    /// Gives the next pair of the tree as it is now, and answers false where there is none. Unless the answer is true, the
    /// cursor and both buffers are left as they were.
    pub fn next<H: Heap>(
        &mut self,
        alloc: Global,
        heap: &mut H,
        key: &mut Bytes,
        value: &mut Bytes,
    ) -> Result<bool, Trouble>
        requires { IsTrue (H.is_ready heap.old) }
        ensures given { (levels : ℕ) (pairs : List pair.Pair) (footprint : List ℕ) → IsTold
            (H.map_of heap.old) self.old.tree.handle levels pairs footprint → IfOk result
            (λ given. IsGiven given (first (is_ahead self.old.bound) pairs) key.new value.new) }
        ensures tree { self.new.tree ≡ self.old.tree }
        ensures moved { OnYes result (self.new.bound ≡ Bound.After key.new) }
        ensures bound { UnlessYes result (self.new.bound ≡ self.old.bound) }
        ensures key { UnlessYes result (key.new ≡ key.old) }
        ensures value { UnlessYes result (value.new ≡ value.old) }
        ensures refuses { Refuses (λ _ _. ⊥) (MayBeNoTree self.old.tree.handle
            (H.map_of heap.old)) result }
        ensures reads { (levels : ℕ) (pairs : List pair.Pair) (footprint : List ℕ) → IsTold
            (H.map_of heap.old) self.old.tree.handle levels pairs footprint → H.reads_of heap.new
            ≤ H.reads_of heap.old + levels }
        ensures contents { KeepsContents H.map_of H.size_of H.most_free H.is_ready heap.old
            heap.new }
        ensures frame { KeepsLevels H.saved H.saved_sizes H.limit_of H.is_sound H.told H.left
            H.fixed heap.old heap.new }
        ensures cause { IsCausedTrouble result (H.faults heap.old) (H.faults heap.new) }
    {
        let found = first_of_tree(alloc, heap, self.tree.handle, &self.bound)?;
        match found {
            Some(pair) => {
                let last = Bytes::from_slice(alloc, pair.key.as_slice())?;
                self.bound = Bound::After(last);
                *key = pair.key;
                *value = pair.value;
                Ok(true)
            }
            None => Ok(false),
        }
    }
}
