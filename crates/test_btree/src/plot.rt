//! A tree in a heap of its own.
ghost use Rattle.std.specs.Prelude.{◌≡◌, ◌≤◌, length, IsTrue, IfOk};

use lldb_base::{Heap, MemHeap, Trouble};
use lldb_btree::{Cursor, Node, Tree, read_node};
use ql_edge::{Bytes, Items, NoMemory};
use std::alloc::Global;

/// A heap with a level begun.
pub(crate) fn begun(alloc: Global) -> Result<MemHeap, NoMemory>
    ensures ready { IfOk result (λ h. IsTrue (⟦<MemHeap as Heap>⟧.is_ready h)) }
    ensures depth { IfOk result (λ h. 1 ≤ length (⟦<MemHeap as Heap>⟧.saved h)) }
{
    let mut heap = MemHeap::new(alloc);
    heap.begin_update()?;
    Ok(heap)
}

/// A pair that a cursor gave.
#[derive(Debug, Drop)]
pub(crate) struct Given {
    pub key: Bytes,
    pub value: Bytes,
}

/// A tree in a heap of its own. Its calls ask for what the tree's own require, and answer `Failed` where that does not hold.
#[derive(Drop)]
pub(crate) struct Plot {
    pub alloc: Global,
    pub heap: MemHeap,
    pub tree: Tree,
}

impl Plot {
    /// An empty tree.
    pub fn new(alloc: Global) -> Result<Plot, Trouble> {
        let mut heap = begun(alloc)?;
        let tree = Tree::create(alloc, &mut heap)?;
        Ok(Plot { alloc, heap, tree })
    }

    /// What stands under handle 8 where the contents of 8 and on are these.
    pub fn of(alloc: Global, contents: &[&[u8]]) -> Result<Plot, Trouble> {
        let heap = begun(alloc)?;
        let tree = Tree { handle: 8 };
        let mut plot = Plot { alloc, heap, tree };
        for content in contents {
            plot.add(content)?;
        }
        Ok(plot)
    }

    /// Adds a content to the heap.
    pub fn add(&mut self, content: &[u8]) -> Result<u64, Trouble> {
        if !self.heap.ready() {
            return Err(Trouble::Failed);
        }
        if self.heap.depth() == 0 {
            return Err(Trouble::Failed);
        }
        if content.len() > 65_787 {
            return Err(Trouble::Failed);
        }
        self.heap.create(content)
    }

    pub fn set(&mut self, key: &[u8], value: &[u8]) -> Result<(), Trouble> {
        if !self.heap.ready() {
            return Err(Trouble::Failed);
        }
        if self.heap.depth() == 0 {
            return Err(Trouble::Failed);
        }
        if key.len() > 1100 {
            return Err(Trouble::Failed);
        }
        if value.len() > 16 {
            return Err(Trouble::Failed);
        }
        self.tree.set(self.alloc, &mut self.heap, key, value)
    }

    /// Whether a pair with a key was there and is removed.
    pub fn remove(&mut self, key: &[u8]) -> Result<bool, Trouble> {
        if !self.heap.ready() {
            return Err(Trouble::Failed);
        }
        if self.heap.depth() == 0 {
            return Err(Trouble::Failed);
        }
        self.tree.remove(self.alloc, &mut self.heap, key)
    }

    /// Destroys the tree, and answers whether the heap is empty then.
    pub fn destroy(&mut self) -> Result<bool, Trouble> {
        if !self.heap.ready() {
            return Err(Trouble::Failed);
        }
        if self.heap.depth() == 0 {
            return Err(Trouble::Failed);
        }
        self.tree.destroy(self.alloc, &mut self.heap)?;
        Ok(self.heap.is_empty())
    }

    /// The node at a handle.
    pub fn node(&mut self, handle: u64) -> Result<Node, Trouble> {
        if !self.heap.ready() {
            return Err(Trouble::Failed);
        }
        let mut content = Bytes::new(self.alloc);
        self.heap.read(handle, &mut content)?;
        match read_node(self.alloc, content.as_slice()) {
            Ok(node) => Ok(node),
            Err(_) => Err(Trouble::Damaged),
        }
    }

    /// Whether a node has at least so many pairs or children, and is a leaf exactly where it is to be one. The handles of its
    /// children are added to `below`.
    fn is_full(
        &mut self,
        handle: u64,
        least: usize,
        is_leaf: bool,
        below: &mut Items<u64>,
    ) -> Result<bool, Trouble> {
        let children = match self.node(handle)? {
            Node::Leaf(pairs) => return Ok(is_leaf && pairs.len() >= least),
            Node::Inner(children) => children,
        };
        for child in children.as_slice() {
            below.push(child.handle)?;
        }
        Ok(!is_leaf && children.len() >= least)
    }

    /// Whether all nodes of the tree have entries enough, and its leaves stand at one level.
    pub fn is_well(&mut self) -> Result<bool, Trouble> {
        let levels = self.depth()?;
        let mut least = if levels > 1 { 2 } else { 0 };
        let mut handles = Items::new(self.alloc);
        handles.push(self.tree.handle)?;
        for level in 1..levels.saturating_add(1) {
            let mut below = Items::new(self.alloc);
            for handle in handles.as_slice() {
                if !self.is_full(*handle, least, level == levels, &mut below)? {
                    return Ok(false);
                }
            }
            handles = below;
            least = 16;
        }
        Ok(true)
    }

    /// What the tree has at a key.
    pub fn get(&mut self, key: &[u8]) -> Result<Option<Bytes>, Trouble> {
        if !self.heap.ready() {
            return Err(Trouble::Failed);
        }
        let mut value = Bytes::new(self.alloc);
        if self.tree.get(self.alloc, &mut self.heap, key, &mut value)? {
            Ok(Some(value))
        } else {
            Ok(None)
        }
    }

    pub fn depth(&mut self) -> Result<u32, Trouble> {
        if !self.heap.ready() {
            return Err(Trouble::Failed);
        }
        self.tree.depth(self.alloc, &mut self.heap)
    }

    /// The next pair of a cursor.
    pub fn next(&mut self, cursor: &mut Cursor) -> Result<Option<Given>, Trouble> {
        if !self.heap.ready() {
            return Err(Trouble::Failed);
        }
        let mut key = Bytes::new(self.alloc);
        let mut value = Bytes::new(self.alloc);
        if cursor.next(self.alloc, &mut self.heap, &mut key, &mut value)? {
            Ok(Some(Given { key, value }))
        } else {
            Ok(None)
        }
    }

    /// The keys and values of so many pairs from a key on, with a dash behind each pair.
    pub fn listed(&mut self, from: &[u8], count: u32) -> Result<Bytes, Trouble> {
        let mut all = Bytes::new(self.alloc);
        let mut cursor = self.tree.cursor();
        cursor.seek(self.alloc, from)?;
        for _ in 0..count {
            let Some(pair) = self.next(&mut cursor)? else {
                break;
            };
            all.extend(pair.key.as_slice())?;
            all.extend(pair.value.as_slice())?;
            all.extend(b"-")?;
        }
        Ok(all)
    }
}
