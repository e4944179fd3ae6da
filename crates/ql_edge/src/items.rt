//! Lists that contracts see as their items.
ghost use Rattle.std.specs.Prelude.{◌≡◌, ◌≤◌, [], ◌∷◌, ◌++◌, ◌==◌, ◌-◌, length, take, insert, slice_get, IfOk, OnOk, OnErr};
ghost use Rattle.std.specs.Option.{option_copied};
ghost use Rattle.ql_edge.specs.Disk.{put};

use crate::NoMemory;
use std::alloc::Global;
use std::marker::Model;

/// A growable array that contracts see as the list of its items.
#[derive(Debug, Drop)]
pub struct Items<T> {
    items: Vec<T>,
}

/// A list of bytes.
pub type Bytes = Items<u8>;

/// A list of numbers.
pub type Numbers = Items<u64>;

/// A list of byte lists.
pub type Names0 = Items<Bytes>;

impl<T> Model for Items<T> {
    ghost use Rattle.std.specs.Prelude.{List};
    ghost use Rattle.std.specs.Coded.{coded_list};

    ghost Value = { List T };

    ghost coded = { coded_list T.code };

    ghost view = { λ it. it.items.items };
}

impl<T> Items<T> {
    /// An empty list. It takes no memory.
    pub fn new(alloc: Global) -> Items<T>
        ensures { result ≡ [] }
    {
        Items {
            items: Vec::new(alloc),
        }
    }

    pub fn as_slice(&self) -> &[T]
        ensures { result.now ≡ self.now }
    {
        self.items.as_slice()
    }

    pub fn len(&self) -> usize
        ensures { result ≡ length self.now }
    {
        self.items.len()
    }

    pub fn is_empty(&self) -> bool
        ensures { result ≡ (length self.now == 0) }
    {
        self.items.is_empty()
    }

    pub fn first(&self) -> Option<&T>
        ensures { option_copied result ≡ slice_get self.now 0 }
    {
        self.items.as_slice().first()
    }

    pub fn last(&self) -> Option<&T>
        ensures { option_copied result ≡ slice_get self.now (length self.now - 1) }
    {
        self.items.as_slice().last()
    }

    /// The items as a `Vec`, for a loop that takes them one by one.
    pub fn into_vec(self) -> Vec<T>
        ensures { result.items ≡ self }
    {
        let Items { items } = self;
        items
    }
}

impl<T: Drop> Items<T> {
    /// An empty list with room for so many items.
    pub fn with_capacity(alloc: Global, capacity: usize) -> Result<Items<T>, NoMemory>
        ensures { IfOk result (λ list. list ≡ []) }
    {
        let mut list = Items::new(alloc);
        list.items.reserve_exact(capacity)?;
        Ok(list)
    }

    /// Adds an item at the end. The room of a full list is doubled, from one item on, since most lists of a program are short.
    pub fn push(&mut self, item: T) -> Result<(), NoMemory>
        ensures ok { OnOk result (self.new ≡ self.old ++ item ∷ []) }
        ensures err { OnErr result (self.new ≡ self.old) }
    {
        let len = self.items.len();
        if len == self.items.capacity() {
            self.items.reserve_exact(len.max(1))?;
        }
        self.items.push(item)?;
        Ok(())
    }

    /// Puts an item at a place, before the one that stands there.
    pub fn insert(&mut self, at: usize, item: T) -> Result<(), NoMemory>
        requires { at ≤ length self.old }
        ensures ok { OnOk result (self.new ≡ insert self.old at item) }
        ensures err { OnErr result (self.new ≡ self.old) }
    {
        self.items.insert(at, item)?;
        Ok(())
    }

    /// Gives back the room that the items do not need.
    pub fn shrink_to_fit(&mut self)
        ensures { self.new ≡ self.old }
    {
        self.items.shrink_to_fit();
    }

    /// Lets the items behind the first `len` go.
    pub fn truncate(&mut self, len: usize)
        ensures { self.new ≡ take len self.old }
    {
        self.items.truncate(len);
    }

    /// Lets the items go, and keeps the room.
    pub fn clear(&mut self)
        ensures { self.new ≡ [] }
    {
        self.items.clear();
    }
}

impl<T: Copy> Items<T> {
    /// A list of copies of the items of a slice.
    pub fn from_slice(alloc: Global, items: &[T]) -> Result<Items<T>, NoMemory>
        ensures { IfOk result (λ copy. copy ≡ items.now) }
    {
        let mut copy = Items::new(alloc);
        copy.extend(items)?;
        Ok(copy)
    }

    /// Adds copies of the items of a slice at the end.
    pub fn extend(&mut self, more: &[T]) -> Result<(), NoMemory>
        ensures ok { OnOk result (self.new ≡ self.old ++ more.now) }
        ensures err { OnErr result (self.new ≡ self.old) }
    {
        self.items.extend_from_slice(more)?;
        Ok(())
    }
}

impl Items<u8> {
    /// Puts a piece at a place, over what stands there and past the end.
    pub fn put(&mut self, at: usize, piece: &[u8]) -> Result<(), NoMemory>
        requires { at ≤ length self.old }
        ensures ok { OnOk result (self.new ≡ put at piece.now self.old) }
        ensures err { OnErr result (self.new ≡ self.old) }
    {
        let over = piece.len().min(self.items.len() - at);
        self.items.extend_from_slice(&piece[over..])?;
        self.items[at..at + over].copy_from_slice(&piece[..over]);
        Ok(())
    }
}
