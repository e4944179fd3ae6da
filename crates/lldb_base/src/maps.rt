//! Maps that were saved.
ghost use Rattle.std.specs.Prelude.{◌≡◌, [], ◌∷◌, length, IfOk, OnOk, OnErr, MatchOption};
ghost use Rattle.std.specs.BTreeMap.{IsOrdered};
ghost use Rattle.std.specs.Ordering.{nat_cmp};
ghost use Rattle.lldb_base.specs.Contents.{with_content};

use ql_edge::{Bytes, NoMemory};
use std::alloc::Global;
use std::collections::BTreeMap;
use std::marker::Model;

/// Maps from handles to contents, the last first.
#[derive(Drop)]
pub(crate) struct Maps {
    maps: Vec<BTreeMap<u64, Bytes>>,
}

impl Model for Maps {
    ghost use Rattle.std.specs.Prelude.{List, ℕ, reverse, map};

    ghost Value = { List (List (ℕ × List ℕ)) };

    ghost view = { λ s. reverse (map (λ m. m.entries) s.maps.items) };
}

impl Maps {
    pub fn new(alloc: Global) -> Maps
        ensures { result ≡ [] }
    {
        Maps {
            maps: Vec::new(alloc),
        }
    }

    pub fn len(&self) -> usize
        ensures { result ≡ length self.now }
    {
        self.maps.len()
    }

    #[tactic(auto, using(crate::proofs::Stacked::pushed))]
    pub fn push(&mut self, map: BTreeMap<u64, Bytes>) -> Result<(), NoMemory>
        ensures ok { OnOk result (self.new ≡ map.entries ∷ self.old) }
        ensures err { OnErr result (self.new ≡ self.old) }
    {
        self.maps.push(map)?;
        Ok(())
    }

    #[tactic(auto, using(crate::proofs::Stacked::pushed))]
    pub fn pop(&mut self) -> Option<BTreeMap<u64, Bytes>>
        ensures { MatchOption result ((self.old ≡ []) × (self.new ≡ []))
            (λ top. self.old ≡ top.entries ∷ self.new) }
    {
        let map = self.maps.pop()?;
        Some(map)
    }

    /// A copy of the only map.
    #[tactic(auto, using(crate::proofs::Stacked::only_one))]
    pub fn copy_only(&self, alloc: Global) -> Result<BTreeMap<u64, Bytes>, NoMemory>
        requires { length self.now ≡ 1 }
        ensures { IfOk result (λ copy. self.now ≡ copy.entries ∷ []) }
    {
        copy_map(alloc, &self.maps[0])
    }
}

/// Puts a content at a handle. After a refusal the map is as before.
pub(crate) fn put_entry(
    map: &mut BTreeMap<u64, Bytes>,
    handle: u64,
    content: Bytes,
) -> Result<(), NoMemory>
    ensures ok { OnOk result (map.new.entries ≡ with_content handle content map.old.entries) }
    ensures err { OnErr result (map.new.entries ≡ map.old.entries) }
    ensures rising { IsOrdered nat_cmp map.new }
{
    map.insert(handle, content)?;
    Ok(())
}

/// A copy of a map.
pub(crate) fn copy_map(
    alloc: Global,
    map: &BTreeMap<u64, Bytes>,
) -> Result<BTreeMap<u64, Bytes>, NoMemory>
    ensures { IfOk result (λ copy. copy.entries ≡ map.now.entries) }
{
    let mut copy = BTreeMap::new(alloc);
    for (handle, content) in map.iter() {
        let content = Bytes::from_slice(alloc, content.as_slice())?;
        put_entry(&mut copy, *handle, content)?;
    }
    Ok(copy)
}
