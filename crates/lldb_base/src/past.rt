//! What layers in memory kept before.
ghost use Rattle.std.specs.Prelude.{◌≡◌, [], ◌∷◌, OnOk, OnErr};

use ql_edge::{Bytes, NoMemory};
use std::alloc::Global;
use std::collections::BTreeMap;
use std::marker::Model;

/// A content, and how many bytes were shown when it came.
#[derive(Debug, Drop)]
pub(crate) struct Was {
    pub(crate) shown: u64,
    pub(crate) bytes: Bytes,
}

/// Contents that were replaced, the last first.
#[derive(Debug, Drop)]
pub(crate) struct Past {
    contents: Vec<Was>,
}

impl Model for Past {
    ghost use Rattle.std.specs.Prelude.{List, ℕ, reverse, map};

    ghost Value = { List (ℕ × List ℕ) };

    ghost view = { λ p. reverse (map (λ w. (w.shown, w.bytes)) p.contents.items) };
}

impl Past {
    pub fn new(alloc: Global) -> Past
        ensures { result ≡ [] }
    {
        Past {
            contents: Vec::new(alloc),
        }
    }

    /// Keeps a content that is replaced. After a refusal all is as before.
    #[tactic(auto, using(crate::proofs::Stacked::pushed))]
    pub fn push(&mut self, was: Was) -> Result<(), NoMemory>
        ensures ok { OnOk result (self.new ≡ (was.shown, was.bytes) ∷ self.old) }
        ensures err { OnErr result (self.new ≡ self.old) }
    {
        self.contents.push(was)?;
        Ok(())
    }
}

/// Contents by handle, and how many bytes were shown when they were kept.
#[derive(Drop)]
pub(crate) struct WasMap {
    pub(crate) shown: u64,
    pub(crate) map: BTreeMap<u64, Bytes>,
}

/// Maps that were replaced, the last first.
#[derive(Drop)]
pub(crate) struct PastMaps {
    maps: Vec<WasMap>,
}

impl Model for PastMaps {
    ghost use Rattle.std.specs.Prelude.{List, ℕ, reverse, map};

    ghost Value = { List (ℕ × List (ℕ × List ℕ)) };

    ghost view = { λ p. reverse (map (λ w. (w.shown, w.map.entries)) p.maps.items) };
}

impl PastMaps {
    pub fn new(alloc: Global) -> PastMaps
        ensures { result ≡ [] }
    {
        PastMaps {
            maps: Vec::new(alloc),
        }
    }

    /// Keeps a map that is replaced. After a refusal all is as before.
    #[tactic(auto, using(crate::proofs::Stacked::pushed))]
    pub fn push(&mut self, was: WasMap) -> Result<(), NoMemory>
        ensures ok { OnOk result (self.new ≡ (was.shown, was.map.entries) ∷ self.old) }
        ensures err { OnErr result (self.new ≡ self.old) }
    {
        self.maps.push(was)?;
        Ok(())
    }
}
