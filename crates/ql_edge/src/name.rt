//! Names of tables, columns and indexes.
ghost use Rattle.std.specs.Prelude.{◌≡◌, ◌<◌, ◌≤◌, List, length, IfOk};
ghost use Rattle.ql_edge.specs.Names.{longest_name};

use crate::{Bytes, Items, NoMemory};
use std::alloc::Global;
use std::marker::Model;

/// How many bytes a name has at most.
pub const NAME_LIMIT: usize = 128;

/// A name of 1 to `NAME_LIMIT` bytes.
#[derive(Debug, Drop)]
pub struct Name {
    bytes: Bytes,
}

/// A list of names.
pub type Names = Items<Name>;

impl Model for Name {
    ghost use Rattle.std.specs.Prelude.{List, ℕ, ◌<◌, ◌≤◌, length};
    ghost use Rattle.ql_edge.specs.Names.{longest_name};

    ghost Value = { List ℕ };

    ghost view = { λ name. name.bytes };

    ghost invariant = { λ name. (0 < length name.bytes) × (length name.bytes ≤ longest_name) };
}

impl Name {
    /// A copy of the bytes.
    pub fn new(alloc: Global, bytes: &[u8]) -> Result<Name, NoMemory>
        requires some { 0 < length bytes.now }
        requires within { length bytes.now ≤ longest_name }
        ensures { IfOk result (λ name. name ≡ bytes.now) }
    {
        Ok(Name {
            bytes: Bytes::from_slice(alloc, bytes)?,
        })
    }

    pub fn as_slice(&self) -> &[u8]
        ensures value { result.now ≡ self.now }
        ensures some { 0 < length self.now }
        ensures within { length self.now ≤ longest_name }
    {
        self.bytes.as_slice()
    }

    pub fn into_bytes(self) -> Bytes
        ensures { result ≡ self }
    {
        let Name { bytes } = self;
        bytes
    }
}
