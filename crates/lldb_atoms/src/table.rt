//! The table of free lists, which stands at the front of a content.
ghost use Rattle.std.specs.Prelude.{◌≡◌, ◌<◌, ℕ, slice_index, slice_set, flat_map};
ghost use Rattle.lldb_atoms.specs.Numbers.{as_bytes};
ghost use Rattle.lldb_atoms.specs.Lists.{list_head};

use byteorder::{BigEndian, ByteOrder};
use std::marker::Model;

/// The first atom of each list of free blocks, 0 where it is empty, by class.
#[derive(Debug, Drop)]
pub struct FreeTable {
    heads: [u64; 16],
}

impl Model for FreeTable {
    ghost use Rattle.std.specs.Prelude.{List, ℕ, length, ◌≡◌};

    ghost Value = { List ℕ };

    ghost view = { λ t. t.heads };

    ghost invariant = { λ t. length t.heads ≡ 16 };
}

impl FreeTable {
    /// The table in the first 128 bytes of a content.
    #[tactic(auto, unfolding(crate::specs::Lists::list_head, crate::specs::Numbers::number_in))]
    pub fn read(bytes: &[u8; 128]) -> FreeTable
        ensures { (class : ℕ) → class < 16 → slice_index result class ≡ list_head bytes.now class }
    {
        let mut heads = [0; 16];
        BigEndian::read_u64_into(bytes, &mut heads);
        FreeTable { heads }
    }

    /// Writes the table over all of the bytes.
    #[tactic(auto, unfolding(crate::specs::Numbers::as_bytes))]
    pub fn write(&self, bytes: &mut [u8; 128])
        ensures { bytes.new ≡ flat_map (as_bytes 8) self.now }
    {
        BigEndian::write_u64_into(&self.heads, bytes);
    }

    /// The first atom of the list of a class.
    pub fn head(&self, class: u8) -> u64
        requires { class < 16 }
        ensures { result ≡ slice_index self.now class }
    {
        self.heads[class as usize]
    }

    /// Lets the list of a class begin at an atom.
    pub fn set(&mut self, class: u8, atom: u64)
        requires { class < 16 }
        ensures { self.new ≡ slice_set self.old class atom }
    {
        self.heads[class as usize] = atom;
    }
}
