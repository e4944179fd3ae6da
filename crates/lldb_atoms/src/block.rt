//! What the head of a block says.
ghost use Rattle.std.specs.Prelude.{◌≡◌};
ghost use Rattle.lldb_base.specs.Contents.{atoms_for};
ghost use Rattle.lldb_atoms.specs.Heads.{atoms_of};

/// A block as its head tells it.
#[derive(Clone, Copy, Debug, Drop, PartialEq, Eq)]
pub enum Block {
    /// A used block with a content of at most 251 bytes.
    Short { length: u8 },
    /// A used block with a content of 252 to 65,787 bytes.
    Long { length: u32 },
    /// A block whose content stands in another one, the target.
    Relocated { target: u64 },
    /// A free block of one atom, with its neighbours in its list, 0 for none.
    FreeOne { prev: u64, next: u64 },
    /// A free block of two atoms or more, with its neighbours in its list, 0 for none.
    Free { atoms: u64, prev: u64, next: u64 },
}

/// How many atoms of 16 bytes a block takes.
pub fn atoms_of(block: &Block) -> u64
    ensures { result ≡ atoms_of block.now }
{
    match *block {
        Block::Short { length } => atoms_for(u32::from(length)),
        Block::Long { length } => atoms_for(length),
        Block::Relocated { .. } | Block::FreeOne { .. } => 1,
        Block::Free { atoms, .. } => atoms,
    }
}

/// How many atoms of 16 bytes a used block takes that holds so many bytes.
pub fn atoms_for(length: u32) -> u64
    ensures { result ≡ atoms_for length }
{
    let length = u64::from(length);
    if length <= 251 {
        (length + 1) / 16 + 1
    } else {
        (length + 3) / 16 + 1
    }
}
