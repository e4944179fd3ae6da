//! What holds of blocks, tilings and lists. The calls do nothing: each is a law of definitions.
ghost use Rattle.lldb_atoms.specs.Laws.{BlockLaws, SoundLaws, TableLaws, TilingLaws};

/// The bytes of a block are read as that block and no other, whatever stands behind them.
pub fn block_laws()
    ensures { BlockLaws }
{}

/// Bytes are blocks one behind the other in one way at most.
pub fn tiling_laws()
    ensures { TilingLaws }
{}

/// A table that is written is the one that is read.
pub fn table_laws()
    ensures { TableLaws }
{}

/// An empty content holds nothing, and in a sound one each free block stands in the list of its class and in no other.
pub fn sound_laws()
    ensures { SoundLaws }
{}
