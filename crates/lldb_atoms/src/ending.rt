//! The last bytes of a block.
ghost use Rattle.std.specs.Prelude.{◌≡◌, ◌++◌, length, drop};
ghost use Rattle.lldb_atoms.specs.Heads.{ending_of, IsValid};

use crate::block::Block;
use crate::numbers::seven_bytes;

/// Writes the bytes with which a block ends, and answers how many there are. The others stay.
pub fn tail(block: &Block, out: &mut [u8; 8]) -> u8
    requires { IsValid block.now }
    ensures count { result ≡ length (ending_of block.now) }
    ensures written { out.new ≡ ending_of block.now ++ drop (length (ending_of block.now)) out.old }
{
    match *block {
        Block::Short { .. } | Block::Long { .. } | Block::Relocated { .. } => {
            out[0] = 0;
            1
        }
        Block::FreeOne { .. } => {
            out[0] = 254;
            1
        }
        Block::Free { atoms, .. } => {
            out[..7].copy_from_slice(&seven_bytes(atoms));
            out[7] = 255;
            8
        }
    }
}
