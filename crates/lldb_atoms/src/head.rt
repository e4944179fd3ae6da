//! Heads of blocks.
ghost use Rattle.std.specs.Prelude.{◌≡◌, ◌++◌, ◌≤◌, ◌+◌, length, drop, Some, IfSome, MatchOption, slice_index};
ghost use Rattle.lldb_base.specs.Batch.{put};
ghost use Rattle.lldb_atoms.specs.Heads.{head_of, head_at, atoms_of, HasHead, IsValid};
ghost use Rattle.lldb_atoms.specs.declared.block.Block.{Block};

use crate::block::{Block, atoms_of};
use crate::numbers::{read_seven, read_two, seven_bytes, two_bytes};

/// The block of at most `left` atoms with whose head the bytes begin. Those past the head are not looked at, and are
/// zeros where the content ends before.
#[tactic(auto, using(crate::proofs::ReadHeads::read_some, crate::proofs::ReadHeads::read_only, crate::proofs::ReadHeads::read_none, crate::proofs::ReadHeads::none_only, crate::proofs::ReadHeads::nothing_read))]
pub fn read_head(head: &[u8; 32], left: u64) -> Option<Block>
    ensures head { result ≡ head_at left head.now }
    ensures found { IfSome result (HasHead head.now) }
    ensures room { IfSome result (λ block. atoms_of block ≤ left) }
    ensures only { (block : Block) → HasHead head.now block → atoms_of block ≤ left
        → result ≡ Some block }
{
    match told(head) {
        Some(block) => {
            if atoms_of(&block) <= left {
                Some(block)
            } else {
                None
            }
        }
        None => None,
    }
}

/// The block with whose head the bytes begin.
fn told(head: &[u8; 32]) -> Option<Block>
    ensures { MatchOption result ((block : Block) → ¬ HasHead head.now block) (HasHead head.now) }
{
    match head[0] {
        252 => Some(long(head)),
        253 => relocated(head),
        254 => free_one(head),
        255 => free(head),
        length => Some(Block::Short { length }),
    }
}

fn long(head: &[u8; 32]) -> Block
    requires { slice_index head.now 0 ≡ 252 }
    ensures { HasHead head.now result }
{
    Block::Long {
        length: 252 + u32::from(read_two(&head[1..])),
    }
}

#[tactic(auto, using(crate::proofs::ReadHeads::relocated_head, crate::proofs::ReadHeads::not_relocated))]
fn relocated(head: &[u8; 32]) -> Option<Block>
    requires { slice_index head.now 0 ≡ 253 }
    ensures { MatchOption result ((block : Block) → ¬ HasHead head.now block) (HasHead head.now) }
{
    let target = read_seven(&head[1..]);
    if head[8..].starts_with(&[0; 8]) {
        Some(Block::Relocated { target })
    } else {
        None
    }
}

#[tactic(auto, using(crate::proofs::ReadHeads::not_one))]
fn free_one(head: &[u8; 32]) -> Option<Block>
    requires { slice_index head.now 0 ≡ 254 }
    ensures { MatchOption result ((block : Block) → ¬ HasHead head.now block) (HasHead head.now) }
{
    let prev = read_seven(&head[1..]);
    let next = read_seven(&head[8..]);
    if head[15] == 254 {
        Some(Block::FreeOne { prev, next })
    } else {
        None
    }
}

#[tactic(auto, using(crate::proofs::ReadHeads::not_free))]
fn free(head: &[u8; 32]) -> Option<Block>
    requires { slice_index head.now 0 ≡ 255 }
    ensures { MatchOption result ((block : Block) → ¬ HasHead head.now block) (HasHead head.now) }
{
    let atoms = read_seven(&head[1..]);
    let prev = read_seven(&head[8..]);
    let next = read_seven(&head[15..]);
    if atoms >= 2 {
        Some(Block::Free { atoms, prev, next })
    } else {
        None
    }
}

/// Writes the head of a block, and answers how many bytes it has. The others stay.
#[tactic(auto, using(crate::proofs::Put::wrote_short, crate::proofs::Put::wrote_long, crate::proofs::Put::wrote_relocated, crate::proofs::Put::wrote_one, crate::proofs::Put::wrote_free))]
pub fn write_head(block: &Block, head: &mut [u8; 32]) -> u8
    requires { IsValid block.now }
    ensures count { result ≡ length (head_of block.now) }
    ensures written { head.new ≡ head_of block.now ++ drop (length (head_of block.now)) head.old }
{
    match *block {
        Block::Short { length } => {
            put(head, 0, &[length]);
            1
        }
        Block::Long { length } => {
            put(head, 0, &[252]);
            put(head, 1, &two_bytes((length - 252) as u16));
            3
        }
        Block::Relocated { target } => {
            put(head, 0, &[253]);
            put(head, 1, &seven_bytes(target));
            put(head, 8, &[0; 8]);
            16
        }
        Block::FreeOne { prev, next } => {
            put(head, 0, &[254]);
            put(head, 1, &seven_bytes(prev));
            put(head, 8, &seven_bytes(next));
            put(head, 15, &[254]);
            16
        }
        Block::Free { atoms, prev, next } => {
            put(head, 0, &[255]);
            put(head, 1, &seven_bytes(atoms));
            put(head, 8, &seven_bytes(prev));
            put(head, 15, &seven_bytes(next));
            22
        }
    }
}

/// Writes bytes from a place on.
fn put(head: &mut [u8; 32], at: usize, piece: &[u8])
    requires { at + length piece.now ≤ 32 }
    ensures { head.new ≡ put at piece.now head.old }
{
    head[at..at + piece.len()].copy_from_slice(piece);
}
