//! Single writes: the head of a list, and the links of a free block.
ghost use Rattle.std.specs.Prelude.{◌≡◌, ℕ, ◌+◌, ◌*◌, ◌^◌, ◌<◌, ◌≤◌, IsTrue, length, option_map, OnOk, IfOk, IfSome, MatchOption};
ghost use Rattle.lldb_base.specs.Batch.{put};
ghost use Rattle.lldb_base.specs.Trouble.{IsCausedTrouble, Refuses};
ghost use Rattle.lldb_atoms.specs.Numbers.{as_bytes};
ghost use Rattle.lldb_atoms.specs.Heads.{atoms_of, IsValid};
ghost use Rattle.lldb_atoms.specs.Blocks.{free_head};
ghost use Rattle.lldb_blocks.specs.Steps.{links_from, SetsHead, SetsPrevious, SetsNext};
ghost use Rattle.lldb_alloc.specs.Frames.{KeepsLevels, KeepsContent, KeepsStops};
ghost use Rattle.lldb_alloc.specs.Changes.{Turns, HasFree, LacksFree};

use crate::bytes::write_bytes;
use crate::front::read_block;
use byteorder::{BigEndian, ByteOrder};
use lldb_atoms::{Block, seven_bytes};
use lldb_base::{Filer, Trouble};

/// A free block with its links.
#[derive(Clone, Copy, Debug)]
pub(crate) struct FreeBlock {
    pub atoms: u64,
    pub previous: u64,
    pub next: u64,
}

/// Writes a piece over bytes that are there.
#[tactic(auto, using(crate::proofs::Singles::not_full, crate::proofs::Stays::stops_none, crate::proofs::Stays::stops_then))]
pub(crate) fn overwrite<F: Filer>(filer: &mut F, at: u64, piece: &[u8]) -> Result<(), Trouble>
    requires sound { IsTrue (F.is_sound filer.old) }
    requires depth { 1 ≤ length (F.saved filer.old) }
    requires most { length piece.now ≤ 65792 }
    requires within { at + length piece.now ≤ F.size_of filer.old }
    ensures written { OnOk result (F.content filer.new ≡ option_map (put at piece.now)
        (F.content filer.old)) }
    ensures size { F.size_of filer.new ≡ F.size_of filer.old }
    ensures refuses { Refuses (λ _ _. ⊥) ⊥ result }
    ensures frame { KeepsLevels F.saved F.saved_sizes F.limit_of F.is_sound F.told F.left F.fixed
        filer.old filer.new }
    ensures stops { KeepsStops F.content F.saved F.may_leave F.moment F.left_since F.told filer.old
        filer.new }
    ensures cause { IsCausedTrouble result (F.faults filer.old) (F.faults filer.new) }
{
    write_bytes(filer, at, piece)?;
    Ok(())
}

/// A number in eight bytes.
#[tactic(auto, unfolding(lldb_atoms::specs::Numbers::as_bytes))]
fn eight_bytes(number: u64) -> [u8; 8]
    ensures { result ≡ as_bytes 8 number }
{
    let mut bytes = [0; 8];
    BigEndian::write_u64(&mut bytes, number);
    bytes
}

/// How many bytes of a free block of so many atoms stand before its links.
fn links_from(atoms: u64) -> u64
    ensures { result ≡ links_from atoms }
{
    if atoms == 1 { 1 } else { 8 }
}

/// A free block as its head tells it.
#[tactic(auto, using(crate::proofs::Uses::many_head, crate::proofs::Uses::short_not_free, crate::proofs::Uses::long_not_free, crate::proofs::Uses::moved_not_free))]
pub(crate) fn free_of(block: &Block) -> Option<FreeBlock>
    requires { IsValid block.now }
    ensures head { MatchOption result ((s p n : ℕ) → block.now ≡ free_head s p n → ⊥)
        (λ free. block.now ≡ free_head free.atoms free.previous free.next) }
    ensures atoms { IfSome result (λ free. (1 ≤ free.atoms) × (free.atoms ≡ atoms_of block.now)) }
    ensures small { IfSome result (λ free. (free.previous < 2 ^ 56) × (free.next < 2 ^ 56)) }
{
    match *block {
        Block::FreeOne { prev, next } => Some(FreeBlock {
            atoms: 1,
            previous: prev,
            next,
        }),
        Block::Free { atoms, prev, next } => Some(FreeBlock {
            atoms,
            previous: prev,
            next,
        }),
        Block::Short { .. } => None,
        Block::Long { .. } => None,
        Block::Relocated { .. } => None,
    }
}

/// The free block at an atom. It is `Damaged` where none is.
pub(crate) fn read_free<F: Filer>(filer: &mut F, at: u64) -> Result<FreeBlock, Trouble>
    requires sound { IsTrue (F.is_sound filer.old) }
    requires most { F.size_of filer.old ≤ 2 ^ 60 }
    ensures free { IfOk result (λ free. IfSome (F.content filer.old) (HasFree at free)) }
    ensures within { IfOk result (λ free. (1 ≤ free.atoms) × (16 * (at + free.atoms) ≤ F.size_of
        filer.old)) }
    ensures small { IfOk result (λ free. (free.previous < 2 ^ 56) × (free.next < 2 ^ 56)) }
    ensures content { KeepsContent F.content F.size_of filer.old filer.new }
    ensures refuses { Refuses (λ _ _. ⊥) (IfSome (F.content filer.old) (LacksFree at)) result }
    ensures frame { KeepsLevels F.saved F.saved_sizes F.limit_of F.is_sound F.told F.left F.fixed
        filer.old filer.new }
    ensures stops { KeepsStops F.content F.saved F.may_leave F.moment F.left_since F.told filer.old
        filer.new }
    ensures cause { IsCausedTrouble result (F.faults filer.old) (F.faults filer.new) }
{
    let block = read_block(filer, at)?;
    match free_of(&block) {
        Some(free) => Ok(free),
        None => Err(Trouble::Damaged),
    }
}

/// Lets the list of a class begin at an atom.
#[tactic(auto, using(crate::proofs::Singles::head_told, crate::proofs::Stays::stops_none, crate::proofs::Stays::stops_then))]
pub(crate) fn set_head<F: Filer>(filer: &mut F, class: u8, atom: u64) -> Result<(), Trouble>
    requires sound { IsTrue (F.is_sound filer.old) }
    requires depth { 1 ≤ length (F.saved filer.old) }
    requires table { 128 ≤ F.size_of filer.old }
    requires class { class < 16 }
    ensures set { OnOk result (Turns (F.content filer.old) (F.content filer.new) (SetsHead class
        atom)) }
    ensures size { F.size_of filer.new ≡ F.size_of filer.old }
    ensures refuses { Refuses (λ _ _. ⊥) ⊥ result }
    ensures frame { KeepsLevels F.saved F.saved_sizes F.limit_of F.is_sound F.told F.left F.fixed
        filer.old filer.new }
    ensures stops { KeepsStops F.content F.saved F.may_leave F.moment F.left_since F.told filer.old
        filer.new }
    ensures cause { IsCausedTrouble result (F.faults filer.old) (F.faults filer.new) }
{
    overwrite(filer, 8 * (class as u64), &eight_bytes(atom))?;
    Ok(())
}

/// Lets the free block at an atom name another one before it in its list.
#[tactic(auto, using(crate::proofs::Singles::previous_told, crate::proofs::Stays::stops_none, crate::proofs::Stays::stops_then))]
pub(crate) fn set_previous<F: Filer>(filer: &mut F, at: u64, value: u64) -> Result<(), Trouble>
    requires sound { IsTrue (F.is_sound filer.old) }
    requires depth { 1 ≤ length (F.saved filer.old) }
    requires most { F.size_of filer.old ≤ 2 ^ 60 }
    requires value { value < 2 ^ 56 }
    ensures set { OnOk result (Turns (F.content filer.old) (F.content filer.new) (SetsPrevious at
        value)) }
    ensures size { F.size_of filer.new ≡ F.size_of filer.old }
    ensures refuses { Refuses (λ _ _. ⊥) (IfSome (F.content filer.old) (LacksFree at)) result }
    ensures frame { KeepsLevels F.saved F.saved_sizes F.limit_of F.is_sound F.told F.left F.fixed
        filer.old filer.new }
    ensures stops { KeepsStops F.content F.saved F.may_leave F.moment F.left_since F.told filer.old
        filer.new }
    ensures cause { IsCausedTrouble result (F.faults filer.old) (F.faults filer.new) }
{
    let free = read_free(filer, at)?;
    let place = 16 * at + links_from(free.atoms);
    overwrite(filer, place, &seven_bytes(value))?;
    Ok(())
}

/// Lets the free block at an atom name another one behind it in its list.
#[tactic(auto, using(crate::proofs::Singles::next_told, crate::proofs::Stays::stops_none, crate::proofs::Stays::stops_then))]
pub(crate) fn set_next<F: Filer>(filer: &mut F, at: u64, value: u64) -> Result<(), Trouble>
    requires sound { IsTrue (F.is_sound filer.old) }
    requires depth { 1 ≤ length (F.saved filer.old) }
    requires most { F.size_of filer.old ≤ 2 ^ 60 }
    requires value { value < 2 ^ 56 }
    ensures set { OnOk result (Turns (F.content filer.old) (F.content filer.new) (SetsNext at
        value)) }
    ensures size { F.size_of filer.new ≡ F.size_of filer.old }
    ensures refuses { Refuses (λ _ _. ⊥) (IfSome (F.content filer.old) (LacksFree at)) result }
    ensures frame { KeepsLevels F.saved F.saved_sizes F.limit_of F.is_sound F.told F.left F.fixed
        filer.old filer.new }
    ensures stops { KeepsStops F.content F.saved F.may_leave F.moment F.left_since F.told filer.old
        filer.new }
    ensures cause { IsCausedTrouble result (F.faults filer.old) (F.faults filer.new) }
{
    let free = read_free(filer, at)?;
    let place = 16 * at + (links_from(free.atoms) + 7);
    overwrite(filer, place, &seven_bytes(value))?;
    Ok(())
}
