//! Lists of free blocks: a block is taken out of its list, or put into it.
ghost use Rattle.std.specs.Prelude.{◌≡◌, ◌+◌, ◌*◌, ◌^◌, ◌<◌, ◌≤◌, [], ◌∷◌, ◌++◌, IsTrue, length, option_map, OnOk, IfOk, IfSome};
ghost use Rattle.lldb_base.specs.Batch.{put};
ghost use Rattle.lldb_base.specs.Trouble.{IsCausedTrouble, Refuses};
ghost use Rattle.lldb_atoms.specs.Numbers.{as_bytes};
ghost use Rattle.lldb_atoms.specs.Heads.{head_of, IsValid};
ghost use Rattle.lldb_atoms.specs.Blocks.{free_head};
ghost use Rattle.lldb_atoms.specs.Lists.{list_head};
ghost use Rattle.lldb_blocks.specs.Steps.{Forward, Backward, SetsFree, Takes, Puts};
ghost use Rattle.lldb_alloc.specs.Frames.{KeepsLevels, KeepsContent, KeepsStops};
ghost use Rattle.lldb_alloc.specs.Changes.{Turns, LacksFree, LacksListed, LacksHole, LacksRow};

use crate::bytes::read_bytes;
use crate::links::{overwrite, read_free, set_head, set_next, set_previous};
use byteorder::{BigEndian, ByteOrder};
use lldb_atoms::{Block, class_of, tail, write_head};
use lldb_base::{Filer, Trouble};

/// What stood before a free block that is taken out names what stood behind it: the block before, or the head of its list.
fn pass_forward<F: Filer>(filer: &mut F, class: u8, previous: u64, next: u64) -> Result<(), Trouble>
    requires sound { IsTrue (F.is_sound filer.old) }
    requires depth { 1 ≤ length (F.saved filer.old) }
    requires most { F.size_of filer.old ≤ 2 ^ 60 }
    requires table { 128 ≤ F.size_of filer.old }
    requires class { class < 16 }
    requires next { next < 2 ^ 56 }
    ensures passed { OnOk result (Turns (F.content filer.old) (F.content filer.new) (Forward class
        previous next)) }
    ensures size { F.size_of filer.new ≡ F.size_of filer.old }
    ensures refuses { Refuses (λ _ _. ⊥) ((previous ≡ 0 → ⊥) × IfSome (F.content filer.old)
        (LacksFree previous)) result }
    ensures frame { KeepsLevels F.saved F.saved_sizes F.limit_of F.is_sound F.told F.left F.fixed
        filer.old filer.new }
    ensures stops { KeepsStops F.content F.saved F.may_leave F.moment F.left_since F.told filer.old
        filer.new }
    ensures cause { IsCausedTrouble result (F.faults filer.old) (F.faults filer.new) }
{
    if previous == 0 {
        set_head(filer, class, next)
    } else {
        set_next(filer, previous, next)
    }
}

/// The free block behind, where there is one, names the one before.
fn pass_backward<F: Filer>(filer: &mut F, previous: u64, next: u64) -> Result<(), Trouble>
    requires sound { IsTrue (F.is_sound filer.old) }
    requires depth { 1 ≤ length (F.saved filer.old) }
    requires most { F.size_of filer.old ≤ 2 ^ 60 }
    requires previous { previous < 2 ^ 56 }
    ensures passed { OnOk result (Turns (F.content filer.old) (F.content filer.new) (Backward
        previous next)) }
    ensures size { F.size_of filer.new ≡ F.size_of filer.old }
    ensures refuses { Refuses (λ _ _. ⊥) ((next ≡ 0 → ⊥) × IfSome (F.content filer.old)
        (LacksFree next)) result }
    ensures frame { KeepsLevels F.saved F.saved_sizes F.limit_of F.is_sound F.told F.left F.fixed
        filer.old filer.new }
    ensures stops { KeepsStops F.content F.saved F.may_leave F.moment F.left_since F.told filer.old
        filer.new }
    ensures cause { IsCausedTrouble result (F.faults filer.old) (F.faults filer.new) }
{
    if next == 0 {
        Ok(())
    } else {
        set_previous(filer, next, previous)
    }
}

/// Takes the free block at an atom out of its list, and answers how many atoms it has.
pub(crate) fn unlink<F: Filer>(filer: &mut F, at: u64) -> Result<u64, Trouble>
    requires sound { IsTrue (F.is_sound filer.old) }
    requires depth { 1 ≤ length (F.saved filer.old) }
    requires most { F.size_of filer.old ≤ 2 ^ 60 }
    requires table { 128 ≤ F.size_of filer.old }
    ensures taken { IfOk result (λ atoms. Turns (F.content filer.old) (F.content filer.new) (Takes at
        atoms)) }
    ensures within { IfOk result (λ atoms. (1 ≤ atoms) × (16 * (at + atoms) ≤ F.size_of
        filer.old)) }
    ensures size { F.size_of filer.new ≡ F.size_of filer.old }
    ensures refuses { Refuses (λ _ _. ⊥) (IfSome (F.content filer.old) (LacksListed at)) result }
    ensures frame { KeepsLevels F.saved F.saved_sizes F.limit_of F.is_sound F.told F.left F.fixed
        filer.old filer.new }
    ensures stops { KeepsStops F.content F.saved F.may_leave F.moment F.left_since F.told filer.old
        filer.new }
    ensures cause { IsCausedTrouble result (F.faults filer.old) (F.faults filer.new) }
{
    let free = read_free(filer, at)?;
    pass_forward(filer, class_of(free.atoms), free.previous, free.next)?;
    pass_backward(filer, free.previous, free.next)?;
    Ok(free.atoms)
}

/// The first atom of the list of a class, 0 where it is empty.
pub(crate) fn read_list<F: Filer>(filer: &mut F, class: u8) -> Result<u64, Trouble>
    requires sound { IsTrue (F.is_sound filer.old) }
    requires most { F.size_of filer.old ≤ 2 ^ 60 }
    requires table { 128 ≤ F.size_of filer.old }
    requires class { class < 16 }
    ensures list { IfOk result (λ first. IfSome (F.content filer.old)
        (λ c. list_head c class ≡ first)) }
    ensures small { IfOk result (λ first. first < 2 ^ 56) }
    ensures content { KeepsContent F.content F.size_of filer.old filer.new }
    ensures refuses { Refuses (λ _ _. ⊥) (IfSome (F.content filer.old) LacksRow) result }
    ensures frame { KeepsLevels F.saved F.saved_sizes F.limit_of F.is_sound F.told F.left F.fixed
        filer.old filer.new }
    ensures stops { KeepsStops F.content F.saved F.may_leave F.moment F.left_since F.told filer.old
        filer.new }
    ensures cause { IsCausedTrouble result (F.faults filer.old) (F.faults filer.new) }
{
    let mut bytes = [0; 8];
    read_bytes(filer, 8 * (class as u64), &mut bytes)?;
    let first = BigEndian::read_u64(&bytes);
    if first >= 0x0100_0000_0000_0000 {
        return Err(Trouble::Damaged);
    }
    Ok(first)
}

/// The head of a free block that is the first of its list.
#[tactic(auto, using(crate::proofs::Joins::one_head, crate::proofs::Joins::many_heads))]
fn first_free(atoms: u64, next: u64) -> Block
    requires some { 1 ≤ atoms }
    requires small { atoms < 2 ^ 56 }
    requires next { next < 2 ^ 56 }
    ensures head { result ≡ free_head atoms 0 next }
    ensures valid { IsValid result }
{
    if atoms == 1 {
        Block::FreeOne { prev: 0, next }
    } else {
        Block::Free {
            atoms,
            prev: 0,
            next,
        }
    }
}

/// Writes the head of a block over bytes that are there.
pub(crate) fn write_front<F: Filer>(filer: &mut F, at: u64, block: &Block) -> Result<(), Trouble>
    requires sound { IsTrue (F.is_sound filer.old) }
    requires depth { 1 ≤ length (F.saved filer.old) }
    requires most { F.size_of filer.old ≤ 2 ^ 60 }
    requires valid { IsValid block.now }
    requires within { 16 * at + length (head_of block.now) ≤ F.size_of filer.old }
    ensures written { OnOk result (F.content filer.new ≡ option_map (put (16 * at) (head_of
        block.now)) (F.content filer.old)) }
    ensures size { F.size_of filer.new ≡ F.size_of filer.old }
    ensures refuses { Refuses (λ _ _. ⊥) ⊥ result }
    ensures frame { KeepsLevels F.saved F.saved_sizes F.limit_of F.is_sound F.told F.left F.fixed
        filer.old filer.new }
    ensures stops { KeepsStops F.content F.saved F.may_leave F.moment F.left_since F.told filer.old
        filer.new }
    ensures cause { IsCausedTrouble result (F.faults filer.old) (F.faults filer.new) }
{
    let mut head = [0; 32];
    let count = write_head(block, &mut head) as usize;
    overwrite(filer, 16 * at, &head[..count])
}

/// Makes a hole of so many atoms a free block, the first of its list.
#[tactic(auto, using(crate::proofs::Fits::head_fits, crate::proofs::Joins::one_free, crate::proofs::Joins::more_free, crate::proofs::Stays::stops_none, crate::proofs::Stays::stops_then))]
fn write_free<F: Filer>(filer: &mut F, at: u64, atoms: u64, next: u64) -> Result<(), Trouble>
    requires sound { IsTrue (F.is_sound filer.old) }
    requires depth { 1 ≤ length (F.saved filer.old) }
    requires most { F.size_of filer.old ≤ 2 ^ 60 }
    requires some { 1 ≤ atoms }
    requires within { 16 * (at + atoms) ≤ F.size_of filer.old }
    requires small { atoms < 2 ^ 56 }
    requires next { next < 2 ^ 56 }
    ensures written { OnOk result (Turns (F.content filer.old) (F.content filer.new) (SetsFree at
        atoms 0 next)) }
    ensures size { F.size_of filer.new ≡ F.size_of filer.old }
    ensures refuses { Refuses (λ _ _. ⊥) ⊥ result }
    ensures frame { KeepsLevels F.saved F.saved_sizes F.limit_of F.is_sound F.told F.left F.fixed
        filer.old filer.new }
    ensures stops { KeepsStops F.content F.saved F.may_leave F.moment F.left_since F.told filer.old
        filer.new }
    ensures cause { IsCausedTrouble result (F.faults filer.old) (F.faults filer.new) }
{
    let block = first_free(atoms, next);
    write_front(filer, at, &block)?;
    if atoms == 1 {
        return Ok(());
    }
    overwrite(filer, 16 * (at + atoms) - 8, &ending(atoms))?;
    Ok(())
}

/// The bytes with which a free block of several atoms ends.
#[tactic(auto, unfolding(lldb_atoms::specs::Numbers::as_bytes))]
fn ending(atoms: u64) -> [u8; 8]
    requires some { 2 ≤ atoms }
    requires small { atoms < 2 ^ 56 }
    ensures { result ≡ as_bytes 7 atoms ++ 255 ∷ [] }
{
    let mut bytes = [0; 8];
    tail(
        &Block::Free {
            atoms,
            prev: 0,
            next: 0,
        },
        &mut bytes,
    );
    bytes
}

/// Puts a hole of so many atoms into the list of its class, as its first block.
pub(crate) fn link<F: Filer>(filer: &mut F, at: u64, atoms: u64) -> Result<(), Trouble>
    requires sound { IsTrue (F.is_sound filer.old) }
    requires depth { 1 ≤ length (F.saved filer.old) }
    requires most { F.size_of filer.old ≤ 2 ^ 60 }
    requires table { 128 ≤ F.size_of filer.old }
    requires start { 8 ≤ at }
    requires some { 1 ≤ atoms }
    requires within { 16 * (at + atoms) ≤ F.size_of filer.old }
    ensures listed { OnOk result (Turns (F.content filer.old) (F.content filer.new) (Puts at
        atoms)) }
    ensures size { F.size_of filer.new ≡ F.size_of filer.old }
    ensures refuses { Refuses (λ _ _. ⊥) (IfSome (F.content filer.old) (LacksHole at atoms))
        result }
    ensures frame { KeepsLevels F.saved F.saved_sizes F.limit_of F.is_sound F.told F.left F.fixed
        filer.old filer.new }
    ensures stops { KeepsStops F.content F.saved F.may_leave F.moment F.left_since F.told filer.old
        filer.new }
    ensures cause { IsCausedTrouble result (F.faults filer.old) (F.faults filer.new) }
{
    let class = class_of(atoms);
    let first = read_list(filer, class)?;
    pass_backward(filer, at, first)?;
    write_free(filer, at, atoms, first)?;
    set_head(filer, class, at)?;
    Ok(())
}
