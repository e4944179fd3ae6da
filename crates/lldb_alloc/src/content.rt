//! Contents of used blocks, and of handles.
ghost use Rattle.std.specs.Prelude.{◌≡◌, ⊤, ℕ, ◌+◌, ◌*◌, ◌^◌, ◌≤◌, IsTrue, length, take, drop, OnOk, IfSome, MatchOption};
ghost use Rattle.lldb_base.specs.Trouble.{IsCausedTrouble, Refuses};
ghost use Rattle.lldb_base.specs.Contents.{content_of};
ghost use Rattle.lldb_base.specs.Heaps.{MayBeDead};
ghost use Rattle.lldb_atoms.specs.Heads.{atoms_of, IsValid};
ghost use Rattle.lldb_alloc.specs.Frames.{KeepsLevels, KeepsContent, KeepsStops};
ghost use Rattle.lldb_alloc.specs.Reads.{HasUsed, HasContent};
ghost use Rattle.lldb_alloc.specs.Told.{heap_told};

use crate::bytes::read_bytes;
use crate::front::read_block;
use lldb_atoms::Block;
use lldb_base::{Filer, Trouble};
use ql_edge::Bytes;

/// Makes `out` the bytes from a place on, as many as the buffer has room for.
fn fetch<F: Filer>(
    filer: &mut F,
    from: u64,
    buffer: &mut [u8],
    out: &mut Bytes,
) -> Result<(), Trouble>
    requires sound { IsTrue (F.is_sound filer.old) }
    requires within { from + length buffer.old ≤ F.size_of filer.old }
    ensures read { OnOk result (IfSome (F.content filer.old)
        (λ c. out.new ≡ take (length buffer.old) (drop from c))) }
    ensures content { KeepsContent F.content F.size_of filer.old filer.new }
    ensures refuses { Refuses (λ _ _. ⊥) ⊥ result }
    ensures frame { KeepsLevels F.saved F.saved_sizes F.limit_of F.is_sound F.told F.left F.fixed
        filer.old filer.new }
    ensures stops { KeepsStops F.content F.saved F.may_leave F.moment F.left_since F.told filer.old
        filer.new }
    ensures cause { IsCausedTrouble result (F.faults filer.old) (F.faults filer.new) }
{
    read_bytes(filer, from, buffer)?;
    out.clear();
    out.extend(buffer)?;
    Ok(())
}

/// Makes `out` the bytes from a place on, of which there are few.
fn fetch_short<F: Filer>(
    filer: &mut F,
    from: u64,
    count: usize,
    out: &mut Bytes,
) -> Result<(), Trouble>
    requires sound { IsTrue (F.is_sound filer.old) }
    requires within { from + count ≤ F.size_of filer.old }
    requires most { count ≤ 251 }
    ensures read { OnOk result (IfSome (F.content filer.old)
        (λ c. out.new ≡ take count (drop from c))) }
    ensures content { KeepsContent F.content F.size_of filer.old filer.new }
    ensures refuses { Refuses (λ _ _. ⊥) ⊥ result }
    ensures frame { KeepsLevels F.saved F.saved_sizes F.limit_of F.is_sound F.told F.left F.fixed
        filer.old filer.new }
    ensures stops { KeepsStops F.content F.saved F.may_leave F.moment F.left_since F.told filer.old
        filer.new }
    ensures cause { IsCausedTrouble result (F.faults filer.old) (F.faults filer.new) }
{
    let mut buffer = [0; 251];
    fetch(filer, from, &mut buffer[..count], out)
}

/// The same of many bytes, whose buffer takes 64 KiB of the stack.
#[inline(never)]
fn fetch_long<F: Filer>(
    filer: &mut F,
    from: u64,
    count: usize,
    out: &mut Bytes,
) -> Result<(), Trouble>
    requires sound { IsTrue (F.is_sound filer.old) }
    requires within { from + count ≤ F.size_of filer.old }
    requires most { count ≤ 65787 }
    ensures read { OnOk result (IfSome (F.content filer.old)
        (λ c. out.new ≡ take count (drop from c))) }
    ensures content { KeepsContent F.content F.size_of filer.old filer.new }
    ensures refuses { Refuses (λ _ _. ⊥) ⊥ result }
    ensures frame { KeepsLevels F.saved F.saved_sizes F.limit_of F.is_sound F.told F.left F.fixed
        filer.old filer.new }
    ensures stops { KeepsStops F.content F.saved F.may_leave F.moment F.left_since F.told filer.old
        filer.new }
    ensures cause { IsCausedTrouble result (F.faults filer.old) (F.faults filer.new) }
{
    let mut buffer = [0; 65_787];
    fetch(filer, from, &mut buffer[..count], out)
}

/// Makes `out` the content of the used block with this head. Another block is damage.
fn read_used<F: Filer>(filer: &mut F, at: u64, head: &Block, out: &mut Bytes) -> Result<(), Trouble>
    requires sound { IsTrue (F.is_sound filer.old) }
    requires most { F.size_of filer.old ≤ 2 ^ 60 }
    requires valid { IsValid head.now }
    requires within { 16 * (at + atoms_of head.now) ≤ F.size_of filer.old }
    ensures read { IfSome (F.content filer.old) (HasUsed at head.now result out.new) }
    ensures content { KeepsContent F.content F.size_of filer.old filer.new }
    ensures refuses { Refuses (λ _ _. ⊥) ⊤ result }
    ensures frame { KeepsLevels F.saved F.saved_sizes F.limit_of F.is_sound F.told F.left F.fixed
        filer.old filer.new }
    ensures stops { KeepsStops F.content F.saved F.may_leave F.moment F.left_since F.told filer.old
        filer.new }
    ensures cause { IsCausedTrouble result (F.faults filer.old) (F.faults filer.new) }
{
    match *head {
        Block::Short { length } => fetch_short(filer, 16 * at + 1, length as usize, out),
        Block::Long { length } => fetch_long(filer, 16 * at + 3, length as usize, out),
        Block::Relocated { .. } | Block::FreeOne { .. } | Block::Free { .. } => {
            Err(Trouble::Damaged)
        }
    }
}

/// What a block names that is relocated.
pub(crate) fn target_of(block: &Block) -> Option<u64>
    ensures { MatchOption result ((t : ℕ) → block.now ≡ Block.Relocated t → ⊥)
        (λ t. block.now ≡ Block.Relocated t) }
{
    match *block {
        Block::Relocated { target } => Some(target),
        Block::Short { .. } => None,
        Block::Long { .. } => None,
        Block::FreeOne { .. } => None,
        Block::Free { .. } => None,
    }
}

/// Makes `out` the content of a handle, in whatever row of blocks lies in the filer's content.
fn read_handle<F: Filer>(filer: &mut F, handle: u64, out: &mut Bytes) -> Result<(), Trouble>
    requires sound { IsTrue (F.is_sound filer.old) }
    requires most { F.size_of filer.old ≤ 2 ^ 60 }
    ensures read { IfSome (F.content filer.old) (HasContent handle result out.new) }
    ensures content { KeepsContent F.content F.size_of filer.old filer.new }
    ensures refuses { Refuses (λ _ _. ⊥) ⊤ result }
    ensures frame { KeepsLevels F.saved F.saved_sizes F.limit_of F.is_sound F.told F.left F.fixed
        filer.old filer.new }
    ensures stops { KeepsStops F.content F.saved F.may_leave F.moment F.left_since F.told filer.old
        filer.new }
    ensures cause { IsCausedTrouble result (F.faults filer.old) (F.faults filer.new) }
{
    let home = read_block(filer, handle)?;
    match target_of(&home) {
        Some(target) => {
            let block = read_block(filer, target)?;
            read_used(filer, target, &block, out)
        }
        None => read_used(filer, handle, &home, out),
    }
}

/// Makes `out` the content of a handle of the heap that a filer's content holds.
#[tactic(auto, using(crate::proofs::ToldHeaps::content_read, crate::proofs::ToldHeaps::content_damaged, crate::proofs::Stays::stops_none, crate::proofs::Stays::stops_then))]
pub fn read_content<F: Filer>(filer: &mut F, handle: u64, out: &mut Bytes) -> Result<(), Trouble>
    requires sound { IsTrue (F.is_sound filer.old) }
    requires most { F.size_of filer.old ≤ 2 ^ 60 }
    ensures read { OnOk result (IfSome (heap_told (F.content filer.old))
        (λ map. IfSome (content_of handle map) (λ content. out.new ≡ content))) }
    ensures content { KeepsContent F.content F.size_of filer.old filer.new }
    ensures refuses { Refuses (λ _ _. ⊥) (MayBeDead handle (heap_told (F.content filer.old)))
        result }
    ensures frame { KeepsLevels F.saved F.saved_sizes F.limit_of F.is_sound F.told F.left F.fixed
        filer.old filer.new }
    ensures stops { KeepsStops F.content F.saved F.may_leave F.moment F.left_since F.told filer.old
        filer.new }
    ensures cause { IsCausedTrouble result (F.faults filer.old) (F.faults filer.new) }
{
    read_handle(filer, handle, out)
}
