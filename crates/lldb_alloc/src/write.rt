//! A content is written as a used block.
ghost use Rattle.std.specs.Prelude.{◌≡◌, ◌+◌, ◌*◌, ◌≤◌, max, IsTrue, length, OnOk, OnErr};
ghost use Rattle.lldb_base.specs.Batch.{put};
ghost use Rattle.lldb_base.specs.Contents.{atoms_for};
ghost use Rattle.lldb_base.specs.Trouble.{IsCausedTrouble, Refuses, IsOver};
ghost use Rattle.lldb_atoms.specs.Heads.{IsValid};
ghost use Rattle.lldb_atoms.specs.Blocks.{Used, used_head, IsBlock};
ghost use Rattle.lldb_alloc.specs.Frames.{KeepsLevels, KeepsStops};
ghost use Rattle.lldb_alloc.specs.Changes.{Turns, WritesUsed};

use crate::bytes::write_bytes;
use lldb_atoms::{Block, atoms_for, write_head};
use lldb_base::{Filer, Trouble};

/// The head of a used block whose content has so many bytes.
#[tactic(auto, using(crate::proofs::Spelled::short_used, crate::proofs::Spelled::long_used))]
fn used_head(length: usize) -> Block
    requires { length ≤ 65787 }
    ensures head { result ≡ used_head length }
    ensures valid { IsValid result }
{
    if length <= 251 {
        Block::Short {
            length: length as u8,
        }
    } else {
        Block::Long {
            length: length as u32,
        }
    }
}

/// How many atoms a content takes.
pub(crate) fn atoms_taken(content: &[u8]) -> u64
    requires { length content.now ≤ 65787 }
    ensures { result ≡ atoms_for (length content.now) }
{
    atoms_for(content.len() as u32)
}

/// Writes bytes into a buffer from a place on.
fn lay(buffer: &mut [u8], at: usize, piece: &[u8])
    requires { at + length piece.now ≤ length buffer.old }
    ensures { buffer.new ≡ put at piece.now buffer.old }
{
    buffer[at..at + piece.len()].copy_from_slice(piece);
}

/// Makes the bytes of a used block. Those between its content and the last one stay.
fn spell(content: &[u8], buffer: &mut [u8])
    requires most { length content.now ≤ 65787 }
    requires whole { length buffer.old ≡ 16 * atoms_for (length content.now) }
    ensures { IsBlock 0 0 (Used content.now) buffer.new }
{
    let block = used_head(content.len());
    let mut head = [0; 32];
    let count = write_head(&block, &mut head) as usize;
    lay(buffer, 0, &head[..count]);
    lay(buffer, count, content);
    let last = buffer.len() - 1;
    lay(buffer, last, &[0]);
}

/// Writes the used block of a content at an atom. Its bytes are made in a buffer of their number.
fn write_block<F: Filer>(
    filer: &mut F,
    at: u64,
    content: &[u8],
    buffer: &mut [u8],
) -> Result<(), Trouble>
    requires sound { IsTrue (F.is_sound filer.old) }
    requires depth { 1 ≤ length (F.saved filer.old) }
    requires within { 16 * at ≤ F.size_of filer.old }
    requires most { length content.now ≤ 65787 }
    requires whole { length buffer.old ≡ 16 * atoms_for (length content.now) }
    ensures written { OnOk result (Turns (F.content filer.old) (F.content filer.new) (WritesUsed at
        content.now)) }
    ensures size { OnOk result (F.size_of filer.new ≡ max (F.size_of filer.old)
        (16 * at + 16 * atoms_for (length content.now))) }
    ensures size_kept { OnErr result (F.size_of filer.new ≡ F.size_of filer.old) }
    ensures fits { OnOk result (16 * at + 16 * atoms_for (length content.now)
        ≤ max (F.size_of filer.old) (F.limit_of filer.old)) }
    ensures refuses { Refuses (IsOver (F.size_of filer.old) (F.limit_of filer.old)
        (16 * at + 16 * atoms_for (length content.now))) ⊥ result }
    ensures frame { KeepsLevels F.saved F.saved_sizes F.limit_of F.is_sound F.told F.left F.fixed
        filer.old filer.new }
    ensures stops { KeepsStops F.content F.saved F.may_leave F.moment F.left_since F.told filer.old
        filer.new }
    ensures cause { IsCausedTrouble result (F.faults filer.old) (F.faults filer.new) }
{
    spell(content, buffer);
    write_bytes(filer, 16 * at, buffer)
}

/// Writes the used block of a content of few bytes.
#[tactic(auto, using(crate::proofs::Stays::stops_none, crate::proofs::Stays::stops_then, crate::proofs::Spelled::short_bytes))]
fn write_short<F: Filer>(filer: &mut F, at: u64, content: &[u8]) -> Result<(), Trouble>
    requires sound { IsTrue (F.is_sound filer.old) }
    requires depth { 1 ≤ length (F.saved filer.old) }
    requires within { 16 * at ≤ F.size_of filer.old }
    requires most { length content.now ≤ 251 }
    ensures written { OnOk result (Turns (F.content filer.old) (F.content filer.new) (WritesUsed at
        content.now)) }
    ensures size { OnOk result (F.size_of filer.new ≡ max (F.size_of filer.old)
        (16 * at + 16 * atoms_for (length content.now))) }
    ensures size_kept { OnErr result (F.size_of filer.new ≡ F.size_of filer.old) }
    ensures fits { OnOk result (16 * at + 16 * atoms_for (length content.now)
        ≤ max (F.size_of filer.old) (F.limit_of filer.old)) }
    ensures refuses { Refuses (IsOver (F.size_of filer.old) (F.limit_of filer.old)
        (16 * at + 16 * atoms_for (length content.now))) ⊥ result }
    ensures frame { KeepsLevels F.saved F.saved_sizes F.limit_of F.is_sound F.told F.left F.fixed
        filer.old filer.new }
    ensures stops { KeepsStops F.content F.saved F.may_leave F.moment F.left_since F.told filer.old
        filer.new }
    ensures cause { IsCausedTrouble result (F.faults filer.old) (F.faults filer.new) }
{
    let mut buffer = [0; 256];
    let count = 16 * atoms_taken(content) as usize;
    write_block(filer, at, content, &mut buffer[..count])
}

/// The same of many bytes, whose buffer takes 64 KiB of the stack.
#[inline(never)]
#[tactic(auto, using(crate::proofs::Stays::stops_none, crate::proofs::Stays::stops_then, crate::proofs::Spelled::long_bytes))]
fn write_long<F: Filer>(filer: &mut F, at: u64, content: &[u8]) -> Result<(), Trouble>
    requires sound { IsTrue (F.is_sound filer.old) }
    requires depth { 1 ≤ length (F.saved filer.old) }
    requires within { 16 * at ≤ F.size_of filer.old }
    requires most { length content.now ≤ 65787 }
    ensures written { OnOk result (Turns (F.content filer.old) (F.content filer.new) (WritesUsed at
        content.now)) }
    ensures size { OnOk result (F.size_of filer.new ≡ max (F.size_of filer.old)
        (16 * at + 16 * atoms_for (length content.now))) }
    ensures size_kept { OnErr result (F.size_of filer.new ≡ F.size_of filer.old) }
    ensures fits { OnOk result (16 * at + 16 * atoms_for (length content.now)
        ≤ max (F.size_of filer.old) (F.limit_of filer.old)) }
    ensures refuses { Refuses (IsOver (F.size_of filer.old) (F.limit_of filer.old)
        (16 * at + 16 * atoms_for (length content.now))) ⊥ result }
    ensures frame { KeepsLevels F.saved F.saved_sizes F.limit_of F.is_sound F.told F.left F.fixed
        filer.old filer.new }
    ensures stops { KeepsStops F.content F.saved F.may_leave F.moment F.left_since F.told filer.old
        filer.new }
    ensures cause { IsCausedTrouble result (F.faults filer.old) (F.faults filer.new) }
{
    let mut buffer = [0; 65_792];
    let count = 16 * atoms_taken(content) as usize;
    write_block(filer, at, content, &mut buffer[..count])
}

/// Writes the used block of a content at an atom, over what stands there or behind the end.
pub(crate) fn write_used<F: Filer>(filer: &mut F, at: u64, content: &[u8]) -> Result<(), Trouble>
    requires sound { IsTrue (F.is_sound filer.old) }
    requires depth { 1 ≤ length (F.saved filer.old) }
    requires within { 16 * at ≤ F.size_of filer.old }
    requires most { length content.now ≤ 65787 }
    ensures written { OnOk result (Turns (F.content filer.old) (F.content filer.new) (WritesUsed at
        content.now)) }
    ensures size { OnOk result (F.size_of filer.new ≡ max (F.size_of filer.old)
        (16 * at + 16 * atoms_for (length content.now))) }
    ensures size_kept { OnErr result (F.size_of filer.new ≡ F.size_of filer.old) }
    ensures fits { OnOk result (16 * at + 16 * atoms_for (length content.now)
        ≤ max (F.size_of filer.old) (F.limit_of filer.old)) }
    ensures refuses { Refuses (IsOver (F.size_of filer.old) (F.limit_of filer.old)
        (16 * at + 16 * atoms_for (length content.now))) ⊥ result }
    ensures frame { KeepsLevels F.saved F.saved_sizes F.limit_of F.is_sound F.told F.left F.fixed
        filer.old filer.new }
    ensures stops { KeepsStops F.content F.saved F.may_leave F.moment F.left_since F.told filer.old
        filer.new }
    ensures cause { IsCausedTrouble result (F.faults filer.old) (F.faults filer.new) }
{
    if content.len() <= 251 {
        write_short(filer, at, content)
    } else {
        write_long(filer, at, content)
    }
}
