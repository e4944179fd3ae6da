//! A content is added.
ghost use Rattle.std.specs.Prelude.{◌≡◌, ◌+◌, ◌*◌, ◌/◌, ◌^◌, ◌<◌, ◌≤◌, max, IsTrue, length, Some, None, OnOk, IfOk, OnErr, IfSome};
ghost use Rattle.lldb_base.specs.Contents.{atoms_for};
ghost use Rattle.lldb_base.specs.Heaps.{IsFull, most_added};
ghost use Rattle.lldb_base.specs.Trouble.{IsCausedTrouble, Refuses, IsOver};
ghost use Rattle.lldb_alloc.specs.Frames.{KeepsLevels, KeepsStops};
ghost use Rattle.lldb_alloc.specs.Changes.{Turns, NewTable};
ghost use Rattle.lldb_alloc.specs.Places.{Places};
ghost use Rattle.lldb_alloc.specs.Room.{FindsRoom, most_free_told};
ghost use Rattle.lldb_alloc.specs.Told.{heap_told, Creates};

use crate::bytes::write_bytes;
use crate::room::{find_room, take_part};
use crate::write::{atoms_taken, write_used};
use lldb_base::{Filer, Trouble};

/// Writes a table of empty lists into an empty content.
#[tactic(auto, using(crate::proofs::Stays::stops_none, crate::proofs::Stays::stops_then))]
fn write_table<F: Filer>(filer: &mut F) -> Result<(), Trouble>
    requires sound { IsTrue (F.is_sound filer.old) }
    requires depth { 1 ≤ length (F.saved filer.old) }
    requires empty { F.size_of filer.old ≡ 0 }
    ensures written { OnOk result (Turns (F.content filer.old) (F.content filer.new) NewTable) }
    ensures size { OnOk result (F.size_of filer.new ≡ 128) }
    ensures size_kept { OnErr result (F.size_of filer.new ≡ 0) }
    ensures fits { OnOk result (128 ≤ F.limit_of filer.old) }
    ensures refuses { Refuses (IsOver 0 (F.limit_of filer.old) 128) ⊥ result }
    ensures frame { KeepsLevels F.saved F.saved_sizes F.limit_of F.is_sound F.told F.left F.fixed
        filer.old filer.new }
    ensures stops { KeepsStops F.content F.saved F.may_leave F.moment F.left_since F.told filer.old
        filer.new }
    ensures cause { IsCausedTrouble result (F.faults filer.old) (F.faults filer.new) }
{
    write_bytes(filer, 0, &[0; 128])?;
    Ok(())
}

/// Adds a content to an empty one.
#[tactic(auto, using(crate::proofs::Stays::stops_none, crate::proofs::Stays::stops_then, crate::proofs::Created::created_first))]
fn create_first<F: Filer>(filer: &mut F, content: &[u8]) -> Result<u64, Trouble>
    requires sound { IsTrue (F.is_sound filer.old) }
    requires depth { 1 ≤ length (F.saved filer.old) }
    requires empty { F.size_of filer.old ≡ 0 }
    requires most { length content.now ≤ 65787 }
    ensures created { IfOk result (λ handle. Creates handle content.now
        (heap_told (F.content filer.old)) (heap_told (F.content filer.new))) }
    ensures place { IfOk result (λ handle. handle ≡ 8) }
    ensures grows { F.size_of filer.new ≤ F.size_of filer.old
        + most_added (atoms_for (length content.now)) (F.size_of filer.old) }
    ensures fits { F.size_of filer.new ≤ max (F.size_of filer.old) (F.limit_of filer.old) }
    ensures refuses { Refuses (IsFull (atoms_for (length content.now)) (most_free_told
        (F.content filer.old)) (F.size_of filer.old) (F.size_of filer.new)
        (Some (F.limit_of filer.old))) ⊥ result }
    ensures frame { KeepsLevels F.saved F.saved_sizes F.limit_of F.is_sound F.told F.left F.fixed
        filer.old filer.new }
    ensures stops { KeepsStops F.content F.saved F.may_leave F.moment F.left_since F.told filer.old
        filer.new }
    ensures cause { IsCausedTrouble result (F.faults filer.old) (F.faults filer.new) }
{
    write_table(filer)?;
    write_used(filer, 8, content)?;
    Ok(8)
}

/// Adds a content in a free block that has enough atoms.
#[tactic(auto, using(crate::proofs::Stays::stops_none, crate::proofs::Stays::stops_then, crate::proofs::Placed::placed_within))]
fn create_within<F: Filer>(filer: &mut F, at: u64, content: &[u8]) -> Result<u64, Trouble>
    requires sound { IsTrue (F.is_sound filer.old) }
    requires depth { 1 ≤ length (F.saved filer.old) }
    requires limits { F.size_of filer.old ≤ 2 ^ 60 }
    requires table { 128 ≤ F.size_of filer.old }
    requires most { length content.now ≤ 65787 }
    requires room { IfSome (F.content filer.old) (FindsRoom (atoms_for (length content.now))
        (Some at)) }
    ensures placed { IfOk result (λ at. Turns (F.content filer.old) (F.content filer.new) (Places at
        content.now)) }
    ensures within { IfOk result (λ at. 16 * (at + atoms_for (length content.now)) ≤ F.size_of
        filer.new) }
    ensures range { IfOk result (λ handle. (8 ≤ handle) × (handle < 2 ^ 64)) }
    ensures size { F.size_of filer.new ≡ F.size_of filer.old }
    ensures refuses { Refuses (λ _ _. ⊥) (heap_told (F.content filer.old) ≡ None) result }
    ensures frame { KeepsLevels F.saved F.saved_sizes F.limit_of F.is_sound F.told F.left F.fixed
        filer.old filer.new }
    ensures stops { KeepsStops F.content F.saved F.may_leave F.moment F.left_since F.told filer.old
        filer.new }
    ensures cause { IsCausedTrouble result (F.faults filer.old) (F.faults filer.new) }
{
    let atoms = atoms_taken(content);
    take_part(filer, at, atoms)?;
    write_used(filer, at, content)?;
    Ok(at)
}

/// Adds a content behind the last block.
#[tactic(auto, using(crate::proofs::Stays::stops_none, crate::proofs::Stays::stops_then, crate::proofs::Placed::placed_behind))]
fn create_behind<F: Filer>(filer: &mut F, content: &[u8]) -> Result<u64, Trouble>
    requires sound { IsTrue (F.is_sound filer.old) }
    requires depth { 1 ≤ length (F.saved filer.old) }
    requires limits { F.size_of filer.old ≤ 2 ^ 60 }
    requires table { 128 ≤ F.size_of filer.old }
    requires whole { F.size_of filer.old / 16 * 16 ≡ F.size_of filer.old }
    requires most { length content.now ≤ 65787 }
    requires room { IfSome (F.content filer.old) (FindsRoom (atoms_for (length content.now))
        None) }
    ensures placed { IfOk result (λ at. Turns (F.content filer.old) (F.content filer.new) (Places at
        content.now)) }
    ensures within { IfOk result (λ at. 16 * (at + atoms_for (length content.now)) ≤ F.size_of
        filer.new) }
    ensures range { IfOk result (λ handle. (8 ≤ handle) × (handle < 2 ^ 64)) }
    ensures stays { F.size_of filer.old ≤ F.size_of filer.new }
    ensures grows { F.size_of filer.new ≤ F.size_of filer.old
        + 16 * atoms_for (length content.now) }
    ensures fits { F.size_of filer.new ≤ max (F.size_of filer.old) (F.limit_of filer.old) }
    ensures refuses { Refuses (IsFull (atoms_for (length content.now)) (most_free_told
        (F.content filer.old)) (F.size_of filer.old) (F.size_of filer.new)
        (Some (F.limit_of filer.old))) ⊥ result }
    ensures frame { KeepsLevels F.saved F.saved_sizes F.limit_of F.is_sound F.told F.left F.fixed
        filer.old filer.new }
    ensures stops { KeepsStops F.content F.saved F.may_leave F.moment F.left_since F.told filer.old
        filer.new }
    ensures cause { IsCausedTrouble result (F.faults filer.old) (F.faults filer.new) }
{
    let at = filer.size() / 16;
    write_used(filer, at, content)?;
    Ok(at)
}

/// Puts a content where none stood, in a filer's content that is not empty, and answers its atom.
pub(crate) fn place_content<F: Filer>(filer: &mut F, content: &[u8]) -> Result<u64, Trouble>
    requires sound { IsTrue (F.is_sound filer.old) }
    requires depth { 1 ≤ length (F.saved filer.old) }
    requires limits { F.size_of filer.old ≤ 2 ^ 60 }
    requires some { F.size_of filer.old ≡ 0 → ⊥ }
    requires most { length content.now ≤ 65787 }
    ensures placed { IfOk result (λ at. Turns (F.content filer.old) (F.content filer.new) (Places at
        content.now)) }
    ensures within { IfOk result (λ at. 16 * (at + atoms_for (length content.now)) ≤ F.size_of
        filer.new) }
    ensures range { IfOk result (λ handle. (8 ≤ handle) × (handle < 2 ^ 64)) }
    ensures stays { F.size_of filer.old ≤ F.size_of filer.new }
    ensures grows { F.size_of filer.new ≤ F.size_of filer.old
        + 16 * atoms_for (length content.now) }
    ensures fits { F.size_of filer.new ≤ max (F.size_of filer.old) (F.limit_of filer.old) }
    ensures refuses { Refuses (IsFull (atoms_for (length content.now)) (most_free_told
        (F.content filer.old)) (F.size_of filer.old) (F.size_of filer.new)
        (Some (F.limit_of filer.old))) (heap_told (F.content filer.old) ≡ None) result }
    ensures frame { KeepsLevels F.saved F.saved_sizes F.limit_of F.is_sound F.told F.left F.fixed
        filer.old filer.new }
    ensures stops { KeepsStops F.content F.saved F.may_leave F.moment F.left_since F.told filer.old
        filer.new }
    ensures cause { IsCausedTrouble result (F.faults filer.old) (F.faults filer.new) }
{
    let size = filer.size();
    if size < 128 {
        return Err(Trouble::Damaged);
    }
    let whole = size / 16 * 16;
    if whole != size {
        return Err(Trouble::Damaged);
    }
    let atoms = atoms_taken(content);
    let found = find_room(filer, atoms)?;
    match found {
        Some(at) => create_within(filer, at, content),
        None => create_behind(filer, content),
    }
}

/// Adds a content, and answers its handle.
pub fn create_content<F: Filer>(filer: &mut F, content: &[u8]) -> Result<u64, Trouble>
    requires sound { IsTrue (F.is_sound filer.old) }
    requires depth { 1 ≤ length (F.saved filer.old) }
    requires limits { F.size_of filer.old ≤ 2 ^ 60 }
    requires most { length content.now ≤ 65787 }
    ensures created { IfOk result (λ handle. Creates handle content.now
        (heap_told (F.content filer.old)) (heap_told (F.content filer.new))) }
    ensures range { IfOk result (λ handle. (8 ≤ handle) × (handle < 2 ^ 64)) }
    ensures grows { F.size_of filer.new ≤ F.size_of filer.old
        + most_added (atoms_for (length content.now)) (F.size_of filer.old) }
    ensures fits { F.size_of filer.new ≤ max (F.size_of filer.old) (F.limit_of filer.old) }
    ensures refuses { Refuses (IsFull (atoms_for (length content.now)) (most_free_told
        (F.content filer.old)) (F.size_of filer.old) (F.size_of filer.new)
        (Some (F.limit_of filer.old))) (heap_told (F.content filer.old) ≡ None) result }
    ensures frame { KeepsLevels F.saved F.saved_sizes F.limit_of F.is_sound F.told F.left F.fixed
        filer.old filer.new }
    ensures stops { KeepsStops F.content F.saved F.may_leave F.moment F.left_since F.told filer.old
        filer.new }
    ensures cause { IsCausedTrouble result (F.faults filer.old) (F.faults filer.new) }
{
    if filer.size() == 0 {
        create_first(filer, content)
    } else {
        place_content(filer, content)
    }
}
