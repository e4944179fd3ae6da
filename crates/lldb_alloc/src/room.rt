//! Where a content finds room: a free block of enough atoms.
ghost use Rattle.std.specs.Prelude.{◌≡◌, ◌+◌, ◌*◌, ◌^◌, ◌<◌, ◌≤◌, IsTrue, length, IfOk, OnOk, IfSome};
ghost use Rattle.lldb_base.specs.Trouble.{IsCausedTrouble, Refuses};
ghost use Rattle.lldb_alloc.specs.Frames.{KeepsLevels, KeepsContent, KeepsStops};
ghost use Rattle.lldb_alloc.specs.Changes.{Turns, LacksRow, LacksPart, TakesPart};
ghost use Rattle.lldb_alloc.specs.Room.{FindsIn, FirstFrom, FindsRoom};

use crate::chain::{link, read_list, unlink};
use crate::links::read_free;
use lldb_atoms::class_of;
use lldb_base::{Filer, Trouble};

/// The first block of a list that has so many atoms.
///
/// No list of a sound content has more blocks than the content has atoms. A longer one is `Damaged`.
pub(crate) fn first_fit<F: Filer>(
    filer: &mut F,
    class: u8,
    wanted: u64,
) -> Result<Option<u64>, Trouble>
    requires sound { IsTrue (F.is_sound filer.old) }
    requires most { F.size_of filer.old ≤ 2 ^ 60 }
    requires table { 128 ≤ F.size_of filer.old }
    requires class { class < 16 }
    ensures found { IfOk result (λ found. IfSome (F.content filer.old) (FindsIn class wanted
        found)) }
    ensures content { KeepsContent F.content F.size_of filer.old filer.new }
    ensures refuses { Refuses (λ _ _. ⊥) (IfSome (F.content filer.old) LacksRow) result }
    ensures frame { KeepsLevels F.saved F.saved_sizes F.limit_of F.is_sound F.told F.left F.fixed
        filer.old filer.new }
    ensures stops { KeepsStops F.content F.saved F.may_leave F.moment F.left_since F.told filer.old
        filer.new }
    ensures cause { IsCausedTrouble result (F.faults filer.old) (F.faults filer.new) }
{
    let most = filer.size() / 16;
    let mut here = read_list(filer, class)?;
    let mut left = most + 1;
    'walk: while left > 0 {
        if here == 0 {
            return Ok(None);
        }
        let free = read_free(filer, here)?;
        if free.atoms >= wanted {
            return Ok(Some(here));
        }
        here = free.next;
        left -= 1;
    }
    Err(Trouble::Damaged)
}

/// The first block of the first list from a class on that is not empty.
pub(crate) fn first_from<F: Filer>(filer: &mut F, from: u8) -> Result<Option<u64>, Trouble>
    requires sound { IsTrue (F.is_sound filer.old) }
    requires most { F.size_of filer.old ≤ 2 ^ 60 }
    requires table { 128 ≤ F.size_of filer.old }
    requires from { from ≤ 16 }
    ensures found { IfOk result (λ found. IfSome (F.content filer.old) (FirstFrom from found)) }
    ensures content { KeepsContent F.content F.size_of filer.old filer.new }
    ensures refuses { Refuses (λ _ _. ⊥) (IfSome (F.content filer.old) LacksRow) result }
    ensures frame { KeepsLevels F.saved F.saved_sizes F.limit_of F.is_sound F.told F.left F.fixed
        filer.old filer.new }
    ensures stops { KeepsStops F.content F.saved F.may_leave F.moment F.left_since F.told filer.old
        filer.new }
    ensures cause { IsCausedTrouble result (F.faults filer.old) (F.faults filer.new) }
{
    let mut class = from;
    'lists: while class < 16 {
        let first = read_list(filer, class)?;
        if first != 0 {
            return Ok(Some(first));
        }
        class += 1;
    }
    Ok(None)
}

/// A free block of so many atoms: the first of the smallest class whose blocks all have them, else one of the class whose blocks
/// may have them.
#[tactic(auto, using(crate::proofs::Stays::stops_none, crate::proofs::Stays::stops_then, crate::proofs::Finds::first_room, crate::proofs::Finds::own_room))]
pub(crate) fn find_room<F: Filer>(filer: &mut F, atoms: u64) -> Result<Option<u64>, Trouble>
    requires sound { IsTrue (F.is_sound filer.old) }
    requires most { F.size_of filer.old ≤ 2 ^ 60 }
    requires table { 128 ≤ F.size_of filer.old }
    requires some { 1 ≤ atoms }
    ensures found { IfOk result (λ found. IfSome (F.content filer.old) (FindsRoom atoms found)) }
    ensures content { KeepsContent F.content F.size_of filer.old filer.new }
    ensures refuses { Refuses (λ _ _. ⊥) (IfSome (F.content filer.old) LacksRow) result }
    ensures frame { KeepsLevels F.saved F.saved_sizes F.limit_of F.is_sound F.told F.left F.fixed
        filer.old filer.new }
    ensures stops { KeepsStops F.content F.saved F.may_leave F.moment F.left_since F.told filer.old
        filer.new }
    ensures cause { IsCausedTrouble result (F.faults filer.old) (F.faults filer.new) }
{
    let class = class_of(atoms);
    match first_from(filer, class + 1)? {
        Some(at) => Ok(Some(at)),
        None => first_fit(filer, class, atoms),
    }
}

/// Makes so many atoms of the free block at an atom a hole. What it has more stays free.
#[tactic(auto, using(crate::proofs::Stays::stops_none, crate::proofs::Stays::stops_then, crate::proofs::Parts::part_low, crate::proofs::Parts::part_short, crate::proofs::Parts::part_whole, crate::proofs::Parts::part_rest))]
pub(crate) fn take_part<F: Filer>(filer: &mut F, at: u64, atoms: u64) -> Result<(), Trouble>
    requires sound { IsTrue (F.is_sound filer.old) }
    requires depth { 1 ≤ length (F.saved filer.old) }
    requires most { F.size_of filer.old ≤ 2 ^ 60 }
    requires table { 128 ≤ F.size_of filer.old }
    requires some { 1 ≤ atoms }
    ensures taken { OnOk result (Turns (F.content filer.old) (F.content filer.new) (TakesPart at
        atoms)) }
    ensures within { OnOk result ((8 ≤ at) × (16 * (at + atoms) ≤ F.size_of filer.old)) }
    ensures size { F.size_of filer.new ≡ F.size_of filer.old }
    ensures refuses { Refuses (λ _ _. ⊥) (IfSome (F.content filer.old) (LacksPart at atoms)) result }
    ensures frame { KeepsLevels F.saved F.saved_sizes F.limit_of F.is_sound F.told F.left F.fixed
        filer.old filer.new }
    ensures stops { KeepsStops F.content F.saved F.may_leave F.moment F.left_since F.told filer.old
        filer.new }
    ensures cause { IsCausedTrouble result (F.faults filer.old) (F.faults filer.new) }
{
    if at < 8 {
        return Err(Trouble::Damaged);
    }
    let count = unlink(filer, at)?;
    if count < atoms {
        return Err(Trouble::Damaged);
    }
    if count == atoms {
        return Ok(());
    }
    link(filer, at + atoms, count - atoms)?;
    Ok(())
}
