//! A content is replaced by its handle: in its place where it fits, else by one elsewhere.
ghost use Rattle.std.specs.Prelude.{◌≡◌, ◌+◌, ◌*◌, ◌^◌, ◌<◌, ◌≤◌, max, IsTrue, length, Some, OnOk, IfSome};
ghost use Rattle.lldb_base.specs.Contents.{atoms_for};
ghost use Rattle.lldb_base.specs.Heaps.{MayBeDead, IsGrown, IsFull};
ghost use Rattle.lldb_base.specs.Trouble.{IsCausedTrouble, Refuses};
ghost use Rattle.lldb_alloc.specs.Frames.{KeepsLevels, KeepsStops};
ghost use Rattle.lldb_alloc.specs.Changes.{Turns};
ghost use Rattle.lldb_alloc.specs.Releases.{LacksGap};
ghost use Rattle.lldb_alloc.specs.Room.{most_free_told};
ghost use Rattle.lldb_alloc.specs.Told.{heap_told};
ghost use Rattle.lldb_alloc.specs.Handles.{HasSite, LacksHandle, IsWithin};
ghost use Rattle.lldb_alloc.specs.Places.{Points, Trims, Rewrites, LacksUsedAtoms, Replaces, ReplacesIn, HasFewer};
ghost use Rattle.lldb_alloc.specs.declared.site.Site.TheVariants as site;

use crate::chain::write_front;
use crate::create::place_content;
use crate::release::discard;
use crate::site::{Site, find_content};
use crate::write::{atoms_taken, write_used};
use lldb_atoms::Block;
use lldb_base::{Filer, Trouble};

/// Makes the first atom of a block a relocated block that names another.
#[tactic(auto, using(crate::proofs::Stays::stops_none, crate::proofs::Stays::stops_then, crate::proofs::Replaced::pointed_told))]
fn point<F: Filer>(filer: &mut F, at: u64, target: u64) -> Result<(), Trouble>
    requires sound { IsTrue (F.is_sound filer.old) }
    requires depth { 1 ≤ length (F.saved filer.old) }
    requires limits { F.size_of filer.old ≤ 2 ^ 60 }
    requires target { target < 2 ^ 56 }
    requires within { 16 * (at + 1) ≤ F.size_of filer.old }
    ensures pointed { OnOk result (Turns (F.content filer.old) (F.content filer.new) (Points at
        target)) }
    ensures size { F.size_of filer.new ≡ F.size_of filer.old }
    ensures refuses { Refuses (λ _ _. ⊥) ⊥ result }
    ensures frame { KeepsLevels F.saved F.saved_sizes F.limit_of F.is_sound F.told F.left F.fixed
        filer.old filer.new }
    ensures stops { KeepsStops F.content F.saved F.may_leave F.moment F.left_since F.told filer.old
        filer.new }
    ensures cause { IsCausedTrouble result (F.faults filer.old) (F.faults filer.new) }
{
    write_front(filer, at, &Block::Relocated { target })?;
    Ok(())
}

/// Gives up so many atoms from an atom on, where there are any.
#[tactic(auto, using(crate::proofs::Stays::stops_none, crate::proofs::Stays::stops_then, crate::proofs::Replaced::trims_none, crate::proofs::Replaced::trims_some))]
fn trim<F: Filer>(filer: &mut F, at: u64, atoms: u64) -> Result<(), Trouble>
    requires sound { IsTrue (F.is_sound filer.old) }
    requires depth { 1 ≤ length (F.saved filer.old) }
    requires limits { F.size_of filer.old ≤ 2 ^ 60 }
    requires end { 16 * (at + atoms) ≤ 2 ^ 60 }
    ensures trimmed { OnOk result (Turns (F.content filer.old) (F.content filer.new) (Trims at
        atoms)) }
    ensures shrinks { F.size_of filer.new ≤ F.size_of filer.old }
    ensures refuses { Refuses (λ _ _. ⊥) ((atoms ≡ 0 → ⊥) × IfSome (F.content filer.old)
        (LacksGap at atoms)) result }
    ensures frame { KeepsLevels F.saved F.saved_sizes F.limit_of F.is_sound F.told F.left F.fixed
        filer.old filer.new }
    ensures stops { KeepsStops F.content F.saved F.may_leave F.moment F.left_since F.told filer.old
        filer.new }
    ensures cause { IsCausedTrouble result (F.faults filer.old) (F.faults filer.new) }
{
    if atoms == 0 {
        return Ok(());
    }
    discard(filer, at, atoms)?;
    Ok(())
}

/// Writes a content over the used block of so many atoms at an atom, and gives up those that are left over.
#[tactic(auto, using(crate::proofs::Stays::stops_none, crate::proofs::Stays::stops_then, crate::proofs::Replaced::rewritten_told))]
fn rewrite<F: Filer>(filer: &mut F, at: u64, atoms: u64, content: &[u8]) -> Result<(), Trouble>
    requires sound { IsTrue (F.is_sound filer.old) }
    requires depth { 1 ≤ length (F.saved filer.old) }
    requires limits { F.size_of filer.old ≤ 2 ^ 60 }
    requires most { length content.now ≤ 65787 }
    requires room { atoms_for (length content.now) ≤ atoms }
    requires within { 16 * (at + atoms) ≤ F.size_of filer.old }
    ensures rewritten { OnOk result (Turns (F.content filer.old) (F.content filer.new) (Rewrites at
        atoms content.now)) }
    ensures shrinks { F.size_of filer.new ≤ F.size_of filer.old }
    ensures refuses { Refuses (λ _ _. ⊥) (IfSome (F.content filer.old) (LacksUsedAtoms at atoms))
        result }
    ensures frame { KeepsLevels F.saved F.saved_sizes F.limit_of F.is_sound F.told F.left F.fixed
        filer.old filer.new }
    ensures stops { KeepsStops F.content F.saved F.may_leave F.moment F.left_since F.told filer.old
        filer.new }
    ensures cause { IsCausedTrouble result (F.faults filer.old) (F.faults filer.new) }
{
    let taken = atoms_taken(content);
    write_used(filer, at, content)?;
    trim(filer, at + taken, atoms - taken)?;
    Ok(())
}

/// Puts a content elsewhere, and lets the handle's own block, of so many atoms, name it.
#[tactic(auto, using(crate::proofs::Stays::stops_none, crate::proofs::Stays::stops_then, crate::proofs::Replaced::moved_home))]
fn move_home<F: Filer>(
    filer: &mut F,
    handle: u64,
    atoms: u64,
    content: &[u8],
) -> Result<(), Trouble>
    requires sound { IsTrue (F.is_sound filer.old) }
    requires depth { 1 ≤ length (F.saved filer.old) }
    requires limits { F.size_of filer.old ≤ 2 ^ 60 }
    requires limit { F.limit_of filer.old ≤ 2 ^ 60 }
    requires most { length content.now ≤ 65787 }
    requires some { 1 ≤ atoms }
    requires within { 16 * (handle + atoms) ≤ F.size_of filer.old }
    requires found { IfSome (F.content filer.old) (HasSite handle (site.Own atoms)) }
    ensures replaced { OnOk result (Turns (F.content filer.old) (F.content filer.new) (ReplacesIn
        handle content.now)) }
    ensures grows { F.size_of filer.new ≤ F.size_of filer.old
        + 16 * atoms_for (length content.now) }
    ensures fits { F.size_of filer.new ≤ max (F.size_of filer.old) (F.limit_of filer.old) }
    ensures refuses { Refuses (IsFull (atoms_for (length content.now)) (most_free_told
        (F.content filer.old)) (F.size_of filer.old) (F.size_of filer.new)
        (Some (F.limit_of filer.old))) (IfSome (F.content filer.old) (LacksHandle handle)) result }
    ensures frame { KeepsLevels F.saved F.saved_sizes F.limit_of F.is_sound F.told F.left F.fixed
        filer.old filer.new }
    ensures stops { KeepsStops F.content F.saved F.may_leave F.moment F.left_since F.told filer.old
        filer.new }
    ensures cause { IsCausedTrouble result (F.faults filer.old) (F.faults filer.new) }
{
    let target = place_content(filer, content)?;
    point(filer, handle, target)?;
    trim(filer, handle + 1, atoms - 1)?;
    Ok(())
}

/// Puts a content elsewhere, lets the relocated block of a handle name it, and gives up the block that it named, of so many atoms.
#[tactic(auto, using(crate::proofs::Stays::stops_none, crate::proofs::Stays::stops_then, crate::proofs::Replaced::moved_again))]
fn move_target<F: Filer>(
    filer: &mut F,
    handle: u64,
    at: u64,
    atoms: u64,
    content: &[u8],
) -> Result<(), Trouble>
    requires sound { IsTrue (F.is_sound filer.old) }
    requires depth { 1 ≤ length (F.saved filer.old) }
    requires limits { F.size_of filer.old ≤ 2 ^ 60 }
    requires limit { F.limit_of filer.old ≤ 2 ^ 60 }
    requires most { length content.now ≤ 65787 }
    requires some { 1 ≤ atoms }
    requires home { 16 * (handle + 1) ≤ F.size_of filer.old }
    requires within { 16 * (at + atoms) ≤ F.size_of filer.old }
    requires found { IfSome (F.content filer.old) (HasSite handle (site.Away at atoms)) }
    ensures replaced { OnOk result (Turns (F.content filer.old) (F.content filer.new) (ReplacesIn
        handle content.now)) }
    ensures grows { F.size_of filer.new ≤ F.size_of filer.old
        + 16 * atoms_for (length content.now) }
    ensures fits { F.size_of filer.new ≤ max (F.size_of filer.old) (F.limit_of filer.old) }
    ensures refuses { Refuses (IsFull (atoms_for (length content.now)) (most_free_told
        (F.content filer.old)) (F.size_of filer.old) (F.size_of filer.new)
        (Some (F.limit_of filer.old))) (IfSome (F.content filer.old) (LacksHandle handle)) result }
    ensures frame { KeepsLevels F.saved F.saved_sizes F.limit_of F.is_sound F.told F.left F.fixed
        filer.old filer.new }
    ensures stops { KeepsStops F.content F.saved F.may_leave F.moment F.left_since F.told filer.old
        filer.new }
    ensures cause { IsCausedTrouble result (F.faults filer.old) (F.faults filer.new) }
{
    let next = place_content(filer, content)?;
    point(filer, handle, next)?;
    discard(filer, at, atoms)?;
    Ok(())
}

/// Replaces a content that stands in its handle's own block.
#[tactic(auto, using(crate::proofs::Stays::stops_none, crate::proofs::Stays::stops_then, crate::proofs::Replaced::own_rewritten))]
fn replace_own<F: Filer>(
    filer: &mut F,
    handle: u64,
    atoms: u64,
    content: &[u8],
) -> Result<(), Trouble>
    requires sound { IsTrue (F.is_sound filer.old) }
    requires depth { 1 ≤ length (F.saved filer.old) }
    requires limits { F.size_of filer.old ≤ 2 ^ 60 }
    requires limit { F.limit_of filer.old ≤ 2 ^ 60 }
    requires most { length content.now ≤ 65787 }
    requires some { 1 ≤ atoms }
    requires within { 16 * (handle + atoms) ≤ F.size_of filer.old }
    requires found { IfSome (F.content filer.old) (HasSite handle (site.Own atoms)) }
    ensures replaced { OnOk result (Turns (F.content filer.old) (F.content filer.new) (ReplacesIn
        handle content.now)) }
    ensures grows { F.size_of filer.new ≤ F.size_of filer.old
        + 16 * atoms_for (length content.now) }
    ensures fits { F.size_of filer.new ≤ max (F.size_of filer.old) (F.limit_of filer.old) }
    ensures refuses { Refuses (λ need most. IfSome (F.content filer.old) (HasFewer handle (atoms_for
        (length content.now))) × IsFull (atoms_for (length content.now)) (most_free_told
        (F.content filer.old)) (F.size_of filer.old) (F.size_of filer.new)
        (Some (F.limit_of filer.old)) need most) (IfSome (F.content filer.old) (LacksHandle handle)) result }
    ensures frame { KeepsLevels F.saved F.saved_sizes F.limit_of F.is_sound F.told F.left F.fixed
        filer.old filer.new }
    ensures stops { KeepsStops F.content F.saved F.may_leave F.moment F.left_since F.told filer.old
        filer.new }
    ensures cause { IsCausedTrouble result (F.faults filer.old) (F.faults filer.new) }
{
    if atoms_taken(content) <= atoms {
        rewrite(filer, handle, atoms, content)?;
    } else {
        move_home(filer, handle, atoms, content)?;
    }
    Ok(())
}

/// Replaces a content that stands in the block that its handle names.
#[tactic(auto, using(crate::proofs::Stays::stops_none, crate::proofs::Stays::stops_then, crate::proofs::Replaced::away_rewritten))]
fn replace_away<F: Filer>(
    filer: &mut F,
    handle: u64,
    at: u64,
    atoms: u64,
    content: &[u8],
) -> Result<(), Trouble>
    requires sound { IsTrue (F.is_sound filer.old) }
    requires depth { 1 ≤ length (F.saved filer.old) }
    requires limits { F.size_of filer.old ≤ 2 ^ 60 }
    requires limit { F.limit_of filer.old ≤ 2 ^ 60 }
    requires most { length content.now ≤ 65787 }
    requires some { 1 ≤ atoms }
    requires home { 16 * (handle + 1) ≤ F.size_of filer.old }
    requires within { 16 * (at + atoms) ≤ F.size_of filer.old }
    requires found { IfSome (F.content filer.old) (HasSite handle (site.Away at atoms)) }
    ensures replaced { OnOk result (Turns (F.content filer.old) (F.content filer.new) (ReplacesIn
        handle content.now)) }
    ensures grows { F.size_of filer.new ≤ F.size_of filer.old
        + 16 * atoms_for (length content.now) }
    ensures fits { F.size_of filer.new ≤ max (F.size_of filer.old) (F.limit_of filer.old) }
    ensures refuses { Refuses (λ need most. IfSome (F.content filer.old) (HasFewer handle (atoms_for
        (length content.now))) × IsFull (atoms_for (length content.now)) (most_free_told
        (F.content filer.old)) (F.size_of filer.old) (F.size_of filer.new)
        (Some (F.limit_of filer.old)) need most) (IfSome (F.content filer.old) (LacksHandle handle)) result }
    ensures frame { KeepsLevels F.saved F.saved_sizes F.limit_of F.is_sound F.told F.left F.fixed
        filer.old filer.new }
    ensures stops { KeepsStops F.content F.saved F.may_leave F.moment F.left_since F.told filer.old
        filer.new }
    ensures cause { IsCausedTrouble result (F.faults filer.old) (F.faults filer.new) }
{
    if atoms_taken(content) <= atoms {
        rewrite(filer, at, atoms, content)?;
    } else {
        move_target(filer, handle, at, atoms, content)?;
    }
    Ok(())
}

/// Replaces a content, wherever it stands.
fn replace_at<F: Filer>(
    filer: &mut F,
    handle: u64,
    site: &Site,
    content: &[u8],
) -> Result<(), Trouble>
    requires sound { IsTrue (F.is_sound filer.old) }
    requires depth { 1 ≤ length (F.saved filer.old) }
    requires limits { F.size_of filer.old ≤ 2 ^ 60 }
    requires limit { F.limit_of filer.old ≤ 2 ^ 60 }
    requires most { length content.now ≤ 65787 }
    requires found { IfSome (F.content filer.old) (HasSite handle site.now) }
    requires within { IsWithin (F.size_of filer.old) handle site.now }
    ensures replaced { OnOk result (Turns (F.content filer.old) (F.content filer.new) (ReplacesIn
        handle content.now)) }
    ensures grows { F.size_of filer.new ≤ F.size_of filer.old
        + 16 * atoms_for (length content.now) }
    ensures fits { F.size_of filer.new ≤ max (F.size_of filer.old) (F.limit_of filer.old) }
    ensures refuses { Refuses (λ need most. IfSome (F.content filer.old) (HasFewer handle (atoms_for
        (length content.now))) × IsFull (atoms_for (length content.now)) (most_free_told
        (F.content filer.old)) (F.size_of filer.old) (F.size_of filer.new)
        (Some (F.limit_of filer.old)) need most) (IfSome (F.content filer.old) (LacksHandle handle)) result }
    ensures frame { KeepsLevels F.saved F.saved_sizes F.limit_of F.is_sound F.told F.left F.fixed
        filer.old filer.new }
    ensures stops { KeepsStops F.content F.saved F.may_leave F.moment F.left_since F.told filer.old
        filer.new }
    ensures cause { IsCausedTrouble result (F.faults filer.old) (F.faults filer.new) }
{
    match *site {
        Site::Own { atoms } => replace_own(filer, handle, atoms, content),
        Site::Away { at, atoms } => replace_away(filer, handle, at, atoms, content),
    }
}

/// Gives a handle of the heap that a filer's content holds another content.
#[tactic(auto, using(crate::proofs::Stays::stops_none, crate::proofs::Stays::stops_then, crate::proofs::Replaced::replaced_told))]
pub fn replace_content<F: Filer>(filer: &mut F, handle: u64, content: &[u8]) -> Result<(), Trouble>
    requires sound { IsTrue (F.is_sound filer.old) }
    requires depth { 1 ≤ length (F.saved filer.old) }
    requires limits { F.size_of filer.old ≤ 2 ^ 60 }
    requires limit { F.limit_of filer.old ≤ 2 ^ 60 }
    requires most { length content.now ≤ 65787 }
    ensures replaced { OnOk result (Replaces handle content.now (heap_told (F.content filer.old))
        (heap_told (F.content filer.new))) }
    ensures grows { F.size_of filer.new ≤ F.size_of filer.old
        + 16 * atoms_for (length content.now) }
    ensures fits { F.size_of filer.new ≤ max (F.size_of filer.old) (F.limit_of filer.old) }
    ensures refuses { Refuses (λ need most. IsGrown handle (atoms_for (length content.now))
        (heap_told (F.content filer.old)) × IsFull (atoms_for (length content.now)) (most_free_told
        (F.content filer.old)) (F.size_of filer.old) (F.size_of filer.new)
        (Some (F.limit_of filer.old)) need most) (MayBeDead handle (heap_told (F.content filer.old))) result }
    ensures frame { KeepsLevels F.saved F.saved_sizes F.limit_of F.is_sound F.told F.left F.fixed
        filer.old filer.new }
    ensures stops { KeepsStops F.content F.saved F.may_leave F.moment F.left_since F.told filer.old
        filer.new }
    ensures cause { IsCausedTrouble result (F.faults filer.old) (F.faults filer.new) }
{
    let site = find_content(filer, handle)?;
    replace_at(filer, handle, &site, content)?;
    Ok(())
}
