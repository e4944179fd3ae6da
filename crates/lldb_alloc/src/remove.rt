//! A content is removed by its handle.
ghost use Rattle.std.specs.Prelude.{◌^◌, ◌≤◌, IsTrue, length, OnOk, IfSome};
ghost use Rattle.lldb_base.specs.Heaps.{MayBeDead};
ghost use Rattle.lldb_base.specs.Trouble.{IsCausedTrouble, Refuses};
ghost use Rattle.lldb_alloc.specs.Frames.{KeepsLevels, KeepsStops};
ghost use Rattle.lldb_alloc.specs.Changes.{Turns};
ghost use Rattle.lldb_alloc.specs.Told.{heap_told};
ghost use Rattle.lldb_alloc.specs.Handles.{HasSite, LacksHandle, IsWithin, Removes, RemovesIn};

use crate::release::discard;
use crate::site::{Site, find_content};
use lldb_base::{Filer, Trouble};

/// Gives up the blocks of a content, wherever it stands: the handle's own first.
#[tactic(auto, using(crate::proofs::Stays::stops_none, crate::proofs::Stays::stops_then, crate::proofs::Removed::removed_own, crate::proofs::Removed::removed_away))]
fn give_up_content<F: Filer>(filer: &mut F, handle: u64, site: &Site) -> Result<(), Trouble>
    requires sound { IsTrue (F.is_sound filer.old) }
    requires depth { 1 ≤ length (F.saved filer.old) }
    requires most { F.size_of filer.old ≤ 2 ^ 60 }
    requires found { IfSome (F.content filer.old) (HasSite handle site.now) }
    requires within { IsWithin (F.size_of filer.old) handle site.now }
    ensures removed { OnOk result (Turns (F.content filer.old) (F.content filer.new) (RemovesIn
        handle)) }
    ensures shrinks { F.size_of filer.new ≤ F.size_of filer.old }
    ensures refuses { Refuses (λ _ _. ⊥) (IfSome (F.content filer.old) (LacksHandle handle))
        result }
    ensures frame { KeepsLevels F.saved F.saved_sizes F.limit_of F.is_sound F.told F.left F.fixed
        filer.old filer.new }
    ensures stops { KeepsStops F.content F.saved F.may_leave F.moment F.left_since F.told filer.old
        filer.new }
    ensures cause { IsCausedTrouble result (F.faults filer.old) (F.faults filer.new) }
{
    match *site {
        Site::Own { atoms } => {
            discard(filer, handle, atoms)?;
            Ok(())
        }
        Site::Away { at, atoms } => {
            discard(filer, handle, 1)?;
            discard(filer, at, atoms)?;
            Ok(())
        }
    }
}

/// Removes a handle of the heap that a filer's content holds, with its content.
#[tactic(auto, using(crate::proofs::Stays::stops_none, crate::proofs::Stays::stops_then, crate::proofs::Removed::removed_told))]
pub fn remove_content<F: Filer>(filer: &mut F, handle: u64) -> Result<(), Trouble>
    requires sound { IsTrue (F.is_sound filer.old) }
    requires depth { 1 ≤ length (F.saved filer.old) }
    requires limits { F.size_of filer.old ≤ 2 ^ 60 }
    ensures removed { OnOk result (Removes handle (heap_told (F.content filer.old)) (heap_told
        (F.content filer.new))) }
    ensures shrinks { F.size_of filer.new ≤ F.size_of filer.old }
    ensures refuses { Refuses (λ _ _. ⊥) (MayBeDead handle (heap_told (F.content filer.old)))
        result }
    ensures frame { KeepsLevels F.saved F.saved_sizes F.limit_of F.is_sound F.told F.left F.fixed
        filer.old filer.new }
    ensures stops { KeepsStops F.content F.saved F.may_leave F.moment F.left_since F.told filer.old
        filer.new }
    ensures cause { IsCausedTrouble result (F.faults filer.old) (F.faults filer.new) }
{
    let site = find_content(filer, handle)?;
    give_up_content(filer, handle, &site)?;
    Ok(())
}
