//! Where the content of a handle stands.
ghost use Rattle.std.specs.Prelude.{◌≡◌, ℕ, ◌+◌, ◌*◌, ◌^◌, ◌≤◌, IsTrue, IfOk, IfSome, MatchOption};
ghost use Rattle.lldb_base.specs.Trouble.{IsCausedTrouble, Refuses};
ghost use Rattle.lldb_atoms.specs.Heads.{atoms_of};
ghost use Rattle.lldb_atoms.specs.Blocks.{used_head};
ghost use Rattle.lldb_alloc.specs.Frames.{KeepsLevels, KeepsContent, KeepsStops};
ghost use Rattle.lldb_alloc.specs.Handles.{HasUsedAtoms, LacksUsed, HasSite, LacksHandle, IsWithin};

use crate::content::target_of;
use crate::front::read_block;
use lldb_atoms::{Block, atoms_for};
use lldb_base::{Filer, Trouble};

/// Where the content of a handle stands, and how many atoms it takes: in the handle's own block, or in the one that this names.
#[derive(Clone, Copy, Debug)]
pub(crate) enum Site {
    Own { atoms: u64 },
    Away { at: u64, atoms: u64 },
}

/// How many atoms a block takes, where it is used.
#[tactic(auto, using(crate::proofs::Sites::moved_unused, crate::proofs::Sites::one_unused, crate::proofs::Sites::free_unused))]
fn used_atoms(block: &Block) -> Option<u64>
    ensures atoms { MatchOption result ((n : ℕ) → block.now ≡ used_head n → ⊥)
        (λ atoms. atoms ≡ atoms_of block.now) }
{
    match *block {
        Block::Short { length } => Some(atoms_for(length as u32)),
        Block::Long { length } => Some(atoms_for(length)),
        Block::Relocated { .. } => None,
        Block::FreeOne { .. } => None,
        Block::Free { .. } => None,
    }
}

/// How many atoms the used block at an atom takes. It is `Damaged` where none is.
fn read_used_atoms<F: Filer>(filer: &mut F, at: u64) -> Result<u64, Trouble>
    requires sound { IsTrue (F.is_sound filer.old) }
    requires most { F.size_of filer.old ≤ 2 ^ 60 }
    ensures atoms { IfOk result (λ atoms. IfSome (F.content filer.old) (HasUsedAtoms at atoms)) }
    ensures within { IfOk result (λ atoms. (1 ≤ atoms) × (16 * (at + atoms) ≤ F.size_of
        filer.old)) }
    ensures content { KeepsContent F.content F.size_of filer.old filer.new }
    ensures refuses { Refuses (λ _ _. ⊥) (IfSome (F.content filer.old) (LacksUsed at)) result }
    ensures frame { KeepsLevels F.saved F.saved_sizes F.limit_of F.is_sound F.told F.left F.fixed
        filer.old filer.new }
    ensures stops { KeepsStops F.content F.saved F.may_leave F.moment F.left_since F.told filer.old
        filer.new }
    ensures cause { IsCausedTrouble result (F.faults filer.old) (F.faults filer.new) }
{
    let block = read_block(filer, at)?;
    match used_atoms(&block) {
        Some(atoms) => Ok(atoms),
        None => Err(Trouble::Damaged),
    }
}

/// Where the content of a handle stands. It is `Damaged` where the handle is not live.
pub(crate) fn find_content<F: Filer>(filer: &mut F, handle: u64) -> Result<Site, Trouble>
    requires sound { IsTrue (F.is_sound filer.old) }
    requires most { F.size_of filer.old ≤ 2 ^ 60 }
    ensures found { IfOk result (λ site. IfSome (F.content filer.old) (HasSite handle site)) }
    ensures within { IfOk result (IsWithin (F.size_of filer.old) handle) }
    ensures content { KeepsContent F.content F.size_of filer.old filer.new }
    ensures refuses { Refuses (λ _ _. ⊥) (IfSome (F.content filer.old) (LacksHandle handle))
        result }
    ensures frame { KeepsLevels F.saved F.saved_sizes F.limit_of F.is_sound F.told F.left F.fixed
        filer.old filer.new }
    ensures stops { KeepsStops F.content F.saved F.may_leave F.moment F.left_since F.told filer.old
        filer.new }
    ensures cause { IsCausedTrouble result (F.faults filer.old) (F.faults filer.new) }
{
    let home = read_block(filer, handle)?;
    match target_of(&home) {
        Some(target) => {
            let atoms = read_used_atoms(filer, target)?;
            Ok(Site::Away { at: target, atoms })
        }
        None => match used_atoms(&home) {
            Some(atoms) => Ok(Site::Own { atoms }),
            None => Err(Trouble::Damaged),
        },
    }
}
