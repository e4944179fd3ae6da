//! Heads of blocks, read from a filer.
ghost use Rattle.std.specs.Prelude.{◌≡◌, ⊤, ◌+◌, ◌-◌, ◌*◌, ◌^◌, ◌≤◌, min, IsTrue, take, drop, IfOk, IfSome};
ghost use Rattle.lldb_base.specs.Trouble.{IsCausedTrouble, Refuses};
ghost use Rattle.lldb_atoms.specs.Heads.{atoms_of, IsValid};
ghost use Rattle.lldb_alloc.specs.Frames.{KeepsLevels, KeepsContent, KeepsStops};
ghost use Rattle.lldb_alloc.specs.Reads.{HasBlock};

use crate::bytes::read_bytes;
use lldb_atoms::{Block, read_head};
use lldb_base::{Filer, Trouble};

/// The bytes from an atom on, as many of 32 as there are, and zeros behind them.
fn read_front<F: Filer>(filer: &mut F, at: u64) -> Result<[u8; 32], Trouble>
    requires sound { IsTrue (F.is_sound filer.old) }
    requires most { F.size_of filer.old ≤ 2 ^ 60 }
    requires within { 16 * at ≤ F.size_of filer.old }
    ensures read { IfOk result (λ front. IfSome (F.content filer.old)
        (λ c. take (min 32 (F.size_of filer.old - 16 * at)) front
        ≡ take (min 32 (F.size_of filer.old - 16 * at)) (drop (16 * at) c))) }
    ensures content { KeepsContent F.content F.size_of filer.old filer.new }
    ensures refuses { Refuses (λ _ _. ⊥) ⊥ result }
    ensures frame { KeepsLevels F.saved F.saved_sizes F.limit_of F.is_sound F.told F.left F.fixed
        filer.old filer.new }
    ensures stops { KeepsStops F.content F.saved F.may_leave F.moment F.left_since F.told filer.old
        filer.new }
    ensures cause { IsCausedTrouble result (F.faults filer.old) (F.faults filer.new) }
{
    let mut front = [0; 32];
    let count = (filer.size() - 16 * at).min(32) as usize;
    read_bytes(filer, 16 * at, &mut front[..count])?;
    Ok(front)
}

/// The head of the block that begins at an atom. It is `Damaged` where none can.
pub(crate) fn read_block<F: Filer>(filer: &mut F, at: u64) -> Result<Block, Trouble>
    requires sound { IsTrue (F.is_sound filer.old) }
    requires most { F.size_of filer.old ≤ 2 ^ 60 }
    ensures block { IfSome (F.content filer.old) (HasBlock at result) }
    ensures valid { IfOk result IsValid }
    ensures within { IfOk result (λ block. 16 * (at + atoms_of block) ≤ F.size_of filer.old) }
    ensures content { KeepsContent F.content F.size_of filer.old filer.new }
    ensures refuses { Refuses (λ _ _. ⊥) ⊤ result }
    ensures frame { KeepsLevels F.saved F.saved_sizes F.limit_of F.is_sound F.told F.left F.fixed
        filer.old filer.new }
    ensures stops { KeepsStops F.content F.saved F.may_leave F.moment F.left_since F.told filer.old
        filer.new }
    ensures cause { IsCausedTrouble result (F.faults filer.old) (F.faults filer.new) }
{
    let atoms = filer.size() / 16;
    if at >= atoms {
        return Err(Trouble::Damaged);
    }
    let front = read_front(filer, at)?;
    match read_head(&front, atoms - at) {
        Some(block) => Ok(block),
        None => Err(Trouble::Damaged),
    }
}
