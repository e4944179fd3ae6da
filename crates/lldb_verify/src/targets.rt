//! The second pass: relocated blocks and what they name.
ghost use Rattle.std.specs.Prelude.{◌≡◌, ℕ, ◌+◌, ◌*◌, ◌/◌, ◌%◌, ◌<◌, ◌≤◌, List, IsTrue, length, OnOk, IfOk, IfSome, is_some, [], ◌++◌};
ghost use Rattle.lldb_atoms.specs.Blocks.{Extent, Moved};
ghost use Rattle.lldb_verify.specs.declared.finding.Finding.{Finding};
ghost use Rattle.lldb_atoms.specs.Lists.{row_of, tile_from};
ghost use Rattle.lldb_verify.specs.Findings.{of_targets};
ghost use Rattle.lldb_verify.specs.Logs.{has_room};
ghost use Rattle.lldb_verify.specs.Marks.{is_set};
ghost use Rattle.lldb_verify.specs.Reads.{OnlyReads, Holds, seen_as};
ghost use Rattle.lldb_verify.specs.Told.{OfDevice, IsCausedFault};
ghost use Rattle.lldb_verify.specs.Passes.{Marked, IsTaken, IsFound, blocks_from, Aiming, Aims, AllAimed};

use crate::seen::{Seen, see};
use crate::tell::tell;
use crate::window::Window;
use crate::{Bits, FaultLog, Finding, VerifyFault};
use lldb_base::Filer;

/// Whether an atom may be named: a used block begins there, and its bit is set. It is unset then.
fn take_target<F: Filer>(
    filer: &mut F,
    near: &mut Window,
    scratch: &mut Bits,
    target: u64,
) -> Result<bool, VerifyFault>
    requires sound { IsTrue (F.is_sound filer.old) }
    requires holds { IfSome (F.content filer.old) (Holds near.old) }
    requires bits { F.size_of filer.old / 16 ≤ scratch.old.count }
    ensures taken { IfOk result (λ taken. IfSome (F.content filer.old) (λ c. (named : List ℕ)
        → Marked c named scratch.old → IsTaken c named target scratch.new taken)) }
    ensures holds { OnOk result (IfSome (F.content filer.old) (Holds near.new)) }
    ensures count { scratch.new.count ≡ scratch.old.count }
    ensures frame { OnlyReads F.content F.size_of F.saved F.saved_sizes F.limit_of F.is_sound F.told
        F.left F.fixed filer.old filer.new }
    ensures device { OfDevice result }
    ensures cause { IsCausedFault result (F.faults filer.old) (F.faults filer.new) }
{
    let atoms = filer.size() / 16;
    if target >= atoms {
        return Ok(false);
    }
    let fresh = scratch.get(target);
    if !fresh {
        return Ok(false);
    }
    match see(filer, near, target)? {
        Some(seen) => {
            let used = seen.is_used();
            scratch.set(target, !used);
            Ok(used)
        }
        None => Ok(false),
    }
}

/// What is found at a relocated block.
fn relocated_found<F: Filer>(
    filer: &mut F,
    near: &mut Window,
    scratch: &mut Bits,
    atom: u64,
    target: u64,
) -> Result<Option<Finding>, VerifyFault>
    requires sound { IsTrue (F.is_sound filer.old) }
    requires holds { IfSome (F.content filer.old) (Holds near.old) }
    requires bits { F.size_of filer.old / 16 ≤ scratch.old.count }
    ensures found { IfOk result (λ found. IfSome (F.content filer.old) (λ c. (named : List ℕ)
        → Marked c named scratch.old → IsFound c named atom (Moved target) scratch.new found)) }
    ensures holds { OnOk result (IfSome (F.content filer.old) (Holds near.new)) }
    ensures count { scratch.new.count ≡ scratch.old.count }
    ensures frame { OnlyReads F.content F.size_of F.saved F.saved_sizes F.limit_of F.is_sound F.told
        F.left F.fixed filer.old filer.new }
    ensures device { OfDevice result }
    ensures cause { IsCausedFault result (F.faults filer.old) (F.faults filer.new) }
{
    let right = take_target(filer, near, scratch, target)?;
    if right {
        Ok(None)
    } else {
        Ok(Some(Finding::BadTarget {
            handle: atom,
            target,
        }))
    }
}

/// What is found at a block, by what it names.
fn target_found<F: Filer>(
    filer: &mut F,
    near: &mut Window,
    scratch: &mut Bits,
    atom: u64,
    seen: &Seen,
) -> Result<Option<Finding>, VerifyFault>
    requires sound { IsTrue (F.is_sound filer.old) }
    requires holds { IfSome (F.content filer.old) (Holds near.old) }
    requires bits { F.size_of filer.old / 16 ≤ scratch.old.count }
    ensures found { IfOk result (λ found. IfSome (F.content filer.old) (λ c. (named : List ℕ)
        (p n : ℕ) (e : Extent) → seen.now ≡ seen_as p n e → Marked c named scratch.old
        → IsFound c named atom e scratch.new found)) }
    ensures holds { OnOk result (IfSome (F.content filer.old) (Holds near.new)) }
    ensures count { scratch.new.count ≡ scratch.old.count }
    ensures frame { OnlyReads F.content F.size_of F.saved F.saved_sizes F.limit_of F.is_sound F.told
        F.left F.fixed filer.old filer.new }
    ensures device { OfDevice result }
    ensures cause { IsCausedFault result (F.faults filer.old) (F.faults filer.new) }
{
    match *seen {
        Seen::Relocated { target } => relocated_found(filer, near, scratch, atom, target),
        Seen::Used { .. } => Ok(None),
        Seen::Compressed { .. } => Ok(None),
        Seen::Free { .. } => Ok(None),
    }
}

/// Passes over the block at an atom, and answers where the next one begins.
fn aim_block<F: Filer>(
    filer: &mut F,
    window: &mut Window,
    near: &mut Window,
    scratch: &mut Bits,
    log: &mut Box<dyn FaultLog>,
    atom: u64,
) -> Result<u64, VerifyFault>
    requires sound { IsTrue (F.is_sound filer.old) }
    requires whole { F.size_of filer.old % 16 ≡ 0 }
    requires within { atom < F.size_of filer.old / 16 }
    requires holds { IfSome (F.content filer.old) (Holds window.old) }
    requires near { IfSome (F.content filer.old) (Holds near.old) }
    requires bits { F.size_of filer.old / 16 ≤ scratch.old.count }
    requires room { IsTrue (has_room (bound log.old) (length (list log.old))) }
    ensures went { IfSome (F.content filer.old) (λ c. (all : List Finding)
        → Aiming c all atom scratch.old (list log.old)
        → Aims c all (bound log.old) scratch.new (list log.new) result) }
    ensures on { IfOk result (λ next. (atom < next) × (next ≤ F.size_of filer.old / 16)) }
    ensures holds { OnOk result (IfSome (F.content filer.old) (Holds window.new)) }
    ensures near { OnOk result (IfSome (F.content filer.old) (Holds near.new)) }
    ensures count { scratch.new.count ≡ scratch.old.count }
    ensures room { OnOk result (IsTrue (has_room (bound log.old) (length (list log.new)))) }
    ensures bound { bound log.new ≡ bound log.old }
    ensures frame { OnlyReads F.content F.size_of F.saved F.saved_sizes F.limit_of F.is_sound F.told
        F.left F.fixed filer.old filer.new }
    ensures cause { IsCausedFault result (F.faults filer.old) (F.faults filer.new) }
{
    match see(filer, window, atom)? {
        Some(seen) => {
            let found = target_found(filer, near, scratch, atom, &seen)?;
            tell(log, found)?;
            Ok(atom + seen.atoms())
        }
        None => Ok(filer.size() / 16),
    }
}

/// Passes over all blocks: tells of each relocated block that names what it may not, and unsets the bit of each used block
/// that one names.
pub(crate) fn pass_targets<F: Filer>(
    filer: &mut F,
    window: &mut Window,
    near: &mut Window,
    scratch: &mut Bits,
    log: &mut Box<dyn FaultLog>,
) -> Result<(), VerifyFault>
    requires sound { IsTrue (F.is_sound filer.old) }
    requires table { 128 ≤ F.size_of filer.old }
    requires whole { F.size_of filer.old % 16 ≡ 0 }
    requires holds { IfSome (F.content filer.old) (Holds window.old) }
    requires near { IfSome (F.content filer.old) (Holds near.old) }
    requires bits { F.size_of filer.old / 16 ≤ scratch.old.count }
    requires marked { IfSome (F.content filer.old)
        (λ c. (q : ℕ) → is_set scratch.old q ≡ is_some (tile_from 8 (blocks_from c 8) q)) }
    requires room { IsTrue (has_room (bound log.old) (length (list log.old))) }
    ensures aimed { IfSome (F.content filer.old) (λ c. AllAimed c
        (list log.old ++ of_targets (row_of (blocks_from c 8)) [] 8 (row_of (blocks_from c 8)))
        (bound log.old) scratch.new (list log.new) result) }
    ensures holds { OnOk result (IfSome (F.content filer.old) (Holds window.new)) }
    ensures near { OnOk result (IfSome (F.content filer.old) (Holds near.new)) }
    ensures count { scratch.new.count ≡ scratch.old.count }
    ensures room { OnOk result (IsTrue (has_room (bound log.old) (length (list log.new)))) }
    ensures bound { bound log.new ≡ bound log.old }
    ensures frame { OnlyReads F.content F.size_of F.saved F.saved_sizes F.limit_of F.is_sound F.told
        F.left F.fixed filer.old filer.new }
    ensures cause { IsCausedFault result (F.faults filer.old) (F.faults filer.new) }
{
    let atoms = filer.size() / 16;
    let mut atom = 8;
    'walk: while atom < atoms {
        atom = aim_block(filer, window, near, scratch, log, atom)?;
    }
    Ok(())
}
