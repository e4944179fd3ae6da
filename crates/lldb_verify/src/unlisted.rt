//! The last pass: free blocks that no list has.
ghost use Rattle.std.specs.Prelude.{◌≡◌, ℕ, ◌+◌, ◌*◌, ◌/◌, ◌%◌, ◌<◌, ◌≤◌, ◌++◌, List, IsTrue, true, length, OnOk, IfOk, IfSome};
ghost use Rattle.lldb_atoms.specs.Lists.{row_of};
ghost use Rattle.lldb_verify.specs.declared.finding.Finding.{Finding};
ghost use Rattle.lldb_verify.specs.Findings.{of_unlisted};
ghost use Rattle.lldb_verify.specs.Logs.{has_room, kept_one};
ghost use Rattle.lldb_verify.specs.Marks.{is_set};
ghost use Rattle.lldb_verify.specs.Met.{Unmet, left_over, Sweeping, Sweeps};
ghost use Rattle.lldb_verify.specs.Passes.{blocks_from};
ghost use Rattle.lldb_verify.specs.Reads.{OnlyReads, Holds};
ghost use Rattle.lldb_verify.specs.Told.{Tells, IsCausedFault};

use crate::seen::{Seen, see};
use crate::tell::tell;
use crate::window::Window;
use crate::{Bits, FaultLog, Finding, VerifyFault};
use lldb_base::Filer;

/// What is found at a block that no list has met.
fn unlisted(atom: u64, seen: &Seen) -> Option<Finding>
    ensures { kept_one result ≡ left_over true atom seen.now }
{
    match *seen {
        Seen::Free { .. } => Some(Finding::Unlisted { atom }),
        Seen::Used { .. } => None,
        Seen::Compressed { .. } => None,
        Seen::Relocated { .. } => None,
    }
}

/// What is found at a block, by whether a list met it.
fn free_found(scratch: &Bits, atom: u64, seen: &Seen) -> Option<Finding>
    requires { atom < scratch.now.count }
    ensures { kept_one result ≡ left_over (is_set scratch.now atom) atom seen.now }
{
    let unmet = scratch.get(atom);
    if unmet { unlisted(atom, seen) } else { None }
}

/// Passes over the block at an atom, and answers where the next one begins.
fn sweep_block<F: Filer>(
    filer: &mut F,
    window: &mut Window,
    scratch: &Bits,
    log: &mut Box<dyn FaultLog>,
    atom: u64,
) -> Result<u64, VerifyFault>
    requires sound { IsTrue (F.is_sound filer.old) }
    requires whole { F.size_of filer.old % 16 ≡ 0 }
    requires within { atom < F.size_of filer.old / 16 }
    requires holds { IfSome (F.content filer.old) (Holds window.old) }
    requires bits { F.size_of filer.old / 16 ≤ scratch.now.count }
    requires room { IsTrue (has_room (bound log.old) (length (list log.old))) }
    ensures went { IfSome (F.content filer.old) (λ c. (met : List ℕ) (all : List Finding)
        → Unmet c met scratch.now → Sweeping c met all atom (list log.old)
        → Sweeps c met all (bound log.old) (list log.new) result) }
    ensures on { IfOk result (λ next. (atom < next) × (next ≤ F.size_of filer.old / 16)) }
    ensures holds { OnOk result (IfSome (F.content filer.old) (Holds window.new)) }
    ensures room { OnOk result (IsTrue (has_room (bound log.old) (length (list log.new)))) }
    ensures bound { bound log.new ≡ bound log.old }
    ensures frame { OnlyReads F.content F.size_of F.saved F.saved_sizes F.limit_of F.is_sound F.told
        F.left F.fixed filer.old filer.new }
    ensures cause { IsCausedFault result (F.faults filer.old) (F.faults filer.new) }
{
    match see(filer, window, atom)? {
        Some(seen) => {
            let found = free_found(scratch, atom, &seen);
            tell(log, found)?;
            Ok(atom + seen.atoms())
        }
        None => Ok(filer.size() / 16),
    }
}

/// Passes over all blocks, and tells of each free one whose bit is set.
pub(crate) fn pass_unlisted<F: Filer>(
    filer: &mut F,
    window: &mut Window,
    scratch: &Bits,
    log: &mut Box<dyn FaultLog>,
) -> Result<(), VerifyFault>
    requires sound { IsTrue (F.is_sound filer.old) }
    requires table { 128 ≤ F.size_of filer.old }
    requires whole { F.size_of filer.old % 16 ≡ 0 }
    requires holds { IfSome (F.content filer.old) (Holds window.old) }
    requires bits { F.size_of filer.old / 16 ≤ scratch.now.count }
    requires room { IsTrue (has_room (bound log.old) (length (list log.old))) }
    ensures swept { IfSome (F.content filer.old) (λ c. (met : List ℕ) → Unmet c met scratch.now
        → Tells (list log.old ++ of_unlisted met 8 (row_of (blocks_from c 8)))
        (bound log.old) (list log.new) result) }
    ensures holds { OnOk result (IfSome (F.content filer.old) (Holds window.new)) }
    ensures room { OnOk result (IsTrue (has_room (bound log.old) (length (list log.new)))) }
    ensures bound { bound log.new ≡ bound log.old }
    ensures frame { OnlyReads F.content F.size_of F.saved F.saved_sizes F.limit_of F.is_sound F.told
        F.left F.fixed filer.old filer.new }
    ensures cause { IsCausedFault result (F.faults filer.old) (F.faults filer.new) }
{
    let atoms = filer.size() / 16;
    let mut atom = 8;
    'walk: while atom < atoms {
        atom = sweep_block(filer, window, scratch, log, atom)?;
    }
    Ok(())
}
