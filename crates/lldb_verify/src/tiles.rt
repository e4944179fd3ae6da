//! The first pass: the blocks of a content, one after the other.
ghost use Rattle.std.specs.Prelude.{◌≡◌, ℕ, ◌+◌, ◌*◌, ◌/◌, ◌%◌, ◌<◌, ◌≤◌, ◌++◌, List, IsTrue, length, None, IfOk, OnOk, IfSome, false};
ghost use Rattle.lldb_atoms.specs.Lists.{row_of};
ghost use Rattle.lldb_base.specs.Trouble.{IsCausedTrouble};
ghost use Rattle.lldb_verify.specs.declared.finding.Finding.{Finding};
ghost use Rattle.lldb_verify.specs.Findings.{of_blocks, beside, last_free};
ghost use Rattle.lldb_verify.specs.Logs.{has_room, kept_one};
ghost use Rattle.lldb_verify.specs.Marks.{is_set};
ghost use Rattle.lldb_verify.specs.Reads.{OnlyReads, Holds};
ghost use Rattle.lldb_verify.specs.Told.{IsCausedFault};
ghost use Rattle.lldb_verify.specs.Passes.{found_at, blocks_from, Ahead, Goes, Passes};

use crate::place::Place;
use crate::seen::{Seen, see};
use crate::tell::tell;
use crate::window::Window;
use crate::{Bits, FaultLog, Finding, Stats, VerifyFault};
use lldb_base::Filer;

/// What is found at a block.
fn block_found(before: Option<u64>, atom: u64, seen: &Seen) -> Option<Finding>
    ensures { kept_one result ≡ found_at before atom seen.now }
{
    match *seen {
        Seen::Used { .. } => None,
        Seen::Compressed { .. } => Some(Finding::Compressed { atom }),
        Seen::Relocated { .. } => None,
        Seen::Free { .. } => behind_free(before, atom),
    }
}

/// What is found at a free block.
fn behind_free(before: Option<u64>, atom: u64) -> Option<Finding>
    ensures { kept_one result ≡ beside before atom }
{
    match before {
        Some(left) => Some(Finding::FreeNeighbours { left, right: atom }),
        None => None,
    }
}

/// What is found behind the last block.
fn end_found(before: Option<u64>) -> Option<Finding>
    ensures { kept_one result ≡ last_free before }
{
    match before {
        Some(atom) => Some(Finding::FreeAtEnd { atom }),
        None => None,
    }
}

/// Passes over the block at a place, and answers whether one begins there.
fn pass_block<F: Filer>(
    filer: &mut F,
    window: &mut Window,
    scratch: &mut Bits,
    log: &mut Box<dyn FaultLog>,
    place: &mut Place,
) -> Result<bool, VerifyFault>
    requires sound { IsTrue (F.is_sound filer.old) }
    requires within { place.old.atom < F.size_of filer.old / 16 }
    requires holds { IfSome (F.content filer.old) (Holds window.old) }
    requires bits { F.size_of filer.old / 16 ≤ scratch.old.count }
    requires room { IsTrue (has_room (bound log.old) (length (list log.old))) }
    ensures went { IfSome (F.content filer.old) (λ c. (all : List Finding)
        → Ahead c all place.old scratch.old (list log.old)
        → Goes c all (bound log.old) place.new scratch.new (list log.new) result) }
    ensures within { OnOk result (place.new.atom ≤ F.size_of filer.old / 16) }
    ensures on { IfOk result (λ stands. IsTrue stands → place.old.atom < place.new.atom) }
    ensures holds { OnOk result (IfSome (F.content filer.old) (Holds window.new)) }
    ensures count { scratch.new.count ≡ scratch.old.count }
    ensures room { OnOk result (IsTrue (has_room (bound log.old) (length (list log.new)))) }
    ensures bound { bound log.new ≡ bound log.old }
    ensures frame { OnlyReads F.content F.size_of F.saved F.saved_sizes F.limit_of F.is_sound F.told
        F.left F.fixed filer.old filer.new }
    ensures cause { IsCausedFault result (F.faults filer.old) (F.faults filer.new) }
{
    match see(filer, window, place.atom)? {
        Some(seen) => {
            tell(log, block_found(place.before, place.atom, &seen))?;
            scratch.set(place.atom, true);
            *place = place.behind(&seen);
            Ok(true)
        }
        None => {
            let atom = place.atom;
            tell(log, Some(Finding::BadBlock { atom }))?;
            Ok(false)
        }
    }
}

/// Passes over the blocks from a place on, up to the end or to where none begins, and answers whether it came to the end.
fn pass_on<F: Filer>(
    filer: &mut F,
    window: &mut Window,
    scratch: &mut Bits,
    log: &mut Box<dyn FaultLog>,
    place: &mut Place,
) -> Result<bool, VerifyFault>
    requires sound { IsTrue (F.is_sound filer.old) }
    requires within { place.old.atom ≤ F.size_of filer.old / 16 }
    requires holds { IfSome (F.content filer.old) (Holds window.old) }
    requires bits { F.size_of filer.old / 16 ≤ scratch.old.count }
    requires room { IsTrue (has_room (bound log.old) (length (list log.old))) }
    ensures went { IfSome (F.content filer.old) (λ c. (all : List Finding)
        → Ahead c all place.old scratch.old (list log.old)
        → Goes c all (bound log.old) place.new scratch.new (list log.new) result) }
    ensures end { IfOk result (λ ended. IsTrue ended → place.new.atom ≡ F.size_of filer.old / 16) }
    ensures holds { OnOk result (IfSome (F.content filer.old) (Holds window.new)) }
    ensures count { scratch.new.count ≡ scratch.old.count }
    ensures room { OnOk result (IsTrue (has_room (bound log.old) (length (list log.new)))) }
    ensures bound { bound log.new ≡ bound log.old }
    ensures frame { OnlyReads F.content F.size_of F.saved F.saved_sizes F.limit_of F.is_sound F.told
        F.left F.fixed filer.old filer.new }
    ensures cause { IsCausedFault result (F.faults filer.old) (F.faults filer.new) }
{
    let atoms = filer.size() / 16;
    'walk: while place.atom < atoms {
        let stands = pass_block(filer, window, scratch, log, place)?;
        if !stands {
            return Ok(false);
        }
    }
    Ok(true)
}

/// Passes over all blocks. Where they take the whole content it answers their numbers, and the bits are those at which one
/// begins.
pub(crate) fn pass_blocks<F: Filer>(
    filer: &mut F,
    window: &mut Window,
    scratch: &mut Bits,
    log: &mut Box<dyn FaultLog>,
) -> Result<Option<Stats>, VerifyFault>
    requires sound { IsTrue (F.is_sound filer.old) }
    requires table { 128 ≤ F.size_of filer.old }
    requires whole { F.size_of filer.old % 16 ≡ 0 }
    requires holds { IfSome (F.content filer.old) (Holds window.old) }
    requires bits { F.size_of filer.old / 16 ≤ scratch.old.count }
    requires clear { (q : ℕ) → is_set scratch.old q ≡ false }
    requires room { IsTrue (has_room (bound log.old) (length (list log.old))) }
    ensures passed { IfSome (F.content filer.old) (λ c. Passes c
        (list log.old ++ of_blocks (length c / 16) None 8 (row_of (blocks_from c 8)))
        (bound log.old) scratch.new (list log.new) result) }
    ensures holds { OnOk result (IfSome (F.content filer.old) (Holds window.new)) }
    ensures count { scratch.new.count ≡ scratch.old.count }
    ensures room { OnOk result (IsTrue (has_room (bound log.old) (length (list log.new)))) }
    ensures bound { bound log.new ≡ bound log.old }
    ensures frame { OnlyReads F.content F.size_of F.saved F.saved_sizes F.limit_of F.is_sound F.told
        F.left F.fixed filer.old filer.new }
    ensures cause { IsCausedFault result (F.faults filer.old) (F.faults filer.new) }
{
    let atoms = filer.size() / 16;
    let mut place = Place::new();
    let ended = pass_on(filer, window, scratch, log, &mut place)?;
    if !ended {
        return Ok(None);
    }
    tell(log, end_found(place.before))?;
    Ok(Some(Stats {
        atoms,
        used: place.used,
        relocated: place.relocated,
        free: place.free,
    }))
}
