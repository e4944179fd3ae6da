//! The third pass: the lists of free blocks.
ghost use Rattle.std.specs.Prelude.{◌≡◌, ℕ, ◌+◌, ◌*◌, ◌/◌, ◌<◌, ◌≤◌, List, IsTrue, length, OnOk, IfOk, IfSome};
ghost use Rattle.lldb_base.specs.Trouble.{IsCausedTrouble, Refuses};
ghost use Rattle.lldb_atoms.specs.Lists.{row_of, list_head};
ghost use Rattle.lldb_atoms.specs.Rows.{targets};
ghost use Rattle.lldb_verify.specs.Findings.{walk, of_lists};
ghost use Rattle.lldb_verify.specs.Logs.{has_room, kept_one};
ghost use Rattle.lldb_verify.specs.Met.{Unmet, link_of, Follows, cut_short, IsWalked, Lists};
ghost use Rattle.lldb_verify.specs.Passes.{blocks_from, Marked};
ghost use Rattle.lldb_verify.specs.Reads.{OnlyReads, Holds, seen_atoms};
ghost use Rattle.lldb_verify.specs.Told.{OfDevice, IsCausedFault};

use crate::seen::{Seen, see};
use crate::tell::tell;
use crate::window::Window;
use crate::{Bits, FaultLog, Finding, VerifyFault};
use byteorder::{BigEndian, ByteOrder};
use lldb_atoms::class_of;
use lldb_base::{Filer, Trouble};

/// The first atom of the list of a class, 0 where it is empty.
fn read_list<F: Filer>(filer: &mut F, class: u8) -> Result<u64, Trouble>
    requires sound { IsTrue (F.is_sound filer.old) }
    requires table { 128 ≤ F.size_of filer.old }
    requires class { class < 16 }
    ensures list { IfOk result (λ first. IfSome (F.content filer.old)
        (λ c. list_head c class ≡ first)) }
    ensures refuses { Refuses (λ _ _. ⊥) ⊥ result }
    ensures frame { OnlyReads F.content F.size_of F.saved F.saved_sizes F.limit_of F.is_sound F.told
        F.left F.fixed filer.old filer.new }
    ensures cause { IsCausedTrouble result (F.faults filer.old) (F.faults filer.new) }
{
    let mut bytes = [0; 8];
    filer.read_at(8 * (class as u64), &mut bytes)?;
    Ok(BigEndian::read_u64(&bytes))
}

/// The next link of the block, where it is free, of the class, and names the one before.
fn linked(class: u8, before: u64, seen: &Seen) -> Option<u64>
    requires some { 1 ≤ seen_atoms seen.now }
    ensures { result ≡ link_of class before seen.now }
{
    match *seen {
        Seen::Free {
            atoms,
            previous,
            next,
        } => {
            if class_of(atoms) == class && previous == before {
                Some(next)
            } else {
                None
            }
        }
        Seen::Used { .. } => None,
        Seen::Compressed { .. } => None,
        Seen::Relocated { .. } => None,
    }
}

/// The next link of an atom, where a list may go on to it. It is met from then on: its bit is unset.
fn follow<F: Filer>(
    filer: &mut F,
    near: &mut Window,
    scratch: &mut Bits,
    class: u8,
    before: u64,
    atom: u64,
) -> Result<Option<u64>, VerifyFault>
    requires sound { IsTrue (F.is_sound filer.old) }
    requires holds { IfSome (F.content filer.old) (Holds near.old) }
    requires bits { F.size_of filer.old / 16 ≤ scratch.old.count }
    ensures followed { IfOk result (λ next. IfSome (F.content filer.old) (λ c. (met : List ℕ)
        → Unmet c met scratch.old → Follows c class met before atom scratch.new next)) }
    ensures holds { OnOk result (IfSome (F.content filer.old) (Holds near.new)) }
    ensures count { scratch.new.count ≡ scratch.old.count }
    ensures frame { OnlyReads F.content F.size_of F.saved F.saved_sizes F.limit_of F.is_sound F.told
        F.left F.fixed filer.old filer.new }
    ensures device { OfDevice result }
    ensures cause { IsCausedFault result (F.faults filer.old) (F.faults filer.new) }
{
    let atoms = filer.size() / 16;
    if atom >= atoms {
        return Ok(None);
    }
    let fresh = scratch.get(atom);
    if !fresh {
        return Ok(None);
    }
    match see(filer, near, atom)? {
        Some(seen) => {
            let next = linked(class, before, &seen);
            scratch.set(atom, next.is_none());
            Ok(next)
        }
        None => Ok(None),
    }
}

/// What is found where the steps of a walk run out at an atom.
fn run_out(class: u8, atom: u64) -> Option<Finding>
    ensures { kept_one result ≡ cut_short class atom }
{
    if atom == 0 {
        None
    } else {
        Some(Finding::BadLink { class, atom })
    }
}

/// Follows the list of a class from its first atom on, and answers what is found along it.
fn follow_from<F: Filer>(
    filer: &mut F,
    near: &mut Window,
    scratch: &mut Bits,
    class: u8,
    first: u64,
) -> Result<Option<Finding>, VerifyFault>
    requires sound { IsTrue (F.is_sound filer.old) }
    requires holds { IfSome (F.content filer.old) (Holds near.old) }
    requires bits { F.size_of filer.old / 16 ≤ scratch.old.count }
    ensures walked { IfOk result (λ found. IfSome (F.content filer.old) (λ c. (met : List ℕ)
        → Unmet c met scratch.old → IsWalked c
        (walk (blocks_from c 8) class (F.size_of filer.old) met 0 first) scratch.new found)) }
    ensures holds { OnOk result (IfSome (F.content filer.old) (Holds near.new)) }
    ensures count { scratch.new.count ≡ scratch.old.count }
    ensures frame { OnlyReads F.content F.size_of F.saved F.saved_sizes F.limit_of F.is_sound F.told
        F.left F.fixed filer.old filer.new }
    ensures device { OfDevice result }
    ensures cause { IsCausedFault result (F.faults filer.old) (F.faults filer.new) }
{
    let mut before = 0;
    let mut atom = first;
    let mut most = filer.size();
    'walk: while most > 0 {
        if atom == 0 {
            return Ok(None);
        }
        match follow(filer, near, scratch, class, before, atom)? {
            Some(next) => {
                before = atom;
                atom = next;
                most -= 1;
            }
            None => {
                return Ok(Some(Finding::BadLink { class, atom }));
            }
        }
    }
    Ok(run_out(class, atom))
}

/// Follows the list of a class: tells of the atom at which it cannot go on, and unsets the bit of each block that it meets.
fn pass_list<F: Filer>(
    filer: &mut F,
    near: &mut Window,
    scratch: &mut Bits,
    log: &mut Box<dyn FaultLog>,
    class: u8,
) -> Result<(), VerifyFault>
    requires sound { IsTrue (F.is_sound filer.old) }
    requires table { 128 ≤ F.size_of filer.old }
    requires class { class < 16 }
    requires holds { IfSome (F.content filer.old) (Holds near.old) }
    requires bits { F.size_of filer.old / 16 ≤ scratch.old.count }
    requires room { IsTrue (has_room (bound log.old) (length (list log.old))) }
    ensures listed { IfSome (F.content filer.old) (λ c. (met : List ℕ) → Unmet c met scratch.old
        → Lists c (walk (blocks_from c 8) class (length c) met 0 (list_head c class))
        (list log.old) (bound log.old) scratch.new (list log.new) result) }
    ensures holds { OnOk result (IfSome (F.content filer.old) (Holds near.new)) }
    ensures count { scratch.new.count ≡ scratch.old.count }
    ensures room { OnOk result (IsTrue (has_room (bound log.old) (length (list log.new)))) }
    ensures bound { bound log.new ≡ bound log.old }
    ensures frame { OnlyReads F.content F.size_of F.saved F.saved_sizes F.limit_of F.is_sound F.told
        F.left F.fixed filer.old filer.new }
    ensures cause { IsCausedFault result (F.faults filer.old) (F.faults filer.new) }
{
    let first = read_list(filer, class)?;
    let found = follow_from(filer, near, scratch, class, first)?;
    tell(log, found)?;
    Ok(())
}

/// Follows all lists.
pub(crate) fn pass_lists<F: Filer>(
    filer: &mut F,
    near: &mut Window,
    scratch: &mut Bits,
    log: &mut Box<dyn FaultLog>,
) -> Result<(), VerifyFault>
    requires sound { IsTrue (F.is_sound filer.old) }
    requires table { 128 ≤ F.size_of filer.old }
    requires holds { IfSome (F.content filer.old) (Holds near.old) }
    requires bits { F.size_of filer.old / 16 ≤ scratch.old.count }
    requires marked { IfSome (F.content filer.old)
        (λ c. Marked c (targets (row_of (blocks_from c 8))) scratch.old) }
    requires room { IsTrue (has_room (bound log.old) (length (list log.old))) }
    ensures listed { IfSome (F.content filer.old) (λ c. Lists c (of_lists c (blocks_from c 8) 16)
        (list log.old) (bound log.old) scratch.new (list log.new) result) }
    ensures holds { OnOk result (IfSome (F.content filer.old) (Holds near.new)) }
    ensures count { scratch.new.count ≡ scratch.old.count }
    ensures room { OnOk result (IsTrue (has_room (bound log.old) (length (list log.new)))) }
    ensures bound { bound log.new ≡ bound log.old }
    ensures frame { OnlyReads F.content F.size_of F.saved F.saved_sizes F.limit_of F.is_sound F.told
        F.left F.fixed filer.old filer.new }
    ensures cause { IsCausedFault result (F.faults filer.old) (F.faults filer.new) }
{
    let mut class = 0;
    'walk: while class < 16 {
        pass_list(filer, near, scratch, log, class)?;
        class += 1;
    }
    Ok(())
}
