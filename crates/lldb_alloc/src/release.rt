//! A hole is given up: merged with its free neighbours, and then cut off or put into a list.
ghost use Rattle.std.specs.Prelude.{◌≡◌, ◌+◌, ◌*◌, ◌^◌, ◌<◌, ◌≤◌, IsTrue, length, OnOk, IfOk, IfSome};
ghost use Rattle.lldb_base.specs.Trouble.{IsCausedTrouble, Refuses};
ghost use Rattle.lldb_blocks.specs.Steps.{TakesBehind, TakesBefore, GivesUp};
ghost use Rattle.lldb_alloc.specs.Frames.{KeepsLevels, KeepsContent, KeepsStops};
ghost use Rattle.lldb_alloc.specs.Changes.{Turns, LacksHole};
ghost use Rattle.lldb_alloc.specs.Releases.{TellsFree, LacksBlock, EndsFree, LacksGap, Releases, free_by};

use crate::bytes::{cut_bytes, read_bytes};
use crate::chain::{link, unlink};
use crate::front::read_block;
use crate::links::free_of;
use lldb_atoms::read_seven;
use lldb_base::{Filer, Trouble};

/// Whether the block that begins at an atom is free.
#[tactic(auto, using(crate::proofs::Stays::stops_none, crate::proofs::Stays::stops_then, crate::proofs::Gaps::tells_some, crate::proofs::Gaps::tells_none))]
fn is_free_at<F: Filer>(filer: &mut F, at: u64) -> Result<bool, Trouble>
    requires sound { IsTrue (F.is_sound filer.old) }
    requires most { F.size_of filer.old ≤ 2 ^ 60 }
    ensures free { IfOk result (λ free. IfSome (F.content filer.old) (TellsFree at free)) }
    ensures content { KeepsContent F.content F.size_of filer.old filer.new }
    ensures refuses { Refuses (λ _ _. ⊥) (IfSome (F.content filer.old) (LacksBlock at)) result }
    ensures frame { KeepsLevels F.saved F.saved_sizes F.limit_of F.is_sound F.told F.left F.fixed
        filer.old filer.new }
    ensures stops { KeepsStops F.content F.saved F.may_leave F.moment F.left_since F.told filer.old
        filer.new }
    ensures cause { IsCausedTrouble result (F.faults filer.old) (F.faults filer.new) }
{
    let block = read_block(filer, at)?;
    match free_of(&block) {
        Some(_) => Ok(true),
        None => Ok(false),
    }
}

/// Takes the free block behind a hole into it, where one is, and answers how many atoms the hole has then.
#[tactic(auto, using(crate::proofs::Stays::stops_none, crate::proofs::Stays::stops_then, crate::proofs::Gaps::behind_end, crate::proofs::Gaps::behind_other))]
fn take_behind<F: Filer>(filer: &mut F, at: u64, atoms: u64) -> Result<u64, Trouble>
    requires sound { IsTrue (F.is_sound filer.old) }
    requires depth { 1 ≤ length (F.saved filer.old) }
    requires most { F.size_of filer.old ≤ 2 ^ 60 }
    requires table { 128 ≤ F.size_of filer.old }
    requires within { 16 * (at + atoms) ≤ F.size_of filer.old }
    ensures taken { IfOk result (λ total. Turns (F.content filer.old) (F.content filer.new)
        (TakesBehind at atoms total)) }
    ensures within { IfOk result (λ total. (atoms ≤ total) × (16 * (at + total) ≤ F.size_of
        filer.old)) }
    ensures size { F.size_of filer.new ≡ F.size_of filer.old }
    ensures refuses { Refuses (λ _ _. ⊥) (IfSome (F.content filer.old) (LacksGap at atoms)) result }
    ensures frame { KeepsLevels F.saved F.saved_sizes F.limit_of F.is_sound F.told F.left F.fixed
        filer.old filer.new }
    ensures stops { KeepsStops F.content F.saved F.may_leave F.moment F.left_since F.told filer.old
        filer.new }
    ensures cause { IsCausedTrouble result (F.faults filer.old) (F.faults filer.new) }
{
    let behind = at + atoms;
    if 16 * behind == filer.size() {
        return Ok(atoms);
    }
    let free = is_free_at(filer, behind)?;
    if !free {
        return Ok(atoms);
    }
    let more = unlink(filer, behind)?;
    Ok(atoms + more)
}

/// The atoms of the free block that ends before an atom, 0 where none does.
#[tactic(auto, using(crate::proofs::Stays::stops_none, crate::proofs::Stays::stops_then, crate::proofs::Gaps::ends_none, crate::proofs::Gaps::ends_some))]
fn free_before<F: Filer>(filer: &mut F, at: u64) -> Result<u64, Trouble>
    requires sound { IsTrue (F.is_sound filer.old) }
    requires start { 8 ≤ at }
    requires within { 16 * at ≤ F.size_of filer.old }
    ensures before { IfOk result (λ atoms. IfSome (F.content filer.old) (EndsFree at atoms)) }
    ensures first { IfOk result (λ atoms. at ≡ 8 → atoms ≡ 0) }
    ensures small { IfOk result (λ atoms. atoms < 2 ^ 56) }
    ensures content { KeepsContent F.content F.size_of filer.old filer.new }
    ensures refuses { Refuses (λ _ _. ⊥) ⊥ result }
    ensures frame { KeepsLevels F.saved F.saved_sizes F.limit_of F.is_sound F.told F.left F.fixed
        filer.old filer.new }
    ensures stops { KeepsStops F.content F.saved F.may_leave F.moment F.left_since F.told filer.old
        filer.new }
    ensures cause { IsCausedTrouble result (F.faults filer.old) (F.faults filer.new) }
{
    if at == 8 {
        return Ok(0);
    }
    let mut bytes = [0; 8];
    read_bytes(filer, 16 * at - 8, &mut bytes)?;
    Ok(ended_by(&bytes))
}

/// The atoms of a free block whose last bytes these are, 0 where they are those of another.
#[tactic(auto, using(crate::proofs::Gaps::ended_one, crate::proofs::Gaps::ended_more, crate::proofs::Gaps::ended_none))]
fn ended_by(bytes: &[u8; 8]) -> u64
    ensures atoms { result ≡ free_by bytes.now }
    ensures small { result < 2 ^ 56 }
{
    match bytes[7] {
        254 => 1,
        255 => read_seven(bytes),
        _ => 0,
    }
}

/// A hole: its first atom, and how many it has.
#[derive(Clone, Copy, Debug)]
struct Gap {
    from: u64,
    atoms: u64,
}

/// Takes the free block before a hole into it, where one is.
#[tactic(auto, using(crate::proofs::Stays::stops_none, crate::proofs::Stays::stops_then, crate::proofs::Gaps::before_none, crate::proofs::Gaps::before_low))]
fn take_before<F: Filer>(filer: &mut F, at: u64, atoms: u64) -> Result<Gap, Trouble>
    requires sound { IsTrue (F.is_sound filer.old) }
    requires depth { 1 ≤ length (F.saved filer.old) }
    requires most { F.size_of filer.old ≤ 2 ^ 60 }
    requires start { 8 ≤ at }
    requires within { 16 * (at + atoms) ≤ F.size_of filer.old }
    ensures taken { IfOk result (λ gap. Turns (F.content filer.old) (F.content filer.new)
        (TakesBefore at atoms gap.from gap.atoms)) }
    ensures within { IfOk result (λ gap. (8 ≤ gap.from) × (atoms ≤ gap.atoms)
        × (gap.from + gap.atoms ≡ at + atoms)) }
    ensures size { F.size_of filer.new ≡ F.size_of filer.old }
    ensures refuses { Refuses (λ _ _. ⊥) (IfSome (F.content filer.old) (LacksGap at atoms)) result }
    ensures frame { KeepsLevels F.saved F.saved_sizes F.limit_of F.is_sound F.told F.left F.fixed
        filer.old filer.new }
    ensures stops { KeepsStops F.content F.saved F.may_leave F.moment F.left_since F.told filer.old
        filer.new }
    ensures cause { IsCausedTrouble result (F.faults filer.old) (F.faults filer.new) }
{
    let more = free_before(filer, at)?;
    if more == 0 {
        return Ok(Gap { from: at, atoms });
    }
    if at < 8 + more {
        return Err(Trouble::Damaged);
    }
    let count = unlink(filer, at - more)?;
    if count != more {
        return Err(Trouble::Damaged);
    }
    Ok(Gap {
        from: at - more,
        atoms: more + atoms,
    })
}

/// Cuts a hole off where it is the last, and else puts it into a list.
#[tactic(auto, using(crate::proofs::Stays::stops_none, crate::proofs::Stays::stops_then, crate::proofs::Gaps::gives_cut, crate::proofs::Gaps::gives_listed))]
fn give_up<F: Filer>(filer: &mut F, at: u64, atoms: u64) -> Result<(), Trouble>
    requires sound { IsTrue (F.is_sound filer.old) }
    requires depth { 1 ≤ length (F.saved filer.old) }
    requires most { F.size_of filer.old ≤ 2 ^ 60 }
    requires table { 128 ≤ F.size_of filer.old }
    requires start { 8 ≤ at }
    requires some { 1 ≤ atoms }
    requires within { 16 * (at + atoms) ≤ F.size_of filer.old }
    ensures given { OnOk result (Turns (F.content filer.old) (F.content filer.new) (GivesUp at
        atoms)) }
    ensures size { F.size_of filer.new ≤ F.size_of filer.old }
    ensures refuses { Refuses (λ _ _. ⊥) (IfSome (F.content filer.old) (LacksHole at atoms))
        result }
    ensures frame { KeepsLevels F.saved F.saved_sizes F.limit_of F.is_sound F.told F.left F.fixed
        filer.old filer.new }
    ensures stops { KeepsStops F.content F.saved F.may_leave F.moment F.left_since F.told filer.old
        filer.new }
    ensures cause { IsCausedTrouble result (F.faults filer.old) (F.faults filer.new) }
{
    if 16 * (at + atoms) == filer.size() {
        cut_bytes(filer, 16 * at)?;
        return Ok(());
    }
    link(filer, at, atoms)?;
    Ok(())
}

/// Gives up a hole of so many atoms: merges it with the free block behind it and with the one before it, and then cuts it off
/// or puts it into a list.
#[tactic(auto, using(crate::proofs::Stays::stops_none, crate::proofs::Stays::stops_then, crate::proofs::Gaps::released_told))]
pub(crate) fn release<F: Filer>(filer: &mut F, at: u64, atoms: u64) -> Result<(), Trouble>
    requires sound { IsTrue (F.is_sound filer.old) }
    requires depth { 1 ≤ length (F.saved filer.old) }
    requires most { F.size_of filer.old ≤ 2 ^ 60 }
    requires table { 128 ≤ F.size_of filer.old }
    requires start { 8 ≤ at }
    requires some { 1 ≤ atoms }
    requires within { 16 * (at + atoms) ≤ F.size_of filer.old }
    ensures released { OnOk result (Turns (F.content filer.old) (F.content filer.new) (Releases at
        atoms)) }
    ensures size { F.size_of filer.new ≤ F.size_of filer.old }
    ensures refuses { Refuses (λ _ _. ⊥) (IfSome (F.content filer.old) (LacksGap at atoms)) result }
    ensures frame { KeepsLevels F.saved F.saved_sizes F.limit_of F.is_sound F.told F.left F.fixed
        filer.old filer.new }
    ensures stops { KeepsStops F.content F.saved F.may_leave F.moment F.left_since F.told filer.old
        filer.new }
    ensures cause { IsCausedTrouble result (F.faults filer.old) (F.faults filer.new) }
{
    let total = take_behind(filer, at, atoms)?;
    let gap = take_before(filer, at, total)?;
    give_up(filer, gap.from, gap.atoms)?;
    Ok(())
}

/// Gives up a block of so many atoms, which is not free. It is `Damaged` where the block is not within the content.
#[tactic(auto, using(crate::proofs::Stays::stops_none, crate::proofs::Stays::stops_then, crate::proofs::Removed::gap_low, crate::proofs::Removed::gap_past))]
pub(crate) fn discard<F: Filer>(filer: &mut F, at: u64, atoms: u64) -> Result<(), Trouble>
    requires sound { IsTrue (F.is_sound filer.old) }
    requires depth { 1 ≤ length (F.saved filer.old) }
    requires most { F.size_of filer.old ≤ 2 ^ 60 }
    requires some { 1 ≤ atoms }
    requires end { 16 * (at + atoms) ≤ 2 ^ 60 }
    ensures released { OnOk result (Turns (F.content filer.old) (F.content filer.new) (Releases at
        atoms)) }
    ensures size { F.size_of filer.new ≤ F.size_of filer.old }
    ensures refuses { Refuses (λ _ _. ⊥) (IfSome (F.content filer.old) (LacksGap at atoms)) result }
    ensures frame { KeepsLevels F.saved F.saved_sizes F.limit_of F.is_sound F.told F.left F.fixed
        filer.old filer.new }
    ensures stops { KeepsStops F.content F.saved F.may_leave F.moment F.left_since F.told filer.old
        filer.new }
    ensures cause { IsCausedTrouble result (F.faults filer.old) (F.faults filer.new) }
{
    if at < 8 {
        return Err(Trouble::Damaged);
    }
    if filer.size() < 16 * (at + atoms) {
        return Err(Trouble::Damaged);
    }
    release(filer, at, atoms)
}
