//! The verifier.
ghost use Rattle.std.specs.Prelude.{◌≡◌, ℕ, ◌+◌, ◌*◌, ◌/◌, ◌%◌, ◌≤◌, List, [], IsTrue, false, length, OnOk, IfSome, is_some, Ok};
ghost use Rattle.lldb_atoms.specs.Lists.{row_of, tile_from};
ghost use Rattle.lldb_verify.specs.Logs.{has_room};
ghost use Rattle.lldb_verify.specs.Marks.{Marks, is_set};
ghost use Rattle.lldb_verify.specs.Met.{Lists, links_of, IsOdd, Passing, Verifies};
ghost use Rattle.lldb_verify.specs.Passes.{blocks_from};
ghost use Rattle.lldb_verify.specs.Reads.{OnlyReads, Holds};
ghost use Rattle.lldb_verify.specs.Told.{IsCausedFault};

use crate::lists::pass_lists;
use crate::targets::pass_targets;
use crate::tell::tell;
use crate::tiles::pass_blocks;
use crate::unlisted::pass_unlisted;
use crate::window::Window;
use crate::{Bits, FaultLog, Finding, Stats, VerifyFault};
use lldb_base::Filer;

/// Tells what is wrong with a content, in order, for as long as the log wants more.
///
/// It answers numbers exactly where nothing is found; then the scratch has the bits at the handles of the content. It passes
/// over the content three times in pieces of 16 KiB, and follows each link once. It clears the scratch first, and takes no
/// memory; what the log takes is the log's.
pub fn verify<F: Filer>(
    filer: &mut F,
    scratch: &mut Bits,
    log: &mut Box<dyn FaultLog>,
) -> Result<Stats, VerifyFault>
    requires sound { IsTrue (F.is_sound filer.old) }
    requires bits { F.size_of filer.old / 16 ≤ scratch.old.count }
    requires empty { list log.old ≡ [] }
    requires room { IsTrue (has_room (bound log.old) (length (list log.old))) }
    ensures verified { IfSome (F.content filer.old) (λ c. Verifies c (bound log.old) scratch.new
        (list log.new) result) }
    ensures count { scratch.new.count ≡ scratch.old.count }
    ensures bound { bound log.new ≡ bound log.old }
    ensures frame { OnlyReads F.content F.size_of F.saved F.saved_sizes F.limit_of F.is_sound F.told
        F.left F.fixed filer.old filer.new }
    ensures cause { IsCausedFault result (F.faults filer.old) (F.faults filer.new) }
{
    scratch.clear();
    let numbers = pass_all(filer, scratch, log)?;
    answer(log, numbers)
}

/// How many findings a log was told.
fn told(log: &Box<dyn FaultLog>) -> u64
    ensures { result ≡ length (list log.now) }
{
    log.told()
}

/// The numbers, where nothing was told.
fn answer(log: &Box<dyn FaultLog>, numbers: Option<Stats>) -> Result<Stats, VerifyFault>
    requires room { IsTrue (has_room (bound log.now) (length (list log.now))) }
    ensures answer { (c : List ℕ) (bits : Marks) → Passing c (bound log.now) bits (list log.now)
        (Ok numbers) → Verifies c (bound log.now) bits (list log.now) result }
    ensures cause { (n : ℕ) → IsCausedFault result n n }
{
    let count = told(log);
    match numbers {
        Some(stats) => {
            if count == 0 {
                Ok(stats)
            } else {
                Err(VerifyFault::Found { count })
            }
        }
        None => Err(VerifyFault::Found { count }),
    }
}

/// All passes, and the numbers where blocks take the whole content.
fn pass_all<F: Filer>(
    filer: &mut F,
    scratch: &mut Bits,
    log: &mut Box<dyn FaultLog>,
) -> Result<Option<Stats>, VerifyFault>
    requires sound { IsTrue (F.is_sound filer.old) }
    requires bits { F.size_of filer.old / 16 ≤ scratch.old.count }
    requires clear { (q : ℕ) → is_set scratch.old q ≡ false }
    requires empty { list log.old ≡ [] }
    requires room { IsTrue (has_room (bound log.old) (length (list log.old))) }
    ensures passed { IfSome (F.content filer.old) (λ c. Passing c (bound log.old) scratch.new
        (list log.new) result) }
    ensures count { scratch.new.count ≡ scratch.old.count }
    ensures room { OnOk result (IsTrue (has_room (bound log.old) (length (list log.new)))) }
    ensures bound { bound log.new ≡ bound log.old }
    ensures frame { OnlyReads F.content F.size_of F.saved F.saved_sizes F.limit_of F.is_sound F.told
        F.left F.fixed filer.old filer.new }
    ensures cause { IsCausedFault result (F.faults filer.old) (F.faults filer.new) }
{
    let bytes = filer.size();
    if bytes == 0 {
        return Ok(Some(Stats {
            atoms: 0,
            used: 0,
            relocated: 0,
            free: 0,
        }));
    }
    if bytes < 128 {
        return bad_length(log, bytes);
    }
    if bytes % 16 != 0 {
        return bad_length(log, bytes);
    }
    pass_whole(filer, scratch, log)
}

/// Tells that a content is not whole atoms behind a table.
fn bad_length(log: &mut Box<dyn FaultLog>, bytes: u64) -> Result<Option<Stats>, VerifyFault>
    requires empty { list log.old ≡ [] }
    requires room { IsTrue (has_room (bound log.old) (length (list log.old))) }
    ensures told { (c : List ℕ) (bits : Marks) → IsOdd c bytes
        → Passing c (bound log.old) bits (list log.new) result }
    ensures room { OnOk result (IsTrue (has_room (bound log.old) (length (list log.new)))) }
    ensures bound { bound log.new ≡ bound log.old }
    ensures cause { (n : ℕ) → IsCausedFault result n n }
{
    tell(log, Some(Finding::BadLength { bytes }))?;
    Ok(None)
}

/// The passes over a content of whole atoms.
fn pass_whole<F: Filer>(
    filer: &mut F,
    scratch: &mut Bits,
    log: &mut Box<dyn FaultLog>,
) -> Result<Option<Stats>, VerifyFault>
    requires sound { IsTrue (F.is_sound filer.old) }
    requires table { 128 ≤ F.size_of filer.old }
    requires whole { F.size_of filer.old % 16 ≡ 0 }
    requires bits { F.size_of filer.old / 16 ≤ scratch.old.count }
    requires clear { (q : ℕ) → is_set scratch.old q ≡ false }
    requires empty { list log.old ≡ [] }
    requires room { IsTrue (has_room (bound log.old) (length (list log.old))) }
    ensures passed { IfSome (F.content filer.old) (λ c. Passing c (bound log.old) scratch.new
        (list log.new) result) }
    ensures count { scratch.new.count ≡ scratch.old.count }
    ensures room { OnOk result (IsTrue (has_room (bound log.old) (length (list log.new)))) }
    ensures bound { bound log.new ≡ bound log.old }
    ensures frame { OnlyReads F.content F.size_of F.saved F.saved_sizes F.limit_of F.is_sound F.told
        F.left F.fixed filer.old filer.new }
    ensures cause { IsCausedFault result (F.faults filer.old) (F.faults filer.new) }
{
    let mut window = Window::new(16384);
    let passed = pass_blocks(filer, &mut window, scratch, log)?;
    match passed {
        Some(stats) => {
            pass_links(filer, &mut window, scratch, log)?;
            Ok(Some(stats))
        }
        None => Ok(None),
    }
}

/// What blocks name: relocated blocks and their targets, the lists, and the free blocks that no list has.
fn pass_links<F: Filer>(
    filer: &mut F,
    window: &mut Window,
    scratch: &mut Bits,
    log: &mut Box<dyn FaultLog>,
) -> Result<(), VerifyFault>
    requires sound { IsTrue (F.is_sound filer.old) }
    requires table { 128 ≤ F.size_of filer.old }
    requires whole { F.size_of filer.old % 16 ≡ 0 }
    requires holds { IfSome (F.content filer.old) (Holds window.old) }
    requires bits { F.size_of filer.old / 16 ≤ scratch.old.count }
    requires marked { IfSome (F.content filer.old)
        (λ c. (q : ℕ) → is_set scratch.old q ≡ is_some (tile_from 8 (blocks_from c 8) q)) }
    requires room { IsTrue (has_room (bound log.old) (length (list log.old))) }
    ensures links { IfSome (F.content filer.old) (λ c. Lists c (links_of c) (list log.old)
        (bound log.old) scratch.new (list log.new) result) }
    ensures count { scratch.new.count ≡ scratch.old.count }
    ensures room { OnOk result (IsTrue (has_room (bound log.old) (length (list log.new)))) }
    ensures bound { bound log.new ≡ bound log.old }
    ensures frame { OnlyReads F.content F.size_of F.saved F.saved_sizes F.limit_of F.is_sound F.told
        F.left F.fixed filer.old filer.new }
    ensures cause { IsCausedFault result (F.faults filer.old) (F.faults filer.new) }
{
    let mut near = Window::new(32);
    pass_targets(filer, window, &mut near, scratch, log)?;
    pass_lists(filer, &mut near, scratch, log)?;
    pass_unlisted(filer, window, scratch, log)
}
