//! Reading through a window.
ghost use Rattle.std.specs.Prelude.{◌≡◌, ℕ, ◌+◌, ◌^◌, ◌≤◌, List, IsTrue, length, take, drop, OnOk, IfSome};
ghost use Rattle.lldb_base.specs.Trouble.{IsCausedTrouble, Refuses};
ghost use Rattle.lldb_verify.specs.Reads.{OnlyReads, Holds};

use crate::window::{Span, Window};
use lldb_base::{Filer, Trouble};

/// Holds the bytes from a place on, `least` of them at least.
fn fill<F: Filer>(filer: &mut F, window: &mut Window, at: u64, least: u64) -> Result<(), Trouble>
    requires sound { IsTrue (F.is_sound filer.old) }
    requires within { at + least ≤ F.size_of filer.old }
    requires short { least ≤ 32 }
    ensures holds { OnOk result (IfSome (F.content filer.old) (Holds window.new)) }
    ensures start { OnOk result (window.new.span.start ≤ at) }
    ensures end { OnOk result (at + least ≤ window.new.span.start + window.new.span.held) }
    ensures refuses { Refuses (λ _ _. ⊥) ⊥ result }
    ensures frame { OnlyReads F.content F.size_of F.saved F.saved_sizes F.limit_of F.is_sound F.told
        F.left F.fixed filer.old filer.new }
    ensures cause { IsCausedTrouble result (F.faults filer.old) (F.faults filer.new) }
{
    let count = (filer.size() - at).min(window.span.most);
    filer.read_at(at, &mut window.bytes[..count as usize])?;
    window.span = Span {
        start: at,
        held: count,
        most: window.span.most,
    };
    Ok(())
}

/// Holds at least so many bytes from a place on.
fn reach<F: Filer>(filer: &mut F, window: &mut Window, at: u64, count: u64) -> Result<(), Trouble>
    requires sound { IsTrue (F.is_sound filer.old) }
    requires within { at + count ≤ F.size_of filer.old }
    requires short { count ≤ 32 }
    requires holds { IfSome (F.content filer.old) (Holds window.old) }
    ensures holds { OnOk result (IfSome (F.content filer.old) (Holds window.new)) }
    ensures start { OnOk result (window.new.span.start ≤ at) }
    ensures end { OnOk result (at + count ≤ window.new.span.start + window.new.span.held) }
    ensures refuses { Refuses (λ _ _. ⊥) ⊥ result }
    ensures frame { OnlyReads F.content F.size_of F.saved F.saved_sizes F.limit_of F.is_sound F.told
        F.left F.fixed filer.old filer.new }
    ensures cause { IsCausedTrouble result (F.faults filer.old) (F.faults filer.new) }
{
    let span = window.span;
    if span.start <= at && at + count <= span.start + span.held {
        Ok(())
    } else {
        fill(filer, window, at, count)
    }
}

/// Fills `out` with the bytes from a place on, which the window holds afterwards.
pub(crate) fn read_through<F: Filer>(
    filer: &mut F,
    window: &mut Window,
    at: u64,
    out: &mut [u8],
) -> Result<(), Trouble>
    requires sound { IsTrue (F.is_sound filer.old) }
    requires within { at + length out.old ≤ F.size_of filer.old }
    requires short { length out.old ≤ 32 }
    requires holds { IfSome (F.content filer.old) (Holds window.old) }
    ensures read { OnOk result (IfSome (F.content filer.old)
        (λ c. out.new ≡ take (length out.old) (drop at c))) }
    ensures holds { OnOk result (IfSome (F.content filer.old) (Holds window.new)) }
    ensures refuses { Refuses (λ _ _. ⊥) ⊥ result }
    ensures frame { OnlyReads F.content F.size_of F.saved F.saved_sizes F.limit_of F.is_sound F.told
        F.left F.fixed filer.old filer.new }
    ensures cause { IsCausedTrouble result (F.faults filer.old) (F.faults filer.new) }
{
    reach(filer, window, at, out.len() as u64)?;
    let from = (at - window.span.start) as usize;
    out.copy_from_slice(&window.bytes[from..from + out.len()]);
    Ok(())
}
