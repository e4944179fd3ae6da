//! The filer's calls on its content, as the crate's other functions use them.
ghost use Rattle.std.specs.Prelude.{◌≡◌, ◌+◌, ◌≤◌, max, IsTrue, length, take, drop, option_map, OnOk, OnErr, IfSome};
ghost use Rattle.lldb_base.specs.Batch.{put};
ghost use Rattle.lldb_base.specs.Trouble.{IsCausedTrouble, Refuses, IsOver};
ghost use Rattle.lldb_alloc.specs.Frames.{KeepsLevels, KeepsContent, KeepsStops};

use lldb_base::{Filer, Trouble};

/// Fills `out` with the bytes from a place on.
pub(crate) fn read_bytes<F: Filer>(filer: &mut F, at: u64, out: &mut [u8]) -> Result<(), Trouble>
    requires sound { IsTrue (F.is_sound filer.old) }
    requires within { at + length out.old ≤ F.size_of filer.old }
    ensures read { OnOk result (IfSome (F.content filer.old)
        (λ c. out.new ≡ take (length out.old) (drop at c))) }
    ensures content { KeepsContent F.content F.size_of filer.old filer.new }
    ensures refuses { Refuses (λ _ _. ⊥) ⊥ result }
    ensures frame { KeepsLevels F.saved F.saved_sizes F.limit_of F.is_sound F.told F.left F.fixed
        filer.old filer.new }
    ensures stops { KeepsStops F.content F.saved F.may_leave F.moment F.left_since F.told filer.old
        filer.new }
    ensures cause { IsCausedTrouble result (F.faults filer.old) (F.faults filer.new) }
{
    filer.read_at(at, out)
}

/// Writes a piece over the bytes from a place on.
pub(crate) fn write_bytes<F: Filer>(filer: &mut F, at: u64, piece: &[u8]) -> Result<(), Trouble>
    requires sound { IsTrue (F.is_sound filer.old) }
    requires depth { 1 ≤ length (F.saved filer.old) }
    requires within { at ≤ F.size_of filer.old }
    requires most { length piece.now ≤ 65792 }
    ensures written { OnOk result (F.content filer.new ≡ option_map (put at piece.now)
        (F.content filer.old)) }
    ensures size { OnOk result (F.size_of filer.new ≡ max (F.size_of filer.old)
        (at + length piece.now)) }
    ensures size_kept { OnErr result (F.size_of filer.new ≡ F.size_of filer.old) }
    ensures fits { OnOk result (at + length piece.now ≤ max (F.size_of filer.old)
        (F.limit_of filer.old)) }
    ensures refuses { Refuses (IsOver (F.size_of filer.old) (F.limit_of filer.old)
        (at + length piece.now)) ⊥ result }
    ensures frame { KeepsLevels F.saved F.saved_sizes F.limit_of F.is_sound F.told F.left F.fixed
        filer.old filer.new }
    ensures stops { KeepsStops F.content F.saved F.may_leave F.moment F.left_since F.told filer.old
        filer.new }
    ensures cause { IsCausedTrouble result (F.faults filer.old) (F.faults filer.new) }
{
    filer.write_at(at, piece)
}

/// Cuts the content to a size.
pub(crate) fn cut_bytes<F: Filer>(filer: &mut F, size: u64) -> Result<(), Trouble>
    requires sound { IsTrue (F.is_sound filer.old) }
    requires depth { 1 ≤ length (F.saved filer.old) }
    requires within { size ≤ F.size_of filer.old }
    ensures cut { OnOk result (F.content filer.new ≡ option_map (take size)
        (F.content filer.old)) }
    ensures size { OnOk result (F.size_of filer.new ≡ size) }
    ensures size_kept { OnErr result (F.size_of filer.new ≡ F.size_of filer.old) }
    ensures refuses { Refuses (λ _ _. ⊥) ⊥ result }
    ensures frame { KeepsLevels F.saved F.saved_sizes F.limit_of F.is_sound F.told F.left F.fixed
        filer.old filer.new }
    ensures stops { KeepsStops F.content F.saved F.may_leave F.moment F.left_since F.told filer.old
        filer.new }
    ensures cause { IsCausedTrouble result (F.faults filer.old) (F.faults filer.new) }
{
    filer.truncate(size)
}
