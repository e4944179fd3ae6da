//! What lies at the bottom: a content that is changed by whole batches.
ghost use Rattle.std.specs.Prelude.{◌≡◌, ℕ, ◌+◌, ◌^◌, ◌<◌, ◌≤◌, max, Bool, true, IsTrue, List, [], length, take, drop, Option, option_map, OnOk, OnErr, IfSome};
ghost use Rattle.ql_edge.specs.Stops.{Leaves, HasShown, Adds, IsSameBut};
ghost use Rattle.lldb_base.specs.Batch.{applied, bytes_of, CanTake};
ghost use Rattle.lldb_base.specs.Filers.{IsSameBase};
ghost use Rattle.lldb_base.specs.Stops.{LeavesOnly, IsOldOrNew, IsNew};
ghost use Rattle.lldb_base.specs.Trouble.{IsCausedTrouble, Refuses, IsOver, SoundAfter, Counts};

use crate::{Batch, Trouble};
use ql_edge::Shows;

/// A content that is read in part and changed by whole batches.
pub trait BaseFiler: Shows {
    /// The bytes, where they are told. What is said of them by a filer that is not sound is left open.
    ghost content: { Self → Option (List ℕ) };

    ghost size_of: { Self → ℕ };

    ghost limit_of: { Self → ℕ };

    ghost is_sound: { Self → Bool };

    ghost moved_of: { Self → ℕ };

    /// What a stop may leave now: a content, or none where the files below have none.
    ghost may_leave: { Self → Option (List ℕ) → Type 0 };

    /// The moment, as a number that does not fall.
    ghost moment: { Self → ℕ };

    /// What a stop at some moment since `t`, with `n` bytes shown, may have left.
    ghost left_since: { Self → ℕ → ℕ → Option (List ℕ) → Type 0 };

    /// What lies before this place is never written.
    ghost floor: { ℕ };

    fn size(&self) -> u64
        ensures { result ≡ size_of self.now };

    /// How long the content may become.
    fn limit(&self) -> u64
        ensures { result ≡ limit_of self.now };

    /// Whether the content can still be used. It ends with a device's refusal of a `commit`.
    fn sound(&self) -> bool
        ensures { result ≡ is_sound self.now };

    /// How many bytes were read and written so far.
    fn moved(&self) -> u64
        ensures { result ≡ moved_of self.now };

    /// Fills `out` with the bytes from a place on. After a refusal nothing has changed but `out`.
    fn read_at(&mut self, at: u64, out: &mut [u8]) -> Result<(), Trouble>
        requires sound { IsTrue (is_sound self.old) }
        requires within { at + length out.old ≤ size_of self.old }
        ensures read { OnOk result (IfSome (content self.old)
            (λ c. out.new ≡ take (length out.old) (drop at c))) }
        ensures content { content self.new ≡ content self.old }
        ensures size { size_of self.new ≡ size_of self.old }
        ensures limit { limit_of self.new ≡ limit_of self.old }
        ensures sound { is_sound self.new ≡ is_sound self.old }
        ensures moved { Counts result (length out.old) (moved_of self.old) (moved_of self.new) }
        ensures stops { IsSameBut (content self.old) (content self.new) (may_leave self.old)
            (may_leave self.new) (moment self.old) (moment self.new) (left_since self.old)
            (left_since self.new) (Self.told self.old) (Self.told self.new) }
        ensures refuses { Refuses (λ _ _. ⊥) ⊥ result }
        ensures told { Self.told self.new ≡ Self.told self.old }
        ensures left { Self.left self.new ≡ Self.left self.old }
        ensures fixed { Self.fixed self.new ≡ Self.fixed self.old }
        ensures cause { IsCausedTrouble result (Self.faults self.old) (Self.faults self.new) };

    /// Writes the pieces of a batch, each `shift` behind its place, and sets the size. At each moment of it a stop leaves the
    /// old content or the new one, and after `Ok` only the new one.
    ///
    /// `Full` and this filer's own want of memory change nothing. After a device's refusal the filer is not sound.
    fn commit(&mut self, batch: &Batch, shift: u64) -> Result<(), Trouble>
        requires sound { IsTrue (is_sound self.old) }
        requires fits { CanTake floor shift (size_of self.old) batch.now }
        ensures content { OnOk result (content self.new ≡ option_map (applied shift batch.now)
            (content self.old)) }
        ensures kept { OnErr result (IsTrue (is_sound self.new) → content self.new
            ≡ content self.old) }
        ensures size { OnOk result (size_of self.new ≡ shift + batch.now.size) }
        ensures size_kept { OnErr result (size_of self.new ≡ size_of self.old) }
        ensures limit { limit_of self.new ≡ limit_of self.old }
        ensures sound { SoundAfter result (is_sound self.new) }
        ensures moved { Counts result (bytes_of batch.now.pieces) (moved_of self.old)
            (moved_of self.new) }
        ensures stops { Leaves (may_leave self.new)
            (IsOldOrNew shift batch.now (content self.old)) }
        ensures stops_new { OnOk result (Leaves (may_leave self.new)
            (IsNew shift batch.now (content self.old))) }
        ensures time { Adds (moment self.old) (moment self.new) (left_since self.old)
            (left_since self.new) (IsOldOrNew shift batch.now (content self.old))
            (HasShown (Self.told self.old)) }
        ensures idle { batch.now.pieces ≡ [] → shift + batch.now.size ≡ size_of self.old
            → Self.same self.old self.new × (moment self.new ≡ moment self.old) }
        ensures unwritten { OnErr result (IsTrue (is_sound self.new)
            → Self.same self.old self.new × (moment self.new ≡ moment self.old)) }
        ensures fits { OnOk result (shift + batch.now.size ≤ max (size_of self.old)
            (limit_of self.old)) }
        ensures refuses { Refuses (IsOver (size_of self.old) (limit_of self.old)
            (shift + batch.now.size)) ⊥ result }
        ensures told { Self.told self.new ≡ Self.told self.old }
        ensures left { Self.left self.new ≡ Self.left self.old }
        ensures fixed { Self.fixed self.new ≡ Self.fixed self.old }
        ensures cause { IsCausedTrouble result (Self.faults self.old) (Self.faults self.new) };

    ghost sizes: { (x : Self) → (size_of x ≤ 2 ^ 60 + 16) × (limit_of x ≤ 2 ^ 60 + 16) };

    ghost told_size: { (x : Self) → IsTrue (is_sound x) → IfSome (content x)
        (λ c. length c ≡ size_of x) };

    ghost same_filer: { (x y : Self) → Self.same x y → IsSameBase (content x) (content y)
        (size_of x) (size_of y) (limit_of x) (limit_of y) (is_sound x) (is_sound y) (moved_of x)
        (moved_of y) };

    ghost sound_stops: { (x : Self) → IsTrue (is_sound x) → LeavesOnly (content x) (may_leave x) };

    ghost counts_now: { (x : Self) (t : ℕ) (s : Option (List ℕ)) → t ≤ moment x → may_leave x s
        → IfSome (Self.told x) (λ u. left_since x t (length u.0) s) };

    ghost only_now: { (x : Self) (n : ℕ) (s : Option (List ℕ)) → left_since x (moment x) n s
        → may_leave x s × HasShown (Self.told x) n };

    ghost same_stops: { (x y : Self) → Self.same x y → IsSameBut (content x) (content y)
        (may_leave x) (may_leave y) (moment x) (moment y) (left_since x) (left_since y)
        (Self.told x) (Self.told y) };
}
