//! A content with nested levels, each of which can be taken back.
ghost use Rattle.std.specs.Prelude.{◌≡◌, ℕ, ◌+◌, ◌^◌, ◌<◌, ◌≤◌, max, Bool, true, IsTrue, List, ◌∷◌, length, take, drop, Option, option_map, OnOk, OnErr, IfSome};
ghost use Rattle.ql_edge.specs.Stops.{Leaves, HasShown, Adds, IsSameBut};
ghost use Rattle.lldb_base.specs.Batch.{put};
ghost use Rattle.lldb_base.specs.Filers.{IsSameHeld};
ghost use Rattle.lldb_base.specs.Stops.{LeavesOnly, IsEnded, kept_of};
ghost use Rattle.lldb_base.specs.Trouble.{IsCausedTrouble, Refuses, IsOver, SoundAfter};

use crate::Trouble;
use ql_edge::{NoMemory, Shows};

/// A content that is changed in place, and a stack of the contents that were saved.
///
/// The end of the outermost level is stored; the end of an inner one is not. What is kept is the content that was stored
/// last: the one that is held where no level is open, else the one that was saved first.
pub trait Filer: Shows {
    /// The bytes, where they are told. What is said of them by a filer that is not sound is left open.
    ghost content: { Self → Option (List ℕ) };

    /// What was saved, the last first. Its length is the depth.
    ghost saved: { Self → List (Option (List ℕ)) };

    /// The size of each saved content.
    ghost saved_sizes: { Self → List ℕ };

    ghost size_of: { Self → ℕ };

    ghost limit_of: { Self → ℕ };

    ghost is_sound: { Self → Bool };

    /// What a stop may leave now: a content, or none where the files below have none.
    ghost may_leave: { Self → Option (List ℕ) → Type 0 };

    /// The moment, as a number that does not fall.
    ghost moment: { Self → ℕ };

    /// What a stop at some moment since `t`, with `n` bytes shown, may have left.
    ghost left_since: { Self → ℕ → ℕ → Option (List ℕ) → Type 0 };

    fn size(&self) -> u64
        ensures { result ≡ size_of self.now };

    /// How long the content may become.
    fn limit(&self) -> u64
        ensures { result ≡ limit_of self.now };

    /// How many levels are open.
    fn depth(&self) -> u32
        ensures { result ≡ length (saved self.now) };

    /// Whether the content can still be used. It ends with a device's refusal of an outermost end.
    fn sound(&self) -> bool
        ensures { result ≡ is_sound self.now };

    /// Fills `out` with the bytes from a place on. After a refusal nothing has changed but `out`.
    fn read_at(&mut self, at: u64, out: &mut [u8]) -> Result<(), Trouble>
        requires sound { IsTrue (is_sound self.old) }
        requires within { at + length out.old ≤ size_of self.old }
        ensures read { OnOk result (IfSome (content self.old)
            (λ c. out.new ≡ take (length out.old) (drop at c))) }
        ensures content { content self.new ≡ content self.old }
        ensures saved { saved self.new ≡ saved self.old }
        ensures saved_sizes { saved_sizes self.new ≡ saved_sizes self.old }
        ensures size { size_of self.new ≡ size_of self.old }
        ensures limit { limit_of self.new ≡ limit_of self.old }
        ensures sound { is_sound self.new ≡ is_sound self.old }
        ensures refuses { Refuses (λ _ _. ⊥) ⊥ result }
        ensures stops { IsSameBut (kept_of (content self.old) (saved self.old))
            (kept_of (content self.new) (saved self.new)) (may_leave self.old) (may_leave self.new)
            (moment self.old) (moment self.new) (left_since self.old) (left_since self.new)
            (Self.told self.old) (Self.told self.new) }
        ensures told { Self.told self.new ≡ Self.told self.old }
        ensures left { Self.left self.new ≡ Self.left self.old }
        ensures fixed { Self.fixed self.new ≡ Self.fixed self.old }
        ensures cause { IsCausedTrouble result (Self.faults self.old) (Self.faults self.new) };

    /// Writes the piece over the bytes from a place on. After a refusal all is as before.
    fn write_at(&mut self, at: u64, piece: &[u8]) -> Result<(), Trouble>
        requires sound { IsTrue (is_sound self.old) }
        requires depth { 1 ≤ length (saved self.old) }
        requires within { at ≤ size_of self.old }
        requires most { length piece.now ≤ 65792 }
        ensures written { OnOk result (content self.new ≡ option_map (put at piece.now)
            (content self.old)) }
        ensures kept { OnErr result (content self.new ≡ content self.old) }
        ensures saved { saved self.new ≡ saved self.old }
        ensures saved_sizes { saved_sizes self.new ≡ saved_sizes self.old }
        ensures size { OnOk result (size_of self.new ≡ max (size_of self.old)
            (at + length piece.now)) }
        ensures size_kept { OnErr result (size_of self.new ≡ size_of self.old) }
        ensures limit { limit_of self.new ≡ limit_of self.old }
        ensures sound { is_sound self.new ≡ is_sound self.old }
        ensures fits { OnOk result (at + length piece.now ≤ max (size_of self.old)
            (limit_of self.old)) }
        ensures refuses { Refuses (IsOver (size_of self.old) (limit_of self.old)
            (at + length piece.now)) ⊥ result }
        ensures stops { IsSameBut (kept_of (content self.old) (saved self.old))
            (kept_of (content self.new) (saved self.new)) (may_leave self.old) (may_leave self.new)
            (moment self.old) (moment self.new) (left_since self.old) (left_since self.new)
            (Self.told self.old) (Self.told self.new) }
        ensures told { Self.told self.new ≡ Self.told self.old }
        ensures left { Self.left self.new ≡ Self.left self.old }
        ensures fixed { Self.fixed self.new ≡ Self.fixed self.old }
        ensures cause { IsCausedTrouble result (Self.faults self.old) (Self.faults self.new) };

    /// Cuts the content to a size. After a refusal all is as before.
    fn truncate(&mut self, size: u64) -> Result<(), Trouble>
        requires sound { IsTrue (is_sound self.old) }
        requires depth { 1 ≤ length (saved self.old) }
        requires within { size ≤ size_of self.old }
        ensures cut { OnOk result (content self.new ≡ option_map (take size) (content self.old)) }
        ensures kept { OnErr result (content self.new ≡ content self.old) }
        ensures saved { saved self.new ≡ saved self.old }
        ensures saved_sizes { saved_sizes self.new ≡ saved_sizes self.old }
        ensures size { OnOk result (size_of self.new ≡ size) }
        ensures size_kept { OnErr result (size_of self.new ≡ size_of self.old) }
        ensures limit { limit_of self.new ≡ limit_of self.old }
        ensures sound { is_sound self.new ≡ is_sound self.old }
        ensures refuses { Refuses (λ _ _. ⊥) ⊥ result }
        ensures stops { IsSameBut (kept_of (content self.old) (saved self.old))
            (kept_of (content self.new) (saved self.new)) (may_leave self.old) (may_leave self.new)
            (moment self.old) (moment self.new) (left_since self.old) (left_since self.new)
            (Self.told self.old) (Self.told self.new) }
        ensures told { Self.told self.new ≡ Self.told self.old }
        ensures left { Self.left self.new ≡ Self.left self.old }
        ensures fixed { Self.fixed self.new ≡ Self.fixed self.old }
        ensures cause { IsCausedTrouble result (Self.faults self.old) (Self.faults self.new) };

    /// Saves the content: opens a level. After a refusal all is as before.
    fn begin_update(&mut self) -> Result<(), NoMemory>
        requires sound { IsTrue (is_sound self.old) }
        requires depth { length (saved self.old) < 4294967295 }
        ensures saved { OnOk result (saved self.new ≡ content self.old ∷ saved self.old) }
        ensures saved_kept { OnErr result (saved self.new ≡ saved self.old) }
        ensures saved_sizes { OnOk result (saved_sizes self.new
            ≡ size_of self.old ∷ saved_sizes self.old) }
        ensures saved_sizes_kept { OnErr result (saved_sizes self.new ≡ saved_sizes self.old) }
        ensures content { content self.new ≡ content self.old }
        ensures size { size_of self.new ≡ size_of self.old }
        ensures limit { limit_of self.new ≡ limit_of self.old }
        ensures sound { is_sound self.new ≡ is_sound self.old }
        ensures stops { IsSameBut (kept_of (content self.old) (saved self.old))
            (kept_of (content self.new) (saved self.new)) (may_leave self.old) (may_leave self.new)
            (moment self.old) (moment self.new) (left_since self.old) (left_since self.new)
            (Self.told self.old) (Self.told self.new) }
        ensures told { Self.told self.new ≡ Self.told self.old }
        ensures left { Self.left self.new ≡ Self.left self.old }
        ensures fixed { Self.fixed self.new ≡ Self.fixed self.old }
        ensures faults { Self.faults self.new ≡ Self.faults self.old };

    /// Drops what was saved last: ends a level. The end of the outermost level stores the content: at each moment of it a stop
    /// leaves what was kept or the content, and after `Ok` only the content, which is then kept. The end of an inner level, and
    /// a refusal that leaves the filer sound, change nothing of what a stop leaves.
    ///
    /// After a refusal the levels stand as before. Where a device refused, the filer is not sound.
    fn end_update(&mut self) -> Result<(), Trouble>
        requires sound { IsTrue (is_sound self.old) }
        requires depth { 1 ≤ length (saved self.old) }
        ensures content { OnOk result (content self.new ≡ content self.old) }
        ensures kept { OnErr result (IsTrue (is_sound self.new) → content self.new
            ≡ content self.old) }
        ensures saved { OnOk result (saved self.new ≡ drop 1 (saved self.old)) }
        ensures saved_kept { OnErr result (IsTrue (is_sound self.new) → saved self.new
            ≡ saved self.old) }
        ensures saved_sizes { OnOk result (saved_sizes self.new ≡ drop 1 (saved_sizes self.old)) }
        ensures saved_sizes_kept { OnErr result (saved_sizes self.new ≡ saved_sizes self.old) }
        ensures size { size_of self.new ≡ size_of self.old }
        ensures limit { limit_of self.new ≡ limit_of self.old }
        ensures sound { SoundAfter result (is_sound self.new) }
        ensures inner { 1 < length (saved self.old) → is_sound self.new ≡ true }
        ensures refuses { Refuses (λ _ _. ⊥) ⊥ result }
        ensures stops { Leaves (may_leave self.new) (IsEnded (kept_of (content self.old)
            (saved self.old)) (content self.old)) }
        ensures time { Adds (moment self.old) (moment self.new) (left_since self.old)
            (left_since self.new) (IsEnded (kept_of (content self.old) (saved self.old))
            (content self.old)) (HasShown (Self.told self.old)) }
        ensures inner_stops { 1 < length (saved self.old) → IsSameBut (kept_of (content self.old)
            (saved self.old)) (kept_of (content self.new) (saved self.new)) (may_leave self.old)
            (may_leave self.new) (moment self.old) (moment self.new) (left_since self.old)
            (left_since self.new) (Self.told self.old) (Self.told self.new) }
        ensures unwritten { OnErr result (IsTrue (is_sound self.new) → IsSameBut (kept_of
            (content self.old) (saved self.old)) (kept_of (content self.new) (saved self.new))
            (may_leave self.old) (may_leave self.new) (moment self.old) (moment self.new)
            (left_since self.old) (left_since self.new) (Self.told self.old) (Self.told self.new)) }
        ensures told { Self.told self.new ≡ Self.told self.old }
        ensures left { Self.left self.new ≡ Self.left self.old }
        ensures fixed { Self.fixed self.new ≡ Self.fixed self.old }
        ensures cause { IsCausedTrouble result (Self.faults self.old) (Self.faults self.new) };

    /// Takes the content back from what was saved last. It takes no memory and makes no device call, and a filer that is
    /// not sound can be rolled back too.
    fn rollback(&mut self)
        requires { 1 ≤ length (saved self.old) }
        ensures saved { saved self.old ≡ content self.new ∷ saved self.new }
        ensures saved_sizes { saved_sizes self.old ≡ size_of self.new ∷ saved_sizes self.new }
        ensures limit { limit_of self.new ≡ limit_of self.old }
        ensures sound { is_sound self.new ≡ is_sound self.old }
        ensures stops { IsSameBut (kept_of (content self.old) (saved self.old))
            (kept_of (content self.new) (saved self.new)) (may_leave self.old) (may_leave self.new)
            (moment self.old) (moment self.new) (left_since self.old) (left_since self.new)
            (Self.told self.old) (Self.told self.new) }
        ensures told { Self.told self.new ≡ Self.told self.old }
        ensures left { Self.left self.new ≡ Self.left self.old }
        ensures fixed { Self.fixed self.new ≡ Self.fixed self.old }
        ensures faults { Self.faults self.new ≡ Self.faults self.old };

    ghost sizes: { (x : Self) → (size_of x ≤ 2 ^ 60 + 16) × (limit_of x ≤ 2 ^ 60 + 16) ×
        (length (saved_sizes x) ≡ length (saved x)) };

    ghost told_size: { (x : Self) → IsTrue (is_sound x) → IfSome (content x)
        (λ c. length c ≡ size_of x) };

    ghost same_filer: { (x y : Self) → Self.same x y → IsSameHeld (content x) (content y) (saved x)
        (saved y) (size_of x) (size_of y) (saved_sizes x) (saved_sizes y) (limit_of x) (limit_of y)
        (is_sound x) (is_sound y) };

    ghost sound_stops: { (x : Self) → IsTrue (is_sound x) → LeavesOnly (kept_of (content x) (saved x))
        (may_leave x) };

    ghost counts_now: { (x : Self) (t : ℕ) (s : Option (List ℕ)) → t ≤ moment x → may_leave x s
        → IfSome (Self.told x) (λ u. left_since x t (length u.0) s) };

    ghost only_now: { (x : Self) (n : ℕ) (s : Option (List ℕ)) → left_since x (moment x) n s
        → may_leave x s × HasShown (Self.told x) n };

    ghost same_stops: { (x y : Self) → Self.same x y → IsSameBut (kept_of (content x) (saved x))
        (kept_of (content y) (saved y)) (may_leave x) (may_leave y) (moment x) (moment y)
        (left_since x) (left_since y) (Self.told x) (Self.told y) };
}
