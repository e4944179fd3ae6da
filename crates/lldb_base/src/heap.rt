//! Contents by handle, with nested levels, each of which can be taken back.
ghost use Rattle.std.specs.Prelude.{◌≡◌, ℕ, ◌^◌, ◌<◌, ◌≤◌, ◌↔◌, min, ◌+◌, ◌-◌, Bool, true, false, IsTrue, List, [], ◌∷◌, length, drop, Option, Some, None, IfOk, OnOk, OnErr, IfSome};
ghost use Rattle.ql_edge.specs.Stops.{Leaves, HasShown, Adds, IsSameBut};
ghost use Rattle.lldb_base.specs.Contents.{Contents, content_of, with_content, without, atoms_for, AreContents};
ghost use Rattle.lldb_base.specs.Heaps.{MayBeDead, IsGrown, most_added, IsFull, IsSameHeap};
ghost use Rattle.lldb_base.specs.Stops.{LeavesOnly, IsEnded, kept_of};
ghost use Rattle.lldb_base.specs.Trouble.{IsCausedTrouble, Refuses, SoundAfter};

use crate::Trouble;
use ql_edge::{Bytes, NoMemory, Shows};

/// A finite map from handles to contents, and a stack of the maps that were saved.
///
/// After a refused change the heap is not ready until the level is rolled back. What is kept are the contents that were stored
/// last: those that are held where no level is open, else those that were saved first.
pub trait Heap: Shows {
    /// The contents, where they are told.
    ghost map_of: { Self → Option Contents };

    /// What was saved, the last first. Its length is the depth.
    ghost saved: { Self → List (Option Contents) };

    /// The size of the bytes under the contents, 0 where there are none.
    ghost size_of: { Self → ℕ };

    /// That size in each saved state.
    ghost saved_sizes: { Self → List ℕ };

    /// How large it may become, where there are bytes under the contents.
    ghost limit_of: { Self → Option ℕ };

    /// The most atoms of a free block, 0 where there is none.
    ghost most_free: { Self → ℕ };

    ghost is_ready: { Self → Bool };

    /// Whether a rollback makes the heap ready again.
    ghost is_sound: { Self → Bool };

    ghost reads_of: { Self → ℕ };

    /// What a stop may leave now: contents, or none where what lies below holds none.
    ghost may_leave: { Self → Option Contents → Type 0 };

    /// The moment, as a number that does not fall.
    ghost moment: { Self → ℕ };

    /// What a stop at some moment since `t`, with `n` bytes shown, may have left.
    ghost left_since: { Self → ℕ → ℕ → Option Contents → Type 0 };

    /// Whether the heap can be used. It ends with a refused change, until that level is rolled back.
    fn ready(&self) -> bool
        ensures { result ≡ is_ready self.now };

    /// How many levels are open.
    fn depth(&self) -> u32
        ensures { result ≡ length (saved self.now) };

    /// How many reads gave a content so far.
    fn reads(&self) -> u64
        ensures { result ≡ reads_of self.now };

    /// Whether no handle is live.
    fn is_empty(&self) -> bool
        ensures { IfSome (map_of self.now) (λ map. IsTrue result ↔ (map ≡ [])) };

    /// Adds a content, and answers a handle that was not live: 8 where none is.
    fn create(&mut self, content: &[u8]) -> Result<u64, Trouble>
        requires ready { IsTrue (is_ready self.old) }
        requires depth { 1 ≤ length (saved self.old) }
        requires most { length content.now ≤ 65787 }
        ensures range { IfOk result (λ handle. (8 ≤ handle) × (handle < 2 ^ 64)) }
        ensures fresh { IfOk result (λ handle. IfSome (map_of self.old)
            (λ map. content_of handle map ≡ None)) }
        ensures first { IfOk result (λ handle. map_of self.old ≡ Some [] → handle ≡ 8) }
        ensures created { IfOk result (λ handle. IfSome (map_of self.old)
            (λ map. map_of self.new ≡ Some (with_content handle content.now map))) }
        ensures ready { OnOk result (is_ready self.new ≡ true) }
        ensures refused { OnErr result (is_ready self.new ≡ false) }
        ensures saved { saved self.new ≡ saved self.old }
        ensures saved_sizes { saved_sizes self.new ≡ saved_sizes self.old }
        ensures grows { size_of self.new ≤ size_of self.old
            + most_added (atoms_for (length content.now)) (size_of self.old) }
        ensures limit { limit_of self.new ≡ limit_of self.old }
        ensures sound { is_sound self.new ≡ is_sound self.old }
        ensures reads { reads_of self.new ≡ reads_of self.old }
        ensures refuses { Refuses (IsFull (atoms_for (length content.now)) (most_free self.old)
            (size_of self.old) (size_of self.new) (limit_of self.old))
            (map_of self.old ≡ None) result }
        ensures stops { IsSameBut (kept_of (map_of self.old) (saved self.old))
            (kept_of (map_of self.new) (saved self.new)) (may_leave self.old) (may_leave self.new)
            (moment self.old) (moment self.new) (left_since self.old) (left_since self.new)
            (Self.told self.old) (Self.told self.new) }
        ensures told { Self.told self.new ≡ Self.told self.old }
        ensures left { Self.left self.new ≡ Self.left self.old }
        ensures fixed { Self.fixed self.new ≡ Self.fixed self.old }
        ensures cause { IsCausedTrouble result (Self.faults self.old) (Self.faults self.new) };

    /// Makes `out` the content of a handle.
    fn read(&mut self, handle: u64, out: &mut Bytes) -> Result<(), Trouble>
        requires { IsTrue (is_ready self.old) }
        ensures read { OnOk result (IfSome (map_of self.old)
            (λ map. IfSome (content_of handle map) (λ content. out.new ≡ content))) }
        ensures map { map_of self.new ≡ map_of self.old }
        ensures ready { is_ready self.new ≡ is_ready self.old }
        ensures saved { saved self.new ≡ saved self.old }
        ensures saved_sizes { saved_sizes self.new ≡ saved_sizes self.old }
        ensures size { size_of self.new ≡ size_of self.old }
        ensures free { most_free self.new ≡ most_free self.old }
        ensures limit { limit_of self.new ≡ limit_of self.old }
        ensures sound { is_sound self.new ≡ is_sound self.old }
        ensures reads { OnOk result (reads_of self.new ≡ min (reads_of self.old + 1) (2 ^ 64 - 1)) }
        ensures reads_kept { OnErr result (reads_of self.new ≡ reads_of self.old) }
        ensures refuses { Refuses (λ _ _. ⊥) (MayBeDead handle (map_of self.old)) result }
        ensures stops { IsSameBut (kept_of (map_of self.old) (saved self.old))
            (kept_of (map_of self.new) (saved self.new)) (may_leave self.old) (may_leave self.new)
            (moment self.old) (moment self.new) (left_since self.old) (left_since self.new)
            (Self.told self.old) (Self.told self.new) }
        ensures told { Self.told self.new ≡ Self.told self.old }
        ensures left { Self.left self.new ≡ Self.left self.old }
        ensures fixed { Self.fixed self.new ≡ Self.fixed self.old }
        ensures cause { IsCausedTrouble result (Self.faults self.old) (Self.faults self.new) };

    /// Gives a handle another content.
    fn replace(&mut self, handle: u64, content: &[u8]) -> Result<(), Trouble>
        requires ready { IsTrue (is_ready self.old) }
        requires depth { 1 ≤ length (saved self.old) }
        requires most { length content.now ≤ 65787 }
        ensures replaced { OnOk result (IfSome (map_of self.old)
            (λ map. IfSome (content_of handle map) (λ _. map_of self.new ≡ Some
            (with_content handle content.now map)))) }
        ensures ready { OnOk result (is_ready self.new ≡ true) }
        ensures refused { OnErr result (is_ready self.new ≡ false) }
        ensures saved { saved self.new ≡ saved self.old }
        ensures saved_sizes { saved_sizes self.new ≡ saved_sizes self.old }
        ensures grows { size_of self.new ≤ size_of self.old
            + most_added (atoms_for (length content.now)) (size_of self.old) }
        ensures limit { limit_of self.new ≡ limit_of self.old }
        ensures sound { is_sound self.new ≡ is_sound self.old }
        ensures reads { reads_of self.new ≡ reads_of self.old }
        ensures refuses { Refuses (λ need most. IsGrown handle (atoms_for (length content.now))
            (map_of self.old) × IsFull (atoms_for (length content.now)) (most_free self.old)
            (size_of self.old) (size_of self.new) (limit_of self.old) need most)
            (MayBeDead handle (map_of self.old)) result }
        ensures stops { IsSameBut (kept_of (map_of self.old) (saved self.old))
            (kept_of (map_of self.new) (saved self.new)) (may_leave self.old) (may_leave self.new)
            (moment self.old) (moment self.new) (left_since self.old) (left_since self.new)
            (Self.told self.old) (Self.told self.new) }
        ensures told { Self.told self.new ≡ Self.told self.old }
        ensures left { Self.left self.new ≡ Self.left self.old }
        ensures fixed { Self.fixed self.new ≡ Self.fixed self.old }
        ensures cause { IsCausedTrouble result (Self.faults self.old) (Self.faults self.new) };

    /// Removes a handle with its content.
    fn remove(&mut self, handle: u64) -> Result<(), Trouble>
        requires ready { IsTrue (is_ready self.old) }
        requires depth { 1 ≤ length (saved self.old) }
        ensures removed { OnOk result (IfSome (map_of self.old)
            (λ map. IfSome (content_of handle map) (λ _. map_of self.new ≡ Some
            (without handle map)))) }
        ensures ready { OnOk result (is_ready self.new ≡ true) }
        ensures refused { OnErr result (is_ready self.new ≡ false) }
        ensures saved { saved self.new ≡ saved self.old }
        ensures saved_sizes { saved_sizes self.new ≡ saved_sizes self.old }
        ensures shrinks { size_of self.new ≤ size_of self.old }
        ensures limit { limit_of self.new ≡ limit_of self.old }
        ensures sound { is_sound self.new ≡ is_sound self.old }
        ensures reads { reads_of self.new ≡ reads_of self.old }
        ensures refuses { Refuses (λ _ _. ⊥) (MayBeDead handle (map_of self.old)) result }
        ensures stops { IsSameBut (kept_of (map_of self.old) (saved self.old))
            (kept_of (map_of self.new) (saved self.new)) (may_leave self.old) (may_leave self.new)
            (moment self.old) (moment self.new) (left_since self.old) (left_since self.new)
            (Self.told self.old) (Self.told self.new) }
        ensures told { Self.told self.new ≡ Self.told self.old }
        ensures left { Self.left self.new ≡ Self.left self.old }
        ensures fixed { Self.fixed self.new ≡ Self.fixed self.old }
        ensures cause { IsCausedTrouble result (Self.faults self.old) (Self.faults self.new) };

    /// Saves the contents: opens a level. After a refusal all is as before.
    fn begin_update(&mut self) -> Result<(), NoMemory>
        requires ready { IsTrue (is_ready self.old) }
        requires depth { length (saved self.old) < 4294967295 }
        ensures saved { OnOk result (saved self.new ≡ map_of self.old ∷ saved self.old) }
        ensures saved_kept { OnErr result (saved self.new ≡ saved self.old) }
        ensures saved_sizes { OnOk result (saved_sizes self.new
            ≡ size_of self.old ∷ saved_sizes self.old) }
        ensures saved_sizes_kept { OnErr result (saved_sizes self.new ≡ saved_sizes self.old) }
        ensures map { map_of self.new ≡ map_of self.old }
        ensures ready { is_ready self.new ≡ is_ready self.old }
        ensures size { size_of self.new ≡ size_of self.old }
        ensures free { most_free self.new ≡ most_free self.old }
        ensures limit { limit_of self.new ≡ limit_of self.old }
        ensures sound { is_sound self.new ≡ is_sound self.old }
        ensures reads { reads_of self.new ≡ reads_of self.old }
        ensures stops { IsSameBut (kept_of (map_of self.old) (saved self.old))
            (kept_of (map_of self.new) (saved self.new)) (may_leave self.old) (may_leave self.new)
            (moment self.old) (moment self.new) (left_since self.old) (left_since self.new)
            (Self.told self.old) (Self.told self.new) }
        ensures told { Self.told self.new ≡ Self.told self.old }
        ensures left { Self.left self.new ≡ Self.left self.old }
        ensures fixed { Self.fixed self.new ≡ Self.fixed self.old }
        ensures faults { Self.faults self.new ≡ Self.faults self.old };

    /// Drops what was saved last: ends a level. The end of the outermost level stores the contents: at each moment of it a stop
    /// leaves what was kept or what is held, and after `Ok` only what is held, which is then kept. The end of an inner level, and
    /// a refusal that leaves the heap sound, change nothing of what a stop leaves.
    ///
    /// After a refusal the levels stand as before. Where a device refused, the heap is not ready, and no rollback helps.
    fn end_update(&mut self) -> Result<(), Trouble>
        requires ready { IsTrue (is_ready self.old) }
        requires depth { 1 ≤ length (saved self.old) }
        ensures map { OnOk result (map_of self.new ≡ map_of self.old) }
        ensures kept { OnErr result (IsTrue (is_sound self.new) → map_of self.new ≡ map_of self.old) }
        ensures saved { OnOk result (saved self.new ≡ drop 1 (saved self.old)) }
        ensures saved_kept { OnErr result (IsTrue (is_sound self.new) → saved self.new
            ≡ saved self.old) }
        ensures saved_sizes { OnOk result (saved_sizes self.new ≡ drop 1 (saved_sizes self.old)) }
        ensures saved_sizes_kept { OnErr result (saved_sizes self.new ≡ saved_sizes self.old) }
        ensures ready { is_ready self.new ≡ is_sound self.new }
        ensures sound { SoundAfter result (is_sound self.new) }
        ensures inner { 1 < length (saved self.old) → is_sound self.new ≡ true }
        ensures size { size_of self.new ≡ size_of self.old }
        ensures limit { limit_of self.new ≡ limit_of self.old }
        ensures reads { reads_of self.new ≡ reads_of self.old }
        ensures refuses { Refuses (λ _ _. ⊥) ⊥ result }
        ensures stops { Leaves (may_leave self.new) (IsEnded (kept_of (map_of self.old)
            (saved self.old)) (map_of self.old)) }
        ensures time { Adds (moment self.old) (moment self.new) (left_since self.old)
            (left_since self.new) (IsEnded (kept_of (map_of self.old) (saved self.old))
            (map_of self.old)) (HasShown (Self.told self.old)) }
        ensures inner_stops { 1 < length (saved self.old) → IsSameBut (kept_of (map_of self.old)
            (saved self.old)) (kept_of (map_of self.new) (saved self.new)) (may_leave self.old)
            (may_leave self.new) (moment self.old) (moment self.new) (left_since self.old)
            (left_since self.new) (Self.told self.old) (Self.told self.new) }
        ensures unwritten { OnErr result (IsTrue (is_sound self.new) → IsSameBut (kept_of
            (map_of self.old) (saved self.old)) (kept_of (map_of self.new) (saved self.new))
            (may_leave self.old) (may_leave self.new) (moment self.old) (moment self.new)
            (left_since self.old) (left_since self.new) (Self.told self.old) (Self.told self.new)) }
        ensures told { Self.told self.new ≡ Self.told self.old }
        ensures left { Self.left self.new ≡ Self.left self.old }
        ensures fixed { Self.fixed self.new ≡ Self.fixed self.old }
        ensures cause { IsCausedTrouble result (Self.faults self.old) (Self.faults self.new) };

    /// Takes the contents back from what was saved last. It takes no memory and makes no device call, and a heap that is
    /// not ready can be rolled back too.
    fn rollback(&mut self)
        requires { 1 ≤ length (saved self.old) }
        ensures saved { saved self.old ≡ map_of self.new ∷ saved self.new }
        ensures saved_sizes { saved_sizes self.old ≡ size_of self.new ∷ saved_sizes self.new }
        ensures ready { is_ready self.new ≡ is_sound self.old }
        ensures limit { limit_of self.new ≡ limit_of self.old }
        ensures sound { is_sound self.new ≡ is_sound self.old }
        ensures reads { reads_of self.new ≡ reads_of self.old }
        ensures stops { IsSameBut (kept_of (map_of self.old) (saved self.old))
            (kept_of (map_of self.new) (saved self.new)) (may_leave self.old) (may_leave self.new)
            (moment self.old) (moment self.new) (left_since self.old) (left_since self.new)
            (Self.told self.old) (Self.told self.new) }
        ensures told { Self.told self.new ≡ Self.told self.old }
        ensures left { Self.left self.new ≡ Self.left self.old }
        ensures fixed { Self.fixed self.new ≡ Self.fixed self.old }
        ensures faults { Self.faults self.new ≡ Self.faults self.old };

    ghost contents: { (x : Self) → IsTrue (is_ready x) → IfSome (map_of x) AreContents };

    ghost sizes: { (x : Self) → (length (saved_sizes x) ≡ length (saved x)) ×
        (IsTrue (is_ready x) → IsTrue (is_sound x)) };

    ghost same_heap: { (x y : Self) → Self.same x y → IsSameHeap (map_of x) (map_of y) (saved x)
        (saved y) (size_of x) (size_of y) (saved_sizes x) (saved_sizes y) (limit_of x) (limit_of y)
        (most_free x) (most_free y) (is_ready x) (is_ready y) (is_sound x) (is_sound y) (reads_of x)
        (reads_of y) };

    ghost sound_stops: { (x : Self) → IsTrue (is_sound x) → LeavesOnly (kept_of (map_of x) (saved x))
        (may_leave x) };

    ghost counts_now: { (x : Self) (t : ℕ) (s : Option Contents) → t ≤ moment x → may_leave x s
        → IfSome (Self.told x) (λ u. left_since x t (length u.0) s) };

    ghost only_now: { (x : Self) (n : ℕ) (s : Option Contents) → left_since x (moment x) n s
        → may_leave x s × HasShown (Self.told x) n };

    ghost same_stops: { (x y : Self) → Self.same x y → IsSameBut (kept_of (map_of x) (saved x))
        (kept_of (map_of y) (saved y)) (may_leave x) (may_leave y) (moment x) (moment y)
        (left_since x) (left_since y) (Self.told x) (Self.told y) };
}
