//! A heap in memory.
ghost use Rattle.std.specs.Prelude.{◌≡◌, ◌≤◌, ◌^◌, ◌<◌, ◌+◌, ◌-◌, min, IsTrue, IsSome, OnOk, IfSome, [], ◌∷◌, length, map, replicate, None, Some, true, false, IfOk, OnErr, All, refl};
ghost use Rattle.std.proofs.Common.{◌∙◌, ap, sym};
ghost use Rattle.std.proofs.Props.{props};
ghost use Rattle.std.proofs.lemmas.List.{length-replicate, length-map};
ghost use Rattle.ql_edge.specs.Stops.{IsSameBut};
ghost use Rattle.lldb_base.specs.Contents.{AreContents, content_of, with_content, without, atoms_for};
ghost use Rattle.lldb_base.specs.Heaps.{MayBeDead, IsGrown, most_added, IsFull};
ghost use Rattle.lldb_base.specs.Memory.{Stood, are_risen, mem_counts, mem_only, kept_only, kept_same};
ghost use Rattle.lldb_base.specs.Shown.{count_shown, shown_again, shown_more};
ghost use Rattle.lldb_base.specs.Stops.{kept_of};
ghost use Rattle.lldb_base.specs.Trouble.{IsCausedTrouble, Refuses};

use crate::maps::{Maps, copy_map, put_entry};
use crate::past::{PastMaps, WasMap};
use crate::texts::Texts;
use crate::{Heap, Trouble};
use ql_edge::{Bytes, DeviceFault, NoMemory, Shows};
use std::alloc::Global;
use std::collections::BTreeMap;

/// Contents in memory, and those that were kept before. It answers neither `Failed` nor `Full`, and `Damaged` exactly where a
/// handle is not live.
#[derive(Drop)]
pub struct MemHeap {
    alloc: Global,
    live: BTreeMap<u64, Bytes>,
    saved: Maps,
    /// How many bytes were shown when the contents that are kept came.
    since: u64,
    past: PastMaps,
    ready: bool,
    reads: u64,
    texts: Texts,
    ghost contents: { AreContents live.entries } by { Prim.hlevel props },
    ghost all_contents: { All AreContents saved } by { Prim.hlevel props },
    ghost depth: { length saved ≤ 4294967295 },
    ghost risen: { are_risen ((since, kept_of live.entries saved) ∷ past)
        (count_shown (⟦<Texts as Shows>⟧.told texts)) ≡ true },
}

impl MemHeap {
    /// No handle is live. It takes no memory.
    pub fn new(alloc: Global) -> MemHeap
        ensures contents { ⟦<MemHeap as Heap>⟧.map_of result ≡ Some [] }
        ensures saved { ⟦<MemHeap as Heap>⟧.saved result ≡ [] }
        ensures saved_sizes { ⟦<MemHeap as Heap>⟧.saved_sizes result ≡ [] }
        ensures limit { ⟦<MemHeap as Heap>⟧.limit_of result ≡ None }
        ensures ready { ⟦<MemHeap as Heap>⟧.is_ready result ≡ true }
        ensures sound { ⟦<MemHeap as Heap>⟧.is_sound result ≡ true }
        ensures reads { ⟦<MemHeap as Heap>⟧.reads_of result ≡ 0 }
        ensures told { ⟦<MemHeap as Shows>⟧.told result ≡ Some ([], []) }
        ensures fixed { ⟦<MemHeap as Shows>⟧.fixed result ≡ [] }
    {
        MemHeap {
            alloc,
            live: BTreeMap::new(alloc),
            saved: Maps::new(alloc),
            since: 0,
            past: PastMaps::new(alloc),
            ready: true,
            reads: 0,
            texts: Texts::new(alloc),
        }
    }
}

impl MemHeap {
    /// Keeps the contents in place of those that were saved first, which go into the record.
    fn store(&mut self) -> Result<(), NoMemory>
        requires { length self.old.saved ≡ 1 }
        ensures live { self.new.live ≡ self.old.live }
        ensures ready { self.new.ready ≡ self.old.ready }
        ensures reads { self.new.reads ≡ self.old.reads }
        ensures texts { self.new.texts ≡ self.old.texts }
        ensures saved { OnOk result (self.new.saved ≡ []) }
        ensures saved_kept { OnErr result (self.new.saved ≡ self.old.saved) }
        ensures past { OnOk result (self.new.past ≡ (
          self.old.since,
          kept_of self.old.live.entries
              self.old.saved,
        ) ∷ self.old.past) }
        ensures past_kept { OnErr result (self.new.past ≡ self.old.past) }
        ensures since { OnOk result (self.new.since ≡ count_shown (⟦<Texts as Shows>⟧.told
            self.old.texts)) }
        ensures since_kept { OnErr result (self.new.since ≡ self.old.since) }
    {
        let map = self.saved.copy_only(self.alloc)?;
        let shown = self.since;
        self.past.push(WasMap { shown, map })?;
        self.since = self.texts.shown();
        self.saved = Maps::new(self.alloc);
        Ok(())
    }
}

/// A handle that no content has: the one after the last, and 8 at first.
fn next_handle(live: &BTreeMap<u64, Bytes>) -> Result<u64, NoMemory>
    ensures range { IfOk result (λ handle. (8 ≤ handle) × (handle < 2 ^ 64)) }
    ensures fresh { IfOk result (λ handle. content_of handle live.now.entries ≡ None) }
    ensures first { IfOk result (λ handle. live.now.entries ≡ [] → handle ≡ 8) }
{
    match live.last_key_value() {
        None => Ok(8),
        Some((last, _)) => match last.checked_add(1) {
            Some(next) => Ok(next.max(8)),
            None => Err(NoMemory),
        },
    }
}

impl Shows for MemHeap {
    ghost told = { λ h. ⟦<Texts as Shows>⟧.told h.texts };

    ghost faults = { λ h. ⟦<Texts as Shows>⟧.faults h.texts };

    ghost left = { λ h. ⟦<Texts as Shows>⟧.left h.texts };

    ghost same = { λ x y. (y.live ≡ x.live) × (y.saved ≡ x.saved) × (y.ready ≡ x.ready) ×
        (y.reads ≡ x.reads) × (y.since ≡ x.since) × (y.past ≡ x.past) ×
        ⟦<Texts as Shows>⟧.same x.texts y.texts };

    ghost fixed = { λ _. [] };

    ghost same_reflexive = { λ x. (
      refl,
      refl,
      refl,
      refl,
      refl,
      refl,
      shown_again
          (⟦<Texts as Shows>⟧.told x.texts),
    ) };

    ghost same_transitive = { λ x y z p q. (
      q.0 ∙ p.0,
      q.1 ∙ p.1,
      q.2 ∙ p.2,
      q.3 ∙ p.3,
      q.4 ∙ p.4,
      q.5 ∙ p.5,
      shown_more (⟦<Texts as Shows>⟧.told x.texts) (⟦<Texts as Shows>⟧.told y.texts)
          (⟦<Texts as Shows>⟧.told z.texts) p.6 q.6,
    ) };

    fn show(&mut self, piece: &[u8]) -> Result<u64, DeviceFault> {
        self.texts.show(piece)
    }

    fn warn(&mut self, piece: &[u8]) -> Result<u64, DeviceFault> {
        self.texts.warn(piece)
    }
}

impl Heap for MemHeap {
    ghost map_of = { λ h. Some h.live.entries };

    ghost saved = { λ h. map Some h.saved };

    ghost size_of = { λ _. 0 };

    ghost saved_sizes = { λ h. replicate (length h.saved) 0 };

    ghost limit_of = { λ _. None };

    ghost most_free = { λ _. 0 };

    ghost is_ready = { λ h. h.ready };

    ghost is_sound = { λ _. true };

    ghost reads_of = { λ h. h.reads };

    ghost may_leave = { λ h s. s ≡ Some (kept_of h.live.entries h.saved) };

    ghost moment = { λ h. length h.past + count_shown (⟦<Texts as Shows>⟧.told h.texts) };

    ghost left_since = { λ h t n s. Stood ((h.since, kept_of h.live.entries h.saved) ∷ h.past)
        (count_shown (⟦<Texts as Shows>⟧.told h.texts)) t n s };

    fn ready(&self) -> bool {
        self.ready
    }

    fn depth(&self) -> u32 {
        self.saved.len() as u32
    }

    fn reads(&self) -> u64 {
        self.reads
    }

    fn is_empty(&self) -> bool {
        self.live.is_empty()
    }

    fn create(&mut self, content: &[u8]) -> Result<u64, Trouble> {
        self.ready = false;
        let handle = next_handle(&self.live)?;
        let content = Bytes::from_slice(self.alloc, content)?;
        put_entry(&mut self.live, handle, content)?;
        self.ready = true;
        Ok(handle)
    }

    fn read(&mut self, handle: u64, out: &mut Bytes) -> Result<(), Trouble>
        requires { IsTrue (⟦<MemHeap as Heap>⟧.is_ready self.old) }
        ensures read { OnOk result (IfSome (⟦<MemHeap as Heap>⟧.map_of self.old)
            (λ map. IfSome (content_of handle map) (λ content. out.new ≡ content))) }
        ensures map { ⟦<MemHeap as Heap>⟧.map_of self.new ≡ ⟦<MemHeap as Heap>⟧.map_of self.old }
        ensures ready { ⟦<MemHeap as Heap>⟧.is_ready self.new
            ≡ ⟦<MemHeap as Heap>⟧.is_ready self.old }
        ensures saved { ⟦<MemHeap as Heap>⟧.saved self.new ≡ ⟦<MemHeap as Heap>⟧.saved self.old }
        ensures saved_sizes { ⟦<MemHeap as Heap>⟧.saved_sizes self.new
            ≡ ⟦<MemHeap as Heap>⟧.saved_sizes self.old }
        ensures size { ⟦<MemHeap as Heap>⟧.size_of self.new ≡ ⟦<MemHeap as Heap>⟧.size_of self.old }
        ensures free { ⟦<MemHeap as Heap>⟧.most_free self.new
            ≡ ⟦<MemHeap as Heap>⟧.most_free self.old }
        ensures limit { ⟦<MemHeap as Heap>⟧.limit_of self.new
            ≡ ⟦<MemHeap as Heap>⟧.limit_of self.old }
        ensures sound { ⟦<MemHeap as Heap>⟧.is_sound self.new
            ≡ ⟦<MemHeap as Heap>⟧.is_sound self.old }
        ensures reads { OnOk result (⟦<MemHeap as Heap>⟧.reads_of self.new ≡ min
            (⟦<MemHeap as Heap>⟧.reads_of self.old + 1) (2 ^ 64 - 1)) }
        ensures reads_kept { OnErr result (⟦<MemHeap as Heap>⟧.reads_of self.new
            ≡ ⟦<MemHeap as Heap>⟧.reads_of self.old) }
        ensures refuses { Refuses (λ _ _. ⊥) (MayBeDead handle
            (⟦<MemHeap as Heap>⟧.map_of self.old)) result }
        ensures stops { IsSameBut (kept_of (⟦<MemHeap as Heap>⟧.map_of self.old)
            (⟦<MemHeap as Heap>⟧.saved self.old)) (kept_of (⟦<MemHeap as Heap>⟧.map_of self.new)
            (⟦<MemHeap as Heap>⟧.saved self.new)) (⟦<MemHeap as Heap>⟧.may_leave self.old)
            (⟦<MemHeap as Heap>⟧.may_leave self.new) (⟦<MemHeap as Heap>⟧.moment self.old)
            (⟦<MemHeap as Heap>⟧.moment self.new) (⟦<MemHeap as Heap>⟧.left_since self.old)
            (⟦<MemHeap as Heap>⟧.left_since self.new) (⟦<MemHeap as Shows>⟧.told self.old)
            (⟦<MemHeap as Shows>⟧.told self.new) }
        ensures told { ⟦<MemHeap as Shows>⟧.told self.new ≡ ⟦<MemHeap as Shows>⟧.told self.old }
        ensures left { ⟦<MemHeap as Shows>⟧.left self.new ≡ ⟦<MemHeap as Shows>⟧.left self.old }
        ensures fixed { ⟦<MemHeap as Shows>⟧.fixed self.new ≡ ⟦<MemHeap as Shows>⟧.fixed self.old }
        ensures cause { IsCausedTrouble result (⟦<MemHeap as Shows>⟧.faults self.old)
            (⟦<MemHeap as Shows>⟧.faults self.new) }

        // An answer comes only of a handle that is live.
        ensures live { OnOk result (IfSome (⟦<MemHeap as Heap>⟧.map_of self.old)
            (λ map. IsSome (content_of handle map))) }
    {
        let Some(content) = self.live.get(&handle) else {
            return Err(Trouble::Damaged);
        };
        out.clear();
        out.extend(content.as_slice())?;
        self.reads = self.reads.saturating_add(1);
        Ok(())
    }

    fn replace(&mut self, handle: u64, content: &[u8]) -> Result<(), Trouble>
        requires ready { IsTrue (⟦<MemHeap as Heap>⟧.is_ready self.old) }
        requires depth { 1 ≤ length (⟦<MemHeap as Heap>⟧.saved self.old) }
        requires most { length content.now ≤ 65787 }
        ensures replaced { OnOk result (IfSome (⟦<MemHeap as Heap>⟧.map_of self.old)
            (λ map. IfSome (content_of handle map) (λ _. ⟦<MemHeap as Heap>⟧.map_of self.new ≡ Some
            (with_content handle content.now map)))) }
        ensures ready { OnOk result (⟦<MemHeap as Heap>⟧.is_ready self.new ≡ true) }
        ensures refused { OnErr result (⟦<MemHeap as Heap>⟧.is_ready self.new ≡ false) }
        ensures saved { ⟦<MemHeap as Heap>⟧.saved self.new ≡ ⟦<MemHeap as Heap>⟧.saved self.old }
        ensures saved_sizes { ⟦<MemHeap as Heap>⟧.saved_sizes self.new
            ≡ ⟦<MemHeap as Heap>⟧.saved_sizes self.old }
        ensures grows { ⟦<MemHeap as Heap>⟧.size_of self.new ≤ ⟦<MemHeap as Heap>⟧.size_of self.old
            + most_added (atoms_for (length content.now)) (⟦<MemHeap as Heap>⟧.size_of self.old) }
        ensures limit { ⟦<MemHeap as Heap>⟧.limit_of self.new
            ≡ ⟦<MemHeap as Heap>⟧.limit_of self.old }
        ensures sound { ⟦<MemHeap as Heap>⟧.is_sound self.new
            ≡ ⟦<MemHeap as Heap>⟧.is_sound self.old }
        ensures reads { ⟦<MemHeap as Heap>⟧.reads_of self.new
            ≡ ⟦<MemHeap as Heap>⟧.reads_of self.old }
        ensures refuses { Refuses (λ need most. IsGrown handle (atoms_for (length content.now))
            (⟦<MemHeap as Heap>⟧.map_of self.old) × IsFull (atoms_for (length content.now))
            (⟦<MemHeap as Heap>⟧.most_free self.old) (⟦<MemHeap as Heap>⟧.size_of self.old)
            (⟦<MemHeap as Heap>⟧.size_of self.new) (⟦<MemHeap as Heap>⟧.limit_of self.old) need
            most) (MayBeDead handle (⟦<MemHeap as Heap>⟧.map_of self.old)) result }
        ensures stops { IsSameBut (kept_of (⟦<MemHeap as Heap>⟧.map_of self.old)
            (⟦<MemHeap as Heap>⟧.saved self.old)) (kept_of (⟦<MemHeap as Heap>⟧.map_of self.new)
            (⟦<MemHeap as Heap>⟧.saved self.new)) (⟦<MemHeap as Heap>⟧.may_leave self.old)
            (⟦<MemHeap as Heap>⟧.may_leave self.new) (⟦<MemHeap as Heap>⟧.moment self.old)
            (⟦<MemHeap as Heap>⟧.moment self.new) (⟦<MemHeap as Heap>⟧.left_since self.old)
            (⟦<MemHeap as Heap>⟧.left_since self.new) (⟦<MemHeap as Shows>⟧.told self.old)
            (⟦<MemHeap as Shows>⟧.told self.new) }
        ensures told { ⟦<MemHeap as Shows>⟧.told self.new ≡ ⟦<MemHeap as Shows>⟧.told self.old }
        ensures left { ⟦<MemHeap as Shows>⟧.left self.new ≡ ⟦<MemHeap as Shows>⟧.left self.old }
        ensures fixed { ⟦<MemHeap as Shows>⟧.fixed self.new ≡ ⟦<MemHeap as Shows>⟧.fixed self.old }
        ensures cause { IsCausedTrouble result (⟦<MemHeap as Shows>⟧.faults self.old)
            (⟦<MemHeap as Shows>⟧.faults self.new) }

        // An answer comes only of a handle that is live.
        ensures live { OnOk result (IfSome (⟦<MemHeap as Heap>⟧.map_of self.old)
            (λ map. IsSome (content_of handle map))) }
    {
        self.ready = false;
        if !self.live.contains_key(&handle) {
            return Err(Trouble::Damaged);
        }
        let content = Bytes::from_slice(self.alloc, content)?;
        put_entry(&mut self.live, handle, content)?;
        self.ready = true;
        Ok(())
    }

    fn remove(&mut self, handle: u64) -> Result<(), Trouble>
        requires ready { IsTrue (⟦<MemHeap as Heap>⟧.is_ready self.old) }
        requires depth { 1 ≤ length (⟦<MemHeap as Heap>⟧.saved self.old) }
        ensures removed { OnOk result (IfSome (⟦<MemHeap as Heap>⟧.map_of self.old)
            (λ map. IfSome (content_of handle map) (λ _. ⟦<MemHeap as Heap>⟧.map_of self.new ≡ Some
            (without handle map)))) }
        ensures ready { OnOk result (⟦<MemHeap as Heap>⟧.is_ready self.new ≡ true) }
        ensures refused { OnErr result (⟦<MemHeap as Heap>⟧.is_ready self.new ≡ false) }
        ensures saved { ⟦<MemHeap as Heap>⟧.saved self.new ≡ ⟦<MemHeap as Heap>⟧.saved self.old }
        ensures saved_sizes { ⟦<MemHeap as Heap>⟧.saved_sizes self.new
            ≡ ⟦<MemHeap as Heap>⟧.saved_sizes self.old }
        ensures shrinks { ⟦<MemHeap as Heap>⟧.size_of self.new
            ≤ ⟦<MemHeap as Heap>⟧.size_of self.old }
        ensures limit { ⟦<MemHeap as Heap>⟧.limit_of self.new
            ≡ ⟦<MemHeap as Heap>⟧.limit_of self.old }
        ensures sound { ⟦<MemHeap as Heap>⟧.is_sound self.new
            ≡ ⟦<MemHeap as Heap>⟧.is_sound self.old }
        ensures reads { ⟦<MemHeap as Heap>⟧.reads_of self.new
            ≡ ⟦<MemHeap as Heap>⟧.reads_of self.old }
        ensures refuses { Refuses (λ _ _. ⊥) (MayBeDead handle
            (⟦<MemHeap as Heap>⟧.map_of self.old)) result }
        ensures stops { IsSameBut (kept_of (⟦<MemHeap as Heap>⟧.map_of self.old)
            (⟦<MemHeap as Heap>⟧.saved self.old)) (kept_of (⟦<MemHeap as Heap>⟧.map_of self.new)
            (⟦<MemHeap as Heap>⟧.saved self.new)) (⟦<MemHeap as Heap>⟧.may_leave self.old)
            (⟦<MemHeap as Heap>⟧.may_leave self.new) (⟦<MemHeap as Heap>⟧.moment self.old)
            (⟦<MemHeap as Heap>⟧.moment self.new) (⟦<MemHeap as Heap>⟧.left_since self.old)
            (⟦<MemHeap as Heap>⟧.left_since self.new) (⟦<MemHeap as Shows>⟧.told self.old)
            (⟦<MemHeap as Shows>⟧.told self.new) }
        ensures told { ⟦<MemHeap as Shows>⟧.told self.new ≡ ⟦<MemHeap as Shows>⟧.told self.old }
        ensures left { ⟦<MemHeap as Shows>⟧.left self.new ≡ ⟦<MemHeap as Shows>⟧.left self.old }
        ensures fixed { ⟦<MemHeap as Shows>⟧.fixed self.new ≡ ⟦<MemHeap as Shows>⟧.fixed self.old }
        ensures cause { IsCausedTrouble result (⟦<MemHeap as Shows>⟧.faults self.old)
            (⟦<MemHeap as Shows>⟧.faults self.new) }

        // An answer comes only of a handle that is live.
        ensures live { OnOk result (IfSome (⟦<MemHeap as Heap>⟧.map_of self.old)
            (λ map. IsSome (content_of handle map))) }
    {
        self.ready = false;
        match self.live.remove(&handle) {
            Some(_) => {
                self.ready = true;
                Ok(())
            }
            None => Err(Trouble::Damaged),
        }
    }

    fn begin_update(&mut self) -> Result<(), NoMemory> {
        let copy = copy_map(self.alloc, &self.live)?;
        self.saved.push(copy)?;
        Ok(())
    }

    fn end_update(&mut self) -> Result<(), Trouble> {
        if self.saved.len() == 1 {
            self.store()?;
            return Ok(());
        }
        match self.saved.pop() {
            Some(_) => Ok(()),
            None => Ok(()),
        }
    }

    fn rollback(&mut self) {
        self.ready = true;
        match self.saved.pop() {
            Some(map) => self.live = map,
            None => {}
        }
    }

    ghost contents = { λ h _. h.contents };

    ghost sizes = { λ h. (
      length-replicate (length h.saved) 0 ∙ sym
          (length-map h.saved Some),
      λ _. refl,
    ) };

    ghost same_heap = { λ x y same. record {
      map = ap (λ m. Some m.entries) same.0;
      saved = ap
          (map Some) same.1;
      size = refl;
      sizes = ap (λ s. replicate (length s) 0) same.1;
      limit =
          refl;
      free = refl;
      ready = same.2;
      sound = refl;
      reads = same.3;
    } };

    ghost sound_stops = { λ h _. kept_only h.live.entries h.saved };

    ghost counts_now = { λ h t s early is. mem_counts h.since (kept_of h.live.entries h.saved) h.past
        (⟦<Texts as Shows>⟧.told h.texts) t s h.risen early is };

    ghost only_now = { λ h n s stood. mem_only h.since (kept_of h.live.entries h.saved) h.past
        (⟦<Texts as Shows>⟧.told h.texts) n s h.risen stood };

    ghost same_stops = { λ x y same. kept_same x.since y.since x.live.entries y.live.entries x.saved
        y.saved x.past y.past _ _ same.4 (ap (λ m. m.entries) same.0) same.1 same.5 same.6 };
}
