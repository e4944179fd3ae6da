//! A heap over a filer.
ghost use Rattle.std.specs.Prelude.{◌≡◌, ℕ, ◌^◌, ◌≤◌, ◌⊎◌, not, true, false, IsTrue, List, [], length, map, All, Option, Some, None, IfOk, IfErr, IfSome, refl};
ghost use Rattle.std.proofs.Common.{◌∙◌, ap};
ghost use Rattle.ql_edge.specs.Stops.{IsSameBut};
ghost use Rattle.lldb_base.specs.Contents.{AreContents};
ghost use Rattle.lldb_base.specs.Stops.{Seen, if_more};
ghost use Rattle.lldb_base.specs.Trouble.{IsCausedTrouble, Refuses};
ghost use Rattle.lldb_alloc.specs.Frames.{KeepsLevels, KeepsContent, KeepsStops};
ghost use Rattle.lldb_alloc.specs.Room.{most_free_told};
ghost use Rattle.lldb_alloc.specs.Told.{heap_told};
ghost use Rattle.lldb_alloc.specs.Meant.{meant, IsRefusal, meant_same, meant_only, same_meant, sizes_meant, ready_sound, contents_ready};
ghost use Rattle.std.proofs.Props.{props};

use crate::content::read_content;
use crate::create::create_content;
use crate::remove::remove_content;
use crate::replace::replace_content;
use crate::room::first_from;
use lldb_base::{Filer, Heap, Refused, Trouble};
use ql_edge::{Bytes, DeviceFault, NoMemory, Shows};
use std::alloc::Global;

/// Contents by handle in blocks of a filer's content.
#[derive(Drop)]
pub struct Allocator<F: Filer> {
    filer: F,
    /// Whether a change was refused, and its level is not rolled back yet.
    refused: bool,
    reads: u64,
    ghost size: { F.size_of filer ≤ 2 ^ 60 },
    ghost limit: { F.limit_of filer ≤ 2 ^ 60 },
    ghost sizes: { All (λ size. size ≤ 2 ^ 60) (F.saved_sizes filer) },
    ghost sound: { refused ≡ false → F.is_sound filer ≡ true },
    ghost contents: { refused ≡ false → IfSome (meant (F.is_sound filer) (F.content filer))
        AreContents } by { Prim.hlevel props },
}

/// Reads of a content that is not empty the table of free lists up to the first one that has a block.
fn read_table<F: Filer>(filer: &mut F) -> Result<(), Trouble>
    requires sound { IsTrue (F.is_sound filer.old) }
    requires most { F.size_of filer.old ≤ 2 ^ 60 }
    ensures content { KeepsContent F.content F.size_of filer.old filer.new }
    ensures refuses { Refuses (λ _ _. ⊥) (heap_told (F.content filer.old) ≡ None) result }
    ensures frame { KeepsLevels F.saved F.saved_sizes F.limit_of F.is_sound F.told F.left F.fixed
        filer.old filer.new }
    ensures stops { KeepsStops F.content F.saved F.may_leave F.moment F.left_since F.told filer.old
        filer.new }
    ensures cause { IsCausedTrouble result (F.faults filer.old) (F.faults filer.new) }
{
    let size = filer.size();
    if size == 0 {
        return Ok(());
    }
    if size < 128 {
        return Err(Trouble::Damaged);
    }
    let whole = size / 16 * 16;
    if whole != size {
        return Err(Trouble::Damaged);
    }
    first_from(filer, 0)?;
    Ok(())
}

impl<F: Filer> Allocator<F> {
    /// Reads the table of free lists. `cache` is how many contents may be kept in memory, which none is yet.
    ///
    /// The filer's content is left as it is, whatever the answer.
    pub fn open_on(
        _alloc: Global,
        filer: F,
        cache: u32,
    ) -> Result<Allocator<F>, Refused<F, Trouble>>
        requires sound { IsTrue (F.is_sound filer) }
        requires depth { F.saved filer ≡ [] }
        requires size { F.size_of filer ≤ 2 ^ 60 }
        requires limit { F.limit_of filer ≤ 2 ^ 60 }
        requires cache { (1 ≤ cache) × (cache ≤ 65536) }
        ensures map { IfOk result (λ a. ⟦<Allocator<F> as Heap>⟧.map_of a ≡ heap_told (F.content filer)) }
        ensures saved { IfOk result (λ a. ⟦<Allocator<F> as Heap>⟧.saved a ≡ []) }
        ensures size { IfOk result (λ a. ⟦<Allocator<F> as Heap>⟧.size_of a ≡ F.size_of filer) }
        ensures limit { IfOk result (λ a. ⟦<Allocator<F> as Heap>⟧.limit_of a ≡ Some (F.limit_of filer)) }
        ensures free { IfOk result (λ a. ⟦<Allocator<F> as Heap>⟧.most_free a ≡ most_free_told (F.content filer)) }
        ensures ready { IfOk result (λ a. ⟦<Allocator<F> as Heap>⟧.is_ready a ≡ true) }
        ensures sound { IfOk result (λ a. ⟦<Allocator<F> as Heap>⟧.is_sound a ≡ true) }
        ensures reads { IfOk result (λ a. ⟦<Allocator<F> as Heap>⟧.reads_of a ≡ 0) }
        ensures stops { IfOk result (λ a. IsSameBut (heap_told (F.content filer)) (⟦<Allocator<F> as Heap>⟧.map_of a)
            (Seen heap_told (F.may_leave filer)) (⟦<Allocator<F> as Heap>⟧.may_leave a) (F.moment filer) (⟦<Allocator<F> as Heap>⟧.moment a)
            (λ t n. Seen heap_told (F.left_since filer t n)) (⟦<Allocator<F> as Heap>⟧.left_since a) (F.told filer)
            (⟦<Allocator<F> as Shows>⟧.told a)) }
        ensures told { IfOk result (λ a. ⟦<Allocator<F> as Shows>⟧.told a ≡ F.told filer) }
        ensures left { IfOk result (λ a. ⟦<Allocator<F> as Shows>⟧.left a ≡ F.left filer) }
        ensures fixed { IfOk result (λ a. ⟦<Allocator<F> as Shows>⟧.fixed a ≡ F.fixed filer) }
        ensures faults { IfOk result (λ a. ⟦<Allocator<F> as Shows>⟧.faults a ≡ F.faults filer) }
        ensures refused { IfErr result (λ r. KeepsContent F.content F.size_of filer r.below) }
        ensures refused_frame { IfErr result (λ r. KeepsLevels F.saved F.saved_sizes F.limit_of
            F.is_sound F.told F.left F.fixed filer r.below) }
        ensures refused_stops { IfErr result (λ r. KeepsStops F.content F.saved F.may_leave F.moment
            F.left_since F.told filer r.below) }
        ensures refuses { IfErr result (λ r. IsRefusal (heap_told (F.content filer) ≡ None)
            (F.faults filer) (F.faults r.below) r.fault) }
    {
        let mut filer = filer;
        match read_table(&mut filer) {
            Ok(()) => Ok(Allocator {
                filer,
                refused: false,
                reads: 0,
            }),
            Err(fault) => Err(Refused {
                below: filer,
                fault,
            }),
        }
    }

    /// The filer below.
    #[tactic(auto, using(crate::proofs::Held::none_saved))]
    pub fn into_below(self) -> F
        requires { (⟦<Allocator<F> as Heap>⟧.saved self ≡ []) ⊎ (⟦<Allocator<F> as Heap>⟧.is_sound self ≡ false) }
        ensures map { ⟦<Allocator<F> as Heap>⟧.map_of self ≡ meant (F.is_sound result) (F.content result) }
        ensures saved { ⟦<Allocator<F> as Heap>⟧.saved self ≡ [] → F.saved result ≡ [] }
        ensures size { F.size_of result ≡ ⟦<Allocator<F> as Heap>⟧.size_of self }
        ensures limit { ⟦<Allocator<F> as Heap>⟧.limit_of self ≡ Some (F.limit_of result) }
        ensures sound { F.is_sound result ≡ ⟦<Allocator<F> as Heap>⟧.is_sound self }
        ensures moment { F.moment result ≡ ⟦<Allocator<F> as Heap>⟧.moment self }
        ensures stops { (s : Option (List ℕ)) → F.may_leave result s → ⟦<Allocator<F> as Heap>⟧.may_leave self
            (heap_told s) }
        ensures since { (t n : ℕ) (s : Option (List ℕ)) → F.left_since result t n s
            → ⟦<Allocator<F> as Heap>⟧.left_since self t n (heap_told s) }
        ensures told { F.told result ≡ ⟦<Allocator<F> as Shows>⟧.told self }
        ensures left { F.left result ≡ ⟦<Allocator<F> as Shows>⟧.left self }
        ensures fixed { F.fixed result ≡ ⟦<Allocator<F> as Shows>⟧.fixed self }
        ensures faults { F.faults result ≡ ⟦<Allocator<F> as Shows>⟧.faults self }
    {
        self.filer
    }
}

impl<F: Filer> Shows for Allocator<F> {
    ghost told = { λ a. F.told a.filer };

    ghost faults = { λ a. F.faults a.filer };

    ghost left = { λ a. F.left a.filer };

    ghost same = { λ x y. F.same x.filer y.filer × (y.refused ≡ x.refused) × (y.reads ≡ x.reads) };

    ghost fixed = { λ a. F.fixed a.filer };

    ghost same_reflexive = { λ x. (F.same_reflexive x.filer, refl, refl) };

    ghost same_transitive = { λ x y z p q. (
      F.same_transitive x.filer y.filer z.filer p.0 q.0,
      q.1 ∙ p.1,
      q.2 ∙ p.2,
    ) };

    fn show(&mut self, piece: &[u8]) -> Result<u64, DeviceFault> {
        self.filer.show(piece)
    }

    fn warn(&mut self, piece: &[u8]) -> Result<u64, DeviceFault> {
        self.filer.warn(piece)
    }
}

impl<F: Filer> Heap for Allocator<F> {
    ghost map_of = { λ a. meant (F.is_sound a.filer) (F.content a.filer) };

    ghost saved = { λ a. map (meant (F.is_sound a.filer)) (F.saved a.filer) };

    ghost size_of = { λ a. F.size_of a.filer };

    ghost saved_sizes = { λ a. F.saved_sizes a.filer };

    ghost limit_of = { λ a. Some (F.limit_of a.filer) };

    ghost most_free = { λ a. most_free_told (F.content a.filer) };

    ghost is_ready = { λ a. not a.refused };

    ghost is_sound = { λ a. F.is_sound a.filer };

    ghost reads_of = { λ a. a.reads };

    ghost may_leave = { λ a s. Seen heap_told (F.may_leave a.filer) s };

    ghost moment = { λ a. F.moment a.filer };

    ghost left_since = { λ a t n s. Seen heap_told (F.left_since a.filer t n) s };

    fn ready(&self) -> bool {
        !self.refused
    }

    fn depth(&self) -> u32 {
        self.filer.depth()
    }

    fn reads(&self) -> u64 {
        self.reads
    }

    fn is_empty(&self) -> bool {
        self.filer.size() <= 128
    }

    fn create(&mut self, content: &[u8]) -> Result<u64, Trouble> {
        self.refused = true;
        let handle = create_content(&mut self.filer, content)?;
        self.refused = false;
        Ok(handle)
    }

    fn read(&mut self, handle: u64, out: &mut Bytes) -> Result<(), Trouble> {
        read_content(&mut self.filer, handle, out)?;
        self.reads = self.reads.saturating_add(1);
        Ok(())
    }

    fn replace(&mut self, handle: u64, content: &[u8]) -> Result<(), Trouble> {
        self.refused = true;
        replace_content(&mut self.filer, handle, content)?;
        self.refused = false;
        Ok(())
    }

    fn remove(&mut self, handle: u64) -> Result<(), Trouble> {
        self.refused = true;
        remove_content(&mut self.filer, handle)?;
        self.refused = false;
        Ok(())
    }

    fn begin_update(&mut self) -> Result<(), NoMemory> {
        self.filer.begin_update()
    }

    fn end_update(&mut self) -> Result<(), Trouble> {
        let result = self.filer.end_update();
        self.refused = !self.filer.sound();
        result
    }

    fn rollback(&mut self) {
        self.filer.rollback();
        self.refused = !self.filer.sound();
    }

    ghost contents = { λ a. contents_ready a.refused (meant (F.is_sound a.filer)
        (F.content a.filer)) a.contents };

    ghost sizes = { λ a. (
      sizes_meant (F.is_sound a.filer) (F.saved_sizes a.filer) (F.saved a.filer)
          (F.sizes a.filer).2,
      ready_sound a.refused (F.is_sound a.filer) a.sound,
    ) };

    ghost same_heap = { λ x y same. same_meant (ap not same.1) same.2
        (F.same_filer x.filer y.filer same.0) };

    ghost sound_stops = { λ a sound. meant_only (F.is_sound a.filer) (F.content a.filer)
        (F.saved a.filer) (F.may_leave a.filer) (F.sound_stops a.filer sound) };

    ghost counts_now = { λ a t s early b. if_more (F.told a.filer)
        (λ u. F.left_since a.filer t (length u.0) b.0)
        (λ u. Seen heap_told (F.left_since a.filer t (length u.0)) s)
        (F.counts_now a.filer t b.0 early b.1) (λ u left. (b.0, left, b.2)) };

    ghost only_now = { λ a n s b. let now = F.only_now a.filer n b.0 b.1 in
        ((b.0, now.0, b.2), now.1) };

    ghost same_stops = { λ x y same. meant_same (F.is_sound x.filer) (F.is_sound y.filer)
        (F.same_filer x.filer y.filer same.0).sound (F.content x.filer) (F.content y.filer)
        (F.saved x.filer) (F.saved y.filer) (F.same_stops x.filer y.filer same.0) };
}
