//! A filer whose levels are whole copies.
ghost use Rattle.std.specs.Prelude.{◌≡◌, ℕ, ◌⊎◌, ◌+◌, ◌^◌, ◌<◌, ◌≤◌, [], length, true, false, IsTrue, OnOk, OnErr, option_map, IfOk, IfSome, refl};
ghost use Rattle.std.proofs.Common.{◌∙◌, ap};
ghost use Rattle.lldb_base.specs.Batch.{applied, CanTake};
ghost use Rattle.lldb_base.specs.Trouble.{IsCausedTrouble, Refuses, SoundAfter};
ghost use Rattle.ql_edge.specs.Stops.{Leaves, HasShown, Adds, IsSameBut};
ghost use Rattle.lldb_base.specs.Stops.{IsEnded};
ghost use Rattle.lldb_rollback.specs.Levels.{AreCopied, held, size_held, stacked, sizes_stacked, sizes_held, told_held, same_held, only_below, same_below};

use crate::changes::changes;
use crate::stack::Stack;
use lldb_base::{BaseFiler, Batch, Filer, Trouble, put_piece};
use ql_edge::{Bytes, DeviceFault, NoMemory, Shows};
use std::alloc::Global;

/// Nested levels over a base filer, as whole copies.
///
/// The first change of an outermost level reads the content from below. From then on the content is in memory, until that
/// level ends or is rolled back.
#[derive(Drop)]
pub struct RollbackFiler<F: BaseFiler> {
    alloc: Global,
    below: F,
    /// How many levels began before the first change.
    early: u32,
    /// Whether the content was changed since the outermost level began.
    changed: bool,
    /// The content of the filer below, once it was changed.
    base: Vec<u8>,
    /// The content, once it was changed.
    present: Vec<u8>,
    /// The contents saved since the first change.
    copies: Stack,
    ghost copied: { AreCopied (F.is_sound below) (F.content below) (F.size_of below)
        (F.limit_of below) early changed base.items present.items copies },
    ghost floor: { F.floor ≡ 0 },
}

impl<F: BaseFiler> RollbackFiler<F> {
    /// No level is open. It takes no memory.
    pub fn new(alloc: Global, below: F) -> RollbackFiler<F>
        requires sound { IsTrue (F.is_sound below) }
        requires floor { F.floor ≡ 0 }
        ensures content { ⟦<RollbackFiler<F> as Filer>⟧.content result ≡ F.content below }
        ensures saved { ⟦<RollbackFiler<F> as Filer>⟧.saved result ≡ [] }
        ensures saved_sizes { ⟦<RollbackFiler<F> as Filer>⟧.saved_sizes result ≡ [] }
        ensures size { ⟦<RollbackFiler<F> as Filer>⟧.size_of result ≡ F.size_of below }
        ensures limit { ⟦<RollbackFiler<F> as Filer>⟧.limit_of result ≡ F.limit_of below }
        ensures sound { ⟦<RollbackFiler<F> as Filer>⟧.is_sound result ≡ true }
        ensures moment { ⟦<RollbackFiler<F> as Filer>⟧.moment result ≡ F.moment below }
        ensures stops { Leaves (⟦<RollbackFiler<F> as Filer>⟧.may_leave result) (F.may_leave below) }
        ensures since { (t n : ℕ) → Leaves (⟦<RollbackFiler<F> as Filer>⟧.left_since result t n)
            (F.left_since below t n) }
        ensures told { ⟦<RollbackFiler<F> as Shows>⟧.told result ≡ F.told below }
        ensures left { ⟦<RollbackFiler<F> as Shows>⟧.left result ≡ F.left below }
        ensures faults { ⟦<RollbackFiler<F> as Shows>⟧.faults result ≡ F.faults below }
        ensures fixed { ⟦<RollbackFiler<F> as Shows>⟧.fixed result ≡ F.fixed below }
    {
        RollbackFiler {
            alloc,
            below,
            early: 0,
            changed: false,
            base: Vec::new(alloc),
            present: Vec::new(alloc),
            copies: Stack::new(alloc),
        }
    }

    /// The filer below.
    pub fn into_below(self) -> F
        requires { (⟦<RollbackFiler<F> as Filer>⟧.saved self ≡ []) ⊎
            (⟦<RollbackFiler<F> as Filer>⟧.is_sound self ≡ false) }
        ensures content { ⟦<RollbackFiler<F> as Filer>⟧.saved self ≡ [] → F.content result
            ≡ ⟦<RollbackFiler<F> as Filer>⟧.content self }
        ensures size { ⟦<RollbackFiler<F> as Filer>⟧.saved self ≡ [] → F.size_of result
            ≡ ⟦<RollbackFiler<F> as Filer>⟧.size_of self }
        ensures limit { F.limit_of result ≡ ⟦<RollbackFiler<F> as Filer>⟧.limit_of self }
        ensures sound { F.is_sound result ≡ ⟦<RollbackFiler<F> as Filer>⟧.is_sound self }
        ensures moment { F.moment result ≡ ⟦<RollbackFiler<F> as Filer>⟧.moment self }
        ensures stops { Leaves (F.may_leave result) (⟦<RollbackFiler<F> as Filer>⟧.may_leave self) }
        ensures since { (t n : ℕ) → Leaves (F.left_since result t n)
            (⟦<RollbackFiler<F> as Filer>⟧.left_since self t n) }
        ensures told { F.told result ≡ ⟦<RollbackFiler<F> as Shows>⟧.told self }
        ensures left { F.left result ≡ ⟦<RollbackFiler<F> as Shows>⟧.left self }
        ensures faults { F.faults result ≡ ⟦<RollbackFiler<F> as Shows>⟧.faults self }
        ensures fixed { F.fixed result ≡ ⟦<RollbackFiler<F> as Shows>⟧.fixed self }
    {
        self.below
    }

    /// Reads the content from below, before its first change.
    #[tactic(auto, using(lldb_base::specs::Stops::same_but_self))]
    fn take_copy(&mut self) -> Result<(), Trouble>
        requires sound { IsTrue (⟦<RollbackFiler<F> as Filer>⟧.is_sound self.old) }
        requires depth { 1 ≤ length (⟦<RollbackFiler<F> as Filer>⟧.saved self.old) }
        ensures changed { OnOk result (self.new.changed ≡ true) }
        ensures content { ⟦<RollbackFiler<F> as Filer>⟧.content self.new
            ≡ ⟦<RollbackFiler<F> as Filer>⟧.content self.old }
        ensures saved { ⟦<RollbackFiler<F> as Filer>⟧.saved self.new
            ≡ ⟦<RollbackFiler<F> as Filer>⟧.saved self.old }
        ensures saved_sizes { ⟦<RollbackFiler<F> as Filer>⟧.saved_sizes self.new
            ≡ ⟦<RollbackFiler<F> as Filer>⟧.saved_sizes self.old }
        ensures size { ⟦<RollbackFiler<F> as Filer>⟧.size_of self.new
            ≡ ⟦<RollbackFiler<F> as Filer>⟧.size_of self.old }
        ensures limit { ⟦<RollbackFiler<F> as Filer>⟧.limit_of self.new
            ≡ ⟦<RollbackFiler<F> as Filer>⟧.limit_of self.old }
        ensures sound { ⟦<RollbackFiler<F> as Filer>⟧.is_sound self.new
            ≡ ⟦<RollbackFiler<F> as Filer>⟧.is_sound self.old }
        ensures refuses { Refuses (λ _ _. ⊥) ⊥ result }
        ensures stops { IsSameBut (F.content self.old.below) (F.content self.new.below)
            (F.may_leave self.old.below) (F.may_leave self.new.below) (F.moment self.old.below)
            (F.moment self.new.below) (F.left_since self.old.below) (F.left_since self.new.below)
            (F.told self.old.below) (F.told self.new.below) }
        ensures told { ⟦<RollbackFiler<F> as Shows>⟧.told self.new
            ≡ ⟦<RollbackFiler<F> as Shows>⟧.told self.old }
        ensures left { ⟦<RollbackFiler<F> as Shows>⟧.left self.new
            ≡ ⟦<RollbackFiler<F> as Shows>⟧.left self.old }
        ensures fixed { ⟦<RollbackFiler<F> as Shows>⟧.fixed self.new
            ≡ ⟦<RollbackFiler<F> as Shows>⟧.fixed self.old }
        ensures cause { IsCausedTrouble result (⟦<RollbackFiler<F> as Shows>⟧.faults self.old)
            (⟦<RollbackFiler<F> as Shows>⟧.faults self.new) }
    {
        if self.changed {
            return Ok(());
        }
        let base = read_all(self.alloc, &mut self.below)?;
        self.present = Bytes::from_slice(self.alloc, &base)?.into_vec();
        self.base = base;
        self.changed = true;
        Ok(())
    }

    /// What the outermost end writes.
    fn batch(&self) -> Result<Batch, NoMemory>
        requires { IsTrue (⟦<RollbackFiler<F> as Filer>⟧.is_sound self.now) }
        ensures applied { IfOk result (λ batch. option_map (applied 0 batch)
            (F.content self.now.below) ≡ ⟦<RollbackFiler<F> as Filer>⟧.content self.now) }
        ensures fits { IfOk result (λ batch. CanTake 0 0 (F.size_of self.now.below) batch) }
        ensures size { IfOk result (λ batch. batch.size ≡ ⟦<RollbackFiler<F> as Filer>⟧.size_of
            self.now) }
    {
        if !self.changed {
            return Ok(Batch::new(self.alloc, self.below.size()));
        }
        changes(self.alloc, &self.base, &self.present)
    }

    /// Stores the content, and drops what was held in memory.
    #[tactic(auto, using(lldb_base::specs::Stops::adds_none))]
    fn store(&mut self) -> Result<(), Trouble>
        requires sound { IsTrue (⟦<RollbackFiler<F> as Filer>⟧.is_sound self.old) }
        requires depth { length (⟦<RollbackFiler<F> as Filer>⟧.saved self.old) ≡ 1 }
        ensures content { OnOk result (⟦<RollbackFiler<F> as Filer>⟧.content self.new
            ≡ ⟦<RollbackFiler<F> as Filer>⟧.content self.old) }
        ensures kept { OnErr result (IsTrue (⟦<RollbackFiler<F> as Filer>⟧.is_sound self.new)
            → ⟦<RollbackFiler<F> as Filer>⟧.content self.new
            ≡ ⟦<RollbackFiler<F> as Filer>⟧.content self.old) }
        ensures saved { OnOk result (⟦<RollbackFiler<F> as Filer>⟧.saved self.new ≡ []) }
        ensures saved_kept { OnErr result (IsTrue (⟦<RollbackFiler<F> as Filer>⟧.is_sound self.new)
            → ⟦<RollbackFiler<F> as Filer>⟧.saved self.new
            ≡ ⟦<RollbackFiler<F> as Filer>⟧.saved self.old) }
        ensures saved_sizes { OnOk result (⟦<RollbackFiler<F> as Filer>⟧.saved_sizes self.new ≡ []) }
        ensures saved_sizes_kept { OnErr result (⟦<RollbackFiler<F> as Filer>⟧.saved_sizes self.new
            ≡ ⟦<RollbackFiler<F> as Filer>⟧.saved_sizes self.old) }
        ensures size { ⟦<RollbackFiler<F> as Filer>⟧.size_of self.new
            ≡ ⟦<RollbackFiler<F> as Filer>⟧.size_of self.old }
        ensures limit { ⟦<RollbackFiler<F> as Filer>⟧.limit_of self.new
            ≡ ⟦<RollbackFiler<F> as Filer>⟧.limit_of self.old }
        ensures sound { SoundAfter result (⟦<RollbackFiler<F> as Filer>⟧.is_sound self.new) }
        ensures refuses { Refuses (λ _ _. ⊥) ⊥ result }
        ensures stops { Leaves (F.may_leave self.new.below) (IsEnded (F.content self.old.below)
            (⟦<RollbackFiler<F> as Filer>⟧.content self.old)) }
        ensures time { Adds (F.moment self.old.below) (F.moment self.new.below)
            (F.left_since self.old.below) (F.left_since self.new.below)
            (IsEnded (F.content self.old.below) (⟦<RollbackFiler<F> as Filer>⟧.content self.old))
            (HasShown (F.told self.old.below)) }
        ensures unwritten { OnErr result (IsTrue (⟦<RollbackFiler<F> as Filer>⟧.is_sound self.new)
            → IsSameBut (F.content self.old.below) (F.content self.new.below)
            (F.may_leave self.old.below) (F.may_leave self.new.below) (F.moment self.old.below)
            (F.moment self.new.below) (F.left_since self.old.below) (F.left_since self.new.below)
            (F.told self.old.below) (F.told self.new.below)) }
        ensures told { ⟦<RollbackFiler<F> as Shows>⟧.told self.new
            ≡ ⟦<RollbackFiler<F> as Shows>⟧.told self.old }
        ensures left { ⟦<RollbackFiler<F> as Shows>⟧.left self.new
            ≡ ⟦<RollbackFiler<F> as Shows>⟧.left self.old }
        ensures fixed { ⟦<RollbackFiler<F> as Shows>⟧.fixed self.new
            ≡ ⟦<RollbackFiler<F> as Shows>⟧.fixed self.old }
        ensures cause { IsCausedTrouble result (⟦<RollbackFiler<F> as Shows>⟧.faults self.old)
            (⟦<RollbackFiler<F> as Shows>⟧.faults self.new) }
    {
        let batch = self.batch()?;
        self.below.commit(&batch, 0)?;
        self.early = 0;
        self.changed = false;
        self.base = Vec::new(self.alloc);
        self.present = Vec::new(self.alloc);
        Ok(())
    }
}

/// So many zeros.
pub(crate) fn zeros(alloc: Global, count: usize) -> Result<Vec<u8>, NoMemory>
    ensures { IfOk result (λ zeros. length zeros.items ≡ count) }
{
    let mut zeros = Vec::new(alloc);
    zeros.resize(count, 0)?;
    Ok(zeros)
}

/// The content of a filer.
#[tactic(auto, using(lldb_base::specs::Stops::same_but_self))]
fn read_all<F: BaseFiler>(alloc: Global, filer: &mut F) -> Result<Vec<u8>, Trouble>
    requires sound { IsTrue (F.is_sound filer.old) }
    ensures read { IfOk result (λ all. IfSome (F.content filer.old) (λ c. c ≡ all.items)) }
    ensures long { IfOk result (λ all. length all.items ≡ F.size_of filer.old) }
    ensures content { F.content filer.new ≡ F.content filer.old }
    ensures size { F.size_of filer.new ≡ F.size_of filer.old }
    ensures limit { F.limit_of filer.new ≡ F.limit_of filer.old }
    ensures sound { F.is_sound filer.new ≡ F.is_sound filer.old }
    ensures refuses { Refuses (λ _ _. ⊥) ⊥ result }
    ensures stops { IsSameBut (F.content filer.old) (F.content filer.new) (F.may_leave filer.old)
        (F.may_leave filer.new) (F.moment filer.old) (F.moment filer.new) (F.left_since filer.old)
        (F.left_since filer.new) (F.told filer.old) (F.told filer.new) }
    ensures told { F.told filer.new ≡ F.told filer.old }
    ensures left { F.left filer.new ≡ F.left filer.old }
    ensures fixed { F.fixed filer.new ≡ F.fixed filer.old }
    ensures cause { IsCausedTrouble result (F.faults filer.old) (F.faults filer.new) }
{
    let mut all = zeros(alloc, filer.size() as usize)?;
    filer.read_at(0, &mut all)?;
    Ok(all)
}

impl<F: BaseFiler> Shows for RollbackFiler<F> {
    ghost told = { λ f. F.told f.below };

    ghost faults = { λ f. F.faults f.below };

    ghost left = { λ f. F.left f.below };

    ghost same = { λ x y. F.same x.below y.below × (y.early ≡ x.early) × (y.changed ≡ x.changed) ×
        (y.base ≡ x.base) × (y.present ≡ x.present) × (y.copies ≡ x.copies) };

    ghost fixed = { λ f. F.fixed f.below };

    ghost same_reflexive = { λ x. (F.same_reflexive x.below, refl, refl, refl, refl, refl) };

    ghost same_transitive = { λ x y z p q. (
      F.same_transitive x.below y.below z.below p.0 q.0,
      q.1 ∙
          p.1,
      q.2 ∙ p.2,
      q.3 ∙ p.3,
      q.4 ∙ p.4,
      q.5 ∙ p.5,
    ) };

    #[tactic(auto, using(crate::proofs::Copied::copied_shown))]
    fn show(&mut self, piece: &[u8]) -> Result<u64, DeviceFault> {
        self.below.show(piece)
    }

    #[tactic(auto, using(crate::proofs::Copied::copied_shown))]
    fn warn(&mut self, piece: &[u8]) -> Result<u64, DeviceFault> {
        self.below.warn(piece)
    }
}

impl<F: BaseFiler> Filer for RollbackFiler<F> {
    ghost content = { λ f. held f.changed f.present.items (F.content f.below) };

    ghost saved = { λ f. stacked f.copies f.early (F.content f.below) };

    ghost saved_sizes = { λ f. sizes_stacked f.copies f.early (F.size_of f.below) };

    ghost size_of = { λ f. size_held f.changed f.present.items (F.size_of f.below) };

    ghost limit_of = { λ f. F.limit_of f.below };

    ghost is_sound = { λ f. F.is_sound f.below };

    ghost may_leave = { λ f s. F.may_leave f.below s };

    ghost moment = { λ f. F.moment f.below };

    ghost left_since = { λ f t n s. F.left_since f.below t n s };

    fn size(&self) -> u64 {
        if self.changed {
            self.present.len() as u64
        } else {
            self.below.size()
        }
    }

    fn limit(&self) -> u64 {
        self.below.limit()
    }

    fn depth(&self) -> u32 {
        self.early + self.copies.len() as u32
    }

    fn sound(&self) -> bool {
        self.below.sound()
    }

    fn read_at(&mut self, at: u64, out: &mut [u8]) -> Result<(), Trouble> {
        if !self.changed {
            return self.below.read_at(at, out);
        }
        let start = at as usize;
        out.copy_from_slice(&self.present[start..start + out.len()]);
        Ok(())
    }

    fn write_at(&mut self, at: u64, piece: &[u8]) -> Result<(), Trouble> {
        let need = at + piece.len() as u64;
        let limit = self.below.limit();
        if need > self.size() && need > limit {
            return Err(Trouble::Full { need, limit });
        }
        self.take_copy()?;
        put_piece(&mut self.present, at as usize, piece)?;
        Ok(())
    }

    fn truncate(&mut self, size: u64) -> Result<(), Trouble> {
        self.take_copy()?;
        self.present.truncate(size as usize);
        Ok(())
    }

    fn begin_update(&mut self) -> Result<(), NoMemory> {
        if self.changed {
            let copy = Bytes::from_slice(self.alloc, &self.present)?;
            self.copies.push(copy)?;
        } else {
            self.early += 1;
        }
        Ok(())
    }

    fn end_update(&mut self) -> Result<(), Trouble> {
        if self.depth() == 1 {
            return self.store();
        }
        match self.copies.pop() {
            Some(_) => return Ok(()),
            None => self.early -= 1,
        }
        Ok(())
    }

    fn rollback(&mut self) {
        match self.copies.pop() {
            Some(copy) => self.present = copy.into_vec(),
            None => {
                self.early -= 1;
                self.changed = false;
                self.base.clear();
                self.present.clear();
            }
        }
    }

    ghost sizes = { λ f. sizes_held f.early f.changed f.present.items f.copies _ _
        (F.sizes f.below) f.copied };

    ghost told_size = { λ f sound. told_held f.changed f.present.items _ _
        (F.told_size f.below sound) };

    ghost same_filer = { λ x y same. same_held same.1 same.2 (ap (λ v. v.items) same.4) same.5
        (F.same_filer x.below y.below same.0) };

    ghost sound_stops = { λ f sound. only_below f.early f.changed f.present.items f.copies
        (F.may_leave f.below) f.copied (F.sound_stops f.below sound) };

    ghost counts_now = { λ f t s early left. F.counts_now f.below t s early left };

    ghost only_now = { λ f n s left. F.only_now f.below n s left };

    ghost same_stops = { λ x y same. same_below x.present.items y.present.items x.copied.untouched
        x.copied.begun y.copied.untouched y.copied.begun (F.same_stops x.below y.below same.0) };
}
