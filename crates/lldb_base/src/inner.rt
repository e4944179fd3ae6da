//! A filer over the back of another.
ghost use Rattle.std.specs.Prelude.{◌≡◌, ℕ, ◌+◌, ◌-◌, ◌^◌, ◌<◌, ◌≤◌, List, [], ◌∷◌, length, drop, Option, option_map, IsTrue, refl};
ghost use Rattle.std.proofs.Common.{◌∙◌, ap};
ghost use Rattle.lldb_base.specs.Batch.{cost};
ghost use Rattle.ql_edge.specs.Stops.{Leaves};
ghost use Rattle.lldb_base.specs.Inner.{answer_behind, IsBehind, sizes_behind, told_behind, same_behind};
ghost use Rattle.lldb_base.specs.Stops.{Behind, behind_only, behind_same, if_more};

use crate::{BaseFiler, Batch, Trouble};
use ql_edge::{DeviceFault, Shows};

/// The content of the filer below from an offset on. It takes no memory of its own.
#[derive(Drop)]
pub struct InnerFiler<F: BaseFiler> {
    below: F,
    offset: u64,
    ghost size_within: { offset ≤ F.size_of below },
    ghost limit_within: { offset ≤ F.limit_of below },
    ghost floor_within: { F.floor ≤ offset },
}

impl<F: BaseFiler> InnerFiler<F> {
    pub fn new(below: F, offset: u64) -> InnerFiler<F>
        requires size { offset ≤ F.size_of below }
        requires limit { offset ≤ F.limit_of below }
        requires floor { F.floor ≤ offset }
        ensures content { ⟦<InnerFiler<F> as BaseFiler>⟧.content result ≡ option_map (drop offset)
            (F.content below) }
        ensures size { ⟦<InnerFiler<F> as BaseFiler>⟧.size_of result ≡ F.size_of below - offset }
        ensures limit { ⟦<InnerFiler<F> as BaseFiler>⟧.limit_of result ≡ F.limit_of below - offset }
        ensures sound { ⟦<InnerFiler<F> as BaseFiler>⟧.is_sound result ≡ F.is_sound below }
        ensures moved { ⟦<InnerFiler<F> as BaseFiler>⟧.moved_of result ≡ F.moved_of below }
        ensures moment { ⟦<InnerFiler<F> as BaseFiler>⟧.moment result ≡ F.moment below }
        ensures stops { Leaves (⟦<InnerFiler<F> as BaseFiler>⟧.may_leave result)
            (Behind offset (F.may_leave below)) }
        ensures since { (t n : ℕ) → Leaves (⟦<InnerFiler<F> as BaseFiler>⟧.left_since result t n)
            (Behind offset (F.left_since below t n)) }
        ensures told { ⟦<InnerFiler<F> as Shows>⟧.told result ≡ F.told below }
        ensures left { ⟦<InnerFiler<F> as Shows>⟧.left result ≡ F.left below }
        ensures faults { ⟦<InnerFiler<F> as Shows>⟧.faults result ≡ F.faults below }
        ensures fixed { ⟦<InnerFiler<F> as Shows>⟧.fixed result ≡ offset ∷ F.fixed below }
    {
        InnerFiler { below, offset }
    }

    /// The filer below.
    pub fn into_below(self) -> F
        ensures content { (o : ℕ) (rest : List ℕ) → ⟦<InnerFiler<F> as Shows>⟧.fixed self ≡ o ∷ rest
            → ⟦<InnerFiler<F> as BaseFiler>⟧.content self ≡ option_map (drop o) (F.content result) }
        ensures size { (o : ℕ) (rest : List ℕ) → ⟦<InnerFiler<F> as Shows>⟧.fixed self ≡ o ∷ rest
            → F.size_of result ≡ o + ⟦<InnerFiler<F> as BaseFiler>⟧.size_of self }
        ensures limit { (o : ℕ) (rest : List ℕ) → ⟦<InnerFiler<F> as Shows>⟧.fixed self ≡ o ∷ rest
            → F.limit_of result ≡ o + ⟦<InnerFiler<F> as BaseFiler>⟧.limit_of self }
        ensures fixed { (o : ℕ) (rest : List ℕ) → ⟦<InnerFiler<F> as Shows>⟧.fixed self ≡ o ∷ rest
            → F.fixed result ≡ rest }
        ensures sound { F.is_sound result ≡ ⟦<InnerFiler<F> as BaseFiler>⟧.is_sound self }
        ensures moved { F.moved_of result ≡ ⟦<InnerFiler<F> as BaseFiler>⟧.moved_of self }
        ensures moment { F.moment result ≡ ⟦<InnerFiler<F> as BaseFiler>⟧.moment self }
        ensures stops { (o : ℕ) (rest : List ℕ) (s : Option (List ℕ))
            → ⟦<InnerFiler<F> as Shows>⟧.fixed self ≡ o ∷ rest → F.may_leave result s
            → ⟦<InnerFiler<F> as BaseFiler>⟧.may_leave self (option_map (drop o) s) }
        ensures since { (t n o : ℕ) (rest : List ℕ) (s : Option (List ℕ))
            → ⟦<InnerFiler<F> as Shows>⟧.fixed self ≡ o ∷ rest → F.left_since result t n s
            → ⟦<InnerFiler<F> as BaseFiler>⟧.left_since self t n (option_map (drop o) s) }
        ensures told { F.told result ≡ ⟦<InnerFiler<F> as Shows>⟧.told self }
        ensures left { F.left result ≡ ⟦<InnerFiler<F> as Shows>⟧.left self }
        ensures faults { F.faults result ≡ ⟦<InnerFiler<F> as Shows>⟧.faults self }
    {
        self.below
    }
}

/// The answer of a filer, said of its content from an offset on.
fn behind(answer: Result<(), Trouble>, offset: u64) -> Result<(), Trouble>
    requires { IsBehind offset answer }
    ensures { result ≡ answer_behind offset answer }
{
    match answer {
        Err(Trouble::Full { need, limit }) => Err(Trouble::Full {
            need: need - offset,
            limit: limit - offset,
        }),
        _ => answer,
    }
}

impl<F: BaseFiler> Shows for InnerFiler<F> {
    ghost told = { λ f. F.told f.below };

    ghost faults = { λ f. F.faults f.below };

    ghost left = { λ f. F.left f.below };

    ghost same = { λ x y. F.same x.below y.below × (y.offset ≡ x.offset) };

    ghost fixed = { λ f. f.offset ∷ F.fixed f.below };

    ghost same_reflexive = { λ x. (F.same_reflexive x.below, refl) };

    ghost same_transitive = { λ x y z p q. (
      F.same_transitive x.below y.below z.below p.0 q.0,
      q.1 ∙
          p.1,
    ) };

    fn show(&mut self, piece: &[u8]) -> Result<u64, DeviceFault> {
        self.below.show(piece)
    }

    fn warn(&mut self, piece: &[u8]) -> Result<u64, DeviceFault> {
        self.below.warn(piece)
    }
}

impl<F: BaseFiler> BaseFiler for InnerFiler<F> {
    ghost content = { λ f. option_map (drop f.offset) (F.content f.below) };

    ghost size_of = { λ f. F.size_of f.below - f.offset };

    ghost limit_of = { λ f. F.limit_of f.below - f.offset };

    ghost is_sound = { λ f. F.is_sound f.below };

    ghost moved_of = { λ f. F.moved_of f.below };

    ghost may_leave = { λ f s. Behind f.offset (F.may_leave f.below) s };

    ghost moment = { λ f. F.moment f.below };

    ghost left_since = { λ f t n s. Behind f.offset (F.left_since f.below t n) s };

    ghost floor = { 0 };

    fn size(&self) -> u64 {
        self.below.size() - self.offset
    }

    fn limit(&self) -> u64 {
        self.below.limit() - self.offset
    }

    fn sound(&self) -> bool {
        self.below.sound()
    }

    fn moved(&self) -> u64 {
        self.below.moved()
    }

    fn read_at(&mut self, at: u64, out: &mut [u8]) -> Result<(), Trouble> {
        self.below.read_at(self.offset + at, out)
    }

    fn commit(&mut self, batch: &Batch, shift: u64) -> Result<(), Trouble> {
        let answer = self
            .below
            .commit(batch, batch.shift_behind(self.offset, shift));
        behind(answer, self.offset)
    }

    ghost sizes = { λ f. sizes_behind f.offset _ _ (F.sizes f.below) };

    ghost told_size = { λ f sound. told_behind f.offset _ _ (F.told_size f.below sound) };

    ghost same_filer = { λ x y same. same_behind x.offset y.offset same.1 _ _ _ _ _ _ _ _ _ _
        (F.same_filer x.below y.below same.0) };

    ghost sound_stops = { λ x sound. behind_only x.offset (F.content x.below) (F.may_leave x.below)
        (F.sound_stops x.below sound) };

    ghost counts_now = { λ x t s early b. if_more (F.told x.below)
        (λ u. F.left_since x.below t (length u.0) b.0)
        (λ u. Behind x.offset (F.left_since x.below t (length u.0)) s)
        (F.counts_now x.below t b.0 early b.1) (λ u left. (b.0, left, b.2)) };

    ghost only_now = { λ x n s b. let now = F.only_now x.below n b.0 b.1 in
        ((b.0, now.0, b.2), now.1) };

    ghost same_stops = { λ x y same. behind_same x.offset y.offset same.1
        (F.same_stops x.below y.below same.0) };
}
