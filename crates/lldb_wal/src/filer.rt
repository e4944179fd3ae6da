//! A content in a data file that is changed through a log.
ghost use Rattle.std.specs.Prelude.{◌≡◌, ℕ, ◌+◌, ◌^◌, ◌≤◌, List, ◌∷◌, ◌++◌, length, take, true, is_some, IsSome, IfSome, IfOk, IfErr, option_map, refl};
ghost use Rattle.std.proofs.Common.{◌∙◌};
ghost use Rattle.std.proofs.Props.{props};
ghost use Rattle.ql_edge.specs.Frame.{Stays};
ghost use Rattle.ql_edge.specs.Disk.{Files};
ghost use Rattle.ql_edge.specs.Stops.{Leaves, HasShown, Adds};
ghost use Rattle.lldb_base.specs.Stops.{if_more};
ghost use Rattle.lldb_wal.specs.Fault.{IsCausedBy, IsUnwritten, Refutes};
ghost use Rattle.lldb_wal.specs.Kept.{Beside, IsAtRest, IsDurable, kept};
ghost use Rattle.lldb_wal.specs.Opened.{IsSameKept, opened_data};
ghost use Rattle.lldb_wal.specs.Filer.{AsKept, IsKept, IsStored, KeepsData, data_of, stored_size, same_stored, keeps_only, kept_same};

use crate::WalFault;
use crate::commit::store_batch;
use crate::settling::open_size;
use crate::spelling::spell_batch;
use lldb_base::{BaseFiler, Batch, Refused, Trouble};
use ql_edge::{DeviceFault, Shows, Volume, Which};
use std::alloc::Global;

/// The data file of a volume, its magic included. A `commit` goes through the log, so that a stop leaves the old content or the
/// new one.
#[derive(Drop)]
pub struct WalFiler<V: Volume> {
    alloc: Global,
    volume: V,
    magic: [u8; 16],
    size: u64,
    limit: u64,
    moved: u64,
    sound: bool,
    ghost attached: { IsSome (V.attached volume) },
    ghost size_within: { size ≤ 2 ^ 60 + 16 },
    ghost limit_within: { limit ≤ 2 ^ 60 + 16 },
    ghost stored: { sound ≡ true → IsStored magic size (V.files volume) } by { Prim.hlevel props },
    ghost at_rest: { sound ≡ true → IsAtRest (V.files volume) (V.may_leave volume) } by { Prim.hlevel props },
    ghost keeps: { sound ≡ true → KeepsData magic (V.files volume) (V.may_leave volume) } by { Prim.hlevel props },
}

impl<V: Volume> WalFiler<V> {
    /// Creates, recovers or reads the database of the attached name. `magic` is how its data file begins, and `limit` is how long
    /// that may become, in bytes.
    ///
    /// After `NotDatabase` and `BadLog` nothing was written.
    pub fn open_on(
        alloc: Global,
        volume: V,
        magic: [u8; 16],
        limit: u64,
    ) -> Result<WalFiler<V>, Refused<V, WalFault>>
        requires attached { IsSome (V.attached volume) }
        requires stable { IsDurable (V.files volume) (V.may_leave volume) }
        requires limit { limit ≤ 2 ^ 60 + 16 }
        ensures content { IfOk result (λ filer. ⟦<WalFiler<V> as BaseFiler>⟧.content filer
            ≡ option_map (opened_data magic) (V.files volume)) }
        ensures opens { IfOk result (λ _. IfSome (V.files volume)
            (λ f. is_some (kept magic f) ≡ true)) }
        ensures sound { IfOk result (λ filer. ⟦<WalFiler<V> as BaseFiler>⟧.is_sound filer ≡ true) }
        ensures limit { IfOk result (λ filer. ⟦<WalFiler<V> as BaseFiler>⟧.limit_of filer ≡ limit) }
        ensures moved { IfOk result (λ filer. ⟦<WalFiler<V> as BaseFiler>⟧.moved_of filer ≡ 0) }
        ensures time { IfOk result (λ filer. Adds (V.moment volume)
            (⟦<WalFiler<V> as BaseFiler>⟧.moment filer)
            (λ t n. AsKept magic (V.left_since volume t n))
            (⟦<WalFiler<V> as BaseFiler>⟧.left_since filer) (IsKept magic (V.files volume))
            (HasShown (V.told volume))) }
        ensures told { IfOk result (λ filer. ⟦<WalFiler<V> as Shows>⟧.told filer ≡ V.told volume) }
        ensures left { IfOk result (λ filer. ⟦<WalFiler<V> as Shows>⟧.left filer ≡ V.left volume) }
        ensures fixed { IfOk result (λ filer. ⟦<WalFiler<V> as Shows>⟧.fixed filer
            ≡ limit ∷ (magic ++ V.fixed volume)) }
        ensures faults { IfOk result (λ filer. ⟦<WalFiler<V> as Shows>⟧.faults filer ≡ V.faults volume) }
        ensures refutes { IfErr result (λ r. Refutes magic (V.files volume) r.fault) }
        ensures unwritten { IfErr result (λ r. IsUnwritten r.fault (V.same volume r.below)) }
        ensures refused_stops { IfErr result (λ r. Leaves (V.may_leave r.below)
            (Beside (V.files volume) (IsSameKept magic))) }
        ensures refused_time { IfErr result (λ r. Adds (V.moment volume) (V.moment r.below)
            (V.left_since volume) (V.left_since r.below)
            (Beside (V.files volume) (IsSameKept magic)) (HasShown (V.told volume))) }
        ensures refused_frame { IfErr result (λ r. Stays V.told V.left V.fixed V.attached volume
            r.below) }
        ensures cause { IfErr result (λ r. IsCausedBy r.fault (V.faults volume)
            (V.faults r.below)) }
    {
        let mut volume = volume;
        match open_size(alloc, &mut volume, &magic) {
            Ok(size) => Ok(WalFiler {
                alloc,
                volume,
                magic,
                size,
                limit,
                moved: 0,
                sound: true,
            }),
            Err(fault) => Err(Refused {
                below: volume,
                fault,
            }),
        }
    }

    /// The two files, which hold what they held at the last commit.
    pub fn into_below(self) -> V
        ensures content { ⟦<WalFiler<V> as BaseFiler>⟧.content self ≡ option_map data_of
            (V.files result) }
        ensures at_rest { ⟦<WalFiler<V> as BaseFiler>⟧.is_sound self ≡ true → IsAtRest
            (V.files result) (V.may_leave result) }
        ensures attached { IsSome (V.attached result) }
        ensures moment { V.moment result ≡ ⟦<WalFiler<V> as BaseFiler>⟧.moment self }
        ensures stops { (most : ℕ) (magic rest : List ℕ) (f : Files) → length magic ≡ 16
            → ⟦<WalFiler<V> as Shows>⟧.fixed self ≡ most ∷ (magic ++ rest) → V.may_leave result f
            → ⟦<WalFiler<V> as BaseFiler>⟧.may_leave self (kept magic f) }
        ensures since { (t n most : ℕ) (magic rest : List ℕ) (f : Files) → length magic ≡ 16
            → ⟦<WalFiler<V> as Shows>⟧.fixed self ≡ most ∷ (magic ++ rest)
            → V.left_since result t n f
            → ⟦<WalFiler<V> as BaseFiler>⟧.left_since self t n (kept magic f) }
        ensures told { V.told result ≡ ⟦<WalFiler<V> as Shows>⟧.told self }
        ensures left { V.left result ≡ ⟦<WalFiler<V> as Shows>⟧.left self }
        ensures faults { V.faults result ≡ ⟦<WalFiler<V> as Shows>⟧.faults self }
    {
        self.volume
    }
}

impl<V: Volume> Shows for WalFiler<V> {
    ghost told = { λ f. V.told f.volume };

    ghost faults = { λ f. V.faults f.volume };

    ghost left = { λ f. V.left f.volume };

    ghost same = { λ x y. V.same x.volume y.volume × (y.magic ≡ x.magic) × (y.size ≡ x.size)
        × (y.limit ≡ x.limit) × (y.moved ≡ x.moved) × (y.sound ≡ x.sound) };

    ghost fixed = { λ f. f.limit ∷ (f.magic ++ V.fixed f.volume) };

    ghost same_reflexive = { λ x. (V.same_reflexive x.volume, refl, refl, refl, refl, refl) };

    ghost same_transitive = { λ x y z p q. (
      V.same_transitive x.volume y.volume z.volume p.0 q.0,
      q.1 ∙ p.1,
      q.2 ∙ p.2,
      q.3 ∙ p.3,
      q.4 ∙ p.4,
      q.5 ∙ p.5,
    ) };

    fn show(&mut self, piece: &[u8]) -> Result<u64, DeviceFault> {
        self.volume.show(piece)
    }

    fn warn(&mut self, piece: &[u8]) -> Result<u64, DeviceFault> {
        self.volume.warn(piece)
    }
}

impl<V: Volume> BaseFiler for WalFiler<V> {
    ghost content = { λ f. option_map data_of (V.files f.volume) };

    ghost size_of = { λ f. f.size };

    ghost limit_of = { λ f. f.limit };

    ghost is_sound = { λ f. f.sound };

    ghost moved_of = { λ f. f.moved };

    ghost may_leave = { λ f s. AsKept f.magic (V.may_leave f.volume) s };

    ghost moment = { λ f. V.moment f.volume };

    ghost left_since = { λ f t n s. AsKept f.magic (V.left_since f.volume t n) s };

    ghost floor = { 16 };

    fn size(&self) -> u64 {
        self.size
    }

    fn limit(&self) -> u64 {
        self.limit
    }

    fn sound(&self) -> bool {
        self.sound
    }

    fn moved(&self) -> u64 {
        self.moved
    }

    fn read_at(&mut self, at: u64, out: &mut [u8]) -> Result<(), Trouble> {
        self.volume.read_at(Which::Data, at, out)?;
        self.moved = self.moved.saturating_add(out.len() as u64);
        Ok(())
    }

    #[tactic(auto, using(crate::proofs::Passed::rest_either, lldb_base::specs::Stops::adds_none))]
    fn commit(&mut self, batch: &Batch, shift: u64) -> Result<(), Trouble> {
        let need = shift + batch.length();
        if need > self.size && need > self.limit {
            return Err(Trouble::Full {
                need,
                limit: self.limit,
            });
        }
        if batch.is_idle(shift, self.size) {
            return Ok(());
        }
        let spelled = spell_batch(self.alloc, batch, shift)?;
        self.sound = false;
        store_batch(&mut self.volume, batch, shift, spelled.as_slice())?;
        self.moved = self.moved.saturating_add(batch.bytes());
        self.size = need;
        self.sound = true;
        Ok(())
    }

    ghost sizes = { λ f. (f.size_within, f.limit_within) };

    ghost told_size = { λ f sound. stored_size f.magic f.size (V.files f.volume) (f.stored sound) };

    ghost same_filer = { λ x y same. same_stored (V.files x.volume) (V.files y.volume) x.size y.size
        x.limit y.limit x.sound y.sound x.moved y.moved (V.same_volume x.volume y.volume same.0).1.held
        same.2 same.3 same.5 same.4 };

    ghost sound_stops = { λ x sound. keeps_only x.magic (V.files x.volume) (V.may_leave x.volume)
        (x.keeps sound) (V.reads_count x.volume) };

    ghost counts_now = { λ x t s early b. if_more (V.told x.volume)
        (λ u. V.left_since x.volume t (length u.0) b.0)
        (λ u. AsKept x.magic (V.left_since x.volume t (length u.0)) s)
        (V.counts_now x.volume t b.0 early b.1) (λ u left. (b.0, left, b.2)) };

    ghost only_now = { λ x n s b. let now = V.only_now x.volume n b.0 b.1 in
        ((b.0, now.0, b.2), now.1) };

    ghost same_stops = { λ x y same. kept_same x.magic y.magic same.1
        (V.same_volume x.volume y.volume same.0).1 };
}
