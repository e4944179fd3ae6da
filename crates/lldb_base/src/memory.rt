//! A base filer in memory.
ghost use Rattle.std.specs.Prelude.{◌≡◌, ◌+◌, ◌^◌, ◌≤◌, [], ◌∷◌, length, Some, true, IfOk, OnOk, OnErr, refl};
ghost use Rattle.std.proofs.Common.{◌∙◌, ap};
ghost use Rattle.lldb_base.specs.Batch.{put, applied, CanTake};
ghost use Rattle.lldb_base.specs.Memory.{Stood, are_risen, mem_counts, mem_only, mem_same};
ghost use Rattle.lldb_base.specs.Shown.{count_shown, shown_again, shown_more};

use crate::past::{Past, Was};
use crate::texts::Texts;
use crate::{BaseFiler, Batch, Trouble};
use ql_edge::{Bytes, DeviceFault, NoMemory, Shows};
use std::alloc::Global;

/// A content in memory, and the contents before it. It never fails, and a `commit` writes into a copy.
#[derive(Debug, Drop)]
pub struct MemFiler {
    alloc: Global,
    bytes: Vec<u8>,
    /// How many bytes were shown when this content came.
    since: u64,
    past: Past,
    limit: u64,
    moved: u64,
    texts: Texts,
    ghost bytes_within: { length bytes.items ≤ 2 ^ 60 + 16 },
    ghost limit_within: { limit ≤ 2 ^ 60 + 16 },
    ghost risen: { are_risen ((since, bytes.items) ∷ past)
        (count_shown (⟦<Texts as Shows>⟧.told texts)) ≡ true },
}

impl MemFiler {
    /// A filer of the bytes. It takes no memory.
    pub fn new(alloc: Global, bytes: Bytes, limit: u64) -> MemFiler
        requires bytes { length bytes ≤ 2 ^ 60 + 16 }
        requires limit { limit ≤ 2 ^ 60 + 16 }
        ensures content { ⟦<MemFiler as BaseFiler>⟧.content result ≡ Some bytes }
        ensures size { ⟦<MemFiler as BaseFiler>⟧.size_of result ≡ length bytes }
        ensures limit { ⟦<MemFiler as BaseFiler>⟧.limit_of result ≡ limit }
        ensures sound { ⟦<MemFiler as BaseFiler>⟧.is_sound result ≡ true }
        ensures moved { ⟦<MemFiler as BaseFiler>⟧.moved_of result ≡ 0 }
        ensures told { ⟦<MemFiler as Shows>⟧.told result ≡ Some ([], []) }
        ensures fixed { ⟦<MemFiler as Shows>⟧.fixed result ≡ limit ∷ [] }
    {
        MemFiler {
            alloc,
            bytes: bytes.into_vec(),
            since: 0,
            past: Past::new(alloc),
            limit,
            moved: 0,
            texts: Texts::new(alloc),
        }
    }
}

/// Writes a piece over the bytes from a place on, and makes them longer where it ends behind them. After a refusal they
/// are as before.
pub fn put_piece(bytes: &mut Vec<u8>, at: usize, piece: &[u8]) -> Result<(), NoMemory>
    requires { at ≤ length bytes.old.items }
    ensures ok { OnOk result (bytes.new.items ≡ put at piece.now bytes.old.items) }
    ensures err { OnErr result (bytes.new.items ≡ bytes.old.items) }
{
    let over = piece.len().min(bytes.len() - at);
    bytes.extend_from_slice(&piece[over..])?;
    bytes[at..at + over].copy_from_slice(&piece[..over]);
    Ok(())
}

/// A copy of the bytes after a batch.
#[tactic(auto, using(crate::proofs::Puts::next_piece))]
fn apply_batch(alloc: Global, bytes: &[u8], batch: &Batch, shift: u64) -> Result<Vec<u8>, NoMemory>
    requires { CanTake 0 shift (length bytes.now) batch.now }
    ensures { IfOk result (λ copy. copy.items ≡ applied shift batch.now bytes.now) }
{
    let mut copy = Vec::new(alloc);
    copy.extend_from_slice(bytes)?;
    let pieces = batch.pieces();
    for piece in pieces {
        put_piece(
            &mut copy,
            (shift + piece.place) as usize,
            piece.bytes.as_slice(),
        )?;
    }
    copy.truncate((shift + batch.length()) as usize);
    Ok(copy)
}

impl Shows for MemFiler {
    ghost told = { λ f. ⟦<Texts as Shows>⟧.told f.texts };

    ghost faults = { λ f. ⟦<Texts as Shows>⟧.faults f.texts };

    ghost left = { λ f. ⟦<Texts as Shows>⟧.left f.texts };

    ghost same = { λ x y. (y.bytes ≡ x.bytes) × (y.limit ≡ x.limit) × (y.moved ≡ x.moved) ×
        (y.since ≡ x.since) × (y.past ≡ x.past) × ⟦<Texts as Shows>⟧.same x.texts y.texts };

    ghost fixed = { λ f. f.limit ∷ [] };

    ghost same_reflexive = { λ x. (
      refl,
      refl,
      refl,
      refl,
      refl,
      shown_again
          (⟦<Texts as Shows>⟧.told x.texts),
    ) };

    ghost same_transitive = { λ x y z p q. (
      q.0 ∙ p.0,
      q.1 ∙ p.1,
      q.2 ∙ p.2,
      q.3 ∙ p.3,
      q.4 ∙ p.4,
      shown_more (⟦<Texts as Shows>⟧.told x.texts) (⟦<Texts as Shows>⟧.told y.texts)
          (⟦<Texts as Shows>⟧.told z.texts) p.5 q.5,
    ) };

    fn show(&mut self, piece: &[u8]) -> Result<u64, DeviceFault> {
        self.texts.show(piece)
    }

    fn warn(&mut self, piece: &[u8]) -> Result<u64, DeviceFault> {
        self.texts.warn(piece)
    }
}

impl BaseFiler for MemFiler {
    ghost content = { λ f. Some f.bytes.items };

    ghost size_of = { λ f. length f.bytes.items };

    ghost limit_of = { λ f. f.limit };

    ghost is_sound = { λ _. true };

    ghost moved_of = { λ f. f.moved };

    ghost may_leave = { λ f s. s ≡ Some f.bytes.items };

    ghost moment = { λ f. length f.past + count_shown (⟦<Texts as Shows>⟧.told f.texts) };

    ghost left_since = { λ f t n s. Stood ((f.since, f.bytes.items) ∷ f.past)
        (count_shown (⟦<Texts as Shows>⟧.told f.texts)) t n s };

    ghost floor = { 0 };

    fn size(&self) -> u64 {
        self.bytes.len() as u64
    }

    fn limit(&self) -> u64 {
        self.limit
    }

    fn sound(&self) -> bool {
        true
    }

    fn moved(&self) -> u64 {
        self.moved
    }

    fn read_at(&mut self, at: u64, out: &mut [u8]) -> Result<(), Trouble> {
        let start = at as usize;
        out.copy_from_slice(&self.bytes[start..start + out.len()]);
        self.moved = self.moved.saturating_add(out.len() as u64);
        Ok(())
    }

    #[tactic(auto, using(crate::proofs::Puts::length_applied))]
    fn commit(&mut self, batch: &Batch, shift: u64) -> Result<(), Trouble> {
        let need = batch.end(shift);
        if need > self.size() && need > self.limit {
            return Err(Trouble::Full {
                need,
                limit: self.limit,
            });
        }
        let moved = self.moved.saturating_add(batch.bytes());
        if batch.is_idle(shift, self.size()) {
            return Ok(());
        }
        let next = apply_batch(self.alloc, &self.bytes, batch, shift)?;
        let bytes = Bytes::from_slice(self.alloc, &self.bytes)?;
        let shown = self.since;
        self.past.push(Was { shown, bytes })?;
        self.since = self.texts.shown();
        self.bytes = next;
        self.moved = moved;
        Ok(())
    }

    ghost sizes = { λ f. (f.bytes_within, f.limit_within) };

    ghost told_size = { λ _ _. refl };

    ghost same_filer = { λ x y same. record {
      held = ap (λ b. Some b.items) same.0;
      size = ap
          (λ b. length b.items) same.0;
      limit = same.1;
      sound = refl;
      moved = same.2;
    } };

    ghost sound_stops = { λ _ _. (refl, λ s is. is) };

    ghost counts_now = { λ x t s early is. mem_counts x.since x.bytes.items x.past
        (⟦<Texts as Shows>⟧.told x.texts) t s x.risen early is };

    ghost only_now = { λ x n s stood. mem_only x.since x.bytes.items x.past
        (⟦<Texts as Shows>⟧.told x.texts) n s x.risen stood };

    ghost same_stops = { λ x y same. mem_same x.since y.since x.bytes.items y.bytes.items x.past y.past
        _ _ same.3 (ap (λ b. b.items) same.0) same.4 same.5 };
}
