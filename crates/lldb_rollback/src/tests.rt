//! What no clause says: that calls succeed where memory is ample, and what follows a refusal at each place.
ghost use Rattle.std.specs.Prelude.{◌≡◌, ◌≤◌, ◌+◌, ◌^◌, ◌∷◌, [], length, true, false, IsTrue, IfOk, refl};
ghost use Rattle.std.proofs.Common.{◌∙◌, ap, Some};
ghost use Rattle.ql_edge.specs.Cause.{IsCaused};
ghost use Rattle.lldb_base.specs.Memory.{mem_counts, mem_only, mem_same};
ghost use Rattle.lldb_base.specs.Shown.{shown_again, shown_more};

use super::*;
use crate::levels::zeros;
use lldb_base::{BaseFiler, Batch, Filer, MemFiler, Trouble};
use ql_edge::{Bytes, DeviceFault, NoMemory, Shows};
use std::alloc::Global;
use std::test::Fail;

/// One call of a filer.
#[derive(Clone, Copy)]
enum Step {
    Begin,
    Write(u64, &'static str),
    Cut(u64),
    End,
    Rollback,
}

/// Takes a step, where its conditions hold.
fn take<F: Filer>(filer: &mut F, step: Step) -> Result<(), Trouble> {
    let open = filer.depth() > 0;
    let ready = filer.sound();
    match step {
        Step::Begin if ready && filer.depth() < 9 => Ok(filer.begin_update()?),
        Step::Write(at, text) if ready && open && at <= filer.size() && text.len() < 9 => {
            filer.write_at(at, text.as_bytes())
        }
        Step::Cut(size) if ready && open && size <= filer.size() => filer.truncate(size),
        Step::End if ready && open => filer.end_update(),
        Step::Rollback if open => {
            filer.rollback();
            Ok(())
        }
        _ => Err(Trouble::Damaged),
    }
}

/// All bytes of a filer.
fn content<F: Filer>(alloc: Global, filer: &mut F) -> Result<Vec<u8>, Trouble> {
    if !filer.sound() {
        return Err(Trouble::Damaged);
    }
    let mut out = zeros(alloc, filer.size() as usize)?;
    filer.read_at(0, &mut out)?;
    Ok(out)
}

/// Steps, and the content after each.
static STEPS: [(Step, &str); 16] = [
    (Step::Begin, "abc"),
    (Step::Write(1, "X"), "aXc"),
    (Step::Begin, "aXc"),
    (Step::Cut(1), "a"),
    (Step::Rollback, "aXc"),
    (Step::Begin, "aXc"),
    (Step::Write(2, "YYY"), "aXYYY"),
    (Step::Begin, "aXYYY"),
    (Step::Write(4, "ZZZ"), "aXYYZZZ"),
    (Step::Cut(6), "aXYYZZ"),
    (Step::End, "aXYYZZ"),
    (Step::Rollback, "aXc"),
    (Step::Write(3, "d"), "aXcd"),
    (Step::Begin, "aXcd"),
    (Step::Cut(3), "aXc"),
    (Step::End, "aXc"),
];

/// A filer of the bytes `abc`, with room for four more.
fn letters(alloc: Global) -> Result<MemFiler, NoMemory>
    ensures sound { IfOk result (λ f. ⟦<MemFiler as BaseFiler>⟧.is_sound f ≡ true) }
{
    let bytes = Bytes::from_slice(alloc, b"abc")?;
    Ok(MemFiler::new(alloc, bytes, 7))
}

#[test]
fn levels(rt: HostRuntime) -> Result<(), Fail> {
    let mut filer = RollbackFiler::new(rt.alloc(), letters(rt.alloc())?);
    for row in STEPS.iter() {
        let (step, wanted) = *row;
        take(&mut filer, step)?;
        assert_eq!(rt;
            content(rt.alloc(), &mut filer)?.as_slice(),
            wanted.as_bytes()
        );
    }
    take(&mut filer, Step::End)?;
    assert_eq!(rt; filer.depth(), 0);
    assert_eq!(rt;
        content(rt.alloc(), &mut filer)?.as_slice(),
        b"aXc".as_slice()
    );
    Ok(())
}

#[test]
fn limits(rt: HostRuntime) -> Result<(), Fail> {
    let mut filer = RollbackFiler::new(rt.alloc(), letters(rt.alloc())?);
    take(&mut filer, Step::Begin)?;
    let full = Trouble::Full { need: 8, limit: 7 };
    assert_eq!(rt; take(&mut filer, Step::Write(3, "defgh")).err(), Some(full));
    assert_eq!(rt;
        content(rt.alloc(), &mut filer)?.as_slice(),
        b"abc".as_slice()
    );
    take(&mut filer, Step::Write(3, "defg"))?;
    take(&mut filer, Step::End)?;
    assert_eq!(rt; filer.size(), 7);
    Ok(())
}

/// A filer in memory, one of whose calls answers a fault.
#[derive(Drop)]
struct Failing {
    below: MemFiler,
    /// How many calls come before the one that fails.
    left: Option<u64>,
    fault: DeviceFault,
    faults: u64,
    sound: bool,
}

impl Failing {
    /// Counts a call.
    fn call(&mut self) -> Result<(), DeviceFault>
        ensures below { self.new.below ≡ self.old.below }
        ensures sound { self.new.sound ≡ self.old.sound }
        ensures cause { IsCaused result self.old.faults self.new.faults }
    {
        match self.left {
            Some(0) => {
                self.left = None;
                if self.fault == DeviceFault::Failed {
                    self.faults = self.faults.saturating_add(1);
                    return Err(DeviceFault::Failed);
                }
                return Err(DeviceFault::NoMemory);
            }
            Some(left) => self.left = Some(left - 1),
            None => {}
        }
        Ok(())
    }
}

impl Shows for Failing {
    ghost told = { λ f. ⟦<MemFiler as Shows>⟧.told f.below };

    ghost faults = { λ f. f.faults };

    ghost left = { λ f. ⟦<MemFiler as Shows>⟧.left f.below };

    ghost same = { λ x y. ⟦<MemFiler as Shows>⟧.same x.below y.below × (y.sound ≡ x.sound) };

    ghost fixed = { λ f. ⟦<MemFiler as Shows>⟧.fixed f.below };

    ghost same_reflexive = { λ x. (
      (
        refl,
        refl,
        refl,
        refl,
        refl,
        shown_again
            (⟦<MemFiler as Shows>⟧.told x.below),
      ),
      refl,
    ) };

    ghost same_transitive = { λ x y z p q. (
      (
        q.0.0 ∙ p.0.0,
        q.0.1 ∙ p.0.1,
        q.0.2 ∙ p.0.2,
        q.0.3 ∙ p.0.3,
        q.0.4 ∙ p.0.4,
        shown_more (⟦<MemFiler as Shows>⟧.told x.below) (⟦<MemFiler as Shows>⟧.told y.below)
            (⟦<MemFiler as Shows>⟧.told z.below) p.0.5 q.0.5,
      ),
      q.1 ∙
          p.1,
    ) };

    fn show(&mut self, piece: &[u8]) -> Result<u64, DeviceFault> {
        self.below.show(piece)
    }

    fn warn(&mut self, piece: &[u8]) -> Result<u64, DeviceFault> {
        self.below.warn(piece)
    }
}

impl BaseFiler for Failing {
    ghost content = { λ f. ⟦<MemFiler as BaseFiler>⟧.content f.below };

    ghost size_of = { λ f. ⟦<MemFiler as BaseFiler>⟧.size_of f.below };

    ghost limit_of = { λ f. ⟦<MemFiler as BaseFiler>⟧.limit_of f.below };

    ghost is_sound = { λ f. f.sound };

    ghost moved_of = { λ f. ⟦<MemFiler as BaseFiler>⟧.moved_of f.below };

    ghost may_leave = { λ f s. ⟦<MemFiler as BaseFiler>⟧.may_leave f.below s };

    ghost moment = { λ f. ⟦<MemFiler as BaseFiler>⟧.moment f.below };

    ghost left_since = { λ f t n s. ⟦<MemFiler as BaseFiler>⟧.left_since f.below t n s };

    ghost floor = { 0 };

    fn size(&self) -> u64 {
        self.below.size()
    }

    fn limit(&self) -> u64 {
        self.below.limit()
    }

    fn sound(&self) -> bool {
        self.sound
    }

    fn moved(&self) -> u64 {
        self.below.moved()
    }

    fn read_at(&mut self, at: u64, out: &mut [u8]) -> Result<(), Trouble> {
        self.call()?;
        self.below.read_at(at, out)
    }

    fn commit(&mut self, batch: &Batch, shift: u64) -> Result<(), Trouble> {
        if batch.is_idle(shift, self.size()) {
            return self.below.commit(batch, shift);
        }
        if let Err(fault) = self.call() {
            self.sound = false;
            return Err(Trouble::from(fault));
        }
        self.below.commit(batch, shift)
    }

    ghost sizes = { λ f. (f.below.bytes_within, f.below.limit_within) };

    ghost told_size = { λ _ _. refl };

    ghost same_filer = { λ x y same. record {
      held = ap (λ v. Some v.items) same.0.0;
      size = ap
          (λ v. length v.items) same.0.0;
      limit = same.0.1;
      sound = same.1;
      moved = same.0.2;
    } };

    ghost sound_stops = { λ _ _. (refl, λ s is. is) };

    ghost counts_now = { λ f t s early left. mem_counts f.below.since f.below.bytes.items
        f.below.past (⟦<MemFiler as Shows>⟧.told f.below) t s f.below.risen early left };

    ghost only_now = { λ f n s left. mem_only f.below.since f.below.bytes.items f.below.past
        (⟦<MemFiler as Shows>⟧.told f.below) n s f.below.risen left };

    ghost same_stops = { λ x y same. mem_same x.below.since y.below.since x.below.bytes.items
        y.below.bytes.items x.below.past y.below.past _ _ same.0.3 (ap (λ v. v.items) same.0.0)
        same.0.4 same.0.5 };
}

/// Two levels with a change each, both ended.
static CALLS: [Step; 6] = [
    Step::Begin,
    Step::Write(1, "X"),
    Step::Begin,
    Step::Write(0, "YY"),
    Step::End,
    Step::End,
];

/// How many calls come before the one that fails, which step is refused, and what the filer below then holds.
static FAULTS: [(u64, usize, &str); 3] = [(0, 1, "YYc"), (1, 5, "abc"), (2, 6, "YYc")];

/// Takes the steps over a filer that fails, and gives the places of those that were refused with `wanted`.
fn refused(filer: &mut RollbackFiler<Failing>, wanted: Trouble) -> usize {
    let mut place = 6;
    for (i, step) in CALLS.iter().enumerate() {
        if take(filer, *step).err() == Some(wanted) {
            place = i;
        }
    }
    place
}

/// What the filer below holds, where no level is open.
fn stored(alloc: Global, filer: RollbackFiler<Failing>) -> Result<Vec<u8>, Trouble> {
    if filer.depth() > 0 {
        return Err(Trouble::Damaged);
    }
    let mut below = filer.into_below().below;
    let mut out = zeros(alloc, below.size() as usize)?;
    below.read_at(0, &mut out)?;
    Ok(out)
}

#[test]
fn faults(rt: HostRuntime) -> Result<(), Fail> {
    for fault in [DeviceFault::Failed, DeviceFault::NoMemory] {
        for row in FAULTS.iter() {
            let (left, place, wanted) = *row;
            let below = Failing {
                below: letters(rt.alloc())?,
                left: Some(left),
                fault,
                faults: 0,
                sound: true,
            };
            let mut filer = RollbackFiler::new(rt.alloc(), below);
            assert_eq!(rt; refused(&mut filer, Trouble::from(fault)), place);
            assert_eq!(rt; filer.sound(), place != 5);
            let _ = take(&mut filer, Step::Rollback);
            assert_eq!(rt; stored(rt.alloc(), filer)?.as_slice(), wanted.as_bytes());
        }
    }
    Ok(())
}
