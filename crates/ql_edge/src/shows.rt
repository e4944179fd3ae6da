//! What a program shows and warns.
ghost use Rattle.std.specs.Prelude.{◌≡◌, ℕ, ◌<◌, ◌≤◌, List, length, take, drop, Option, option_map, IfOk, OnOk, OnErr, IfSome, ◌↔◌, []};
ghost use Rattle.ql_edge.specs.Cause.{IsCaused};
ghost use Rattle.ql_edge.specs.Frame.{Keeps};
ghost use Rattle.ql_edge.specs.Told.{Told, with_shown, with_warned};

use crate::DeviceFault;

/// Where text goes: shown to the user, or warned.
///
/// Each layer that stands on a device implements it by passing the call down.
pub trait Shows {
    /// The bytes shown and the bytes warned, where they are told.
    ghost told: { Self → Told };

    /// How often a device has failed. It never falls.
    ghost faults: { Self → ℕ };

    /// What is left of the script, where it is told. Only a read of the script changes it.
    ghost left: { Self → Option (List ℕ) };

    /// The same beside what is shown and warned.
    ghost same: { Self → Self → Type 0 };

    /// What no call changes.
    ghost fixed: { Self → List ℕ };

    /// Shows a front of the piece, and answers its length: at least 1 where the piece is not empty.
    fn show(&mut self, piece: &[u8]) -> Result<u64, DeviceFault>
        ensures within { IfOk result (λ n. n ≤ length piece.now) }
        ensures some { IfOk result (λ n. 0 < length piece.now → 0 < n) }
        ensures shown { IfOk result (λ n. told self.new ≡ with_shown (take n piece.now)
            (told self.old)) }
        ensures refused { OnErr result (told self.new ≡ told self.old) }
        ensures same { same self.old self.new }
        ensures frame { Keeps left fixed self.old self.new }
        ensures cause { IsCaused result (faults self.old) (faults self.new) };

    /// Warns a front of the piece, and answers its length: at least 1 where the piece is not empty.
    fn warn(&mut self, piece: &[u8]) -> Result<u64, DeviceFault>
        ensures within { IfOk result (λ n. n ≤ length piece.now) }
        ensures some { IfOk result (λ n. 0 < length piece.now → 0 < n) }
        ensures warned { IfOk result (λ n. told self.new ≡ with_warned (take n piece.now)
            (told self.old)) }
        ensures refused { OnErr result (told self.new ≡ told self.old) }
        ensures same { same self.old self.new }
        ensures frame { Keeps left fixed self.old self.new }
        ensures cause { IsCaused result (faults self.old) (faults self.new) };

    ghost same_reflexive: { (x : Self) → same x x };

    ghost same_transitive: { (x y z : Self) → same x y → same y z → same x z };
}

/// Shows the whole text. After a refusal a front of it was shown, and not all of it.
#[tactic(auto, using(crate::proofs::Whole::with_shown_more))]
pub fn show_all<S: Shows>(to: &mut S, text: &[u8]) -> Result<(), DeviceFault>
    ensures shown { OnOk result (S.told to.new ≡ with_shown text.now (S.told to.old)) }
    ensures refused { OnErr result ((n : ℕ) × (n < length text.now)
        × (S.told to.new ≡ with_shown (take n text.now) (S.told to.old))) }
    ensures same { S.same to.old to.new }
    ensures frame { Keeps S.left S.fixed to.old to.new }
    ensures cause { IsCaused result (S.faults to.old) (S.faults to.new) }
{
    let mut at = 0;
    while at < text.len() {
        let taken = to.show(&text[at..])?;
        at += taken as usize;
    }
    Ok(())
}

/// Warns the whole text. After a refusal a front of it was warned, and not all of it.
#[tactic(auto, using(crate::proofs::Whole::with_warned_more))]
pub fn warn_all<S: Shows>(to: &mut S, text: &[u8]) -> Result<(), DeviceFault>
    ensures warned { OnOk result (S.told to.new ≡ with_warned text.now (S.told to.old)) }
    ensures refused { OnErr result ((n : ℕ) × (n < length text.now)
        × (S.told to.new ≡ with_warned (take n text.now) (S.told to.old))) }
    ensures same { S.same to.old to.new }
    ensures frame { Keeps S.left S.fixed to.old to.new }
    ensures cause { IsCaused result (S.faults to.old) (S.faults to.new) }
{
    let mut at = 0;
    while at < text.len() {
        let taken = to.warn(&text[at..])?;
        at += taken as usize;
    }
    Ok(())
}
