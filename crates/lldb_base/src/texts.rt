//! What was shown and warned, kept in memory.
ghost use Rattle.std.specs.Prelude.{◌≡◌, ◌≤◌, [], Some, None, refl};
ghost use Rattle.lldb_base.specs.Shown.{count_shown, shown_again, shown_more};

use ql_edge::{Bytes, DeviceFault, Shows};
use std::alloc::Global;

/// What a layer in memory was shown and warned. It never fails.
#[derive(Debug, Drop)]
pub struct Texts {
    shown: Bytes,
    warned: Bytes,
}

impl Texts {
    pub fn new(alloc: Global) -> Texts
        ensures { ⟦<Texts as Shows>⟧.told result ≡ Some ([], []) }
    {
        Texts {
            shown: Bytes::new(alloc),
            warned: Bytes::new(alloc),
        }
    }

    /// How many bytes were shown.
    pub fn shown(&self) -> u64
        ensures { result ≡ count_shown (⟦<Texts as Shows>⟧.told self.now) }
    {
        self.shown.len() as u64
    }
}

impl Shows for Texts {
    ghost told = { λ t. Some (t.shown, t.warned) };

    ghost faults = { λ _. 0 };

    ghost left = { λ _. None };

    ghost same = { λ x y. count_shown (Some (x.shown, x.warned)) ≤ count_shown
        (Some (y.shown, y.warned)) };

    ghost fixed = { λ _. [] };

    ghost same_reflexive = { λ x. shown_again (Some (x.shown, x.warned)) };

    ghost same_transitive = { λ x y z p q. shown_more (Some (x.shown, x.warned))
        (Some (y.shown, y.warned)) (Some (z.shown, z.warned)) p q };

    fn show(&mut self, piece: &[u8]) -> Result<u64, DeviceFault> {
        self.shown.extend(piece)?;
        Ok(piece.len() as u64)
    }

    fn warn(&mut self, piece: &[u8]) -> Result<u64, DeviceFault> {
        self.warned.extend(piece)?;
        Ok(piece.len() as u64)
    }
}
