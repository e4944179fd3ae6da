//! Contents that were saved.
ghost use Rattle.std.specs.Prelude.{◌≡◌, [], ◌∷◌, length, List, OnOk, OnErr, MatchOption};

use ql_edge::{Bytes, NoMemory};
use std::alloc::Global;
use std::marker::Model;

/// Byte lists, the last first.
#[derive(Debug, Drop)]
pub(crate) struct Stack {
    copies: Vec<Bytes>,
}

impl Model for Stack {
    ghost use Rattle.std.specs.Prelude.{List, ℕ, reverse};

    ghost Value = { List (List ℕ) };

    ghost view = { λ s. reverse s.copies.items };
}

impl Stack {
    pub fn new(alloc: Global) -> Stack
        ensures { result ≡ [] }
    {
        Stack {
            copies: Vec::new(alloc),
        }
    }

    pub fn len(&self) -> usize
        ensures { result ≡ length self.now }
    {
        self.copies.len()
    }

    #[tactic(auto, using(crate::proofs::Stacks::pushed))]
    pub fn push(&mut self, copy: Bytes) -> Result<(), NoMemory>
        ensures ok { OnOk result (self.new ≡ copy ∷ self.old) }
        ensures err { OnErr result (self.new ≡ self.old) }
    {
        self.copies.push(copy)?;
        Ok(())
    }

    #[tactic(auto, using(crate::proofs::Stacks::pushed))]
    pub fn pop(&mut self) -> Option<Bytes>
        ensures { MatchOption result ((self.old ≡ []) × (self.new ≡ []))
            (λ top. self.old ≡ top ∷ self.new) }
    {
        let copy = self.copies.pop()?;
        Some(copy)
    }
}
