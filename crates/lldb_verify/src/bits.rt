//! One bit for each number below a count.
ghost use Rattle.std.specs.Prelude.{◌≡◌, ℕ, ◌<◌, ◌≤◌, ◌+◌, ◌/◌, false, IfOk};
ghost use Rattle.lldb_verify.specs.Marks.{bit_in, is_set, with_mark};

use ql_edge::NoMemory;
use std::alloc::Global;
use std::marker::Model;

/// Bits by number, eight to a byte. A verifier takes one for each atom as its scratch.
#[derive(Debug, Drop)]
pub struct Bits {
    count: u64,
    bytes: Vec<u8>,
}

impl Model for Bits {
    ghost use Rattle.std.specs.Prelude.{◌≡◌, ◌+◌, ◌/◌, length};
    ghost use Rattle.lldb_verify.specs.Marks.{Marks};

    ghost Value = { Marks };

    ghost view = { λ b. record { count = b.count; bytes = b.bytes.items } };

    ghost invariant = { λ b. length b.bytes.items ≡ (b.count + 7) / 8 };
}

impl Bits {
    /// So many bits, none of them set.
    pub fn new(alloc: Global, count: u64) -> Result<Bits, NoMemory>
        ensures count { IfOk result (λ bits. bits.count ≡ count) }
        ensures clear { IfOk result (λ bits. (i : ℕ) → is_set bits i ≡ false) }
    {
        let mut bytes = Vec::new(alloc);
        bytes.resize(count.div_ceil(8) as usize, 0)?;
        Ok(Bits { count, bytes })
    }

    /// How many bits there are.
    pub fn count(&self) -> u64
        ensures { result ≡ self.now.count }
    {
        self.count
    }

    /// How many bytes the bits take.
    pub fn bytes(&self) -> u64
        ensures { result ≤ self.now.count / 8 + 1 }
    {
        self.bytes.len() as u64
    }

    pub fn get(&self, at: u64) -> bool
        requires { at < self.now.count }
        ensures { result ≡ is_set self.now at }
    {
        self.bytes[(at / 8) as usize] >> (at % 8) & 1 == 1
    }

    #[tactic(auto, using(crate::proofs::Marked::mark_set))]
    pub fn set(&mut self, at: u64, value: bool)
        requires { at < self.old.count }
        ensures count { self.new.count ≡ self.old.count }
        ensures set { (i : ℕ) → is_set self.new i ≡ with_mark (is_set self.old) at value i }
    {
        let place = (at / 8) as usize;
        self.bytes[place] = with_bit(self.bytes[place], at % 8, value);
    }

    /// Unsets all bits.
    pub fn clear(&mut self)
        ensures count { self.new.count ≡ self.old.count }
        ensures clear { (i : ℕ) → is_set self.new i ≡ false }
    {
        self.bytes.fill(0);
    }
}

/// A byte of which one bit is another.
#[tactic(auto, using(crate::proofs::Marked::bit_set, crate::proofs::Marked::bit_unset))]
fn with_bit(byte: u8, at: u64, value: bool) -> u8
    requires { at < 8 }
    ensures { (i : ℕ) → i < 8 → bit_in result i ≡ with_mark (bit_in byte) at value i }
{
    if value {
        byte | 1 << at
    } else {
        byte & !(1 << at)
    }
}
