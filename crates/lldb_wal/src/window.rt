//! A log that is read in parts of bounded size.
ghost use Rattle.std.specs.Prelude.{◌≡◌, ◌+◌, ◌-◌, ◌≤◌, [], length, drop, min, IsSome, IfSome, OnOk};
ghost use Rattle.ql_edge.specs.Cause.{IsCaused};
ghost use Rattle.ql_edge.specs.Frame.{Stays};
ghost use Rattle.lldb_wal.specs.Parts.{IsPart};

use ql_edge::{DeviceFault, NoMemory, Volume, Which};
use std::alloc::Global;

/// How many bytes a longest piece takes in a log.
const LONGEST_FIELDS: u64 = 65_548;

/// How many bytes are read at a time.
const PART: u64 = 1 << 18;

/// A part of a log in memory.
#[derive(Debug, Drop)]
pub(crate) struct Window {
    bytes: Vec<u8>,
    /// Where the part begins in the log.
    from: u64,
    /// The length of the log.
    total: u64,
    ghost inside: { from + length bytes.items ≤ total },
}

impl Window {
    /// A part without bytes.
    pub fn new(alloc: Global, from: u64, total: u64) -> Window
        requires { from ≤ total }
        ensures bytes { result.bytes.items ≡ [] }
        ensures from { result.from ≡ from }
        ensures total { result.total ≡ total }
    {
        Window {
            bytes: Vec::new(alloc),
            from,
            total,
        }
    }

    /// Sees that a piece that stands at a place is in memory, or all that stands there: where that is not so, the part from that
    /// place on is read. After a refusal the window is of no use.
    pub fn fill<V: Volume>(&mut self, volume: &mut V, at: u64) -> Result<(), DeviceFault>
        requires attached { IsSome (V.attached volume.old) }
        requires from { self.old.from ≤ at }
        requires within { at ≤ self.old.from + length self.old.bytes.items }
        requires total { IfSome (V.files volume.old) (λ f. length f.1 ≡ self.old.total) }
        requires part { IfSome (V.files volume.old)
            (λ f. IsPart f.1 self.old.bytes.items self.old.from) }
        ensures total { self.new.total ≡ self.old.total }
        ensures from { OnOk result (self.new.from ≤ at) }
        ensures within { OnOk result (at ≤ self.new.from + length self.new.bytes.items) }
        ensures enough { OnOk result (min (at + 65548) self.new.total
            ≤ self.new.from + length self.new.bytes.items) }
        ensures part { OnOk result (IfSome (V.files volume.old)
            (λ f. IsPart f.1 self.new.bytes.items self.new.from)) }
        ensures files { V.files volume.new ≡ V.files volume.old }
        ensures same { V.same volume.old volume.new }
        ensures frame { Stays V.told V.left V.fixed V.attached volume.old volume.new }
        ensures cause { IsCaused result (V.faults volume.old) (V.faults volume.new) }
    {
        let end = self.from + self.bytes.len() as u64;
        if end < self.total && end - at < LONGEST_FIELDS {
            self.resize((self.total - at).min(PART))?;
            self.from = at;
            volume.read_at(Which::Log, at, &mut self.bytes)?;
        }
        Ok(())
    }

    /// Makes room for so many bytes.
    fn resize(&mut self, count: u64) -> Result<(), NoMemory>
        requires { self.old.from + count ≤ self.old.total }
        ensures bytes { OnOk result (length self.new.bytes.items ≡ count) }
        ensures from { self.new.from ≡ self.old.from }
        ensures total { self.new.total ≡ self.old.total }
    {
        self.bytes.resize(count as usize, 0)?;
        Ok(())
    }

    /// What is in memory of the log from a place on.
    pub fn rest(&self, at: u64) -> &[u8]
        requires from { self.now.from ≤ at }
        requires within { at ≤ self.now.from + length self.now.bytes.items }
        ensures { result.now ≡ drop (at - self.now.from) self.now.bytes.items }
    {
        let (_, rest) = self.bytes.split_at((at - self.from) as usize);
        rest
    }
}
