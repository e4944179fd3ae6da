//! A log with a bound of its own.
ghost use Rattle.std.specs.Prelude.{◌≡◌, [], Some};

use lldb_verify::{FaultLog, Finding};
use ql_edge::{Items, NoMemory};
use std::alloc::Global;

/// A log that takes so many findings.
#[derive(Drop)]
pub(crate) struct BoundedLog {
    findings: Items<Finding>,
    most: u64,
}

impl BoundedLog {
    /// Nothing was told.
    pub fn new(alloc: Global, most: u64) -> BoundedLog
        ensures list { ⟦<BoundedLog as FaultLog>⟧.list result ≡ [] }
        ensures bound { ⟦<BoundedLog as FaultLog>⟧.bound result ≡ Some most }
    {
        BoundedLog {
            findings: Items::new(alloc),
            most,
        }
    }
}

impl FaultLog for BoundedLog {
    ghost list = { λ log. log.findings };

    ghost bound = { λ log. Some log.most };

    fn tell(&mut self, finding: &Finding) -> Result<bool, NoMemory> {
        self.findings.push(*finding)?;
        Ok((self.findings.len() as u64) < self.most)
    }

    fn told(&self) -> u64 {
        self.findings.len() as u64
    }

    fn at(&self, index: u64) -> Option<Finding> {
        if index < self.findings.len() as u64 {
            Some(self.findings.as_slice()[index as usize])
        } else {
            None
        }
    }
}
