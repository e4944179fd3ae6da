//! Where findings are told.
ghost use Rattle.std.specs.Prelude.{◌≡◌, ℕ, IsTrue, List, [], ◌∷◌, ◌++◌, length, slice_get, Option, Some, None, IfOk, OnOk, OnErr};
ghost use Rattle.lldb_verify.specs.Logs.{has_room, kept_one};
ghost use Rattle.lldb_verify.specs.declared.finding.Finding.{Finding};

use crate::Finding;
use ql_edge::{Items, NoMemory};
use std::alloc::Global;

/// A list of findings that may have a bound. Whoever wants to know what is found hands one in, boxed.
pub trait FaultLog: Drop {
    /// What was told, the first first.
    ghost list: { Self → List Finding };

    /// How many findings it takes, where that is bounded.
    ghost bound: { Self → Option ℕ };

    /// Takes one more finding, and answers whether there is room for another.
    fn tell(&mut self, finding: &Finding) -> Result<bool, NoMemory>
        requires room { IsTrue (has_room (bound self.old) (length (list self.old))) }
        ensures told { OnOk result (list self.new ≡ list self.old ++ finding.now ∷ []) }
        ensures kept { OnErr result (list self.new ≡ list self.old) }
        ensures bound { bound self.new ≡ bound self.old }
        ensures answer { IfOk result (λ more. more ≡ has_room (bound self.new)
            (length (list self.new))) };

    /// How many findings were told.
    fn told(&self) -> u64
        ensures { result ≡ length (list self.now) };

    /// A finding by its number, from 0 on.
    fn at(&self, index: u64) -> Option<Finding>
        ensures { result ≡ slice_get (list self.now) index };
}

/// A log that takes all findings.
#[derive(Debug, Drop)]
pub struct AllLog {
    findings: Items<Finding>,
}

impl AllLog {
    /// Nothing was told. It takes no memory.
    pub fn new(alloc: Global) -> AllLog
        ensures list { ⟦<AllLog as FaultLog>⟧.list result ≡ [] }
        ensures bound { ⟦<AllLog as FaultLog>⟧.bound result ≡ None }
    {
        AllLog {
            findings: Items::new(alloc),
        }
    }
}

impl FaultLog for AllLog {
    ghost list = { λ log. log.findings };

    ghost bound = { λ _. None };

    fn tell(&mut self, finding: &Finding) -> Result<bool, NoMemory> {
        self.findings.push(*finding)?;
        Ok(true)
    }

    fn told(&self) -> u64 {
        self.findings.len() as u64
    }

    fn at(&self, index: u64) -> Option<Finding> {
        if index < self.findings.len() as u64 {
            Some(self.findings.as_slice()[index as usize])
        } else {
            None
        }
    }
}

/// A log that takes the first finding alone. It takes no memory.
#[derive(Debug, Drop)]
pub struct FirstLog {
    first: Option<Finding>,
}

impl FirstLog {
    /// Nothing was told.
    pub fn new() -> FirstLog
        ensures list { ⟦<FirstLog as FaultLog>⟧.list result ≡ [] }
        ensures bound { ⟦<FirstLog as FaultLog>⟧.bound result ≡ Some 1 }
    {
        FirstLog { first: None }
    }
}

impl FaultLog for FirstLog {
    ghost list = { λ log. kept_one log.first };

    ghost bound = { λ _. Some 1 };

    fn tell(&mut self, finding: &Finding) -> Result<bool, NoMemory> {
        self.first = Some(*finding);
        Ok(false)
    }

    fn told(&self) -> u64 {
        match self.first {
            Some(_) => 1,
            None => 0,
        }
    }

    fn at(&self, index: u64) -> Option<Finding> {
        match self.first {
            Some(finding) => { if index == 0 { Some(finding) } else { None } }
            None => None,
        }
    }
}
