//! The machine that the program was started on.
ghost use Rattle.std.specs.Prelude.{◌≡◌, ◌<◌, ◌≤◌, [], length, None, IfSome, IfErr, refl};
ghost use Rattle.std.proofs.Common.{◌∙◌};
ghost use Rattle.ql_edge.specs.Cause.{Rose, IsCaused};
ghost use Rattle.ql_edge.specs.HostMachine.{name_of, untold};

use crate::host_files::HostFiles;
use crate::{Bytes, DeviceFault, Machine, NoMemory, Shows, Volume, Which};
use std::alloc::Global;
use std::io::{self, ErrorKind, Read, Write};

/// The machine that the program was started on: its standard streams, and two files with a lock on the data file.
///
/// It tells nothing of what they hold, so contracts speak of it only by its count of faults and the attached name.
#[derive(Drop)]
pub struct HostMachine {
    rt: HostRuntime,
    files: Option<HostFiles>,
    faults: u64,
}

/// The path of the log beside a data file.
fn log_path(alloc: Global, path: &str) -> Result<String, NoMemory> {
    let mut log = String::new(alloc);
    log.push_str(path)?;
    log.push_str(".log")?;
    Ok(log)
}

/// Writes a front of the piece, again where a signal interrupts it. Answers its length, or `None` after a failure.
fn write_some<W: Write>(stream: &mut W, piece: &[u8]) -> Option<usize>
    ensures within { IfSome result (λ n. n ≤ length piece.now) }
    ensures some { IfSome result (λ n. 0 < length piece.now → 0 < n) }
{
    if piece.is_empty() {
        return Some(0);
    }
    for _ in 0..u64::MAX {
        match stream.write(piece) {
            Ok(0) => return None,
            Ok(written) => return Some(written),
            Err(error) => {
                if error.kind() != ErrorKind::Interrupted {
                    return None;
                }
            }
        }
    }
    None
}

impl HostMachine {
    pub fn new(rt: HostRuntime) -> HostMachine
        ensures faults { ⟦<HostMachine as Shows>⟧.faults result ≡ 0 }
        ensures attached { ⟦<HostMachine as Volume>⟧.attached result ≡ None }
    {
        HostMachine {
            rt,
            files: None,
            faults: 0,
        }
    }

    /// What a call on the files answered. A failure is counted.
    fn settle<T: Drop>(&mut self, done: io::Result<T>) -> Result<T, DeviceFault>
        ensures name { name_of self.new ≡ name_of self.old }
        ensures device { IfErr result (λ fault. fault ≡ DeviceFault.Failed) }
        ensures cause { IsCaused result self.old.faults self.new.faults }
    {
        match done {
            Ok(value) => Ok(value),
            Err(_) => Err(self.fail()),
        }
    }

    /// Counts a failure.
    fn fail(&mut self) -> DeviceFault
        ensures fault { result ≡ DeviceFault.Failed }
        ensures rose { Rose self.old.faults self.new.faults }
        ensures name { name_of self.new ≡ name_of self.old }
    {
        self.faults = self.faults.saturating_add(1);
        DeviceFault::Failed
    }
}

impl Shows for HostMachine {
    ghost told = { λ _. None };

    ghost faults = { λ machine. machine.faults };

    ghost left = { λ _. None };

    ghost same = { λ x y. name_of y ≡ name_of x };

    ghost fixed = { λ _. [] };

    ghost same_reflexive = { λ _. refl };

    ghost same_transitive = { λ _ _ _ p q. q ∙ p };

    fn show(&mut self, piece: &[u8]) -> Result<u64, DeviceFault> {
        match write_some(&mut self.rt.stdout(), piece) {
            Some(written) => Ok(written as u64),
            None => Err(self.fail()),
        }
    }

    fn warn(&mut self, piece: &[u8]) -> Result<u64, DeviceFault> {
        match write_some(&mut self.rt.stderr(), piece) {
            Some(written) => Ok(written as u64),
            None => Err(self.fail()),
        }
    }
}

impl Volume for HostMachine {
    ghost files = { λ _. None };

    ghost may_leave = { λ _ _. ⊥ };

    ghost moment = { λ _. 0 };

    ghost left_since = { λ _ _ _ _. ⊥ };

    ghost attached = { name_of };

    fn attach(&mut self, alloc: Global, name: &str) -> Result<(), DeviceFault> {
        let log = log_path(alloc, name)?;
        let copy = Bytes::from_slice(alloc, name.as_bytes())?;
        match HostFiles::open(&self.rt, copy, name, log.as_str()) {
            Ok(files) => {
                self.files = Some(files);
                Ok(())
            }
            Err(_) => Err(self.fail()),
        }
    }

    fn length(&mut self, which: Which) -> Result<u64, DeviceFault> {
        let done = match &self.files {
            Some(files) => files.length(which),
            None => Err(ErrorKind::NotFound.into()),
        };
        self.settle(done)
    }

    fn read_at(&mut self, which: Which, at: u64, out: &mut [u8]) -> Result<(), DeviceFault> {
        let done = match &self.files {
            Some(files) => files.read_at(which, at, out),
            None => Err(ErrorKind::NotFound.into()),
        };
        self.settle(done)
    }

    fn write_at(&mut self, which: Which, at: u64, piece: &[u8]) -> Result<(), DeviceFault> {
        let done = match &self.files {
            Some(files) => files.write_at(which, at, piece),
            None => Err(ErrorKind::NotFound.into()),
        };
        self.settle(done)
    }

    fn cut(&mut self, which: Which, to: u64) -> Result<(), DeviceFault> {
        let done = match &self.files {
            Some(files) => files.cut(which, to),
            None => Err(ErrorKind::NotFound.into()),
        };
        self.settle(done)
    }

    fn sync(&mut self, which: Which) -> Result<(), DeviceFault> {
        let done = match &self.files {
            Some(files) => files.sync(which),
            None => Err(ErrorKind::NotFound.into()),
        };
        self.settle(done)
    }

    ghost reads_count = { λ _. tt };

    ghost counts_now = { λ _ _ _ _ left. absurd left };

    ghost only_now = { λ _ _ _ left. absurd left };

    ghost same_volume = { λ _ _ same. (same, untold) };
}

impl Machine for HostMachine {
    fn read(&mut self, out: &mut [u8]) -> Result<u64, DeviceFault> {
        for _ in 0..u64::MAX {
            match self.rt.stdin().read(out) {
                Ok(taken) => return Ok(taken as u64),
                Err(error) if error.kind() == ErrorKind::Interrupted => {}
                Err(_) => break,
            }
        }
        Err(self.fail())
    }
}
