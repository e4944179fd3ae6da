//! Two files in memory, with a record of the device calls.
ghost use Rattle.std.specs.Prelude.{◌≡◌, ◌≤◌, true, [], ◌∷◌, ◌++◌, length, take, min, ◌+◌, ◌-◌, ◌^◌, IfOk, OnOk, OnErr};
ghost use Rattle.ql_edge.specs.Disk.{put, file_of, with_piece, with_cut};
ghost use Rattle.ql_edge.specs.Events.{on_file, on_both, steps_of, read_after, are_valid, image_of, pieces_of, AreImagesAt};
ghost use Rattle.ql_edge.specs.declared.event.Step.TheVariants as step;
ghost use Rattle.ql_edge.specs.declared.volume.Which.TheVariants as which;

use crate::image::{make_image, written_by};
use crate::{Bytes, Event, Events, Image, NoMemory, Step, Which};
use std::alloc::Global;

/// Two files in memory, as they began and as a read gives them, and the device calls between.
#[derive(Debug, Drop)]
pub struct MemDisk {
    first_data: Bytes,
    first_log: Bytes,
    data_bytes: Bytes,
    log_bytes: Bytes,
    events: Events,
    ghost data_read: { read_after (steps_of which.Data events) first_data ≡ data_bytes },
    ghost log_read: { read_after (steps_of which.Log events) first_log ≡ log_bytes },
    ghost data_valid: { are_valid (steps_of which.Data events) first_data ≡ true },
    ghost log_valid: { are_valid (steps_of which.Log events) first_log ≡ true },
}

/// A call that did something to one of the files.
fn event_on(which: Which, step: Step, shown: u64) -> Event
    ensures { result ≡ on_file which step shown }
{
    match which {
        Which::Data => Event {
            on_data: step,
            on_log: Step::Stayed,
            shown,
        },
        Which::Log => Event {
            on_data: Step::Stayed,
            on_log: step,
            shown,
        },
    }
}

/// Writes a piece to a file, and records it.
fn write_noted(
    alloc: Global,
    events: &mut Events,
    file: &mut Bytes,
    which: Which,
    at: u64,
    piece: &[u8],
    shown: u64,
) -> Result<(), NoMemory>
    requires { at ≤ length file.old }
    ensures noted { OnOk result (events.new
        ≡ events.old ++ on_file which (step.Wrote at piece.now) shown ∷ []) }
    ensures written { OnOk result (file.new ≡ put at piece.now file.old) }
    ensures events { OnErr result (events.new ≡ events.old) }
    ensures file { OnErr result (file.new ≡ file.old) }
{
    let copy = Bytes::from_slice(alloc, piece)?;
    let count = events.len();
    events.push(event_on(which, Step::Wrote { at, piece: copy }, shown))?;
    if file.put(at as usize, piece).is_err() {
        events.truncate(count);
        return Err(NoMemory);
    }
    Ok(())
}

impl MemDisk {
    ghost use Rattle.ql_edge.specs.MemDisk.{disk_files, disk_first, disk_events};

    /// Two files that hold these bytes, all of them stable.
    pub fn new(alloc: Global, data_bytes: Bytes, log_bytes: Bytes) -> Result<MemDisk, NoMemory>
        ensures files { IfOk result (λ d. disk_files d ≡ (data_bytes, log_bytes)) }
        ensures first { IfOk result (λ d. disk_first d ≡ (data_bytes, log_bytes)) }
        ensures events { IfOk result (λ d. disk_events d ≡ []) }
    {
        Ok(MemDisk {
            first_data: Bytes::from_slice(alloc, data_bytes.as_slice())?,
            first_log: Bytes::from_slice(alloc, log_bytes.as_slice())?,
            data_bytes,
            log_bytes,
            events: Events::new(alloc),
        })
    }

    /// How many device calls there were so far.
    pub fn moments(&self) -> u64
        ensures { result ≡ length (disk_events self.now) }
    {
        self.events.len() as u64
    }

    /// How many bytes the pieces have that were written so far, up to the end of the type.
    pub fn written(&self) -> u64
        ensures { result ≡ min (pieces_of (disk_events self.now)) (2 ^ 64 - 1) }
    {
        written_by(self.events.as_slice())
    }

    /// Two files as a stop after so many calls may leave them, and how many bytes were shown by then.
    ///
    /// Each file is as made stable last for pick 0, as read for pick 1, and as read with each byte complemented that was
    /// written since it was made stable for pick 2.
    #[tactic(auto, using(crate::proofs::Plays::front_valid))]
    pub fn image(&self, alloc: Global, moment: u64, pick: u8) -> Result<Image, NoMemory>
        requires moment { moment ≤ length (disk_events self.now) }
        requires pick { pick ≤ 2 }
        ensures on_data { IfOk result (λ i. i.data_bytes
            ≡ image_of pick (steps_of which.Data (take moment (disk_events self.now)))
            (disk_first self.now).0) }
        ensures on_log { IfOk result (λ i. i.log_bytes
            ≡ image_of pick (steps_of which.Log (take moment (disk_events self.now)))
            (disk_first self.now).1) }
        ensures left { IfOk result (λ i. AreImagesAt (disk_first self.now) (disk_events self.now)
            moment i.shown (i.data_bytes, i.log_bytes)) }
    {
        let events = &self.events.as_slice()[..moment as usize];
        make_image(alloc, &self.first_data, &self.first_log, events, pick)
    }

    /// One of the files as a read gives it.
    pub fn file(&self, which: Which) -> &Bytes
        ensures { result.now ≡ file_of which (disk_files self.now) }
    {
        match which {
            Which::Data => &self.data_bytes,
            Which::Log => &self.log_bytes,
        }
    }

    /// Records a call that did nothing to the files.
    pub fn note(&mut self, shown: u64) -> Result<(), NoMemory>
        ensures noted { OnOk result (disk_events self.new
            ≡ disk_events self.old ++ on_both step.Stayed shown ∷ []) }
        ensures files { disk_files self.new ≡ disk_files self.old }
        ensures first { disk_first self.new ≡ disk_first self.old }
        ensures refused { OnErr result (disk_events self.new ≡ disk_events self.old) }
    {
        self.events.push(Event {
            on_data: Step::Stayed,
            on_log: Step::Stayed,
            shown,
        })?;
        Ok(())
    }

    /// Records that both files were made stable.
    pub fn sync_both(&mut self, shown: u64) -> Result<(), NoMemory>
        ensures noted { OnOk result (disk_events self.new
            ≡ disk_events self.old ++ on_both step.Synced shown ∷ []) }
        ensures files { disk_files self.new ≡ disk_files self.old }
        ensures first { disk_first self.new ≡ disk_first self.old }
        ensures refused { OnErr result (disk_events self.new ≡ disk_events self.old) }
    {
        self.events.push(Event {
            on_data: Step::Synced,
            on_log: Step::Synced,
            shown,
        })?;
        Ok(())
    }

    /// Records that a file was made stable.
    pub fn sync(&mut self, which: Which, shown: u64) -> Result<(), NoMemory>
        ensures noted { OnOk result (disk_events self.new
            ≡ disk_events self.old ++ on_file which step.Synced shown ∷ []) }
        ensures files { disk_files self.new ≡ disk_files self.old }
        ensures first { disk_first self.new ≡ disk_first self.old }
        ensures refused { OnErr result (disk_events self.new ≡ disk_events self.old) }
    {
        match which {
            Which::Data => self.events.push(Event {
                on_data: Step::Synced,
                on_log: Step::Stayed,
                shown,
            })?,
            Which::Log => self.events.push(Event {
                on_data: Step::Stayed,
                on_log: Step::Synced,
                shown,
            })?,
        }
        Ok(())
    }

    /// Writes a piece to a file, and records it.
    pub fn write(
        &mut self,
        alloc: Global,
        which: Which,
        at: u64,
        piece: &[u8],
        shown: u64,
    ) -> Result<(), NoMemory>
        requires { at ≤ length (file_of which (disk_files self.old)) }
        ensures noted { OnOk result (disk_events self.new
            ≡ disk_events self.old ++ on_file which (step.Wrote at piece.now) shown ∷ []) }
        ensures written { OnOk result (disk_files self.new
            ≡ with_piece which at piece.now (disk_files self.old)) }
        ensures first { disk_first self.new ≡ disk_first self.old }
        ensures refused { OnErr result (disk_events self.new ≡ disk_events self.old) }
        ensures files { OnErr result (disk_files self.new ≡ disk_files self.old) }
    {
        match which {
            Which::Data => {
                let file = &mut self.data_bytes;
                write_noted(alloc, &mut self.events, file, Which::Data, at, piece, shown)?;
            }
            Which::Log => {
                let file = &mut self.log_bytes;
                write_noted(alloc, &mut self.events, file, Which::Log, at, piece, shown)?;
            }
        }
        Ok(())
    }

    /// Cuts a file to a length, and records it.
    pub fn cut(&mut self, which: Which, to: u64, shown: u64) -> Result<(), NoMemory>
        requires { to ≤ length (file_of which (disk_files self.old)) }
        ensures noted { OnOk result (disk_events self.new
            ≡ disk_events self.old ++ on_file which (step.Cut to) shown ∷ []) }
        ensures cut { OnOk result (disk_files self.new ≡ with_cut which to (disk_files self.old)) }
        ensures first { disk_first self.new ≡ disk_first self.old }
        ensures refused { OnErr result (disk_events self.new ≡ disk_events self.old) }
        ensures files { OnErr result (disk_files self.new ≡ disk_files self.old) }
    {
        match which {
            Which::Data => {
                self.events.push(Event {
                    on_data: Step::Cut { to },
                    on_log: Step::Stayed,
                    shown,
                })?;
                self.data_bytes.truncate(to as usize);
            }
            Which::Log => {
                self.events.push(Event {
                    on_data: Step::Stayed,
                    on_log: Step::Cut { to },
                    shown,
                })?;
                self.log_bytes.truncate(to as usize);
            }
        }
        Ok(())
    }
}
