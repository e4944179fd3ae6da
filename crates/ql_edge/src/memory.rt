//! A machine in memory, for tests.
ghost use Rattle.std.specs.Prelude.{◌≡◌, ◌⊎◌, ◌↔◌, ℕ, ◌+◌, ◌-◌, ◌^◌, ◌<◌, ◌≤◌, List, [], ◌∷◌, ◌++◌, length, min, take, drop, true, option_map, Some, None, IsSome, IsSomeAnd, Err, Contains, IfOk, IfSome, OnOk, OnErr};
ghost use Rattle.ql_edge.specs.Cause.{IsCaused};
ghost use Rattle.ql_edge.specs.Disk.{file_of, other_of, with_piece, with_cut, Torn, Cut, OnFile};
ghost use Rattle.ql_edge.specs.Events.{on_both, shown_after};
ghost use Rattle.ql_edge.specs.Frame.{Keeps, Stays};
ghost use Rattle.ql_edge.specs.MemDisk.{disk_files, disk_first, disk_events};
ghost use Rattle.ql_edge.specs.Stops.{Leaves, After, Adds, HasShown};
ghost use Rattle.ql_edge.specs.Told.{with_shown, with_warned};
ghost use Rattle.ql_edge.specs.declared.event.Step.TheVariants as step;
ghost use Rattle.ql_edge.specs.declared.fault.DeviceFault.TheVariants as device;

use crate::{Bytes, DeviceFault, Image, Machine, MemDisk, NoMemory, Numbers, Shows, Volume, Which};
use std::alloc::Global;

/// Which device calls a `MemMachine` refuses, and how it cuts what it is asked for into pieces.
#[derive(Debug, Drop)]
pub struct MemPlan {
    /// The numbers of the device calls that answer `Failed`, counted from 0 over all calls.
    pub fails: Numbers,
    /// How many bytes one read gives at most. At least 1.
    pub read_most: u64,
    /// How many bytes are shown in all, after which a show answers `Failed`.
    pub show_total: Option<u64>,
}

/// A machine in memory, for tests: it tells everything, and fails where its plan says so.
///
/// It keeps each device call, so it can tell what a stop after any of them may have left.
#[derive(Debug, Drop)]
pub struct MemMachine {
    alloc: Global,
    disk: MemDisk,
    /// The attached name.
    name: Option<Bytes>,
    script: Bytes,
    /// How many bytes of the script were taken.
    taken: usize,
    shown: Bytes,
    warned: Bytes,
    plan: MemPlan,
    faults: u64,
    ghost gives_some: { 0 < plan.read_most },
    ghost within: { taken ≤ length script },
    ghost counted: { shown_after 0 disk.events ≡ length shown },
}

impl MemMachine {
    ghost use Rattle.ql_edge.specs.Events.{image_of, pieces_of, steps_of, AreImagesAt};
    ghost use Rattle.ql_edge.specs.MemMachine.{files_of, first_of, events_of, plan_of, calls_of, calls_after_fault, room_of, IsRefused, IsReshown, IsAlike, IsCausedFault};
    ghost use Rattle.ql_edge.specs.declared.volume.Which.TheVariants as which;

    /// A machine with two files, both stored, and a script. Nothing is shown or warned, and no call has failed.
    pub fn new(
        alloc: Global,
        data_bytes: Bytes,
        log_bytes: Bytes,
        script: Bytes,
        plan: MemPlan,
    ) -> Result<MemMachine, NoMemory>
        requires { 0 < plan.read_most }
        ensures told { IfOk result (λ m. ⟦<MemMachine as Shows>⟧.told m ≡ Some ([], [])) }
        ensures left { IfOk result (λ m. ⟦<MemMachine as Shows>⟧.left m ≡ Some script) }
        ensures faults { IfOk result (λ m. ⟦<MemMachine as Shows>⟧.faults m ≡ 0) }
        ensures files { IfOk result (λ m. files_of m ≡ (data_bytes, log_bytes)) }
        ensures plan { IfOk result (λ m. plan_of m ≡ plan) }
        ensures calls { IfOk result (λ m. calls_of m ≡ 0) }
        ensures first { IfOk result (λ m. first_of m ≡ (data_bytes, log_bytes)) }
        ensures stable { IfOk result (λ m. Leaves (⟦<MemMachine as Volume>⟧.may_leave m)
            (λ c. c ≡ (data_bytes, log_bytes))) }
        ensures attached { IfOk result (λ m. ⟦<MemMachine as Volume>⟧.attached m ≡ None) }
    {
        Ok(MemMachine {
            alloc,
            disk: MemDisk::new(alloc, data_bytes, log_bytes)?,
            name: None,
            script,
            taken: 0,
            shown: Bytes::new(alloc),
            warned: Bytes::new(alloc),
            plan,
            faults: 0,
        })
    }

    /// The data file as a read gives it.
    pub fn data_bytes(&self) -> &Bytes
        ensures { result.now ≡ (files_of self.now).0 }
    {
        self.disk.file(Which::Data)
    }

    /// The log file as a read gives it.
    pub fn log_bytes(&self) -> &Bytes
        ensures { result.now ≡ (files_of self.now).1 }
    {
        self.disk.file(Which::Log)
    }

    /// All that was shown.
    pub fn shown(&self) -> &Bytes
        ensures { IsSomeAnd (⟦<MemMachine as Shows>⟧.told self.now) (λ told. told.0 ≡ result.now) }
    {
        &self.shown
    }

    /// All that was warned.
    pub fn warned(&self) -> &Bytes
        ensures { IsSomeAnd (⟦<MemMachine as Shows>⟧.told self.now) (λ told. told.1 ≡ result.now) }
    {
        &self.warned
    }

    /// How many device calls there were so far.
    pub fn moments(&self) -> u64
        ensures count { result ≡ calls_of self.now }
        ensures moment { result ≡ ⟦<MemMachine as Volume>⟧.moment self.now }
    {
        self.disk.moments()
    }

    /// How many bytes the pieces have that were written so far, up to the end of the type.
    pub fn written(&self) -> u64
        ensures { result ≡ min (pieces_of (events_of self.now)) (2 ^ 64 - 1) }
    {
        self.disk.written()
    }

    /// Two files as a stop after so many calls may leave them, and how many bytes were shown by then.
    ///
    /// Each file is as made stable last for pick 0, as read for pick 1, and as read with each byte complemented that was
    /// written since it was made stable for pick 2.
    pub fn image(&self, alloc: Global, moment: u64, pick: u8) -> Result<Image, NoMemory>
        requires moment { moment ≤ calls_of self.now }
        requires pick { pick ≤ 2 }
        ensures on_data { IfOk result (λ i. i.data_bytes
            ≡ image_of pick (steps_of which.Data (take moment (events_of self.now)))
            (first_of self.now).0) }
        ensures on_log { IfOk result (λ i. i.log_bytes
            ≡ image_of pick (steps_of which.Log (take moment (events_of self.now)))
            (first_of self.now).1) }
        ensures left { IfOk result (λ i. AreImagesAt (first_of self.now) (events_of self.now)
            moment i.shown (i.data_bytes, i.log_bytes)) }
        ensures since { IfOk result (λ i. ⟦<MemMachine as Volume>⟧.left_since self.now moment i.shown
            (i.data_bytes, i.log_bytes)) }
    {
        self.disk.image(alloc, moment, pick)
    }

    /// Whether the plan refuses the next call.
    fn refuses(&self) -> bool
        ensures refused { (result ≡ true) ↔ IsRefused self.now }
    {
        self.plan.fails.as_slice().contains(&self.moments())
    }

    /// How many bytes of a piece of a length the plan lets be shown.
    fn room(&self, piece: usize) -> usize
        ensures { result ≡ room_of self.now piece }
    {
        match self.plan.show_total {
            Some(total) => { piece.min(total.saturating_sub(self.shown.len() as u64) as usize) }
            None => piece,
        }
    }

    /// Fails a call, and counts it. Where memory runs out nothing has changed.
    fn fail(&mut self) -> DeviceFault
        ensures same { IsReshown self.old self.new }
        ensures stays { IsAlike self.old self.new }
        ensures calls { calls_of self.new ≡ calls_after_fault result (calls_of self.old) }
        ensures cause { IsCausedFault result self.old.faults self.new.faults }
    {
        match self.disk.note(self.shown.len() as u64) {
            Ok(()) => {
                self.faults = self.faults.saturating_add(1);
                DeviceFault::Failed
            }
            Err(NoMemory) => DeviceFault::NoMemory,
        }
    }

    /// Records a call that does nothing to the files.
    fn note(&mut self) -> Result<(), NoMemory>
        ensures same { IsReshown self.old self.new }
        ensures stays { IsAlike self.old self.new }
        ensures ok { OnOk result (calls_of self.new ≡ calls_of self.old + 1) }
        ensures err { OnErr result (calls_of self.new ≡ calls_of self.old) }
        ensures faults { self.new.faults ≡ self.old.faults }
    {
        self.disk.note(self.shown.len() as u64)
    }

    /// How many calls have answered `Failed`.
    pub fn faults(&self) -> u64
        ensures { result ≡ ⟦<MemMachine as Shows>⟧.faults self.now }
    {
        self.faults
    }
}

/// Shows a piece, and records the call.
fn show_noted(disk: &mut MemDisk, shown: &mut Bytes, piece: &[u8]) -> Result<(), NoMemory>
    ensures noted { OnOk result (disk_events disk.new
        ≡ disk_events disk.old ++ on_both step.Stayed (length shown.new) ∷ []) }
    ensures shown { OnOk result (shown.new ≡ shown.old ++ piece.now) }
    ensures files { disk_files disk.new ≡ disk_files disk.old }
    ensures first { disk_first disk.new ≡ disk_first disk.old }
    ensures events { OnErr result (disk_events disk.new ≡ disk_events disk.old) }
    ensures refused { OnErr result (shown.new ≡ shown.old) }
{
    let before = shown.len();
    shown.extend(piece)?;
    if disk.note(shown.len() as u64).is_err() {
        shown.truncate(before);
        return Err(NoMemory);
    }
    Ok(())
}

/// Warns a piece, and records the call, with so many bytes shown.
fn warn_noted(
    disk: &mut MemDisk,
    warned: &mut Bytes,
    piece: &[u8],
    shown: u64,
) -> Result<(), NoMemory>
    ensures noted { OnOk result (disk_events disk.new
        ≡ disk_events disk.old ++ on_both step.Stayed shown ∷ []) }
    ensures warned { OnOk result (warned.new ≡ warned.old ++ piece.now) }
    ensures files { disk_files disk.new ≡ disk_files disk.old }
    ensures first { disk_first disk.new ≡ disk_first disk.old }
    ensures events { OnErr result (disk_events disk.new ≡ disk_events disk.old) }
    ensures refused { OnErr result (warned.new ≡ warned.old) }
{
    let before = warned.len();
    warned.extend(piece)?;
    if disk.note(shown).is_err() {
        warned.truncate(before);
        return Err(NoMemory);
    }
    Ok(())
}

impl Shows for MemMachine {
    ghost use Rattle.ql_edge.specs.MemMachine.{IsRefused, IsReshown, room_of, CountsCall};
    ghost use Rattle.ql_edge.specs.Reshown.{reshown_self, reshown_twice};

    ghost told = { λ m. Some (m.shown, m.warned) };

    ghost faults = { λ m. m.faults };

    ghost left = { λ m. Some (drop m.taken m.script) };

    ghost same = { IsReshown };

    ghost fixed = { λ _. [] };

    ghost same_reflexive = { reshown_self };

    ghost same_transitive = { reshown_twice };

    fn show(&mut self, piece: &[u8]) -> Result<u64, DeviceFault>
        ensures within { IfOk result (λ n. n ≤ length piece.now) }
        ensures some { IfOk result (λ n. 0 < length piece.now → 0 < n) }
        ensures shown { IfOk result (λ n. ⟦<MemMachine as Shows>⟧.told self.new
            ≡ with_shown (take n piece.now) (⟦<MemMachine as Shows>⟧.told self.old)) }
        ensures refused { OnErr result (⟦<MemMachine as Shows>⟧.told self.new
            ≡ ⟦<MemMachine as Shows>⟧.told self.old) }
        ensures same { ⟦<MemMachine as Shows>⟧.same self.old self.new }
        ensures frame { Keeps ⟦<MemMachine as Shows>⟧.left ⟦<MemMachine as Shows>⟧.fixed self.old
            self.new }
        ensures cause { IsCaused result (⟦<MemMachine as Shows>⟧.faults self.old)
            (⟦<MemMachine as Shows>⟧.faults self.new) }

        // What the plan says.
        ensures counts { CountsCall result self.old self.new }
        ensures planned { IfOk result (λ n. ¬ IsRefused self.old
            × (n ≡ room_of self.old (length piece.now))) }
        ensures fails { result ≡ Err device.Failed → IsRefused self.old
            ⊎ ((0 < length piece.now) × (room_of self.old (length piece.now) ≡ 0)) }
    {
        if self.refuses() {
            return Err(self.fail());
        }
        let room = self.room(piece.len());
        if room == 0 && !piece.is_empty() {
            return Err(self.fail());
        }
        show_noted(&mut self.disk, &mut self.shown, &piece[..room])?;
        Ok(room as u64)
    }

    fn warn(&mut self, piece: &[u8]) -> Result<u64, DeviceFault>
        ensures within { IfOk result (λ n. n ≤ length piece.now) }
        ensures some { IfOk result (λ n. 0 < length piece.now → 0 < n) }
        ensures warned { IfOk result (λ n. ⟦<MemMachine as Shows>⟧.told self.new
            ≡ with_warned (take n piece.now) (⟦<MemMachine as Shows>⟧.told self.old)) }
        ensures refused { OnErr result (⟦<MemMachine as Shows>⟧.told self.new
            ≡ ⟦<MemMachine as Shows>⟧.told self.old) }
        ensures same { ⟦<MemMachine as Shows>⟧.same self.old self.new }
        ensures frame { Keeps ⟦<MemMachine as Shows>⟧.left ⟦<MemMachine as Shows>⟧.fixed self.old
            self.new }
        ensures cause { IsCaused result (⟦<MemMachine as Shows>⟧.faults self.old)
            (⟦<MemMachine as Shows>⟧.faults self.new) }

        // What the plan says.
        ensures counts { CountsCall result self.old self.new }
        ensures planned { IfOk result (λ n. ¬ IsRefused self.old × (n ≡ length piece.now)) }
        ensures fails { result ≡ Err device.Failed → IsRefused self.old }
    {
        if self.refuses() {
            return Err(self.fail());
        }
        let shown = self.shown.len() as u64;
        warn_noted(&mut self.disk, &mut self.warned, piece, shown)?;
        Ok(piece.len() as u64)
    }
}

impl Volume for MemMachine {
    ghost use Rattle.ql_edge.specs.Events.{AreImages, AreImagesSince};
    ghost use Rattle.ql_edge.specs.MemMachine.{files_of, first_of, events_of, IsRefused, CountsCall};
    ghost use Rattle.ql_edge.specs.Reshown.{machine_reads, machine_counts, machine_only};

    ghost files = { λ m. Some (files_of m) };

    ghost may_leave = { λ m. AreImages (first_of m) (events_of m) };

    ghost moment = { λ m. length (events_of m) };

    ghost left_since = { λ m. AreImagesSince (first_of m) (events_of m) };

    ghost attached = { λ m. m.name };

    fn attach(&mut self, alloc: Global, name: &str) -> Result<(), DeviceFault>
        requires { ⟦<MemMachine as Volume>⟧.attached self.old ≡ None }
        ensures attached { OnOk result (⟦<MemMachine as Volume>⟧.attached self.new
            ≡ Some name.now) }
        ensures stable { OnOk result (IfSome (⟦<MemMachine as Volume>⟧.files self.new)
            (λ f. Leaves (⟦<MemMachine as Volume>⟧.may_leave self.new) (λ c. c ≡ f))) }
        ensures files { ⟦<MemMachine as Volume>⟧.files self.new ≡
            ⟦<MemMachine as Volume>⟧.files self.old }
        ensures stops { Leaves (⟦<MemMachine as Volume>⟧.may_leave self.new)
            (⟦<MemMachine as Volume>⟧.may_leave self.old) }
        ensures time { Adds (⟦<MemMachine as Volume>⟧.moment self.old)
            (⟦<MemMachine as Volume>⟧.moment self.new)
            (⟦<MemMachine as Volume>⟧.left_since self.old)
            (⟦<MemMachine as Volume>⟧.left_since self.new)
            (⟦<MemMachine as Volume>⟧.may_leave self.old) (HasShown
            (⟦<MemMachine as Shows>⟧.told self.old)) }
        ensures refused { OnErr result (⟦<MemMachine as Shows>⟧.same self.old self.new) }
        ensures frame { Keeps ⟦<MemMachine as Shows>⟧.told
            ⟦<MemMachine as Shows>⟧.left self.old self.new }
        ensures fixed { ⟦<MemMachine as Shows>⟧.fixed self.new ≡
            ⟦<MemMachine as Shows>⟧.fixed self.old }
        ensures cause { IsCaused result (⟦<MemMachine as Shows>⟧.faults self.old)
            (⟦<MemMachine as Shows>⟧.faults self.new) }

        // What the plan says.
        ensures counts { CountsCall result self.old self.new }
        ensures planned { OnOk result (¬ IsRefused self.old) }
        ensures fails { result ≡ Err device.Failed → IsRefused self.old }
    {
        if self.refuses() {
            return Err(self.fail());
        }
        let name = Bytes::from_slice(alloc, name.as_bytes())?;
        self.disk.sync_both(self.shown.len() as u64)?;
        self.name = Some(name);
        Ok(())
    }

    fn length(&mut self, which: Which) -> Result<u64, DeviceFault>
        requires { IsSome (⟦<MemMachine as Volume>⟧.attached self.old) }
        ensures length { IfOk result (λ n. IfSome (⟦<MemMachine as Volume>⟧.files self.old)
            (λ f. n ≡ length (file_of which f))) }
        ensures same { ⟦<MemMachine as Shows>⟧.same self.old self.new }
        ensures frame { Stays ⟦<MemMachine as Shows>⟧.told ⟦<MemMachine as Shows>⟧.left
            ⟦<MemMachine as Shows>⟧.fixed ⟦<MemMachine as Volume>⟧.attached self.old self.new }
        ensures cause { IsCaused result (⟦<MemMachine as Shows>⟧.faults self.old)
            (⟦<MemMachine as Shows>⟧.faults self.new) }

        // What the plan says.
        ensures counts { CountsCall result self.old self.new }
        ensures planned { OnOk result (¬ IsRefused self.old) }
        ensures fails { result ≡ Err device.Failed → IsRefused self.old }
    {
        if self.refuses() {
            return Err(self.fail());
        }
        self.note()?;
        Ok(self.disk.file(which).len() as u64)
    }

    fn read_at(&mut self, which: Which, at: u64, out: &mut [u8]) -> Result<(), DeviceFault>
        requires attached { IsSome (⟦<MemMachine as Volume>⟧.attached self.old) }
        requires within { IfSome (⟦<MemMachine as Volume>⟧.files self.old)
            (λ f. at + length out.old ≤ length (file_of which f)) }
        ensures read { OnOk result (IfSome (⟦<MemMachine as Volume>⟧.files self.old)
            (λ f. out.new ≡ take (length out.old) (drop at (file_of which f)))) }
        ensures same { ⟦<MemMachine as Shows>⟧.same self.old self.new }
        ensures frame { Stays ⟦<MemMachine as Shows>⟧.told ⟦<MemMachine as Shows>⟧.left
            ⟦<MemMachine as Shows>⟧.fixed ⟦<MemMachine as Volume>⟧.attached self.old self.new }
        ensures cause { IsCaused result (⟦<MemMachine as Shows>⟧.faults self.old)
            (⟦<MemMachine as Shows>⟧.faults self.new) }

        // What the plan says.
        ensures counts { CountsCall result self.old self.new }
        ensures planned { OnOk result (¬ IsRefused self.old) }
        ensures fails { result ≡ Err device.Failed → IsRefused self.old }
    {
        if self.refuses() {
            return Err(self.fail());
        }
        self.note()?;
        let start = at as usize;
        out.copy_from_slice(&self.disk.file(which).as_slice()[start..start + out.len()]);
        Ok(())
    }

    fn write_at(&mut self, which: Which, at: u64, piece: &[u8]) -> Result<(), DeviceFault>
        requires attached { IsSome (⟦<MemMachine as Volume>⟧.attached self.old) }
        requires within { IfSome (⟦<MemMachine as Volume>⟧.files self.old) (λ f. at ≤ length
            (file_of which f)) }
        requires end { at + length piece.now ≤ 2 ^ 62 }
        ensures written { OnOk result (⟦<MemMachine as Volume>⟧.files self.new
            ≡ option_map (with_piece which at piece.now)
            (⟦<MemMachine as Volume>⟧.files self.old)) }
        ensures other { option_map (other_of which) (⟦<MemMachine as Volume>⟧.files self.new)
            ≡ option_map (other_of which) (⟦<MemMachine as Volume>⟧.files self.old) }
        ensures stops { Leaves (⟦<MemMachine as Volume>⟧.may_leave self.new)
            (After (OnFile which (Torn at (length piece.now)))
            (⟦<MemMachine as Volume>⟧.may_leave self.old)) }
        ensures time { Adds (⟦<MemMachine as Volume>⟧.moment self.old)
            (⟦<MemMachine as Volume>⟧.moment self.new)
            (⟦<MemMachine as Volume>⟧.left_since self.old)
            (⟦<MemMachine as Volume>⟧.left_since self.new)
            (⟦<MemMachine as Volume>⟧.may_leave self.new) (HasShown
            (⟦<MemMachine as Shows>⟧.told self.old)) }
        ensures nothing { result ≡ Err device.NoMemory →
            ⟦<MemMachine as Shows>⟧.same self.old self.new }
        ensures frame { Stays ⟦<MemMachine as Shows>⟧.told ⟦<MemMachine as Shows>⟧.left
            ⟦<MemMachine as Shows>⟧.fixed ⟦<MemMachine as Volume>⟧.attached self.old self.new }
        ensures cause { IsCaused result (⟦<MemMachine as Shows>⟧.faults self.old)
            (⟦<MemMachine as Shows>⟧.faults self.new) }

        // What the plan says.
        ensures counts { CountsCall result self.old self.new }
        ensures planned { OnOk result (¬ IsRefused self.old) }
        ensures fails { result ≡ Err device.Failed → IsRefused self.old }
    {
        if self.refuses() {
            return Err(self.fail());
        }
        let alloc = self.alloc;
        self.disk
            .write(alloc, which, at, piece, self.shown.len() as u64)?;
        Ok(())
    }

    fn cut(&mut self, which: Which, to: u64) -> Result<(), DeviceFault>
        requires attached { IsSome (⟦<MemMachine as Volume>⟧.attached self.old) }
        requires within { IfSome (⟦<MemMachine as Volume>⟧.files self.old) (λ f. to ≤ length
            (file_of which f)) }
        ensures cut { OnOk result (⟦<MemMachine as Volume>⟧.files self.new
            ≡ option_map (with_cut which to) (⟦<MemMachine as Volume>⟧.files self.old)) }
        ensures other { option_map (other_of which) (⟦<MemMachine as Volume>⟧.files self.new)
            ≡ option_map (other_of which) (⟦<MemMachine as Volume>⟧.files self.old) }
        ensures stops { Leaves (⟦<MemMachine as Volume>⟧.may_leave self.new)
            (After (OnFile which (Cut to)) (⟦<MemMachine as Volume>⟧.may_leave self.old)) }
        ensures time { Adds (⟦<MemMachine as Volume>⟧.moment self.old)
            (⟦<MemMachine as Volume>⟧.moment self.new)
            (⟦<MemMachine as Volume>⟧.left_since self.old)
            (⟦<MemMachine as Volume>⟧.left_since self.new)
            (⟦<MemMachine as Volume>⟧.may_leave self.new) (HasShown
            (⟦<MemMachine as Shows>⟧.told self.old)) }
        ensures nothing { result ≡ Err device.NoMemory →
            ⟦<MemMachine as Shows>⟧.same self.old self.new }
        ensures frame { Stays ⟦<MemMachine as Shows>⟧.told ⟦<MemMachine as Shows>⟧.left
            ⟦<MemMachine as Shows>⟧.fixed ⟦<MemMachine as Volume>⟧.attached self.old self.new }
        ensures cause { IsCaused result (⟦<MemMachine as Shows>⟧.faults self.old)
            (⟦<MemMachine as Shows>⟧.faults self.new) }

        // What the plan says.
        ensures counts { CountsCall result self.old self.new }
        ensures planned { OnOk result (¬ IsRefused self.old) }
        ensures fails { result ≡ Err device.Failed → IsRefused self.old }
    {
        if self.refuses() {
            return Err(self.fail());
        }
        self.disk.cut(which, to, self.shown.len() as u64)?;
        Ok(())
    }

    fn sync(&mut self, which: Which) -> Result<(), DeviceFault>
        requires { IsSome (⟦<MemMachine as Volume>⟧.attached self.old) }
        ensures durable { OnOk result (IfSome (⟦<MemMachine as Volume>⟧.files self.new)
            (λ f. Leaves (⟦<MemMachine as Volume>⟧.may_leave self.new) (λ c. file_of which c
            ≡ file_of which f))) }
        ensures files { OnOk result (⟦<MemMachine as Volume>⟧.files self.new ≡
            ⟦<MemMachine as Volume>⟧.files self.old) }
        ensures other { option_map (other_of which) (⟦<MemMachine as Volume>⟧.files self.new)
            ≡ option_map (other_of which) (⟦<MemMachine as Volume>⟧.files self.old) }
        ensures stops { Leaves (⟦<MemMachine as Volume>⟧.may_leave self.new)
            (⟦<MemMachine as Volume>⟧.may_leave self.old) }
        ensures time { Adds (⟦<MemMachine as Volume>⟧.moment self.old)
            (⟦<MemMachine as Volume>⟧.moment self.new)
            (⟦<MemMachine as Volume>⟧.left_since self.old)
            (⟦<MemMachine as Volume>⟧.left_since self.new)
            (⟦<MemMachine as Volume>⟧.may_leave self.old) (HasShown
            (⟦<MemMachine as Shows>⟧.told self.old)) }
        ensures nothing { result ≡ Err device.NoMemory →
            ⟦<MemMachine as Shows>⟧.same self.old self.new }
        ensures frame { Stays ⟦<MemMachine as Shows>⟧.told ⟦<MemMachine as Shows>⟧.left
            ⟦<MemMachine as Shows>⟧.fixed ⟦<MemMachine as Volume>⟧.attached self.old self.new }
        ensures cause { IsCaused result (⟦<MemMachine as Shows>⟧.faults self.old)
            (⟦<MemMachine as Shows>⟧.faults self.new) }

        // What the plan says.
        ensures counts { CountsCall result self.old self.new }
        ensures planned { OnOk result (¬ IsRefused self.old) }
        ensures fails { result ≡ Err device.Failed → IsRefused self.old }
    {
        if self.refuses() {
            return Err(self.fail());
        }
        self.disk.sync(which, self.shown.len() as u64)?;
        Ok(())
    }

    ghost reads_count = { machine_reads };

    ghost counts_now = { machine_counts };

    ghost only_now = { machine_only };

    ghost same_volume = { λ x y same. (same.name, same.volume) };
}

impl Machine for MemMachine {
    ghost use Rattle.ql_edge.specs.MemMachine.{plan_of, IsRefused, CountsCall};

    fn read(&mut self, out: &mut [u8]) -> Result<u64, DeviceFault>
        requires { 0 < length out.old }
        ensures within { IfOk result (λ n. n ≤ length out.old) }
        ensures taken { IfOk result (λ n. IfSome (⟦<MemMachine as Shows>⟧.left self.old)
            (λ script. take n out.new ≡ take n script)) }
        ensures front { IfOk result (λ n. IfSome (⟦<MemMachine as Shows>⟧.left self.old)
            (λ script. n ≤ length script)) }
        ensures end { IfOk result (λ n. IfSome (⟦<MemMachine as Shows>⟧.left self.old)
            (λ script. (n ≡ 0) ↔ (script ≡ []))) }
        ensures left { IfOk result (λ n. ⟦<MemMachine as Shows>⟧.left self.new
            ≡ option_map (drop n) (⟦<MemMachine as Shows>⟧.left self.old)) }
        ensures refused { OnErr result (⟦<MemMachine as Shows>⟧.left self.new
            ≡ ⟦<MemMachine as Shows>⟧.left self.old) }
        ensures same { ⟦<MemMachine as Shows>⟧.same self.old self.new }
        ensures frame { Keeps ⟦<MemMachine as Shows>⟧.told ⟦<MemMachine as Shows>⟧.fixed self.old
            self.new }
        ensures cause { IsCaused result (⟦<MemMachine as Shows>⟧.faults self.old)
            (⟦<MemMachine as Shows>⟧.faults self.new) }

        // What the plan says.
        ensures counts { CountsCall result self.old self.new }
        ensures planned { IfOk result (λ n. ¬ IsRefused self.old
            × IfSome (⟦<MemMachine as Shows>⟧.left self.old)
            (λ script. n ≡ min (length out.old) (min (plan_of self.old).read_most
            (length script)))) }
        ensures fails { result ≡ Err device.Failed → IsRefused self.old }
    {
        if self.refuses() {
            return Err(self.fail());
        }
        self.note()?;
        let left = &self.script.as_slice()[self.taken..];
        let most = out.len().min(self.plan.read_most as usize).min(left.len());
        out[..most].copy_from_slice(&left[..most]);
        self.taken += most;
        Ok(most as u64)
    }
}
