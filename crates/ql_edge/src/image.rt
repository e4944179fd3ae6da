//! Files as a stop may leave them, from a record of calls.
ghost use Rattle.std.specs.Prelude.{◌≡◌, ◌-◌, ◌^◌, ◌≤◌, true, length, drop, map, min, IfOk, OnOk};
ghost use Rattle.ql_edge.specs.Events.{step_of, steps_of, read_by, read_after, is_valid, are_valid, is_sync, synced_calls, complement, turned, image_of, shown_after, pieces_of};
ghost use Rattle.ql_edge.specs.declared.volume.Which.TheVariants as which;

use crate::{Bytes, Event, NoMemory, Step, Which};
use std::alloc::Global;

/// Two files as a stop may leave them, and how many bytes were shown by then.
#[derive(Debug, Drop)]
pub struct Image {
    pub data_bytes: Bytes,
    pub log_bytes: Bytes,
    pub shown: u64,
}

/// What a call did to a file.
pub(crate) fn step(event: &Event, which: Which) -> &Step
    ensures { result.now ≡ step_of which event.now }
{
    match which {
        Which::Data => &event.on_data,
        Which::Log => &event.on_log,
    }
}

/// Whether a call made a file stable.
fn synced(step: &Step) -> bool
    ensures { result ≡ is_sync step.now }
{
    matches!(step, Step::Synced)
}

/// How many of the calls there were up to the last that made a file stable.
#[tactic(auto, using(crate::proofs::Plays::synced_last, crate::proofs::Plays::synced_before))]
fn count_synced(events: &[Event], which: Which) -> usize
    ensures within { result ≤ length events.now }
    ensures count { result ≡ synced_calls (steps_of which events.now) }
{
    let mut rest = events;
    while let Some((last, before)) = rest.split_last() {
        if synced(step(last, which)) {
            return rest.len();
        }
        rest = before;
    }
    0
}

/// How many bytes were shown after these calls.
fn shown_by(events: &[Event]) -> u64
    ensures { result ≡ shown_after 0 events.now }
{
    let mut shown = 0;
    for event in events {
        shown = event.shown;
    }
    shown
}

/// How many bytes these calls wrote, up to the end of the type.
pub(crate) fn written_by(events: &[Event]) -> u64
    ensures { result ≡ min (pieces_of events.now) (2 ^ 64 - 1) }
{
    let mut written: u64 = 0;
    for event in events {
        written = written
            .saturating_add(event.on_data.written())
            .saturating_add(event.on_log.written());
    }
    written
}

/// The calls behind the first `from`.
#[tactic(auto, using(crate::proofs::Plays::rest_events))]
fn behind(events: &[Event], from: usize) -> &[Event]
    requires { from ≤ length events.now }
    ensures { result.now ≡ drop from events.now }
{
    &events[from..]
}

/// The bytes with each bit turned.
fn turn(alloc: Global, bytes: &[u8]) -> Result<Bytes, NoMemory>
    ensures { IfOk result (λ copy. copy ≡ map complement bytes.now) }
{
    let mut copy = Bytes::with_capacity(alloc, bytes.len())?;
    for byte in bytes {
        copy.push(!*byte)?;
    }
    Ok(copy)
}

/// Does to a file what a call did to it, with the bytes complemented that it wrote where `turns` says so.
fn redo(alloc: Global, file: &mut Bytes, step: &Step, turns: bool) -> Result<(), NoMemory>
    requires { is_valid (turned turns step.now) file.old ≡ true }
    ensures { OnOk result (file.new ≡ read_by (turned turns step.now) file.old) }
{
    match step {
        Step::Stayed | Step::Synced => Ok(()),
        Step::Wrote { at, piece } => {
            if turns {
                file.put(*at as usize, turn(alloc, piece.as_slice())?.as_slice())
            } else {
                file.put(*at as usize, piece.as_slice())
            }
        }
        Step::Cut { to } => {
            file.truncate(*to as usize);
            Ok(())
        }
    }
}

/// Does to a file what calls did to it, in their order.
#[tactic(auto, using(crate::proofs::Plays::next_valid, crate::proofs::Plays::next_event))]
fn play(
    alloc: Global,
    file: &mut Bytes,
    events: &[Event],
    which: Which,
    turns: bool,
) -> Result<(), NoMemory>
    requires { are_valid (map (turned turns) (steps_of which events.now)) file.old ≡ true }
    ensures { OnOk result (file.new
        ≡ read_after (map (turned turns) (steps_of which events.now)) file.old) }
{
    for event in events {
        redo(alloc, file, step(event, which), turns)?;
    }
    Ok(())
}

/// A file as a stop after these calls may leave it: as made stable last for pick 0, as read for pick 1, and as read with
/// what was written since complemented for pick 2.
#[tactic(auto, using(crate::proofs::Plays::front_plays, crate::proofs::Plays::front_synced, crate::proofs::Plays::back_plays, crate::proofs::Plays::back_read, crate::proofs::Plays::back_flipped))]
fn file_image(
    alloc: Global,
    first: &Bytes,
    events: &[Event],
    which: Which,
    pick: u8,
) -> Result<Bytes, NoMemory>
    requires valid { are_valid (steps_of which events.now) first.now ≡ true }
    requires pick { pick ≤ 2 }
    ensures { IfOk result (λ f. f ≡ image_of pick (steps_of which events.now) first.now) }
{
    let mut file = Bytes::from_slice(alloc, first.as_slice())?;
    let synced = count_synced(events, which);
    play(alloc, &mut file, &events[..synced], which, false)?;
    match pick {
        0 => {}
        1 => play(alloc, &mut file, behind(events, synced), which, false)?,
        _ => play(alloc, &mut file, behind(events, synced), which, true)?,
    }
    Ok(file)
}

/// Both files as a stop after these calls may leave them, and how many bytes were shown by then.
pub(crate) fn make_image(
    alloc: Global,
    first_data: &Bytes,
    first_log: &Bytes,
    events: &[Event],
    pick: u8,
) -> Result<Image, NoMemory>
    requires on_data { are_valid (steps_of which.Data events.now) first_data.now ≡ true }
    requires on_log { are_valid (steps_of which.Log events.now) first_log.now ≡ true }
    requires pick { pick ≤ 2 }
    ensures on_data { IfOk result (λ i. i.data_bytes
        ≡ image_of pick (steps_of which.Data events.now) first_data.now) }
    ensures on_log { IfOk result (λ i. i.log_bytes
        ≡ image_of pick (steps_of which.Log events.now) first_log.now) }
    ensures shown { IfOk result (λ i. i.shown ≡ shown_after 0 events.now) }
{
    Ok(Image {
        data_bytes: file_image(alloc, first_data, events, Which::Data, pick)?,
        log_bytes: file_image(alloc, first_log, events, Which::Log, pick)?,
        shown: shown_by(events),
    })
}
