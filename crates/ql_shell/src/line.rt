//! The line that is warned for each way in which a run may end.
ghost use Rattle.std.specs.Prelude.{◌≡◌, ◌⊎◌, ℕ, ◌<◌, ◌++◌, length, take, Err, OnOk, decimal};
ghost use Rattle.ql_edge.specs.Cause.{IsCaused};
ghost use Rattle.ql_edge.specs.Frame.{Keeps};
ghost use Rattle.ql_edge.specs.Told.{with_warned, shown_of, warned_of};
ghost use Rattle.ql_edge.specs.declared.fault.DeviceFault.TheVariants as device;
ghost use Rattle.ql_shell.specs.Run.{WarnsLine};
ghost use Rattle.ql_shell.specs.declared.status.Status.TheVariants as ended;
ghost use Rattle.ql_shell.specs.Line.{refusal_text, place_line, line_of, word_of};

use crate::levels::{NO_TRANSACTION, TOO_DEEP, UNBALANCED};
use crate::status::{ScriptFault, Status};
use ql_edge::{Bytes, DeviceFault, NoMemory, Shows, warn_all};
use ql_value::{Kind, Refusal, Value, print_value};
use std::alloc::Global;

fn add_number(number: u64, out: &mut Bytes) -> Result<(), NoMemory>
    ensures { OnOk result (out.new ≡ out.old ++ decimal number) }
{
    print_value(&Value::Int(Kind::Uint64, number as i128), out)
}

/// The word for a refusal's number.
fn word_of(refusal: &Refusal) -> &[u8]
    ensures { result.now ≡ word_of refusal.now.number }
{
    match refusal.number {
        NO_TRANSACTION => b"NoTransaction",
        TOO_DEEP => b"TooDeep",
        UNBALANCED => b"Unbalanced",
        _ => refusal.word(),
    }
}

fn add_refusal(refusal: &Refusal, out: &mut Bytes) -> Result<(), NoMemory>
    ensures { OnOk result (out.new ≡ out.old ++ refusal_text refusal.now) }
{
    add_number(u64::from(refusal.number), out)?;
    out.extend(b" ")?;
    out.extend(word_of(refusal))?;
    if !refusal.name.is_empty() {
        out.extend(b" ")?;
        out.extend(refusal.name.as_slice())?;
    }
    Ok(())
}

/// Adds the line that says what is wrong at the byte of a place.
fn add_place(place: u64, what: &[u8], out: &mut Bytes) -> Result<(), NoMemory>
    ensures { OnOk result (out.new ≡ out.old ++ place_line place what.now) }
{
    out.extend(b"ql: byte ")?;
    add_number(place, out)?;
    out.extend(b": ")?;
    out.extend(what)?;
    out.extend(b"\n")?;
    Ok(())
}

/// Adds the line of a script that is refused as a whole.
fn add_fault(fault: ScriptFault, out: &mut Bytes) -> Result<(), NoMemory>
    ensures { OnOk result (out.new ≡ out.old ++ line_of (ended.Script fault)) }
{
    match fault {
        ScriptFault::TooLong => out.extend(b"ql: script too long\n"),
        ScriptFault::BadByte(place) => add_place(place, b"bad byte", out),
        ScriptFault::BadLiteral(place) => add_place(place, b"bad literal", out),
        ScriptFault::Unclosed(place) => add_place(place, b"unclosed", out),
        ScriptFault::Unexpected(place) => add_place(place, b"unexpected", out),
        ScriptFault::TooNested(place) => add_place(place, b"too nested", out),
    }
}

const FAULT_LINE: &[u8] = b"ql: device fault\n";

const MEMORY_LINE: &[u8] = b"ql: out of memory\n";

/// Adds the line that is warned for a status.
fn add_line(status: &Status, out: &mut Bytes) -> Result<(), NoMemory>
    ensures { OnOk result (out.new ≡ out.old ++ line_of status.now) }
{
    match status {
        Status::Done => {}
        Status::Script(fault) => add_fault(*fault, out)?,
        Status::Refused { statement, refusal } => {
            out.extend(b"ql: statement ")?;
            add_number(*statement, out)?;
            out.extend(b": ")?;
            add_refusal(refusal, out)?;
            out.extend(b"\n")?;
        }
        Status::Usage { word } => {
            out.extend(b"ql: usage, word ")?;
            add_number(*word, out)?;
            out.extend(b"\n")?;
        }
        Status::Fault => out.extend(FAULT_LINE)?,
        Status::NoMemory => out.extend(MEMORY_LINE)?,
    }
    Ok(())
}

fn warn_made_line<M: Shows>(
    alloc: Global,
    machine: &mut M,
    status: &Status,
) -> Result<(), DeviceFault>
    ensures whole { OnOk result (M.told machine.new ≡ with_warned (line_of status.now)
        (M.told machine.old)) }
    ensures part { result ≡ Err device.Failed → (n : ℕ) × (n < length (line_of status.now))
        × (M.told machine.new ≡ with_warned (take n (line_of status.now)) (M.told machine.old)) }
    ensures shown { shown_of (M.told machine.new) ≡ shown_of (M.told machine.old) }
    ensures frame { Keeps M.left M.fixed machine.old machine.new }
    ensures cause { IsCaused result (M.faults machine.old) (M.faults machine.new) }
{
    let mut line = Bytes::new(alloc);
    add_line(status, &mut line)?;
    warn_all(machine, line.as_slice())
}

fn warn_line<M: Shows>(alloc: Global, machine: &mut M, status: &Status) -> Result<(), DeviceFault>
    ensures whole { OnOk result (M.told machine.new ≡ with_warned (line_of status.now)
        (M.told machine.old)) }
    ensures part { result ≡ Err device.Failed → (n : ℕ) × (n < length (line_of status.now))
        × (M.told machine.new ≡ with_warned (take n (line_of status.now)) (M.told machine.old)) }
    ensures shown { shown_of (M.told machine.new) ≡ shown_of (M.told machine.old) }
    ensures frame { Keeps M.left M.fixed machine.old machine.new }
    ensures cause { IsCaused result (M.faults machine.old) (M.faults machine.new) }
{
    match status {
        Status::Fault => warn_all(machine, FAULT_LINE),
        Status::NoMemory => warn_all(machine, MEMORY_LINE),
        _ => warn_made_line(alloc, machine, status),
    }
}

/// Warns the line of a status. A refusal leaves the status as it is, but that want of memory takes its place.
pub fn warn<M: Shows>(alloc: Global, machine: &mut M, status: Status) -> Status
    ensures same { (result ≡ status) ⊎ (result ≡ ended.NoMemory) }
    ensures warned { WarnsLine result (warned_of (M.told machine.old))
        (warned_of (M.told machine.new)) (M.faults machine.old) (M.faults machine.new) }
    ensures shown { shown_of (M.told machine.new) ≡ shown_of (M.told machine.old) }
    ensures frame { Keeps M.left M.fixed machine.old machine.new }
{
    match warn_line(alloc, machine, &status) {
        Ok(()) => status,
        Err(DeviceFault::Failed) => status,
        Err(DeviceFault::NoMemory) => {
            let _ = warn_all(machine, MEMORY_LINE);
            Status::NoMemory
        }
    }
}
