//! The script on standard input.
ghost use Rattle.std.specs.Prelude.{◌≡◌, ◌⊎◌, ℕ, ◌+◌, ◌<◌, ◌≤◌, [], true, false, length, drop, option_map, Err, IfOk, OnOk, OnErr, IfErr, IfSome};
ghost use Rattle.ql_edge.specs.Frame.{Keeps};
ghost use Rattle.ql_shell.specs.Cause.{IsCausedReading};
ghost use Rattle.ql_shell.specs.Comes.{longest_script};
ghost use Rattle.ql_shell.specs.Run.{AddsPiece, TakesInput, TakesAtMost, IsReadingFault};
ghost use Rattle.ql_shell.specs.declared.status.ScriptFault.TheVariants.{TooLong};
ghost use Rattle.ql_shell.specs.declared.status.Status.TheVariants as status;

use crate::SCRIPT_LIMIT;
use crate::status::{ScriptFault, Status};
use ql_edge::{Bytes, Machine, NoMemory};
use std::alloc::Global;

/// How many bytes of a script are read at once.
const PIECE: usize = 65536;

fn buffer(alloc: Global) -> Result<Vec<u8>, NoMemory>
    ensures { IfOk result (λ buffer. length buffer.items ≡ PIECE) }
{
    Ok(vec![in alloc; 0; PIECE]?)
}

/// Reads a piece of the script and adds it at the end of what was read. Answers whether there was one.
fn read_piece<M: Machine>(
    machine: &mut M,
    buffer: &mut [u8],
    source: &mut Bytes,
) -> Result<bool, Status>
    requires { 0 < length buffer.old }
    ensures more { IfOk result (λ more. more ≡ true → length source.old < length source.new) }
    ensures within { length source.new ≤ length source.old + length buffer.old }
    ensures piece { IfOk result (λ more. more ≡ true
        → AddsPiece source.old source.new (M.left machine.old) (M.left machine.new)) }
    ensures end { IfOk result (λ more. more ≡ false → (source.new ≡ source.old)
        × (M.left machine.new ≡ M.left machine.old) × IfSome (M.left machine.old)
        (λ rest. rest ≡ [])) }
    ensures takes { OnErr result (TakesAtMost (length buffer.old) (M.left machine.old)
        (M.left machine.new)) }
    ensures only { IfErr result (λ s. (s ≡ status.Fault) ⊎ (s ≡ status.NoMemory)) }
    ensures frame { Keeps M.told M.fixed machine.old machine.new }
    ensures cause { IsCausedReading result (M.faults machine.old) (M.faults machine.new) }
{
    let taken = machine.read(buffer)?;
    if taken == 0 {
        return Ok(false);
    }
    source.extend(&buffer[..taken as usize])?;
    Ok(true)
}

fn read_pieces<M: Machine>(
    machine: &mut M,
    buffer: &mut [u8],
    source: &mut Bytes,
) -> Result<(), Status>
    requires some { 0 < length buffer.old }
    requires empty { source.old ≡ [] }
    ensures whole { OnOk result (M.left machine.old ≡ option_map (λ _. source.new)
        (M.left machine.old)) }
    ensures within { OnOk result (length source.new ≤ longest_script) }
    ensures end { OnOk result (M.left machine.new ≡ option_map (λ _. []) (M.left machine.old)) }
    ensures too_long { result ≡ Err (status.Script TooLong)
        → IfSome (M.left machine.old) (λ script. longest_script < length script) }
    ensures takes { IfErr result (λ s. TakesInput s (M.left machine.old) (M.left machine.new)) }
    ensures most { TakesAtMost (longest_script + 1) (M.left machine.old) (M.left machine.new) }
    ensures only { IfErr result IsReadingFault }
    ensures frame { Keeps M.told M.fixed machine.old machine.new }
    ensures cause { IsCausedReading result (M.faults machine.old) (M.faults machine.new) }
{
    'pieces: while source.len() <= SCRIPT_LIMIT {
        let room = buffer.len().min(SCRIPT_LIMIT + 1 - source.len());
        let more = read_piece(machine, &mut buffer[..room], source)?;
        if !more {
            return Ok(());
        }
    }
    Err(Status::Script(ScriptFault::TooLong))
}

/// Reads the script to its end, or to the first byte over the limit.
pub fn read_script<M: Machine>(alloc: Global, machine: &mut M) -> Result<Bytes, Status>
    ensures whole { IfOk result (λ source. M.left machine.old
        ≡ option_map (λ _. source) (M.left machine.old)) }
    ensures within { IfOk result (λ source. length source ≤ longest_script) }
    ensures end { OnOk result (M.left machine.new ≡ option_map (λ _. []) (M.left machine.old)) }
    ensures too_long { result ≡ Err (status.Script TooLong)
        → IfSome (M.left machine.old) (λ script. longest_script < length script) }
    ensures takes { IfErr result (λ s. TakesInput s (M.left machine.old) (M.left machine.new)) }
    ensures most { TakesAtMost (longest_script + 1) (M.left machine.old) (M.left machine.new) }
    ensures only { IfErr result IsReadingFault }
    ensures frame { Keeps M.told M.fixed machine.old machine.new }
    ensures cause { IsCausedReading result (M.faults machine.old) (M.faults machine.new) }
{
    let mut source = Bytes::new(alloc);
    let mut buffer = buffer(alloc)?;
    read_pieces(machine, &mut buffer, &mut source)?;
    Ok(source)
}
