//! What a line of words comes to: opening, commits, and each image that a stop may leave.
ghost use Rattle.std.specs.Prelude.{◌≡◌, ◌≤◌, None};
ghost use Rattle.ql_edge.specs.MemMachine.{calls_of};

use crate::growing::{Unfit, read_batch};
use crate::opening::{LIMIT, add_fault, add_files, make_machine, open, reopen_twice};
use crate::text::{add, read_bytes, read_number};
use lldb_base::{BaseFiler, Trouble};
use lldb_wal::WalFiler;
use ql_edge::{MemMachine, NoMemory, Numbers, Volume};
use std::alloc::Global;
use std::str::SplitWhitespace;

/// Adds what a commit answered.
fn add_answer(
    alloc: Global,
    text: &mut String,
    answer: Result<(), Trouble>,
) -> Result<(), NoMemory> {
    match answer {
        Ok(()) => add(text, " ok"),
        Err(Trouble::Full { need, limit }) => {
            let more = format!(in alloc; " full:{need}:{limit}")?;
            add(text, more.as_str())
        }
        Err(Trouble::Failed) => add(text, " failed"),
        Err(Trouble::NoMemory) => add(text, " no_memory"),
        Err(Trouble::Damaged) => add(text, " damaged"),
    }
}

/// Commits the batch that a word says, where the filer can take it.
fn add_commit(
    alloc: Global,
    text: &mut String,
    filer: &mut WalFiler<MemMachine>,
    word: &str,
) -> Result<(), NoMemory> {
    if !filer.sound() {
        return add(text, " not_sound");
    }
    match read_batch(alloc, filer.size(), word) {
        Ok(fitting) => {
            let answer = filer.commit(&fitting.batch, fitting.shift);
            add_answer(alloc, text, answer)
        }
        Err(Unfit::Unfit) => add(text, " unfit"),
        Err(Unfit::NoMemory) => Err(NoMemory),
    }
}

/// Opens the files of a machine, and commits what each word says.
fn carry_out(
    alloc: Global,
    text: &mut String,
    machine: MemMachine,
    words: SplitWhitespace<'_>,
) -> Result<MemMachine, NoMemory>
    requires { ⟦<MemMachine as Volume>⟧.attached machine ≡ None }
{
    match open(alloc, machine, "db", LIMIT) {
        Ok(mut filer) => {
            add(text, " ok")?;
            for word in words {
                add_commit(alloc, text, &mut filer, word)?;
            }
            Ok(filer.into_below())
        }
        Err(refused) => {
            add_fault(alloc, text, refused.fault)?;
            Ok(refused.below)
        }
    }
}

/// Adds what each of the three images is that a stop after so many calls may leave, once it is opened, and once more.
fn add_images(
    alloc: Global,
    text: &mut String,
    machine: &MemMachine,
    moment: u64,
) -> Result<(), NoMemory>
    requires { moment ≤ calls_of machine.now }
{
    for pick in 0..3 {
        let image = machine.image(alloc, moment, pick)?;
        let more = format!(in alloc; "{moment} {pick}")?;
        add(text, more.as_str())?;
        reopen_twice(alloc, text, image.data_bytes, image.log_bytes)?;
        add(text, "\n")?;
    }
    Ok(())
}

/// The calls that fail, as a word names them: one at most.
fn read_fails(alloc: Global, word: &str) -> Result<Numbers, NoMemory> {
    let mut fails = Numbers::new(alloc);
    fails.push(read_number(word))?;
    Ok(fails)
}

/// What the words of a line come to.
pub(crate) fn add_outcome(alloc: Global, text: &mut String, line: &str) -> Result<(), NoMemory> {
    let mut words = line.split_whitespace();
    let fails = read_fails(alloc, words.next().unwrap_or(""))?;
    let data_bytes = read_bytes(alloc, words.next().unwrap_or(""))?;
    let log_bytes = read_bytes(alloc, words.next().unwrap_or(""))?;
    let machine = make_machine(alloc, data_bytes, log_bytes, fails)?;
    let machine = carry_out(alloc, text, machine, words)?;
    add_files(alloc, text, &machine)?;
    let calls = machine.moments();
    let more = format!(in alloc; " calls:{calls}\n")?;
    add(text, more.as_str())?;
    for moment in 0..calls {
        add_images(alloc, text, &machine, moment)?;
    }
    add_images(alloc, text, &machine, calls)
}
