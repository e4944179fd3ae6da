//! Commits that are counted on two files in memory, and timed on two of the host.
ghost use Rattle.std.specs.Prelude.{◌≡◌, IsTrue, IfOk, OnOk};
ghost use Rattle.lldb_base.specs.Batch.{CanTake};

use crate::growing::{Fitting, Unfit, add_piece, begin, finish};
use crate::opening::{make_machine, open};
use lldb_base::BaseFiler;
use lldb_wal::WalFiler;
use ql_edge::{Bytes, HostMachine, Numbers, Volume};
use std::alloc::Global;
use std::io;
use std::time::Instant;

/// How many commits of a page there are.
const PAGES: u64 = 1000;

/// How many pieces the long commit has, each of `PIECE` bytes.
const PIECES: u64 = 1024;

const PAGE: usize = 4096;

const PIECE: usize = 65536;

/// How long a data file may become.
const LIMIT: u64 = 1 << 30;

/// So many equal pieces in a row, from a place on.
fn row_batch(
    alloc: Global,
    size: u64,
    place: u64,
    count: u64,
    piece: &[u8],
) -> Result<Fitting, Unfit>
    ensures { IfOk result (λ f. CanTake 16 f.shift size f.batch) }
{
    let length = piece.len() as u64;
    let end = place.saturating_add(length.saturating_mul(count));
    let mut growing = begin(alloc, size, 0, size.max(end));
    for turn in 0..count {
        let at = place.saturating_add(length.saturating_mul(turn));
        add_piece(&mut growing, at, piece)?;
    }
    finish(growing)
}

/// Commits so many equal pieces in a row, from a place on.
fn commit_row<V: Volume>(
    alloc: Global,
    filer: &mut WalFiler<V>,
    place: u64,
    count: u64,
    piece: &[u8],
) -> Result<(), Unfit>
    requires { IsTrue (⟦<WalFiler<V> as BaseFiler>⟧.is_sound filer.old) }
    ensures { OnOk result (IsTrue (⟦<WalFiler<V> as BaseFiler>⟧.is_sound filer.new)) }
{
    let fitting = row_batch(alloc, filer.size(), place, count, piece)?;
    match filer.commit(&fitting.batch, fitting.shift) {
        Ok(()) => Ok(()),
        Err(_) => Err(Unfit::Unfit),
    }
}

/// Commits a page so many times, over 64 places in turn.
fn commit_pages<V: Volume>(alloc: Global, filer: &mut WalFiler<V>, turns: u64) -> Result<(), Unfit>
    requires { IsTrue (⟦<WalFiler<V> as BaseFiler>⟧.is_sound filer.old) }
    ensures { OnOk result (IsTrue (⟦<WalFiler<V> as BaseFiler>⟧.is_sound filer.new)) }
{
    for turn in 0..turns {
        commit_row(alloc, filer, 16 + 4096 * (turn % 64), 1, &[0x5A; PAGE])?;
    }
    Ok(())
}

/// How many device calls it takes to create a database and to commit a page so many times.
fn count_calls(alloc: Global, turns: u64) -> Result<u64, Unfit> {
    let none = Bytes::new(alloc);
    let machine = make_machine(alloc, none, Bytes::new(alloc), Numbers::new(alloc))?;
    match open(alloc, machine, "db", LIMIT) {
        Ok(mut filer) => {
            commit_pages(alloc, &mut filer, turns)?;
            Ok(filer.into_below().moments())
        }
        Err(_) => Err(Unfit::Unfit),
    }
}

/// Says how many device calls the commits of pages make, beside those of creation.
fn show_calls(rt: &HostRuntime) -> io::Result<()> {
    match (count_calls(rt.alloc(), 0), count_calls(rt.alloc(), PAGES)) {
        (Ok(none), Ok(all)) => println!(rt; "{PAGES} commits, {} calls", all.saturating_sub(none)),
        _ => println!(rt; "no commits"),
    }
}

/// Makes the commits, and says how long they took.
fn time_filer(rt: &HostRuntime, filer: &mut WalFiler<HostMachine>) -> io::Result<()>
    requires { IsTrue (⟦<WalFiler<HostMachine> as BaseFiler>⟧.is_sound filer.old) }
{
    let alloc = rt.alloc();
    let start = Instant::now(rt)?;
    let Ok(()) = commit_pages(alloc, filer, PAGES) else {
        return println!(rt; "a commit failed");
    };
    let pages = start.elapsed(rt)?.as_micros();
    let piece = vec![in alloc; 0x5A; PIECE]?;
    let Ok(fitting) = row_batch(alloc, filer.size(), 16, PIECES, &piece) else {
        return println!(rt; "no long batch");
    };
    let start = Instant::now(rt)?;
    let Ok(()) = filer.commit(&fitting.batch, fitting.shift) else {
        return println!(rt; "the long commit failed");
    };
    let long = start.elapsed(rt)?.as_micros();
    eprintln!(rt; "{pages} {long} us")
}

/// Counts commits, and times them on the new files of a name.
pub(crate) fn time_commits(rt: &HostRuntime, name: &str) -> io::Result<()> {
    show_calls(rt)?;
    let machine = HostMachine::new(rt.clone()?);
    match open(rt.alloc(), machine, name, LIMIT) {
        Ok(mut filer) => time_filer(rt, &mut filer),
        Err(_) => println!(rt; "not opened"),
    }
}
