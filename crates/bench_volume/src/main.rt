//! Makes 100,000 calls on two files in memory, and writes how long each of the three images of them takes.
#![tactic(auto)]

ghost use Rattle.std.specs.Prelude.{◌<◌, ◌≤◌};

use ql_edge::{Bytes, MemDisk, NoMemory, Which};
use std::alloc::Global;
use std::io;
use std::time::Instant;

/// Calls on two files, five a turn: two pieces over the front of the data file, one at the end of the log, and two more, each
/// a sync in one of so many turns.
fn make_calls(alloc: Global, syncs: u64) -> Result<MemDisk, NoMemory>
    requires { 0 < syncs }
{
    let mut disk = MemDisk::new(alloc, Bytes::new(alloc), Bytes::new(alloc))?;
    for turn in 0..20_000 {
        disk.write(alloc, Which::Data, 0, &[7; 64], 0)?;
        let end = disk.file(Which::Log).len() as u64;
        disk.write(alloc, Which::Log, end, &[8; 64], 0)?;
        disk.write(alloc, Which::Data, 0, &[9; 16], 0)?;
        if turn % syncs == 0 {
            disk.sync(Which::Data, 0)?;
            disk.sync(Which::Log, 0)?;
        } else {
            disk.note(0)?;
            disk.note(0)?;
        }
    }
    Ok(disk)
}

/// Writes how long an image takes.
fn time_image(rt: &HostRuntime, disk: &MemDisk, pick: u8) -> io::Result<()>
    requires { pick ≤ 2 }
{
    let start = Instant::now(rt)?;
    let image = disk.image(rt.alloc(), disk.moments(), pick);
    let time = start.elapsed(rt)?;
    match image {
        Ok(image) => {
            let on_data = image.data_bytes.len();
            println!(rt;
                "pick {pick}: {on_data} and {} bytes",
                image.log_bytes.len()
            )?;
        }
        Err(NoMemory) => println!(rt; "no memory")?,
    }
    eprintln!(rt; "{}", time.as_micros())
}

fn main(rt: HostRuntime) -> io::Result<()> {
    for syncs in [1, 1_000_000] {
        match make_calls(rt.alloc(), syncs) {
            Ok(disk) => {
                time_image(&rt, &disk, 0)?;
                time_image(&rt, &disk, 1)?;
                time_image(&rt, &disk, 2)?;
            }
            Err(NoMemory) => println!(rt; "no memory")?,
        }
    }
    eprintln!(rt; "us")
}
