//! Reading the two files of a database before anything is written.
ghost use Rattle.std.specs.Prelude.{◌≡◌, ◌≤◌, length, take, min, IsSome, IfOk, IfSome};
ghost use Rattle.ql_edge.specs.Cause.{IsCaused};
ghost use Rattle.ql_edge.specs.Disk.{file_of};
ghost use Rattle.ql_edge.specs.Frame.{Stays};
ghost use Rattle.lldb_wal.specs.Opening.{opening, opening_by};

use crate::Opening;
use crate::fields::HEADER;
use crate::files::judge_heads;
use crate::header::HEAD;
use crate::read_log::read_log;
use ql_edge::{DeviceFault, NoMemory, Volume, Which};
use std::alloc::Global;

/// A file's length and its first bytes.
#[derive(Debug, Drop)]
pub(crate) struct Front {
    pub length: u64,
    pub bytes: Vec<u8>,
}

/// So many zeros.
fn zeros(alloc: Global, count: u64) -> Result<Vec<u8>, NoMemory>
    ensures { IfOk result (λ zeros. length zeros.items ≡ count) }
{
    let mut zeros = Vec::new(alloc);
    zeros.resize(count as usize, 0)?;
    Ok(zeros)
}

/// The length of a file, and so many of its first bytes, or all of a shorter one.
pub(crate) fn read_front<V: Volume>(
    alloc: Global,
    volume: &mut V,
    which: Which,
    count: u64,
) -> Result<Front, DeviceFault>
    requires attached { IsSome (V.attached volume.old) }
    ensures length { IfOk result (λ front. IfSome (V.files volume.old)
        (λ f. length (file_of which f) ≡ front.length)) }
    ensures bytes { IfOk result (λ front. IfSome (V.files volume.old)
        (λ f. front.bytes.items ≡ take count (file_of which f))) }
    ensures within { IfOk result (λ front. length front.bytes.items ≤ front.length) }
    ensures files { V.files volume.new ≡ V.files volume.old }
    ensures same { V.same volume.old volume.new }
    ensures frame { Stays V.told V.left V.fixed V.attached volume.old volume.new }
    ensures cause { IsCaused result (V.faults volume.old) (V.faults volume.new) }
{
    let length = volume.length(which)?;
    let mut bytes = zeros(alloc, length.min(count))?;
    volume.read_at(which, 0, &mut bytes)?;
    Ok(Front { length, bytes })
}

/// What the two files of the attached name are, for the magic with which they are opened. Nothing is written.
///
/// It takes memory for the pieces of a batch, and for a part of the log of at most 256 KiB.
pub fn read_files<V: Volume>(
    alloc: Global,
    volume: &mut V,
    magic: &[u8; 16],
) -> Result<Opening, DeviceFault>
    requires attached { IsSome (V.attached volume.old) }
    ensures found { IfOk result (λ found. IfSome (V.files volume.old)
        (λ f. found ≡ opening magic.now f.0 f.1)) }
    ensures same { V.same volume.old volume.new }
    ensures frame { Stays V.told V.left V.fixed V.attached volume.old volume.new }
    ensures cause { IsCaused result (V.faults volume.old) (V.faults volume.new) }
{
    let data = read_front(alloc, volume, Which::Data, HEADER)?;
    let log = read_front(alloc, volume, Which::Log, HEAD)?;
    match judge_heads(magic, &data.bytes, data.length, &log.bytes) {
        Some(found) => Ok(found),
        None => {
            let state = read_log(alloc, volume, data.length, log.length, &log.bytes)?;
            Ok(state.into_opening())
        }
    }
}
