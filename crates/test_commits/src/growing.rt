//! A batch that grows piece by piece, as far as a filer can take it.
ghost use Rattle.std.specs.Prelude.{◌≡◌, IfOk};
ghost use Rattle.lldb_base.specs.Batch.{CanTake};
ghost use Rattle.test_commits.specs.Grown.{IsGrown};

use crate::text::{read_bytes, read_number, split};
use lldb_base::Batch;
use ql_edge::NoMemory;
use std::alloc::Global;

/// How long a log and a content may become here.
const MOST: u64 = 1 << 50;

/// A batch, and where its pieces lie in a content.
#[derive(Drop)]
pub(crate) struct Growing {
    batch: Batch,
    /// How far all is moved.
    shift: u64,
    /// How long the content is.
    size: u64,
    /// How far it reaches with the pieces.
    far: u64,
    /// Where the last piece ends, before it is moved.
    end: u64,
    /// How many bytes the pieces take in a log.
    spent: u64,
}

/// A batch, and how far it is moved.
#[derive(Drop)]
pub(crate) struct Fitting {
    pub batch: Batch,
    pub shift: u64,
}

/// Why there is no batch.
#[derive(Drop)]
pub(crate) enum Unfit {
    /// A filer cannot take it.
    Unfit,
    NoMemory,
}

impl From<NoMemory> for Unfit {
    fn from(_: NoMemory) -> Unfit {
        Unfit::NoMemory
    }
}

/// A batch without pieces, for a content of a size.
pub(crate) fn begin(alloc: Global, size: u64, shift: u64, length: u64) -> Growing
    ensures grown { IsGrown result.shift result.size result.far result.end result.spent
        result.batch.pieces }
    ensures size { result.size ≡ size }
{
    Growing {
        batch: Batch::new(alloc, length),
        shift,
        size,
        far: size,
        end: 0,
        spent: 0,
    }
}

/// Adds a piece, where it leaves no gap and stands behind the others.
pub(crate) fn add_piece(growing: &mut Growing, place: u64, bytes: &[u8]) -> Result<(), Unfit>
    requires { IsGrown growing.old.shift growing.old.size growing.old.far growing.old.end
        growing.old.spent growing.old.batch.pieces }
    ensures grown { IsGrown growing.new.shift growing.new.size growing.new.far growing.new.end
        growing.new.spent growing.new.batch.pieces }
    ensures size { growing.new.size ≡ growing.old.size }
{
    let count = bytes.len() as u64;
    if count == 0 || count > 65536 {
        return Err(Unfit::Unfit);
    }
    if growing.far > MOST || growing.spent > MOST {
        return Err(Unfit::Unfit);
    }
    if place > growing.far || growing.shift > growing.far - place {
        return Err(Unfit::Unfit);
    }
    if place < growing.end || place + count > growing.batch.length() {
        return Err(Unfit::Unfit);
    }
    if growing.shift + place < 16 {
        return Err(Unfit::Unfit);
    }
    growing.batch.push(place, bytes)?;
    growing.far = growing.far.max(growing.shift + place + count);
    growing.end = place + count;
    growing.spent += count + 12;
    Ok(())
}

/// Adds the piece that a word says.
fn add_word(alloc: Global, growing: &mut Growing, word: &str) -> Result<(), Unfit>
    requires { IsGrown growing.old.shift growing.old.size growing.old.far growing.old.end
        growing.old.spent growing.old.batch.pieces }
    ensures grown { IsGrown growing.new.shift growing.new.size growing.new.far growing.new.end
        growing.new.spent growing.new.batch.pieces }
    ensures size { growing.new.size ≡ growing.old.size }
{
    let (place, digits) = split(word);
    let bytes = read_bytes(alloc, digits)?;
    add_piece(growing, read_number(place), bytes.as_slice())
}

/// The batch, where the content can take it.
#[tactic(auto, using(crate::proofs::Grown::grown_taken))]
pub(crate) fn finish(growing: Growing) -> Result<Fitting, Unfit>
    requires { IsGrown growing.shift growing.size growing.far growing.end growing.spent
        growing.batch.pieces }
    ensures { IfOk result (λ f. CanTake 16 f.shift growing.size f.batch) }
{
    let Growing {
        batch,
        shift,
        far,
        ..
    } = growing;
    let length = batch.length();
    if shift > far || length > far - shift {
        return Err(Unfit::Unfit);
    }
    if shift + length < 16 {
        return Err(Unfit::Unfit);
    }
    Ok(Fitting { batch, shift })
}

/// Adds the pieces that words say.
fn add_words(alloc: Global, growing: &mut Growing, words: &str) -> Result<(), Unfit>
    requires { IsGrown growing.old.shift growing.old.size growing.old.far growing.old.end
        growing.old.spent growing.old.batch.pieces }
    ensures grown { IsGrown growing.new.shift growing.new.size growing.new.far growing.new.end
        growing.new.spent growing.new.batch.pieces }
    ensures size { growing.new.size ≡ growing.old.size }
{
    for word in words.split(':') {
        add_word(alloc, growing, word)?;
    }
    Ok(())
}

/// The batch that a word says, for a content of a size: how far it is moved, its length, and its pieces.
pub(crate) fn read_batch(alloc: Global, size: u64, word: &str) -> Result<Fitting, Unfit>
    ensures { IfOk result (λ f. CanTake 16 f.shift size f.batch) }
{
    let (head, pieces) = word.split_once(':').unwrap_or((word, ""));
    let (shift, length) = split(head);
    let mut growing = begin(alloc, size, read_number(shift), read_number(length));
    if !pieces.is_empty() {
        add_words(alloc, &mut growing, pieces)?;
    }
    finish(growing)
}
