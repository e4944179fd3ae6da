//! The fields of a log's batch.
ghost use Rattle.std.specs.Prelude.{◌≡◌, ℕ, ◌≤◌, ◌+◌, ◌^◌, length, true, false, IfSome, IfNone, IfOk, IfErr};
ghost use Rattle.std.specs.Int.{w32, w64, from_be_bytes};
ghost use Rattle.lldb_wal.specs.Fields.{number, may_begin, may_hold, may_become, is_size};
ghost use Rattle.lldb_wal.specs.Log.{Stands, SpoilsPiece};

/// How many bytes the header of a file has: what no batch writes.
pub(crate) const HEADER: u64 = 16;

/// How many bytes a data file has at most.
pub(crate) const LONGEST: u64 = (1 << 60) + 16;

/// How many bytes a piece has at most.
const LONGEST_PIECE: u64 = 65536;

/// The number that eight bytes spell.
fn u64_of(field: &[u8]) -> u64
    requires { length field.now ≡ 8 }
    ensures { result ≡ from_be_bytes w64 field.now }
{
    u64::from_be_bytes([
        field[0], field[1], field[2], field[3], field[4], field[5], field[6], field[7],
    ])
}

/// The number that four bytes spell.
fn u32_of(field: &[u8]) -> u32
    requires { length field.now ≡ 4 }
    ensures { result ≡ from_be_bytes w32 field.now }
{
    u32::from_be_bytes([field[0], field[1], field[2], field[3]])
}

/// The number in the eight bytes at a place.
pub(crate) fn u64_at(bytes: &[u8], at: usize) -> u64
    requires { at + 8 ≤ length bytes.now }
    ensures { result ≡ number w64 at bytes.now }
{
    let (_, rest) = bytes.split_at(at);
    let (field, _) = rest.split_at(8);
    u64_of(field)
}

/// The number in the four bytes at a place.
fn u32_at(bytes: &[u8], at: usize) -> u32
    requires { at + 4 ≤ length bytes.now }
    ensures { result ≡ number w32 at bytes.now }
{
    let (_, rest) = bytes.split_at(at);
    let (field, _) = rest.split_at(4);
    u32_of(field)
}

/// Whether a piece may begin at a place, behind one that ended at `last`, beside a data file of a size.
fn begins(size: u64, last: u64, place: u64) -> bool
    ensures { result ≡ may_begin size last place }
{
    HEADER <= place && last <= place && place <= size.max(last)
}

/// Whether a piece at a place may have so many bytes.
#[tactic(auto, using(crate::proofs::Spoiled::holds_within))]
fn holds(place: u64, count: u64) -> bool
    ensures { result ≡ may_hold place count }
{
    1 <= count && count <= LONGEST_PIECE && place <= LONGEST - count
}

/// Whether the data file may become so long, behind pieces of which the last ended at `last`.
fn becomes(size: u64, last: u64, new: u64) -> bool
    ensures { result ≡ may_become size last new }
{
    HEADER <= new && last <= new && new <= size.max(last)
}

/// The piece at the front of the bytes: its place, and its own bytes. Where there is none, the place of the first field that is
/// not whole or breaks a rule, counted from the front.
pub(crate) fn read_piece(size: u64, last: u64, bytes: &[u8]) -> Result<(u64, &[u8]), u64>
    ensures ok { IfOk result (λ piece. Stands size last (record
        { place = piece.0; bytes = piece.1.now }) 0 bytes.now) }
    ensures apart { IfOk result (λ piece. last ≤ piece.0) }
    ensures some { IfOk result (λ piece. 1 ≤ length piece.1.now) }
    ensures most { IfOk result (λ piece. length piece.1.now ≤ 65536) }
    ensures within { IfOk result (λ piece. piece.0 + length piece.1.now ≤ 2 ^ 60 + 16) }
    ensures whole { IfOk result (λ piece. 12 + length piece.1.now ≤ length bytes.now) }
    ensures near { IfErr result (λ at. at ≤ 12) }
    ensures err { IfErr result (λ at. SpoilsPiece size last 0 bytes.now at) }
{
    if bytes.len() < 8 {
        return Err(0);
    }
    let place = u64_at(bytes, 0);
    if !begins(size, last, place) {
        return Err(0);
    }
    if bytes.len() < 12 {
        return Err(8);
    }
    let count = u32_at(bytes, 8) as u64;
    if !holds(place, count) {
        return Err(8);
    }
    let (_, rest) = bytes.split_at(12);
    let count = count as usize;
    if rest.len() < count {
        return Err(12);
    }
    let (content, _) = rest.split_at(count);
    Ok((place, content))
}

/// The new length at the front of the bytes, where it is whole and keeps the rules.
pub(crate) fn read_size(size: u64, last: u64, bytes: &[u8]) -> Option<u64>
    ensures kept { IfSome result (λ _. is_size size last 0 bytes.now ≡ true) }
    ensures some { IfSome result (λ new. new ≡ number w64 0 bytes.now) }
    ensures covers { IfSome result (λ new. last ≤ new) }
    ensures whole { IfSome result (λ _. 8 ≤ length bytes.now) }
    ensures none { IfNone result (is_size size last 0 bytes.now ≡ false) }
{
    if bytes.len() < 8 {
        return None;
    }
    let new = u64_at(bytes, 0);
    if becomes(size, last, new) {
        Some(new)
    } else {
        None
    }
}
