//! Numbers and bytes as text.
ghost use Rattle.std.specs.Prelude.{◌^◌, ◌<◌, ◌≤◌};

use ql_edge::{Bytes, NoMemory};
use std::alloc::Global;

/// The largest number that is read.
const NUMBER_LIMIT: u64 = 1 << 40;

/// The value of a hexadecimal digit.
fn digit(byte: u8) -> u8
    ensures { result < 16 }
{
    match byte {
        b'0'..=b'9' => byte - b'0',
        b'a'..=b'f' => byte - b'a' + 10,
        _ => 0,
    }
}

/// The bytes that pairs of digits spell.
pub(crate) fn read_bytes(alloc: Global, text: &str) -> Result<Bytes, NoMemory> {
    let mut bytes = Bytes::new(alloc);
    for pair in text.as_bytes().chunks(2) {
        if let [high, low] = pair {
            bytes.push(16 * digit(*high) + digit(*low))?;
        }
    }
    Ok(bytes)
}

/// The number that a text spells, or the largest that is read, where it spells none or a larger one.
pub(crate) fn read_number(text: &str) -> u64
    ensures { result ≤ 2 ^ 40 }
{
    text.parse::<u64>()
        .unwrap_or(NUMBER_LIMIT)
        .min(NUMBER_LIMIT)
}

/// What stands before the first comma, and what stands behind it.
pub(crate) fn split(text: &str) -> (&str, &str) {
    text.split_once(',').unwrap_or((text, ""))
}

/// Adds a text at the end.
pub(crate) fn add(text: &mut String, more: &str) -> Result<(), NoMemory> {
    text.push_str(more)?;
    Ok(())
}

/// Adds how many bytes there are, and their 64-bit FNV-1a hash.
pub(crate) fn add_sum(alloc: Global, text: &mut String, bytes: &[u8]) -> Result<(), NoMemory> {
    let mut sum: u64 = 0xCBF2_9CE4_8422_2325;
    for &byte in bytes {
        sum = (sum ^ byte as u64).wrapping_mul(0x0100_0000_01B3);
    }
    let more = format!(in alloc; " {}:{sum:x}", bytes.len())?;
    add(text, more.as_str())
}
