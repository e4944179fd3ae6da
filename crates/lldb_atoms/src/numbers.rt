//! Numbers in bytes, the highest first.
ghost use Rattle.std.specs.Prelude.{◌≡◌, ◌^◌, ◌<◌, ◌≤◌, length, take};
ghost use Rattle.lldb_atoms.specs.Numbers.{as_bytes};

use byteorder::{BigEndian, ByteOrder};

/// A number in seven bytes.
#[tactic(auto, unfolding(crate::specs::Numbers::as_bytes))]
pub fn seven_bytes(number: u64) -> [u8; 7]
    requires { number < 2 ^ 56 }
    ensures { result ≡ as_bytes 7 number }
{
    let mut bytes = [0; 7];
    BigEndian::write_uint(&mut bytes, number, 7);
    bytes
}

/// The number in the first seven bytes.
#[tactic(auto, using(crate::proofs::AsBytes::seven_spelled))]
pub fn read_seven(bytes: &[u8]) -> u64
    requires { 7 ≤ length bytes.now }
    ensures spelled { as_bytes 7 result ≡ take 7 bytes.now }
    ensures small { result < 2 ^ 56 }
{
    u64::from_be_bytes([
        0, bytes[0], bytes[1], bytes[2], bytes[3], bytes[4], bytes[5], bytes[6],
    ])
}

/// A number in two bytes.
#[tactic(auto, unfolding(crate::specs::Numbers::as_bytes))]
pub(crate) fn two_bytes(number: u16) -> [u8; 2]
    ensures { result ≡ as_bytes 2 number }
{
    let mut bytes = [0; 2];
    BigEndian::write_u16(&mut bytes, number);
    bytes
}

/// The number in the first two bytes.
#[tactic(auto, using(crate::proofs::AsBytes::two_spelled))]
pub(crate) fn read_two(bytes: &[u8]) -> u16
    requires { 2 ≤ length bytes.now }
    ensures { as_bytes 2 result ≡ take 2 bytes.now }
{
    u16::from_be_bytes([bytes[0], bytes[1]])
}
