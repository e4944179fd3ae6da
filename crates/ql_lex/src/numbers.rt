ghost use Rattle.std.specs.Prelude.{◌≡◌, ◌≤◌, ◌<◌, ◌^◌, true, false, MatchOption};
ghost use Rattle.std.specs.Char.{digit_value};
ghost use Rattle.ql_lex.specs.Numbers as spec;

use crate::bytes::first;

/// The value of a digit or a letter in ASCII, and 36 for any other byte.
#[inline]
fn digit_of(b: u8) -> u64
    ensures { result ≡ digit_value b }
{
    if b < b'0' {
        36
    } else if b <= b'9' {
        (b - b'0') as u64
    } else if b < b'A' {
        36
    } else if b <= b'Z' {
        (b - b'A' + 10) as u64
    } else if b < b'a' {
        36
    } else if b <= b'z' {
        (b - b'a' + 10) as u64
    } else {
        36
    }
}

/// Whether each byte is a digit in the base.
pub fn are_digits(base: u64, bytes: &[u8]) -> bool
    ensures { result ≡ spec.are_digits base bytes.now }
{
    for b in bytes {
        if digit_of(*b) >= base {
            return false;
        }
    }
    true
}

/// The value of the digits behind what has the value `so_far`, where it is below 2^64.
pub fn value_from(base: u64, so_far: u64, digits: &[u8]) -> Option<u64>
    requires { 0 < base }
    ensures { MatchOption result
        (2 ^ 64 ≤ spec.value_from base so_far digits.now)
        (λ n. n ≡ spec.value_from base so_far digits.now) }
{
    let mut value = so_far;
    for d in digits {
        value = value.checked_mul(base)?.checked_add(digit_of(*d))?;
    }
    Some(value)
}

/// The base of a spelling, and its digits.
fn base_and_digits(spelling: &[u8]) -> (u64, &[u8])
    ensures base { result.0 ≡ spec.base_of spelling.now }
    ensures digits { result.1.now ≡ spec.digits_of spelling.now }
    ensures some { 0 < result.0 }
{
    let Some((b, rest)) = first(spelling) else {
        return (10, spelling);
    };
    if b != b'0' {
        return (10, spelling);
    }
    let Some((x, behind)) = first(rest) else {
        return (8, rest);
    };
    if x == b'x' || x == b'X' {
        (16, behind)
    } else {
        (8, rest)
    }
}

/// The number that is spelled so, if it is one.
pub fn number(spelling: &[u8]) -> Option<u64>
    ensures { MatchOption result
        (spec.is_number spelling.now ≡ false)
        (λ n. (spec.is_number spelling.now ≡ true) × (n ≡ spec.number_value spelling.now)) }
{
    let (base, digits) = base_and_digits(spelling);
    if digits.is_empty() && base != 8 {
        return None;
    }
    if !are_digits(base, digits) {
        return None;
    }
    value_from(base, 0, digits)
}
