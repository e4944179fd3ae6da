//! The numbers of the integer kinds.

ghost use Rattle.std.specs.Prelude.{◌≡◌, ◌^◌, ◌≤◌, pos};
ghost use Rattle.ql_value.specs.Number.{width, least, greatest, has_number, wrapped};

use crate::Kind;

/// How many bits a number of the kind has.
pub(crate) fn width_of(kind: Kind) -> u32
    ensures value { result ≡ width kind }
    ensures within { result ≤ 64 }
{
    match kind {
        Kind::Int8 | Kind::Uint8 => 8,
        Kind::Int16 | Kind::Uint16 => 16,
        Kind::Int32 | Kind::Uint32 => 32,
        Kind::Int64 | Kind::Uint64 => 64,
        Kind::Bool | Kind::Text | Kind::Blob => 0,
    }
}

/// The least number of the kind.
pub(crate) fn least_of(kind: Kind) -> i128
    ensures { result ≡ least kind }
{
    match kind {
        Kind::Int8 => -128,
        Kind::Int16 => -32_768,
        Kind::Int32 => -2_147_483_648,
        Kind::Int64 => -9_223_372_036_854_775_808,
        _ => 0,
    }
}

/// The greatest number of the kind.
pub(crate) fn greatest_of(kind: Kind) -> i128
    ensures { result ≡ greatest kind }
{
    match kind {
        Kind::Int8 => 127,
        Kind::Int16 => 32_767,
        Kind::Int32 => 2_147_483_647,
        Kind::Int64 => 9_223_372_036_854_775_807,
        Kind::Uint8 => 255,
        Kind::Uint16 => 65_535,
        Kind::Uint32 => 4_294_967_295,
        Kind::Uint64 => 18_446_744_073_709_551_615,
        Kind::Bool | Kind::Text | Kind::Blob => 0,
    }
}

/// How many numbers the kind has.
pub(crate) fn modulus_of(kind: Kind) -> i128
    ensures { result ≡ pos (2 ^ width kind) }
{
    match kind {
        Kind::Int8 | Kind::Uint8 => 0x100,
        Kind::Int16 | Kind::Uint16 => 0x1_0000,
        Kind::Int32 | Kind::Uint32 => 0x1_0000_0000,
        Kind::Int64 | Kind::Uint64 => 0x1_0000_0000_0000_0000,
        Kind::Bool | Kind::Text | Kind::Blob => 1,
    }
}

/// Whether the number is one of the kind.
pub(crate) fn is_within(kind: Kind, number: i128) -> bool
    ensures { result ≡ has_number kind number }
{
    least_of(kind) <= number && number <= greatest_of(kind)
}

/// The number of the kind that is equal to this one modulo 2 to the kind's width.
pub(crate) fn wrap(kind: Kind, number: i128) -> i128
    ensures { result ≡ wrapped kind number }
{
    if is_within(kind, number) {
        return number;
    }
    reduce(kind, number)
}

/// The same, for a number that is not one of the kind.
fn reduce(kind: Kind, number: i128) -> i128
    ensures { result ≡ wrapped kind number }
{
    let modulus = modulus_of(kind);
    let rest = number.rem_euclid(modulus);
    if rest <= greatest_of(kind) {
        return rest;
    }
    rest - modulus
}
