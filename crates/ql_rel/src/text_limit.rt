//! The limits of the printed text of a rule or a default.
ghost use Rattle.std.specs.Prelude.{◌≡◌, ◌+◌, ◌≤◌, ◌∷◌, ℕ, List, nat_lt};
ghost use Rattle.ql_rel.specs.declared.text_limit.Place.TheVariants as place;
ghost use Rattle.ql_rel.specs.TextLimits.{most_brackets, open_brackets, is_past_text};
ghost use Rattle.ql_rel.specs.Readings.{has_more};

use crate::bounds::{BRACKET_LIMIT, TEXT_LIMIT};

/// Where the next byte of a text stands: outside of strings, in one, or behind a backslash in one.
#[derive(Clone, Copy)]
pub(crate) enum Place {
    Outside,
    Inside,
    Escaped,
}

/// How far a text was read: where its next byte stands, and how many brackets are open there.
#[derive(Clone, Copy)]
pub(crate) struct Reading {
    pub(crate) place: Place,
    pub(crate) depth: usize,
}

/// Reads a byte outside of strings.
fn pass_outside(depth: usize, byte: u8) -> Reading
    requires { depth ≤ BRACKET_LIMIT }
    ensures few { result.depth ≤ BRACKET_LIMIT + 1 }
    ensures more { (rest : List ℕ) → has_more result rest ≡
        has_more (record { place = place.Outside; depth = depth }) (byte ∷ rest) }
{
    if byte == b'"' {
        Reading {
            place: Place::Inside,
            depth,
        }
    } else if byte == b'(' {
        Reading {
            place: Place::Outside,
            depth: depth + 1,
        }
    } else if byte == b')' {
        Reading {
            place: Place::Outside,
            depth: depth.saturating_sub(1),
        }
    } else {
        Reading {
            place: Place::Outside,
            depth,
        }
    }
}

/// Reads a byte in a string.
fn pass_inside(depth: usize, byte: u8) -> Reading
    ensures same { result.depth ≡ depth }
    ensures more { (rest : List ℕ) → has_more result rest ≡
        has_more (record { place = place.Inside; depth = depth }) (byte ∷ rest) }
{
    let place = if byte == b'"' {
        Place::Outside
    } else if byte == b'\\' {
        Place::Escaped
    } else {
        Place::Inside
    };
    Reading { place, depth }
}

/// Reads a byte.
fn pass(reading: Reading, byte: u8) -> Reading
    requires { reading.depth ≤ BRACKET_LIMIT }
    ensures few { result.depth ≤ BRACKET_LIMIT + 1 }
    ensures more { (rest : List ℕ) → has_more result rest ≡ has_more reading (byte ∷ rest) }
{
    match reading.place {
        Place::Outside => pass_outside(reading.depth, byte),
        Place::Inside => pass_inside(reading.depth, byte),
        Place::Escaped => Reading {
            place: Place::Inside,
            depth: reading.depth,
        },
    }
}

/// Whether too many brackets of a text are open at once.
fn has_many_open(text: &[u8]) -> bool
    ensures { result ≡ nat_lt most_brackets (open_brackets text.now) }
{
    let mut reading = Reading {
        place: Place::Outside,
        depth: 0,
    };
    for &byte in text {
        reading = pass(reading, byte);
        if reading.depth > BRACKET_LIMIT {
            return true;
        }
    }
    false
}

/// Whether a printed text is too long for a rule or a default, or has too many brackets open at once.
#[tactic(auto, unfolding(crate::specs::TextLimits::is_past_text))]
pub fn is_past_text(text: &[u8]) -> bool
    ensures { result ≡ is_past_text text.now }
{
    text.len() > TEXT_LIMIT || has_many_open(text)
}
