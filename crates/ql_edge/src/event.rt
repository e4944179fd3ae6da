//! The record of what device calls did to two files.
ghost use Rattle.std.specs.Prelude.{◌≡◌};
ghost use Rattle.ql_edge.specs.Events.{piece_of};

use crate::{Bytes, Items};

/// What a device call did to a file.
#[derive(Debug, Drop)]
pub enum Step {
    Stayed,
    /// A piece was written at a place.
    Wrote { at: u64, piece: Bytes },
    /// The file was cut to a length.
    Cut { to: u64 },
    Synced,
}

impl Step {
    /// How many bytes were written.
    pub fn written(&self) -> u64
        ensures { result ≡ piece_of self.now }
    {
        match self {
            Step::Wrote { piece, .. } => piece.len() as u64,
            _ => 0,
        }
    }
}

/// A device call: what it did to each file, and how many bytes were shown after it.
#[derive(Debug, Drop)]
pub struct Event {
    pub on_data: Step,
    pub on_log: Step,
    pub shown: u64,
}

/// The device calls of a machine, the first of them first.
pub type Events = Items<Event>;
