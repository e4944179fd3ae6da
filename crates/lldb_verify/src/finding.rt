//! What a verifier finds.

/// Something that is wrong with a content. Atoms are counted from the front of the content, 16 bytes each.
#[derive(Clone, Copy, Debug, Drop, PartialEq, Eq)]
pub enum Finding {
    /// The content is too short for the table of lists, or not whole atoms.
    BadLength { bytes: u64 },
    /// No block stands at an atom, so those behind it cannot be told.
    BadBlock { atom: u64 },
    /// A block is marked as compressed, which no reader understands.
    Compressed { atom: u64 },
    /// Two free blocks stand one behind the other.
    FreeNeighbours { left: u64, right: u64 },
    /// The last block is free.
    FreeAtEnd { atom: u64 },
    /// A relocated block names what is no used block, or one that another names.
    BadTarget { handle: u64, target: u64 },
    /// The list of a class leads to an atom at which it cannot go on.
    BadLink { class: u8, atom: u64 },
    /// A free block stands in no list.
    Unlisted { atom: u64 },
}

/// The numbers of a content with which nothing is wrong.
#[derive(Clone, Copy, Debug, Drop, PartialEq, Eq)]
pub struct Stats {
    /// The atoms of the whole content, those of the table among them.
    pub atoms: u64,
    /// The used blocks.
    pub used: u64,
    /// The relocated blocks.
    pub relocated: u64,
    /// The free blocks.
    pub free: u64,
}

/// Why a verifier has no numbers.
#[derive(Clone, Copy, Debug, Drop, PartialEq, Eq)]
pub enum VerifyFault {
    /// Things were found, so many, and the log took all of them.
    Found { count: u64 },
    /// The log wanted no more than those up to this one.
    Stopped { last: Finding },
    /// The device failed.
    Failed,
    /// The log or the device had no memory.
    NoMemory,
}
