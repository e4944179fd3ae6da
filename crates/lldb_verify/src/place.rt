//! Where the first pass stands.
ghost use Rattle.std.specs.Prelude.{◌≡◌, ◌+◌, ◌^◌, ◌≤◌, None};
ghost use Rattle.lldb_verify.specs.Reads.{seen_atoms, free_before, one_used, one_moved, one_free};

use crate::seen::Seen;

/// An atom, the free block in front of it, where one stands there, and the numbers of the blocks so far.
#[derive(Clone, Copy, Debug)]
pub(crate) struct Place {
    pub atom: u64,
    pub before: Option<u64>,
    pub used: u64,
    pub relocated: u64,
    pub free: u64,
    ghost few: { used + relocated + free ≤ atom },
}

impl Place {
    /// At the first block.
    pub fn new() -> Place
        ensures atom { result.atom ≡ 8 }
        ensures before { result.before ≡ None }
        ensures used { result.used ≡ 0 }
        ensures relocated { result.relocated ≡ 0 }
        ensures free { result.free ≡ 0 }
    {
        Place {
            atom: 8,
            before: None,
            used: 0,
            relocated: 0,
            free: 0,
        }
    }

    /// Behind a block that begins here.
    pub fn behind(&self, seen: &Seen) -> Place
        requires some { 1 ≤ seen_atoms seen.now }
        requires fits { self.now.atom + seen_atoms seen.now ≤ 2 ^ 60 }
        ensures atom { result.atom ≡ self.now.atom + seen_atoms seen.now }
        ensures before { result.before ≡ free_before self.now.atom seen.now }
        ensures used { result.used ≡ self.now.used + one_used seen.now }
        ensures relocated { result.relocated ≡ self.now.relocated + one_moved seen.now }
        ensures free { result.free ≡ self.now.free + one_free seen.now }
    {
        let mut place = *self;
        place.atom += seen.atoms();
        place.before = None;
        match *seen {
            Seen::Used { .. } => { place.used += 1 }
            Seen::Compressed { .. } => { place.used += 1 }
            Seen::Relocated { .. } => { place.relocated += 1 }
            Seen::Free { .. } => {
                place.before = Some(self.atom);
                place.free += 1;
            }
        }
        place
    }
}
