//! A piece of a content, kept so that what lies in it is read once.
ghost use Rattle.std.specs.Prelude.{◌≡◌, ◌+◌, ◌^◌, ◌≤◌};

/// Which bytes of a content are held: so many from a place on. At most `most` are read at once.
#[derive(Clone, Copy, Debug)]
pub(crate) struct Span {
    pub start: u64,
    pub held: u64,
    pub most: u64,
    ghost start_within: { start ≤ 2 ^ 60 + 16 },
    ghost held_within: { held ≤ 16384 },
    ghost some: { 32 ≤ most },
    ghost most_within: { most ≤ 16384 },
}

/// Bytes of a content that are held.
#[derive(Drop)]
pub(crate) struct Window {
    pub bytes: [u8; 16384],
    pub span: Span,
}

impl Window {
    /// It holds nothing yet, and reads at most so many bytes at once.
    pub fn new(most: u64) -> Window
        requires some { 32 ≤ most }
        requires within { most ≤ 16384 }
        ensures { result.span.held ≡ 0 }
    {
        Window {
            bytes: [0; 16384],
            span: Span {
                start: 0,
                held: 0,
                most,
            },
        }
    }
}
