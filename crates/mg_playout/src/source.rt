ghost use Rattle.std.specs.Prelude.{◌≡◌};

/// The source that a play list plays, and its next sequence number.
#[derive(Clone, Copy, Debug, PartialEq, Eq, Hash)]
pub struct Source {
    /// The synchronization source that sent the frames (RFC 3550, section 3).
    pub ssrc: u32,
    /// The sequence number of the frame at place 0.
    pub next: u16,
}

impl Source {
    ghost use Rattle.mg_playout.specs.Playout.{advanced};

    /// Returns the source with its next sequence number increased by `count`.
    pub(crate) fn advanced(self, count: u16) -> Self
        ensures { result ≡ advanced count self }
    {
        Source {
            ssrc: self.ssrc,
            next: self.next.wrapping_add(count),
        }
    }
}
