/// The counters of a termination (RFC 3525, annexes E.11.4 and E.12.4). A counter that reaches its maximum stays there.
#[derive(Clone, Copy, Debug, Default, PartialEq, Eq)]
pub struct Stats {
    /// Packets sent (`rtp/ps`).
    pub ps: u64,
    /// Received packets whose frames were passed to the play list (`rtp/pr`).
    pub pr: u64,
    /// Octets of payload sent (`nt/os`).
    pub os: u64,
    /// Octets of payload in received packets whose frames were passed to the play list (`nt/or`).
    pub or_: u64,
}

impl Stats {
    ghost use Rattle.std.specs.Prelude.{◌≡◌};
    ghost use Rattle.mg_words.specs.Stats.{no_packets};

    /// Returns the counters of a new termination: all 0.
    pub fn new() -> Self
        ensures value { result ≡ no_packets }
    {
        Stats {
            ps: 0,
            pr: 0,
            os: 0,
            or_: 0,
        }
    }
}
