ghost use Rattle.std.specs.Prelude.{◌≡◌};
ghost use Rattle.mg_heard.specs.OpenFlow.{is_same};
ghost use Rattle.mg_heard.specs.aids.Opening.{key_of};

use mg_core::Peer;

/// A flow of speech from a talker to a listener. If the context or a Remote changes, a new flow begins.
#[derive(Clone, Copy, Debug, Default, PartialEq, Eq)]
pub struct OpenFlow {
    pub listener: u32,
    pub talker: u32,
    /// The context of both terminations.
    pub context: u32,
    /// The address and port of the listener's Remote, if it has one.
    pub listener_at: Option<Peer>,
    /// The address and port of the talker's Remote, if it has one.
    pub talker_at: Option<Peer>,
}

impl OpenFlow {
    /// Returns the pair as one number. The numbers order pairs by listener, then by talker.
    pub(crate) fn key(&self) -> u64
        ensures value { result ≡ key_of self.now }
    {
        u64::from(self.listener) * (1 << 32) + u64::from(self.talker)
    }

    /// Returns whether everything that is printed about the two flows is equal.
    pub(crate) fn is_same(&self, other: &OpenFlow) -> bool
        ensures value { result ≡ is_same self.now other.now }
    {
        self == other
    }
}
