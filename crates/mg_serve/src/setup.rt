ghost use Rattle.std.specs.Prelude.{◌≡◌, []};
ghost use Rattle.mg_serve.specs.Setup.{fencing_of, may_command};

use crate::fencing::Fencing;
use mg_core::Config;
use mg_fence::Fence;
use mg_journal::Durability;
use std::marker::Model;

/// The setup of a session: the gateway's configuration, the addresses that may send it commands, the senders whose RTP
/// it accepts, and whether it has a journal and a fence. Also says how a renewed journal begins.
#[derive(Drop)]
pub struct Setup<'a> {
    config: Config,
    controllers: &'a [[u8; 4]],
    symmetric_rtp: bool,
    journal: Option<Durability>,
    fence: Option<Fence>,
    head: &'a [u8],
    reached: u32,
}

impl<'a> Model for Setup<'a> {
    ghost Value = { Rattle.mg_serve.specs.Setup.Setup };

    ghost view = { λ s.
        record {
          config = s.config;
          controllers = s.controllers.now;
          symmetric_rtp = s.symmetric_rtp;
          journal = s.journal;
          fence = s.fence;
          head = s.head.now;
          reached = s.reached;
        } };
}

impl<'a> Setup<'a> {
    /// Creates the setup of a session with this configuration. Only these IPv4 addresses may send control messages; if
    /// the list is empty, any address may. With symmetric RTP (RFC 4961), a termination's packets are accepted only
    /// from the address and port of its Remote. If there is a journal, messages are appended to it with this
    /// durability. If a fence is given, the session starts with it. A renewed journal begins with its checkpoint, unless
    /// [`renewing`](Self::renewing) sets another head.
    pub fn new(
        config: Config,
        controllers: &'a [[u8; 4]],
        symmetric_rtp: bool,
        journal: Option<Durability>,
        fence: Option<Fence>,
    ) -> Self
        ensures value { result ≡ record {
          config = config;
          controllers = controllers.now;
          symmetric_rtp = symmetric_rtp;
          journal = journal;
          fence = fence;
          head = [];
          reached = 0;
        } }
    {
        Setup {
            config,
            controllers,
            symmetric_rtp,
            journal,
            fence,
            head: &[],
            reached: 0,
        }
    }

    /// Sets how a renewed journal begins, such as with the line of its title, and the number that messages reached before
    /// the session.
    pub fn renewing(self, head: &'a [u8], reached: u32) -> Self
        ensures value { result ≡ record self.entry { head = head.now; reached = reached } }
    {
        Setup {
            head,
            reached,
            ..self
        }
    }

    /// Returns the text with which a renewed journal begins.
    pub fn head(&self) -> &'a [u8]
        ensures value { result.now ≡ self.now.head }
    {
        self.head
    }

    /// Returns the fence and the number that messages had reached at the start.
    pub fn fencing(&self) -> Fencing
        ensures value { result ≡ fencing_of self.now }
    {
        Fencing {
            fence: self.fence,
            reached: self.reached,
        }
    }

    /// Returns the gateway's configuration.
    pub fn config(&self) -> Config
        ensures value { result ≡ self.now.config }
    {
        self.config
    }

    /// Returns whether callers must use symmetric RTP.
    pub fn symmetric_rtp(&self) -> bool
        ensures value { result ≡ self.now.symmetric_rtp }
    {
        self.symmetric_rtp
    }

    /// Returns the durability with which messages are appended to the journal, or `None` if there is no journal.
    pub fn journal(&self) -> Option<Durability>
        ensures value { result ≡ self.now.journal }
    {
        self.journal
    }

    /// Returns whether control messages from an address are accepted.
    pub fn may_command(&self, address: [u8; 4]) -> bool
        ensures value { result ≡ may_command self.now.controllers address }
    {
        self.controllers.is_empty() || self.controllers.contains(&address)
    }
}
