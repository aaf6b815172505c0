ghost use Rattle.std.specs.Prelude.{◌≡◌};
ghost use Rattle.mg_engine.specs.Gateway.{Gateway};
ghost use Rattle.mg_heard.specs.OpenFlows.{open_flow};
ghost use Rattle.mg_heard.specs.aids.Hearers.{flow_between};
ghost use Rattle.mg_heard.specs.aids.Parties.{party_of, IsParty};

use crate::open_flow::OpenFlow;
use mg_core::{Peer, Record};

/// The description of a termination in an interval.
#[derive(Clone, Copy, Debug, Default, PartialEq, Eq)]
pub struct Party {
    pub number: u32,
    pub context: u32,
    /// The address and port of the termination's Remote, if it has one.
    pub at: Option<Peer>,
}

impl Party {
    /// Returns the description of a termination for an interval.
    pub fn of(termination: &Record) -> Party
        ensures value { result ≡ party_of termination.now }
    {
        let at = termination.remote.map(|chosen| {
            let address = chosen.address;
            Peer {
                address,
                port: chosen.port,
            }
        });
        Party {
            number: termination.number,
            context: termination.context,
            at,
        }
    }

    /// Returns the flow from this termination to a listener in the same context.
    pub fn flow_to(&self, listener: &Party) -> OpenFlow
        ensures value { (w : Gateway) → IsParty w self.now → IsParty w listener.now →
            result ≡ open_flow w listener.now.number self.now.number }
        ensures parties { result ≡ flow_between listener.now self.now }
    {
        OpenFlow {
            listener: listener.number,
            talker: self.number,
            context: listener.context,
            listener_at: listener.at,
            talker_at: self.at,
        }
    }
}
