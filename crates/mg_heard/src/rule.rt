ghost use Rattle.std.specs.Prelude.{◌≡◌};
ghost use Rattle.mg_heard.specs.Never.{is_forbidden};
ghost use Rattle.mg_heard.specs.aids.Watching.{forbids};

use crate::keys::Keys;
use crate::open_flow::OpenFlow;
use crate::query::is_asked;

/// A rule that a talker must never be heard by a listener.
#[derive(Drop)]
pub struct Rule {
    /// The talker, or `None` for any talker.
    pub talker: Option<Keys>,
    /// The listener, or `None` for any listener.
    pub listener: Option<Keys>,
}

impl Rule {
    /// Returns whether the rule forbids a flow.
    fn forbids(&self, flow: &OpenFlow) -> bool
        ensures value { result ≡ forbids self.now flow.now }
    {
        is_asked(&self.talker, flow.talker, flow.talker_at)
            && is_asked(&self.listener, flow.listener, flow.listener_at)
    }
}

/// Returns whether one of the rules forbids a flow.
pub(crate) fn is_forbidden(rules: &[Rule], flow: &OpenFlow) -> bool
    ensures value { result ≡ is_forbidden rules.now flow.now }
{
    rules.iter().any(|rule| rule.forbids(flow))
}
