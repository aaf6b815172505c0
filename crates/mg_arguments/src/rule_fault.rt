/// The reason why a list of strings is not a valid list of rules.
#[derive(Clone, Copy, Debug, PartialEq, Eq)]
pub enum RuleFault {
    /// A string is not a rule.
    Unreadable,
    /// There are more than 64 strings.
    TooMany,
}

impl RuleFault {
    /// Returns the error text.
    pub fn message(self) -> &'static str {
        match self {
            RuleFault::Unreadable => {
                "invalid value for '--never <RULE>': not 'TALKER -> LISTENER', where each is RTP/1, an IPv4 address with or without a port, (with '--names') a name, or *"
            }
            RuleFault::TooMany => "invalid value for '--never <RULE>': more than 64 rules",
        }
    }
}
