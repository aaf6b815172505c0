/// The reason why a list of strings is not a valid list of addresses to bind sockets to.
#[derive(Clone, Copy, Debug, PartialEq, Eq)]
pub enum BindAddressFault {
    /// A string is not an IPv4 address in dotted decimal.
    Unreadable,
    /// An address is 224.0.0.0 or above: a multicast, reserved or broadcast address.
    Multicast,
    /// There are more than eight strings.
    TooMany,
}

impl BindAddressFault {
    /// Returns the error text.
    pub fn message(self) -> &'static str {
        match self {
            BindAddressFault::Unreadable => {
                "invalid value for '--bind-address <ADDRESS>': not an IPv4 address in dotted decimal"
            }
            BindAddressFault::Multicast => {
                "invalid value for '--bind-address <ADDRESS>': not a unicast address"
            }
            BindAddressFault::TooMany => {
                "invalid value for '--bind-address <ADDRESS>': more than 8 addresses"
            }
        }
    }
}
