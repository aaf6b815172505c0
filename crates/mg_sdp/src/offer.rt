use mg_g711::Law;

/// What an alternative offers.
#[derive(Clone, Copy, Debug, PartialEq, Eq)]
pub struct Offer {
    /// The IPv4 address. `None` if it is left to the gateway or missing.
    pub address: Option<[u8; 4]>,
    /// The port. `None` if it is left to the gateway.
    pub port: Option<u16>,
    /// The law. `None` if it is left to the gateway.
    pub law: Option<Law>,
}
