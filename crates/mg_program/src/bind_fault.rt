use std::io;
use std::net::Ipv4Addr;
use thiserror::Error;

/// A UDP socket that couldn't be bound, with the system's reason. Possible reasons: the port is in use, the address
/// isn't this machine's, or there are too many open files.
#[derive(Debug, Drop, Error)]
#[error("cannot bind {address}:{port}: {error}")]
pub struct BindFault {
    pub address: Ipv4Addr,
    pub port: u16,
    pub error: io::Error,
}
