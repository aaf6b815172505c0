use crate::monitor::Monitor;
use mg_ports::Ports;
use std::io::Write;

/// The types of what a server uses: its ports, its output and its monitor. A tuple of three such types implements this
/// trait. No value of it is needed.
pub trait Peripherals {
    type Ports: Ports;

    type Output: Write;

    type Monitor: Monitor;
}

impl<P: Ports, W: Write, M: Monitor> Peripherals for (P, W, M) {
    type Ports = P;

    type Output = W;

    type Monitor = M;
}
