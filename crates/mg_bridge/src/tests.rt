//! Tests of what no run of the built program shows: results of single functions, a journal that is emptied at a bad
//! moment, and clocks and random numbers that fail. The rest of the program is tested on the built program.

mod drawing;
mod emptied;
mod ending;
mod equality;
mod receiving;

use std::io;
use std::net::{IpAddr, Ipv4Addr, SocketAddr, UdpSocket};
use std::test::Fail;

/// Returns the address of a port of 127.0.0.1. For port 0, the system chooses a free port.
fn local(port: u16) -> SocketAddr {
    SocketAddr::new(IpAddr::V4(Ipv4Addr::new(127, 0, 0, 1)), port)
}

/// Returns a non-blocking socket on a free port, and the port.
fn caller(rt: &HostRuntime) -> io::Result<(UdpSocket, u16)> {
    let socket = UdpSocket::bind(rt, local(0))?;
    socket.set_nonblocking(true)?;
    let port = socket.local_addr()?.port();
    Ok((socket, port))
}

/// Returns two free ports, for media and for control. The media port is even.
fn free_ports(rt: &HostRuntime) -> Result<(u16, u16), Fail> {
    for _ in 0..100 {
        let (_media, base) = caller(rt)?;
        let (_control, control) = caller(rt)?;
        if base % 2 == 0 {
            return Ok((base, control));
        }
    }
    Err("no free ports".into())
}
