//! Tests of how the system's sockets receive.

use super::equality::assert_equal;
use super::{caller, free_ports, local};
use crate::machine::SystemHost;
use mg_core::Peer;
use mg_host::Sockets;
use mg_ports::PortFault;
use std::net::{SocketAddr, UdpSocket};
use std::process::Abort;
use std::test::Fail;

/// The machine on which the tests bind sockets.
type Machine<'a> = SystemHost<'a, HostRuntime>;

/// The result of a receive: the length of a datagram and its sender.
type Received = Result<Option<(usize, Peer)>, PortFault>;

/// Binds a control socket and a media socket to 127.0.0.1.
fn bind<'a>(rt: &'a HostRuntime, media: u16, control: u16) -> Result<Machine<'a>, Fail> {
    let mut host = SystemHost::new(rt, rt);
    for port in [control, media] {
        host.bind([127, 0, 0, 1], port)?;
    }
    Ok(host)
}

/// Returns whether the next receive from a socket has this result.
fn receives(host: &mut Machine<'_>, socket: usize, buffer: &mut [u8; 4], wanted: Received) -> bool {
    host.receive(socket, buffer) == wanted
}

/// Returns which of three sockets the next poll reports.
fn reported(host: &mut Machine<'_>) -> Result<[bool; 3], Fail> {
    let mut marks = [false; 3];
    host.poll(&mut marks)?;
    Ok(marks)
}

/// A datagram is reported once, and received if it is waiting, as far as it fits into the buffer. If no datagram is
/// waiting, a receive returns `None`. Calls on a socket that doesn't exist fail.
fn receive_what_waits(
    rt: &impl Abort,
    host: &mut Machine<'_>,
    caller: &UdpSocket,
    source: Peer,
    media: SocketAddr,
) -> Result<(), Fail> {
    let mut buffer = [0; 4];
    assert!(rt;
        receives(host, 0, &mut buffer, Ok(None)) && receives(host, 1, &mut buffer, Ok(None))
    );
    assert_equal(rt, reported(host)?, [false; 3]);
    caller.send_to(b"", media)?;
    caller.send_to(b"cut to four", media)?;
    assert_equal(rt, reported(host)?, [false, true, false]);
    assert!(rt;
        receives(host, 1, &mut buffer, Ok(Some((0, source))))
            && receives(host, 1, &mut buffer, Ok(Some((4, source))))
            && receives(host, 1, &mut buffer, Ok(None))
    );
    assert_equal(rt, buffer, *b"cut ");
    assert_equal(rt, reported(host)?, [false; 3]);
    caller.send_to(b"again", media)?;
    assert_equal(rt, reported(host)?, [false, true, false]);
    assert!(rt; receives(host, 1, &mut buffer, Ok(Some((4, source)))));
    assert!(rt; receives(host, 2, &mut buffer, Err(PortFault)));
    assert_equal(rt, host.send(2, source, b""), Err(PortFault));
    Ok(())
}

#[test]
fn receives_without_waiting(rt: HostRuntime) -> Result<(), Fail> {
    let (caller, port) = caller(&rt)?;
    let source = Peer {
        address: [127, 0, 0, 1],
        port,
    };
    let (media, control) = free_ports(&rt)?;
    let mut host = bind(&rt, media, control)?;
    receive_what_waits(&rt, &mut host, &caller, source, local(media))?;
    caller.send_to(b"", local(control))?;
    assert_equal(&rt, reported(&mut host)?, [true, false, false]);
    Ok(())
}
