ghost use Rattle.std.specs.Prelude.{◌≡◌, ◌≢◌};
ghost use Rattle.mg_program.specs.Program.{Checks};

use mg_core::Peer;
use mg_fence::{ACKNOWLEDGEMENT, HEARTBEAT};
use mg_host::{Environment, Outside, System};
use mg_options::Status;
use std::io;
use std::io::{ErrorKind, Write};
use std::net::{IpAddr, Ipv4Addr, Net, SocketAddr, SocketAddrV4, UdpSocket};
use std::time::{Clock, Duration};

/// The part of the heartbeat's reply that follows the sender.
const REPLY: &[u8] = b"\nReply=1{Context=-{AuditValue=ROOT}}";

/// The maximum number of times that the heartbeat is sent from the first socket.
const TRIES: usize = 3;

/// The time to wait for each reply, in milliseconds.
const WAIT_MS: u64 = 1000;

/// The size of the buffer for a reply, in bytes.
const REPLY_ROOM: usize = 512;

/// Returns whether a message replies to the heartbeat.
fn answers_heartbeat(message: &[u8]) -> bool {
    message.ends_with(REPLY)
}

/// Returns whether a wait ended without a reply because the time was over, or because the process was stopped and
/// continued.
fn is_over(error: &io::Error) -> bool {
    matches!(error.kind(), ErrorKind::WouldBlock | ErrorKind::Interrupted)
}

/// Sends the heartbeat up to [`TRIES`] times, until it is answered, and acknowledges the answer. Fails with the
/// system's error, or with `TimedOut` if no answer arrives.
fn ask(socket: &UdpSocket, gateway: SocketAddrV4) -> io::Result<()> {
    socket.connect(gateway)?;
    socket.set_read_timeout(Some(Duration::from_millis(WAIT_MS)))?;
    let mut buffer = [0; REPLY_ROOM];
    for _ in 0..TRIES {
        socket.send(HEARTBEAT)?;
        match socket.recv(&mut buffer) {
            Ok(n) if answers_heartbeat(&buffer[..n]) => {
                let _ = socket.send(ACKNOWLEDGEMENT);
                return Ok(());
            }
            Ok(_) => {}
            Err(error) if is_over(&error) => {}
            Err(error) => return Err(error),
        }
    }
    Err(io::Error::from(ErrorKind::TimedOut))
}

/// Sends the heartbeat once more, and returns the sender of the answer if it isn't at the gateway's address. Otherwise,
/// fails. A gateway that is bound to 0.0.0.0 may answer from another address, and the socket that asked before receives
/// only from the gateway's address.
fn other_answer<N: Net>(
    net: &N,
    source: Ipv4Addr,
    gateway: SocketAddrV4,
) -> io::Result<SocketAddr> {
    let socket = UdpSocket::bind(net, SocketAddrV4::new(source, 0))?;
    socket.set_read_timeout(Some(Duration::from_millis(WAIT_MS)))?;
    socket.send_to(HEARTBEAT, gateway)?;
    let mut buffer = [0; REPLY_ROOM];
    let (n, from) = socket.recv_from(&mut buffer)?;
    let _ = socket.send_to(ACKNOWLEDGEMENT, gateway);
    if answers_heartbeat(&buffer[..n]) && from.ip() != IpAddr::V4(*gateway.ip()) {
        Ok(from)
    } else {
        Err(io::Error::from(ErrorKind::TimedOut))
    }
}

/// Reports to `errors` that a gateway doesn't answer.
fn report_silence<N: Net, E: Write>(
    net: &N,
    source: Ipv4Addr,
    gateway: SocketAddrV4,
    error: &io::Error,
    errors: &mut E,
) {
    let other = if error.kind() == ErrorKind::TimedOut {
        other_answer(net, source, gateway).ok()
    } else {
        None
    };
    let _ = match other {
        Some(other) => writeln!(
            errors,
            "{gateway} doesn't answer, but an answer came from {other}"
        ),
        None => writeln!(errors, "{gateway} doesn't answer: {error}"),
    };
}

/// Returns the time since a reading of the clock, in microseconds, or zero if the clock can't be read.
fn micros_since<C: Clock>(clock: &C, begun: io::Result<Duration>) -> u128 {
    match (begun, clock.monotonic()) {
        (Ok(begun), Ok(now)) => now.saturating_sub(begun).as_micros(),
        _ => 0,
    }
}

/// Checks that a gateway answers a heartbeat from this address, where 0.0.0.0 is any address of the machine. Sends the
/// heartbeat up to three times, and waits up to one second for each answer. If an answer arrives, prints how long it
/// took. Otherwise, reports the fault to `errors`; if no answer arrived in time, the report names another address that
/// answers, if any.
pub fn check<E: Environment>(
    system: &System<'_, E>,
    outside: &mut Outside<E>,
    gateway: Peer,
    source: [u8; 4],
) -> Status
    ensures value { Checks outside.old.output outside.new.output result }
    ensures quiet { result ≡ Status.Done → outside.new.errors ≡ outside.old.errors }
    ensures host { outside.new.host ≡ outside.old.host }
    ensures input { outside.new.input ≡ outside.old.input }
{
    let address = SocketAddrV4::new(Ipv4Addr::from(gateway.address), gateway.port);
    let source = Ipv4Addr::from(source);
    let socket = match UdpSocket::bind(system.net, SocketAddrV4::new(source, 0)) {
        Ok(socket) => socket,
        Err(error) => {
            let _ = writeln!(outside.errors, "cannot send from {source}: {error}");
            return Status::Failed;
        }
    };
    let begun = system.clock.monotonic();
    if let Err(error) = ask(&socket, address) {
        report_silence(system.net, source, address, &error, &mut outside.errors);
        return Status::NoAnswer;
    }
    let micros = micros_since(system.clock, begun);
    match writeln!(outside.output, "{address} answered in {micros} us") {
        Ok(()) => Status::Done,
        Err(_) => {
            let _ = writeln!(outside.errors, "write failed");
            Status::Failed
        }
    }
}
