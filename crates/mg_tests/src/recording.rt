//! Tests of the lines of a recording.

ghost use Rattle.std.specs.Prelude.{◌≤◌, length};

use crate::equality::assert_equal;
use mg_core::{EventLine, Peer, count_of, ticks_line};
use std::alloc::Global;
use std::test::Fail;

const CONTROLLER: Peer = Peer {
    address: [127, 0, 0, 1],
    port: 2945,
};

const CALLER: Peer = Peer {
    address: [10, 0, 200, 9],
    port: 40000,
};

/// The largest address and port.
const LAST: Peer = Peer {
    address: [255; 4],
    port: 65535,
};

/// Returns the start of the bytes, limited to the size of a datagram.
fn sized(bytes: &[u8]) -> &[u8]
    ensures short { length result.now ≤ 65535 }
{
    &bytes[..bytes.len().min(65535)]
}

/// Returns the line for a control datagram.
fn control(alloc: Global, source: Peer, bytes: &[u8]) -> Result<Vec<u8>, Fail> {
    let mut line = EventLine::new(alloc)?;
    line.control(source, sized(bytes));
    Ok(Vec::from_slice(alloc, line.as_slice())?)
}

/// Returns the line for an RTP datagram, built after another line.
fn media(alloc: Global, port: u16, source: Peer, bytes: &[u8]) -> Result<Vec<u8>, Fail> {
    let mut line = EventLine::new(alloc)?;
    line.control(source, b"another");
    line.media(port, source, sized(bytes));
    Ok(Vec::from_slice(alloc, line.as_slice())?)
}

/// Returns the line for an RTP datagram at this port or, without a port, for a control datagram.
fn line(alloc: Global, port: Option<u16>, source: Peer, bytes: &[u8]) -> Result<Vec<u8>, Fail> {
    match port {
        Some(port) => media(alloc, port, source, bytes),
        None => control(alloc, source, bytes),
    }
}

#[test]
fn writes_datagrams(rt: HostRuntime) -> Result<(), Fail> {
    for (port, source, bytes, wanted) in [
        (
            None,
            CONTROLLER,
            b"".as_slice(),
            b"control 127.0.0.1:2945 \n".as_slice(),
        ),
        (None, LAST, b"!", b"control 255.255.255.255:65535 21\n"),
        (Some(0), CALLER, b"", b"rtp 0 10.0.200.9:40000 \n"),
        (
            Some(30000),
            CALLER,
            b"\x80\x00\xff\x0a",
            b"rtp 30000 10.0.200.9:40000 8000ff0a\n",
        ),
    ] {
        let line = line(rt.alloc(), port, source, bytes)?;
        assert_equal(&rt, line.as_slice(), wanted);
    }
    Ok(())
}

/// Returns `front`, the digits of this many exclamation marks, and a line feed.
fn line_of(alloc: Global, front: &[u8], marks: usize) -> Result<Vec<u8>, Fail> {
    let mut line = Vec::from_slice(alloc, front)?;
    for _ in 0..marks {
        line.extend_from_slice(b"21")?;
    }
    line.push(b'\n')?;
    Ok(line)
}

/// Returns this many exclamation marks.
fn marks(alloc: Global, count: usize) -> Result<Vec<u8>, Fail> {
    Ok(vec![in alloc; b'!'; count]?)
}

#[test]
fn writes_the_longest(rt: HostRuntime) -> Result<(), Fail> {
    let alloc = rt.alloc();
    let bytes = marks(alloc, 65535)?;
    let line = media(alloc, 65535, LAST, bytes.as_slice())?;
    let wanted = line_of(alloc, b"rtp 65535 255.255.255.255:65535 ", 65535)?;
    assert!(rt; line.as_slice() == wanted.as_slice());
    Ok(())
}

#[test]
fn writes_and_reads_counts_of_ticks(rt: HostRuntime) -> Result<(), Fail> {
    for (count, line) in [
        (1, b"ticks 1\n".as_slice()),
        (10, b"ticks 10\n"),
        (u64::MAX, b"ticks 18446744073709551615\n"),
    ] {
        assert_equal(&rt, ticks_line(count).as_slice(), line);
    }
    for (digits, count) in [
        (b"1".as_slice(), Some(1)),
        (b"007", Some(7)),
        (b"18446744073709551615", Some(u64::MAX)),
        (b"18446744073709551616", None),
        (b"000000000000000000001", None),
        (b"", None),
        (b"1x", None),
        (b" 1", None),
    ] {
        assert_equal(&rt, count_of(digits), count);
    }
    Ok(())
}
