//! Recorded sessions over in-memory ports.

use crate::cases::{CASE, Case, play_all};
use crate::sessions::{CALLER, HEARTBEAT, SESSION, Session};
use mg_ports::Peer;
use mg_serve::RunFault;
use std::test::Fail;

/// A message, and a datagram that no play list accepts.
const WAITING: &[(usize, Peer, &[u8])] = &[(0, CALLER, HEARTBEAT), (2, CALLER, b"\x80x")];

/// The text of a recording of the heartbeat, the stray datagram and a tick.
const RECORDING: &[u8] = b"# a title\n# ready\n\
    control 127.0.0.1:40000 4d454741434f2f31205b3132372e302e302e315d3a32393435205472616e73616374696f6e3d327b\
    436f6e746578743d2d7b417564697456616c75653d524f4f547b41756469747b7d7d7d7d\n\
    rtp 30002 127.0.0.1:40000 8078\ntick\n# unknown command\n\
    # control=1 media=1 ticks=1 sent=1 failed=0 dropped=1,0,0,0,0,0 concealed=0\n";

const CASES: &[Case<'static>] = &[
    Case {
        name: "a recording contains what happens",
        session: Session {
            title: Some(b"a ti\ntle"),
            waiting: WAITING,
            lines: &[(1, b"poll\ntick\npol\nstats\nquit\n")],
            ..SESSION
        },
        ended: Ok([5, 1, 1, 1, 1]),
        call_log: b"c0a0n0n1c2n2",
        printed: RECORDING,
        ..CASE
    },
    Case {
        name: "a line whose print fails is finished",
        session: Session {
            title: Some(b""),
            waiting: WAITING,
            lines: &[(1, b"poll\ntick\n")],
            writes: 2,
            ..SESSION
        },
        ended: Err(RunFault::Write),
        call_log: b"c0a0n0n1c2n2",
        printed: b"..",
        ..CASE
    },
    Case {
        name: "nothing happens where the first print fails",
        session: Session {
            title: Some(b""),
            waiting: WAITING,
            lines: &[(1, b"poll\n")],
            writes: 1,
            ..SESSION
        },
        ended: Err(RunFault::Write),
        printed: b"..",
        ..CASE
    },
];

#[test]
fn records_sessions(rt: HostRuntime) -> Result<(), Fail> {
    play_all(&rt, rt.alloc(), CASES)?;
    Ok(())
}
