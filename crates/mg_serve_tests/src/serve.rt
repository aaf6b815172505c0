//! Sessions over in-memory ports, without a journal.

use crate::cases::{CASE, Case, play_all};
use crate::equality::assert_equal;
use crate::journaled::OVERSIZED;
use crate::sessions::{ADD, CALLER, HEARTBEAT, Outcome, SESSION, Session, count, play};
use mg_ports::Peer;
use mg_serve::RunFault;
use std::alloc::Global;
use std::io;
use std::test::Fail;

const SECOND: Peer = Peer {
    address: [127, 0, 0, 2],
    port: 40000,
};

const THIRD: Peer = Peer {
    address: [127, 0, 0, 3],
    port: 40000,
};

/// A message that creates a termination, whose Remote is port 40000 of 127.0.0.1. Datagrams arrive at the termination's
/// port from ports 40000 and 40001. Another datagram arrives at a port without a termination.
const REMOTES: &[(usize, Peer, &[u8])] = &[
    (
        0,
        Peer {
            address: [127, 0, 0, 1],
            port: 2945,
        },
        ADD,
    ),
    (1, CALLER, b"x"),
    (
        1,
        Peer {
            address: [127, 0, 0, 1],
            port: 40001,
        },
        b"x",
    ),
    (2, CALLER, b"x"),
];

/// A message that creates a termination, and datagrams at its port and at a port without a termination.
const CALL: &[(usize, Peer, &[u8])] = &[(0, CALLER, ADD), (1, CALLER, b"x"), (2, CALLER, b"x")];

/// A datagram at a port without a termination.
const STRAY: (usize, Peer, &[u8]) = (1, CALLER, b"x");

/// A session with 15 receives and sends.
const CALLS: Session<'static> = Session {
    waiting: &[
        (0, CALLER, ADD),
        (0, CALLER, HEARTBEAT),
        (1, CALLER, b"x"),
        (2, CALLER, b"x"),
    ],
    lines: &[(1, b"poll\ntick\npoll\ntick\ntick\n")],
    ..SESSION
};

const CASES: &[Case<'static>] = &[
    Case {
        name: "a packet whose send fails is lost",
        session: Session {
            waiting: &[(0, CALLER, ADD)],
            failing: &[5],
            lines: &[(1, b"poll\ntick\ntick\nstats\nquit\n")],
            ..SESSION
        },
        ended: Ok([5, 1, 0, 2, 2]),
        call_log: b"c0a0n0n1n2p1p1",
        printed: b"ready\ncontrol=1 media=0 ticks=2 sent=2 failed=1 dropped=0,0,0,0,0,0 concealed=0\n",
        last_sent: b"\x80\0\0\x01\0\0\0\xa0\0\0\0\x01..",
        ..CASE
    },
    Case {
        name: "the pool is polled where the control port fails",
        session: Session {
            waiting: &[(0, CALLER, HEARTBEAT), (1, CALLER, b"x"), (2, CALLER, b"")],
            failing: &[0],
            lines: &[(1, b"poll\nstats\n")],
            ..SESSION
        },
        ended: Ok([2, 0, 2, 0, 0]),
        call_log: b"f0c1n1c2n2",
        printed: b"ready\ncontrol=0 media=2 ticks=0 sent=0 failed=1 dropped=2,0,0,0,0,0 concealed=0\n",
        ..CASE
    },
    Case {
        name: "a turn takes 64 datagrams",
        session: Session {
            waiting: &[STRAY; 66],
            lines: &[(2, b"poll\nstats\n")],
            ..SESSION
        },
        ended: Ok([4, 0, 66, 0, 0]),
        call_log: b"..c1n2n0c1c1n1n2",
        printed: b"ready\ncontrol=0 media=64 ticks=0 sent=0 failed=0 dropped=64,0,0,0,0,0 concealed=0\n\
            control=0 media=66 ticks=0 sent=0 failed=0 dropped=66,0,0,0,0,0 concealed=0\n",
        ..CASE
    },
    Case {
        name: "lines are counted up to the end",
        session: Session {
            waiting: &[(0, CALLER, b"x")],
            lines: &[(1, b"poll\npol\nquit\ntick\n")],
            ..SESSION
        },
        ended: Ok([3, 1, 0, 0, 1]),
        call_log: b"c0a0n0n1n2",
        printed: b"ready\nunknown command\n",
        ..CASE
    },
    Case {
        name: "each receive and send is made",
        session: CALLS,
        ended: Ok([5, 2, 2, 3, 5]),
        call_log: b"c0a0c0a0n0c1n1c2n2p1n0n1n2p1p1",
        ..CASE
    },
    Case {
        name: "a lost answer is sent again",
        session: Session {
            waiting: &[(0, CALLER, ADD), (0, CALLER, ADD)],
            failing: &[1],
            lines: &[(1, b"poll\ntick\nstats\n")],
            ..SESSION
        },
        ended: Ok([3, 2, 0, 1, 2]),
        call_log: b"c0a0c0a0n0n1n2p1",
        printed: b"ready\ncontrol=2 media=0 ticks=1 sent=2 failed=1 dropped=0,0,0,0,0,0 concealed=0\n",
        ..CASE
    },
    Case {
        name: "only controllers may send messages",
        session: Session {
            controllers: &[[127, 0, 0, 2], [127, 0, 0, 3]],
            seconds: 1,
            waiting: &[
                (0, CALLER, HEARTBEAT),
                (0, THIRD, HEARTBEAT),
                (0, CALLER, HEARTBEAT),
                (0, SECOND, HEARTBEAT),
                (1, CALLER, b"x"),
            ],
            lines: &[(1, b"poll\n"), (50, b"tick\n")],
            ..SESSION
        },
        ended: Ok([51, 2, 1, 50, 2]),
        call_log: b"c0c0a0c0c0a0n0c1n1n2",
        reports: b"totals control=2 media=1 ticks=50 sent=2 failed=0 strangers=2 ..",
        ..CASE
    },
    Case {
        name: "only remotes may send packets",
        session: Session {
            symmetric_rtp: true,
            seconds: 1,
            waiting: REMOTES,
            lines: &[(1, b"poll\n"), (50, b"tick\n")],
            ..SESSION
        },
        ended: Ok([51, 1, 1, 50, 51]),
        call_log: b"c0a0n0c1c1n1c2n2p1p1..",
        reports: b"totals control=1 media=1 ticks=50 sent=51 failed=0 strangers=2 started=0 placed=0 pushed=0 again=0 late=0 \
            dropped=0,0,0,1,0,0 concealed=0\n\
            trouble port=30000 termination=1 packets=1 lost=0 concealed=0 started=0 pushed=0 again=0 late=0 dropped=0,0,0,1,0,0 strangers=1 silent=0\n\
            trouble port=30002 termination=0 packets=0 lost=0 concealed=0 started=0 pushed=0 again=0 late=0 dropped=0,0,0,0,0,0 strangers=1 silent=0\n",
        ..CASE
    },
    Case {
        name: "without symmetric RTP, anyone may send packets",
        session: Session {
            seconds: 1,
            waiting: REMOTES,
            lines: &[(1, b"poll\n"), (50, b"tick\n")],
            ..SESSION
        },
        ended: Ok([51, 1, 3, 50, 51]),
        call_log: b"c0a0n0c1c1n1c2n2p1p1..",
        reports: b"totals control=1 media=3 ticks=50 sent=51 failed=0 strangers=0 ..",
        ..CASE
    },
];

/// The cases of reports, and of how sessions end.
const REPORTS: &[Case<'static>] = &[
    Case {
        name: "no report before a second has passed",
        session: Session {
            seconds: 1,
            waiting: CALL,
            lines: &[(1, b"poll\n"), (49, b"tick\n")],
            ..SESSION
        },
        ended: Ok([50, 1, 2, 49, 50]),
        call_log: b"c0a0n0c1n1c2n2p1p1..",
        ..CASE
    },
    Case {
        name: "no report where reports are disabled",
        session: Session {
            seconds: 0,
            waiting: CALL,
            lines: &[(1, b"poll\n"), (50, b"tick\n")],
            ..SESSION
        },
        ended: Ok([51, 1, 2, 50, 51]),
        call_log: b"c0a0n0c1n1c2n2p1p1..",
        ..CASE
    },
    Case {
        name: "reports name the ports that had trouble",
        session: Session {
            seconds: 1,
            waiting: CALL,
            lines: &[(1, b"poll\n"), (100, b"tick\n")],
            ..SESSION
        },
        ended: Ok([101, 1, 2, 100, 101]),
        call_log: b"c0a0n0c1n1c2n2p1p1..",
        reports: b"totals control=1 media=2 ticks=50 sent=51 failed=0 strangers=0 started=0 placed=0 pushed=0 again=0 late=0 \
            dropped=1,0,0,1,0,0 concealed=0\n\
            trouble port=30000 termination=1 packets=1 lost=0 concealed=0 started=0 pushed=0 again=0 late=0 dropped=0,0,0,1,0,0 strangers=0 silent=0\n\
            trouble port=30002 termination=0 packets=1 lost=0 concealed=0 started=0 pushed=0 again=0 late=0 dropped=1,0,0,0,0,0 strangers=0 silent=0\n\
            totals control=1 media=2 ticks=100 sent=101 failed=0 strangers=0 started=0 placed=0 pushed=0 again=0 late=0 \
            dropped=1,0,0,1,0,0 concealed=0\n\
            trouble port=30000 termination=1 packets=0 lost=0 concealed=0 started=0 pushed=0 again=0 late=0 dropped=0,0,0,0,0,0 strangers=0 silent=1\n",
        ..CASE
    },
    Case {
        name: "a session ends where a read fails",
        session: Session {
            waiting: &[(1, CALLER, b"x")],
            lines: &[(1, b"poll\n")],
            reads: 1,
            ..SESSION
        },
        ended: Err(RunFault::Read),
        call_log: b"n0c1n1n2",
        ..CASE
    },
    Case {
        name: "a session ends where a print fails",
        session: Session {
            waiting: &[(1, CALLER, b"x")],
            lines: &[(1, b"poll\npol\npoll\n")],
            writes: 1,
            ..SESSION
        },
        ended: Err(RunFault::Write),
        call_log: b"n0c1n1n2",
        ..CASE
    },
    Case {
        name: "a session ends where the first print fails",
        session: Session {
            waiting: &[(1, CALLER, b"x")],
            lines: &[(1, b"poll\npol\npoll\n")],
            writes: 0,
            ..SESSION
        },
        ended: Err(RunFault::Write),
        printed: b"",
        ..CASE
    },
    Case {
        name: "ticks begin by the clock until it fails",
        session: Session {
            waiting: &[(0, CALLER, ADD)],
            by_clock: true,
            ..SESSION
        },
        ended: Err(RunFault::Read),
        call_log: b"c0a0n0n1n2p1n0n1n2l0p1n0n1n2p1n0n1n2p1",
        reports: b"1 packets were too late\n",
        ..CASE
    },
];

/// An input in the form of a session's lines, the expected counts of lines and of ticks, and the expected output.
type Input<'a> = (&'a [(usize, &'a [u8])], u64, u64, &'a [u8]);

const INPUTS: &[Input<'static>] = &[
    (&[], 0, 0, b"ready\n"),
    (&[(1, b"quit\nstats\n")], 1, 0, b"ready\n"),
    (&[(1, b"pol\n")], 1, 0, b"ready\nunknown command\n"),
    (
        &[(1, b"\n# end\n")],
        2,
        0,
        b"ready\nunknown command\nunknown command\n",
    ),
    (
        &[(1, b"pollpollpoll\npoll \n")],
        2,
        0,
        b"ready\nunknown command\nunknown command\n",
    ),
    (
        &[(1, b"tick\r\nstats")],
        2,
        1,
        b"ready\ncontrol=0 media=0 ticks=1 sent=0 failed=0 dropped=0,0,0,0,0,0 concealed=0\n",
    ),
    (
        &[(1, b"stats\r\r\nstats\r")],
        2,
        0,
        b"ready\nunknown command\nunknown command\n",
    ),
    (&[(1, b"quit\r")], 1, 0, b"ready\nunknown command\n"),
    // A megabyte without a line feed.
    (&[(1_000_000, b"q")], 1, 0, b"ready\nunknown command\n"),
];

/// The index of each receive and send of `CALLS`, as a list of calls that fail.
const EACH_CALL: &[&[u64]] = &[
    &[0],
    &[1],
    &[2],
    &[3],
    &[4],
    &[5],
    &[6],
    &[7],
    &[8],
    &[9],
    &[10],
    &[11],
    &[12],
    &[13],
    &[14],
];

/// The case of a message that is too long. A list of cases with this one takes too long to prove.
const TOO_LONG: Case<'static> = Case {
    name: "an oversized datagram is answered with error 501",
    session: Session {
        waiting: &[(0, CALLER, OVERSIZED)],
        lines: &[(1, b"poll\nstats\n")],
        ..SESSION
    },
    ended: Ok([2, 1, 0, 0, 1]),
    call_log: b"c0a0n0n1n2",
    printed: b"ready\ncontrol=1 media=0 ticks=0 sent=1 failed=0 dropped=0,0,0,0,0,0 concealed=0\n",
    last_sent: b"MEGACO/1 [127.0.0.1]:2944\nError=501{..",
    ..CASE
};

#[test]
fn refuses_oversized(rt: HostRuntime) -> Result<(), Fail> {
    play_all(&rt, rt.alloc(), &[TOO_LONG])?;
    Ok(())
}

#[test]
fn reads_lines(rt: HostRuntime) -> Result<(), Fail> {
    for (input, lines, ticks, printed) in INPUTS {
        let case = Case {
            name: "an input",
            session: Session {
                lines: *input,
                ..SESSION
            },
            ended: Ok([*lines, 0, 0, *ticks, 0]),
            printed: *printed,
            ..CASE
        };
        play_all(&rt, rt.alloc(), &[case])?;
    }
    Ok(())
}

/// Returns whether a session with one failed call counted each received datagram and each successful send.
fn is_counted(outcome: &Outcome) -> bool {
    let Ok(counts) = &outcome.result else {
        return false;
    };
    let text = outcome.call_log.as_bytes();
    let received = counts.control.saturating_add(counts.media);
    let sends = count(text, b'a').saturating_add(count(text, b'p')) as u64;
    let lost = u64::from(count(text, b'f') == 0);
    counts.failed == 1
        && received == count(text, b'c') as u64
        && sends == counts.sent.saturating_add(lost)
}

/// Returns the first call whose failure is not counted correctly.
fn first_uncounted(alloc: Global) -> io::Result<Option<&'static [u64]>> {
    for call in EACH_CALL {
        let session = Session {
            failing: *call,
            ..CALLS
        };
        if !is_counted(&play(alloc, &session)?) {
            return Ok(Some(*call));
        }
    }
    Ok(None)
}

#[test]
fn serves_sessions(rt: HostRuntime) -> Result<(), Fail> {
    play_all(&rt, rt.alloc(), CASES)?;
    Ok(())
}

#[test]
fn reports_and_ends(rt: HostRuntime) -> Result<(), Fail> {
    play_all(&rt, rt.alloc(), REPORTS)?;
    Ok(())
}

#[test]
fn counts_failed_calls(rt: HostRuntime) -> Result<(), Fail> {
    assert_equal(&rt, first_uncounted(rt.alloc())?, None);
    Ok(())
}
