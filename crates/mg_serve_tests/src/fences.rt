//! Sessions behind a fence, over in-memory ports.

use crate::cases::{CASE, Case, play_all};
use crate::sessions::{CALLER, HEARTBEAT, SESSION, Session};
use mg_fence::{ACKNOWLEDGEMENT, Fence};
use mg_journal::FileCall;
use mg_ports::Peer;
use mg_serve::Durability;
use std::test::Fail;

/// An audit of ROOT from a sender with the number 9. The next messages have the numbers 10 and 4,294,967,295.
const NINE: &[u8] = b"MEGACO/1 <9.lobby.example> T=9{C=-{AV=ROOT{AT{}}}}";

const TEN: &[u8] = b"MEGACO/1 <10.lobby.example> T=10{C=-{AV=ROOT{AT{}}}}";

const HIGHEST: &[u8] = b"MEGACO/1 <4294967295.lobby.example> T=7{C=-{AV=ROOT{AT{}}}}";

/// Messages whose senders have no number.
const NUMBERLESS: &[(usize, Peer, &[u8])] = &[
    (0, CALLER, HEARTBEAT),
    (0, CALLER, b"MEGACO/1 <99.9lobby> T=11{C=-{AV=ROOT{AT{}}}}"),
    (0, CALLER, b"MEGACO/1 <99> T=12{C=-{AV=ROOT{AT{}}}}"),
    (0, CALLER, b"MEGACO/1 <99-1.lobby> T=13{C=-{AV=ROOT{AT{}}}}"),
    (
        0,
        CALLER,
        b"MEGACO/1 <4294967296.lobby> T=14{C=-{AV=ROOT{AT{}}}}",
    ),
    (
        0,
        CALLER,
        b"MEGACO/1 <00000000099.lobby> T=15{C=-{AV=ROOT{AT{}}}}",
    ),
    (0, CALLER, b"MEGACO/1 lobby99.x T=16{C=-{AV=ROOT{AT{}}}}"),
    (0, CALLER, b"MEGACO/1 [99.0.0.1] T=17{C=-{AV=ROOT{AT{}}}}"),
];

/// A session behind a fence that no message has raised.
const FENCED: Session<'static> = Session {
    fence: Some(Fence {
        reached: 0,
        strict: false,
    }),
    lines: &[(1, b"poll\nstats\n")],
    ..SESSION
};

const CASES: &[Case<'static>] = &[
    Case {
        name: "a message with a lower number is stale",
        session: Session {
            waiting: &[
                (0, CALLER, NINE),
                (0, CALLER, TEN),
                (0, CALLER, NINE),
                (0, CALLER, TEN),
            ],
            ..FENCED
        },
        ended: Ok([2, 3, 0, 0, 3]),
        call_log: b"c0a0c0a0c0c0a0n0n1n2",
        printed: b"ready\ncontrol=3 media=0 ticks=0 sent=3 failed=0 dropped=0,0,0,0,0,0 concealed=0 fence=10 stale=1\n",
        ..CASE
    },
    Case {
        name: "without a fence, every message is run",
        session: Session {
            fence: None,
            waiting: &[(0, CALLER, TEN), (0, CALLER, NINE)],
            ..FENCED
        },
        ended: Ok([2, 2, 0, 0, 2]),
        call_log: b"c0a0c0a0n0n1n2",
        printed: b"ready\ncontrol=2 media=0 ticks=0 sent=2 failed=0 dropped=0,0,0,0,0,0 concealed=0\n",
        ..CASE
    },
    Case {
        name: "a fence can begin at a given number",
        session: Session {
            fence: Some(Fence {
                reached: 10,
                strict: false,
            }),
            waiting: &[(0, CALLER, NINE), (0, CALLER, HIGHEST), (0, CALLER, TEN)],
            ..FENCED
        },
        ended: Ok([2, 1, 0, 0, 1]),
        call_log: b"c0c0a0c0n0n1n2",
        printed: b"ready\ncontrol=1 media=0 ticks=0 sent=1 failed=0 dropped=0,0,0,0,0,0 concealed=0 fence=4294967295 stale=2\n",
        ..CASE
    },
    Case {
        name: "messages without a number are run, and don't raise the fence",
        session: Session {
            waiting: NUMBERLESS,
            ..FENCED
        },
        ended: Ok([2, 8, 0, 0, 8]),
        call_log: b"c0a0c0a0c0a0c0a0c0a0c0a0c0a0c0a0n0n1n2",
        printed: b"ready\ncontrol=8 media=0 ticks=0 sent=8 failed=0 dropped=0,0,0,0,0,0 concealed=0 fence=0 stale=0\n",
        ..CASE
    },
    Case {
        name: "a strict fence stops messages without a number, except those of check",
        session: Session {
            fence: Some(Fence {
                reached: 9,
                strict: true,
            }),
            waiting: &[
                (0, CALLER, HEARTBEAT),
                (0, CALLER, mg_fence::HEARTBEAT),
                (0, CALLER, ACKNOWLEDGEMENT),
                (0, CALLER, NINE),
                (
                    0,
                    CALLER,
                    b"MEGACO/1 <check>\nTransaction=1{Context=*{Subtract=*}}",
                ),
            ],
            ..FENCED
        },
        ended: Ok([2, 3, 0, 0, 2]),
        call_log: b"c0c0a0c0c0a0c0n0n1n2",
        printed: b"ready\ncontrol=3 media=0 ticks=0 sent=2 failed=0 dropped=0,0,0,0,0,0 concealed=0 fence=9 stale=2\n",
        ..CASE
    },
    Case {
        name: "a message that is refused as a whole doesn't raise the fence",
        session: Session {
            waiting: &[
                (
                    0,
                    CALLER,
                    b"MEGACO/2 <10.lobby.example> T=1{C=-{AV=ROOT{AT{}}}}",
                ),
                (
                    0,
                    CALLER,
                    b"MEGACO/1 <10.lobby.example> T=1{C=-{AV=ROOT{AT{}}}",
                ),
                (0, CALLER, NINE),
            ],
            ..FENCED
        },
        ended: Ok([2, 3, 0, 0, 3]),
        call_log: b"c0a0c0a0c0a0n0n1n2",
        printed: b"ready\ncontrol=3 media=0 ticks=0 sent=3 failed=0 dropped=0,0,0,0,0,0 concealed=0 fence=9 stale=0\n",
        ..CASE
    },
    Case {
        name: "neither a stale message nor one that can't be journaled raises the fence",
        session: Session {
            journal: Some(Durability::Synced),
            faults: &[(FileCall::Write, 0, 1)],
            waiting: &[(0, CALLER, TEN), (0, CALLER, NINE)],
            ..FENCED
        },
        ended: Ok([2, 1, 0, 0, 1]),
        call_log: b"c0r1c0s1a0n0n1n2",
        printed: b"ready\ncontrol=1 media=0 ticks=0 sent=1 failed=0 dropped=0,0,0,0,0,0 concealed=0 fence=9 stale=0\n",
        ..CASE
    },
    Case {
        name: "stale messages are noted and reported, once a second",
        session: Session {
            title: Some(b"a title"),
            seconds: 1,
            waiting: &[(0, CALLER, TEN), (0, CALLER, NINE), (0, CALLER, NINE)],
            lines: &[(1, b"poll\n"), (50, b"tick\n")],
            ..FENCED
        },
        ended: Ok([51, 1, 0, 50, 1]),
        call_log: b"c0a0c0c0n0n1n2",
        printed: b"# a title\n# ready\ncontrol 127.0.0.1:40000 ..",
        reports: b"2 messages were stale: the fence is at 10\n\
            totals control=1 media=0 ticks=50 sent=1 failed=0 strangers=0 started=0 placed=0 pushed=0 again=0 late=0 \
            dropped=0,0,0,0,0,0 concealed=0\n\
            fence number=10 stale=2\n",
        ..CASE
    },
];

#[test]
fn serves_behind_a_fence(rt: HostRuntime) -> Result<(), Fail> {
    play_all(&rt, rt.alloc(), CASES)?;
    Ok(())
}
