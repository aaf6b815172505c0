//! Sessions with a journal, over in-memory ports.

use crate::cases::compared;
use crate::equality::assert_equal;
use crate::sessions::{ADD, CALLER, HEARTBEAT, Outcome, SESSION, Session, count, play};
use mg_core::count_of;
use mg_journal::FileCall;
use mg_serve::{Durability, JournalReport};
use std::alloc::{AllocError, Global};
use std::process::Abort;
use std::test::Fail;

/// A datagram that is longer than any message.
pub const OVERSIZED: &[u8] = &[b' '; 8_193];

/// A marker for a recording whose events don't begin with those of the journal's text.
const OTHERS: &[u8] = b"other events";

/// A recorded session without datagrams.
const RECORDED: Session<'static> = Session {
    title: Some(b"a title"),
    ..SESSION
};

/// A recorded session and its expected outcome. If an expected text ends with `..`, only the start of the actual text
/// is compared with it. If it begins with `..`, only the end is compared.
#[derive(Drop)]
struct Case<'a> {
    name: &'a str,
    session: Session<'a>,
    call_log: &'a [u8],
    /// The comments of the recording.
    comments: &'a [u8],
    /// The start of the journal's text.
    start: &'a [u8],
    /// The number of lines in the journal's text, and the number of synced lines.
    lines: usize,
    synced: usize,
    /// The events of the recording after those of the journal's text, or `OTHERS` if the journal has other events.
    rest: &'a [u8],
    /// The last report about the journal.
    report: JournalReport,
}

const CASES: &[Case<'static>] = &[
    Case {
        name: "a message is appended before it is answered",
        session: Session {
            journal: Some(Durability::Synced),
            waiting: &[(0, CALLER, ADD), (0, CALLER, HEARTBEAT)],
            failing: &[2],
            lines: &[(1, b"poll\ntick\ntick\npoll\ntick\n")],
            ..RECORDED
        },
        call_log: b"c0s1a0f0n1n2p1p1c0w1s1a0n0n1n2p1",
        comments: b"# a title\n# ready\n",
        start: b"",
        lines: 3,
        synced: 3,
        rest: b"tick\n",
        report: JournalReport {
            lacking: 1,
            failed: 0,
            unjournaled: 0,
            unrenewed: 0,
        },
    },
    Case {
        name: "an oversized datagram is answered but not appended",
        session: Session {
            journal: Some(Durability::Written),
            waiting: &[(0, CALLER, OVERSIZED), (0, CALLER, HEARTBEAT)],
            lines: &[(1, b"tick\npoll\ntick\n")],
            ..RECORDED
        },
        call_log: b"c0a0c0w1w1a0n0n1n2",
        comments: b"# a title\n# ready\n",
        start: b"ticks 1\ncontrol 127.0.0.1:40000 4d4547",
        lines: 2,
        synced: 0,
        // The recording has the oversized datagram.
        rest: OTHERS,
        report: JournalReport {
            lacking: 1,
            failed: 0,
            unjournaled: 0,
            unrenewed: 0,
        },
    },
    Case {
        name: "messages are appended without a sync",
        session: Session {
            journal: Some(Durability::Written),
            waiting: &[(0, CALLER, HEARTBEAT)],
            lines: &[(1, b"poll\n")],
            ..RECORDED
        },
        call_log: b"c0w1a0n0n1n2",
        comments: b"# a title\n# ready\n",
        start: b"control 127.0.0.1:40000 4d4547",
        lines: 1,
        synced: 0,
        rest: b"",
        report: JournalReport {
            lacking: 0,
            failed: 0,
            unjournaled: 0,
            unrenewed: 0,
        },
    },
    Case {
        name: "a refused message is answered when it is repeated",
        // The first write of the second message's line fails. A caller still receives packets.
        session: Session {
            journal: Some(Durability::Synced),
            waiting: &[
                (0, CALLER, ADD),
                (0, CALLER, HEARTBEAT),
                (0, CALLER, HEARTBEAT),
            ],
            failing: &[2, 7],
            faults: &[(FileCall::Write, 2, 1)],
            lines: &[(1, b"poll\ntick\npoll\ntick\ntick\npoll\nstats\n")],
            ..RECORDED
        },
        call_log: b"c0s1a0f0n1n2p1c0w1r1f0n1n2p1p1c0w1s1a0n0n1n2",
        comments: b"# a title\n# ready\n# no journal for a control datagram\n# control=2 media=0 ticks=3 sent=5 failed=2 dropped=0,0,0,0,0,0 concealed=0\n",
        start: b"",
        lines: 4,
        synced: 4,
        rest: b"",
        report: JournalReport {
            lacking: 2,
            failed: 1,
            unjournaled: 1,
            unrenewed: 0,
        },
    },
    Case {
        name: "nothing is answered once the journal is broken",
        // The sync of the second message fails, so its line stays in the file but not in the recording. Packets are
        // still sent.
        session: Session {
            journal: Some(Durability::Synced),
            waiting: &[
                (0, CALLER, ADD),
                (0, CALLER, HEARTBEAT),
                (0, CALLER, HEARTBEAT),
            ],
            failing: &[2, 6],
            faults: &[(FileCall::Sync, 1, 1)],
            lines: &[(1, b"poll\npoll\ntick\npoll\ntick\n")],
            ..RECORDED
        },
        call_log: b"c0s1a0f0n1n2c0b1f0n1n2p1c0b1n0n1n2p1",
        comments: b"# a title\n# ready\n# no journal for a control datagram\n# no journal for a control datagram\n",
        start: b"",
        lines: 2,
        synced: 1,
        rest: OTHERS,
        report: JournalReport {
            lacking: 2,
            failed: 2,
            unjournaled: 2,
            unrenewed: 0,
        },
    },
    Case {
        name: "ticks are appended five times a second",
        session: Session {
            journal: Some(Durability::Synced),
            lines: &[(1, b"poll\n"), (11, b"tick\n")],
            ..RECORDED
        },
        call_log: b"n0n1n2w1",
        comments: b"# a title\n# ready\n",
        start: b"ticks 10\n",
        lines: 1,
        synced: 0,
        rest: b"tick\n",
        report: JournalReport {
            lacking: 1,
            failed: 0,
            unjournaled: 0,
            unrenewed: 0,
        },
    },
    Case {
        name: "appends are tried again at each tick",
        session: Session {
            journal: Some(Durability::Written),
            faults: &[(FileCall::Write, 0, 2)],
            lines: &[(1, b"poll\n"), (13, b"tick\n")],
            ..RECORDED
        },
        call_log: b"n0n1n2r1r1w1",
        comments: b"# a title\n# ready\n",
        start: b"ticks 12\n",
        lines: 1,
        synced: 0,
        rest: b"tick\n",
        report: JournalReport {
            lacking: 1,
            failed: 2,
            unjournaled: 0,
            unrenewed: 0,
        },
    },
    Case {
        name: "many ticks are appended in one line",
        // While appends fail, ticks pass. They are appended before the next message.
        session: Session {
            journal: Some(Durability::Synced),
            waiting: &[(0, CALLER, HEARTBEAT)],
            faults: &[(FileCall::Write, 0, 993)],
            lines: &[(1002, b"tick\n"), (1, b"poll\n")],
            ..RECORDED
        },
        call_log: b"..r1r1r1c0w1s1a0n0n1n2",
        comments: b"# a title\n# ready\n",
        start: b"ticks 1002\n",
        lines: 2,
        synced: 2,
        rest: b"",
        report: JournalReport {
            lacking: 1002,
            failed: 993,
            unjournaled: 0,
            unrenewed: 0,
        },
    },
    Case {
        name: "nothing is appended unless it is set up",
        session: Session {
            journal: None,
            waiting: &[(0, CALLER, ADD)],
            lines: &[(51, b"tick\n"), (1, b"poll\ntick\n")],
            ..RECORDED
        },
        call_log: b"c0a0n0n1n2p1",
        comments: b"# a title\n# ready\n",
        start: b"",
        lines: 0,
        synced: 0,
        rest: b"tick\ntick\n..",
        report: JournalReport {
            lacking: 0,
            failed: 0,
            unjournaled: 0,
            unrenewed: 0,
        },
    },
];

/// Returns only the comment lines of the text, or only its other lines.
fn lines_of(alloc: Global, text: &[u8], comments: bool) -> Result<Vec<u8>, AllocError> {
    let mut kept = Vec::new(alloc);
    for line in text.split(|b| *b == b'\n') {
        if !line.is_empty() && line.starts_with(b"#") == comments {
            kept.extend_from_slice(line)?;
            kept.push(b'\n')?;
        }
    }
    Ok(kept)
}

/// Returns the text without its empty lines. A line such as `ticks 12` is replaced by twelve `tick` lines.
fn uncounted(alloc: Global, text: &[u8]) -> Result<Vec<u8>, AllocError> {
    let mut lines = Vec::new(alloc);
    for line in text.split(|b| *b == b'\n') {
        if let Some(digits) = line.strip_prefix(b"ticks ".as_slice()) {
            for _ in 0..count_of(digits).unwrap_or(0) {
                lines.extend_from_slice(b"tick\n")?;
            }
        } else if !line.is_empty() {
            lines.extend_from_slice(line)?;
            lines.push(b'\n')?;
        }
    }
    Ok(lines)
}

/// Returns whether the events of a recording consist of those of the journal's text and then `rest`. If they don't
/// begin with those of the journal's text, `rest` must be `OTHERS`.
fn go_on(events: &[u8], text: &[u8], rest: &[u8]) -> bool {
    match events.strip_prefix(text) {
        Some(found) => compared(found, rest) == rest,
        None => rest == OTHERS,
    }
}

/// Ends the test unless the session had its expected outcome.
fn compare(
    rt: &impl Abort,
    alloc: Global,
    case: &Case<'_>,
    outcome: &Outcome,
) -> Result<(), AllocError> {
    let text = outcome.text.as_slice();
    let comments = lines_of(alloc, outcome.printed.as_slice(), true)?;
    let events = lines_of(alloc, outcome.printed.as_slice(), false)?;
    let told = uncounted(alloc, text)?;
    let are_as_wanted = [
        comments.as_slice() == case.comments,
        text.starts_with(case.start),
        go_on(events.as_slice(), told.as_slice(), case.rest),
    ];
    let (synced, _) = text.split_at(outcome.synced.min(text.len()));
    let counts = [
        count(text, b'\n'),
        count(synced, b'\n'),
        synced.len().min(1),
    ];
    assert_equal(
        rt,
        (
            case.name,
            compared(outcome.call_log.as_bytes(), case.call_log),
            are_as_wanted,
            counts,
            outcome.seen.journal,
        ),
        (
            case.name,
            case.call_log,
            [true; 3],
            [case.lines, case.synced, case.synced.min(1)],
            case.report,
        ),
    );
    Ok(())
}

#[test]
fn journals_sessions(rt: HostRuntime) -> Result<(), Fail> {
    let alloc = rt.alloc();
    for case in CASES {
        let outcome = play(alloc, &case.session)?;
        compare(&rt, alloc, case, &outcome)?;
    }
    Ok(())
}
