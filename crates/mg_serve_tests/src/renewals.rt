//! Sessions that renew their journal, over in-memory ports.

use crate::cases::{CASE, Case, compared, play_all};
use crate::equality::assert_equal;
use crate::sessions::{ADD, CALLER, HEARTBEAT, Outcome, SESSION, Session, config, play};
use mg_checkpoint::{restore, save};
use mg_core::{Core, resume, resume_from};
use mg_fence::FenceReader;
use mg_journal::FileCall;
use mg_ports::Peer;
use mg_serve::Durability;
use std::alloc::{AllocError, Global};
use std::io::Cursor;
use std::test::Fail;

/// Adds a termination to context 1. Its caller is on port 40002.
const ADD_ANOTHER: &[u8] = b"MEGACO/1 [127.0.0.1]:2945 Transaction=3{Context=1{Add=${Media{\
    LocalControl{Mode=SendReceive},Local{v=0\nc=IN IP4 $\nm=audio $ RTP/AVP 0\n},\
    Remote{v=0\nc=IN IP4 127.0.0.1\nm=audio 40002 RTP/AVP 0\n}}}}}";

/// Separates the two callers. The sender has the number 9.
const ISOLATE: &[u8] =
    b"MEGACO/1 <9.lobby.example> Transaction=4{Context=1{Topology{RTP/1,RTP/2,Isolate}}}";

/// Joins the two callers again, in one direction.
const JOIN: &[u8] =
    b"MEGACO/1 <8.lobby.example> Transaction=5{Context=1{Topology{RTP/1,RTP/2,Oneway}}}";

/// Messages that arrive in three polls.
const MESSAGES: &[(usize, Peer, &[u8])] = &[
    (0, CALLER, ADD),
    (0, CALLER, ADD_ANOTHER),
    (0, CALLER, ISOLATE),
    (0, CALLER, JOIN),
    (0, CALLER, HEARTBEAT),
];

/// A session with a renewal after the second tick, and another one after the fifth.
const RENEWED_TWICE: Session<'static> = Session {
    journal: Some(Durability::Synced),
    title: Some(b"a title"),
    waiting: MESSAGES,
    // The first two polls end with these receives.
    failing: &[2, 11],
    renewals: &[2, 5],
    head: b"# a title\n",
    reached: 4,
    lines: &[
        (1, b"poll\ntick\ntick\npoll\ntick\ntick\ntick\npoll\n"),
        (10, b"tick\n"),
    ],
    ..SESSION
};

const CASES: &[Case<'static>] = &[
    Case {
        name: "a renewed journal lacks no ticks",
        session: Session {
            journal: Some(Durability::Synced),
            renewals: &[8, 9],
            lines: &[(19, b"tick\n")],
            ..SESSION
        },
        ended: Ok([19, 0, 0, 19, 0]),
        call_log: b"w1e5w1e5w1",
        ..CASE
    },
    Case {
        name: "after a refused renewal the journal goes on",
        session: Session {
            journal: Some(Durability::Written),
            renewals: &[8, 9],
            faults: &[(FileCall::Replace, 0, 1)],
            lines: &[(19, b"tick\n")],
            ..SESSION
        },
        ended: Ok([19, 0, 0, 19, 0]),
        call_log: b"w1u5w1e5w1",
        reports: b"the journal can't be renewed: the next try is in a minute\n",
        ..CASE
    },
    Case {
        name: "ticks are appended before a renewal that is refused",
        session: Session {
            journal: Some(Durability::Written),
            renewals: &[8],
            faults: &[(FileCall::CreateNext, 0, 1)],
            lines: &[(10, b"tick\n")],
            ..SESSION
        },
        ended: Ok([10, 0, 0, 10, 0]),
        call_log: b"w1u5",
        reports: b"the journal can't be renewed: the next try is in a minute\n",
        ..CASE
    },
    Case {
        name: "a renewal heals a broken journal",
        // The append of the first eight ticks breaks the journal.
        session: Session {
            journal: Some(Durability::Written),
            renewals: &[8],
            faults: &[(FileCall::Write, 0, 1), (FileCall::Cut, 0, 1)],
            lines: &[(18, b"tick\n")],
            ..SESSION
        },
        ended: Ok([18, 0, 0, 18, 0]),
        call_log: b"b1e5w1",
        reports: b"the journal can't be written: messages get no answer\nthe journal can be written again\n",
        ..CASE
    },
    Case {
        name: "without a journal nothing is renewed",
        session: Session {
            renewals: &[1, 2],
            lines: &[(2, b"tick\n")],
            ..SESSION
        },
        ended: Ok([2, 0, 0, 2, 0]),
        ..CASE
    },
];

/// Returns the checkpoint of a gateway.
fn checkpoint_of(alloc: Global, core: &Core) -> Result<Vec<u8>, AllocError> {
    let mut text = Vec::new(alloc);
    save(core, &mut text)?;
    Ok(text)
}

/// Returns the checkpoint of the gateway that runs this recording from its start, or nothing if it is not a script.
fn replayed(alloc: Global, recording: &[u8]) -> Result<Vec<u8>, AllocError> {
    let mut reader = FenceReader::new(alloc);
    match resume(alloc, config(), &mut Cursor::new(recording), &mut reader) {
        Ok(core) => checkpoint_of(alloc, &core),
        Err(_) => Ok(Vec::new(alloc)),
    }
}

/// Returns the checkpoint of the gateway that is restored from a checkpoint and then runs this script. Returns nothing
/// if one of the texts is bad.
fn restored(alloc: Global, checkpoint: &[u8], tail: &[u8]) -> Result<Vec<u8>, AllocError> {
    let mut reader = FenceReader::new(alloc);
    let Ok(core) = restore(alloc, config(), checkpoint) else {
        return Ok(Vec::new(alloc));
    };
    match resume_from(alloc, core, &mut Cursor::new(tail), &mut reader) {
        Ok(core) => checkpoint_of(alloc, &core),
        Err(_) => Ok(Vec::new(alloc)),
    }
}

/// Returns the place of the first occurrence of a part, if there is one.
fn position_of(text: &[u8], part: &[u8]) -> Option<usize> {
    (0..text.len()).find(|at| text.get(*at..).unwrap_or(&[]).starts_with(part))
}

/// Splits the text of a journal into the checkpoint after the title, and what follows. Returns `None` if the text has
/// no title, or if ticks aren't counted.
fn parts_of(text: &[u8]) -> Option<(&[u8], &[u8])> {
    let mark = b"# counted ticks\n".as_slice();
    let rest = text.strip_prefix(b"# a title\n".as_slice())?;
    let at = position_of(rest, mark)?;
    Some(rest.split_at(at.min(rest.len())))
}

/// Returns the checkpoint of a new gateway that ran the session, and that of a gateway that resumed from the session's
/// journal.
fn checkpoints_of(alloc: Global, outcome: &Outcome) -> Result<[Vec<u8>; 2], AllocError> {
    let (checkpoint, tail) = parts_of(outcome.text.as_slice()).unwrap_or((b"", b""));
    Ok([
        replayed(alloc, outcome.printed.as_slice())?,
        restored(alloc, checkpoint, tail)?,
    ])
}

#[test]
fn renews_journals(rt: HostRuntime) -> Result<(), Fail> {
    play_all(&rt, rt.alloc(), CASES)?;
    Ok(())
}

/// The journal has the checkpoint of the fifth tick, and then only what happened since. A gateway that resumes from it
/// has the session's terminations, replies and flows.
#[test]
fn resumes_from_renewed_journals(rt: HostRuntime) -> Result<(), Fail> {
    let alloc = rt.alloc();
    let outcome = play(alloc, &RENEWED_TWICE)?;
    let [wanted, found] = checkpoints_of(alloc, &outcome)?;
    let (checkpoint, tail) = parts_of(outcome.text.as_slice()).unwrap_or((b"", b""));
    let start = b"checkpoint after 3 control datagrams and 5 ticks\n..".as_slice();
    let follows = b"# counted ticks\n# reached 9\n# follows ..".as_slice();
    // The hash has 64 digits.
    let message = position_of(tail, b"\ncontrol 127.0.0.1:40000 ");
    let muted = b"\nlistener RTP/1 has RTP/2 muted\n".as_slice();
    let is_muted = position_of(wanted.as_slice(), muted).is_some();
    assert_equal(
        &rt,
        (
            compared(checkpoint, start),
            compared(tail, follows),
            message,
            is_muted,
            found.as_slice(),
        ),
        (start, follows, Some(102), true, wanted.as_slice()),
    );
    Ok(())
}
