//! Tests of in-memory ports.

use crate::equality::assert_equal;
use crate::journal::{BROKEN, FULL, REFUSED, ends_in_line_feed, file};
use mg_journal::{FileCall, InjectedFault, MemoryFile, Opening};
use mg_ports::{
    AppendFault, Arrival, Batch, Call, Durability, FakePorts, Payload, Peer, PortFault, Ports,
    Receipt, Timing,
};
use std::alloc::{AllocError, Global};
use std::io;
use std::test::Fail;

const CALLER: Peer = Peer {
    address: [127, 0, 0, 1],
    port: 40000,
};

/// A call on ports, with its outcome. Datagrams come from `CALLER` and are sent to `CALLER`.
#[derive(Clone, Copy)]
enum Action<'a> {
    Receive(usize, Result<Option<&'a [u8]>, PortFault>),
    Send(usize, &'a [u8], Result<(), PortFault>),
    BeginTick(Timing),
    Append(&'a [u8], Durability, Result<(), AppendFault>),
}

/// The bytes in a journal's file, and the bytes that are on the disk.
#[derive(Clone, Copy)]
struct File<'a> {
    bytes: &'a [u8],
    synced: &'a [u8],
}

/// Calls on ports at which `one` and `two` are waiting at socket 0, and `three` at socket 2.
struct Case<'a> {
    name: &'a str,
    /// The numbers of the receives and sends that fail.
    failing: &'a [u64],
    /// The faults of the journal's file, if there is a journal.
    faults: Option<&'a [InjectedFault]>,
    /// The length of the buffer for datagrams, at most 8.
    room: usize,
    actions: &'a [Action<'a>],
    failures: u64,
    file: Option<File<'a>>,
}

const CASES: [Case<'static>; 7] = [
    Case {
        name: "datagrams are received by their sockets",
        failing: &[],
        faults: None,
        room: 8,
        actions: &[
            Action::Receive(0, Ok(Some(b"one"))),
            Action::Receive(1, Ok(None)),
            Action::Receive(0, Ok(Some(b"two"))),
            Action::Receive(0, Ok(None)),
            Action::Receive(2, Ok(Some(b"three"))),
        ],
        failures: 0,
        file: None,
    },
    Case {
        name: "a datagram is cut to the buffer",
        failing: &[],
        faults: None,
        room: 2,
        actions: &[Action::Receive(2, Ok(Some(b"th")))],
        failures: 0,
        file: None,
    },
    Case {
        name: "receives and sends fail on request",
        failing: &[0, 2],
        faults: None,
        room: 8,
        actions: &[
            Action::Receive(0, Err(PortFault)),
            Action::Receive(0, Ok(Some(b"one"))),
            Action::Send(0, b"yes", Err(PortFault)),
            Action::Send(0, b"yes", Ok(())),
        ],
        failures: 2,
        file: None,
    },
    Case {
        name: "a tick begins between a receive and a send",
        failing: &[2],
        faults: None,
        room: 8,
        actions: &[
            Action::Receive(2, Ok(Some(b"three"))),
            Action::Receive(1, Ok(None)),
            Action::Receive(0, Err(PortFault)),
            Action::BeginTick(Timing::Late),
            Action::Send(3, b"out", Ok(())),
        ],
        failures: 1,
        file: None,
    },
    Case {
        name: "lines are appended before and after a send",
        failing: &[],
        faults: Some(&[]),
        room: 8,
        actions: &[
            Action::Append(b"one\n", Durability::Written, Ok(())),
            Action::Send(0, b"yes", Ok(())),
            Action::Append(b"two\nthree\n", Durability::Synced, Ok(())),
            Action::Append(b"four\n", Durability::Written, Ok(())),
        ],
        failures: 0,
        file: Some(File {
            bytes: b"one\ntwo\nthree\nfour\n",
            synced: b"one\ntwo\nthree\n",
        }),
    },
    // None of the failed appends counts as a failed receive or send.
    Case {
        name: "a journal refuses a line if the write fails, and is broken once a sync fails",
        failing: &[],
        faults: Some(&[
            InjectedFault {
                call: FileCall::Write,
                number: 0,
                effect: FULL,
            },
            InjectedFault {
                call: FileCall::Sync,
                number: 0,
                effect: FULL,
            },
        ]),
        room: 8,
        actions: &[
            Action::Append(b"one\n", Durability::Synced, REFUSED),
            Action::Append(b"two\n", Durability::Synced, BROKEN),
            Action::Append(b"three\n", Durability::Written, BROKEN),
        ],
        failures: 0,
        file: Some(File {
            bytes: b"two\n",
            synced: b"",
        }),
    },
    Case {
        name: "nothing is appended without a journal",
        failing: &[],
        faults: None,
        room: 8,
        actions: &[Action::Append(b"one\n", Durability::Written, BROKEN)],
        failures: 0,
        file: None,
    },
];

/// The sockets and bytes of the datagrams that are waiting in each case.
const WAITING: [(usize, &[u8]); 3] = [(0, b"one"), (2, b"three"), (0, b"two")];

fn arrival(alloc: Global, socket: usize, bytes: &[u8]) -> Result<Arrival, AllocError> {
    Ok(Arrival {
        socket,
        source: CALLER,
        payload: Payload::new(alloc, bytes)?,
    })
}

/// Returns the datagrams that are waiting in each case.
fn arrivals(alloc: Global) -> Result<Vec<Arrival>, AllocError> {
    let mut arrivals = Vec::new(alloc);
    for (socket, bytes) in &WAITING {
        arrivals.push(arrival(alloc, *socket, bytes)?)?;
    }
    Ok(arrivals)
}

/// Returns ports at which the datagrams of each case are waiting. The receives and sends with these numbers fail.
fn ports(alloc: Global, failing: &[u64]) -> Result<FakePorts, AllocError> {
    let failing = failing.to_vec(alloc)?;
    Ok(FakePorts::new(alloc, arrivals(alloc)?, failing))
}

/// Adds a journal to ports, in an empty file with these faults.
fn with_journal(
    alloc: Global,
    ports: FakePorts,
    faults: &[InjectedFault],
) -> io::Result<FakePorts> {
    let file = file(alloc, b"", faults)?;
    Ok(ports.with_journal(Opening::new(file)?.accept()?))
}

/// Receives at a socket. Returns whether the outcome is as expected.
fn receives(
    ports: &mut FakePorts,
    socket: usize,
    buffer: &mut [u8],
    outcome: Result<Option<&[u8]>, PortFault>,
) -> bool {
    match (ports.receive(socket, buffer), outcome) {
        (Ok(Some((n, source))), Ok(Some(text))) => source == CALLER && &buffer[..n] == text,
        (Ok(None), Ok(None)) => true,
        (Err(fault), Err(wanted)) => fault == wanted,
        _ => false,
    }
}

/// Carries out an action. Returns whether it has the given outcome.
fn does(ports: &mut FakePorts, buffer: &mut [u8], action: &Action<'_>) -> bool {
    match *action {
        Action::Receive(socket, outcome) => receives(ports, socket, buffer, outcome),
        Action::Send(socket, text, outcome) => ports.send(socket, CALLER, text) == outcome,
        Action::BeginTick(timing) => {
            ports.begin_tick(timing);
            true
        }
        Action::Append(lines, durability, outcome) => {
            ends_in_line_feed(lines) && ports.append(Batch::Message, lines, durability) == outcome
        }
    }
}

/// Returns whether the receipt of a receive agrees with its outcome.
fn is_receipt(receipt: &Receipt, outcome: Result<Option<&[u8]>, PortFault>) -> bool {
    match (receipt, outcome) {
        (Receipt::Delivered(source, payload), Ok(Some(text))) => {
            *source == CALLER && payload.as_slice() == text
        }
        (Receipt::Nothing, Ok(None)) => true,
        (Receipt::Failed, Err(_)) => true,
        _ => false,
    }
}

/// Returns whether a logged call is this action.
fn is_logged(call: &Call, action: &Action<'_>) -> bool {
    match (call, *action) {
        (Call::Receive(at, receipt), Action::Receive(socket, outcome)) => {
            *at == socket && is_receipt(receipt, outcome)
        }
        (Call::Send(from, to, payload), Action::Send(socket, text, _)) => {
            *from == socket && *to == CALLER && payload.as_slice() == text
        }
        (Call::BeginTick(timing), Action::BeginTick(wanted)) => *timing == wanted,
        (Call::Append(lines, how, answer), Action::Append(text, durability, outcome)) => {
            lines.as_slice() == text && *how == durability && *answer == outcome
        }
        _ => false,
    }
}

/// Returns whether the log has exactly these calls, in order.
fn are_logged(ports: &FakePorts, actions: &[Action<'_>]) -> bool {
    let calls = ports.calls().unwrap_or(&[]);
    if calls.len() != actions.len() {
        return false;
    }
    for at in 0..calls.len() {
        if !is_logged(&calls[at], &actions[at]) {
            return false;
        }
    }
    true
}

/// Returns whether the journal's file is as wanted.
fn is_file(file: Option<&MemoryFile>, wanted: Option<File<'_>>) -> bool {
    match (file, wanted) {
        (Some(file), Some(wanted)) => {
            file.bytes() == wanted.bytes && file.synced() == wanted.synced
        }
        (None, None) => true,
        _ => false,
    }
}

/// Returns the number of a case's first action without the given outcome, or `None` if there is no such action.
fn first_wrong(ports: &mut FakePorts, case: &Case<'_>) -> Option<usize> {
    let mut buffer = [0; 8];
    let room = case.room.min(8);
    for at in 0..case.actions.len() {
        if !does(ports, &mut buffer[..room], &case.actions[at]) {
            return Some(at);
        }
    }
    None
}

/// Runs a case. Returns its first wrong action, whether the log is right, the number of failures, and whether the file
/// is right.
fn play(alloc: Global, case: &Case<'_>) -> io::Result<(Option<usize>, bool, u64, bool)> {
    let mut ports = ports(alloc, case.failing)?;
    if let Some(faults) = case.faults {
        ports = with_journal(alloc, ports, faults)?;
    }
    Ok((
        first_wrong(&mut ports, case),
        are_logged(&ports, case.actions),
        ports.failures(),
        is_file(ports.journal_file(), case.file),
    ))
}

#[test]
fn carries_out_and_logs_calls(rt: HostRuntime) -> Result<(), Fail> {
    for case in &CASES {
        let played = play(rt.alloc(), case)?;
        let wanted = (None, true, case.failures, true);
        assert_equal(&rt, (case.name, played), (case.name, wanted));
    }
    Ok(())
}
