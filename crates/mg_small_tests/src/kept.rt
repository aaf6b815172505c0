//! Tests of kept replies.

use crate::equality::assert_right;
use mg_kept::Kept;
use std::alloc::{AllocError, Global};
use std::test::Fail;

const LOWER: &[u8] = b"<mgc.example>:2945";

const UPPER: &[u8] = b"<MGC.EXAMPLE>:2945";

const OTHER: &[u8] = b"[127.0.0.1]:2946";

/// A call with its outcome, or a check of the kept replies after the previous calls.
enum Action<'a> {
    /// Keeps a reply to the sender's request with this number, for which no reply was kept.
    Keep(&'a [u8], u32, &'a [u8]),
    /// Keeps a reply for each number from the first to the second, with the number as its text.
    KeepAll(u8, u8),
    /// The sender acknowledges the replies with the numbers from the first to the second.
    Ack(&'a [u8], u32, u32),
    /// This reply is kept for the sender's request with this number.
    Kept(&'a [u8], u32, &'a [u8]),
    /// No reply is kept for the sender's request with this number.
    Gone(&'a [u8], u32),
}

/// The cases: calls that start without kept replies.
const CASES: [(&str, &[Action<'static>]); 4] = [
    (
        "only the oldest is dropped",
        &[
            Action::KeepAll(1, 32),
            Action::Kept(LOWER, 1, &[1]),
            Action::KeepAll(33, 33),
            Action::Gone(LOWER, 1),
            Action::Kept(LOWER, 2, &[2]),
            Action::Kept(LOWER, 33, &[33]),
        ],
    ),
    (
        "names ignore case",
        &[
            Action::Keep(LOWER, 7, b"lower"),
            Action::Kept(UPPER, 7, b"lower"),
            Action::Gone(OTHER, 7),
            // Another sender may use the same number.
            Action::Keep(OTHER, 7, b"other"),
            Action::Kept(OTHER, 7, b"other"),
            Action::Ack(UPPER, 7, 7),
            Action::Gone(LOWER, 7),
            Action::Kept(OTHER, 7, b"other"),
        ],
    ),
    (
        "an acknowledged range is dropped",
        &[
            Action::KeepAll(1, 32),
            // A range whose first number exceeds its last is empty.
            Action::Ack(LOWER, 9, 7),
            Action::Kept(LOWER, 8, &[8]),
            Action::Ack(LOWER, 7, 9),
            Action::Kept(LOWER, 6, &[6]),
            Action::Gone(LOWER, 7),
            Action::Gone(LOWER, 9),
            Action::Kept(LOWER, 10, &[10]),
            // Three more replies fit, and the order of the replies is unchanged.
            Action::KeepAll(33, 35),
            Action::Kept(LOWER, 1, &[1]),
            Action::KeepAll(36, 41),
            Action::Gone(LOWER, 6),
            Action::Kept(LOWER, 10, &[10]),
        ],
    ),
    (
        "the longest text is kept whole",
        &[
            Action::Keep(&[b'm'; 72], 1, &[b'x'; 16000]),
            Action::Kept(&[b'M'; 72], 1, &[b'x'; 16000]),
        ],
    ),
];

/// Keeps a reply, if no reply to the request is kept yet and the name and the text are not too long. Returns whether
/// the reply was kept.
fn keep(kept: &mut Kept, sender: &[u8], number: u32, text: &[u8]) -> bool {
    if kept.find(sender, number).is_some() || sender.len() > 72 || text.len() > 16000 {
        return false;
    }
    kept.keep(sender, number, text);
    true
}

/// Keeps a reply for each number, up to the first one that can't be kept. Returns whether all were kept.
fn keep_all(kept: &mut Kept, first: u8, last: u8) -> bool {
    for number in first..=last {
        if !keep(kept, LOWER, u32::from(number), &[number]) {
            return false;
        }
    }
    true
}

/// Carries out an action. Returns whether it has the given outcome.
fn does(kept: &mut Kept, action: &Action<'_>) -> bool {
    match action {
        Action::Keep(sender, number, text) => keep(kept, sender, *number, text),
        Action::KeepAll(first, last) => keep_all(kept, *first, *last),
        Action::Ack(sender, first, last) => {
            kept.ack(sender, *first, *last);
            true
        }
        Action::Kept(sender, number, text) => kept.find(sender, *number) == Some(*text),
        Action::Gone(sender, number) => kept.find(sender, *number).is_none(),
    }
}

/// Returns the number of the first action without the given outcome, or `None` if there is no such action.
fn first_wrong(alloc: Global, actions: &[Action<'_>]) -> Result<Option<usize>, AllocError> {
    let mut kept = Kept::new(alloc)?;
    for at in 0..actions.len() {
        if !does(&mut kept, &actions[at]) {
            return Ok(Some(at));
        }
    }
    Ok(None)
}

#[test]
fn keeps_replies(rt: HostRuntime) -> Result<(), Fail> {
    for (name, actions) in &CASES {
        let wrong = first_wrong(rt.alloc(), actions)?;
        assert_right(&rt, name, wrong);
    }
    Ok(())
}
