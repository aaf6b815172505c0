//! Sessions and their expected outcomes.

use crate::equality::assert_equal;
use crate::sessions::{Outcome, SESSION, Session, play};
use mg_serve::RunFault;
use std::alloc::Global;
use std::io;
use std::process::Abort;

/// A session and its expected outcome. If an expected text ends with `..`, only the start of the actual text is
/// compared with it. If it begins with `..`, only the end is compared.
#[derive(Drop)]
pub struct Case<'a> {
    pub name: &'a str,
    pub session: Session<'a>,
    /// The expected counts of lines, control datagrams, RTP datagrams, ticks and sent datagrams, or the fault.
    pub ended: Result<[u64; 5], RunFault>,
    pub call_log: &'a [u8],
    pub printed: &'a [u8],
    pub reports: &'a [u8],
    /// The last datagram that was sent.
    pub last_sent: &'a [u8],
}

/// A session without lines.
pub const CASE: Case<'static> = Case {
    name: "",
    session: SESSION,
    ended: Ok([0; 5]),
    call_log: b"",
    printed: b"ready\n",
    reports: b"",
    last_sent: b"..",
};

/// Returns `wanted` if the text is as expected, and the text otherwise. If `wanted` ends with `..`, only the start of
/// the text is compared with it. If `wanted` begins with `..`, only the end is compared.
pub fn compared<'a>(text: &'a [u8], wanted: &'a [u8]) -> &'a [u8] {
    let dots = b"..".as_slice();
    let is_as_wanted = if let Some(start) = wanted.strip_suffix(dots) {
        text.starts_with(start)
    } else if let Some(end) = wanted.strip_prefix(dots) {
        text.ends_with(end)
    } else {
        text == wanted
    };
    if is_as_wanted { wanted } else { text }
}

/// Returns the counts of a session, or the fault that ended it.
fn ended(outcome: &Outcome) -> Result<[u64; 5], RunFault> {
    match &outcome.result {
        Ok(counts) => Ok([
            counts.lines,
            counts.control,
            counts.media,
            counts.ticks,
            counts.sent,
        ]),
        Err(fault) => Err(*fault),
    }
}

/// Ends the test unless the session had its expected outcome.
fn compare(rt: &impl Abort, case: &Case<'_>, outcome: &Outcome) {
    let texts = [
        compared(outcome.call_log.as_bytes(), case.call_log),
        compared(outcome.printed.as_slice(), case.printed),
        compared(outcome.seen.reports.as_slice(), case.reports),
        compared(outcome.last_sent.as_slice(), case.last_sent),
    ];
    assert_equal(
        rt,
        (case.name, ended(outcome), texts),
        (
            case.name,
            case.ended,
            [case.call_log, case.printed, case.reports, case.last_sent],
        ),
    );
}

/// Plays each session. Ends the test unless each session had its expected outcome.
pub fn play_all(rt: &impl Abort, alloc: Global, cases: &[Case<'_>]) -> io::Result<()> {
    for case in cases {
        let outcome = play(alloc, &case.session)?;
        compare(rt, case, &outcome);
    }
    Ok(())
}
