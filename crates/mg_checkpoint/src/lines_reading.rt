//! The lines of a checkpoint. What is read is later compared with what is written, so the contracts say nothing.

use crate::context_line::ContextLine;
use crate::draft::Draft;
use crate::fault::RestoreFault;
use crate::listener_line::ListenerLine;
use crate::parts_reading::{closing, numbered};
use crate::reply_line::ReplyLine;
use crate::termination_line::TerminationLine;
use std::alloc::Global;

/// Parses the first line, which has the counts of events.
fn read_counts(line: &[u8], draft: &mut Draft) -> Option<()> {
    let (control, rest) = numbered(b"checkpoint after ", line)?;
    let (ticks, rest) = numbered(b"control datagrams and ", rest)?;
    if rest != b"ticks".as_slice() {
        return None;
    }
    draft.control = control;
    draft.ticks = ticks;
    Some(())
}

/// Parses the line with the next numbers.
fn read_next(line: &[u8], draft: &mut Draft) -> Option<()> {
    let (termination, rest) = numbered(b"next RTP/", line)?;
    draft.next_context = closing(b"context ", rest)?;
    draft.next_termination = termination;
    Some(())
}

/// Parses one of the first two lines, or passes over the last line or an empty line, which say nothing about the
/// gateway.
fn read_other(line: &[u8], at: u64, draft: &mut Draft) -> Result<(), RestoreFault> {
    let is_read = if line.starts_with(b"checkpoint ") {
        read_counts(line, draft).is_some()
    } else if line.starts_with(b"next ") {
        read_next(line, draft).is_some()
    } else {
        line.starts_with(b"end after ") || line.is_empty()
    };
    if is_read {
        Ok(())
    } else {
        Err(RestoreFault::BadLine(at))
    }
}

/// Parses a line without its line feed.
fn read_line(alloc: Global, line: &[u8], at: u64, draft: &mut Draft) -> Result<(), RestoreFault> {
    if line.starts_with(b"context ") {
        let Some(context) = ContextLine::read(line, at) else {
            return Err(RestoreFault::BadLine(at));
        };
        draft.contexts.push(context)?;
    } else if line.starts_with(b"termination ") {
        let Some(termination) = TerminationLine::read(line) else {
            return Err(RestoreFault::BadLine(at));
        };
        draft.terminations.push(termination)?;
    } else if line.starts_with(b"listener ") {
        let Some(listener) = ListenerLine::read(line, at) else {
            return Err(RestoreFault::BadLine(at));
        };
        draft.listeners.push(listener)?;
    } else if line.starts_with(b"reply ") {
        draft.replies.push(ReplyLine::read(alloc, line, at)?)?;
    } else {
        read_other(line, at, draft)?;
    }
    Ok(())
}

/// Parses the lines of a checkpoint.
pub fn read_lines(alloc: Global, text: &[u8]) -> Result<Draft, RestoreFault> {
    let mut draft = Draft::new(alloc);
    let mut at: u64 = 0;
    for line in text.split(|b| *b == b'\n') {
        at = at.saturating_add(1);
        read_line(alloc, line, at, &mut draft)?;
    }
    Ok(draft)
}
