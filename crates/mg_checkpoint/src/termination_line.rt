use crate::parts_reading::{media, mode, numbered, numbered_8, numbered_16, numbered_32};
use mg_engine::{Record, SentMedia};

/// The line of a termination.
#[derive(Clone, Copy)]
pub struct TerminationLine {
    pub record: Record,
    pub sent: SentMedia,
}

/// Parses the record of a termination. Returns the rest of its line.
fn record_in(line: &[u8]) -> Option<(Record, &[u8])> {
    let (number, rest) = numbered_32(b"termination RTP/", line)?;
    let (context, rest) = numbered_32(b"context ", rest)?;
    let (slot, rest) = numbered_8(b"slot ", rest)?;
    let (seat, rest) = numbered_8(b"seat ", rest)?;
    let (mode, rest) = mode(b"mode ", rest)?;
    let (depth, rest) = numbered_8(b"depth ", rest)?;
    let (local, rest) = media(b"local ", rest)?;
    let (remote, rest) = media(b"remote ", rest)?;
    let record = Record {
        number,
        context,
        slot,
        seat,
        mode,
        depth,
        local,
        remote,
    };
    Some((record, rest))
}

/// Parses what a termination has sent, the rest of its line.
fn sent_in(text: &[u8]) -> Option<SentMedia> {
    let (timestamp, rest) = numbered_32(b"timestamp ", text)?;
    let (sequence, rest) = numbered_16(b"sequence ", rest)?;
    let (sent, rest) = numbered(b"sent ", rest)?;
    let (octets, rest) = numbered(b"octets ", rest)?;
    let is_sending = match rest {
        b"sending" => true,
        b"paused" => false,
        _ => return None,
    };
    Some(SentMedia {
        timestamp,
        sequence,
        is_sending,
        sent,
        octets,
    })
}

impl TerminationLine {
    /// Parses a line. Returns `None` if it isn't the line of a termination.
    pub fn read(line: &[u8]) -> Option<Self> {
        let (record, rest) = record_in(line)?;
        let sent = sent_in(rest)?;
        Some(TerminationLine { record, sent })
    }
}
