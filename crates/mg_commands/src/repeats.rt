//! Checks whether a word of a command's descriptors has already occurred and must not be repeated.

ghost use Rattle.std.specs.Prelude.{◌≡◌, ℕ, List, ◌&&◌, ◌==◌};
ghost use Rattle.std.specs.List.{list_any};
ghost use Rattle.mg_commands.specs.DescriptorFault.{same_other_word, same_control, is_same_part};
ghost use Rattle.mg_commands.specs.Support.{is_jitter};
ghost use Rattle.mg_commands.specs.aids.Levels.{is_single, is_same_word, appears_in, appeared_in_media, is_state, media_level, stream_of, greatest_stream, is_same_descriptor};

use crate::opening::{open_descriptor, open_stream_part};
use crate::part::Part;
use crate::support::is_jitter;
use mg_text::{ControlPart, Descriptor, MediaPart, OtherWord, StreamPart};

fn same_other_word(a: OtherWord, b: OtherWord) -> bool
    ensures value { result ≡ same_other_word a b }
{
    matches!(
        (a, b),
        (OtherWord::Signals, OtherWord::Signals)
            | (OtherWord::Events, OtherWord::Events)
            | (OtherWord::Modem, OtherWord::Modem)
            | (OtherWord::Mux, OtherWord::Mux)
            | (OtherWord::DigitMap, OtherWord::DigitMap)
            | (OtherWord::EventBuffer, OtherWord::EventBuffer)
    )
}

fn same_control(source: &[u8], a: &ControlPart, b: &ControlPart) -> bool
    ensures value { result ≡ same_control source.now a.now b.now }
{
    match (a, b) {
        (ControlPart::Mode(_), ControlPart::Mode(_))
        | (ControlPart::ReservedValue(_), ControlPart::ReservedValue(_))
        | (ControlPart::ReservedGroup(_), ControlPart::ReservedGroup(_)) => true,
        (ControlPart::Property(a, _), ControlPart::Property(b, _)) => {
            is_jitter(source, *a) && is_jitter(source, *b)
        }
        _ => false,
    }
}

/// Returns whether one part repeats the other, which is not allowed. A word of a stream counts only within its stream.
fn is_same_part(source: &[u8], a: Part, b: Part) -> bool
    ensures value { result ≡ is_same_part source.now a b }
{
    match (a, b) {
        (Part::Media, Part::Media) | (Part::Audit, Part::Audit) => true,
        (Part::Other(a, _), Part::Other(b, _)) => same_other_word(a, b),
        (Part::TerminationState(_), Part::TerminationState(_)) => true,
        (Part::Local(n, _), Part::Local(k, _)) | (Part::Remote(n, _), Part::Remote(k, _)) => n == k,
        (Part::LocalControl(n), Part::LocalControl(k)) => n == k,
        (Part::Control(n, a), Part::Control(k, b)) => n == k && same_control(source, &a, &b),
        _ => false,
    }
}

/// Returns whether a part of a LocalControl must not be repeated. Other parts may be repeated, so they are not
/// compared.
fn is_single(source: &[u8], part: &ControlPart) -> bool
    ensures value { result ≡ is_single source.now part.now }
{
    match part {
        ControlPart::Property(name, _) => is_jitter(source, *name),
        ControlPart::Mode(_) | ControlPart::ReservedValue(_) | ControlPart::ReservedGroup(_) =>
            true,
    }
}

/// Returns whether a part of a LocalControl has already occurred and must not be repeated.
pub fn appeared_in_control(source: &[u8], part: &ControlPart, before: &[ControlPart]) -> bool
    ensures value { result ≡ list_any (same_control source.now part.now) before.now }
{
    is_single(source, part) && before.iter().any(|other| same_control(source, part, other))
}

fn is_same_word(source: &[u8], part: &Part, stream: u32, other: &StreamPart) -> bool
    ensures value { result ≡ is_same_word source.now part.now stream other.now }
{
    let (word, _) = open_stream_part(stream, other);
    is_same_part(source, *part, word)
}

/// Returns whether a part occurs among the parts of a stream.
fn appears_among(source: &[u8], part: &Part, stream: u32, parts: &[StreamPart]) -> bool
    ensures value { result ≡ list_any (is_same_word source.now part.now stream) parts.now }
{
    parts
        .iter()
        .any(|other| is_same_word(source, part, stream, other))
}

/// Returns whether `part` occurs in a `MediaPart`, in the stream with this number.
///
/// The streams' numbers are compared first, because a message can contain about 700 streams.
fn appears_in(source: &[u8], part: &Part, stream: u32, other: &MediaPart) -> bool
    ensures value { result ≡ appears_in source.now part.now stream other.now }
{
    match other {
        MediaPart::Part(x) => stream == 1 && is_same_word(source, part, 1, x),
        MediaPart::Stream(number, parts) => {
            stream == *number && appears_among(source, part, *number, parts.as_slice())
        }
        MediaPart::TerminationState(_) => false,
    }
}

/// Returns whether `part` occurs in any of the given `MediaPart`s, in the stream with this number.
fn appears_in_any(source: &[u8], part: &Part, stream: u32, media: &[MediaPart]) -> bool
    ensures value { result ≡ list_any (appears_in source.now part.now stream) media.now }
{
    media
        .iter()
        .any(|other| appears_in(source, part, stream, other))
}

/// Returns whether a part of a stream has already occurred: in its Media descriptor before this Stream, or in the
/// Stream.
pub fn appeared_in_media(
    source: &[u8],
    media: &[MediaPart],
    stream: u32,
    before: &[StreamPart],
    part: &Part,
) -> bool
    ensures value { result ≡ appeared_in_media source.now media.now stream before.now part.now }
{
    appears_in_any(source, part, stream, media) || appears_among(source, part, stream, before)
}

/// Returns whether there is a TerminationState descriptor among these `MediaPart`s.
pub fn has_state(parts: &[MediaPart]) -> bool
    ensures value { result ≡ list_any is_state parts.now }
{
    parts
        .iter()
        .any(|part| matches!(part, MediaPart::TerminationState(_)))
}

/// Returns the stream number of a `MediaPart`, or 0 if it doesn't belong to a stream.
pub fn stream_of(part: &MediaPart) -> u32
    ensures value { result ≡ stream_of part.now }
{
    match part {
        MediaPart::Part(_) => 1,
        MediaPart::Stream(number, _) => *number,
        MediaPart::TerminationState(_) => 0,
    }
}

/// Returns the earlier parts of a Media descriptor that a part has to be compared with.
///
/// The result is empty if the part's stream number exceeds all earlier stream numbers. So streams in ascending order
/// cause no comparisons.
pub fn lookback<'a>(greatest: u32, before: &'a [MediaPart], part: &MediaPart) -> &'a [MediaPart]
    requires greatest { greatest ≡ greatest_stream before.now }
    ensures level { (source : List ℕ) → media_level source result.now part.now ≡
        media_level source before.now part.now }
{
    if stream_of(part) > greatest {
        &[]
    } else {
        before
    }
}

/// Returns whether a descriptor's keyword has already occurred.
pub fn appeared_in_command(source: &[u8], word: Part, before: &[Descriptor]) -> bool
    ensures value { result ≡ list_any (is_same_descriptor source.now word) before.now }
{
    before.iter().any(|other| is_same_part(source, word, open_descriptor(other).0))
}
