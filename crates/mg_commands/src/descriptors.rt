//! Reads a command's descriptors in one walk, which finds the first fault and collects the command's parameters. The
//! functions return a fault of a descriptor: a repeated word, or unsupported content. A fault in a stream's number or
//! in a LocalControl is stored in the findings.

ghost use Rattle.std.specs.Prelude.{[], ◌∷◌};
ghost use Rattle.std.specs.List.{flat_map};
ghost use Rattle.mg_commands.specs.declared.part.Part.TheVariants.{Control};
ghost use Rattle.mg_commands.specs.DescriptorFault.{descriptors_fault};
ghost use Rattle.mg_commands.specs.Part.{stream_parts, media_parts, descriptor_parts, parts_of};
ghost use Rattle.mg_commands.specs.Search.{first_after};
ghost use Rattle.mg_commands.specs.aids.Findings.{Reads};
ghost use Rattle.mg_commands.specs.aids.Levels.{control_level, stream_level, media_level, descriptor_level};

use crate::findings::Findings;
use crate::opening::{open_descriptor, open_stream_part};
use crate::part::Part;
use crate::repeats::{
    appeared_in_command, appeared_in_control, appeared_in_media, has_state, lookback, stream_of,
};
use mg_text::{ControlPart, Descriptor, ErrorNumber, MediaPart, StreamPart};

/// Reads a stream's LocalControl. Returns an error if a part is repeated that must not be.
fn read_controls(
    source: &[u8],
    stream: u32,
    parts: &[ControlPart],
    found: &mut Findings,
) -> Option<ErrorNumber>
    ensures reads { Reads source.now (first_after (control_level source.now stream) [] parts.now)
        (flat_map (λ x. Control stream x ∷ []) parts.now) found.old found.new result }
{
    for (i, part) in parts.iter().enumerate() {
        let (before, _) = parts.split_at(i);
        let appeared = appeared_in_control(source, part, before);
        if let Some(fault) = found.add_control(source, stream, appeared, part) {
            return Some(fault);
        }
    }
    None
}

/// Reads a part of a stream, given the parts of the Media descriptor and of the stream before it. Returns its first
/// fault, if any.
fn read_stream_part(
    source: &[u8],
    media: &[MediaPart],
    stream: u32,
    before: &[StreamPart],
    part: &StreamPart,
    found: &mut Findings,
) -> Option<ErrorNumber>
    ensures reads { Reads source.now (stream_level source.now media.now stream before.now part.now)
        (stream_parts stream part.now) found.old found.new result }
{
    let (word, controls) = open_stream_part(stream, part);
    let appeared = appeared_in_media(source, media, stream, before, &word);
    match found.add_sound(source, appeared, word) {
        Some(fault) => Some(fault),
        None => read_controls(source, stream, controls, found),
    }
}

/// Reads a Stream, given the parts before it in its Media descriptor. Returns its first fault, if any.
fn read_stream(
    source: &[u8],
    media: &[MediaPart],
    stream: u32,
    parts: &[StreamPart],
    found: &mut Findings,
) -> Option<ErrorNumber>
    ensures reads { Reads source.now (first_after (stream_level source.now media.now stream) [] parts.now)
        (flat_map (stream_parts stream) parts.now) found.old found.new result }
{
    for (i, part) in parts.iter().enumerate() {
        let (before, _) = parts.split_at(i);
        if let Some(fault) = read_stream_part(source, media, stream, before, part, found) {
            return Some(fault);
        }
    }
    None
}

/// Reads a `MediaPart`, given the parts before it. Returns its first fault, if any.
fn read_media_part(
    source: &[u8],
    before: &[MediaPart],
    part: &MediaPart,
    found: &mut Findings,
) -> Option<ErrorNumber>
    ensures reads { Reads source.now (media_level source.now before.now part.now)
        (media_parts part.now) found.old found.new result }
{
    match part {
        MediaPart::Part(x) => read_stream_part(source, before, 1, &[], x, found),
        MediaPart::Stream(number, parts) => {
            found.add(source, Part::Stream(*number));
            read_stream(source, before, *number, parts.as_slice(), found)
        }
        MediaPart::TerminationState(has_content) => {
            let word = Part::TerminationState(*has_content);
            found.add_sound(source, has_state(before), word)
        }
    }
}

/// Reads a Media descriptor. Returns its first fault, if any.
fn read_media(source: &[u8], parts: &[MediaPart], found: &mut Findings) -> Option<ErrorNumber>
    ensures reads { Reads source.now (first_after (media_level source.now) [] parts.now)
        (flat_map media_parts parts.now) found.old found.new result }
{
    let mut greatest = 0;
    for (i, part) in parts.iter().enumerate() {
        let (before, _) = parts.split_at(i);
        let before = lookback(greatest, before, part);
        if let Some(fault) = read_media_part(source, before, part, found) {
            return Some(fault);
        }
        greatest = greatest.max(stream_of(part));
    }
    None
}

/// Reads a descriptor, given the descriptors before it. Returns its first fault, if any.
fn read_descriptor(
    source: &[u8],
    before: &[Descriptor],
    descriptor: &Descriptor,
    found: &mut Findings,
) -> Option<ErrorNumber>
    ensures reads { Reads source.now (descriptor_level source.now before.now descriptor.now)
        (descriptor_parts descriptor.now) found.old found.new result }
{
    let (word, media, words) = open_descriptor(descriptor);
    let appeared = appeared_in_command(source, word, before);
    match found.add_sound(source, appeared, word) {
        Some(fault) => Some(fault),
        None => {
            found.add_words(source, words);
            read_media(source, media, found)
        }
    }
}

/// Reads a command's descriptors. Returns the first fault of a descriptor, if any: a repeated word, or unsupported
/// content.
pub fn read_descriptors(
    source: &[u8],
    descriptors: &[Descriptor],
    found: &mut Findings,
) -> Option<ErrorNumber>
    ensures reads { Reads source.now (descriptors_fault source.now descriptors.now)
        (parts_of descriptors.now) found.old found.new result }
{
    for (i, descriptor) in descriptors.iter().enumerate() {
        let (before, _) = descriptors.split_at(i);
        if let Some(fault) = read_descriptor(source, before, descriptor, found) {
            return Some(fault);
        }
    }
    None
}
