//! Splits parts of descriptors into their keywords and their contents.

ghost use Rattle.std.specs.Prelude.{◌≡◌};
ghost use Rattle.mg_commands.specs.aids.Words.{stream_word, controls_within, descriptor_word, media_within, audit_words_within};

use crate::part::Part;
use mg_text::{AuditWord, ControlPart, Descriptor, MediaPart, StreamPart};

/// Returns a part of a stream and, if it is a LocalControl, its content.
pub fn open_stream_part(stream: u32, part: &StreamPart) -> (Part, &[ControlPart])
    ensures word { result.0 ≡ stream_word stream part.now }
    ensures controls { result.1.now ≡ controls_within part.now }
{
    match part {
        StreamPart::Local(text) => (Part::Local(stream, *text), &[]),
        StreamPart::Remote(text) => (Part::Remote(stream, *text), &[]),
        StreamPart::LocalControl(controls) => (Part::LocalControl(stream), controls.as_slice()),
    }
}

/// Splits a descriptor into its keyword and the content of its Media or Audit.
pub fn open_descriptor(descriptor: &Descriptor) -> (Part, &[MediaPart], &[AuditWord])
    ensures word { result.0 ≡ descriptor_word descriptor.now }
    ensures media { result.1.now ≡ media_within descriptor.now }
    ensures audit { result.2.now ≡ audit_words_within descriptor.now }
{
    match descriptor {
        Descriptor::Media(parts) => (Part::Media, parts.as_slice(), &[]),
        Descriptor::Audit(words) => (Part::Audit, &[], words.as_slice()),
        Descriptor::Other(word, has_content) => (Part::Other(*word, *has_content), &[], &[]),
    }
}
