ghost use Rattle.std.specs.Prelude.{◌≡◌};
ghost use Rattle.mg_text.specs.aids.Reading.{Agrees};
ghost use Rattle.mg_text.specs.aids.Media.{stream_part_at, numbered_at, media_part_at};

use crate::fault::ReadFault;
use crate::from_word::meaning_at;
use crate::group::filled_at;
use crate::keyword::Keyword;
use crate::lists::{FromTokens, braced_at};
use crate::marks::{mark_at, place_of, span_at};
use crate::media::{ControlPart, MediaPart, StreamPart};
use mg_scan::{Token, TokenKind};
use std::alloc::Global;

/// Parses a part of a stream.
impl FromTokens for StreamPart {
    ghost reading = { stream_part_at };

    #[tactic(auto, unfolding(crate::specs::aids::Media::stream_part_at))]
    fn from_tokens<'t>(
        alloc: Global,
        source: &[u8],
        tokens: &'t [Token],
    ) -> Result<(StreamPart, &'t [Token]), ReadFault> {
        let (keyword, rest) = meaning_at::<Keyword>(source, tokens)?;
        match keyword {
            Keyword::Local => {
                let (text, rest) = span_at(source, TokenKind::Octets, rest)?;
                Ok((StreamPart::Local(text), rest))
            }
            Keyword::Remote => {
                let (text, rest) = span_at(source, TokenKind::Octets, rest)?;
                Ok((StreamPart::Remote(text), rest))
            }
            Keyword::LocalControl => {
                let (parts, rest) = braced_at::<ControlPart>(alloc, source, rest)?;
                Ok((StreamPart::LocalControl(parts), rest))
            }
            _ => Err(ReadFault::Syntax(place_of(source, tokens))),
        }
    }
}

/// Parses a stream after its keyword: its number and its parts.
#[tactic(auto, unfolding(crate::specs::aids::Media::numbered_at))]
fn numbered_at<'t>(
    alloc: Global,
    source: &[u8],
    tokens: &'t [Token],
) -> Result<(MediaPart, &'t [Token]), ReadFault>
    ensures { Agrees (λ x. (x.0, x.1.now)) result (numbered_at source.now tokens.now) }
{
    let rest = mark_at(source, TokenKind::Equals, tokens)?;
    let (number, rest) = meaning_at::<u32>(source, rest)?;
    let (parts, rest) = braced_at::<StreamPart>(alloc, source, rest)?;
    Ok((MediaPart::Stream(number, parts), rest))
}

/// Parses a part of a Media descriptor.
impl FromTokens for MediaPart {
    ghost reading = { media_part_at };

    #[tactic(auto, unfolding(crate::specs::aids::Media::media_part_at))]
    fn from_tokens<'t>(
        alloc: Global,
        source: &[u8],
        tokens: &'t [Token],
    ) -> Result<(MediaPart, &'t [Token]), ReadFault> {
        let (keyword, rest) = meaning_at::<Keyword>(source, tokens)?;
        match keyword {
            Keyword::Stream => numbered_at(alloc, source, rest),
            Keyword::TerminationState => {
                let (has_content, rest) = filled_at(source, rest)?;
                Ok((MediaPart::TerminationState(has_content), rest))
            }
            _ => {
                let (part, rest) = StreamPart::from_tokens(alloc, source, tokens)?;
                Ok((MediaPart::Part(part), rest))
            }
        }
    }
}
