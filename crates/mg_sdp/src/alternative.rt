ghost use Rattle.std.specs.Prelude.{◌≡◌};
ghost use Rattle.mg_sdp.specs.Offer.{is_served_attribute};
ghost use Rattle.mg_sdp.specs.aids.Reader.{no_lines, with_line, media_with_line, connection_with_line, offer_by};

use crate::connection::connection_of;
use crate::media::{MediaLine, media_of};
use crate::offer::Offer;
use crate::part::AlternativePart;

/// What an alternative asks for, according to the lines read so far.
#[derive(Clone, Copy, Debug, PartialEq, Eq)]
pub struct Alternative {
    /// Whether each `v=` line and each attribute so far is supported.
    pub holds: bool,
    /// What the only media line asks for.
    pub media: AlternativePart<MediaLine>,
    /// The address that the last connection line asks for.
    pub connection: AlternativePart<Option<[u8; 4]>>,
}

/// Returns whether an attribute is supported: false only for a `ptime` other than `ptime:20`.
fn is_served_attribute(value: &[u8]) -> bool
    ensures value { result ≡ is_served_attribute value.now }
{
    !value.starts_with(b"ptime:") || value == b"ptime:20".as_slice()
}

/// Adds a media line. The result is faulty if the line is not supported, or is not the first media line.
fn media_with_line(media: AlternativePart<MediaLine>, value: &[u8]) -> AlternativePart<MediaLine>
    ensures value { result ≡ media_with_line media value.now }
{
    if media != AlternativePart::Missing {
        return AlternativePart::Faulty;
    }
    match media_of(value) {
        Some(media) => AlternativePart::Given(media),
        None => AlternativePart::Faulty,
    }
}

/// Returns what a connection line asks for.
fn connection_with_line(value: &[u8]) -> AlternativePart<Option<[u8; 4]>>
    ensures value { result ≡ connection_with_line value.now }
{
    match connection_of(value) {
        Some(address) => AlternativePart::Given(address),
        None => AlternativePart::Faulty,
    }
}

impl Alternative {
    /// Returns an alternative without lines.
    pub fn new() -> Self
        ensures value { result ≡ no_lines }
    {
        Alternative {
            holds: true,
            media: AlternativePart::Missing,
            connection: AlternativePart::Missing,
        }
    }

    /// Returns the alternative with one more line.
    pub fn with_line(self, letter: u8, value: &[u8]) -> Self
        ensures value { result ≡ with_line self letter value.now }
    {
        let mut new = self;
        match letter {
            b'v' => new.holds = self.holds && value == b"0".as_slice(),
            b'a' => new.holds = self.holds && is_served_attribute(value),
            b'm' => new.media = media_with_line(self.media, value),
            b'c' => new.connection = connection_with_line(value),
            _ => {}
        }
        new
    }

    /// Returns what the alternative offers. Returns `None` if it doesn't have exactly one media line, or if one of its
    /// lines is not supported; of the connection lines, only the last counts.
    pub fn offer(self) -> Option<Offer>
        ensures value { result ≡ offer_by self }
    {
        let address = match self.connection {
            AlternativePart::Missing => None,
            AlternativePart::Given(address) => address,
            AlternativePart::Faulty => return None,
        };
        match self.media {
            AlternativePart::Given(MediaLine { port, law }) if self.holds => Some(Offer {
                address,
                port,
                law,
            }),
            _ => None,
        }
    }
}
