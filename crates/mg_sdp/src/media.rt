ghost use Rattle.std.specs.Prelude.{◌≡◌};
ghost use Rattle.mg_sdp.specs.Fields.{fields_of};
ghost use Rattle.mg_sdp.specs.aids.FieldsLeft.{fields_left};
ghost use Rattle.mg_sdp.specs.Media.{law_of, first_law, requested_in_field, media_in};
ghost use Rattle.mg_words.specs.Numbers.{port_of};

use crate::fields::Fields;
use mg_g711::Law;
use mg_words::port_of;

/// The port and law that a media line asks for. `None` leaves the choice to the gateway.
#[derive(Clone, Copy, Debug, PartialEq, Eq)]
pub struct MediaLine {
    pub port: Option<u16>,
    pub law: Option<Law>,
}

/// Returns the law that a format asks for: `None` if the format is not supported, and `Some(None)` for `$`.
#[tactic(auto, unfolding(crate::specs::Media::law_of))]
fn law_of(format: &[u8]) -> Option<Option<Law>>
    ensures value { result ≡ law_of format.now }
{
    match format {
        b"0" => Some(Some(Law::Mu)),
        b"8" => Some(Some(Law::A)),
        b"$" => Some(None),
        _ => None,
    }
}

/// Returns the law that the first supported format asks for, or `None` if no format is supported.
fn first_law(formats: Fields<'_>) -> Option<Option<Law>>
    ensures value { result ≡ first_law (fields_left formats.entry) }
{
    for format in formats {
        if let Some(law) = law_of(format) {
            return Some(law);
        }
    }
    None
}

/// Parses the port field: `$` or a port. Returns `None` if it is neither, and `Some(None)` for `$`.
fn requested_port(field: &[u8]) -> Option<Option<u16>>
    ensures value { result ≡ requested_in_field port_of field.now }
{
    match field {
        b"$" => Some(None),
        _ => Some(Some(port_of(field)?)),
    }
}

/// Parses the value of a media line. Returns `None` if the line is not supported.
#[tactic(auto, unfolding(crate::specs::Media::media_in))]
pub fn media_of(value: &[u8]) -> Option<MediaLine>
    ensures value { result ≡ media_in (fields_of value.now) }
{
    let mut fields = Fields::new(value);
    let kind = fields.next()?;
    let port = fields.next()?;
    let protocol = fields.next()?;
    if !kind.eq_ignore_ascii_case(b"audio") || !protocol.eq_ignore_ascii_case(b"RTP/AVP") {
        return None;
    }
    let port = requested_port(port)?;
    let law = first_law(fields)?;
    Some(MediaLine { port, law })
}
