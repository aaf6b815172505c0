ghost use Rattle.std.specs.Prelude.{◌≡◌, ◌↔◌, Err, false, OnOk, IfErr, IsOk, IsTrue};
ghost use Rattle.std.specs.List.{list_all};
ghost use Rattle.mg_sdp.specs.Lines.{content_lines, is_line};
ghost use Rattle.mg_sdp.specs.aids.Reader.{progress_at_start, ended, line_read, finished};
ghost use Rattle.mg_sdp.specs.aids.Contents.{IsContentReading};
ghost use Rattle.mg_sdp.specs.Sessions.{sessions_of};

use crate::alternative::Alternative;
use crate::fault::SdpFault;
use crate::lines::{Lines, letter_and_value};
use crate::offer::Offer;
use crate::sessions::Sessions;
use arrayvec::ArrayVec;
use mg_words::ALTERNATIVE_LIMIT;
use std::marker::Model;

/// The alternatives of a descriptor, according to the lines read so far.
#[derive(Drop)]
struct Reader {
    /// The offers of the complete alternatives, up to eight.
    offers: ArrayVec<Option<Offer>, ALTERNATIVE_LIMIT>,
    /// The alternative that is being read.
    current: Option<Alternative>,
    /// Whether more than eight alternatives are complete.
    over: bool,
}

impl Model for Reader {
    ghost use Rattle.mg_sdp.specs.aids.Progress.{Progress};

    ghost Value = { Progress };

    ghost view = { λ r. record { offers = r.offers.items; current = r.current; over = r.over } };
}

impl Reader {
    fn new() -> Self
        ensures value { result ≡ progress_at_start }
    {
        Reader {
            offers: ArrayVec::new(),
            current: None,
            over: false,
        }
    }

    /// If an alternative is being read, ends it.
    fn end(&mut self)
        ensures value { self.new ≡ ended self.old }
    {
        if let Some(alternative) = self.current {
            if self.offers.try_push(alternative.offer()).is_err() {
                self.over = true;
            }
            self.current = None;
        }
    }

    /// Reads one line.
    #[tactic(auto, unfolding(crate::specs::aids::Reader::line_read))]
    fn read(&mut self, line: &[u8]) -> Result<(), SdpFault>
        ensures ok { OnOk result (self.new ≡ line_read self.old line.now) }
        ensures line { IsOk result ↔ IsTrue (is_line line.now) }
        ensures fault { IfErr result (λ fault. fault ≡ SdpFault.Line) }
    {
        let (letter, value) = letter_and_value(line).ok_or(SdpFault::Line)?;
        if letter == b'v' {
            self.end();
        }
        let alternative = self.current.unwrap_or(Alternative::new());
        self.current = Some(alternative.with_line(letter, value));
        Ok(())
    }

    /// Ends reading. Returns what the alternatives offer, or a fault if there are more than eight.
    #[tactic(auto, unfolding(crate::specs::aids::Reader::finished))]
    fn finish(mut self) -> Result<Sessions, SdpFault>
        ensures value { result ≡ finished self }
    {
        self.end();
        if self.over {
            return Err(SdpFault::TooMany);
        }
        Ok(Sessions {
            offers: self.offers,
        })
    }
}

/// Parses the session descriptions of a Local or Remote descriptor.
///
/// Lines end at CR or LF. Spaces and tabs at both ends of a line are ignored, and so are empty lines. An alternative
/// starts at the first line and at each later `v=` line. Blank content yields no alternatives.
pub fn read_sessions(content: &[u8]) -> Result<Sessions, SdpFault>
    ensures alternatives { IsContentReading content.now result }
    ensures line { (result ≡ Err SdpFault.Line)
        ↔ (list_all is_line (content_lines content.now) ≡ false) }
    ensures value { result ≡ sessions_of content.now }
{
    let mut reader = Reader::new();
    for line in Lines::new(content) {
        reader.read(line)?;
    }
    reader.finish()
}
