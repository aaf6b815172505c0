ghost use Rattle.std.specs.Prelude.{◌≡◌};
ghost use Rattle.mg_dates.specs.Times.{date_in};
ghost use Rattle.mg_dates.specs.aids.Texts.{IsShortLine};

use crate::date::Date;
use arrayvec::ArrayVec;
use std::io::Write;
use std::marker::Model;

/// The maximum length of a date's text, in bytes.
pub(crate) const TEXT_LIMIT: usize = 64;

/// The text of a date, such as `2026-11-27T14:03:20.5Z`. It has no line feed.
#[derive(Drop)]
pub(crate) struct DateText {
    text: ArrayVec<u8, TEXT_LIMIT>,
}

impl Model for DateText {
    ghost use Rattle.std.specs.Prelude.{List, ℕ};
    ghost use Rattle.mg_dates.specs.aids.Texts.{IsShortLine};

    ghost Value = { List ℕ };

    ghost view = { λ t. t.text.items };

    ghost invariant = { λ t. IsShortLine t.text.items };
}

impl DateText {
    /// Creates the text of a date, or returns `None` if the date is after the year 9999.
    pub(crate) fn of(date: Date) -> Option<Self> {
        let timestamp = date.timestamp()?;
        let mut text = ArrayVec::new();
        let _ = write!(text, "{timestamp}");
        if text.as_slice().contains(&b'\n') {
            return None;
        }
        Some(DateText { text })
    }

    /// Returns the text as a string.
    pub(crate) fn as_str(&self) -> &str {
        str::from_utf8(self.text.as_slice()).unwrap_or("")
    }

    pub(crate) fn as_slice(&self) -> &[u8]
        ensures value { result.now ≡ self.now }
        ensures short { IsShortLine self.now }
    {
        self.text.as_slice()
    }
}

/// Returns the date in a comment line such as `# time 2026-11-27T14:03:20.5Z`, or `None` if the line has no date.
pub fn date_in(line: &[u8]) -> Option<Date>
    ensures value { result ≡ date_in line.now }
{
    let text = line.strip_prefix(b"# time ".as_slice())?;
    match str::from_utf8(text) {
        Ok(text) => Date::of_text(text),
        Err(_) => None,
    }
}
