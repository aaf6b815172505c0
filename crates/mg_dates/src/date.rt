ghost use Rattle.std.specs.Prelude.{◌≡◌};
ghost use Rattle.mg_dates.specs.Dates.{date_of_text};

use arrayvec::ArrayVec;
use jiff::Timestamp;
use std::io::{self, Write};
use std::time::{Clock, SystemTime, UNIX_EPOCH};

/// The text of a point in time.
pub type TimeText = ArrayVec<u8, 64>;

/// A point in time, in milliseconds since 1970 (UTC).
#[derive(Clone, Copy, Debug, PartialEq, Eq, PartialOrd, Ord)]
pub struct Date {
    pub millis: u64,
}

impl Date {
    /// Reads the system's clock.
    pub fn now<C: Clock>(clock: &C) -> io::Result<Date> {
        let now = SystemTime::now(clock)?;
        match now.duration_since(UNIX_EPOCH) {
            Ok(since) => Ok(Date {
                millis: u64::try_from(since.as_millis()).unwrap_or(u64::MAX),
            }),
            Err(_) => Ok(Date { millis: 0 }),
        }
    }

    /// Parses a time such as `2026-11-27T14:03:20.5Z`. Returns `None` if the text has another form, or if the time is
    /// before 1970.
    pub fn of_text(text: &str) -> Option<Date>
        ensures value { result ≡ date_of_text text.now }
    {
        let Ok(timestamp) = text.parse::<Timestamp>() else {
            return None;
        };
        match u64::try_from(timestamp.as_millisecond()) {
            Ok(millis) => Some(Date { millis }),
            Err(_) => None,
        }
    }

    /// Returns the time as `jiff` represents it, or `None` if it is after the year 9999.
    pub fn timestamp(self) -> Option<Timestamp> {
        let Ok(millis) = i64::try_from(self.millis) else {
            return None;
        };
        Timestamp::from_millisecond(millis).ok()
    }

    /// Returns the time in UTC as text (RFC 3339), such as `2026-11-27T14:03:20.5Z`. The text is empty after the year
    /// 9999.
    pub fn text(self) -> TimeText {
        let mut text = TimeText::new();
        if let Some(timestamp) = self.timestamp() {
            let _ = write!(text, "{timestamp}");
        }
        text
    }

    /// Returns the time that is `millis` milliseconds earlier, but not before 1970.
    pub fn before(self, millis: u64) -> Date {
        Date {
            millis: self.millis.saturating_sub(millis),
        }
    }

    /// Returns this time in whole seconds since 1970.
    pub fn second(self) -> u64 {
        self.millis / 1000
    }
}
