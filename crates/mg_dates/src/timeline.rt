ghost use Rattle.std.specs.Prelude.{◌≡◌, None, Some};
ghost use Rattle.std.specs.Option.{option_map_or};
ghost use Rattle.mg_dates.specs.Dates.{missed_ticks};
ghost use Rattle.mg_dates.specs.Times.{after_date, after_ticks, agreement_of, date_in, missed_since, next_tick};

use crate::agreement::Agreement;
use crate::date::Date;
use crate::date_text::date_in;
use mg_core::{Core, Event, Follower, Stopped};

/// The number of ticks that are taken as missed if the clock was set back, because the real number is unknown: one
/// second's worth.
const LOST: u64 = 50;

/// The length of a tick, in milliseconds.
const TICK: u64 = 20;

/// The maximum difference, in milliseconds, between a date and the time computed from the ticks before it. If the
/// difference is greater, the system's clock was changed, or ticks are missing, late or too fast.
const TOLERANCE: u64 = 1000;

/// The time at which a journal's next tick is due, as a date and the number of ticks since that date.
///
/// Ticks are counted from a date for as long as the later dates agree with the count. So if one restart of the gateway
/// loses time to rounding, the next restart makes up for it.
#[derive(Clone, Copy, Debug, PartialEq, Eq)]
pub struct Timeline {
    /// The date from which ticks are counted, or `None` before the first date.
    pub start: Option<Date>,
    /// The number of ticks since `start`.
    pub ticks: u64,
}

/// Returns how many ticks were missed between `date` and `now`, if `ticks` ticks followed `date`. If these ticks took
/// longer than the clock says, the clock was set back, and one second's worth of ticks counts as missed.
fn missed_ticks(date: Date, ticks: u64, now: Date) -> u64
    ensures value { result ≡ missed_ticks date.millis ticks now.millis }
{
    if now < date {
        return LOST;
    }
    let passed = (now.millis - date.millis) / TICK;
    if passed < ticks {
        return LOST;
    }
    passed - ticks
}

/// Returns how a date compares with the expected time.
fn agreement_of(expected: Date, date: Date) -> Agreement
    ensures value { result ≡ agreement_of (Some expected) date }
{
    if expected.millis.abs_diff(date.millis) <= TOLERANCE {
        Agreement::Agrees
    } else if date < expected {
        Agreement::WentBack
    } else {
        Agreement::JumpedAhead
    }
}

impl Timeline {
    /// Creates a timeline that hasn't read any of a journal's lines yet.
    pub fn new() -> Self
        ensures value { result ≡ record { start = None; ticks = 0 } }
    {
        Timeline {
            start: None,
            ticks: 0,
        }
    }

    /// Returns how many ticks have been missed since the journal's last line. Returns 0 if there is no date.
    pub fn missed(&self, now: Date) -> u64
        ensures value { result ≡ missed_since self.now now }
    {
        match self.start {
            Some(start) => missed_ticks(start, self.ticks, now),
            None => 0,
        }
    }

    /// Returns when the next tick should happen. Returns `None` if there is no date.
    pub fn next_tick(&self) -> Option<Date>
        ensures value { result ≡ next_tick self.now }
    {
        let start = self.start?;
        let millis = start.millis.saturating_add(self.ticks.saturating_mul(TICK));
        Some(Date { millis })
    }

    /// Records a date, and returns how it compares with the time computed from the ticks before it.
    pub fn pass_date(&mut self, date: Date) -> Agreement
        ensures value { self.new ≡ after_date self.old date }
        ensures agreement { result ≡ agreement_of (next_tick self.old) date }
    {
        let agreement = match self.next_tick() {
            Some(expected) => agreement_of(expected, date),
            None => Agreement::First,
        };
        if agreement != Agreement::Agrees {
            self.start = Some(date);
            self.ticks = 0;
        }
        agreement
    }

    /// Records a comment or an empty line, given without its line end. Only a date has an effect.
    pub fn pass_comment(&mut self, line: &[u8])
        ensures value { self.new ≡ option_map_or (after_date self.old) (date_in line.now) self.old }
    {
        if let Some(date) = date_in(line) {
            let _ = self.pass_date(date);
        }
    }

    /// Adds consecutive ticks to the count.
    pub fn pass_ticks(&mut self, count: u64)
        ensures value { self.new ≡ after_ticks count self.old }
    {
        self.ticks = self.ticks.saturating_add(count);
    }
}

impl Follower for Timeline {
    ghost use Rattle.std.specs.Prelude.{◌≡◌, reverse};
    ghost use Rattle.mg_dates.specs.Times.{timeline_of};

    ghost follows = { λ start t base notes. t ≡ timeline_of (reverse notes) };

    fn comment(&mut self, _number: u64, line: &[u8]) -> Result<(), Stopped> {
        self.pass_comment(line);
        Ok(())
    }

    fn datagram(&mut self, _event: &Event, _core: &Core) -> Result<(), Stopped> {
        Ok(())
    }

    fn ticks(&mut self, _core: &Core, count: u64) -> Result<(), Stopped> {
        self.pass_ticks(count);
        Ok(())
    }
}
