ghost use Rattle.std.specs.Prelude.{◌≡◌, ◌+◌, ◌++◌, ◌∷◌, [], nat_lt, IfOk, List, None, OnOk, Some};
ghost use Rattle.std.specs.Option.{option_map};
ghost use Rattle.mg_core.specs.Follow.{ticks_of};
ghost use Rattle.mg_core.specs.Note.{Note, Comment};
ghost use Rattle.mg_dates.specs.Times.{date_in, next_tick};
ghost use Rattle.mg_fence.specs.Reached.{number_set};
ghost use Rattle.mg_heard.specs.Times.{extent_of, fence_gap, gap_if, gap_of, moment_after};
ghost use Rattle.mg_heard.specs.aids.Timing.{IsClock};

use crate::clock_fault::ClockFault;
use crate::extent::Extent;
use crate::fenced::number_set;
use crate::gap::Gap;
use crate::missed::missed_in;
use crate::moment::Moment;
use arrayvec::ArrayVec;
use mg_dates::{Agreement, Date, Timeline, date_in};

/// The maximum length of a title's line, in bytes.
const TITLE_LIMIT: usize = 600;

/// The beginning of a gateway's title.
const TITLE: &[u8] = b"# mg_bridge ";

/// Counts the ticks of a script, and keeps track of when they happened.
#[derive(Drop)]
pub struct Clock {
    pub timeline: Timeline,
    /// The moment of the first date, or `None` before the first date.
    pub first: Option<Moment>,
    /// The number of ticks so far. This is also the index of the next tick, because ticks are counted from 0.
    pub ticks: u64,
    /// The first title of at most [`TITLE_LIMIT`] bytes.
    title: ArrayVec<u8, TITLE_LIMIT>,
}

impl Clock {
    /// Creates a clock at the beginning of a script.
    pub fn new() -> Self
        ensures ticks { result.ticks ≡ 0 }
        ensures start { IsClock [] result }
    {
        Clock {
            timeline: Timeline::new(),
            first: None,
            ticks: 0,
            title: ArrayVec::new(),
        }
    }

    /// Returns the next tick.
    pub fn now(&self) -> Moment
        ensures tick { result.tick ≡ self.now.ticks }
        ensures date { result.date ≡ next_tick self.now.timeline }
        ensures value { (older : List Note) → IsClock older self.now → result ≡ moment_after older }
    {
        Moment {
            tick: self.ticks,
            date: self.timeline.next_tick(),
        }
    }

    /// Returns the time that the script has covered so far.
    pub(crate) fn extent(&self) -> Extent
        ensures value { (older : List Note) → IsClock older self.now → result ≡ extent_of older }
    {
        Extent {
            first: self.first,
            end: self.now(),
        }
    }

    /// Returns the tick that follows `count` more ticks. Fails if the script then has 2^64 ticks or more.
    fn after(&self, count: u64) -> Result<Moment, ClockFault>
        ensures value { (older : List Note) → IsClock older self.now →
            IfOk result (λ m. m ≡ moment_after (ticks_of count ++ older)) }
    {
        let Some(tick) = self.ticks.checked_add(count) else {
            return Err(ClockFault::TooManyTicks);
        };
        let mut timeline = self.timeline;
        timeline.pass_ticks(count);
        Ok(Moment {
            tick,
            date: timeline.next_tick(),
        })
    }

    /// Counts ticks. Fails if the script then has 2^64 ticks or more.
    pub fn pass_ticks(&mut self, count: u64) -> Result<(), ClockFault>
        ensures ticks { OnOk result (self.new.ticks ≡ self.old.ticks + count) }
        ensures value { (older : List Note) → IsClock older self.old →
            OnOk result (IsClock (ticks_of count ++ older) self.new) }
    {
        let Some(ticks) = self.ticks.checked_add(count) else {
            return Err(ClockFault::TooManyTicks);
        };
        self.ticks = ticks;
        self.timeline.pass_ticks(count);
        Ok(())
    }

    /// Updates the clock if the comment in the line with this number has a date or a title. Returns the gap that begins
    /// with the comment, if any.
    pub fn pass_comment(&mut self, number: u64, line: &[u8]) -> Result<Option<Gap>, ClockFault>
        ensures ticks { self.new.ticks ≡ self.old.ticks }
        ensures value { (older : List Note) → IsClock older self.old → IfOk result (λ gap.
            (gap ≡ gap_of line.now older) × IsClock (Comment line.now ∷ older) self.new) }
    {
        match date_in(line) {
            Some(date) => Ok(self.pass_date(date, line)),
            None => self.pass_undated(number, line),
        }
    }

    /// Updates the clock for a comment without a date. Returns the gap that begins with the comment, if any.
    fn pass_undated(&mut self, number: u64, line: &[u8]) -> Result<Option<Gap>, ClockFault>
        requires undated { date_in line.now ≡ None }
        ensures ticks { self.new.ticks ≡ self.old.ticks }
        ensures value { (older : List Note) → IsClock older self.old → IfOk result (λ gap.
            (gap ≡ gap_of line.now older) × IsClock (Comment line.now ∷ older) self.new) }
    {
        match missed_in(line) {
            Some(count) => self.missed(count),
            None => self.pass_other(number, line),
        }
    }

    /// Returns the gap that `count` missed ticks leave, or `None` if `count` is 0.
    fn missed(&self, count: u64) -> Result<Option<Gap>, ClockFault>
        ensures value { (older : List Note) → IsClock older self.now → IfOk result (λ gap.
            gap ≡ gap_if (nat_lt 0 count) (moment_after older) (moment_after (ticks_of count ++ older))) }
    {
        let end = self.after(count)?;
        if count == 0 {
            return Ok(None);
        }
        Ok(Some(Gap {
            first: self.now(),
            end,
            fence: None,
        }))
    }

    /// Updates the clock for the date in a comment. Returns the gap before the date if the date is more than a second
    /// earlier or later than expected.
    fn pass_date(&mut self, date: Date, line: &[u8]) -> Option<Gap>
        requires dated { date_in line.now ≡ Some date }
        ensures ticks { self.new.ticks ≡ self.old.ticks }
        ensures value { (older : List Note) → IsClock older self.old →
            (result ≡ gap_of line.now older) × IsClock (Comment line.now ∷ older) self.new }
    {
        let first = self.now();
        let agreement = self.timeline.pass_date(date);
        let end = self.now();
        self.first = self.first.or(Some(end));
        match agreement {
            Agreement::WentBack | Agreement::JumpedAhead => Some(Gap {
                first,
                end,
                fence: None,
            }),
            Agreement::First | Agreement::Agrees => None,
        }
    }

    /// Checks the title, if there is one, in a comment that has no date and no missed ticks. If the comment says that
    /// an operator set the fence, returns this moment as a gap.
    fn pass_other(&mut self, number: u64, line: &[u8]) -> Result<Option<Gap>, ClockFault>
        ensures ticks { self.new.ticks ≡ self.old.ticks }
        ensures same { (older : List Note) → IsClock older self.old → IsClock older self.new }
        ensures value { (older : List Note) → IsClock older self.old → IfOk result (λ gap.
            gap ≡ option_map (fence_gap (moment_after older)) (number_set line.now)) }
    {
        self.pass_title(number, line)?;
        Ok(self.fence_gap(line))
    }

    /// Returns this moment as a gap if the comment says that an operator set the fence, and `None` otherwise.
    fn fence_gap(&self, line: &[u8]) -> Option<Gap>
        ensures value { (older : List Note) → IsClock older self.now →
            result ≡ option_map (fence_gap (moment_after older)) (number_set line.now) }
    {
        let number = number_set(line)?;
        let now = self.now();
        Some(Gap {
            first: now,
            end: now,
            fence: Some(number),
        })
    }

    /// Stores the first title of at most [`TITLE_LIMIT`] bytes, and fails if a later title differs from it. A line
    /// without a title changes nothing.
    fn pass_title(&mut self, number: u64, line: &[u8]) -> Result<(), ClockFault>
        ensures ticks { self.new.ticks ≡ self.old.ticks }
        ensures same { (older : List Note) → IsClock older self.old → IsClock older self.new }
    {
        if !line.starts_with(TITLE) {
            return Ok(());
        }
        if self.title.is_empty() {
            let _ = self.title.try_extend_from_slice(line);
            return Ok(());
        }
        if self.title.as_slice() == line {
            Ok(())
        } else {
            Err(ClockFault::OtherGateway(number))
        }
    }
}
