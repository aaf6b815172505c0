ghost use Rattle.std.specs.Prelude.{◌≡◌, ◌&&◌, None, false, true};
ghost use Rattle.std.specs.Option.{option_map_or};
ghost use Rattle.mg_heard.specs.Query.{covers, is_asked, is_before, is_future, is_past, may_overlap, selects, selects_entry};

use crate::entry::Entry;
use crate::interval::Interval;
use crate::keys::Keys;
use crate::moment::Moment;
use mg_core::Peer;
use mg_dates::Date;

/// A selection of intervals by listener, talker and time, and of gaps by time.
#[derive(Drop)]
pub struct Query {
    /// The listener, or `None` for any listener.
    pub listener: Option<Keys>,
    /// The talker, or `None` for any talker.
    pub talker: Option<Keys>,
    /// If set, leaves out intervals and gaps that are known to end at this time or earlier.
    pub from: Option<Date>,
    /// If set, leaves out intervals and gaps that are known to begin at this time or later.
    pub until: Option<Date>,
}

/// Returns whether a question with these keys asks about this termination.
pub(crate) fn is_asked(keys: &Option<Keys>, number: u32, at: Option<Peer>) -> bool
    ensures value { result ≡ is_asked keys.now number at }
{
    match keys {
        Some(keys) => keys.apply_to(number, at),
        None => true,
    }
}

/// Returns whether a moment may precede a time: a moment without a date may precede any time.
fn may_precede(moment: Moment, time: Date) -> bool
    ensures value { result ≡ is_before true moment time }
{
    match moment.date {
        Some(date) => date.millis < time.millis,
        None => true,
    }
}

/// Returns whether a moment may follow a time: a moment without a date may follow any time.
fn may_follow(moment: Moment, time: Date) -> bool
    ensures value { result ≡ is_future true moment time }
{
    match moment.date {
        Some(date) => time.millis < date.millis,
        None => true,
    }
}

/// Returns whether a period may last beyond the time `from`, or true if `from` is `None`. A period without an end
/// does.
fn lasts_beyond_from(end: Option<Moment>, from: Option<Date>) -> bool
    ensures value { result ≡ option_map_or (λ time. option_map_or (λ m. is_future true m time) end true) from true }
{
    let (Some(moment), Some(time)) = (end, from) else {
        return true;
    };
    may_follow(moment, time)
}

/// Returns whether a period may begin before the time `until`, or true if `until` is `None`.
fn begins_before_until(first: Moment, until: Option<Date>) -> bool
    ensures value { result ≡ option_map_or (is_before true first) until true }
{
    match until {
        Some(time) => may_precede(first, time),
        None => true,
    }
}

impl Query {
    /// Returns a query that selects all intervals and gaps.
    pub fn all() -> Query
        ensures value { result ≡ record { listener = None; talker = None; from = None; until = None } }
    {
        Query {
            listener: None,
            talker: None,
            from: None,
            until: None,
        }
    }

    /// Returns whether a period, perhaps without an end, may overlap the query's times.
    fn may_overlap(&self, first: Moment, end: Option<Moment>) -> bool
        ensures value { result ≡ may_overlap self.now first end }
    {
        lasts_beyond_from(end, self.from) && begins_before_until(first, self.until)
    }

    /// Returns whether the query selects an entry. A gap is selected by its time alone. If the clock was set back, this
    /// is the time that the clock showed twice.
    pub fn selects_entry(&self, entry: &Entry) -> bool
        ensures value { result ≡ selects_entry self.now entry.now }
    {
        match entry {
            Entry::Interval(interval) => self.selects(interval),
            Entry::Gap(gap) => {
                self.may_overlap(gap.first, Some(gap.end))
                    || self.may_overlap(gap.end, Some(gap.first))
            }
            Entry::Audible(interval) => self.selects(interval),
        }
    }

    /// Returns whether the query selects an interval.
    pub fn selects(&self, interval: &Interval) -> bool
        ensures value { result ≡ selects self.now interval.now }
    {
        let flow = &interval.flow;
        is_asked(&self.listener, flow.listener, flow.listener_at)
            && is_asked(&self.talker, flow.talker, flow.talker_at)
            && self.may_overlap(interval.first, interval.end)
    }

    /// Returns whether the query selects an interval and the interval contains this time. The script must cover the
    /// time.
    pub(crate) fn selects_at(&self, interval: &Interval, time: Date) -> bool
        ensures value { result ≡ (selects self.now interval.now && covers interval.now time) }
    {
        self.selects(interval) && covers(interval, time)
    }
}

/// Returns whether an interval has begun by a time. An interval whose beginning has no date began before the script's
/// first date.
fn has_begun(interval: &Interval, time: Date) -> bool
    ensures value { result ≡ is_past true interval.now.first time }
{
    match interval.first.date {
        Some(date) => date.millis <= time.millis,
        None => true,
    }
}

/// Returns whether an interval ends after a time or has no end. An interval whose end has no date ended before the
/// script's first date.
fn lasts_beyond(interval: &Interval, time: Date) -> bool
    ensures value { result ≡ option_map_or (λ end. is_future false end time) interval.now.end true }
{
    let Some(end) = interval.end else {
        return true;
    };
    match end.date {
        Some(date) => time.millis < date.millis,
        None => false,
    }
}

/// Returns whether an interval contains a time. The script must cover the time.
fn covers(interval: &Interval, time: Date) -> bool
    ensures value { result ≡ covers interval.now time }
{
    has_begun(interval, time) && lasts_beyond(interval, time)
}
