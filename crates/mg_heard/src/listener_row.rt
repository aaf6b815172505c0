//! The intervals of a listener, before and after a moment.

ghost use Rattle.std.specs.Prelude.{◌≡◌, ◌≤◌, length, map};
ghost use Rattle.mg_words.specs.Limits.{member_limit};
ghost use Rattle.mg_heard.specs.aids.Hearers.{flows_heard, seats_of};
ghost use Rattle.mg_heard.specs.aids.Opening.{beginning_at, continued, without_flows, IsRising};

use crate::hearer::Hearer;
use crate::moment::Moment;
use crate::row::Row;
use std::alloc::{AllocError, Global};
use std::mem;

/// A listener, and its intervals.
#[derive(Drop)]
pub(crate) struct ListenerRow {
    pub(crate) listener: Hearer,
    pub(crate) row: Row,
}

impl ListenerRow {
    /// Creates a row that belongs to no listener. No other call allocates.
    pub(crate) fn new(alloc: Global) -> Result<Self, AllocError> {
        Ok(ListenerRow {
            listener: Hearer::default(),
            row: Row::new(alloc)?,
        })
    }

    /// Replaces the listener and its intervals. Each interval begins at this moment.
    pub(crate) fn start(&mut self, hearers: &[Hearer], listener: &Hearer, now: Moment)
        requires few { length (flows_heard (seats_of hearers.now) listener.now) ≤ member_limit }
        ensures listener { self.new.listener ≡ listener.now }
        ensures row { self.new.row ≡ map (beginning_at now) (flows_heard (seats_of hearers.now) listener.now) }
    {
        self.listener = *listener;
        self.row.fill(hearers, listener, now);
    }

    /// Replaces the listener and its intervals. An interval continues the earlier interval of the same flow, if the
    /// flow has one. Afterwards, `earlier` has only the intervals that are not continued.
    pub(crate) fn advance(
        &mut self,
        earlier: &mut ListenerRow,
        hearers: &[Hearer],
        listener: &Hearer,
        now: Moment,
    )
        requires few { length (flows_heard (seats_of hearers.now) listener.now) ≤ member_limit }
        requires old { IsRising earlier.old.row }
        requires new { IsRising (map (beginning_at now) (flows_heard (seats_of hearers.now) listener.now)) }
        ensures listener { self.new.listener ≡ listener.now }
        ensures row { self.new.row ≡ map (continued earlier.old.row)
            (map (beginning_at now) (flows_heard (seats_of hearers.now) listener.now)) }
        ensures earlier { earlier.new.listener ≡ earlier.old.listener }
        ensures ended { earlier.new.row ≡
            without_flows (flows_heard (seats_of hearers.now) listener.now) earlier.old.row }
    {
        self.start(hearers, listener, now);
        self.row.continue_from(&earlier.row);
        earlier.row.remove_continued(&self.row);
    }

    /// Replaces the talkers of the listener and its intervals. An interval continues the earlier interval of the same
    /// flow, if the flow has one. Afterwards, `ended` has the earlier intervals that are not continued, and no others.
    pub(crate) fn renew(
        &mut self,
        ended: &mut ListenerRow,
        hearers: &[Hearer],
        listener: &Hearer,
        now: Moment,
    )
        requires few { length (flows_heard (seats_of hearers.now) listener.now) ≤ member_limit }
        requires old { IsRising self.old.row }
        requires new { IsRising (map (beginning_at now) (flows_heard (seats_of hearers.now) listener.now)) }
        ensures listener { self.new.listener ≡ listener.now }
        ensures row { self.new.row ≡ map (continued self.old.row)
            (map (beginning_at now) (flows_heard (seats_of hearers.now) listener.now)) }
        ensures ended { ended.new.row ≡
            without_flows (flows_heard (seats_of hearers.now) listener.now) self.old.row }
    {
        mem::swap(self, ended);
        self.advance(ended, hearers, listener, now);
    }
}
