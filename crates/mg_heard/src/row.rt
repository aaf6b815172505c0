ghost use Rattle.std.specs.Prelude.{◌≡◌, ◌≤◌, [], length, map, IfOk};
ghost use Rattle.mg_words.specs.Limits.{member_limit};
ghost use Rattle.mg_heard.specs.aids.Hearers.{flows_heard, seats_of};
ghost use Rattle.mg_heard.specs.aids.Opening.{beginning_at, continued, flows_of, without_flows, IsRising};

use crate::filling::push_flows;
use crate::hearer::Hearer;
use crate::moment::Moment;
use crate::open_interval::OpenInterval;
use crate::open_intervals::{continue_front, keep_front};
use mg_words::MEMBER_LIMIT;
use std::alloc::{AllocError, Global};
use std::marker::Model;

/// Intervals of one listener, ordered by talker.
#[derive(Drop)]
pub(crate) struct Row {
    /// A place for each possible talker. The first `len` places are in use.
    places: Vec<OpenInterval>,
    len: usize,
}

impl Model for Row {
    ghost use Rattle.std.specs.Prelude.{◌≡◌, ◌≤◌, List, length, take};
    ghost use Rattle.mg_words.specs.Limits.{member_limit};
    ghost use Rattle.mg_heard.specs.declared.open_interval.OpenInterval.{OpenInterval};

    ghost Value = { List OpenInterval };

    ghost view = { λ x. take x.len x.places.items };

    ghost invariant = { λ x. (length x.places.items ≡ member_limit) × (x.len ≤ member_limit) };
}

impl Row {
    /// Creates an empty row. No other call allocates.
    pub(crate) fn new(alloc: Global) -> Result<Self, AllocError>
        ensures value { IfOk result (λ x. x ≡ []) }
    {
        Ok(Row {
            places: Vec::from_elem(alloc, OpenInterval::none(), MEMBER_LIMIT)?,
            len: 0,
        })
    }

    pub(crate) fn as_slice(&self) -> &[OpenInterval]
        ensures value { result.now ≡ self.now }
    {
        &self.places[..self.len]
    }

    /// Removes all intervals.
    pub(crate) fn clear(&mut self)
        ensures value { self.new ≡ [] }
    {
        self.len = 0;
    }

    /// Replaces the intervals with one for each flow to a listener, all beginning at this moment.
    pub(crate) fn fill(&mut self, hearers: &[Hearer], listener: &Hearer, first: Moment)
        ensures value { length (flows_heard (seats_of hearers.now) listener.now) ≤ member_limit →
            self.new ≡ map (beginning_at first) (flows_heard (seats_of hearers.now) listener.now) }
    {
        self.len = push_flows(&mut self.places, 0, hearers, listener, first);
    }

    /// Moves the beginning of each interval back to that of the earlier interval of the same flow. An interval without an
    /// earlier one is unchanged.
    pub(crate) fn continue_from(&mut self, earlier: &Row)
        ensures value { IsRising self.old → IsRising earlier.now → self.new ≡ map (continued earlier.now) self.old }
    {
        continue_front(&mut self.places, self.len, earlier.as_slice());
    }

    /// Removes the intervals whose flows have an interval in `next`.
    pub(crate) fn remove_continued(&mut self, next: &Row)
        ensures value { IsRising self.old → IsRising next.now →
            self.new ≡ without_flows (flows_of next.now) self.old }
    {
        self.len = keep_front(&mut self.places, self.len, next.as_slice());
    }
}
