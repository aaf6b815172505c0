ghost use Rattle.std.specs.Prelude.{◌≡◌, ◌≤◌, ◌+◌, ◌∷◌, [], length, map, take, IfOk, List};
ghost use Rattle.mg_core.specs.Note.{Note};
ghost use Rattle.mg_core.specs.World.{World};
ghost use Rattle.mg_core.specs.aids.Stands.{StandsFor};
ghost use Rattle.mg_heard.specs.Intervals.{ending};
ghost use Rattle.mg_heard.specs.OpenFlows.{open_flows};
ghost use Rattle.mg_heard.specs.Times.{moment_after, tick_count};
ghost use Rattle.mg_heard.specs.aids.Opening.{beginning_at, continued, ended_at, flows_of, without_flows, IsRising, AreLasting};
ghost use Rattle.mg_heard.specs.aids.Timing.{AreBegun};
ghost use Rattle.mg_heard.specs.declared.open_flow.OpenFlow.{OpenFlow};

use crate::continuing::{continue_each, keep_ended};
use crate::filling::{FLOWS, fill_places, put_flows};
use crate::moment::Moment;
use crate::open_flow::OpenFlow;
use crate::open_interval::OpenInterval;
use mg_core::Core;
use std::alloc::{AllocError, Global};
use std::marker::Model;
use std::mem;

/// Intervals that have not ended, ordered by listener, then by talker.
#[derive(Drop)]
pub struct OpenIntervals {
    /// A place for each possible flow. The first `len` places are in use.
    places: Vec<OpenInterval>,
    len: usize,
}

impl Model for OpenIntervals {
    ghost use Rattle.std.specs.Prelude.{◌≡◌, ◌≤◌, List, length, take};
    ghost use Rattle.mg_heard.specs.aids.Opening.{flow_limit};
    ghost use Rattle.mg_heard.specs.declared.open_interval.OpenInterval.{OpenInterval};

    ghost Value = { List OpenInterval };

    ghost view = { λ x. take x.len x.places.items };

    ghost invariant = { λ x. (length x.places.items ≡ flow_limit) × (x.len ≤ flow_limit) };
}

impl OpenIntervals {
    /// Creates an empty store. No other call allocates.
    pub fn new(alloc: Global) -> Result<Self, AllocError>
        ensures value { IfOk result (λ x. x ≡ []) }
    {
        Ok(OpenIntervals {
            places: Vec::from_elem(alloc, OpenInterval::none(), FLOWS)?,
            len: 0,
        })
    }

    pub fn as_slice(&self) -> &[OpenInterval]
        ensures value { result.now ≡ self.now }
    {
        &self.places[..self.len]
    }

    /// Advances to a moment at which exactly these flows are open. Afterwards, an interval is stored for each flow, and
    /// `ended` holds the intervals that end at this moment. The flows are in order of their pairs.
    pub fn advance_to(&mut self, ended: &mut OpenIntervals, flows: &[OpenFlow], now: Moment)
        requires few { length flows.now ≤ FLOWS }
        ensures value { (past : List (List OpenFlow)) → IsRising (map (beginning_at now) flows.now) →
            now.tick ≡ length past → AreLasting past self.old → AreLasting (flows.now ∷ past) self.new
            × (map (ended_at now.tick) ended.new ≡ ending past flows.now) }
        ensures begun { (older : List Note) → IsRising (map (beginning_at now) flows.now) → IsRising self.old →
            now ≡ moment_after older → AreBegun older (tick_count older) self.old →
            AreBegun older (tick_count older + 1) self.new × AreBegun older (tick_count older) ended.new }
    {
        mem::swap(self, ended);
        self.replace(flows, now);
        self.continue_from(ended);
        ended.remove_continued(self);
    }

    /// Replaces the stored intervals with one interval per flow, all beginning at this moment.
    fn replace(&mut self, flows: &[OpenFlow], first: Moment)
        requires few { length flows.now ≤ FLOWS }
        ensures value { self.new ≡ map (beginning_at first) flows.now }
    {
        put_flows(&mut self.places, flows, first);
        self.len = flows.len();
    }

    /// Replaces the stored intervals with one for each flow that is open in a core, all beginning at this moment.
    pub(crate) fn fill(&mut self, core: &Core, first: Moment)
        ensures value { (w : World) → StandsFor core.now.state w →
            self.new ≡ map (beginning_at first) (open_flows w.gateway) }
    {
        self.len = fill_places(&mut self.places, core, first);
    }

    /// Moves the beginning of each interval back to that of the earlier interval of the same flow. An interval without an
    /// earlier one is unchanged.
    fn continue_from(&mut self, earlier: &OpenIntervals)
        ensures value { IsRising self.old → IsRising earlier.now → self.new ≡ map (continued earlier.now) self.old }
    {
        continue_front(&mut self.places, self.len, earlier.as_slice());
    }

    /// Removes the intervals whose flows have an interval in `next`.
    fn remove_continued(&mut self, next: &OpenIntervals)
        ensures value { IsRising self.old → IsRising next.now →
            self.new ≡ without_flows (flows_of next.now) self.old }
    {
        self.len = keep_front(&mut self.places, self.len, next.as_slice());
    }
}

/// Moves the beginning of each interval in the first `len` places back to that of the earlier interval of the same flow.
/// An interval without an earlier one is unchanged.
pub(crate) fn continue_front(places: &mut [OpenInterval], len: usize, earlier: &[OpenInterval])
    requires within { len ≤ length places.old }
    ensures value { IsRising (take len places.old) → IsRising earlier.now →
        take len places.new ≡ map (continued earlier.now) (take len places.old) }
{
    continue_each(&mut places[..len], earlier);
}

/// Of the intervals in the first `len` places, keeps those whose flows have no interval in `next`. Returns how many it
/// keeps.
pub(crate) fn keep_front(places: &mut [OpenInterval], len: usize, next: &[OpenInterval]) -> usize
    requires within { len ≤ length places.old }
    ensures within { result ≤ len }
    ensures value { IsRising (take len places.old) → IsRising next.now →
        take result places.new ≡ without_flows (flows_of next.now) (take len places.old) }
{
    keep_ended(&mut places[..len], next)
}
