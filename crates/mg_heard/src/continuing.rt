//! Compares two lists of intervals, each in order of its pairs, by walking through both in step.

ghost use Rattle.std.specs.Prelude.{◌≡◌, ◌≤◌, length, map, take};
ghost use Rattle.mg_heard.specs.aids.Opening.{beginning_among, continued, flows_of, without_flows, AreBefore, IsRising};

use crate::moment::Moment;
use crate::open_flow::OpenFlow;
use crate::open_interval::OpenInterval;

/// Moves the beginning of each interval back to that of the earlier interval of the same flow. An interval without an
/// earlier one is unchanged.
pub(crate) fn continue_each(intervals: &mut [OpenInterval], earlier: &[OpenInterval])
    ensures value { IsRising intervals.old → IsRising earlier.now →
        intervals.new ≡ map (continued earlier.now) intervals.old }
{
    let mut from = 0;
    for place in 0..intervals.len() {
        let flow = intervals[place].flow;
        if let Some(first) = beginning_from(earlier, &mut from, &flow) {
            intervals[place].first = first;
        }
    }
}

/// Moves to the front all intervals whose flows have no interval in `next`. Returns how many such intervals there are.
pub(crate) fn keep_ended(intervals: &mut [OpenInterval], next: &[OpenInterval]) -> usize
    ensures within { result ≤ length intervals.old }
    ensures value { IsRising intervals.old → IsRising next.now →
        take result intervals.new ≡ without_flows (flows_of next.now) intervals.old }
{
    let mut from = 0;
    let mut kept = 0;
    for place in 0..intervals.len() {
        let interval = intervals[place];
        if beginning_from(next, &mut from, &interval.flow).is_none() {
            intervals[kept] = interval;
            kept += 1;
        }
    }
    kept
}

/// Returns when a flow's interval began, or `None` if the flow has no interval at the place `from` or later. Advances
/// `from` to the first place whose pair does not come before the flow's pair.
fn beginning_from(intervals: &[OpenInterval], from: &mut usize, flow: &OpenFlow) -> Option<Moment>
    requires within { from.old ≤ length intervals.now }
    ensures within { from.new ≤ length intervals.now }
    ensures passed { AreBefore flow.now (take from.old intervals.now) →
        AreBefore flow.now (take from.new intervals.now) }
    ensures value { IsRising intervals.now → AreBefore flow.now (take from.old intervals.now) →
        result ≡ beginning_among intervals.now flow.now }
{
    let key = flow.key();
    while *from < intervals.len() && intervals[*from].flow.key() < key {
        *from += 1;
    }
    let interval = intervals.get(*from)?;
    if flow.is_same(&interval.flow) {
        Some(interval.first)
    } else {
        None
    }
}
