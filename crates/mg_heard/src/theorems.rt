//! Properties of all intervals. The functions do nothing: their contracts are the theorems.

ghost use Rattle.std.specs.Prelude.{◌≡◌, ◌↔◌, true, List};
ghost use Rattle.mg_core.specs.World.{World};
ghost use Rattle.mg_core.specs.declared.event.Event.{Event};
ghost use Rattle.mg_heard.specs.Intervals.{Interval};
ghost use Rattle.mg_heard.specs.Laws.{AreIntervals, EventsDetermineIntervals, IntervalsTellTheTruth, NoPairIsToldTwice, RtpChangesNoInterval, TellsTheFlow};
ghost use Rattle.mg_heard.specs.Maximal.{IntervalsAreTrueAndMaximal};
ghost use Rattle.mg_heard.specs.OpenFlow.{is_same};
ghost use Rattle.mg_heard.specs.declared.open_flow.OpenFlow.{OpenFlow};

use mg_core::Event;

/// Two flows are equal if and only if everything that is printed about them is equal.
pub fn same_flows_are_equal()
    ensures theorem { (a b : OpenFlow) → (is_same a b ≡ true) ↔ (a ≡ b) }
{}

/// For every list of events on a gateway, there is a list of its intervals.
pub fn intervals_exist(events: &[Event])
    ensures theorem { (base : World) → (ys : List Interval) × AreIntervals base events.now ys }
{
    for event in events {
        mg_core::theorems::each_event_has_an_outcome(event);
    }
}

/// The events of a script determine who could hear whom, and when.
pub fn intervals_are_unique()
    ensures theorem { EventsDetermineIntervals }
{
    mg_core::theorems::outcomes_are_unique();
}

/// Some interval of a pair contains a tick if and only if the talker's speech flows to the listener in the world before
/// that tick. The interval's context and Remotes are also right in that world.
pub fn intervals_tell_the_flow()
    ensures flow { (base : World) (events : List Event) (ys : List Interval) →
        AreIntervals base events ys → TellsTheFlow base events ys }
    ensures truth { IntervalsTellTheTruth }
{
    mg_core::theorems::outcomes_are_unique();
}

/// The intervals are exactly the maximal periods in which a flow is open before each tick.
pub fn intervals_are_true_and_maximal()
    ensures theorem { IntervalsAreTrueAndMaximal }
{}

/// No pair is reported twice for the same tick.
pub fn no_pair_is_told_twice()
    ensures theorem { NoPairIsToldTwice }
{
    mg_core::theorems::worlds_are_consistent();
}

/// A journal and a full recording of the same gateway have the same intervals.
pub fn rtp_changes_no_interval()
    ensures theorem { RtpChangesNoInterval }
{
    mg_core::theorems::rtp_changes_speech_only();
}
