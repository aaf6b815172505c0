//! Reports audible intervals to a sink.

ghost use Rattle.std.specs.Prelude.{◌≡◌, ◌++◌, map, List, OnOk};
ghost use Rattle.mg_heard.specs.declared.entry.Entry.{Entry};
ghost use Rattle.mg_audible.specs.aids.Keeping.{entry_until};

use mg_core::Stopped;
use mg_heard::{Entry, Moment, OpenInterval, Sink};

/// Reports audible intervals to a sink, all with this end, or without an end if `end` is `None`.
pub(crate) fn tell_audible<S: Sink>(
    intervals: &[OpenInterval],
    end: Option<Moment>,
    sink: &mut S,
) -> Result<(), Stopped>
    ensures value { (start : S) (before : List Entry) → S.told start sink.old before →
        OnOk result (S.told start sink.new (before ++ map (entry_until end) intervals.now)) }
{
    for interval in intervals {
        sink.tell(&Entry::Audible(interval.until(end)))?;
    }
    Ok(())
}
