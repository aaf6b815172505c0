//! Reports intervals and gaps to a sink.

ghost use Rattle.std.specs.Prelude.{◌≡◌, ◌++◌, ◌∷◌, [], map, List, OnOk};
ghost use Rattle.mg_heard.specs.aids.Keeping.{entry_until};
ghost use Rattle.mg_heard.specs.aids.Rows.{intervals_of};
ghost use Rattle.mg_heard.specs.declared.entry.Entry.{Entry};
ghost use Rattle.mg_heard.specs.declared.entry.Entry.TheVariants as entries;

use crate::entry::Entry;
use crate::gap::Gap;
use crate::listener_row::ListenerRow;
use crate::moment::Moment;
use crate::open_interval::OpenInterval;
use crate::sink::Sink;
use mg_core::Stopped;

/// Reports the intervals of all rows to a sink, all with this end, or without an end if `end` is `None`.
pub(crate) fn tell_rows<S: Sink>(
    rows: &[ListenerRow],
    end: Option<Moment>,
    sink: &mut S,
) -> Result<(), Stopped>
    ensures value { (start : S) (before : List Entry) → S.told start sink.old before →
        OnOk result (S.told start sink.new (before ++ map (entry_until end) (intervals_of rows.now))) }
{
    for row in rows {
        tell_intervals(row.row.as_slice(), end, sink)?;
    }
    Ok(())
}

/// Reports intervals to a sink, all with this end, or without an end if `end` is `None`.
fn tell_intervals<S: Sink>(
    intervals: &[OpenInterval],
    end: Option<Moment>,
    sink: &mut S,
) -> Result<(), Stopped>
    ensures value { (start : S) (before : List Entry) → S.told start sink.old before →
        OnOk result (S.told start sink.new (before ++ map (entry_until end) intervals.now)) }
{
    for interval in intervals {
        sink.tell(&Entry::Interval(interval.until(end)))?;
    }
    Ok(())
}

/// Reports a gap to a sink.
pub fn tell_gap<S: Sink>(gap: Gap, sink: &mut S) -> Result<(), Stopped>
    ensures value { (start : S) (before : List Entry) → S.told start sink.old before →
        OnOk result (S.told start sink.new (before ++ entries.Gap gap ∷ [])) }
{
    sink.tell(&Entry::Gap(gap))
}
