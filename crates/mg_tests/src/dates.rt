//! Tests of the dates in a journal, and of the number of missed ticks that follows from them.

use crate::equality::assert_equal;
use mg_dates::{Date, DatedJournal, Timeline};
use mg_journal::{
    AppendFault, Durability, FaultEffect, FileCall, FileJournal, InjectedFault, MemoryFile, Opening,
};
use mg_ports::Batch;
use std::alloc::Global;
use std::cell::Cell;
use std::io::{self, ErrorKind};
use std::test::Fail;
use std::time::{Clock, Duration};

/// A clock that shows a given time of day.
#[derive(Drop)]
struct FixedClock {
    millis: Cell<u64>,
}

impl Clock for FixedClock {
    fn monotonic(&self) -> io::Result<Duration> {
        Ok(Duration::ZERO)
    }

    fn since_1970(&self) -> io::Result<Duration> {
        Ok(Duration::from_millis(self.millis.get()))
    }
}

/// 2026-11-27T14:03:20Z, in milliseconds since 1970.
const START: u64 = 1_795_788_200_000;

/// Returns a time after the start.
fn after(millis: u32) -> Date {
    Date {
        millis: START + u64::from(millis),
    }
}

const MESSAGE: &[u8] = b"control 127.0.0.1:2944 00\n";

fn journal(alloc: Global, faults: &[InjectedFault]) -> io::Result<FileJournal<MemoryFile>> {
    let file = MemoryFile::new(Vec::new(alloc), faults.to_vec(alloc)?);
    Opening::new(file)?.accept()
}

#[test]
fn dates_messages_and_old_ticks(rt: HostRuntime) -> Result<(), Fail> {
    let clock = FixedClock {
        millis: Cell::new(START),
    };
    let mut dated = DatedJournal::new(rt.alloc(), journal(rt.alloc(), &[])?, &clock)?;
    for (millis, batch, line) in [
        // The first batch gets a seal, and the date of its first tick.
        (0, Batch::Ticks(2), b"ticks 2\n".as_slice()),
        // The first message of a later second gets a date, and the next message does not.
        (1_250, Batch::Message, MESSAGE),
        (1_900, Batch::Message, MESSAGE),
        // Ticks get a date only after a minute, and the date gets a seal.
        (61_240, Batch::Ticks(1), b"ticks 1\n"),
        (61_250, Batch::Ticks(1), b"ticks 1\n"),
    ] {
        clock.millis.set(after(millis).millis);
        assert_equal(&rt, dated.append(batch, line, Durability::Written), Ok(()));
    }
    let text =
        "# sha256 e3b0c44298fc1c149afbf4c8996fb92427ae41e4649b934ca495991b7852b855\n# time 2026-11-27T14:03:19.96Z\nticks 2\n# time 2026-11-27T14:03:21.25Z\ncontrol 127.0.0.1:2944 00\ncontrol 127.0.0.1:2944 00\nticks 1\n# sha256 2f4f7dc433989ecb1096471e23a1d1beeffe31d953111d0d4c6238941f42ff54\n# time 2026-11-27T14:04:21.23Z\nticks 1\n";
    assert_equal(&rt, dated.journal().file().bytes(), text.as_bytes());
    Ok(())
}

#[test]
fn dates_only_what_is_appended(rt: HostRuntime) -> Result<(), Fail> {
    let clock = FixedClock {
        millis: Cell::new(START),
    };
    let faults = [InjectedFault {
        call: FileCall::Write,
        number: 0,
        effect: FaultEffect::Fail(ErrorKind::StorageFull),
    }];
    let mut dated = DatedJournal::new(rt.alloc(), journal(rt.alloc(), &faults)?, &clock)?;
    assert_equal(
        &rt,
        dated.append(Batch::Message, MESSAGE, Durability::Synced),
        Err(AppendFault::Refused),
    );
    assert_equal(&rt, dated.journal().file().bytes(), b"".as_slice());
    assert_equal(
        &rt,
        dated.append(Batch::Message, MESSAGE, Durability::Synced),
        Ok(()),
    );
    let text =
        "# sha256 e3b0c44298fc1c149afbf4c8996fb92427ae41e4649b934ca495991b7852b855\n# time 2026-11-27T14:03:20Z\ncontrol 127.0.0.1:2944 00\n";
    assert_equal(&rt, dated.journal().file().bytes(), text.as_bytes());
    Ok(())
}

#[test]
fn counts_missed_ticks(rt: HostRuntime) -> Result<(), Fail> {
    let mut timeline = Timeline::new();
    assert_equal(&rt, timeline.missed(after(0)), 0);
    timeline.pass_ticks(7);
    timeline.pass_comment(b"# time 2026-11-27T14:03:20Z");
    timeline.pass_comment(b"# another comment");
    timeline.pass_comment(b"");
    timeline.pass_ticks(40);
    timeline.pass_ticks(10);
    // All ticks of the first second were run. Then 15 ticks are missed in 319 ms.
    assert_equal(&rt, timeline.missed(after(1_000)), 0);
    assert_equal(&rt, timeline.missed(after(1_319)), 15);
    // The clock was set back.
    assert_equal(&rt, timeline.missed(after(999)), 50);
    assert_equal(&rt, timeline.missed(Date { millis: START - 1 }), 50);
    Ok(())
}

#[test]
fn counts_from_the_first_date(rt: HostRuntime) -> Result<(), Fail> {
    let mut timeline = Timeline::new();
    timeline.pass_comment(b"# time 2026-11-27T14:03:20Z");
    timeline.pass_ticks(50);
    // A restart: 19 ms were rounded off, and the start took 30 ms.
    assert_equal(&rt, timeline.missed(after(1_219)), 10);
    timeline.pass_ticks(10);
    timeline.pass_comment(b"# time 2026-11-27T14:03:21.249Z");
    timeline.pass_ticks(50);
    // At the next restart, these 49 ms count as two missed ticks.
    assert_equal(&rt, timeline.missed(after(2_249)), 2);
    Ok(())
}

#[test]
fn follows_a_clock_that_is_set(rt: HostRuntime) -> Result<(), Fail> {
    let mut timeline = Timeline::new();
    timeline.pass_comment(b"# time 2026-11-27T14:03:20Z");
    timeline.pass_ticks(50);
    // The clock is set ahead by one hour.
    timeline.pass_comment(b"# time 2026-11-27T15:03:21Z");
    timeline.pass_ticks(50);
    assert_equal(&rt, timeline.missed(after(3_602_100)), 5);
    // The clock is set back by one hour.
    timeline.pass_comment(b"# time 2026-11-27T14:03:22Z");
    timeline.pass_ticks(50);
    assert_equal(&rt, timeline.missed(after(3_100)), 5);
    Ok(())
}
