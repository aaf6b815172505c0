ghost use Rattle.std.specs.Prelude.{◌≡◌, ◌-◌, ◌<◌, false, if◌then◌else◌};

use mg_dates::DatedJournal;
use mg_journal::Journal;
use mg_ports::Batch;
use std::time::Clock;

/// The number of ticks between two looks at the journal's file: one second's worth.
const LOOK: u64 = 50;

/// The number of ticks for which no renewal is tried after one that failed: one minute's worth.
const PAUSE: u64 = 3_000;

/// The size in bytes beyond which the journal is renewed. A start with a journal of this size takes less than 0.1 s.
const MAX_SIZE: u64 = 3_000_000;

/// Decides when the journal is renewed: when it is large or broken, or when its path no longer leads to the whole
/// journal. If a number of messages is set, the journal is also renewed after that many messages.
#[derive(Clone, Copy)]
pub(crate) struct Renewals {
    /// The number of messages after which the journal is renewed; 0 means that their number doesn't matter.
    every: u32,
    /// The number of messages since the journal was renewed, or since the gateway started.
    messages: u64,
    /// The number of ticks since the journal was renewed, or since the gateway started.
    ticks: u64,
    /// The number of ticks for which no renewal is tried.
    pause: u64,
}

impl Renewals {
    pub(crate) fn new(every: u32) -> Self
        ensures pause { result.pause ≡ 0 }
    {
        Renewals {
            every,
            messages: 0,
            ticks: 0,
            pause: 0,
        }
    }

    /// Counts a message if its line was appended.
    pub(crate) fn count(&mut self, batch: Batch, has_worked: bool)
        ensures pause { self.new.pause ≡ self.old.pause }
    {
        if has_worked && batch == Batch::Message {
            self.messages = self.messages.saturating_add(1);
        }
    }

    /// Returns whether a number of messages is set and has been reached.
    fn has_messages(&self) -> bool {
        self.every > 0 && self.messages >= u64::from(self.every)
    }

    /// Returns whether the journal is large, broken, or not at its path.
    fn is_needed<J: Journal, C: Clock>(journal: &mut DatedJournal<'_, J, C>) -> bool
        ensures same { journal.new ≡ journal.old }
    {
        journal.size() >= MAX_SIZE || !journal.is_intact()
    }

    /// Counts a tick. Returns whether the journal is to be renewed now. Looks at the journal's file once a second.
    ///
    /// After a renewal is due, no other one is due for a minute, unless [`end`](Renewals::end) says that the renewal
    /// worked.
    pub(crate) fn tick<J: Journal, C: Clock>(
        &mut self,
        journal: &mut DatedJournal<'_, J, C>,
    ) -> bool
        ensures same { journal.new ≡ journal.old }
        ensures paused { 0 < self.old.pause → result ≡ false }
        ensures pause { self.new.pause ≡ (if result then 3000 else self.old.pause - 1) }
    {
        self.ticks = self.ticks.saturating_add(1);
        if self.pause > 0 {
            self.pause -= 1;
            return false;
        }
        if self.has_messages() || (self.ticks % LOOK == 0 && Self::is_needed(journal)) {
            self.pause = PAUSE;
            return true;
        }
        false
    }

    /// Records whether a renewal worked.
    pub(crate) fn end(&mut self, has_worked: bool)
        ensures pause { self.new.pause ≡ (if has_worked then 0 else self.old.pause) }
    {
        if has_worked {
            *self = Renewals::new(self.every);
        }
    }
}
