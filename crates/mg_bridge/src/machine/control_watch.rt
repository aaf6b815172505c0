use mg_clock::{ClockFailed, SystemWatch, Watch};
use mio::{Events, Poll};
use std::time::{Clock, Duration};

/// After a message has ended a wait, the next wait looks for messages only after this many milliseconds.
const GAP_MS: u64 = 1;

/// The system's monotonic clock. A datagram at a control socket ends a wait. Otherwise, a wait can be up to a
/// millisecond too long.
///
/// After a datagram has ended a wait, the next wait doesn't look for messages during its first millisecond. So a flood
/// of messages can end at most a thousand waits per second.
#[derive(Drop)]
pub struct ControlWatch<'a, C: Clock> {
    watch: SystemWatch<'a, C>,
    poll: Poll,
    events: Events,
    has_message: bool,
}

impl<'a, C: Clock> ControlWatch<'a, C> {
    /// Creates a clock. The control sockets must be registered with this poll.
    pub fn new(watch: SystemWatch<'a, C>, poll: Poll, events: Events) -> Self {
        ControlWatch {
            watch,
            poll,
            events,
            has_message: false,
        }
    }

    /// Waits until a datagram arrives at a control socket, but no longer than this time. Returns whether a datagram
    /// arrived. The system waits in whole milliseconds, rounded up. If it can't wait for a datagram, the clock waits
    /// for the whole time.
    fn message_within(&mut self, time: Duration) -> bool {
        match self.poll.poll(&mut self.events, Some(time)) {
            Ok(()) => !self.events.is_empty(),
            Err(_) => self.watch.wait(time),
        }
    }
}

impl<'a, C: Clock> Watch for ControlWatch<'a, C> {
    fn now(&mut self) -> Result<u64, ClockFailed> {
        self.watch.now()
    }

    fn wait(&mut self, time: Duration) -> bool {
        let gap = if self.has_message {
            time.min(Duration::from_millis(GAP_MS))
        } else {
            Duration::ZERO
        };
        if gap > Duration::ZERO {
            let _ = self.watch.wait(gap);
        }
        self.has_message = self.message_within(time.saturating_sub(gap));
        self.has_message
    }
}
