//! The gateway's timing: when its ticks begin, and when the polls and ticks of `mg_pace` are due.
//!
//! There is a tick every 20 ms. Each tick is due at a fixed time after the start of the clock, so delays do not add up.
//! [`TickSchedule`] waits for one tick after another, and for messages in between:
//!
//! ```rust
//! let mut watch = SystemWatch::start_now(&rt)?;
//! let mut schedule = TickSchedule::new(5);
//! let step = schedule.next_step(&mut watch)?;
//! ```
//!
//! A step is a poll; each period of 20 ms has at least one. The last step of a period is also a tick ([`steps_due`]).
//!
//! [`Watch`] is a clock that can wait, and [`SystemWatch`] is the system's monotonic clock. Times are in nanoseconds
//! since the clock's start.
//!
//! Contracts describe a clock by its readings and waits. These are known for a scripted clock, but not for the system
//! clock.
#![tactic(auto)]

mod clock_failed;
mod due;
mod step;
mod system_watch;
mod tick_schedule;
mod timing;
mod watch;

pub use crate::clock_failed::ClockFailed;
pub use crate::due::{MAX_POLLS, steps_due, time_to_step, time_to_tick};
pub use crate::step::Step;
pub use crate::system_watch::SystemWatch;
pub use crate::tick_schedule::TickSchedule;
pub use crate::timing::Timing;
pub use crate::watch::Watch;
