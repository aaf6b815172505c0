//! Reports and metrics for the operator of a gateway: reports on standard error, and metrics for Prometheus.
//!
//! [`Reports`] and [`Metrics`] are [`Monitor`](mg_serve::Monitor)s of a server, so they can't change what the gateway
//! does. [`Reports`] prints the totals since the start, and a line for each media port that has had trouble or whose
//! caller was silent. [`Metrics`] passes text in Prometheus' format to a [`Sink`] every five seconds. [`Both`] combines
//! two monitors into one.
//!
//! ```rust
//! let mut monitor = Reports::new(alloc, 60, &mut errors)?;
//! let counts = serve::<(_, _, _), _>(start, &mut ports, &mut input, &mut output, &mut monitor)?;
//! ```
//!
//! [`Loss`] counts the RTP packets that were lost.
#![tactic(auto)]

mod both;
mod delays;
mod families;
mod journal_watch;
mod loss;
mod metrics;
mod page;
mod port_counter;
mod port_counts;
mod port_totals;
mod reports;
mod seconds;
mod sink;
mod stale_watch;

pub use crate::both::Both;
pub use crate::loss::Loss;
pub use crate::metrics::Metrics;
pub use crate::reports::Reports;
pub use crate::sink::Sink;
