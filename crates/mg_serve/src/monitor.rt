use crate::tick_report::TickReport;
use mg_core::{Core, Taken};

/// Watches a server for its operator. Nothing that a monitor does affects the server.
pub trait Monitor {
    /// Called when a poll begins.
    fn begin_poll(&mut self);

    /// Called when a datagram was dropped because of its sender. Socket 0 is the control socket.
    fn count_stranger(&mut self, socket: u16);

    /// Called when an RTP datagram from a media socket was handled. Media sockets are numbered from 1.
    fn count_media(&mut self, socket: u16, bytes: &[u8], taken: Taken);

    /// Called when a tick begins.
    fn begin_tick(&mut self, core: &Core);

    /// Called at the end of a tick, after its packets were sent or left out.
    fn end_tick(&mut self, report: &TickReport<'_>);
}
