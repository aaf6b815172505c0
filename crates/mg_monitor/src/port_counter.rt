use crate::port_totals::PortTotals;

/// A counter of a media port.
#[derive(Clone, Copy, Debug, PartialEq, Eq)]
pub enum PortCounter {
    Packets,
    Lost,
    Concealed,
}

impl PortCounter {
    /// Returns the name of the metric.
    pub fn name(self) -> &'static str {
        match self {
            PortCounter::Packets => "port_packets_total",
            PortCounter::Lost => "port_packets_lost_total",
            PortCounter::Concealed => "port_frames_concealed_total",
        }
    }

    /// Returns the help text of the metric.
    pub fn help(self) -> &'static str {
        match self {
            PortCounter::Packets => "RTP datagrams received",
            PortCounter::Lost => "Packets that never arrived, judging by sequence numbers",
            PortCounter::Concealed => "Missing frames that were replaced by the previous one",
        }
    }

    /// Returns the value for a port.
    pub fn of(self, port: &PortTotals) -> u64 {
        match self {
            PortCounter::Packets => port.packets,
            PortCounter::Lost => port.loss.lost(),
            PortCounter::Concealed => port.concealed,
        }
    }
}
