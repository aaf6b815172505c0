use std::error::Error;
use std::fmt;

/// Why a datagram is not a packet: the first fault in it.
#[derive(Clone, Copy, Debug, PartialEq, Eq, Hash)]
pub enum RtpFault {
    /// The datagram ends within the twelve bytes of the header, or within the contributing sources.
    Short,
    /// The version is not 2.
    Version,
    /// The datagram ends within the header extension.
    Extension,
    /// The padding bit is set, but the last byte is not a valid padding count: it is missing, 0, or too large.
    Padding,
}

impl fmt::Display for RtpFault {
    ghost use Rattle.std.specs.Prelude.{Some};
    ghost use Rattle.mg_rtp.specs.RtpFault.{fault_text};

    ghost output = { λ fault. Some (fault_text fault) };

    fn fmt<W: fmt::Write>(&self, f: &mut fmt::Formatter<W>) -> fmt::Result {
        match self {
            RtpFault::Short => f.write_str("the datagram ends within the header or the sources"),
            RtpFault::Version => f.write_str("the version is not 2"),
            RtpFault::Extension => f.write_str("the datagram ends within the extension"),
            RtpFault::Padding => f.write_str("the padding count is invalid"),
        }
    }
}

impl Error for RtpFault {}
