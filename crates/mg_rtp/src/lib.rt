//! Reads and writes RTP packets (RFC 3550, section 5.1).
//!
//! [`read`] parses a datagram and borrows its payload. [`write`] builds a packet with a payload of 160 bytes. Neither
//! function allocates.
//!
//! ```rust
//! let header = Header { marker: true, payload_type: 0, sequence: 7, timestamp: 1120, ssrc: 99 };
//! let bytes = write(header, &[0xff; PAYLOAD_LEN]);
//! let packet = read(&bytes)?;
//! assert_eq!(rt; packet.header, header);
//! ```
#![tactic(auto)]

mod header;
mod packet;
mod reading;
mod rtp_fault;
pub mod theorems;
mod writing;

pub use header::Header;
pub use packet::Packet;
pub use reading::read;
pub use rtp_fault::RtpFault;
pub use writing::{PACKET_LEN, PAYLOAD_LEN, write, write_header, write_payload};
