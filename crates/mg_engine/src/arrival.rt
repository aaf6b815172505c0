//! How an RTP datagram changes a termination.

ghost use Rattle.std.specs.Prelude.{◌≡◌, ℕ, ℤ, List, Result, Ok, Err};
ghost use Rattle.mg_rtp.specs.declared.header.Header.{Header};
ghost use Rattle.mg_rtp.specs.declared.rtp_fault.RtpFault.{RtpFault};
ghost use Rattle.mg_rtp.specs.aids.Read.{reading_of};
ghost use Rattle.mg_engine.specs.Arrival.{is_stray_source, law_for, decoded, frame_by_law};

use crate::sending::payload_type;
use crate::taken::DropCause;
use mg_g711::{Frame, Law, decode_frame};
use mg_rooms::Record;
use mg_rtp::{Header, Packet, RtpFault};
use mg_sdp::Chosen;
use mg_words::{Peer, SAMPLES};

/// Returns whether a datagram comes from an address that differs from the address in the termination's Remote.
fn is_stray(remote: Option<Chosen>, source: Peer) -> bool
    ensures value { result ≡ is_stray_source remote source.address }
{
    match remote {
        Some(remote) => remote.address != source.address,
        None => false,
    }
}

/// Returns the law that payloads from a source must use, or why packets from that source are dropped.
pub fn law_for(termination: &Record, source: Peer) -> Result<Law, DropCause>
    ensures value { result ≡ law_for termination.now source.address }
{
    if is_stray(termination.remote, source) {
        return Err(DropCause::Stray);
    }
    match termination.local {
        Some(local) => Ok(local.law),
        None => Err(DropCause::NoLocal),
    }
}

/// Decodes a payload if it is one frame encoded with this law, or returns why the packet is dropped.
fn frame_of(law: Law, header: Header, payload: &[u8]) -> Result<(Header, Frame), DropCause>
    ensures value { result ≡ decoded law (header, payload.now) }
{
    if header.payload_type != payload_type(law) {
        return Err(DropCause::PayloadType);
    }
    match <&[u8; SAMPLES]>::try_from(payload) {
        Ok(payload) => {
            let frame = decode_frame(law, payload);
            Ok((header, frame))
        }
        Err(_) => Err(DropCause::Length),
    }
}

/// Decodes the payload of a packet if it is one frame encoded with this law, or returns why the packet is dropped.
pub fn frame_by_law(
    law: Law,
    packet: Result<Packet<'_>, RtpFault>,
) -> Result<(Header, Frame), DropCause>
    ensures value { result ≡ frame_by_law law (reading_of packet.entry) }
{
    match packet {
        Ok(packet) => frame_of(law, packet.header, packet.payload),
        Err(fault) => Err(DropCause::Rtp(fault)),
    }
}
