use crate::payload::Payload;
use crate::receipt::Receipt;
use mg_clock::Timing;
use mg_journal::{AppendFault, Durability};
use mg_words::Peer;

/// A call on a gateway's ports, with its arguments. A receive, an append and a renewal of the journal also have their
/// results.
#[derive(Drop)]
pub enum Call {
    Receive(usize, Receipt),
    Send(usize, Peer, Payload),
    BeginTick(Timing),
    Append(Payload, Durability, Result<(), AppendFault>),
    Renew(Payload, Durability, Result<(), AppendFault>),
}
