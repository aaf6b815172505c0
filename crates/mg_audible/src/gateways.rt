use mg_core::Core;

/// Three gateways in the same state, on which [`hear_talker`](crate::hear_talker) runs a script. A core can't be
/// copied, so the caller makes each of them.
#[derive(Drop)]
pub struct Gateways {
    /// Reads the script, and mixes no packets.
    pub script: Core,
    /// Receives all events of the script.
    pub whole: Core,
    /// Receives all events except the talker's speech.
    pub without: Core,
}
