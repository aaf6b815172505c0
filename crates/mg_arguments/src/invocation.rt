use crate::audible_request::AudibleRequest;
use crate::file_paths::FilePaths;
use crate::heard_request::HeardRequest;
use crate::watch_request::WatchRequest;
use mg_core::{Config, Peer, Shown};
use mg_service::{FilePath, Service};

/// The run that the program's arguments request.
#[derive(Drop)]
pub enum Invocation {
    /// Run a script. The second field selects what is written for each event.
    Replay(Config, Shown),
    /// Run a gateway on UDP ports, driven by input lines.
    Serve(Config, Service),
    /// Run a gateway on UDP ports, driven by the clock. First, the initial numbers of its RTP packets that no option sets
    /// are drawn at random. The last field is the maximum lateness of a tick, in ticks: if a tick is later than that, its
    /// packets are not sent.
    Live(Config, Service, u16),
    /// Check that the gateway with this control port answers messages from this address. 0.0.0.0 is any address of the
    /// machine.
    Check(Peer, [u8; 4]),
    /// Report who could hear whom while a script ran.
    Heard(HeardRequest),
    /// Report when a talker was audible while a script ran.
    Audible(AudibleRequest),
    /// Report whether the seals in a file, or in the input, are valid. The second field has the files that follow the
    /// file, oldest first.
    Verify(Option<FilePath>, FilePaths),
    /// Copy the input to the output, and add seals.
    Seal,
    /// Report whether a script breaks a rule about who must not be heard.
    Watch(WatchRequest),
}
