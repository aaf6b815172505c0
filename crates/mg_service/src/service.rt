ghost use Rattle.std.specs.Prelude.{◌≡◌, Some, None, if◌then◌else◌};
ghost use Rattle.std.specs.Option.{option_map};
ghost use Rattle.mg_service.specs.Setup.{setup_of};
ghost use Rattle.mg_service.specs.Title.{title_line};

use crate::bind_addresses::BindAddresses;
use crate::config_options::ConfigOptions;
use crate::controllers::Controllers;
use crate::file_path::FilePath;
use mg_core::Config;
use mg_fence::Fence;
use mg_journal::Durability;
use mg_serve::Setup;

/// The options of a gateway on sockets.
#[derive(Drop)]
pub struct Service {
    /// The controllers that may send messages to the gateway. If none is listed, anybody may.
    pub controllers: Controllers,
    /// The addresses that the ports are bound to.
    pub bind_addresses: BindAddresses,
    /// The seconds between reports; 0 disables reports.
    pub report: u16,
    /// Whether the output is a recording.
    pub records: bool,
    /// Whether callers must use symmetric RTP: their packets must come from the address and port of their Remote.
    pub symmetric_rtp: bool,
    /// The file to which a gateway in real time writes metrics, or `None` if it writes none.
    pub metrics: Option<FilePath>,
    /// The file for the journal, or `None` if there is no journal.
    pub journal: Option<FilePath>,
    /// How durably messages are appended to the journal.
    pub durability: Durability,
    /// The number of messages after which the journal is renewed with a checkpoint; 0 means that their number doesn't
    /// matter.
    pub checkpoint_every: u32,
    /// Whether the fence is strict, or `None` if there is no fence.
    pub fence: Option<bool>,
    /// The number at which the fence begins, or `None` to begin at the number that the journal has reached.
    pub fence_from: Option<u32>,
    /// The options of the configuration. With a journal, those that aren't given come from the journal's title, if it
    /// has one.
    pub given: ConfigOptions,
}

impl Service {
    /// Returns the setup of a session with this configuration. `reached` is the number that the journal has reached, and
    /// `title` is the line of the title (see [`title_line_of`](crate::title_line_of)).
    pub fn setup<'s>(&'s self, config: Config, reached: u32, title: &'s [u8]) -> Setup<'s>
        requires title { title.now ≡ title_line config }
        ensures value { result ≡ setup_of config reached self.now }
    {
        let journal = self.journal.as_ref().map(|_| self.durability);
        let reached = self.fence_from.unwrap_or(reached);
        let fence = match self.fence {
            Some(strict) => Some(Fence { reached, strict }),
            None => None,
        };
        Setup::new(
            config,
            self.controllers.as_slice(),
            self.symmetric_rtp,
            journal,
            fence,
        )
        .renewing(title, reached)
    }

    /// Returns the title of the output if it is a recording, and `None` otherwise.
    pub fn title<'t>(&self, text: &'t [u8]) -> Option<&'t [u8]>
        ensures value { option_map (λ title. title.now) result ≡ (if self.now.records then Some text.now else None) }
    {
        if self.records { Some(text) } else { None }
    }
}
