ghost use Rattle.std.specs.Prelude.{◌≡◌, IfNone, IfOk, true};
ghost use Rattle.mg_service.specs.ConfigOptions.{IsDrawn, config_of, config_or};

use mg_core::Config;
use std::io;
use std::random::RandomSource;

/// The options of a configuration. An option that isn't given is `None`.
#[derive(Clone, Copy, Debug, PartialEq, Eq)]
pub struct ConfigOptions {
    pub address: Option<[u8; 4]>,
    pub control_address: Option<[u8; 4]>,
    pub control_port: Option<u16>,
    pub base_port: Option<u16>,
    pub slots: Option<u16>,
    pub first_termination: Option<u32>,
    pub first_context: Option<u32>,
    pub ssrc: Option<u32>,
    pub sequence: Option<u16>,
    pub timestamp: Option<u32>,
}

impl ConfigOptions {
    /// Returns the configuration with the values of the given options. The other values are those of `config`.
    pub fn or(&self, config: &Config) -> Config
        ensures value { result ≡ config_or self.now config.now }
    {
        Config {
            address: self.address.unwrap_or(config.address),
            control_address: self.control_address.unwrap_or(config.control_address),
            control_port: self.control_port.unwrap_or(config.control_port),
            base_port: self.base_port.unwrap_or(config.base_port),
            slots: self.slots.unwrap_or(config.slots),
            first_termination: self.first_termination.unwrap_or(config.first_termination),
            first_context: self.first_context.unwrap_or(config.first_context),
            ssrc: self.ssrc.unwrap_or(config.ssrc),
            sequence: self.sequence.unwrap_or(config.sequence),
            timestamp: self.timestamp.unwrap_or(config.timestamp),
        }
    }

    /// Returns the configuration that the options specify. Options that aren't given have their default values.
    pub fn config(&self) -> Config
        ensures value { result ≡ config_of self.now }
    {
        let standard = Config::default();
        let control_address = self.address.unwrap_or(standard.address);
        self.or(&Config {
            control_address,
            ..standard
        })
    }

    /// Returns the name of the first given option whose value differs from that of a configuration, or `None` if no
    /// value differs.
    pub fn first_difference(&self, config: &Config) -> Option<&'static str>
        ensures value { IfNone result (config_or self.now config.now ≡ config.now) }
    {
        let wanted = self.or(config);
        if wanted.address != config.address {
            return Some("--address");
        }
        if wanted.control_address != config.control_address {
            return Some("--control-address");
        }
        if wanted.control_port != config.control_port {
            return Some("--control-port");
        }
        if wanted.base_port != config.base_port {
            return Some("--base-port");
        }
        if wanted.slots != config.slots {
            return Some("--slots");
        }
        if wanted.first_termination != config.first_termination {
            return Some("--first-termination");
        }
        if wanted.first_context != config.first_context {
            return Some("--first-context");
        }
        if wanted.ssrc != config.ssrc {
            return Some("--ssrc");
        }
        if wanted.sequence != config.sequence {
            return Some("--sequence");
        }
        if wanted.timestamp != config.timestamp {
            return Some("--timestamp");
        }
        None
    }

    /// Draws the initial numbers of RTP packets that no option sets, and returns the configuration with them (RFC 3550,
    /// sections 5.1 and 8). If the system has no random numbers, returns the system's error.
    pub fn draw<G: RandomSource>(&self, random: &G, config: &Config) -> io::Result<Config>
        ensures drawn { IfOk result (λ drawn. IsDrawn true self.now config.now drawn) }
    {
        let mut bytes = [0; 10];
        if self.ssrc.is_none() || self.sequence.is_none() || self.timestamp.is_none() {
            random.fill_bytes(&mut bytes)?;
        }
        let [a, b, c, d, e, f, g, h, i, j] = bytes;
        Ok(self.or(&Config {
            ssrc: u32::from_be_bytes([a, b, c, d]),
            sequence: u16::from_be_bytes([e, f]),
            timestamp: u32::from_be_bytes([g, h, i, j]),
            ..*config
        }))
    }
}
