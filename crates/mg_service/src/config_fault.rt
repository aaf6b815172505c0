ghost use Rattle.std.specs.Prelude.{IfNone, IfSome};
ghost use Rattle.mg_engine.specs.Config.{IsValidConfig};

use mg_core::{Config, TERMINATION_LIMIT};
use mg_words::LAST_CONTEXT;
use thiserror::Error;

/// The reason why a gateway cannot start with a configuration: its first invalid option.
#[derive(Clone, Copy, Debug, PartialEq, Eq, Error)]
pub enum ConfigFault {
    #[error("--slots must be from 1 to {most}", most = TERMINATION_LIMIT)]
    Slots,
    #[error("--first-termination must be at least 1")]
    FirstTermination,
    #[error("--first-context must be from 1 to {most}", most = LAST_CONTEXT)]
    FirstContext,
    #[error("--base-port must be even and not 0, with room for --slots even ports")]
    BasePort,
    #[error("--control-port must not be 0 or a media port")]
    ControlPort,
}

impl ConfigFault {
    /// Returns the first invalid option, or `None` if the configuration is valid.
    pub fn of(config: &Config) -> Option<Self>
        ensures sound { IfNone result (IsValidConfig config.now) }
        ensures fault { IfSome result (λ fault. ¬ IsValidConfig config.now) }
    {
        if config.is_sound() {
            return None;
        }
        if config.slots == 0 || usize::from(config.slots) > TERMINATION_LIMIT {
            return Some(ConfigFault::Slots);
        }
        if config.first_termination == 0 {
            return Some(ConfigFault::FirstTermination);
        }
        if config.first_context == 0 || config.first_context > LAST_CONTEXT {
            return Some(ConfigFault::FirstContext);
        }
        if config.limits().is_valid() {
            return Some(ConfigFault::ControlPort);
        }
        Some(ConfigFault::BasePort)
    }
}
