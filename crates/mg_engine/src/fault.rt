use std::alloc::AllocError;
use thiserror::Error;

/// Why a gateway did not start.
#[derive(Clone, Copy, Debug, PartialEq, Eq, Error)]
pub enum StartFault {
    /// The configuration is invalid; see `Config::is_sound`.
    #[error("bad configuration")]
    BadConfig,
    #[error("out of memory")]
    NoMemory,
}

impl From<AllocError> for StartFault {
    ghost use Rattle.std.specs.Prelude.{◌≡◌};
    ghost use Rattle.mg_engine.specs.declared.fault.StartFault.TheVariants as faults;

    ghost from_gives = { λ _ e. e ≡ faults.NoMemory };

    fn from(_value: AllocError) -> Self {
        StartFault::NoMemory
    }
}
