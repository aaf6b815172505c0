use mg_clock::ClockFailed;
use mg_lines::WriteFailed;
use thiserror::Error;

/// The reason why a run ended before its last tick.
#[derive(Clone, Copy, Debug, PartialEq, Eq, Error)]
pub enum PaceFault {
    #[error("cannot read the clock")]
    Clock,
    /// A write failed, which is taken to mean that nobody reads the lines any more.
    #[error("the output is closed")]
    Closed,
}

impl From<WriteFailed> for PaceFault {
    ghost use Rattle.std.specs.Prelude.{◌≡◌};
    ghost use Rattle.mg_pacer.specs.declared.fault.PaceFault.TheVariants as faults;

    ghost from_gives = { λ _ fault. fault ≡ faults.Closed };

    fn from(_failed: WriteFailed) -> Self {
        PaceFault::Closed
    }
}

impl From<ClockFailed> for PaceFault {
    ghost use Rattle.std.specs.Prelude.{◌≡◌};
    ghost use Rattle.mg_pacer.specs.declared.fault.PaceFault.TheVariants as faults;

    ghost from_gives = { λ _ fault. fault ≡ faults.Clock };

    fn from(_failed: ClockFailed) -> Self {
        PaceFault::Clock
    }
}
