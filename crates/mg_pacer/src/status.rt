ghost use Rattle.std.specs.Prelude.{◌≡◌};
ghost use Rattle.mg_pacer.specs.Status.{status_of};

use crate::fault::PaceFault;
use mg_options::Status;

/// Returns the exit status after a run with this outcome.
#[tactic(auto, unfolding(crate::specs::Status::status_of))]
pub fn status_of(outcome: &Result<(), PaceFault>) -> Status
    ensures value { result ≡ status_of outcome.now }
{
    match outcome {
        Ok(()) | Err(PaceFault::Closed) => Status::Done,
        Err(PaceFault::Clock) => Status::Failed,
    }
}
