ghost use Rattle.std.specs.Prelude.{[], ◌∷◌};
ghost use Rattle.mg_host.specs.declared.host_call.HostCall.TheVariants.{ReadDate};
ghost use Rattle.mg_host.specs.HostCalls.{Grows};

use crate::tells::Tells;

/// A host that knows the date.
pub trait Dates: Tells {
    /// Reads the system's clock. Returns the milliseconds since 1970 (UTC), or `None` if the clock can't be read.
    fn millis(&mut self) -> Option<u64>
        ensures read { Grows (Self.calls self.old) (Self.calls self.new) (ReadDate result ∷ []) };
}
