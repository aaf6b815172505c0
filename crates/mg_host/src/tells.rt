ghost use Rattle.std.specs.Prelude.{[], ◌∷◌, List, Option, None};
ghost use Rattle.mg_ports.specs.declared.call.Call.TheVariants.{Append, Renew};
ghost use Rattle.mg_host.specs.declared.host_call.HostCall.{HostCall};
ghost use Rattle.mg_host.specs.declared.host_call.HostCall.TheVariants.{OnPorts};
ghost use Rattle.mg_host.specs.HostCalls.{Grows};

use mg_ports::{AppendFault, Durability};

/// A host on which a program makes calls, which may be logged.
pub trait Tells {
    /// All calls so far, in order, if they are known.
    ghost calls: { Self → Option (List HostCall) } = { λ _. None };

    /// Logs that lines were appended to the journal, or that the append failed. A host without a log ignores this call.
    fn log_append(&mut self, lines: &[u8], durability: Durability, outcome: Result<(), AppendFault>)
        ensures logged { Grows (calls self.old) (calls self.new) (OnPorts (Append lines.now durability outcome) ∷ []) };

    /// Logs that the journal was replaced by one with this text, or that this failed. A host without a log ignores this
    /// call.
    fn log_renewal(&mut self, text: &[u8], durability: Durability, outcome: Result<(), AppendFault>)
        ensures logged { Grows (calls self.old) (calls self.new) (OnPorts (Renew text.now durability outcome) ∷ []) };
}
