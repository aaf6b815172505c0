ghost use Rattle.std.specs.Prelude.{List, Option, None};
ghost use Rattle.mg_host.specs.declared.host_call.HostCall.{HostCall};

use std::marker::Brand;

/// Represents, in proofs, the calls that a host had logged when a session began.
pub(crate) trait LogKey {
    ghost calls: { Option (List HostCall) };
}

impl LogKey for Brand {
    ghost calls = { None };
}
