ghost use Rattle.std.specs.Prelude.{◌≡◌, Some, None, [], IfSome, IfNone};
ghost use Rattle.mg_host.specs.aids.HostLog.{LogsNext};

use crate::host_call::HostCall;
use std::alloc::Global;
use std::marker::Model;

/// A list of calls. If there is no memory for a call, the list is lost.
#[derive(Drop)]
pub(crate) struct HostLog {
    calls: Option<Vec<HostCall>>,
}

impl Model for HostLog {
    ghost use Rattle.std.specs.Prelude.{List, Option};
    ghost use Rattle.mg_host.specs.declared.host_call.HostCall.{HostCall};
    ghost use Rattle.std.specs.Option.{option_map};

    ghost Value = { Option (List HostCall) };

    ghost view = { λ l. option_map (λ v. v.items) l.calls };
}

impl HostLog {
    pub(crate) fn new(alloc: Global) -> Self
        ensures value { result ≡ Some [] }
    {
        HostLog {
            calls: Some(Vec::new(alloc)),
        }
    }

    /// Appends a call. If the call is `None`, the list is lost.
    pub(crate) fn add(&mut self, call: Option<HostCall>)
        ensures value { LogsNext self.old self.new call }
    {
        let Some(call) = call else {
            self.calls = None;
            return;
        };
        let Some(calls) = &mut self.calls else {
            return;
        };
        if calls.push(call).is_err() {
            self.calls = None;
        }
    }

    /// Returns the calls so far, or `None` if the list was lost.
    pub(crate) fn calls(&self) -> Option<&[HostCall]>
        ensures some { IfSome result (λ calls. self.now ≡ Some calls.now) }
        ensures none { IfNone result (self.now ≡ None) }
    {
        match &self.calls {
            Some(calls) => Some(calls.as_slice()),
            None => None,
        }
    }
}
