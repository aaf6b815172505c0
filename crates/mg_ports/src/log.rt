ghost use Rattle.std.specs.Prelude.{◌≡◌, Some, None, [], IfSome, IfNone};
ghost use Rattle.mg_ports.specs.aids.Log.{LogsNext};

use crate::call::Call;
use std::alloc::Global;
use std::marker::Model;

/// A list of calls. If there is no memory for a call, the list is lost.
#[derive(Drop)]
pub struct Log {
    calls: Option<Vec<Call>>,
}

impl Model for Log {
    ghost use Rattle.std.specs.Prelude.{List, Option};
    ghost use Rattle.mg_ports.specs.declared.call.Call.{Call};
    ghost use Rattle.std.specs.Option.{option_map};

    ghost Value = { Option (List Call) };

    ghost view = { λ l. option_map (λ v. v.items) l.calls };
}

impl Log {
    pub fn new(alloc: Global) -> Self
        ensures value { result ≡ Some [] }
    {
        Log {
            calls: Some(Vec::new(alloc)),
        }
    }

    /// Appends a call. If the call is `None`, the list is lost.
    pub fn add_call(&mut self, call: Option<Call>)
        ensures value { LogsNext self.old self.new call }
    {
        let Some(call) = call else {
            self.calls = None;
            return;
        };
        let Some(calls) = &mut self.calls else {
            return;
        };
        if calls.push(call).is_err() {
            self.calls = None;
        }
    }

    /// Returns the calls so far, or `None` if the list was lost.
    pub fn calls(&self) -> Option<&[Call]>
        ensures some { IfSome result (λ calls. self.now ≡ Some calls.now) }
        ensures none { IfNone result (self.now ≡ None) }
    {
        match &self.calls {
            Some(calls) => Some(calls.as_slice()),
            None => None,
        }
    }
}
