ghost use Rattle.std.specs.Prelude.{◌≡◌, ◌≤◌, [], length, take, IfOk};
ghost use Rattle.mg_core.specs.Flows.{listeners_of};
ghost use Rattle.mg_core.specs.World.{World};
ghost use Rattle.mg_core.specs.aids.Stands.{StandsFor};

use crate::listener::KeptListener;
use crate::machine::Core;
use mg_rooms::TERMINATION_LIMIT;
use std::alloc::{AllocError, Global};
use std::marker::Model;

/// The terminations of a gateway at one moment, in order of their numbers.
#[derive(Drop)]
pub struct KeptListeners {
    /// A place for each possible termination. The first `len` places are in use.
    places: Vec<KeptListener>,
    len: usize,
}

impl Model for KeptListeners {
    ghost use Rattle.std.specs.Prelude.{◌≡◌, ◌≤◌, List, length, take};
    ghost use Rattle.mg_words.specs.Limits.{termination_limit};
    ghost use Rattle.mg_core.specs.Flows.{Listener};

    ghost Value = { List Listener };

    ghost view = { λ x. take x.len x.places.items };

    ghost invariant = { λ x. (length x.places.items ≡ termination_limit) × (x.len ≤ termination_limit) };
}

impl KeptListeners {
    /// Creates an empty store. Fails only if the allocation fails. No other call allocates.
    pub fn new(alloc: Global) -> Result<Self, AllocError>
        ensures value { IfOk result (λ x. x ≡ []) }
    {
        let mut places = Vec::with_capacity(alloc, TERMINATION_LIMIT)?;
        for _ in 0..TERMINATION_LIMIT {
            places.push(KeptListener::new())?;
        }
        Ok(KeptListeners { places, len: 0 })
    }

    /// Replaces the stored terminations with the current ones of a core.
    pub fn fill(&mut self, core: &Core)
        ensures value { (w : World) → StandsFor core.now.state w → self.new ≡ listeners_of w.gateway }
    {
        self.len = fill_places(&mut self.places, core);
    }

    pub fn as_slice(&self) -> &[KeptListener]
        ensures value { result.now ≡ self.now }
        ensures few { length result.now ≤ TERMINATION_LIMIT }
    {
        &self.places[..self.len]
    }
}

/// Stores the terminations of a core in the first places. Returns how many terminations it stored.
fn fill_places(places: &mut [KeptListener], core: &Core) -> usize
    requires places { length places.old ≡ TERMINATION_LIMIT }
    ensures front { (w : World) → StandsFor core.now.state w → take result places.new ≡ listeners_of w.gateway }
    ensures within { result ≤ TERMINATION_LIMIT }
{
    let count = core.terminations();
    for place in 0..count {
        let termination = core.termination(place);
        places[place].set(core, &termination);
    }
    count
}
