ghost use Rattle.std.specs.Prelude.{◌≡◌, IfOk};
ghost use Rattle.mg_lines.specs.Streams.{Writes};
ghost use Rattle.mg_core.specs.Flows.{changes, listeners_of};
ghost use Rattle.mg_core.specs.World.{World, capped};
ghost use Rattle.mg_core.specs.aids.Stands.{StandsFor};

use crate::changes::{ENDED_LIMIT, NEW_LIMIT, push_changes};
use crate::listeners::KeptListeners;
use crate::machine::Core;
use mg_bytes::Bytes;
use mg_lines::{WriteFailed, write_whole};
use mg_rooms::TERMINATION_LIMIT;
use std::alloc::{AllocError, Global};
use std::io::Write;
use std::marker::Model;
use std::mem;

/// The maximum length of the reported changes, in bytes, if every termination ends and as many new terminations are
/// created.
const CHANGES_LIMIT: usize = TERMINATION_LIMIT * (ENDED_LIMIT + NEW_LIMIT);

/// The terminations of a gateway after its last changes. In contracts, they appear as a list.
#[derive(Drop)]
pub struct Watched {
    listeners: KeptListeners,
    /// The terminations after a change, while the change is being written.
    next: KeptListeners,
    text: Bytes,
}

impl Model for Watched {
    ghost use Rattle.std.specs.Prelude.{◌≡◌, ◌+◌, List, length};
    ghost use Rattle.mg_core.specs.Flows.{Listener};
    ghost use Rattle.mg_core.specs.declared.watched.TheConstants.{CHANGES_LIMIT};

    ghost Value = { List Listener };

    ghost view = { λ x. x.listeners };

    ghost invariant = { λ x. x.text.room + length x.text.text ≡ CHANGES_LIMIT };
}

impl Watched {
    /// Creates a store of a core's terminations. Fails only if an allocation fails. No other call allocates.
    pub fn of(alloc: Global, core: &Core) -> Result<Self, AllocError>
        ensures value { IfOk result (λ x. (w : World) → StandsFor core.now.state w → x ≡ listeners_of w.gateway) }
    {
        let mut listeners = KeptListeners::new(alloc)?;
        listeners.fill(core);
        Ok(Watched {
            listeners,
            next: KeptListeners::new(alloc)?,
            text: Bytes::new(alloc, CHANGES_LIMIT)?,
        })
    }

    /// Writes what has changed in a core since the last call, and stores the core's current terminations.
    #[tactic(auto, using(crate::proofs::AnswerLemmas::totals))]
    pub fn write_changes<W: Write>(
        &mut self,
        core: &Core,
        writer: &mut W,
    ) -> Result<(), WriteFailed>
        ensures listeners { (w : World) → StandsFor core.now.state w → self.new ≡ listeners_of w.gateway }
        ensures written { (w : World) → StandsFor core.now.state w →
            Writes (changes (capped w.tally.ticks) self.old (listeners_of w.gateway)) (W.contents writer.old)
            (W.contents writer.new) result }
    {
        self.next.fill(core);
        self.text.clear();
        push_changes(
            core.counts().ticks,
            self.listeners.as_slice(),
            self.next.as_slice(),
            &mut self.text,
        );
        mem::swap(&mut self.listeners, &mut self.next);
        write_whole(self.text.as_slice(), writer)
    }
}
