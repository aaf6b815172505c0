ghost use Rattle.std.specs.Prelude.{◌≡◌, ◌≢◌, ◌++◌, ◌∷◌, [], true, false, Bool, List, ℕ, OnErr, OnOk};
ghost use Rattle.mg_core.specs.declared.event.Event.TheVariants as events;
ghost use Rattle.mg_core.specs.Follow.{HasRun, ticks_of};
ghost use Rattle.mg_core.specs.Note.{Note, Comment, Happened};
ghost use Rattle.mg_core.specs.World.{World};

use crate::event::Event;
use crate::machine::Core;
use crate::stopped::Stopped;

/// Follows a gateway while [`resume`](crate::resume) or [`watch`](crate::watch) runs a script. Each line is reported to
/// one of the methods, in order. After an error, nothing more is reported.
pub trait Follower {
    /// Whether a method can return an error.
    ghost may_stop: { Bool } = { false };

    /// Whether a follower in the first state reaches the second state by following these notes of a script, on a
    /// gateway that began with this world.
    ghost follows: { Self → Self → World → List Note → Type 0 };

    /// Handles a comment or an empty line, passed without its line end. `number` is the line's number, counted from 1.
    fn comment(&mut self, number: u64, line: &[u8]) -> Result<(), Stopped>
        ensures value { (start : Self) (base : World) (notes : List Note) →
            follows start self.old base notes →
            OnOk result (follows start self.new base (notes ++ Comment line.now ∷ [])) }
        ensures stops { OnErr result (may_stop ≡ true) };

    /// Handles a datagram. `core` is the gateway's state after the datagram. Only a control datagram can change who
    /// hears whom.
    fn datagram(&mut self, event: &Event, core: &Core) -> Result<(), Stopped>
        requires datagram { event.now ≢ events.Tick }
        ensures value { (start : Self) (base : World) (notes : List Note) →
            follows start self.old base notes →
            HasRun base (notes ++ Happened event.now ∷ []) core.now.state →
            OnOk result (follows start self.new base (notes ++ Happened event.now ∷ [])) }
        ensures stops { OnErr result (may_stop ≡ true) };

    /// Handles consecutive ticks. `core` is the gateway's state before the first of them. Ticks don't change who hears
    /// whom.
    ///
    /// If there are ticks to report, this is called before the next line of another kind and at the end of the script.
    /// It is called earlier if the count would otherwise reach 2^64. [`watch`](crate::watch) also calls it before more
    /// of the script is read.
    fn ticks(&mut self, core: &Core, count: u64) -> Result<(), Stopped>
        ensures value { (start : Self) (base : World) (notes : List Note) →
            follows start self.old base notes → HasRun base notes core.now.state →
            OnOk result (follows start self.new base (notes ++ ticks_of count)) }
        ensures stops { OnErr result (may_stop ≡ true) };
}
