ghost use Rattle.std.specs.Prelude.{◌≡◌, ◌++◌, ◌∷◌, [], List, OnOk};
ghost use Rattle.mg_heard.specs.declared.entry.Entry.{Entry};

use crate::entry::Entry;
use mg_core::Stopped;

/// Receives the intervals of a script in the order in which they end, and its gaps when they begin. Intervals that have
/// not ended come last.
pub trait Sink {
    /// Whether a sink in the first state reaches the second state by receiving these entries, one after another.
    ghost told: { Self → Self → List Entry → Type 0 };

    /// Receives an entry. After an error, the sink receives nothing more.
    fn tell(&mut self, entry: &Entry) -> Result<(), Stopped>
        ensures value { (start : Self) (before : List Entry) → told start self.old before →
            OnOk result (told start self.new (before ++ entry.now ∷ [])) };
}
