ghost use Rattle.std.specs.Prelude.{◌≡◌};
ghost use Rattle.std.specs.Option.{option_copied};
ghost use Rattle.mg_playout.specs.Played.{is_concealed, sound_of};

use mg_g711::Frame;

/// What a play list plays in a tick.
#[derive(Clone, Copy, Debug, PartialEq, Eq, Hash)]
pub enum Played {
    /// No sound: 20 ms of zeros.
    Silence,
    /// The frame that is due.
    Frame(Frame),
    /// The frame before the missing one, at half its level.
    Concealed(Frame),
}

impl Played {
    /// Returns the frame that is heard, or `None` for silence.
    pub fn sound(&self) -> Option<&Frame>
        ensures { option_copied result ≡ sound_of self.now }
    {
        match self {
            Played::Silence => None,
            Played::Frame(frame) | Played::Concealed(frame) => Some(frame),
        }
    }

    /// Returns whether the sound that is played replaces a missing frame.
    pub fn is_concealed(&self) -> bool
        ensures { result ≡ is_concealed self.now }
    {
        matches!(self, Played::Concealed(_))
    }
}
