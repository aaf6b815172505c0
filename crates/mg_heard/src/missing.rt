ghost use Rattle.std.specs.Prelude.{◌≡◌, ◌||◌};

/// Whether the gateway never had the talker, or the listener, that a question or a rule names.
#[derive(Clone, Copy, Debug, PartialEq, Eq)]
pub struct Missing {
    pub talker: bool,
    pub listener: bool,
}

impl Missing {
    /// Returns whether the talker or the listener is missing.
    pub fn is_any(self) -> bool
        ensures value { result ≡ (self.talker || self.listener) }
    {
        self.talker || self.listener
    }
}
