ghost use Rattle.std.specs.Prelude.{◌≡◌};
ghost use Rattle.mg_words.specs.CommandWord.{command_text};

/// The commands of a request (RFC 3525, section 7.2).
#[derive(Clone, Copy, Debug, PartialEq, Eq)]
pub enum CommandWord {
    /// Puts a termination into a context (section 7.2.1).
    Add,
    /// Changes the settings of a termination (7.2.2).
    Modify,
    /// Moves a termination to another context (7.2.4).
    Move,
    /// Removes a termination from its context (7.2.3).
    Subtract,
    /// Reads the settings of a termination (7.2.5).
    AuditValue,
    /// Reads the settings that a termination could have (7.2.6).
    AuditCapability,
    /// Reports events (7.2.7).
    Notify,
    /// Reports that service starts or ends (7.2.8).
    ServiceChange,
}

impl CommandWord {
    /// Returns the keyword in its long form.
    #[tactic(auto, unfolding(crate::specs::CommandWord::command_text))]
    pub fn as_str(self) -> &'static str
        ensures value { result.now ≡ command_text self }
    {
        match self {
            CommandWord::Add => "Add",
            CommandWord::Modify => "Modify",
            CommandWord::Move => "Move",
            CommandWord::Subtract => "Subtract",
            CommandWord::AuditValue => "AuditValue",
            CommandWord::AuditCapability => "AuditCapability",
            CommandWord::Notify => "Notify",
            CommandWord::ServiceChange => "ServiceChange",
        }
    }
}
