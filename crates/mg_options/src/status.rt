ghost use Rattle.std.specs.Prelude.{◌≡◌, ◌≤◌};
ghost use Rattle.mg_options.specs.Status.{code_of};

/// The ways in which a program can end.
#[derive(Clone, Copy, Debug, PartialEq, Eq)]
pub enum Status {
    Done,
    /// A script line or a seal is invalid.
    BadLine,
    /// An argument or a configuration is invalid.
    Usage,
    /// A gateway didn't answer.
    NoAnswer,
    /// A talker could not be heard at the given time.
    CouldNotHear,
    /// A script doesn't say who could hear whom at the given time, its gateway never had the talker or the listener in
    /// question, or a text has no seals.
    Unknown,
    /// A script breaks a rule about who must not be heard.
    RuleBroken,
    /// Input or output, the clock or the random number generator failed, or the metrics cannot be written.
    Failed,
    NoMemory,
    /// A port cannot be bound.
    NoPort,
    /// A journal or another file cannot be used.
    BadJournal,
}

impl Status {
    /// Returns the exit status, from 0 (success) to 6.
    #[tactic(auto, unfolding(crate::specs::Status::code_of))]
    pub fn code(self) -> u8
        ensures value { result ≡ code_of self }
        ensures small { result ≤ 6 }
    {
        match self {
            Status::Done => 0,
            Status::BadLine => 1,
            Status::Usage => 2,
            Status::NoAnswer => 2,
            Status::CouldNotHear => 1,
            Status::Unknown => 2,
            Status::RuleBroken => 1,
            Status::Failed => 3,
            Status::NoMemory => 4,
            Status::NoPort => 5,
            Status::BadJournal => 6,
        }
    }
}
