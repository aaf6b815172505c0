ghost use Rattle.std.specs.Prelude.{◌≡◌};
ghost use Rattle.mg_journal.specs.Journal.{is_final};

/// Why lines weren't appended to a journal.
///
/// The two faults call for different reactions. After `Refused`, the caller may continue. After `Broken`, it must stop
/// or renew the journal: it can't know whether a restarted program will read the lines.
#[derive(Clone, Copy, Debug, PartialEq, Eq)]
pub enum AppendFault {
    /// None of the lines was appended. The next append may succeed.
    Refused,
    /// Some, all or none of the lines are in the journal. Each later append fails too, until the journal is renewed.
    Broken,
}

impl AppendFault {
    /// Returns whether each later append fails too, until the journal is renewed.
    pub fn is_final(self) -> bool
        ensures value { result ≡ is_final self }
    {
        match self {
            AppendFault::Refused => false,
            AppendFault::Broken => true,
        }
    }
}
