ghost use Rattle.std.specs.Prelude.{◌≡◌};
ghost use Rattle.mg_words.specs.Mode.{mode_text, talks, listens};

/// The direction of a termination's media stream, seen from outside the context (RFC 3525, section 7.1.7).
///
/// Except in `Loopback`, a termination that sends to its peer sends what it hears in the context. One that receives
/// from its peer feeds what it receives into the context.
#[derive(Clone, Copy, Debug, Default, PartialEq, Eq)]
pub enum Mode {
    /// Neither sends nor receives.
    #[default]
    Inactive,
    /// Sends but does not receive: it hears the context but is not heard.
    SendOnly,
    /// Receives but does not send: it is heard in the context but does not hear the context.
    ReceiveOnly,
    /// Sends and receives.
    SendReceive,
    /// Sends back what it receives, and neither talks to the context nor hears it.
    Loopback,
}

impl Mode {
    /// Returns the keyword in its long form.
    #[tactic(auto, unfolding(crate::specs::Mode::mode_text))]
    pub fn as_str(self) -> &'static str
        ensures value { result.now ≡ mode_text self }
    {
        match self {
            Mode::Inactive => "Inactive",
            Mode::SendOnly => "SendOnly",
            Mode::ReceiveOnly => "ReceiveOnly",
            Mode::SendReceive => "SendReceive",
            Mode::Loopback => "Loopback",
        }
    }
}

/// Returns whether the other members of the context can hear a termination in this mode.
pub fn mode_talks(mode: Mode) -> bool
    ensures value { result ≡ talks mode }
{
    matches!(mode, Mode::SendReceive | Mode::ReceiveOnly)
}

/// Returns whether a termination in this mode can hear the other members of the context.
pub fn mode_listens(mode: Mode) -> bool
    ensures value { result ≡ listens mode }
{
    matches!(mode, Mode::SendReceive | Mode::SendOnly)
}
