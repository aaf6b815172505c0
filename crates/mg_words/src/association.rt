ghost use Rattle.std.specs.Prelude.{◌≡◌};
ghost use Rattle.mg_words.specs.Association.{association_text};

/// The relation between two terminations of a context, or between two sets of them: who hears whom (RFC 3525, section
/// 7.1.18).
#[derive(Clone, Copy, Debug, PartialEq, Eq, Hash)]
pub enum Association {
    /// Neither hears the other.
    Isolate,
    /// The second hears the first; the first does not hear the second.
    Oneway,
    /// Each hears the other.
    Bothway,
}

impl Association {
    /// Returns the keyword in its long form.
    #[tactic(auto, unfolding(crate::specs::Association::association_text))]
    pub fn as_str(self) -> &'static str
        ensures value { result.now ≡ association_text self }
    {
        match self {
            Association::Isolate => "Isolate",
            Association::Oneway => "Oneway",
            Association::Bothway => "Bothway",
        }
    }
}
