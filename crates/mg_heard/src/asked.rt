ghost use Rattle.std.specs.Prelude.{◌≡◌};
ghost use Rattle.mg_heard.specs.Asked.{asked_by};

use crate::name::Name;
use crate::party_name::PartyName;

/// A key, or a name from a file of names, as given in a question or a rule.
#[derive(Drop)]
pub enum Asked {
    /// All terminations to which this key applies.
    Key(PartyName),
    /// All terminations to which the key of a line with this name applies.
    Name(Name),
}

impl Asked {
    /// Parses a key or, if `has_names` is set, a name. Returns `None` if `text` is neither.
    pub fn of(text: &[u8], has_names: bool) -> Option<Asked>
        ensures value { result ≡ asked_by has_names text.now }
    {
        if let Some(key) = PartyName::of(text) {
            return Some(Asked::Key(key));
        }
        if has_names {
            Some(Asked::Name(Name::of(text)?))
        } else {
            None
        }
    }
}
