ghost use Rattle.std.specs.Prelude.{◌≡◌, ◌≤◌, length};
ghost use Rattle.std.specs.List.{list_all};
ghost use Rattle.mg_heard.specs.Names.{is_plain, name_in};

use arrayvec::ArrayVec;
use std::marker::Model;

/// The maximum length of a name, in bytes.
pub(crate) const NAME_ROOM: usize = 64;

/// The text of a name.
pub type NameText = ArrayVec<u8, NAME_ROOM>;

/// The name of a termination: 1 to 64 bytes, none of them an ASCII control character, `"` or `\`.
#[derive(Drop)]
pub struct Name {
    text: NameText,
}

impl Model for Name {
    ghost use Rattle.std.specs.Prelude.{List, ℕ};

    ghost Value = { List ℕ };

    ghost view = { λ n. n.text.items };
}

/// Returns whether a byte can be part of a name.
fn is_plain(byte: u8) -> bool
    ensures value { result ≡ is_plain byte }
{
    byte >= b' ' && byte != 127 && byte != b'"' && byte != b'\\'
}

/// Returns whether all bytes can be part of a name.
fn are_plain(text: &[u8]) -> bool
    ensures value { result ≡ list_all is_plain text.now }
{
    text.iter().all(|byte| is_plain(*byte))
}

impl Name {
    /// Creates a name from its text. Returns `None` if the text can't be a name.
    pub fn of(text: &[u8]) -> Option<Name>
        ensures value { result ≡ name_in text.now }
    {
        if text.is_empty() {
            return None;
        }
        if text.len() > NAME_ROOM {
            return None;
        }
        if !are_plain(text) {
            return None;
        }
        let mut name = NameText::new();
        let _ = name.try_extend_from_slice(text);
        Some(Name { text: name })
    }

    pub fn as_slice(&self) -> &[u8]
        ensures value { result.now ≡ self.now }
        ensures short { length result.now ≤ NAME_ROOM }
    {
        self.text.as_slice()
    }
}
