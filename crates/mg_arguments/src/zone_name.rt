ghost use Rattle.std.specs.Prelude.{◌≡◌};
ghost use Rattle.mg_arguments.specs.ZoneName.{zone_name};

use arrayvec::ArrayString;
use std::marker::Model;

/// The maximum length of a time zone's name, in bytes.
const MAX_NAME: usize = 64;

/// The name of a time zone.
#[derive(Drop)]
pub struct ZoneName {
    text: ArrayString<MAX_NAME>,
}

impl Model for ZoneName {
    ghost use Rattle.std.specs.Prelude.{List, ℕ};

    ghost Value = { List ℕ };

    ghost view = { λ n. n.text.bytes };
}

impl ZoneName {
    /// Creates a name from a string. Returns `None` if the string is empty or too long.
    pub fn of(text: &str) -> Option<Self>
        ensures value { result ≡ zone_name text.now }
    {
        if text.is_empty() {
            return None;
        }
        match ArrayString::from(text) {
            Ok(text) => Some(ZoneName { text }),
            Err(_) => None,
        }
    }

    pub fn as_str(&self) -> &str
        ensures value { result.now ≡ self.now }
    {
        self.text.as_str()
    }
}
