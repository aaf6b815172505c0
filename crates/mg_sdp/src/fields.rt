ghost use Rattle.std.specs.Prelude.{◌≡◌, ◌≤◌, length};
ghost use Rattle.std.specs.List.{prefix_len, position_or_len};
ghost use Rattle.mg_sdp.specs.Lines.{is_space_or_tab};

use crate::lines::is_space_or_tab;

/// Returns how many spaces and tabs the text starts with.
fn blanks_len(text: &[u8]) -> usize
    ensures in_range { result ≤ length text.now }
    ensures value { result ≡ prefix_len is_space_or_tab text.now }
{
    text.iter().take_while(|b| is_space_or_tab(**b)).count()
}

/// Returns how many bytes precede the first space or tab, or the length of the text if it has neither.
fn field_len(text: &[u8]) -> usize
    ensures in_range { result ≤ length text.now }
    ensures value { result ≡ position_or_len is_space_or_tab text.now }
{
    text.iter().take_while(|b| !is_space_or_tab(**b)).count()
}

/// An iterator over the fields of a line's value, separated by spaces and tabs.
#[derive(Drop)]
pub struct Fields<'a> {
    rest: &'a [u8],
}

impl<'a> Fields<'a> {
    ghost use Rattle.mg_sdp.specs.Fields.{fields_of};
    ghost use Rattle.mg_sdp.specs.aids.FieldsLeft.{fields_left};

    /// Returns the fields of a value.
    pub fn new(value: &'a [u8]) -> Self
        ensures value { fields_left result ≡ fields_of value.now }
    {
        Fields { rest: value }
    }
}

impl<'a> Iterator for Fields<'a> {
    ghost use Rattle.std.specs.Iterator.{YieldsFirstBy, item_count};
    ghost use Rattle.mg_sdp.specs.aids.FieldsLeft.{fields_left};

    type Item = &'a [u8];

    ghost next_gives = { YieldsFirstBy (λ field. field.now) fields_left };

    ghost remaining = { item_count fields_left };

    fn next(&mut self) -> Option<&'a [u8]> {
        let (_, text) = self.rest.split_at(blanks_len(self.rest));
        if text.is_empty() {
            self.rest = text;
            return None;
        }
        let (field, rest) = text.split_at(field_len(text));
        self.rest = rest;
        Some(field)
    }
}
