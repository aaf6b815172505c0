ghost use Rattle.std.specs.Prelude.{◌≡◌, ◌≤◌, ◌||◌, MatchOption, Some, None, length};
ghost use Rattle.std.specs.List.{prefix_len, position_or_len, suffix_len};
ghost use Rattle.mg_words.specs.LineEnd.{is_line_end};
ghost use Rattle.mg_sdp.specs.Lines.{is_space_or_tab, letter_and_value};

/// Returns whether a byte is CR or LF.
fn is_line_end(b: u8) -> bool
    ensures value { result ≡ is_line_end b }
{
    b == b'\r' || b == b'\n'
}

/// Returns whether a byte is a space or a tab.
pub fn is_space_or_tab(b: u8) -> bool
    ensures value { result ≡ is_space_or_tab b }
{
    b == b' ' || b == b'\t'
}

/// Returns how many bytes of white space and line ends the text starts with.
fn white_len(text: &[u8]) -> usize
    ensures in_range { result ≤ length text.now }
    ensures value { result ≡ prefix_len (λ b. is_space_or_tab b || is_line_end b) text.now }
{
    text.iter()
        .take_while(|b| is_space_or_tab(**b) || is_line_end(**b))
        .count()
}

/// Returns the length in bytes of the first line.
fn line_len(text: &[u8]) -> usize
    ensures in_range { result ≤ length text.now }
    ensures value { result ≡ position_or_len is_line_end text.now }
{
    text.iter().take_while(|b| !is_line_end(**b)).count()
}

/// Returns how many spaces and tabs the text ends with.
fn blanks_at_end(text: &[u8]) -> usize
    ensures in_range { result ≤ length text.now }
    ensures value { result ≡ suffix_len is_space_or_tab text.now }
{
    text.iter()
        .rev()
        .take_while(|b| is_space_or_tab(**b))
        .count()
}

/// An iterator over the nonempty lines of a descriptor's content, trimmed of spaces and tabs.
#[derive(Drop)]
pub struct Lines<'a> {
    rest: &'a [u8],
}

impl<'a> Lines<'a> {
    ghost use Rattle.mg_sdp.specs.Lines.{content_lines};
    ghost use Rattle.mg_sdp.specs.aids.LinesLeft.{lines_left};

    /// Returns the lines of a descriptor's content.
    pub fn new(content: &'a [u8]) -> Self
        ensures value { lines_left result ≡ content_lines content.now }
    {
        Lines { rest: content }
    }
}

impl<'a> Iterator for Lines<'a> {
    ghost use Rattle.std.specs.Iterator.{YieldsFirstBy, item_count};
    ghost use Rattle.mg_sdp.specs.aids.LinesLeft.{lines_left};

    type Item = &'a [u8];

    ghost next_gives = { YieldsFirstBy (λ line. line.now) lines_left };

    ghost remaining = { item_count lines_left };

    fn next(&mut self) -> Option<&'a [u8]> {
        let (_, text) = self.rest.split_at(white_len(self.rest));
        if text.is_empty() {
            self.rest = text;
            return None;
        }
        let (line, rest) = text.split_at(line_len(text));
        self.rest = rest;
        let (line, _) = line.split_at(line.len() - blanks_at_end(line));
        Some(line)
    }
}

/// Splits a line into its letter and the value after `=`. Returns `None` if the line has another form.
#[tactic(auto, unfolding(crate::specs::Lines::letter_and_value))]
pub fn letter_and_value(line: &[u8]) -> Option<(u8, &[u8])>
    ensures value { MatchOption result (letter_and_value line.now ≡ None)
        (λ parts. letter_and_value line.now ≡ Some (parts.0, parts.1.now)) }
{
    match line {
        [letter, b'=', value @ ..] if letter.is_ascii_alphabetic() => Some((*letter, value)),
        _ => None,
    }
}
