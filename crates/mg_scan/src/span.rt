/// A part of a source: its start and end in bytes.
#[derive(Clone, Copy, Debug, PartialEq, Eq)]
pub struct Span {
    pub start: usize,
    pub end: usize,
}

impl Span {
    ghost use Rattle.std.specs.Prelude.{◌≡◌};
    ghost use Rattle.mg_scan.specs.Span.{text_of};

    /// Returns the text of the span, truncated at the end of the source.
    pub fn text(self, source: &[u8]) -> &[u8]
        ensures value { result.now ≡ text_of source.now self }
    {
        let (_, tail) = source.split_at(self.start.min(source.len()));
        let (text, _) = tail.split_at(self.end.saturating_sub(self.start).min(tail.len()));
        text
    }
}
