/// A part of an alternative, according to the lines read so far.
#[derive(Clone, Copy, Debug, PartialEq, Eq)]
pub enum AlternativePart<T> {
    /// No line so far has this part.
    Missing,
    /// A line has this part.
    Given(T),
    /// The last line with this part has it in a form that is not supported, or there is more than one media line.
    Faulty,
}
