//! Properties of the lines that are appended before a gateway starts. The functions do nothing: their contracts are the
//! theorems.

ghost use Rattle.mg_start.specs.Journal.{StartsAreRead};

/// In a journal to which these lines were appended, a reader finds what happened before, and then the missed ticks.
pub fn starts_are_read()
    ensures theorem { StartsAreRead }
{
    mg_core::theorems::recordings_are_read();
}
