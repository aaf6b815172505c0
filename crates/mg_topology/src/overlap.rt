ghost use Rattle.std.specs.Prelude.{Some, codes};

use std::error::Error;
use std::fmt;

/// The two sets of a Oneway triple share a seat. No triple was applied.
///
/// Such a triple would let a seat hear itself in one direction, which makes no sense. Rejecting it is this project's
/// own rule.
#[derive(Clone, Copy, Debug, PartialEq, Eq, Hash)]
pub struct Overlap;

impl fmt::Display for Overlap {
    ghost output = { λ _. Some (codes "a Oneway triple has a seat in both of its sets") };

    fn fmt<W: fmt::Write>(&self, f: &mut fmt::Formatter<W>) -> fmt::Result {
        f.write_str("a Oneway triple has a seat in both of its sets")
    }
}

impl Error for Overlap {}
