ghost use Rattle.std.specs.Prelude.{None, Option, List, ℕ};

use std::marker::Brand;

/// Represents, in proofs, the text that a reader had at first, or `None` if this text is not known.
pub(crate) trait TextKey {
    ghost text: { Option (List ℕ) };
}

impl TextKey for Brand {
    ghost text = { None };
}
