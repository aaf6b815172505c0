ghost use Rattle.std.specs.Prelude.{None, Option, List, ℕ};

use std::marker::Brand;

/// Represents, in proofs, the texts of some files, or `None` if they are not known.
pub trait TextsKey {
    ghost texts: { Option (List (List ℕ)) };
}

impl TextsKey for Brand {
    ghost texts = { None };
}
