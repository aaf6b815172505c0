ghost use Rattle.std.specs.Prelude.{◌≡◌};

use std::marker::Model;

/// A list of parts of a message, in order. In contracts, it appears as a list.
#[derive(Drop)]
pub struct TreeList<T> {
    items: Vec<T>,
}

impl<T> Model for TreeList<T> {
    ghost use Rattle.std.specs.Prelude.{List};

    ghost Value = { List T };

    ghost view = { λ x. x.items.items };
}

impl<T> TreeList<T> {
    /// Creates a list from a vector.
    pub fn new(items: Vec<T>) -> Self
        ensures value { result ≡ items.items }
    {
        TreeList { items }
    }

    /// Returns the elements as a slice.
    pub fn as_slice(&self) -> &[T]
        ensures value { result.now ≡ self.now }
    {
        self.items.as_slice()
    }
}
