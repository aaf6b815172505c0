ghost use Rattle.std.specs.Prelude.{◌≡◌, ◌≤◌, length};
ghost use Rattle.mg_heard.specs.aids.Shapes.{kind_of, verb_of};

/// The claim that a line makes about a listener and a talker.
#[derive(Clone, Copy, Debug, PartialEq, Eq)]
pub enum Claim {
    CouldHear,
    Heard,
}

impl Claim {
    /// Returns the verb of a sentence with this claim.
    pub(crate) fn verb(self) -> &'static [u8]
        ensures value { result.now ≡ verb_of self }
        ensures short { length result.now ≤ 12 }
    {
        match self {
            Claim::CouldHear => b" could hear ",
            Claim::Heard => b" heard ",
        }
    }

    /// Returns the kind of a row or an object with this claim.
    pub(crate) fn kind(self) -> &'static [u8]
        ensures value { result.now ≡ kind_of self }
        ensures short { length result.now ≤ 7 }
    {
        match self {
            Claim::CouldHear => b"heard",
            Claim::Heard => b"audible",
        }
    }
}
