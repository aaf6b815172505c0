ghost use Rattle.std.specs.Prelude.{◌≡◌, ◌<◌, ◌≤◌, ◌==◌, [], ◌∷◌, ◌++◌, length, IsTrue, ◌↔◌, IfSome};
ghost use Rattle.std.specs.List.{position_from};
ghost use Rattle.mg_rooms.specs.Members.{without};

use arrayvec::ArrayVec;
use mg_words::MEMBER_LIMIT;
use std::marker::Model;

/// The numbers of a context's members in order of entry, at most [`MEMBER_LIMIT`].
#[derive(Drop)]
pub struct Members {
    numbers: ArrayVec<u32, MEMBER_LIMIT>,
}

impl Model for Members {
    ghost use Rattle.std.specs.Prelude.{List, ℕ};

    ghost Value = { List ℕ };

    ghost view = { λ m. m.numbers.items };
}

impl Members {
    /// Returns the members of a new context, which has only this member.
    pub(crate) fn alone(number: u32) -> Members
        ensures value { result ≡ number ∷ [] }
    {
        let mut numbers = ArrayVec::new();
        numbers.push(number);
        Members { numbers }
    }

    pub(crate) fn as_slice(&self) -> &[u32]
        ensures value { result.now ≡ self.now }
        ensures few { length result.now ≤ MEMBER_LIMIT }
    {
        self.numbers.as_slice()
    }

    pub(crate) fn is_empty(&self) -> bool
        ensures value { IsTrue result ↔ (self.now ≡ []) }
    {
        self.numbers.is_empty()
    }

    /// Adds a member after the others.
    pub(crate) fn enter(&mut self, number: u32)
        requires room { length self.old < MEMBER_LIMIT }
        ensures value { self.new ≡ self.old ++ number ∷ [] }
    {
        self.numbers.push(number);
    }

    /// Removes a member.
    #[tactic(auto, using(crate::proofs::MemberLemmas::rules))]
    pub(crate) fn leave(&mut self, number: u32)
        ensures value { self.new ≡ without number self.old }
    {
        if let Some(place) = place_of(self.as_slice(), number) {
            self.numbers.remove(place);
        }
    }
}

/// Returns the first position at which a member occurs, or `None` if it doesn't occur.
fn place_of(members: &[u32], number: u32) -> Option<usize>
    ensures value { result ≡ position_from (λ m. m == number) 0 members.now }
    ensures in_range { IfSome result (λ place. place < length members.now) }
{
    members.iter().position(|member| *member == number)
}
