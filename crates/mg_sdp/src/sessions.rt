ghost use Rattle.std.specs.Prelude.{◌≡◌, [], IsTrue, ◌↔◌};

use crate::offer::Offer;
use arrayvec::ArrayVec;
use mg_words::ALTERNATIVE_LIMIT;
use std::marker::Model;

/// What the alternatives of a descriptor offer.
///
/// In contracts, this type appears as a list with an entry for each alternative, in order. An entry is the
/// alternative's offer, or `None` if the alternative offers nothing that is supported (`offer_of` in
/// `specs/Offer.antt`).
#[derive(Debug, Drop)]
pub struct Sessions {
    pub(crate) offers: ArrayVec<Option<Offer>, ALTERNATIVE_LIMIT>,
}

impl Model for Sessions {
    ghost use Rattle.std.specs.Prelude.{List, Option};
    ghost use Rattle.mg_sdp.specs.declared.offer.Offer.{Offer};

    ghost Value = { List (Option Offer) };

    ghost view = { λ s. s.offers.items };
}

impl Sessions {
    /// Returns whether the content had no lines, and so no alternatives.
    pub fn is_blank(&self) -> bool
        ensures value { IsTrue result ↔ (self.now ≡ []) }
    {
        self.offers.is_empty()
    }
}
