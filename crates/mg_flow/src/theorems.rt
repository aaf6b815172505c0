//! What follows from the edits in all rooms, however they are stored.
//!
//! The functions do nothing: their contracts are the theorems. A proof that needs a theorem calls its function.
//! Lists of edits start with the newest.

ghost use Rattle.std.specs.Prelude.{◌≡◌, ℕ, ◌∷◌, ◌==◌, ◌&&◌, ◌||◌, Bool, true, false, if◌then◌else◌, List, IsTrue, IsFalse};
ghost use Rattle.mg_topology.specs.declared.triple.Triple.{Triple};
ghost use Rattle.mg_topology.specs.Triple.{mentions, word_of};
ghost use Rattle.mg_flow.specs.declared.place.Place.{Place};
ghost use Rattle.mg_flow.specs.Place.{is_same_place, are_together};
ghost use Rattle.mg_flow.specs.Edits.{FlowEdit, Enter, Leave, SetMode, Apply, is_held, talks_in, listens_in, may_hear, flows_in, is_silenced_in};
ghost use Rattle.mg_flow.specs.aids.Table.{StandsForSome};

use crate::flow_table::FlowTable;

/// Every table represents some list of edits.
pub fn each_table_represents_edits(table: &FlowTable)
    ensures { StandsForSome table.now }
{
    table.assert_invariant();
}

/// The places that are held after one more edit: an Enter adds its place, a Leave removes it, and other edits change
/// nothing.
pub fn edits_change_who_is_held()
    ensures enter { (es : List FlowEdit) (place p : Place) (talks listens : Bool) →
        is_held (Enter place talks listens ∷ es) p ≡
        (if is_same_place p place then true else is_held es p) }
    ensures leave { (es : List FlowEdit) (place p : Place) →
        is_held (Leave place ∷ es) p ≡ (if is_same_place p place then false else is_held es p) }
    ensures mode { (es : List FlowEdit) (place p : Place) (talks listens : Bool) →
        is_held (SetMode place talks listens ∷ es) p ≡ is_held es p }
    ensures apply { (es : List FlowEdit) (room : ℕ) (triple : Triple) (p : Place) →
        is_held (Apply room triple ∷ es) p ≡ is_held es p }
{}

/// How one more edit changes the last word on two places in the same room.
///
/// An Enter for either place removes the last word. A triple in their room that mentions the pair becomes the last
/// word. Other edits change nothing.
pub fn edits_change_last_words()
    ensures enter { (es : List FlowEdit) (place a b : Place) (talks listens : Bool) → a.room ≡ b.room →
        may_hear (Enter place talks listens ∷ es) a b ≡
        (if is_same_place a place || is_same_place b place then true else may_hear es a b) }
    ensures leave { (es : List FlowEdit) (place a b : Place) →
        may_hear (Leave place ∷ es) a b ≡ may_hear es a b }
    ensures mode { (es : List FlowEdit) (place a b : Place) (talks listens : Bool) →
        may_hear (SetMode place talks listens ∷ es) a b ≡ may_hear es a b }
    ensures apply { (es : List FlowEdit) (room : ℕ) (triple : Triple) (a b : Place) →
        may_hear (Apply room triple ∷ es) a b ≡
        (if (room == a.room) && mentions triple a.seat b.seat
        then word_of triple a.seat b.seat
        else may_hear es a b) }
{}

/// For a member that listens, every other talker in its room is either open or silenced.
pub fn talkers_are_open_or_silenced()
    ensures one { (es : List FlowEdit) (talker listener : Place) → IsTrue (listens_in es listener) →
        (flows_in es talker listener || is_silenced_in es talker listener) ≡
        (talks_in es talker && are_together (is_held es) talker listener) }
    ensures never_both { (es : List FlowEdit) (talker listener : Place) →
        IsFalse (flows_in es talker listener && is_silenced_in es talker listener) }
{}

/// Nobody is silenced for a newcomer, and a newcomer isn't silenced for anybody, whatever triples named its place
/// before.
pub fn newcomer_is_not_silenced()
    ensures { (es : List FlowEdit) (newcomer other : Place) (talks listens : Bool) →
        IsFalse (is_silenced_in (Enter newcomer talks listens ∷ es) other newcomer)
        × IsFalse (is_silenced_in (Enter newcomer talks listens ∷ es) newcomer other) }
{}
