//! What follows from the edits in a context, however they are stored.
//!
//! The functions do nothing: their contracts are the theorems. A proof that needs a theorem calls its function.
//! Lists of edits start with the newest.

ghost use Rattle.std.specs.Prelude.{◌≡◌, ◌≢◌, ℕ, ◌<◌, ◌≤◌, ◌^◌, [], ◌∷◌, ◌++◌, ◌==◌, ◌||◌, ◌↔◌, Bool, List, Some, IsTrue, IsFalse, Any, Contains};
ghost use Rattle.std.specs.List.{list_any, filter, range_with_len};
ghost use Rattle.std.specs.List.Sorted.{IsStrictlyIncreasing};
ghost use Rattle.mg_words.specs.Limits.{member_limit};
ghost use Rattle.mg_topology.specs.declared.triple.Triple.{Triple};
ghost use Rattle.mg_words.specs.declared.association.Association.TheVariants.{Isolate, Oneway, Bothway};
ghost use Rattle.mg_topology.specs.declared.mask.TheConstants.{EMPTY, FULL, SEATS};
ghost use Rattle.mg_topology.specs.Mask.{seat_limit, has_seat, seats_of, seat_count, IsEmpty};
ghost use Rattle.mg_topology.specs.Triple.{is_forward, mentions, overlaps, Overlaps};
ghost use Rattle.mg_topology.specs.Edits.{TopologyEdit, Enter, Leave, Apply, is_held, last_word, may_hear, hears_in, touches};

/// A newcomer and each member hear each other, whatever triples named the newcomer's seat before.
pub fn newcomer_hears_and_is_heard()
    ensures hears { (es : List TopologyEdit) (newcomer member : ℕ) →
        newcomer ≢ member → IsTrue (is_held es member) →
        IsTrue (hears_in (Enter newcomer ∷ es) member newcomer) }
    ensures is_heard { (es : List TopologyEdit) (newcomer member : ℕ) →
        newcomer ≢ member → IsTrue (is_held es member) →
        IsTrue (hears_in (Enter newcomer ∷ es) newcomer member) }
{}

/// Two members hear each other if no triple has mentioned the pair since both entered.
pub fn unmentioned_pair_hears()
    ensures { (newer older : List TopologyEdit) (newcomer a b : ℕ) →
        IsTrue ((a == newcomer) || (b == newcomer)) →
        IsFalse (list_any (λ edit. touches edit a b) newer) →
        IsTrue (may_hear (newer ++ Enter newcomer ∷ older) a b) }
{}

/// The last triple that mentions a pair is the last word on it, unless one of the two members has entered since.
pub fn last_triple_wins()
    ensures { (newer older : List TopologyEdit) (triple : Triple) (a b : ℕ) →
        IsTrue (mentions triple a b) →
        IsFalse (list_any (λ edit. touches edit a b) newer) →
        last_word (newer ++ Apply triple ∷ older) a b ≡ Some triple }
{}

/// The meaning of each association for a seat of the first set and a seat of the second.
pub fn associations()
    ensures isolate { (es : List TopologyEdit) (triple : Triple) (first second : ℕ) →
        IsTrue (is_forward triple first second) → triple.association ≡ Isolate →
        IsFalse (may_hear (Apply triple ∷ es) first second)
        × IsFalse (may_hear (Apply triple ∷ es) second first) }

    // A Oneway triple that overlaps is rejected.
    ensures oneway { (es : List TopologyEdit) (triple : Triple) (first second : ℕ) →
        IsTrue (is_forward triple first second) → triple.association ≡ Oneway → IsFalse (overlaps triple) →
        IsTrue (may_hear (Apply triple ∷ es) first second)
        × IsFalse (may_hear (Apply triple ∷ es) second first) }
    ensures bothway { (es : List TopologyEdit) (triple : Triple) (first second : ℕ) →
        IsTrue (is_forward triple first second) → triple.association ≡ Bothway →
        IsTrue (may_hear (Apply triple ∷ es) first second)
        × IsTrue (may_hear (Apply triple ∷ es) second first) }
{}

/// An Enter or Leave of another member, or a triple that doesn't mention the pair, does not change whether two members
/// hear each other.
pub fn others_are_unaffected()
    ensures enter { (es : List TopologyEdit) (newcomer a b : ℕ) → newcomer ≢ a → newcomer ≢ b →
        hears_in (Enter newcomer ∷ es) a b ≡ hears_in es a b }
    ensures leave { (es : List TopologyEdit) (leaver a b : ℕ) → leaver ≢ a → leaver ≢ b →
        hears_in (Leave leaver ∷ es) a b ≡ hears_in es a b }
    ensures apply { (es : List TopologyEdit) (triple : Triple) (a b : ℕ) → IsFalse (mentions triple a b) →
        hears_in (Apply triple ∷ es) a b ≡ hears_in es a b }
{}

/// No member hears itself. A member that has left hears nobody and is heard by nobody.
pub fn absent_pairs_are_silent()
    ensures itself { (es : List TopologyEdit) (member : ℕ) → IsFalse (hears_in es member member) }
    ensures left { (es : List TopologyEdit) (leaver other : ℕ) →
        IsFalse (hears_in (Leave leaver ∷ es) leaver other)
        × IsFalse (hears_in (Leave leaver ∷ es) other leaver) }
{}

/// The test on masks finds exactly the Oneway triples whose two sets share a seat.
pub fn overlap_is_a_common_seat()
    ensures one { (triple : Triple) → IsTrue (overlaps triple) ↔ Overlaps triple }
    ensures any { (triples : List Triple) →
        IsTrue (list_any overlaps triples) ↔ Any Overlaps triples }
{}

/// The empty mask contains no seat, the full mask contains every seat, and no mask contains a seat at or above the
/// limit.
///
/// Masks with the same seats are equal.
pub fn masks_are_sets()
    ensures empty { IsEmpty EMPTY }
    ensures full { (seat : ℕ) → seat < SEATS → IsTrue (has_seat FULL seat) }
    ensures above { (mask seat : ℕ) → mask < 2 ^ SEATS → SEATS ≤ seat →
        IsFalse (has_seat mask seat) }
    ensures same { (a b : ℕ) → ((seat : ℕ) → has_seat a seat ≡ has_seat b seat) → a ≡ b }
{}

/// Each member of a context has a seat. If the limit on members is too high, this proof fails.
pub fn each_member_has_a_seat()
    ensures { member_limit ≤ seat_limit }
{}

/// The list of a mask's seats contains exactly those seats, in ascending order.
///
/// Filtering all seats with any test that agrees with the mask gives this list.
pub fn seats_are_listed()
    ensures seats { (mask seat : ℕ) →
        Contains (seats_of mask) seat ↔ ((seat < seat_limit) × IsTrue (has_seat mask seat)) }
    ensures rising { (mask : ℕ) → IsStrictlyIncreasing (seats_of mask) }
    ensures count { (mask : ℕ) → seat_count mask ≤ seat_limit }
    ensures empty { (mask : ℕ) → IsEmpty mask → seats_of mask ≡ [] }
    ensures test { (mask : ℕ) (is_in : ℕ → Bool) →
        ((seat : ℕ) → seat < seat_limit → has_seat mask seat ≡ is_in seat) →
        seats_of mask ≡ filter is_in (range_with_len 0 seat_limit) }
{}
