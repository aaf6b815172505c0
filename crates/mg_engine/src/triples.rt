//! Converts a topology's triples to the seats of the members that their terms match.

ghost use Rattle.std.specs.Prelude.{Any, ◌≡◌, ◌≤◌, [], ◌∷◌, length, Ok, Err, true, false, IfSome, IfNone, MatchResult, IsTrue, IsFalse};
ghost use Rattle.mg_topology.specs.Triple.{Overlaps};
ghost use Rattle.mg_rooms.specs.Registry.{members_at};
ghost use Rattle.mg_rooms.specs.aids.Sound.{IsSound};
ghost use Rattle.mg_engine.specs.Flow.{has};
ghost use Rattle.mg_engine.specs.Triples.{is_barred, names_others, matched, check_triple, check_triples};
ghost use Rattle.mg_engine.specs.aids.Members.{HasMembers};
ghost use Rattle.mg_engine.specs.aids.Triples.{IsRoomOf, Matches, IsMatched, AreMatched};

use crate::topology_triple::TopologyTriple;
use crate::triple_term::TripleTerm;
use arrayvec::ArrayVec;
use mg_flow::FlowTable;
use mg_rooms::{ErrorNumber, Rooms};
use mg_topology::Triple;
use mg_topology::mask::{self, Mask};

/// A context that exists, and the room of its topology.
#[derive(Clone, Copy)]
pub struct TopologyRoom {
    pub context: u32,
    pub room: u8,
}

/// Returns whether a term is not allowed in a triple.
fn is_barred(term: TripleTerm) -> bool
    ensures value { result ≡ is_barred term }
{
    matches!(term, TripleTerm::Barred)
}

/// Returns the seat of the member with this number, as a set of one seat, or `None` if the context has no such member.
fn seat_of(rooms: &Rooms, context: u32, number: u32) -> Option<Mask>
    requires sound { IsSound rooms.now }
    ensures some { IfSome result (λ seats. IsTrue (has (members_at rooms.now context) number)
        × Matches rooms.now context (number ∷ []) seats) }
    ensures none { IfNone result (IsFalse (has (members_at rooms.now context) number)) }
{
    match rooms.record(number) {
        Some(record) => {
            if record.context == context {
                Some(mask::of_seat(usize::from(record.seat)))
            } else {
                None
            }
        }
        None => None,
    }
}

/// Returns the seats of the members that a term matches, or `None` if the term names something that isn't a member. The
/// term must be allowed.
fn seats_of(rooms: &Rooms, flows: &FlowTable, at: TopologyRoom, term: TripleTerm) -> Option<Mask>
    requires allowed { is_barred term ≡ false }
    requires sound { IsSound rooms.now }
    requires room { IsRoomOf rooms.now at.context at.room }
    requires members { HasMembers rooms.now flows.now }
    ensures some { IfSome result (λ seats. (names_others (members_at rooms.now at.context) term ≡ false)
        × Matches rooms.now at.context (matched (members_at rooms.now at.context) term) seats) }
    ensures none { IfNone result (names_others (members_at rooms.now at.context) term ≡ true) }
{
    match term {
        TripleTerm::Every => Some(flows.held(at.room)),
        TripleTerm::Number(number) => seat_of(rooms, at.context, number),
        TripleTerm::Barred | TripleTerm::Stranger => None,
    }
}

/// Converts a triple to seats, or returns the first error in it.
fn triple_of(
    rooms: &Rooms,
    flows: &FlowTable,
    at: TopologyRoom,
    triple: &TopologyTriple,
) -> Result<Triple, ErrorNumber>
    requires sound { IsSound rooms.now }
    requires room { IsRoomOf rooms.now at.context at.room }
    requires members { HasMembers rooms.now flows.now }
    ensures value { MatchResult result
        (λ by_seats. (check_triple (members_at rooms.now at.context) triple.now ≡ Ok tt)
        × IsMatched rooms.now at.context (members_at rooms.now at.context) triple.now by_seats
        × ¬ Overlaps by_seats)
        (λ e. check_triple (members_at rooms.now at.context) triple.now ≡ Err e) }
{
    if is_barred(triple.first) || is_barred(triple.second) {
        return Err(ErrorNumber::IdentifierNotAllowed);
    }
    let Some(first) = seats_of(rooms, flows, at, triple.first) else {
        return Err(ErrorNumber::NotInContext);
    };
    let Some(second) = seats_of(rooms, flows, at, triple.second) else {
        return Err(ErrorNumber::NotInContext);
    };
    let association = triple.association;
    let by_seats = Triple {
        first,
        second,
        association,
    };
    if by_seats.overlaps() {
        return Err(ErrorNumber::IllegalCombination);
    }
    Ok(by_seats)
}

/// Converts at most `N` triples to seats, in order, or returns the first error in them.
pub fn triples_of<const N: usize>(
    rooms: &Rooms,
    flows: &FlowTable,
    at: TopologyRoom,
    triples: &[TopologyTriple],
) -> Result<ArrayVec<Triple, N>, ErrorNumber>
    requires few { length triples.now ≤ N }
    requires sound { IsSound rooms.now }
    requires room { IsRoomOf rooms.now at.context at.room }
    requires members { HasMembers rooms.now flows.now }
    ensures value { MatchResult result
        (λ by_seats. (check_triples (members_at rooms.now at.context) triples.now ≡ Ok tt)
        × AreMatched rooms.now at.context (members_at rooms.now at.context) triples.now by_seats.items
        × ¬ Any Overlaps by_seats.items)
        (λ e. check_triples (members_at rooms.now at.context) triples.now ≡ Err e) }
{
    let mut by_seats = ArrayVec::new();
    for triple in triples {
        by_seats.push(triple_of(rooms, flows, at, triple)?);
    }
    Ok(by_seats)
}
