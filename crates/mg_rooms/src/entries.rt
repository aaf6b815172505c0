//! Lookups in the tables by slot and by room, and changes to one entry.

ghost use Rattle.std.specs.Prelude.{◌≡◌, ℕ, ◌<◌, ◌==◌, ◌&&◌, ◌||◌, true, not, length, replicate, None, is_none, IfOk, IfSome, slice_index_or};
ghost use Rattle.std.specs.List.{position_from, list_any};
ghost use Rattle.mg_rooms.specs.aids.Order.{has_key, passes_at};
ghost use Rattle.mg_rooms.specs.aids.Tables.{HoldsOnce};
ghost use Rattle.mg_rooms.specs.aids.Entries.{left_entry, entered_entry};

use crate::context::Context;
use crate::record::Record;
use mg_words::MEMBER_LIMIT;
use std::alloc::{AllocError, Global};

/// Creates a table of empty entries. Fails only if an allocation fails.
pub fn empty_table<T: Drop>(alloc: Global, len: usize) -> Result<Vec<Option<T>>, AllocError>
    ensures value { IfOk result (λ table. table.items ≡ replicate len None) }
{
    let mut table = Vec::new(alloc);
    for _ in 0..len {
        table.push(None)?;
    }
    Ok(table)
}

/// Returns the index of the first empty entry, or `None` if no entry is empty.
#[tactic(auto, using(crate::proofs::TableLemmas::position_within))]
pub fn empty_place<T>(table: &[Option<T>]) -> Option<usize>
    ensures value { result ≡ position_from is_none 0 table.now }
    ensures in_range { IfSome result (λ place. place < length table.now) }
{
    table.iter().position(|entry| entry.is_none())
}

/// Returns whether a slot holds the termination with this number.
fn has_termination(entry: &Option<Record>, number: u32) -> bool
    ensures { result ≡ has_key (λ r. r.number) number entry.now }
{
    entry.is_some_and(|record| record.number == number)
}

/// Returns whether a room holds the context with this number.
fn has_context(entry: &Option<Context>, number: u32) -> bool
    ensures { result ≡ has_key (λ x. x.number) number entry.now }
{
    match entry {
        Some(context) => context.number == number,
        None => false,
    }
}

/// Finds a termination's slot: tries the hint first, then searches. Returns `None` if no slot holds the termination.
pub fn slot_of(slots: &[Option<Record>], hint: u8, number: u32) -> Option<usize>
    requires once { HoldsOnce (λ r. r.number) slots.now }
    ensures value { result ≡ position_from (has_key (λ r. r.number) number) 0 slots.now }
    ensures in_range { IfSome result (λ slot. slot < length slots.now) }
{
    let hinted = usize::from(hint);
    match slots.get(hinted) {
        Some(entry) if has_termination(entry, number) => Some(hinted),
        _ => slots
            .iter()
            .position(|entry| has_termination(entry, number)),
    }
}

/// Finds a context's room: tries the hint first, then searches. Returns `None` if no room holds the context.
pub fn room_of(rooms: &[Option<Context>], hint: u8, number: u32) -> Option<usize>
    requires once { HoldsOnce (λ x. x.number) rooms.now }
    ensures value { result ≡ position_from (has_key (λ x. x.number) number) 0 rooms.now }
    ensures in_range { IfSome result (λ room. room < length rooms.now) }
{
    let hinted = usize::from(hint);
    match rooms.get(hinted) {
        Some(entry) if has_context(entry, number) => Some(hinted),
        _ => rooms.iter().position(|entry| has_context(entry, number)),
    }
}

/// Marks the seat of a slot's termination as held, if the termination is in the context.
fn note_seat(held: &mut [bool; MEMBER_LIMIT], context: u32, entry: &Option<Record>)
    ensures long { length held.new ≡ length held.old }
    ensures value { (seat : ℕ) → seat < MEMBER_LIMIT → slice_index_or held.new seat true
        ≡ (slice_index_or held.old seat true || passes_at (λ r. (r.context == context) && (r.seat == seat)) entry.now) }
{
    if let Some(record) = entry {
        let seat = usize::from(record.seat);
        if record.context == context && seat < MEMBER_LIMIT {
            held[seat] = true;
        }
    }
}

/// Returns which seats of the context are held.
pub fn held_seats(slots: &[Option<Record>], context: u32) -> [bool; MEMBER_LIMIT]
    ensures long { length result ≡ MEMBER_LIMIT }
    ensures value { (seat : ℕ) → seat < MEMBER_LIMIT → slice_index_or result seat true
        ≡ list_any (passes_at (λ r. (r.context == context) && (r.seat == seat))) slots.now }
{
    let mut held = [false; MEMBER_LIMIT];
    for entry in slots {
        note_seat(&mut held, context, entry);
    }
    held
}

/// Returns the first free seat, or `None` if every seat is held.
pub fn first_free(held: &[bool; MEMBER_LIMIT]) -> Option<usize>
    ensures value { result ≡ position_from not 0 held.now }
    ensures in_range { IfSome result (λ seat. seat < MEMBER_LIMIT) }
{
    held.iter().position(|is_held| !*is_held)
}

/// Adds a termination to the context in a room, if the room has a context.
pub fn enter_entry(entry: &mut Option<Context>, number: u32)
    requires room { IfSome entry.old (λ x. length x.members < MEMBER_LIMIT) }
    ensures value { entry.new ≡ entered_entry number entry.old }
{
    if let Some(context) = entry {
        context.members.enter(number);
    }
}

/// Removes a termination from the context in a room, if the room has a context. The context ends if it has no other
/// member.
pub fn leave_entry(entry: &mut Option<Context>, number: u32)
    ensures value { entry.new ≡ left_entry number entry.old }
{
    if let Some(context) = entry {
        context.members.leave(number);
        if context.members.is_empty() {
            *entry = None;
        }
    }
}
