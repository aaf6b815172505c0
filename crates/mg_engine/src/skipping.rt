//! Runs many ticks in one step if all play lists are idle and all frames silent.

ghost use Rattle.std.specs.Prelude.{◌≡◌, ◌<◌, ◌≤◌, IsTrue, EachIndex, length, slice_index_or, slice_set};
ghost use Rattle.mg_words.specs.Limits.{termination_limit};
ghost use Rattle.mg_engine.specs.aids.Stands.{media_at};
ghost use Rattle.mg_engine.specs.aids.MediaSteps.{slot_passed};
ghost use Rattle.mg_engine.specs.aids.Playing.{AreApart, HasPassed, IsIdleSlot};
ghost use Rattle.mg_engine.specs.aids.Sending.{slot_sends};

use crate::media::HeldMedia;
use crate::sending::sends_in;
use mg_rooms::Rooms;
use mg_sums::{Row, Sums};

/// Returns whether a slot has an idle play list and a silent row.
fn is_idle(media: &[HeldMedia], sums: &Sums, slot: u8) -> bool
    requires slot { (slot < length media.now) × (slot < termination_limit) }
    ensures value { IsTrue result → IsIdleSlot media.now sums.now.frames slot }
{
    media[usize::from(slot)].is_idle() && sums.is_silent(Row::new(slot))
}

/// Returns whether every given slot has an idle play list and a silent row.
pub fn are_idle(held: &[u8], media: &[HeldMedia], sums: &Sums) -> bool
    requires slots { EachIndex held.now (λ i. slice_index_or held.now i 0 < length media.now) }
    requires few { length media.now ≤ termination_limit }
    ensures value { IsTrue result → EachIndex held.now (λ i. IsIdleSlot media.now sums.now.frames
        (slice_index_or held.now i 0)) }
{
    for slot in held {
        if !is_idle(media, sums, *slot) {
            return false;
        }
    }
    true
}

/// Counts several ticks for the termination in a slot and, if it sends, as many packets.
fn pass_slot(rooms: &Rooms, media: &mut Vec<HeldMedia>, slot: u8, count: u64)
    requires slot { slot < length media.old.items }
    ensures value { media.new.items ≡ slice_set media.old.items slot
        (slot_passed (slot_sends rooms.now slot) count (media_at media.old.items slot)) }
{
    let is_sent = sends_in(rooms, slot);
    media[usize::from(slot)].pass(count, is_sent);
}

/// Counts several ticks for the terminations in these slots and, for the terminations that send, as many packets.
pub fn pass_slots(rooms: &Rooms, held: &[u8], media: &mut Vec<HeldMedia>, count: u64)
    requires slots { EachIndex held.now (λ i. slice_index_or held.now i 0 < length media.old.items) }
    requires apart { AreApart held.now }
    ensures long { length media.new.items ≡ length media.old.items }
    ensures each { EachIndex held.now (λ i. HasPassed rooms.now count media.old.items media.new.items
        (slice_index_or held.now i 0)) }
{
    for slot in held {
        pass_slot(rooms, media, *slot, count);
    }
}
