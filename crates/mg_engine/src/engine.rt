ghost use Rattle.std.specs.Prelude.{All, ◌≡◌, ◌≢◌, ℕ, List, [], ◌∷◌, ◌<◌, ◌≤◌, ◌+◌, ◌++◌, ◌↔◌, ◌==◌, not, Err, Some, IfOk, IfSome, IsSome, OnOk, OnErr, MatchResult, Ok, EachIndex, length, map, filter, replicate, slice_set, option_map, option_to_list, slice_index_or, IsTrue, false, None, ◌*◌, sum_by, count_by, min, ◌-◌, ◌^◌};
ghost use Rattle.mg_rooms.specs.declared.record.Record.{Record};
ghost use Rattle.mg_words.specs.declared.limits.TheConstants.{TERMINATION_LIMIT};
ghost use Rattle.std.specs.List.{range_with_len, slice_get};
ghost use Rattle.mg_rooms.specs.Limits.{slot_port};
ghost use Rattle.mg_rooms.specs.Outcome.{is_number, member};
ghost use Rattle.mg_rooms.specs.Registry.{holder_of, record_at, context_at, members_at};
ghost use Rattle.mg_words.specs.Limits.{context_limit, termination_limit};
ghost use Rattle.mg_sums.specs.Samples.{nearest_sample};
ghost use Rattle.mg_engine.specs.Outcome.{outcome, add, modify, move_to, subtract, existing_context, apply_triples};
ghost use Rattle.mg_engine.specs.aids.Triples.{IsRoomOf};
ghost use Rattle.mg_rooms.specs.Consistent.{IsConsistent};
ghost use Rattle.mg_rooms.specs.aids.Sound.{IsSound};
ghost use Rattle.mg_engine.specs.aids.Playing.{AreApart, HaveTicked, IsIdleEngine, IsPlayed};
ghost use Rattle.mg_engine.specs.aids.Sending.{heard_now, mixed_now, silenced_now, mix_work_now, sending_work_now, packet_now, packets_now, slot_sends, with_mixes, IsEnded, PlacedAt};
ghost use Rattle.mg_engine.specs.aids.Shares.{AreShared, IsPut, payload_of};
ghost use Rattle.mg_engine.specs.aids.Masks.{RepresentsFlows};
ghost use Rattle.mg_engine.specs.aids.Totals.{RepresentsTotals};
ghost use Rattle.mg_engine.specs.Work.{RisesAtMost, sending_work, tick_work};
ghost use Rattle.mg_engine.specs.declared.datagram.Datagram.{Datagram};
ghost use Rattle.mg_engine.specs.aids.Place.{IsOnPlace, IsOnSeat};
ghost use Rattle.mg_engine.specs.Tick.{sends, sent_to, packets, all_played, all_ended, sent_in_tick, after_tick, conceals, concealed_in_tick};
ghost use Rattle.mg_engine.specs.aids.Ticks.{after_ticks, concealed_in_ticks};
ghost use Rattle.mg_g711.specs.Law.{byte_of};
ghost use Rattle.mg_words.specs.Mode.{listens};
ghost use Rattle.mg_flow.specs.aids.Table as table;
ghost use Rattle.mg_topology.specs.Mask.{has_seat};
ghost use Rattle.mg_sums.specs.aids.Sums.{AreValidSums, first_sums, frame_of_row, room_of};
ghost use Rattle.mg_engine.specs.aids.Seating.{place_count};
ghost use Rattle.mg_rtp.specs.aids.Read.{reading_of};
ghost use Rattle.mg_engine.specs.Arrival.{at_port, arrived, Takes};
ghost use Rattle.mg_engine.specs.Flow.{flow, hears};
ghost use Rattle.mg_engine.specs.Mix.{total_at};
ghost use Rattle.mg_engine.specs.aids.Media.{idle};
ghost use Rattle.mg_engine.specs.aids.MediaSteps.{initial_media, slot_ended, is_concealing, slot_tuned as tuned_media};
ghost use Rattle.mg_engine.specs.Config.{IsValidConfig};
ghost use Rattle.mg_engine.specs.Gateway.{Gateway, start_of, stats_of};
ghost use Rattle.mg_sums.specs.Samples.{silence};
ghost use Rattle.mg_engine.specs.aids.Stands.{StandsFor, IsOutcome, media_at};
ghost use Rattle.mg_engine.specs.aids.Found.{HasStats};

use crate::arrival::{frame_by_law, law_for};
use crate::config::Config;
use crate::datagram::{Outbox, address_last, lend, push_payload};
use crate::done::Done;
use crate::edit::Edit;
use crate::fault::StartFault;
use crate::joining::part;
use crate::media::HeldMedia;
use crate::membership::{enter, member_place, place_of, take_mode, vacate};
use crate::mixing::{own_row, rows_on};
use crate::seated_member::{SeatedMember, seated_members};
use crate::seating::Seating;
use crate::sending::{is_loopback, payload_type, sends_in, sent_to};
use crate::share::Share;
use crate::shares::Shares;
use crate::skipping::{are_idle, pass_slots};
use crate::taken::{DropCause, Taken};
use crate::topology_triple::{FEW_TRIPLES, TRIPLES, TopologyTriple};
use crate::triples::{TopologyRoom, triples_of};
use arrayvec::ArrayVec;
use mg_flow::{FlowTable, Place};
use mg_g711::{Frame, Law};
use mg_rooms::{ErrorNumber, MEMBER_LIMIT, Record, Rooms, Settings, TERMINATION_LIMIT, Target};
use mg_rtp::{Packet, RtpFault, read};
use mg_sdp::Chosen;
use mg_sums::{Room, Row, Sums};
use mg_topology::Overlap;
use mg_topology::mask::{self, Mask};
use mg_words::{Peer, SAMPLES, Stats};
use std::alloc::{AllocError, Global};
use std::marker::Model;

/// The state of a gateway: terminations and contexts, media, who hears whom, and each context's total.
#[derive(Drop)]
pub struct Engine {
    pub(crate) config: Config,
    pub(crate) rooms: Rooms,
    /// The media of each slot.
    pub(crate) media: Vec<HeldMedia>,
    /// The slots that terminations hold, in order of termination number.
    pub(crate) held: ArrayVec<u8, TERMINATION_LIMIT>,
    /// Who hears whom, in terms of the members' places.
    pub(crate) flows: FlowTable,
    /// The slot of the member at each place.
    pub(crate) seating: Seating,
    /// The current frame of each slot, and the total of each room.
    pub(crate) sums: Sums,
    /// The packets of this tick whose payloads can be shared.
    pub(crate) shares: Shares,
}

impl Model for Engine {
    ghost use Rattle.mg_engine.specs.aids.Stands.{EngineState};
    ghost use Rattle.mg_engine.specs.aids.Whole.{IsWholeEngine};

    ghost Value = { EngineState };

    ghost view = { λ e. record {
      config = e.config;
      rooms = e.rooms;
      media = e.media.items;
      flows = e.flows;
      sums = e.sums;
      shares = e.shares;
    } };

    ghost invariant = { IsWholeEngine };
}

/// Creates idle media for `slots` slots. Fails only if an allocation fails.
fn idle_media(alloc: Global, slots: u16) -> Result<Vec<HeldMedia>, AllocError>
    ensures value { IfOk result (λ media. media.items ≡ replicate slots idle) }
{
    let mut media = Vec::new(alloc);
    for _ in 0..slots {
        media.push(HeldMedia::new(alloc)?)?;
    }
    Ok(media)
}

/// Creates the tables of a gateway without terminations.
///
/// The tables hold the flows, the slots by place, the frames and totals, and the shared payloads. Fails only if an
/// allocation fails.
fn empty_tables(alloc: Global) -> Result<(FlowTable, Seating, Sums, Shares), AllocError>
    ensures flows { IfOk result (λ (flows, seating, sums, shares). table.StandsFor flows []) }
    ensures seating { IfOk result (λ (flows, seating, sums, shares). seating ≡ replicate place_count 0) }
    ensures first { IfOk result (λ (flows, seating, sums, shares). sums ≡ first_sums) }
    ensures nowhere { IfOk result (λ (flows, seating, sums, shares). (row : ℕ) → room_of sums row ≡ None) }
    ensures valid { IfOk result (λ (flows, seating, sums, shares). AreValidSums sums) }
    ensures shares { IfOk result (λ (flows, seating, sums, shares). shares ≡ replicate context_limit []) }
{
    let flows = FlowTable::new(alloc)?;
    let seating = Seating::new(alloc)?;
    let sums = Sums::new(alloc)?;
    Ok((flows, seating, sums, Shares::new(alloc)?))
}

impl Engine {
    /// Starts a gateway without terminations.
    ///
    /// Allocates all memory; no other call allocates. Fails if the configuration is invalid or an allocation fails.
    pub fn new(alloc: Global, config: Config) -> Result<Engine, StartFault>
        ensures bad { (result ≡ Err StartFault.BadConfig) ↔ ¬ IsValidConfig config }
        ensures start { IfOk result (λ engine. StandsFor engine (start_of config)) }
        ensures sound { OnOk result (IsValidConfig config) }
        ensures work { IfOk result (λ engine. engine.sums.work ≡ 0) }
    {
        if !config.is_sound() {
            return Err(StartFault::BadConfig);
        }
        let rooms = Rooms::new(alloc, config.limits())?;
        let media = idle_media(alloc, config.slots)?;
        let (flows, seating, sums, shares) = empty_tables(alloc)?;
        Ok(Engine {
            config,
            rooms,
            media,
            held: ArrayVec::new(),
            flows,
            seating,
            sums,
            shares,
        })
    }

    /// Returns the configuration that the gateway was started with.
    pub fn config(&self) -> &Config
        ensures value { (w : Gateway) → StandsFor self.now w → result.now ≡ w.config }
    {
        &self.config
    }

    /// Returns the terminations and contexts.
    pub fn rooms(&self) -> &Rooms
        ensures value { (w : Gateway) → StandsFor self.now w → result.now ≡ w.rooms }
    {
        &self.rooms
    }

    /// Returns the number of terminations.
    pub fn terminations(&self) -> usize
        ensures value { result ≡ length self.now.rooms.terminations }
        ensures few { result ≤ TERMINATION_LIMIT }
        ensures consistent { IsConsistent self.now.rooms }
    {
        self.held.len()
    }

    /// Returns the termination at an index, counted from 0 in order of termination number.
    pub fn termination(&self, place: usize) -> Record
        requires there { place < length self.now.rooms.terminations }
        ensures value { slice_get self.now.rooms.terminations place ≡ Some result }
        ensures slot { result.slot < self.now.rooms.limits.slots }
    {
        let slot = self.held_at(place);
        self.rooms.held(slot).unwrap()
    }

    /// Returns the UDP port of a slot.
    pub fn port(&self, slot: u8) -> u16
        requires slot { slot < self.now.rooms.limits.slots }
        ensures value { result ≡ slot_port self.now.rooms.limits slot }
    {
        self.config.limits().slot_port(slot)
    }

    /// Returns who hears whom, in terms of the members' places.
    pub fn flows(&self) -> &FlowTable
        ensures value { result.now ≡ self.now.flows }
        ensures represented { (w : Gateway) → StandsFor self.now w → RepresentsFlows w result.now }
    {
        &self.flows
    }

    /// Returns the sums: each termination's frame is in the row of its slot, and each context's total is in its room.
    pub fn sums(&self) -> &Sums
        ensures value { result.now ≡ self.now.sums }
        ensures represented { (w : Gateway) → StandsFor self.now w → RepresentsTotals w result.now }
    {
        &self.sums
    }

    /// Applies an edit, or refuses it and changes nothing.
    pub fn edit(&mut self, edit: &Edit) -> Result<Done, ErrorNumber>
        ensures outcome { (w : Gateway) → StandsFor self.old w → IsOutcome self.new result (outcome w edit.now) }
        ensures refused { OnErr result (self.new ≡ self.old) }
        ensures work { RisesAtMost 4 self.old.sums.work self.new.sums.work }
    {
        match edit {
            Edit::Add { target, settings } => {
                let made = self.add(*target, settings)?;
                Ok(Done::Termination(made))
            }
            Edit::Modify {
                target,
                number,
                settings,
            } => {
                let changed = self.modify(*target, *number, settings)?;
                Ok(Done::Termination(changed))
            }
            Edit::Move {
                target,
                number,
                settings,
            } => {
                let moved = self.move_to(*target, *number, settings)?;
                Ok(Done::Termination(moved))
            }
            Edit::Subtract { target, number } => {
                let gone = self.subtract(*target, *number)?;
                Ok(Done::Termination(gone))
            }
            Edit::Triples { target, triples } => {
                let context = self.apply_triples(*target, triples.as_slice())?;
                Ok(Done::Topology(context))
            }
        }
    }

    /// Returns a member of the action's context, or an error if the termination isn't a member.
    pub fn find(&self, target: Target, number: u32) -> Result<Record, ErrorNumber>
        ensures value { (w : Gateway) → StandsFor self.now w → result ≡ member w.rooms target number }
        ensures stats { IfOk result (λ r. (w : Gateway) → StandsFor self.now w → HasStats self.now w r) }
    {
        self.rooms.find(target, number)
    }

    /// Creates a termination in the action's context, and the context too if it is new (RFC 3525, section 7.2.1).
    pub fn add(&mut self, target: Target, settings: &Settings) -> Result<Record, ErrorNumber>
        ensures outcome { (w : Gateway) → StandsFor self.old w → IsOutcome self.new result (add w target settings.now) }
        ensures refused { OnErr result (self.new ≡ self.old) }
        ensures work { RisesAtMost 4 self.old.sums.work self.new.sums.work }
        ensures stats { IfOk result (λ r. (w : Gateway) → StandsFor self.new w → HasStats self.new w r) }
    {
        let made = self.rooms.add(target, settings)?;
        let slot = made.record.slot;
        begin(&mut self.media, &mut self.sums, slot, &self.config);
        tune(&mut self.media, slot, settings.depth);
        self.held.push(slot);
        enter(&mut self.flows, &mut self.seating, &mut self.sums, made);
        Ok(made.record)
    }

    /// Changes a member of the action's context (RFC 3525, section 7.2.2).
    pub fn modify(
        &mut self,
        target: Target,
        number: u32,
        settings: &Settings,
    ) -> Result<Record, ErrorNumber>
        ensures outcome { (w : Gateway) → StandsFor self.old w →
            IsOutcome self.new result (modify w target number settings.now) }
        ensures refused { OnErr result (self.new ≡ self.old) }
        ensures work { RisesAtMost 4 self.old.sums.work self.new.sums.work }
        ensures stats { IfOk result (λ r. (w : Gateway) → StandsFor self.new w → HasStats self.new w r) }
    {
        let changed = self.rooms.modify(target, number, settings)?;
        tune(&mut self.media, changed.record.slot, settings.depth);
        take_mode(&mut self.flows, &mut self.sums, changed);
        Ok(changed.record)
    }

    /// Moves a termination to the action's context (RFC 3525, section 7.2.4).
    ///
    /// If the context that it leaves has no other member, that context ends.
    pub fn move_to(
        &mut self,
        target: Target,
        number: u32,
        settings: &Settings,
    ) -> Result<Record, ErrorNumber>
        ensures outcome { (w : Gateway) → StandsFor self.old w →
            IsOutcome self.new result (move_to w target number settings.now) }
        ensures refused { OnErr result (self.new ≡ self.old) }
        ensures work { RisesAtMost 4 self.old.sums.work self.new.sums.work }
        ensures stats { IfOk result (λ r. (w : Gateway) → StandsFor self.new w → HasStats self.new w r) }
    {
        let moved = self.rooms.move_to(target, number, settings)?;
        tune(&mut self.media, moved.to.record.slot, settings.depth);
        vacate(&mut self.flows, moved.from);
        enter(&mut self.flows, &mut self.seating, &mut self.sums, moved.to);
        Ok(moved.to.record)
    }

    /// Removes a member from the action's context, and ends the termination (RFC 3525, section 7.2.3).
    ///
    /// The context ends if it has no other member.
    pub fn subtract(&mut self, target: Target, number: u32) -> Result<Record, ErrorNumber>
        ensures outcome { (w : Gateway) → StandsFor self.old w → IsOutcome self.new result (subtract w target number) }
        ensures refused { OnErr result (self.new ≡ self.old) }
        ensures work { RisesAtMost 4 self.old.sums.work self.new.sums.work }
        ensures stats { IfOk result (λ r. (w : Gateway) → StandsFor self.old w → HasStats self.new w r) }
    {
        let gone = self.rooms.subtract(target, number)?;
        without(&mut self.held, gone.record.slot);
        vacate(&mut self.flows, gone);
        part(&mut self.sums, Row::new(gone.record.slot));
        Ok(gone.record)
    }

    /// Applies triples, in order, to the current members of the action's context (RFC 3525, section 7.1.18).
    ///
    /// Returns the context's number. If there are errors, returns the first error and doesn't apply any triple.
    pub fn apply_triples(
        &mut self,
        target: Target,
        triples: &[TopologyTriple],
    ) -> Result<u32, ErrorNumber>
        requires few { length triples.now ≤ TRIPLES }
        ensures outcome { (w : Gateway) → StandsFor self.old w →
            IsOutcome self.new result (apply_triples w target triples.now) }
        ensures refused { OnErr result (self.new ≡ self.old) }
        ensures work { self.new.sums.work ≡ self.old.sums.work }
    {
        if triples.len() <= FEW_TRIPLES {
            self.apply_up_to::<FEW_TRIPLES>(target, triples)
        } else {
            self.apply_up_to::<TRIPLES>(target, triples)
        }
    }

    /// Applies at most `N` triples.
    fn apply_up_to<const N: usize>(
        &mut self,
        target: Target,
        triples: &[TopologyTriple],
    ) -> Result<u32, ErrorNumber>
        requires small { N ≤ TRIPLES }
        requires few { length triples.now ≤ N }
        ensures outcome { (w : Gateway) → StandsFor self.old w →
            IsOutcome self.new result (apply_triples w target triples.now) }
        ensures refused { OnErr result (self.new ≡ self.old) }
        ensures work { self.new.sums.work ≡ self.old.sums.work }
    {
        let at = topology_room(&self.rooms, target)?;
        let by_seats = triples_of::<N>(&self.rooms, &self.flows, at, triples)?;
        match self.flows.on_triples(at.room, by_seats.as_slice()) {
            Ok(()) => Ok(at.context),
            Err(Overlap) => Err(ErrorNumber::IllegalCombination),
        }
    }

    /// Returns the context that an action's triples apply to, or an error if the action doesn't name an existing
    /// context by its number.
    ///
    /// Applying a topology without triples has the same result.
    pub fn topology_context(&self, target: Target) -> Result<u32, ErrorNumber>
        ensures outcome { (w : Gateway) → StandsFor self.now w → IsOutcome self.now result (apply_triples w target []) }
    {
        let at = topology_room(&self.rooms, target)?;
        Ok(at.context)
    }

    /// Returns the termination with this port, or `None` if no termination has this port.
    fn at_port(&self, port: u16) -> Option<Record>
        ensures value { result ≡ at_port self.now.rooms port }
        ensures sound { IsSound self.now.rooms }
        ensures slot { IfSome result (λ r. r.slot < length self.now.media) }
        ensures found { IfSome result (λ r. record_at self.now.rooms r.number ≡ Some r) }
    {
        match self.config.limits().slot_at(port) {
            Some(slot) => self.rooms.held(slot),
            None => None,
        }
    }

    /// Places the frame of a packet for a termination, unless the packet is dropped. Returns the outcome.
    fn place(
        &mut self,
        termination: &Record,
        source: Peer,
        packet: Result<Packet<'_>, RtpFault>,
    ) -> Taken
        requires slot { termination.now.slot < length self.old.media }
        ensures config { self.new.config ≡ self.old.config }
        ensures rooms { self.new.rooms ≡ self.old.rooms }
        ensures flows { self.new.flows ≡ self.old.flows }
        ensures sums { self.new.sums ≡ self.old.sums }
        ensures shares { self.new.shares ≡ self.old.shares }
        ensures taken { PlacedAt self.old.media self.new.media termination.now.slot
            (arrived termination.now source.address (reading_of packet.entry)) result }
    {
        let law = match law_for(termination, source) {
            Ok(law) => law,
            Err(cause) => return Taken::Dropped(cause),
        };
        match frame_by_law(law, packet) {
            Ok(arrived) => {
                let frame = arrived.1;
                let slot = usize::from(termination.slot);
                Taken::Placed(self.media[slot].place(arrived.0, frame))
            }
            Err(cause) => Taken::Dropped(cause),
        }
    }

    /// Handles an RTP datagram that arrived at a media port.
    pub fn media(&mut self, port: u16, source: Peer, bytes: &[u8]) -> Taken
        ensures taken { (w : Gateway) → StandsFor self.old w → (after : Gateway)
            × Takes w port source.address bytes.now after result × StandsFor self.new after }
        ensures work { self.new.sums.work ≡ self.old.sums.work }
    {
        let packet = read(bytes);
        match self.at_port(port) {
            Some(termination) => self.place(&termination, source, packet),
            None => Taken::Dropped(DropCause::NoTermination),
        }
    }

    /// Returns whether a talker's speech flows to a listener, or false if either number doesn't name a termination.
    pub fn flow(&self, talker: u32, listener: u32) -> bool
        ensures value { (w : Gateway) → StandsFor self.now w → result ≡ flow w talker listener }
    {
        match (self.rooms.member(talker), self.rooms.member(listener)) {
            (Some(speaking), Some(hearing)) => {
                let from = member_place(speaking);
                let to = member_place(hearing);
                from.room == to.room && mask::has_seat(*self.flows.open(to), usize::from(from.seat))
            }
            _ => false,
        }
    }

    /// Returns the seats of those members of a termination's context whose speech flows to the termination. The bits of
    /// empty seats are unspecified.
    pub fn talkers(&self, listener: &Record) -> Mask
        requires there { record_at self.now.rooms listener.now.number ≡ Some listener.now }
        ensures value { (w : Gateway) (talker : Record) → StandsFor self.now w →
            record_at w.rooms talker.number ≡ Some talker → talker.context ≡ listener.now.context →
            has_seat result talker.seat ≡ flow w talker.number listener.now.number }
    {
        let place = place_of(&self.rooms, listener).unwrap();
        *self.flows.open(place)
    }

    /// Returns whether `listener` hears `talker`, regardless of modes.
    ///
    /// The listener hears the talker if they are different members of the same context and the last word on the pair
    /// allows it.
    pub fn hears(&self, talker: u32, listener: u32) -> bool
        ensures value { (w : Gateway) → StandsFor self.now w → result ≡ hears w talker listener }
    {
        match (self.rooms.member(talker), self.rooms.member(listener)) {
            (Some(speaking), Some(hearing)) => {
                let from = member_place(speaking);
                let to = member_place(hearing);
                self.flows.hears(from, to)
            }
            _ => false,
        }
    }

    /// Returns the members of a context with their places, in order of entry.
    ///
    /// This saves lookups for code that queries many pairs.
    pub fn seated(&self, context: u32) -> ArrayVec<SeatedMember, MEMBER_LIMIT>
        ensures numbers { (w : Gateway) → StandsFor self.now w →
            map (λ m. m.number) result.items ≡ members_at w.rooms context }
        ensures places { All (IsOnSeat self.now.rooms) result.items }
    {
        seated_members(&self.rooms, self.rooms.members(context))
    }

    /// Returns whether `listener` hears `talker`, regardless of modes.
    pub fn hears_seated(&self, talker: SeatedMember, listener: SeatedMember) -> bool
        requires talker { IsOnSeat self.now.rooms talker }
        requires listener { IsOnSeat self.now.rooms listener }
        ensures value { (w : Gateway) → StandsFor self.now w → result ≡ hears w talker.number listener.number }
    {
        let from = talker.place();
        let to = listener.place();
        self.flows.hears(from, to)
    }

    /// Returns the sum of sample `i` over all talkers of a context in this tick. The sum is not saturated to 16 bits.
    ///
    /// Returns `None` if the context does not exist, or if `i` is not below 160.
    pub fn total(&self, context: u32, i: usize) -> Option<i32>
        ensures value { (w : Gateway) → StandsFor self.now w → result ≡ total_at w context i }
    {
        if i >= SAMPLES {
            return None;
        }
        let room = self.rooms.room(context)?;
        Some(*self.sums.total(Room::new(room), i))
    }

    /// Returns how many rows of samples have been added or subtracted since the start, modulo 2^32. A mix counts as at
    /// least one row.
    pub fn work(&self) -> u32
        ensures value { result ≡ self.now.sums.work }
    {
        self.sums.work()
    }

    /// Returns the counters of a termination, or `None` if it doesn't exist.
    pub fn stats(&self, number: u32) -> Option<Stats>
        ensures value { (w : Gateway) → StandsFor self.now w → result ≡ stats_of w number }
    {
        match slot_of(&self.rooms, number) {
            Some(slot) => Some(stats_in(self.media.as_slice(), slot)),
            None => None,
        }
    }

    /// Returns the counters of the termination that holds a slot or held it last. They are 0 if no termination has held
    /// the slot. Returns `None` if there is no such slot.
    pub fn slot_stats(&self, slot: u8) -> Option<Stats>
        ensures value { result ≡ option_map (λ m. m.stats) (slice_get self.now.media slot) }
    {
        let media = self.media.get(usize::from(slot))?;
        Some(media.stats())
    }

    /// Returns whether the next tick conceals a missing frame of a termination, or false if the termination doesn't
    /// exist.
    pub fn conceals(&self, number: u32) -> bool
        ensures value { (w : Gateway) → StandsFor self.now w → result ≡ conceals w number }
    {
        match slot_of(&self.rooms, number) {
            Some(slot) => conceals_in(self.media.as_slice(), slot),
            None => false,
        }
    }

    /// Advances by 20 ms: advances each play list, and fills the outbox with a packet from each termination that sends.
    ///
    /// Packets are in order of termination number. Returns how many missing frames were concealed.
    pub fn tick(&mut self, outbox: &mut Outbox) -> usize
        ensures concealed { (w : Gateway) → StandsFor self.old w → result ≡ concealed_in_tick w }
        ensures sent { (w : Gateway) → StandsFor self.old w → outbox.new.items ≡ sent_in_tick w }
        ensures after { (w : Gateway) → StandsFor self.old w → StandsFor self.new (after_tick w) }
        ensures work { (w : Gateway) → StandsFor self.old w →
            RisesAtMost (tick_work w) self.old.sums.work self.new.sums.work }
    {
        let concealed = self.play_all();
        self.send_all(outbox);
        self.end_all();
        concealed
    }

    /// Advances by `count` ticks at once, without packets. Returns how many missing frames were concealed, at most
    /// `u64::MAX`.
    ///
    /// The gateway is then in the same state as after `count` calls of [`Engine::tick`]. Ticks are run one by one until
    /// all play lists are idle and all frames silent; the rest take one step. No payloads are mixed.
    pub fn skip(&mut self, count: u64) -> u64
        ensures concealed { (w : Gateway) → StandsFor self.old w →
            result ≡ min (concealed_in_ticks count w) (2 ^ 64 - 1) }
        ensures after { (w : Gateway) → StandsFor self.old w → StandsFor self.new (after_ticks count w) }
    {
        skip(self, count)
    }

    /// Advances by 20 ms as [`Engine::tick`] does, but without packets. Returns how many missing frames were concealed.
    fn tick_without_packets(&mut self) -> usize
        ensures concealed { (w : Gateway) → StandsFor self.old w → result ≡ concealed_in_tick w }
        ensures after { (w : Gateway) → StandsFor self.old w → StandsFor self.new (after_tick w) }
    {
        let concealed = self.play_all();
        self.end_all();
        concealed
    }

    /// Returns whether all play lists are idle and all frames silent.
    fn is_idle(&self) -> bool
        ensures value { IsTrue result → IsIdleEngine self.now }
    {
        are_idle(self.held.as_slice(), self.media.as_slice(), &self.sums)
    }

    /// Advances by several ticks in one step. All play lists must be idle, and all frames silent.
    fn pass(&mut self, count: u64)
        requires idle { IsIdleEngine self.old }
        requires some { 0 < count }
        ensures none { (w : Gateway) → StandsFor self.old w → concealed_in_ticks count w ≡ 0 }
        ensures after { (w : Gateway) → StandsFor self.old w → StandsFor self.new (after_ticks count w) }
    {
        pass_slots(&self.rooms, self.held.as_slice(), &mut self.media, count);
    }

    /// Advances all play lists. Returns how many missing frames were concealed.
    fn play_all(&mut self) -> usize
        ensures concealed { (w : Gateway) → StandsFor self.old w → result ≡ concealed_in_tick w }
        ensures after { (w : Gateway) → StandsFor self.old w → StandsFor self.new (all_played w) }
        ensures rooms { self.new.rooms ≡ self.old.rooms }
        ensures work { RisesAtMost (2 * length self.old.rooms.terminations) self.old.sums.work self.new.sums.work }
    {
        play_slots(self.held.as_slice(), &mut self.media, &mut self.sums)
    }

    /// Fills an outbox with a packet from each termination that sends.
    fn send_all(&mut self, outbox: &mut Outbox)
        ensures sent { (w : Gateway) → HaveTicked w → StandsFor self.old w → outbox.new.items ≡ packets w }
        ensures after { (w : Gateway) → StandsFor self.old w → StandsFor self.new w }
        ensures work { (w : Gateway) → StandsFor self.old w →
            RisesAtMost (sum_by (sending_work w) w.rooms.terminations) self.old.sums.work self.new.sums.work }
    {
        outbox.clear();
        self.shares.clear();
        let count = self.held.len();
        fill(self, count, outbox);
    }

    /// Ends a tick for all terminations, and counts a packet for each one that sends.
    fn end_all(&mut self)
        ensures after { (w : Gateway) → StandsFor self.old w → StandsFor self.new (all_ended w) }
        ensures sums { self.new.sums ≡ self.old.sums }
    {
        end_slots(&self.rooms, self.held.as_slice(), &mut self.media);
    }

    /// Returns the slot of the i-th termination, in order of termination number.
    pub(crate) fn held_at(&self, i: usize) -> u8
        requires there { i < length self.now.rooms.terminations }
        ensures value { result ≡ slice_index_or (map (λ r. r.slot) self.now.rooms.terminations) i 0 }
    {
        self.held[i]
    }

    /// Appends the packet from the termination in a slot, if that termination sends.
    fn put_packet(&mut self, slot: u8, outbox: &mut Outbox)
        requires room { length outbox.old.items < TERMINATION_LIMIT }
        requires shared { AreShared self.old outbox.old.items }
        ensures put { (r : Record) → holder_of self.old.rooms slot ≡ Some r →
            outbox.new.items ≡ outbox.old.items ++ option_to_list (option_map (packet_now self.old r) (sent_to r)) }
        ensures few { length outbox.new.items ≤ length outbox.old.items + 1 }
        ensures shared { AreShared self.new outbox.new.items }
        ensures same { self.new ≡ with_mixes self.old self.new.sums.work self.new.shares }
        ensures work { (r : Record) → holder_of self.old.rooms slot ≡ Some r →
            RisesAtMost (sending_work_now self.old r) self.old.sums.work self.new.sums.work }
    {
        let Some(sender) = self.rooms.held(slot) else {
            return;
        };
        let Some(to) = sent_to(&sender) else {
            return;
        };
        self.put_payload(&sender, to.law, outbox);
        self.address(&sender, to, outbox);
    }

    /// Completes the last packet in an outbox as a packet from a termination to its peer. The payload is already set.
    fn address(&self, sender: &Record, to: Chosen, outbox: &mut Outbox)
        requires member { record_at self.now.rooms sender.now.number ≡ Some sender.now }
        requires last { 0 < length outbox.old.items }
        ensures put { (before : List Datagram) (last : Datagram) → outbox.old.items ≡ before ++ last ∷ [] →
            payload_of last ≡ map (byte_of to.law) (mixed_now self.now sender.now) →
            outbox.new.items ≡ before ++ packet_now self.now sender.now to ∷ [] }
        ensures payload { payload_of (packet_now self.now sender.now to) ≡
            map (byte_of to.law) (mixed_now self.now sender.now) }
    {
        let media = self.media.as_slice();
        let ssrc = self.config.ssrc.wrapping_add(sender.number);
        let header = media[usize::from(sender.slot)].header(payload_type(to.law), ssrc);
        let from = self.config.limits().slot_port(sender.slot);
        let address = to.address;
        let port = to.port;
        address_last(outbox, from, Peer { address, port }, header);
    }

    /// Appends a packet with the payload for a member. The packet's header and addresses are set later.
    ///
    /// In Loopback the payload is the member's own frame; otherwise it is the sum of the speech that flows to the
    /// member.
    fn put_payload(&mut self, sender: &Record, law: Law, outbox: &mut Outbox)
        requires member { record_at self.old.rooms sender.now.number ≡ Some sender.now }
        requires sends { IsTrue (sends sender.now.mode) }
        requires room { length outbox.old.items < TERMINATION_LIMIT }
        requires shared { AreShared self.old outbox.old.items }
        ensures put { IsPut outbox.old.items outbox.new.items (map (byte_of law) (mixed_now self.old sender.now)) }
        ensures shared { (sent : Datagram) → payload_of sent ≡ map (byte_of law) (mixed_now self.old sender.now) →
            AreShared self.new (outbox.old.items ++ sent ∷ []) }
        ensures same { self.new ≡ with_mixes self.old self.new.sums.work self.new.shares }
        ensures work { RisesAtMost (mix_work_now self.old sender.now) self.old.sums.work self.new.sums.work }
    {
        if is_loopback(sender.mode) {
            push_payload(outbox, law, self.sums.frame(Row::new(sender.slot)));
            return;
        }
        match place_of(&self.rooms, sender) {
            Some(place) => self.put_heard(sender, place, law, outbox),
            None => {}
        }
    }

    /// Appends a packet with the sound that the member at a place hears.
    ///
    /// Listeners in a room that hear the same talkers and use the same law share a payload, if it is among the room's
    /// newest eight.
    fn put_heard(&mut self, listener: &Record, place: Place, law: Law, outbox: &mut Outbox)
        requires place { IsOnPlace self.old.rooms listener.now.number listener.now place }
        requires listens { IsTrue (listens listener.now.mode) }
        requires room { length outbox.old.items < TERMINATION_LIMIT }
        requires shared { AreShared self.old outbox.old.items }
        ensures put { IsPut outbox.old.items outbox.new.items
            (map (byte_of law) (map (λ i. nearest_sample (heard_now self.old listener.now i)) (range_with_len 0 160))) }
        ensures shared { (sent : Datagram) → payload_of sent ≡
            map (byte_of law) (map (λ i. nearest_sample (heard_now self.old listener.now i)) (range_with_len 0 160)) →
            AreShared self.new (outbox.old.items ++ sent ∷ []) }
        ensures same { self.new ≡ with_mixes self.old self.new.sums.work self.new.shares }
        ensures work { RisesAtMost (1 + silenced_now self.old listener.now) self.old.sums.work self.new.sums.work }
    {
        let talkers = *self.flows.open(place);
        if let Some(packet) = self.shares.find(place.room, talkers, law) {
            lend(outbox, packet);
            return;
        }
        let packet = outbox.len() as u8;
        self.shares.put(
            place.room,
            Share {
                talkers,
                law,
                packet,
            },
        );
        let frame = self.mix(listener, place);
        push_payload(outbox, law, &frame);
    }

    /// Returns a room's total minus the listener's own frame, if the listener talks, and the frames of the talkers
    /// silenced for the listener. The result is saturated once.
    fn mix(&mut self, listener: &Record, place: Place) -> Frame
        requires place { IsOnPlace self.old.rooms listener.now.number listener.now place }
        requires listens { IsTrue (listens listener.now.mode) }
        ensures value { result ≡ map (λ i. nearest_sample (heard_now self.old listener.now i)) (range_with_len 0 160) }
        ensures same { self.new ≡ with_mixes self.old self.new.sums.work self.old.shares }
        ensures work { RisesAtMost (1 + silenced_now self.old listener.now) self.old.sums.work self.new.sums.work }
    {
        let silenced = rows_on(&self.seating, place.room, *self.flows.silenced(place));
        self.sums.mix(
            Room::new(place.room),
            own_row(listener),
            silenced.as_slice(),
        )
    }
}

/// Fills an outbox with a packet from each termination that sends, in order of termination number.
fn fill(engine: &mut Engine, count: usize, outbox: &mut Outbox)
    requires all { count ≡ length engine.old.rooms.terminations }
    requires few { count ≤ TERMINATION_LIMIT }
    requires sound { IsSound engine.old.rooms }
    requires nothing { outbox.old.items ≡ [] }
    requires unshared { engine.old.shares ≡ replicate context_limit [] }
    ensures value { outbox.new.items ≡ packets_now engine.old }
    ensures same { engine.new ≡ with_mixes engine.old engine.new.sums.work engine.new.shares }
    ensures work { RisesAtMost (sum_by (sending_work_now engine.old) engine.old.rooms.terminations)
        engine.old.sums.work engine.new.sums.work }
{
    for i in 0..count {
        let slot = engine.held_at(i);
        engine.put_packet(slot, outbox);
    }
}

/// Advances an engine by `count` ticks without packets. Returns how many missing frames were concealed.
fn skip(engine: &mut Engine, count: u64) -> u64
    ensures concealed { (w : Gateway) → StandsFor engine.old w → result ≡ min (concealed_in_ticks count w) (2 ^ 64 - 1) }
    ensures after { (w : Gateway) → StandsFor engine.old w → StandsFor engine.new (after_ticks count w) }
{
    let mut concealed: u64 = 0;
    for done in 0..count {
        if engine.is_idle() {
            engine.pass(count - done);
            return concealed;
        }
        concealed = concealed.saturating_add(engine.tick_without_packets() as u64);
    }
    concealed
}

/// Advances the play list of a slot, and stores its frame in the slot's row.
///
/// Returns whether a missing frame was concealed.
fn play(media: &mut Vec<HeldMedia>, sums: &mut Sums, slot: u8) -> bool
    requires slot { (slot < length media.old.items) × (slot < termination_limit) }
    ensures long { length media.new.items ≡ length media.old.items }
    ensures played { IsPlayed media.old.items media.new.items sums.new.frames slot }
    ensures concealed { result ≡ is_concealing (media_at media.old.items slot) }
    ensures others { (other : ℕ) → other ≢ slot → (media_at media.new.items other ≡ media_at media.old.items other)
        × (frame_of_row sums.new other ≡ frame_of_row sums.old other) }
    ensures rooms { sums.new.rooms ≡ sums.old.rooms }
    ensures work { RisesAtMost 2 sums.old.work sums.new.work }
{
    let row = Row::new(slot);
    let played = media[usize::from(slot)].play();
    let sound = played.sound();
    if sound.is_some() || !sums.is_silent(row) {
        sums.set_frame(row, sound);
    }
    played.is_concealed()
}

/// Advances the play list of each held slot. Returns how many missing frames were concealed.
fn play_slots(held: &[u8], media: &mut Vec<HeldMedia>, sums: &mut Sums) -> usize
    requires slots { EachIndex held.now (λ i. slice_index_or held.now i 0 < length media.old.items) }
    requires few { length media.old.items ≤ TERMINATION_LIMIT }
    requires apart { AreApart held.now }
    ensures long { length media.new.items ≡ length media.old.items }
    ensures each { EachIndex held.now (λ i. IsPlayed media.old.items media.new.items sums.new.frames
        (slice_index_or held.now i 0)) }
    ensures concealed { result ≡ count_by (λ slot. is_concealing (media_at media.old.items slot)) held.now }
    ensures rooms { sums.new.rooms ≡ sums.old.rooms }
    ensures work { RisesAtMost (2 * length held.now) sums.old.work sums.new.work }
{
    let mut concealed = 0;
    for slot in held {
        concealed += usize::from(play(media, sums, *slot));
    }
    concealed
}

/// Ends a tick for the termination in a slot and, if it sends, counts its packet.
fn end_slot(rooms: &Rooms, media: &mut Vec<HeldMedia>, slot: u8)
    requires slot { slot < length media.old.items }
    ensures value { media.new.items ≡ slice_set media.old.items slot
        (slot_ended (slot_sends rooms.now slot) (media_at media.old.items slot)) }
{
    let is_sent = sends_in(rooms, slot);
    media[usize::from(slot)].end_tick(is_sent);
}

/// Ends a tick for the terminations in these slots, and counts the packets of those that send.
fn end_slots(rooms: &Rooms, held: &[u8], media: &mut Vec<HeldMedia>)
    requires slots { EachIndex held.now (λ i. slice_index_or held.now i 0 < length media.old.items) }
    requires apart { AreApart held.now }
    ensures long { length media.new.items ≡ length media.old.items }
    ensures each { EachIndex held.now (λ i. IsEnded rooms.now media.old.items media.new.items
        (slice_index_or held.now i 0)) }
{
    for slot in held {
        end_slot(rooms, media, *slot);
    }
}

/// Returns the counters of the termination in a slot.
fn stats_in(media: &[HeldMedia], slot: u8) -> Stats
    requires slot { slot < length media.now }
    ensures value { result ≡ (media_at media.now slot).stats }
{
    media[usize::from(slot)].stats()
}

/// Returns whether the next tick conceals a missing frame of the termination in a slot.
fn conceals_in(media: &[HeldMedia], slot: u8) -> bool
    requires slot { slot < length media.now }
    ensures value { result ≡ is_concealing (media_at media.now slot) }
{
    media[usize::from(slot)].conceals()
}

/// Returns the action's context with its room, or an error if the action doesn't name an existing context by its
/// number.
fn topology_room(rooms: &Rooms, target: Target) -> Result<TopologyRoom, ErrorNumber>
    requires sound { IsSound rooms.now }
    ensures value { MatchResult result
        (λ at. (existing_context rooms.now target ≡ Ok at.context) × IsRoomOf rooms.now at.context at.room)
        (λ e. existing_context rooms.now target ≡ Err e) }
    ensures room { IfOk result (λ at. at.room < context_limit) }
{
    match target {
        Target::Number(context) => match rooms.room(context) {
            Some(room) => Ok(TopologyRoom { context, room }),
            None => Err(ErrorNumber::UnknownContext),
        },
        Target::Null | Target::New => Err(ErrorNumber::UnknownContext),
    }
}

/// Returns the slot of a termination, or `None` if it doesn't exist.
fn slot_of(rooms: &Rooms, number: u32) -> Option<u8>
    ensures value { result ≡ option_map (λ r. r.slot) (record_at rooms.now number) }
    ensures slot { IfSome result (λ slot. slot < rooms.now.limits.slots) }
{
    rooms.record(number).map(|record| record.slot)
}

/// Sets the depth of a slot's play list, if a command specifies a depth.
fn tune(media: &mut Vec<HeldMedia>, slot: u8, depth: Option<u16>)
    requires slot { slot < length media.old.items }
    ensures tuned { media.new.items ≡ slice_set media.old.items slot
        (tuned_media depth (media_at media.old.items slot)) }
{
    media[usize::from(slot)].tune(depth);
}

/// Resets the media of a slot for a new termination, with a silent frame.
fn begin(media: &mut Vec<HeldMedia>, sums: &mut Sums, slot: u8, config: &Config)
    requires slot { (slot < length media.old.items) × (slot < termination_limit) }
    ensures initial_media { media.new.items ≡ slice_set media.old.items slot (initial_media config.now) }
    ensures silent { sums.new.frames ≡ slice_set sums.old.frames slot silence }
    ensures joined { sums.new.rooms ≡ sums.old.rooms }
    ensures rows { length sums.old.frames ≡ termination_limit }
    ensures work { RisesAtMost 2 sums.old.work sums.new.work }
{
    media[usize::from(slot)].begin(config.timestamp, config.sequence);
    sums.set_frame(Row::new(slot), None);
}

/// Removes a slot from the list of held slots.
fn without(held: &mut ArrayVec<u8, TERMINATION_LIMIT>, slot: u8)
    ensures value { held.new.items ≡ filter (λ s. not (s == slot)) held.old.items }
{
    held.retain(|other| *other != slot);
}
