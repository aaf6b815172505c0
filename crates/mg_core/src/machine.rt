ghost use Rattle.std.specs.Prelude.{◌≡◌, ◌<◌, ◌≤◌, ◌+◌, ◌*◌, ◌↔◌, [], true, length, Some, IfOk, OnOk, OnErr, Option, List, map, ℕ};
ghost use Rattle.std.specs.List.{slice_get};
ghost use Rattle.mg_rooms.specs.Limits.{slot_port};
ghost use Rattle.mg_topology.specs.Mask.{has_seat};
ghost use Rattle.mg_rooms.specs.declared.record.Record.{Record};
ghost use Rattle.mg_rooms.specs.Registry.{record_at};
ghost use Rattle.mg_rooms.specs.Consistent.{IsConsistent};
ghost use Rattle.mg_engine.specs.Config.{IsValidConfig};
ghost use Rattle.mg_engine.specs.Flow.{flow};
ghost use Rattle.mg_engine.specs.Mix.{total_at};
ghost use Rattle.mg_engine.specs.Gateway.{stats_of};
ghost use Rattle.mg_engine.specs.Tick.{conceals};
ghost use Rattle.mg_engine.specs.Work.{RisesAtMost, tick_work};
ghost use Rattle.mg_scan.specs.Span.{text_of};
ghost use Rattle.mg_words.specs.Limits.{sender_limit};
ghost use Rattle.mg_text.specs.Message.{IsMessage, items_of};
ghost use Rattle.mg_text.specs.Proper.{are_proper};
ghost use Rattle.mg_core.specs.declared.event.Event.TheVariants as events;
ghost use Rattle.mg_core.specs.Answer.{to_message, refused};
ghost use Rattle.mg_core.specs.Parsed.{IsReadingOf};
ghost use Rattle.mg_core.specs.Headline.{HasHistory, ExtendsHistory, ExtendsByTicks, FlowIsRecomputed, TotalIsRecomputed, PacketsAreRecomputed};
ghost use Rattle.mg_core.specs.Step.{Step, Packet, answer_to, reported};
ghost use Rattle.mg_words.specs.Leads.{Leads};
ghost use Rattle.mg_core.specs.Work.{CausesEdits, edits_by_items};
ghost use Rattle.mg_core.specs.World.{World, TakesMedia, counts_of, packets_of, start_of, world_after_tick, world_after_ticks, with_control};
ghost use Rattle.mg_core.specs.aids.Stands.{StandsFor};

use crate::answer::Answer;
use crate::answering::{REPLY_ROOM, has_requests, items_of, put_error, put_replies, refusal_of};
use crate::counts::Counts;
use crate::fault::NoMemory;
use crate::parsed::Parsed;
use crate::state::CoreState;
use mg_bytes::Bytes;
use mg_commands::Kept;
use mg_engine::{Config, Datagram, Engine, Outbox, Peer, Record, Rooms, StartFault, Stats, Taken};
use mg_reply::{HEAD_LIMIT, Reply, write_head};
use mg_rooms::TERMINATION_LIMIT;
use mg_text::{ErrorNumber, Message, REQUEST_LIMIT, read};
use mg_topology::mask::Mask;
use std::alloc::{AllocError, Global};
use std::marker::Model;

/// The maximum length, in bytes, of an answer: a head and the replies to all requests, separated by line feeds.
pub const ANSWER_LIMIT: usize = HEAD_LIMIT + REQUEST_LIMIT * REPLY_ROOM - 1;

/// The gateway as a state machine: datagrams and ticks go in, answers and packets come out.
///
/// A core opens nothing, waits for nothing, and reads no clock. It keeps no history, so its contracts hold for every
/// world that its state represents, before and after a call.
#[derive(Drop)]
pub struct Core {
    state: CoreState,
    reply: Reply,
    answer: Bytes,
    outbox: Outbox,
}

impl Model for Core {
    ghost use Rattle.std.specs.Prelude.{◌≡◌, ◌+◌, length};
    ghost use Rattle.mg_core.specs.aids.CoreView.{CoreView};
    ghost use Rattle.mg_core.specs.declared.machine.TheConstants.{ANSWER_LIMIT};

    ghost Value = { CoreView };

    ghost view = { λ c. record { state = c.state; answer = c.answer.text; outbox = c.outbox.items } };

    ghost invariant = { λ c. c.answer.room + length c.answer.text ≡ ANSWER_LIMIT };
}

/// Creates the store of kept replies, the reply under construction, and the buffer for answers.
///
/// Fails only if an allocation fails.
fn no_replies(alloc: Global) -> Result<(Kept, Reply, Bytes), AllocError>
    ensures kept { IfOk result (λ (kept, reply, answer). kept ≡ []) }
    ensures answer { IfOk result (λ (kept, reply, answer). answer ≡ record { text = []; room = ANSWER_LIMIT }) }
{
    let kept = Kept::new(alloc)?;
    let reply = Reply::new(alloc)?;
    Ok((kept, reply, Bytes::new(alloc, ANSWER_LIMIT)?))
}

impl Core {
    /// Starts a gateway with this configuration.
    ///
    /// Allocates all the memory that the gateway keeps. Fails if the configuration is invalid or an allocation fails.
    pub fn new(alloc: Global, config: Config) -> Result<Self, StartFault>
        ensures bad { (result ≡ Err StartFault.BadConfig) ↔ ¬ IsValidConfig config }
        ensures started { IfOk result (λ core. (core.answer ≡ []) × (core.outbox ≡ []) ×
            StandsFor core.state (start_of config)) }
        ensures headline { IfOk result (λ core. HasHistory (start_of config) [] [] (start_of config) core.state) }
        ensures sound { OnOk result (IsValidConfig config) }
    {
        let engine = Engine::new(alloc, config)?;
        let (kept, reply, answer) = no_replies(alloc)?;
        Ok(Core {
            state: CoreState {
                engine,
                kept,
                counts: Counts::new(),
            },
            reply,
            answer,
            outbox: Outbox::new(),
        })
    }

    /// Returns the state that the core keeps between events.
    pub fn state(&self) -> &CoreState
        ensures value { result.now ≡ self.now.state }
    {
        &self.state
    }

    /// Creates a core that continues from a state.
    ///
    /// Fails only if an allocation fails.
    pub fn from_state(alloc: Global, state: CoreState) -> Result<Self, AllocError>
        ensures state { IfOk result (λ core. core.state ≡ state) }
        ensures nothing { IfOk result (λ core. (core.answer ≡ []) × (core.outbox ≡ [])) }
    {
        let reply = Reply::new(alloc)?;
        let answer = Bytes::new(alloc, ANSWER_LIMIT)?;
        Ok(Core {
            state,
            reply,
            answer,
            outbox: Outbox::new(),
        })
    }

    /// Handles a control datagram; [`Core::answer`] returns its answer.
    ///
    /// Only reading the datagram allocates. If memory runs out, only the last answer changes: it becomes empty.
    pub fn control(&mut self, alloc: Global, source: Peer, bytes: &[u8]) -> Result<Answer, NoMemory>
        ensures answered { IfOk result (λ answer. Leads StandsFor self.old.state self.new.state (λ w next.
            Step w (events.Control source bytes.now) (answer_to source (reported answer self.new.answer)) next)) }
        ensures headline { IfOk result (λ answer. ExtendsHistory self.old.state self.new.state
            (events.Control source bytes.now) (answer_to source (reported answer self.new.answer))) }
        ensures work { IfOk result (λ _. (w : World) → StandsFor self.old.state w → (edits : ℕ)
            × CausesEdits bytes.now (with_control w) edits
            × RisesAtMost (4 * edits) self.old.state.engine.sums.work self.new.state.engine.sums.work) }
        ensures silent { result ≡ Ok Answer.Silent → self.new.answer ≡ [] }
        ensures no_memory { OnErr result (self.new ≡ record self.old { answer = [] }) }
        ensures outbox { self.new.outbox ≡ self.old.outbox }
        ensures short { length self.new.answer ≤ ANSWER_LIMIT }
    {
        match Core::read(alloc, bytes) {
            Ok(parsed) => Ok(self.run(source, bytes, &parsed)),
            Err(fault) => {
                self.answer.clear();
                Err(fault)
            }
        }
    }

    /// Reads a control datagram for [`Core::run`]. Doesn't need a core. Allocates memory, unlike `run`.
    ///
    /// Fails only if memory runs out. Reading the same datagram later may succeed.
    pub fn read(alloc: Global, bytes: &[u8]) -> Result<Parsed, NoMemory>
        ensures reading { IfOk result (λ parsed. IsReadingOf bytes.now parsed) }
    {
        match read(alloc, bytes) {
            Ok(message) => Ok(Parsed::Message(message)),
            Err(fault) => match refusal_of(fault) {
                Some(number) => Ok(Parsed::Refused(number)),
                None => Err(NoMemory),
            },
        }
    }

    /// Runs a control datagram that [`Core::read`] has read; [`Core::answer`] returns its answer.
    ///
    /// Allocates nothing and cannot fail, so a datagram can be written to a journal after it is read and before it is
    /// run.
    pub fn run(&mut self, source: Peer, bytes: &[u8], parsed: &Parsed) -> Answer
        requires reading { IsReadingOf bytes.now parsed.now }
        ensures answered { Leads StandsFor self.old.state self.new.state (λ w next.
            Step w (events.Control source bytes.now) (answer_to source (reported result self.new.answer)) next) }
        ensures headline { ExtendsHistory self.old.state self.new.state
            (events.Control source bytes.now) (answer_to source (reported result self.new.answer)) }
        ensures work { (w : World) → StandsFor self.old.state w → (edits : ℕ)
            × CausesEdits bytes.now (with_control w) edits
            × RisesAtMost (4 * edits) self.old.state.engine.sums.work self.new.state.engine.sums.work }
        ensures silent { result ≡ Answer.Silent → self.new.answer ≡ [] }
        ensures outbox { self.new.outbox ≡ self.old.outbox }
        ensures short { length self.new.answer ≤ ANSWER_LIMIT }
    {
        let _ = source;
        self.answer.clear();
        self.state.count_control();
        match parsed {
            Parsed::Message(message) => self.reply_to(bytes, message),
            Parsed::Refused(number) => {
                self.refuse(*number);
                Answer::Send
            }
        }
    }

    /// Handles a message item by item, and answers its requests.
    fn reply_to(&mut self, source: &[u8], message: &Message) -> Answer
        requires message { IsMessage source.now message.now }
        requires proper { are_proper source.now (items_of message.now.body) ≡ true }
        requires sender { length (text_of source.now message.now.sender) ≤ sender_limit }
        requires empty { self.old.answer ≡ [] }
        ensures replied { Leads StandsFor self.old.state self.new.state (λ w next.
            to_message source.now message.now w ≡ (reported result self.new.answer, next)) }
        ensures work { (w : World) → StandsFor self.old.state w →
            RisesAtMost (4 * edits_by_items source.now (text_of source.now message.now.sender)
            (items_of message.now.body) w)
            self.old.state.engine.sums.work self.new.state.engine.sums.work }
        ensures silent { result ≡ Answer.Silent → self.new.answer ≡ [] }
        ensures outbox { self.new.outbox ≡ self.old.outbox }
        ensures short { length self.new.answer ≤ ANSWER_LIMIT }
    {
        let items = items_of(&message.body);
        let config = *self.state.engine.config();
        write_head(
            config.control_address,
            config.control_port,
            &mut self.answer,
        );
        put_replies(
            &mut self.state,
            source,
            message.sender.text(source),
            items,
            &mut self.reply,
            &mut self.answer,
        );
        if has_requests(items) {
            return Answer::Send;
        }
        self.answer.clear();
        Answer::Silent
    }

    /// Answers an invalid message with an error.
    fn refuse(&mut self, number: ErrorNumber)
        requires empty { self.old.answer ≡ [] }
        ensures refused { (w : World) → StandsFor self.old.state w →
            refused number w ≡ (reported Answer.Send self.new.answer, w) }
        ensures state { self.new.state ≡ self.old.state }
        ensures outbox { self.new.outbox ≡ self.old.outbox }
        ensures short { length self.new.answer ≤ ANSWER_LIMIT }
    {
        let config = *self.state.engine.config();
        put_error(&config, number, &mut self.answer);
    }

    /// Returns the answer to the last control datagram. It is empty before the first one, if there was no answer, or if
    /// memory ran out.
    pub fn answer(&self) -> &[u8]
        ensures value { result.now ≡ self.now.answer }
    {
        self.answer.as_slice()
    }

    /// Handles an RTP datagram that arrived at a media port.
    pub fn media(&mut self, port: u16, source: Peer, bytes: &[u8]) -> Taken
        ensures taken { Leads StandsFor self.old.state self.new.state (λ w next.
            TakesMedia w port source bytes.now next result) }
        ensures headline { ExtendsHistory self.old.state self.new.state (events.Media port source bytes.now) [] }
        ensures work { self.new.state.engine.sums.work ≡ self.old.state.engine.sums.work }
        ensures answer { self.new.answer ≡ self.old.answer }
        ensures outbox { self.new.outbox ≡ self.old.outbox }
    {
        let taken = self.state.engine.media(port, source, bytes);
        self.state.count_media(taken);
        taken
    }

    /// Advances by 20 ms; [`Core::outbox`] returns the packets to send.
    pub fn tick(&mut self)
        ensures sent { (w : World) → StandsFor self.old.state w → self.new.outbox ≡ packets_of w }
        ensures next { (w : World) → StandsFor self.old.state w → StandsFor self.new.state (world_after_tick w) }
        ensures packets { PacketsAreRecomputed self.old.state self.new.outbox }
        ensures headline { ExtendsHistory self.old.state self.new.state events.Tick (map Packet self.new.outbox) }
        ensures work { (w : World) → StandsFor self.old.state w →
            RisesAtMost (tick_work w.gateway) self.old.state.engine.sums.work self.new.state.engine.sums.work }
        ensures answer { self.new.answer ≡ self.old.answer }
    {
        let concealed = self.state.engine.tick(&mut self.outbox);
        self.state.count_tick(concealed);
    }

    /// Advances by `count` ticks at once, without packets; [`Core::outbox`] is then empty.
    ///
    /// The resulting world is the same as after `count` calls of [`Core::tick`]. No payloads are mixed. Once no frame
    /// is left to play, the remaining ticks take one step.
    pub fn skip(&mut self, count: u64)
        ensures next { (w : World) → StandsFor self.old.state w → StandsFor self.new.state (world_after_ticks count w) }
        ensures headline { ExtendsByTicks self.old.state self.new.state count }
        ensures answer { self.new.answer ≡ self.old.answer }
        ensures outbox { self.new.outbox ≡ [] }
    {
        let concealed = self.state.engine.skip(count);
        self.state.count_ticks(count, concealed);
        self.outbox.clear();
    }

    /// Returns the packets of the last tick, in order of termination number. There are none after a skip.
    pub fn outbox(&self) -> &[Datagram]
        ensures value { result.now ≡ self.now.outbox }
        ensures few { length result.now ≤ TERMINATION_LIMIT }
    {
        self.outbox.as_slice()
    }

    /// Returns whether a talker's speech flows to a listener, or false if either number doesn't name a termination.
    pub fn flow(&self, talker: u32, listener: u32) -> bool
        ensures value { (w : World) → StandsFor self.now.state w → result ≡ flow w.gateway talker listener }
        ensures headline { FlowIsRecomputed self.now.state talker listener result }
    {
        self.state.engine.flow(talker, listener)
    }

    /// Returns the seats of those members of a termination's context whose speech flows to the termination. The bits of
    /// empty seats are unspecified.
    pub fn talkers(&self, listener: &Record) -> Mask
        requires there { record_at self.now.state.engine.rooms listener.now.number ≡ Some listener.now }
        ensures value { (w : World) (talker : Record) → StandsFor self.now.state w →
            record_at w.gateway.rooms talker.number ≡ Some talker → talker.context ≡ listener.now.context →
            has_seat result talker.seat ≡ flow w.gateway talker.number listener.now.number }
    {
        self.state.engine.talkers(listener)
    }

    /// Returns the sum of sample `i` over the current frames of all talkers in a context. The sum is not saturated to
    /// 16 bits.
    ///
    /// Returns `None` if the context does not exist, or if `i` is not below 160.
    pub fn total(&self, context: u32, i: usize) -> Option<i32>
        ensures value { (w : World) → StandsFor self.now.state w → result ≡ total_at w.gateway context i }
        ensures headline { TotalIsRecomputed self.now.state context i result }
    {
        self.state.engine.total(context, i)
    }

    /// Returns the terminations and contexts.
    pub fn rooms(&self) -> &Rooms
        ensures value { (w : World) → StandsFor self.now.state w → result.now ≡ w.gateway.rooms }
    {
        self.state.engine.rooms()
    }

    /// Returns the number of terminations.
    pub fn terminations(&self) -> usize
        ensures value { result ≡ length self.now.state.engine.rooms.terminations }
        ensures few { result ≤ TERMINATION_LIMIT }
        ensures consistent { IsConsistent self.now.state.engine.rooms }
    {
        self.state.engine.terminations()
    }

    /// Returns the termination at an index, counted from 0 in order of termination number.
    pub fn termination(&self, place: usize) -> Record
        requires there { place < length self.now.state.engine.rooms.terminations }
        ensures value { slice_get self.now.state.engine.rooms.terminations place ≡ Some result }
        ensures slot { result.slot < self.now.state.engine.rooms.limits.slots }
    {
        self.state.engine.termination(place)
    }

    /// Exposes the invariant of the terminations to a proof. Has no effect.
    pub(crate) fn assert_invariant(&self)
        ensures consistent { IsConsistent self.now.state.engine.rooms }
    {
        let _count = self.state.engine.terminations();
    }

    /// Returns the UDP port of a slot.
    pub fn port(&self, slot: u8) -> u16
        requires slot { slot < self.now.state.engine.rooms.limits.slots }
        ensures value { result ≡ slot_port self.now.state.engine.rooms.limits slot }
    {
        self.state.engine.port(slot)
    }

    /// Returns the counters of a termination, or `None` if it doesn't exist.
    pub fn stats(&self, number: u32) -> Option<Stats>
        ensures value { (w : World) → StandsFor self.now.state w → result ≡ stats_of w.gateway number }
    {
        self.state.engine.stats(number)
    }

    /// Returns whether the next tick conceals a missing frame of a termination, or false if the termination doesn't
    /// exist.
    pub fn conceals(&self, number: u32) -> bool
        ensures value { (w : World) → StandsFor self.now.state w → result ≡ conceals w.gateway number }
    {
        self.state.engine.conceals(number)
    }

    /// Returns how many rows of 160 samples have been added or subtracted since the start, modulo 2^32. A mix counts as
    /// at least one row.
    pub fn work(&self) -> u32
        ensures value { result ≡ self.now.state.engine.sums.work }
    {
        self.state.engine.work()
    }

    /// Returns the counts of control datagrams, RTP datagrams by outcome, ticks, and concealed frames.
    ///
    /// `lines`, `sent` and `failed` are 0, because the code that runs the core counts them.
    pub fn counts(&self) -> Counts
        ensures value { (w : World) → StandsFor self.now.state w → result ≡ counts_of w.tally }
    {
        self.state.counts
    }
}
