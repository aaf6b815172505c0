ghost use Rattle.std.specs.Prelude.{◌≡◌, ◌+◌, [], Some, length, IfOk};
ghost use Rattle.mg_words.specs.Leads.{Leads};
ghost use Rattle.mg_core.specs.Step.{Step};
ghost use Rattle.mg_core.specs.aids.Steps.{AreKeptListeners, ChangesWritten, EventRan, Follows, LeadsOn, LineRan};
ghost use Rattle.mg_core.specs.declared.shown.Shown.{Shown};
ghost use Rattle.mg_core.specs.declared.line_runner.TheConstants.{OUTPUT_LIMIT};
ghost use Rattle.mg_core.specs.World.{World};
ghost use Rattle.mg_core.specs.aids.Stands.{StandsFor};

use crate::answer::Answer;
use crate::event::Event;
use crate::fault::{EventFault, LineFault};
use crate::machine::{ANSWER_LIMIT, Core};
use crate::output::{LINE_START, push_answer, push_packets};
use crate::script::{ParseFault, event_of};
use crate::shown::Shown;
use crate::watched::Watched;
use mg_bytes::Bytes;
use mg_engine::Peer;
use mg_lines::write_whole;
use std::alloc::{AllocError, Global};
use std::io::Write;

/// The size of the output buffer, in bytes: enough for a first word, a peer, and an answer in which every byte may need
/// an escape. The lines for all packets of a tick need less room.
const OUTPUT_LIMIT: usize = LINE_START + 2 * ANSWER_LIMIT;

/// Creates the store of a core's terminations if changes are shown.
fn watched_for(alloc: Global, core: &Core, shown: Shown) -> Result<Option<Watched>, AllocError>
    ensures value { (w : World) → StandsFor core.now.state w → IfOk result (λ watched. AreKeptListeners shown watched w) }
{
    match shown {
        Shown::Sent => Ok(None),
        Shown::SentAndFlows => {
            let watched = Watched::of(alloc, core)?;
            Ok(Some(watched))
        }
    }
}

/// Runs the lines of a script on a gateway, and writes the output.
#[derive(Drop)]
pub struct LineRunner {
    pub core: Core,
    pub output: Bytes,
    /// The number of answers and packets that were written.
    pub sent: u64,
    /// The terminations after the last event, if changes are shown.
    pub watched: Option<Watched>,
    ghost output_size: { output.room + length output.text ≡ OUTPUT_LIMIT },
}

impl LineRunner {
    /// Creates a runner with this gateway. Fails only if an allocation fails.
    pub fn new(alloc: Global, core: Core, shown: Shown) -> Result<Self, AllocError>
        ensures start { (w : World) → StandsFor core.state w →
            IfOk result (λ runner. Follows shown runner.core.state runner.watched w) }
        ensures sent { IfOk result (λ runner. runner.sent ≡ 0) }
    {
        let watched = watched_for(alloc, &core, shown)?;
        Ok(LineRunner {
            core,
            output: Bytes::new(alloc, OUTPUT_LIMIT)?,
            sent: 0,
            watched,
        })
    }

    /// Handles a control datagram and, if it is answered, writes the line for the answer.
    #[tactic(auto, using(crate::proofs::AnswerLemmas::totals))]
    fn take_control<W: Write>(
        &mut self,
        alloc: Global,
        source: Peer,
        bytes: &[u8],
        writer: &mut W,
    ) -> Result<(), EventFault>
        ensures value { Leads StandsFor self.old.core.state self.new.core.state (λ w next.
            EventRan Shown.Sent (Event.Control source bytes.now) w next self.old.sent self.new.sent
            (W.contents writer.old) (W.contents writer.new) result) }
        ensures watched { self.new.watched ≡ self.old.watched }
    {
        let Ok(answer) = self.core.control(alloc, source, bytes) else {
            return Err(EventFault::NoMemory);
        };
        match answer {
            Answer::Silent => Ok(()),
            Answer::Send => {
                self.output.clear();
                push_answer(source, self.core.answer(), &mut self.output);
                write_whole(self.output.as_slice(), writer)?;
                self.sent = self.sent.saturating_add(1);
                Ok(())
            }
        }
    }

    /// Handles an RTP datagram at a media port.
    fn take_media(&mut self, port: u16, source: Peer, bytes: &[u8])
        ensures value { Leads StandsFor self.old.core.state self.new.core.state (λ w next.
            Step w (Event.Media port source bytes.now) [] next) }
        ensures watched { self.new.watched ≡ self.old.watched }
        ensures sent { self.new.sent ≡ self.old.sent }
    {
        let _ = self.core.media(port, source, bytes);
    }

    /// Advances by 20 ms, and writes a line for each packet that is sent.
    #[tactic(auto, using(crate::proofs::AnswerLemmas::totals))]
    fn take_tick<W: Write>(&mut self, writer: &mut W) -> Result<(), EventFault>
        ensures value { Leads StandsFor self.old.core.state self.new.core.state (λ w next.
            EventRan Shown.Sent Event.Tick w next self.old.sent self.new.sent (W.contents writer.old)
            (W.contents writer.new) result) }
        ensures watched { self.new.watched ≡ self.old.watched }
    {
        self.core.tick();
        self.output.clear();
        push_packets(self.core.outbox(), &mut self.output);
        write_whole(self.output.as_slice(), writer)?;
        let sent = self.core.outbox().len() as u64;
        self.sent = self.sent.saturating_add(sent);
        Ok(())
    }

    /// Writes the changes that a control datagram caused, if changes are shown.
    fn show_changes<W: Write>(&mut self, writer: &mut W) -> Result<(), EventFault>
        ensures core { self.new.core ≡ self.old.core }
        ensures sent { self.new.sent ≡ self.old.sent }
        ensures value { (shown : Shown) (w next : World) → AreKeptListeners shown self.old.watched w →
            StandsFor self.old.core.state next →
            ChangesWritten shown w next (W.contents writer.old) (W.contents writer.new) result
            × AreKeptListeners shown self.new.watched next }
    {
        match &mut self.watched {
            None => Ok(()),
            Some(watched) => {
                watched.write_changes(&self.core, writer)?;
                Ok(())
            }
        }
    }

    /// Runs an event.
    fn take_event<W: Write>(
        &mut self,
        alloc: Global,
        event: &Event,
        writer: &mut W,
    ) -> Result<(), EventFault>
        ensures value { (shown : Shown) → LeadsOn (Follows shown self.old.core.state self.old.watched)
            (Follows shown self.new.core.state self.new.watched) result (λ w next.
            EventRan shown event.now w next self.old.sent self.new.sent (W.contents writer.old) (W.contents writer.new)
            result) }
    {
        self.core.assert_invariant();
        match event {
            Event::Tick => self.take_tick(writer),
            Event::Media(port, source, bytes) => {
                self.take_media(*port, *source, bytes.as_slice());
                Ok(())
            }
            Event::Control(source, bytes) => {
                self.take_control(alloc, *source, bytes.as_slice(), writer)?;
                self.show_changes(writer)
            }
        }
    }

    /// Runs a complete line; `number` is its number.
    pub fn take_line<W: Write>(
        &mut self,
        alloc: Global,
        number: u64,
        line: &[u8],
        writer: &mut W,
    ) -> Result<(), LineFault>
        ensures value { (shown : Shown) → LeadsOn (Follows shown self.old.core.state self.old.watched)
            (Follows shown self.new.core.state self.new.watched) result (λ w next.
            LineRan shown number line.now w next self.old.sent self.new.sent (W.contents writer.old)
            (W.contents writer.new) result) }
    {
        match event_of(alloc, line) {
            Err(ParseFault::Bad) => Err(LineFault::Bad(number)),
            Err(ParseFault::NoMemory) => Err(LineFault::NoMemory),
            Ok(None) => Ok(()),
            Ok(Some(event)) => {
                self.take_event(alloc, &event, writer)?;
                Ok(())
            }
        }
    }
}
