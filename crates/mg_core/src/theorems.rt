//! Properties of all events. The functions do nothing: their contracts are the theorems.

ghost use Rattle.std.specs.Prelude.{◌≡◌, List};
ghost use Rattle.mg_core.specs.declared.event.Event.{Event};
ghost use Rattle.mg_commands.specs.Theorems.{RefusedNamesChangeNothing, RefusedCommandsChangeNothing, RefusedActionsChangeNothing, RefusedTopologiesChangeNothing, OthersAreTried, RefusedRequestsChangeNothing};
ghost use Rattle.mg_core.specs.Base.{BasesStayBases, StartsAreBases};
ghost use Rattle.mg_core.specs.Apart.{UnheardChangesNothing, UnheardInHistories, UnheardInScripts};
ghost use Rattle.mg_core.specs.Counted.{CountsAreTicks, OtherScriptsStay};
ghost use Rattle.mg_core.specs.Counting.{EventsAreCounted};
ghost use Rattle.mg_core.specs.ExceptReceived.{RtpChangesSpeechOnly, RtpChangesSpeechOnlyInHistories};
ghost use Rattle.mg_core.specs.Headline.{EventsDetermineOutcome, GatewayDeterminesFuture, WorldsAreConsistent};
ghost use Rattle.mg_core.specs.Journal.{AgreementHasSameFlows, AgreementHasSameReports};
ghost use Rattle.mg_engine.specs.Isolation.{NoneHearsItself, OwnSpeechChangesNoPacket, IsolatedAreNotHeard, UnheardChangesNoPacket, PayloadsAreMixes};
ghost use Rattle.mg_core.specs.Note.{NotesHaveEvents};
ghost use Rattle.mg_core.specs.Interleaving.{PortOrderIsIrrelevant, PortOrderInScripts};
ghost use Rattle.mg_core.specs.Parsed.{IsReadingOf, ReadingsAreUnique};
ghost use Rattle.mg_core.specs.declared.parsed.Parsed.{Parsed};
ghost use Rattle.mg_core.specs.Recording.{RecordingsAreRead, CutRecordingsAreRead};
ghost use Rattle.mg_core.specs.Retransmissions.{KeptRepliesAreSent, RetransmissionsAreAnsweredAlike, OthersAreRun, RepliesPersist, NewReplyIsNewest, AcknowledgedAreDropped, EvictedAreDropped, DroppedRequestsAreRerun, RepliesAreKept};
ghost use Rattle.mg_core.specs.Flows.{OnlyChangesAreReported, ReportDeterminesOutcome};
ghost use Rattle.mg_core.specs.Run.{TextIsDetermined};
ghost use Rattle.mg_core.specs.Step.{Sent, Step, Run};
ghost use Rattle.mg_core.specs.World.{World};

use crate::event::Event;

/// A control datagram has at most one reading. So [`Core::run`](crate::Core::run) requires exactly what
/// [`Core::read`](crate::Core::read) returns.
pub fn readings_are_unique()
    ensures theorem { ReadingsAreUnique }
{
    mg_text::theorems::one_reading(b"");
}

/// Every control datagram has a reading. If there is enough memory, [`Core::read`](crate::Core::read) returns it.
pub fn readings_exist(bytes: &[u8])
    ensures theorem { (parsed : Parsed) × IsReadingOf bytes.now parsed }
{
    mg_text::theorems::one_reading(bytes);
}

/// Every event has an outcome in every world: the datagrams that are sent, and the next world.
pub fn each_event_has_an_outcome(event: &Event)
    ensures some { (w : World) → (sent : List Sent) × (next : World) × Step w event.now sent next }
{
    match event {
        Event::Control(_source, bytes) => mg_text::theorems::one_reading(bytes.as_slice()),
        Event::Media(_port, _source, bytes) => mg_engine::theorems::one_arrival(bytes.as_slice()),
        Event::Tick => {}
    }
}

/// Every event, and every list of events, has at most one outcome in a world.
///
/// The outcome is the next world, the datagrams sent, and the text written.
pub fn outcomes_are_unique()
    ensures event { (w : World) (event : Event) (a b : List Sent) (x y : World) →
        Step w event a x → Step w event b y → (a ≡ b) × (x ≡ y) }
    ensures events { (w : World) (events : List Event) (a b : List Sent) (x y : World) →
        Run w events a x → Run w events b y → (a ≡ b) × (x ≡ y) }
    ensures texts { TextIsDetermined }
{
    mg_text::theorems::one_reading(b"");
    mg_engine::theorems::one_arrival(b"");
}

/// A refused command changes no flow, total or later packet.
///
/// Except for a command on `*`, a refused command leaves the gateway unchanged. Flows, totals and packets depend only
/// on the gateway, not on kept replies.
pub fn refused_commands_change_no_packet()
    ensures theorem { GatewayDeterminesFuture }
{
    mg_engine::theorems::one_arrival(b"");
}

/// A retransmitted request gets the same answer while its reply is kept, and is not run again.
///
/// Any other request is run.
pub fn retransmissions_are_answered_alike()
    ensures kept { KeptRepliesAreSent }
    ensures again { RetransmissionsAreAnsweredAlike }
    ensures others { OthersAreRun }
{
    mg_kept::theorems::kept_reply_is_found();
}

/// A retransmitted request gets the same answer until its reply is acknowledged or 32 other replies have been kept.
///
/// After that, the request is run again if it is retransmitted. No two kept replies answer the same request.
pub fn replies_persist()
    ensures last { RepliesPersist }
    ensures newest { NewReplyIsNewest }
    ensures acknowledged { AcknowledgedAreDropped }
    ensures pushed { EvictedAreDropped }
    ensures gone { DroppedRequestsAreRerun }
    ensures kept { RepliesAreKept }
{
    mg_kept::theorems::kept_reply_is_found();
    mg_kept::theorems::only_acknowledged_is_dropped();
    mg_kept::theorems::replies_stay_while_few_are_newer();
}

/// A new gateway's world is a base, and events lead from a base to a base with the same configuration.
///
/// A base is a world with which a gateway may begin.
pub fn bases_stay_bases()
    ensures starts { StartsAreBases }
    ensures theorem { BasesStayBases }
{
    mg_engine::theorems::worlds_are_consistent();
    mg_commands::theorems::requests_are_consistent();
    mg_kept::theorems::replies_stay_while_few_are_newer();
}

/// The terminations and contexts are consistent after any sequence of events.
///
/// Terminations and contexts are within the limits. No two terminations have the same number or slot, and no two
/// contexts have the same number or room. No two members of a context have the same seat. Members and records agree.
/// Terminations are in order of their numbers, so a tick sends its packets in that order.
pub fn worlds_are_consistent()
    ensures theorem { WorldsAreConsistent }
{
    bases_stay_bases();
}

/// Between two control datagrams or ticks, the order of RTP datagrams at different ports does not matter.
///
/// Suppose two lists of events contain the same control datagrams and ticks, in the same order. Between any two of
/// these, and also before the first and after the last, each port receives the same RTP datagrams in the same order.
/// Then the gateway sends the same datagrams for both lists, and ends in the same world.
pub fn port_order_is_irrelevant()
    ensures events { PortOrderIsIrrelevant }
    ensures scripts { PortOrderInScripts }
{
    outcomes_are_unique();
    mg_engine::theorems::port_order_is_irrelevant();
    mg_engine::theorems::worlds_are_consistent();
    mg_commands::theorems::requests_are_consistent();
}

/// In each tick, a listener's packet does not depend on what arrives from terminations that the listener does not hear in
/// that tick.
///
/// Suppose two gateways begin with the same world and receive the same events, except for RTP datagrams at the ports of
/// some terminations. In the next tick, both gateways send the same bytes to every listener that hears none of
/// those terminations in that tick. What the listener heard earlier makes no difference.
pub fn unheard_changes_nothing()
    ensures lists { UnheardChangesNothing }
    ensures histories { UnheardInHistories }
    ensures scripts { UnheardInScripts }
{
    mg_text::theorems::one_reading(b"");
    mg_engine::theorems::agreement_lasts();
    mg_engine::theorems::packets_depend_on_heard();
    mg_commands::theorems::requests_keep_agreement();
}

/// RTP datagrams change only speech.
///
/// Suppose two gateways begin with the same base and receive the same ticks and the same control datagrams of at most
/// 8,192 bytes. Only one of them receives RTP datagrams and longer control datagrams. Then both gateways have the same
/// terminations, contexts and topology, and keep replies to the same requests. They can differ only in play lists (but
/// not in their depths), current frames, the texts of kept replies, and the counts of datagrams, received packets and
/// concealed frames. Their bases may also differ in these.
pub fn rtp_changes_speech_only()
    ensures worlds { RtpChangesSpeechOnly }
    ensures histories { RtpChangesSpeechOnlyInHistories }
{
    mg_text::theorems::one_reading(b"");
    mg_engine::theorems::agreement_lasts();
    mg_commands::theorems::requests_keep_agreement();
    bases_stay_bases();
}

/// RTP datagrams don't change any flow. So the world at the beginning, control datagrams and ticks alone determine who
/// could hear whom, and when.
///
/// In two worlds that agree except for what was received, the same flows are open. Suppose two gateways begin with such
/// worlds and receive the same ticks and the same control datagrams of at most 8,192 bytes. Only one of them receives
/// RTP datagrams and longer control datagrams. Then both report the same changes. So a journal can leave out RTP
/// datagrams and these longer control datagrams.
pub fn rtp_changes_no_flow()
    ensures flows { AgreementHasSameFlows }
    ensures reports { AgreementHasSameReports }
{
    rtp_changes_speech_only();
    mg_text::theorems::one_reading(b"");
    mg_engine::theorems::agreement_lasts();
    mg_engine::theorems::worlds_are_consistent();
    mg_commands::theorems::requests_keep_agreement();
    mg_commands::theorems::requests_are_consistent();
}

/// The state before an event and the lines that report its changes determine the terminations, contexts, modes and
/// flows after it. If nothing changed, there are no such lines.
pub fn changes_are_reported()
    ensures complete { ReportDeterminesOutcome }
    ensures exact { OnlyChangesAreReported }
{}

/// The counts grow by the numbers of control datagrams, RTP datagrams and ticks. A new gateway's counts are 0. The sum
/// of the counts of outcomes grows by the number of RTP datagrams.
pub fn events_are_counted()
    ensures theorem { EventsAreCounted }
{}

/// A recording is a script of its events.
///
/// The line for an event is read as that event, and the other lines of a recording are read as comments. Wherever a
/// recording is truncated, its complete lines are a script of its first events.
pub fn recordings_are_read()
    ensures theorem { RecordingsAreRead }
    ensures cut { CutRecordingsAreRead }
{}

/// Where ticks are counted, the line with which a gateway appends ticks to its journal is read as these ticks. A script
/// in which no line counts ticks is read unchanged.
pub fn counted_ticks_are_read()
    ensures line { CountsAreTicks }
    ensures others { OtherScriptsStay }
{}

/// The notes of a script contain its events, in order. A script has notes unless one of its lines is bad.
pub fn notes_have_events()
    ensures theorem { NotesHaveEvents }
{}

/// The headline theorem: the parts of the headline that go beyond the contracts of a core's calls.
///
/// The clauses `headline` and `packets` of a [`Core`](crate::Core) compare what it returns and sends with what is
/// recomputed from the resulting world. After any sequence of events, the two are equal. This theorem states the rest.
/// The world at the beginning and the events determine that world and the content of each packet. Packets are sent in
/// order of termination number. If a command is refused for a termination, the gateway stays the same, and so do later
/// packets. No termination hears itself, and isolated participants do not hear each other.
pub fn headline()
    ensures world { EventsDetermineOutcome }
    ensures packets { PayloadsAreMixes }
    ensures refused_names { RefusedNamesChangeNothing }
    ensures refused_commands { RefusedCommandsChangeNothing }
    ensures refused_actions { RefusedActionsChangeNothing }
    ensures refused_topologies { RefusedTopologiesChangeNothing }
    ensures others { OthersAreTried }
    ensures refused_requests { RefusedRequestsChangeNothing }
    ensures later { GatewayDeterminesFuture }
    ensures himself { NoneHearsItself }
    ensures own { OwnSpeechChangesNoPacket }
    ensures isolated { IsolatedAreNotHeard }
    ensures unheard { UnheardChangesNoPacket }
    ensures order { WorldsAreConsistent }
    ensures starts { StartsAreBases }
{
    outcomes_are_unique();
    mg_engine::theorems::payloads_are_mixes();
    mg_commands::theorems::refused_commands_change_nothing();
    refused_commands_change_no_packet();
    mg_engine::theorems::none_hears_itself();
    mg_engine::theorems::isolated_are_not_heard();
    bases_stay_bases();
    worlds_are_consistent();
}
