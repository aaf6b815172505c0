//! Properties of all gateways and datagrams. The functions do nothing: their contracts are the theorems.

ghost use Rattle.std.specs.Prelude.{◌≡◌, ◌≤◌, ℕ, List, Ok};
ghost use Rattle.mg_words.specs.declared.limits.TheConstants.{LAST_TERMINATION};
ghost use Rattle.mg_rooms.specs.declared.record.Record.{Record};
ghost use Rattle.mg_rooms.specs.declared.settings.Settings.{Settings};
ghost use Rattle.mg_rooms.specs.declared.target.Target.{Target};
ghost use Rattle.mg_rooms.specs.Consistent.{IsConsistent};
ghost use Rattle.mg_engine.specs.declared.config.Config.{Config};
ghost use Rattle.mg_engine.specs.declared.taken.Taken.{Taken};
ghost use Rattle.mg_engine.specs.declared.topology_triple.TopologyTriple.{TopologyTriple};
ghost use Rattle.mg_engine.specs.Apart.{SamePackets};
ghost use Rattle.mg_engine.specs.aids.Agreement.{SameEditsKeepAgreement, SameArrivalKeepsAgreement, OneArrivalKeepsAgreement, AgreementIsMutual, SameTickKeepsAgreement, SameStatsButReceived};
ghost use Rattle.mg_engine.specs.Arrival.{Takes};
ghost use Rattle.mg_engine.specs.Config.{IsValidConfig};
ghost use Rattle.mg_engine.specs.Gateway.{Gateway, start_of};
ghost use Rattle.mg_engine.specs.Outcome.{add, modify, move_to, subtract, apply_triples};
ghost use Rattle.mg_engine.specs.Unaffected.{EditsDoNotAffectOthers, DatagramsDoNotAffectOthers};
ghost use Rattle.mg_engine.specs.aids.Order.{ArrivalOrderIsIrrelevant};
ghost use Rattle.mg_engine.specs.Isolation.{NoneHearsItself, OwnSpeechChangesNoPacket, PacketsDependOnHeard, IsolatedAreNotHeard, UnheardChangesNoPacket, PayloadsAreMixes};
ghost use Rattle.mg_engine.specs.Restored.{without_speech};
ghost use Rattle.mg_engine.specs.aids.Triples.{triple_limit};
ghost use Rattle.mg_engine.specs.aids.Quiet.{AgreeInCheckpoint, HaveDepths, IsQuiet};
ghost use Rattle.mg_engine.specs.aids.Stands.{EngineState, StandsFor};

use crate::topology_triple::TRIPLES;
use mg_rtp::theorems::one_reading;

/// In every gateway, an RTP datagram has exactly one outcome, whatever its port and its source.
pub fn one_arrival(bytes: &[u8])
    ensures some { (w : Gateway) (port : ℕ) (source : List ℕ) → (next : Gateway) × (result : Taken)
        × Takes w port source bytes.now next result }
    ensures at_most_one { (w : Gateway) (port : ℕ) (source list : List ℕ) (x y : Gateway) (a b : Taken) →
        Takes w port source list x a → Takes w port source list y b → (x ≡ y) × (a ≡ b) }
{
    one_reading(bytes);
}

/// No termination hears itself: no speech flows back to the termination that it comes from.
///
/// Except in Loopback, a termination's own speech has no effect on the packets to that termination.
pub fn none_hears_itself()
    ensures flow { NoneHearsItself }
    ensures packets { OwnSpeechChangesNoPacket }
{}

/// Two terminations that are isolated from each other do not hear each other.
///
/// After an Isolate on two terminations, no speech flows between them until one of them enters a context or another
/// triple mentions the pair. The packets to either of them are the same, whatever the other says.
pub fn isolated_are_not_heard()
    ensures flow { IsolatedAreNotHeard }
    ensures packets { UnheardChangesNoPacket }
{}

/// The payload of a packet encodes its listener's mix.
///
/// Except in Loopback, the mix is the sum of all speech that flows to the listener, saturated once.
pub fn payloads_are_mixes()
    ensures theorem { PayloadsAreMixes }
{}

/// The limit on triples in the code equals the limit in the definitions.
pub fn triples_are_limited()
    ensures { TRIPLES ≡ triple_limit }
{}

/// The terminations and contexts of a new gateway are consistent, and each edit and RTP datagram keeps them consistent.
///
/// So the terminations and contexts are consistent after any sequence of edits and datagrams. A proof can use this fact
/// even where no `Engine` is in scope.
pub fn worlds_are_consistent()
    ensures start { (config : Config) → IsValidConfig config → config.first_termination ≤ LAST_TERMINATION →
        IsConsistent (start_of config).rooms }
    ensures add { (w next : Gateway) (target : Target) (settings : Settings) (r : Record) → IsConsistent w.rooms →
        add w target settings ≡ Ok (next, r) → IsConsistent next.rooms }
    ensures modify { (w next : Gateway) (target : Target) (n : ℕ) (settings : Settings) (r : Record) →
        IsConsistent w.rooms →
        modify w target n settings ≡ Ok (next, r) → IsConsistent next.rooms }
    ensures move_to { (w next : Gateway) (target : Target) (n : ℕ) (settings : Settings) (r : Record) →
        IsConsistent w.rooms →
        move_to w target n settings ≡ Ok (next, r) → IsConsistent next.rooms }
    ensures subtract { (w next : Gateway) (target : Target) (n : ℕ) (r : Record) → IsConsistent w.rooms →
        subtract w target n ≡ Ok (next, r) → IsConsistent next.rooms }
    ensures triples { (w next : Gateway) (target : Target) (triples : List TopologyTriple) (c : ℕ) →
        IsConsistent w.rooms → apply_triples w target triples ≡ Ok (next, c) → IsConsistent next.rooms }
    ensures media { (w next : Gateway) (port : ℕ) (source bytes : List ℕ) (result : Taken) → IsConsistent w.rooms →
        Takes w port source bytes next result → IsConsistent next.rooms }
{
    mg_rooms::theorems::outcomes_are_consistent();
}

/// The order of two RTP datagrams at different ports does not matter.
///
/// In either order, each datagram has the same outcome, and the gateway ends in the same state.
pub fn port_order_is_irrelevant()
    ensures theorem { ArrivalOrderIsIrrelevant }
{}

/// Neither an edit nor an RTP datagram affects other contexts.
///
/// In every other context, the members, their order, records and media, who hears whom, the flows, and the total stay
/// the same. An edit concerns only the action's context and the context of the termination that it names. A datagram
/// concerns only the context of the termination whose port it arrives at.
///
/// The theorem uses the relations from two clauses: `outcome` of [`Engine::edit`](crate::Engine::edit) and `taken` of
/// [`Engine::media`](crate::Engine::media). The gateways that an engine represents are consistent
/// ([`Engine::terminations`](crate::Engine::terminations)).
pub fn other_contexts_are_unaffected()
    ensures edits { EditsDoNotAffectOthers }
    ensures media { DatagramsDoNotAffectOthers }
{}

/// If two gateways differ only in what some terminations received, this is still so after the same edit, datagram or
/// tick.
///
/// This holds even if only one gateway receives an RTP datagram at the port of one of those terminations. The counters
/// are equal in both gateways, except for received packets.
pub fn agreement_lasts()
    ensures edits { SameEditsKeepAgreement }
    ensures media { SameArrivalKeepsAgreement }
    ensures one { OneArrivalKeepsAgreement }
    ensures turned { AgreementIsMutual }
    ensures tick { SameTickKeepsAgreement }
    ensures stats { SameStatsButReceived }
{
    one_reading(b"");
}

/// A packet depends only on what its listener hears (in Loopback, on its own speech), on the listener's ticks and
/// packets so far, and on the gateway's configuration, terminations, contexts and edits.
///
/// Suppose that two gateways differ only in what some terminations received, and that a listener hears none of those
/// terminations and is not one of them in Loopback. In a tick, both gateways then send this listener the same packet,
/// byte for byte, or none.
pub fn packets_depend_on_heard()
    ensures theorem { PacketsDependOnHeard }
    ensures packets { SamePackets }
{}

/// Suppose that a quiet engine represents a gateway b, and that a gateway w has the same checkpoint as b. Then the
/// engine also represents w without the speech that w received. Each play list of w must have the depth in its
/// termination's record.
///
/// An engine is quiet if its terminations have received nothing. An engine without terminations is quiet.
pub fn quiet_engines_represent()
    ensures start { (k : EngineState) (config : Config) → StandsFor k (start_of config) → IsQuiet k }
    ensures theorem { (k : EngineState) (b w : Gateway) → IsQuiet k → StandsFor k b → AgreeInCheckpoint b w →
        HaveDepths w → StandsFor k (without_speech w) }
{}
