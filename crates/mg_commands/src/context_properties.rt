//! Applying the properties of an action, after its commands.

ghost use Rattle.std.specs.Prelude.{◌≡◌, ◌≤◌, [], OnErr, length, map, unwrap_or};
ghost use Rattle.mg_reply.specs.Reply.{after_all};
ghost use Rattle.mg_engine.specs.Gateway.{Gateway};
ghost use Rattle.mg_engine.specs.Outcome.{apply_triples};
ghost use Rattle.mg_engine.specs.aids.Stands.{StandsFor, IsOutcome};
ghost use Rattle.mg_engine.specs.aids.Triples.{triple_limit};
ghost use Rattle.mg_commands.specs.ContextProperties.{term_of, topology_triple_of, triples_in, triples_of, audit_items, context_outcome};
ghost use Rattle.mg_commands.specs.Search.{first_of};
ghost use Rattle.mg_commands.specs.aids.Runs.{ReportsProperties};

use crate::action_fault::has_context_audit;
use crate::context_audit::put_pairs;
use crate::name::{Name, name_of};
use crate::named_member::named_members;
use crate::progress::Progress;
use arrayvec::ArrayVec;
use mg_engine::{Engine, FEW_TRIPLES, TRIPLES, TopologyTriple, TripleTerm};
use mg_reply::{Item, Reply};
use mg_text::{ContextProperty, ErrorNumber, NamedTriple};

/// Returns the meaning of a name in a triple.
fn term_of(made: Option<u32>, name: Name) -> TripleTerm
    ensures value { result ≡ term_of made name }
{
    match (name, made) {
        (Name::Choose, Some(number)) | (Name::Number(number), _) => TripleTerm::Number(number),
        (Name::Root, _) | (Name::Choose, None) => TripleTerm::Barred,
        (Name::All, _) => TripleTerm::Every,
        (Name::Other, _) => TripleTerm::Stranger,
    }
}

fn triple_of(source: &[u8], made: Option<u32>, triple: &NamedTriple) -> TopologyTriple
    ensures value { result ≡ topology_triple_of source.now made triple.now }
{
    TopologyTriple {
        first: term_of(made, name_of(triple.first.text(source))),
        second: term_of(made, name_of(triple.second.text(source))),
        association: triple.association,
    }
}

/// Converts at most `N` triples.
fn triples_of<const N: usize>(
    source: &[u8],
    made: Option<u32>,
    triples: &[NamedTriple],
) -> ArrayVec<TopologyTriple, N>
    requires small { N ≤ triple_limit }
    requires few { length triples.now ≤ N }
    ensures value { result.items ≡ map (topology_triple_of source.now made) triples.now }
{
    let mut topology = ArrayVec::new();
    for triple in triples {
        topology.push(triple_of(source, made, triple));
    }
    topology
}

/// Returns the triples of the first Topology among the properties, or no triples if there is no Topology.
fn topology_in(properties: &[ContextProperty]) -> &[NamedTriple]
    ensures value { result.now ≡ unwrap_or (first_of triples_in properties.now) [] }
{
    for property in properties {
        if let ContextProperty::Topology(triples) = property {
            return triples.as_slice();
        }
    }
    &[]
}

/// Applies the triples of an action's topology to its context. Returns the context's number.
fn apply_topology(
    engine: &mut Engine,
    source: &[u8],
    properties: &[ContextProperty],
    progress: Progress,
) -> Result<u32, ErrorNumber>
    requires few { length (unwrap_or (first_of triples_in properties.now) []) ≤ triple_limit }
    ensures represents { (w : Gateway) → StandsFor engine.old w →
        IsOutcome engine.new result (apply_triples w progress.target
        (triples_of source.now progress.made properties.now)) }
    ensures refused { OnErr result (engine.new ≡ engine.old) }
    ensures work { engine.new.sums.work ≡ engine.old.sums.work }
{
    let triples = topology_in(properties);
    if triples.is_empty() {
        return engine.topology_context(progress.target);
    }
    if triples.len() <= FEW_TRIPLES {
        let by_number = triples_of::<FEW_TRIPLES>(source, progress.made, triples);
        return engine.apply_triples(progress.target, by_number.as_slice());
    }
    let by_number = triples_of::<TRIPLES>(source, progress.made, triples);
    engine.apply_triples(progress.target, by_number.as_slice())
}

/// Answers the action's ContextAudit, if it has one.
fn answer_audit(engine: &Engine, properties: &[ContextProperty], context: u32, reply: &mut Reply)
    ensures value { (w : Gateway) → StandsFor engine.now w →
        reply.new ≡ after_all reply.old (audit_items properties.now w context) }
{
    if has_context_audit(properties) {
        let members = named_members(engine.seated(context).as_slice());
        put_pairs(engine, members.as_slice(), reply);
    }
}

/// Applies an action's triples, and then answers its audit. If the triples can't be applied, reports the error instead,
/// and returns false.
pub fn try_properties(
    engine: &mut Engine,
    source: &[u8],
    properties: &[ContextProperty],
    progress: Progress,
    reply: &mut Reply,
) -> bool
    requires few { length (unwrap_or (first_of triples_in properties.now) []) ≤ triple_limit }
    ensures represents { (w : Gateway) → StandsFor engine.old w → ReportsProperties engine.new reply.old reply.new result w
        (context_outcome source.now progress.made properties.now w progress.target) }
    ensures work { engine.new.sums.work ≡ engine.old.sums.work }
{
    if properties.is_empty() {
        return true;
    }
    match apply_topology(engine, source, properties, progress) {
        Ok(context) => {
            answer_audit(engine, properties, context, reply);
            true
        }
        Err(number) => {
            reply.put(Item::Fault(number));
            false
        }
    }
}
