//! Checks for which an action is rejected as a whole, before its commands are tried.

ghost use Rattle.std.specs.Prelude.{◌≡◌, [], not};
ghost use Rattle.std.specs.List.{list_any};
ghost use Rattle.mg_commands.specs.ContextProperties.{is_topology, is_context_audit, is_topology_word, context_property_fault, is_all, action_fault};
ghost use Rattle.mg_commands.specs.Search.{first_after};
ghost use Rattle.mg_commands.specs.aids.Properties.{audit_fault};

use mg_text::{Action, ContextId, ContextProperty, ContextWord, ErrorNumber};

/// Returns whether the properties include a Topology.
fn has_topology(properties: &[ContextProperty]) -> bool
    ensures value { result ≡ list_any is_topology properties.now }
{
    properties.iter().any(|property| matches!(property, ContextProperty::Topology(_)))
}

/// Returns whether the properties include a ContextAudit.
pub fn has_context_audit(properties: &[ContextProperty]) -> bool
    ensures value { result ≡ list_any is_context_audit properties.now }
{
    properties.iter().any(|property| matches!(property, ContextProperty::ContextAudit(_)))
}

/// Returns whether an audit asks for more than the topology.
fn audits_more(words: &[ContextWord]) -> bool
    ensures value { result ≡ list_any (λ w. not (is_topology_word w)) words.now }
{
    words
        .iter()
        .any(|word| !matches!(word, ContextWord::Topology))
}

/// Returns the error in a ContextAudit, if any, given the properties before it.
fn audit_fault(before: &[ContextProperty], words: &[ContextWord]) -> Option<ErrorNumber>
    ensures value { result ≡ audit_fault before.now words.now }
{
    if has_context_audit(before) {
        return Some(ErrorNumber::DescriptorTwice);
    }
    audits_more(words).then_some(ErrorNumber::DescriptorNotServed)
}

/// Returns the error for a property, given the properties before it, or `None` if it is supported and not repeated.
fn context_property_fault(
    before: &[ContextProperty],
    property: &ContextProperty,
) -> Option<ErrorNumber>
    ensures value { result ≡ context_property_fault before.now property.now }
{
    match property {
        ContextProperty::Topology(_) => {
            has_topology(before).then_some(ErrorNumber::DescriptorTwice)
        }
        ContextProperty::ContextAudit(words) => audit_fault(before, words.as_slice()),
        ContextProperty::Priority(_) | ContextProperty::Emergency(_) => {
            Some(ErrorNumber::DescriptorNotServed)
        }
    }
}

/// Returns the first error in the properties, in text order, or `None` if there is no error.
#[tactic(auto, using(crate::proofs::FaultSteps::walking))]
fn context_properties_fault(properties: &[ContextProperty]) -> Option<ErrorNumber>
    ensures value { result ≡ first_after context_property_fault [] properties.now }
{
    for (i, property) in properties.iter().enumerate() {
        let (before, _) = properties.split_at(i);
        if let Some(fault) = context_property_fault(before, property) {
            return Some(fault);
        }
    }
    None
}

/// Returns the error with which an action is rejected as a whole, or `None` if it isn't rejected.
pub fn action_fault(action: &Action) -> Option<ErrorNumber>
    ensures value { result ≡ action_fault action.now }
{
    if matches!(action.context, ContextId::All) {
        return Some(ErrorNumber::NotServed);
    }
    context_properties_fault(action.properties.as_slice())
}
