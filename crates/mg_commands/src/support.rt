//! The commands, descriptors and properties that this gateway supports.

ghost use Rattle.std.specs.Prelude.{◌≡◌};
ghost use Rattle.mg_commands.specs.Support.{is_served_word, takes_all, is_unserved, is_jitter, jitter_of, control_fault, property_fault};

use crate::part::Part;
use mg_scan::Span;
use mg_text::{CommandWord, ControlPart, ErrorNumber, PropertyValue};
use mg_words::uint16_of;

/// Returns whether a command is supported.
pub fn is_served_word(word: CommandWord) -> bool
    ensures value { result ≡ is_served_word word }
{
    match word {
        CommandWord::Add
        | CommandWord::Modify
        | CommandWord::Move
        | CommandWord::Subtract
        | CommandWord::AuditValue => true,
        CommandWord::AuditCapability | CommandWord::Notify | CommandWord::ServiceChange => false,
    }
}

/// Returns whether a command may name all members of its context.
pub fn takes_all(word: CommandWord) -> bool
    ensures value { result ≡ takes_all word }
{
    match word {
        CommandWord::Modify | CommandWord::Subtract | CommandWord::AuditValue => true,
        CommandWord::Add
        | CommandWord::Move
        | CommandWord::AuditCapability
        | CommandWord::Notify
        | CommandWord::ServiceChange => false,
    }
}

/// Returns whether a part is a descriptor with content that is supported only without content.
pub fn is_unserved(part: Part) -> bool
    ensures value { result ≡ is_unserved part }
{
    matches!(part, Part::Other(_, true) | Part::TerminationState(true))
}

/// Returns whether a property is `nt/jit`, the only supported property. Case is ignored.
#[tactic(auto, unfolding(crate::specs::Support::is_jitter))]
pub fn is_jitter(source: &[u8], name: Span) -> bool
    ensures value { result ≡ is_jitter source.now name }
{
    name.text(source).eq_ignore_ascii_case(b"nt/jit")
}

/// Parses the value of `nt/jit`, in milliseconds: a number of one to five digits, at most 65535. Returns `None` if the
/// value is anything else.
pub fn jitter_of(source: &[u8], value: Option<PropertyValue>) -> Option<u16>
    ensures value { result ≡ jitter_of source.now value }
{
    match value {
        Some(PropertyValue::Word(word)) => uint16_of(word.text(source)),
        Some(PropertyValue::Quoted(_) | PropertyValue::Group) | None => None,
    }
}

/// Returns the fault in a part of a LocalControl, if any: a reservation that is on, an unsupported property, or a value
/// that is not allowed.
fn control_fault(source: &[u8], part: &ControlPart) -> Option<ErrorNumber>
    ensures value { result ≡ control_fault source.now part.now }
{
    match part {
        ControlPart::Mode(_) => None,
        ControlPart::ReservedValue(is_on) | ControlPart::ReservedGroup(is_on) => {
            is_on.then_some(ErrorNumber::NotServed)
        }
        ControlPart::Property(name, value) => {
            if is_jitter(source, *name) && jitter_of(source, *value).is_some() {
                None
            } else {
                Some(ErrorNumber::PropertyNotServed)
            }
        }
    }
}

/// Returns the fault in a part, if any. A stream other than 1 is a fault.
pub fn property_fault(source: &[u8], part: Part) -> Option<ErrorNumber>
    ensures value { result ≡ property_fault source.now part }
{
    match part {
        Part::Stream(1) => None,
        Part::Stream(_) => Some(ErrorNumber::NotServed),
        Part::Control(_, control) => control_fault(source, &control),
        _ => None,
    }
}
