ghost use Rattle.std.specs.Prelude.{◌≡◌, [], ◌∷◌, map};
ghost use Rattle.mg_commands.specs.declared.part.Part.TheVariants.{Audited, Control};
ghost use Rattle.mg_commands.specs.DescriptorFault.{fault_of};
ghost use Rattle.mg_commands.specs.aids.Findings.{nothing_found, with_part, with_parts, Reads};

use crate::command_parameters::CommandParameters;
use crate::part::Part;
use crate::support::{is_unserved, property_fault};
use mg_text::{AuditWord, ControlPart, ErrorNumber};

/// The findings so far of the walk over a command's descriptors.
#[derive(Drop)]
pub struct Findings {
    /// The command's parameters, up to the fault.
    pub parameters: CommandParameters,
    /// The first fault in a stream's number or in a LocalControl, if any. A faulty descriptor outranks this fault, even
    /// if the descriptor comes later.
    pub fault: Option<ErrorNumber>,
}

/// Returns the fault in a part, if any: a repeated word, or unsupported content.
fn fault_of(appeared: bool, part: Part) -> Option<ErrorNumber>
    ensures value { result ≡ fault_of appeared part }
{
    if appeared {
        return Some(ErrorNumber::DescriptorTwice);
    }
    is_unserved(part).then_some(ErrorNumber::DescriptorNotServed)
}

impl Findings {
    /// Returns the findings for a command without descriptors.
    pub fn nothing() -> Findings
        ensures value { result ≡ nothing_found }
    {
        Findings {
            parameters: CommandParameters::no_parameters(),
            fault: None,
        }
    }

    /// Adds a part, unless a fault was found.
    pub fn add(&mut self, source: &[u8], part: Part)
        ensures value { self.new ≡ with_part source.now self.old part }
    {
        if self.fault.is_none() {
            self.fault = property_fault(source, part);
            self.parameters.take(source, part);
        }
    }

    /// Adds a part as `add` does, unless it is faulty: it repeats a word, or its content is unsupported. Returns this
    /// fault, if any.
    pub fn add_sound(&mut self, source: &[u8], appeared: bool, part: Part) -> Option<ErrorNumber>
        ensures reads { Reads source.now (fault_of appeared part) (part ∷ []) self.old self.new result }
    {
        let fault = fault_of(appeared, part);
        if fault.is_none() {
            self.add(source, part);
        }
        fault
    }

    /// Adds a part of a LocalControl as `add` does, unless it repeats a word. Returns the error if it does.
    ///
    /// A message can contain thousands of properties, so a part that follows a fault is not even copied.
    pub fn add_control(
        &mut self,
        source: &[u8],
        stream: u32,
        appeared: bool,
        part: &ControlPart,
    ) -> Option<ErrorNumber>
        ensures reads { Reads source.now (fault_of appeared (Control stream part.now)) (Control stream part.now ∷ [])
            self.old self.new result }
    {
        if appeared {
            return Some(ErrorNumber::DescriptorTwice);
        }
        if self.fault.is_none() {
            self.add(source, Part::Control(stream, *part));
        }
        None
    }

    /// Adds the words of an Audit descriptor.
    pub fn add_words(&mut self, source: &[u8], words: &[AuditWord])
        ensures value { self.new ≡ with_parts source.now self.old (map Audited words.now) }
    {
        for word in words {
            self.add(source, Part::Audited(*word));
        }
    }
}
