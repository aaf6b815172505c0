use crate::name::NameText;

/// The reason why a question can't be asked or a rule can't be checked.
#[derive(Drop)]
pub enum NameFault {
    /// No line of the file of names has this name.
    Unknown(NameText),
    NoMemory,
}
