use crate::name::Name;
use crate::party_name::PartyName;

/// A line of a file of names. It names each termination to which its key applies, unless an earlier line does.
#[derive(Drop)]
pub struct Named {
    pub key: PartyName,
    pub name: Name,
}
