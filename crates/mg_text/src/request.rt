use crate::command::Command;
use crate::context_property::ContextProperty;
use crate::tree_list::TreeList;
use mg_words::ContextId;

/// An action: the context that it names, its properties, and then its commands. There is at least one property or
/// command.
#[derive(Drop)]
pub struct Action {
    pub context: ContextId,
    pub properties: TreeList<ContextProperty>,
    pub commands: TreeList<Command>,
}

/// A transaction request: its number and its actions, in order.
#[derive(Drop)]
pub struct Request {
    pub number: u32,
    pub actions: TreeList<Action>,
}
