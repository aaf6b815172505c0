use crate::request::Request;
use crate::tree_list::TreeList;

/// Transaction numbers from `first` to `last`, inclusive. For a single number, the two are equal.
#[derive(Clone, Copy, Debug, PartialEq, Eq)]
pub struct Range {
    pub first: u32,
    pub last: u32,
}

/// A message item that the gateway acts on.
#[derive(Drop)]
pub enum MessageItem {
    Request(Request),
    /// The sender has received the replies to these transactions.
    Acknowledgement(TreeList<Range>),
}

/// The part of a message after its head and sender.
#[derive(Drop)]
pub enum Body {
    /// Items to act on, in order, without Replies and Pending items.
    Requests(TreeList<MessageItem>),
    /// Nothing to act on: an Error body, or only Reply and Pending items.
    Ignored,
}
