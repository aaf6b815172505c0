ghost use Rattle.std.specs.Prelude.{◌≡◌, ◌≢◌, ◌<◌, ◌≤◌, ◌⊎◌, ℕ, List, length, true, IfOk, Ok, Err};
ghost use Rattle.mg_words.specs.Limits.{message_limit, request_limit, command_limit, sender_limit};
ghost use Rattle.mg_scan.specs.Span.{text_of};
ghost use Rattle.mg_text.specs.declared.message.Message.{Message};
ghost use Rattle.mg_text.specs.aids.Reading.{Agrees};
ghost use Rattle.mg_text.specs.aids.Text.{version_at, sender_at, text_at, left_after, is_within, fault_within, answer_of, AgreesVersioned};
ghost use Rattle.mg_text.specs.Proper.{are_proper};
ghost use Rattle.mg_text.specs.Message.{IsTree, IsMessage, ExceedsLimits, IsTooMany, HasOtherVersion, items_of};
ghost use Rattle.mg_text.specs.Message.{action_commands};

use crate::body::{Body, MessageItem};
use crate::fault::ReadFault;
use crate::from_word::meaning_at;
use crate::marks::word_at;
use crate::message::Message;
use crate::request::Action;
use crate::scanning::tokens_of;
use crate::sender::is_sender;
use crate::sequence::body_at;
use mg_scan::{Span, Token};
use mg_words::{COMMAND_LIMIT, MESSAGE_LIMIT, REQUEST_LIMIT};
use std::alloc::Global;

/// Parses the sender's name.
#[tactic(auto, unfolding(crate::specs::aids::Text::sender_at))]
fn sender_at<'t>(source: &[u8], tokens: &'t [Token]) -> Result<(Span, &'t [Token]), ReadFault>
    ensures { Agrees (λ x. (x.0, x.1.now)) result (sender_at source.now tokens.now) }
{
    let (word, rest) = word_at(source, tokens)?;
    if is_sender(word.text(source)) {
        Ok((word, rest))
    } else {
        Err(ReadFault::Syntax(word.start))
    }
}

/// Parses a message after its head, up to the end of the tokens.
#[tactic(auto, unfolding(crate::specs::aids::Text::text_at))]
fn text_at(alloc: Global, source: &[u8], tokens: &[Token]) -> Result<Message, ReadFault>
    ensures { Agrees (λ x. x) result (text_at source.now tokens.now) }
{
    let (sender, rest) = sender_at(source, tokens)?;
    let body = body_at(alloc, source, rest)?;
    Ok(Message { sender, body })
}

/// Clamps the position of a fault to a source of this length.
fn within(fault: ReadFault, len: usize) -> ReadFault
    ensures value { result ≡ fault_within len fault }
{
    match fault {
        ReadFault::Syntax(place) => ReadFault::Syntax(place.min(len)),
        _ => fault,
    }
}

/// Parses the head of a message and, if its version is 1 and the tokens have no fault, the rest.
fn versioned(
    alloc: Global,
    source: &[u8],
    tokens: &[Token],
    faulty: bool,
) -> Result<Message, ReadFault>
    ensures { AgreesVersioned result (version_at source.now tokens.now) faulty (λ rest. text_at source.now rest) }
{
    let (version, rest) = meaning_at::<u8>(source, tokens)?;
    if version != 1 {
        return Err(ReadFault::Version(version));
    }
    if faulty {
        return Err(ReadFault::Syntax(source.len()));
    }
    text_at(alloc, source, rest)
}

/// Returns `most` minus the number of commands in the actions, or `None` if the actions have more than `most` commands.
#[tactic(auto, using(crate::proofs::CountSteps::action_steps))]
fn left_after(most: usize, actions: &[Action]) -> Option<usize>
    ensures value { result ≡ left_after most (action_commands actions.now) }
{
    let mut left = most;
    for action in actions {
        let count = action.commands.as_slice().len();
        if count > left {
            return None;
        }
        left -= count;
    }
    Some(left)
}

/// Returns whether there are at most 4 requests among the items, with at most 64 commands in total.
#[tactic(auto, using(crate::proofs::CountSteps::item_steps))]
fn is_within(items: &[MessageItem]) -> bool
    ensures value { result ≡ is_within request_limit command_limit items.now }
{
    let mut requests = REQUEST_LIMIT;
    let mut commands = COMMAND_LIMIT;
    for item in items {
        match item {
            MessageItem::Request(request) => {
                if requests == 0 {
                    return false;
                }
                requests -= 1;
                match left_after(commands, request.actions.as_slice()) {
                    Some(left) => commands = left,
                    None => return false,
                }
            }
            MessageItem::Acknowledgement(_) => {}
        }
    }
    true
}

/// Returns whether a body is within the limits of a message.
fn is_served(body: &Body) -> bool
    ensures value { result ≡ is_within request_limit command_limit (items_of body.now) }
{
    match body {
        Body::Requests(items) => is_within(items.as_slice()),
        Body::Ignored => true,
    }
}

/// Checks the limits of a message, and clamps the position of a fault to a source of this length.
fn answered(message: Result<Message, ReadFault>, len: usize) -> Result<Message, ReadFault>
    ensures value { result ≡ answer_of len message }
{
    match message {
        Ok(message) => {
            if is_served(&message.body) {
                Ok(message)
            } else {
                Err(ReadFault::TooMany)
            }
        }
        Err(fault) => Err(within(fault, len)),
    }
}

/// Parses a datagram as a message. Allocates memory for the tokens and the tree, and returns `NoMemory` if an
/// allocation fails.
///
/// Returns `TooMany` for a datagram of more than 8192 bytes. Otherwise returns `Version` if the head has a version
/// other than 1, whatever follows the head. Returns `Syntax` for anything else that does not follow the grammar.
/// Returns `TooMany` for a message with more than 4 requests, or with more than 64 commands in total.
pub fn read(alloc: Global, source: &[u8]) -> Result<Message, ReadFault>
    // A result without a fault is a message with its tree.
    ensures found { IfOk result (λ m. IsMessage source.now m) }
    ensures proper { IfOk result (λ m. are_proper source.now (items_of m.body) ≡ true) }
    ensures sender { IfOk result (λ m. length (text_of source.now m.sender) ≤ sender_limit) }
    // Every message is read, unless memory runs out.
    ensures only { (m : Message) → IsMessage source.now m → (result ≡ Err ReadFault.NoMemory) ⊎ (result ≡ Ok m) }

    // The conditions for each fault, and the order of the faults.
    ensures long { message_limit < length source.now → result ≡ Err ReadFault.TooMany }
    ensures many { (m : Message) → IsTree source.now m → ExceedsLimits m →
        (result ≡ Err ReadFault.NoMemory) ⊎ (result ≡ Err ReadFault.TooMany) }
    ensures long_only { result ≡ Err ReadFault.TooMany → IsTooMany source.now }
    ensures version { (n : ℕ) → HasOtherVersion source.now n →
        (result ≡ Err ReadFault.NoMemory) ⊎ (result ≡ Err (ReadFault.Version n)) }
    ensures version_only { (n : ℕ) → result ≡ Err (ReadFault.Version n) → HasOtherVersion source.now n }
    ensures syntax { (place : ℕ) → result ≡ Err (ReadFault.Syntax place) → (m : Message) → ¬ IsTree source.now m }
    ensures place { (place : ℕ) → result ≡ Err (ReadFault.Syntax place) → place ≤ length source.now }
{
    if source.len() > MESSAGE_LIMIT {
        return Err(ReadFault::TooMany);
    }
    let (tokens, fault) = tokens_of(alloc, source)?;
    let message = versioned(alloc, source, tokens.as_slice(), fault.is_some());
    answered(message, source.len())
}
