ghost use Rattle.std.specs.Prelude.{◌≡◌, length};
ghost use Rattle.mg_text.specs.aids.Reading.{Agrees};
ghost use Rattle.mg_text.specs.aids.Requests.{parts_at, action_at};

use crate::command::Command;
use crate::context_properties::{begins_property, property_at};
use crate::context_property::ContextProperty;
use crate::fault::ReadFault;
use crate::from_word::meaning_at;
use crate::keyword::Keyword;
use crate::lists::{FromTokens, items_at};
use crate::marks::{mark_at, named_at, place_of};
use crate::request::Action;
use crate::tree_list::TreeList;
use mg_scan::{Token, TokenKind, after_mark};
use mg_words::ContextId;
use std::alloc::Global;

/// The properties and the commands of an action.
#[derive(Drop)]
pub struct ActionParts {
    pub properties: TreeList<ContextProperty>,
    pub commands: TreeList<Command>,
}

/// Parses properties and then commands, up to their closing brace.
fn parts_at<'t>(
    alloc: Global,
    source: &[u8],
    tokens: &'t [Token],
) -> Result<(ActionParts, &'t [Token]), ReadFault>
    ensures { Agrees (λ x. (x.0, x.1.now)) result (parts_at source.now (length tokens.now) tokens.now) }
{
    let mut properties = Vec::new(alloc);
    let mut rest = tokens;
    for _ in 0..tokens.len() {
        if !begins_property(source, rest) {
            let (commands, rest) = items_at::<Command>(alloc, source, rest)?;
            let properties = TreeList::new(properties);
            return Ok((
                ActionParts {
                    properties,
                    commands,
                },
                rest,
            ));
        }
        let (property, after) = property_at(alloc, source, rest)?;
        properties.push(property)?;
        let Some(next) = after_mark(TokenKind::Comma, after) else {
            let rest = mark_at(source, TokenKind::Close, after)?;
            let properties = TreeList::new(properties);
            let commands = TreeList::new(Vec::new(alloc));
            return Ok((
                ActionParts {
                    properties,
                    commands,
                },
                rest,
            ));
        };
        rest = next;
    }
    Err(ReadFault::Syntax(place_of(source, rest)))
}

/// Parses an action.
impl FromTokens for Action {
    ghost reading = { action_at };

    #[tactic(auto, unfolding(crate::specs::aids::Requests::action_at))]
    fn from_tokens<'t>(
        alloc: Global,
        source: &[u8],
        tokens: &'t [Token],
    ) -> Result<(Action, &'t [Token]), ReadFault> {
        let rest = named_at(source, Keyword::Context, tokens)?;
        let rest = mark_at(source, TokenKind::Equals, rest)?;
        let (context, rest) = meaning_at::<ContextId>(source, rest)?;
        let rest = mark_at(source, TokenKind::Open, rest)?;
        let (parts, rest) = parts_at(alloc, source, rest)?;
        let action = Action {
            context,
            properties: parts.properties,
            commands: parts.commands,
        };
        Ok((action, rest))
    }
}
