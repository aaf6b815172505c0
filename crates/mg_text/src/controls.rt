ghost use Rattle.std.specs.Prelude.{◌≡◌};
ghost use Rattle.mg_text.specs.aids.Reading.{Agrees};
ghost use Rattle.mg_text.specs.Grammar.{has_slash};
ghost use Rattle.mg_text.specs.aids.Media.{value_at, optional_value_at, switched_at, mode_part_at, package_part_at, control_at};
ghost use Rattle.mg_text.specs.declared.media.ControlPart.TheVariants as controls;

use crate::fault::ReadFault;
use crate::from_word::meaning_at;
use crate::group::after_group;
use crate::keyword::{Keyword, keyword_of};
use crate::lists::FromTokens;
use crate::marks::{mark_at, word_at};
use crate::media::{ControlPart, PropertyValue};
use mg_scan::{Span, Token, TokenKind, after_mark};
use mg_words::Mode;
use std::alloc::Global;

/// Parses the value of a package's property.
#[tactic(auto, unfolding(crate::specs::aids::Media::value_at))]
fn value_at<'t>(
    source: &[u8],
    tokens: &'t [Token],
) -> Result<(PropertyValue, &'t [Token]), ReadFault>
    ensures { Agrees (λ x. (x.0, x.1.now)) result (value_at source.now tokens.now) }
{
    match tokens {
        [] => Err(ReadFault::Syntax(source.len())),
        [first, rest @ ..] => match first.kind {
            TokenKind::Word => Ok((PropertyValue::Word(first.span), rest)),
            TokenKind::Quoted => Ok((PropertyValue::Quoted(first.span), rest)),
            TokenKind::Open => {
                let rest = after_group(source, rest)?;
                Ok((PropertyValue::Group, rest))
            }
            _ => Err(ReadFault::Syntax(first.span.start)),
        },
    }
}

/// Parses the optional value of a package's property: an equals sign and the value.
#[tactic(auto, unfolding(crate::specs::aids::Media::optional_value_at))]
fn optional_value_at<'t>(
    source: &[u8],
    tokens: &'t [Token],
) -> Result<(Option<PropertyValue>, &'t [Token]), ReadFault>
    ensures { Agrees (λ x. (x.0, x.1.now)) result (optional_value_at source.now tokens.now) }
{
    let Some(rest) = after_mark(TokenKind::Equals, tokens) else {
        return Ok((None, tokens));
    };
    let (value, rest) = value_at(source, rest)?;
    Ok((Some(value), rest))
}

/// Returns whether a word has a slash, as the name of a package's property does.
fn has_slash(text: &[u8]) -> bool
    ensures value { result ≡ has_slash text.now }
{
    text.contains(&b'/')
}

/// Parses a mode after its keyword.
#[tactic(auto, unfolding(crate::specs::aids::Media::mode_part_at))]
fn mode_part_at<'t>(
    source: &[u8],
    tokens: &'t [Token],
) -> Result<(ControlPart, &'t [Token]), ReadFault>
    ensures { Agrees (λ x. (x.0, x.1.now)) result (mode_part_at source.now tokens.now) }
{
    let rest = mark_at(source, TokenKind::Equals, tokens)?;
    let (mode, rest) = meaning_at::<Mode>(source, rest)?;
    Ok((ControlPart::Mode(mode), rest))
}

/// Parses a ReservedValue after its keyword.
#[tactic(auto, unfolding(crate::specs::aids::Media::switched_at))]
fn value_part_at<'t>(
    source: &[u8],
    tokens: &'t [Token],
) -> Result<(ControlPart, &'t [Token]), ReadFault>
    ensures { Agrees (λ x. (x.0, x.1.now)) result (switched_at source.now controls.ReservedValue tokens.now) }
{
    let rest = mark_at(source, TokenKind::Equals, tokens)?;
    let (is_on, rest) = meaning_at::<bool>(source, rest)?;
    Ok((ControlPart::ReservedValue(is_on), rest))
}

/// Parses a ReservedGroup after its keyword.
#[tactic(auto, unfolding(crate::specs::aids::Media::switched_at))]
fn group_part_at<'t>(
    source: &[u8],
    tokens: &'t [Token],
) -> Result<(ControlPart, &'t [Token]), ReadFault>
    ensures { Agrees (λ x. (x.0, x.1.now)) result (switched_at source.now controls.ReservedGroup tokens.now) }
{
    let rest = mark_at(source, TokenKind::Equals, tokens)?;
    let (is_on, rest) = meaning_at::<bool>(source, rest)?;
    Ok((ControlPart::ReservedGroup(is_on), rest))
}

/// Parses a package's property after its name.
#[tactic(auto, unfolding(crate::specs::aids::Media::package_part_at))]
fn package_part_at<'t>(
    source: &[u8],
    name: Span,
    tokens: &'t [Token],
) -> Result<(ControlPart, &'t [Token]), ReadFault>
    ensures { Agrees (λ x. (x.0, x.1.now)) result (package_part_at source.now name tokens.now) }
{
    if !has_slash(name.text(source)) {
        return Err(ReadFault::Syntax(name.start));
    }
    let (value, rest) = optional_value_at(source, tokens)?;
    Ok((ControlPart::Property(name, value), rest))
}

/// Parses a part of a LocalControl.
impl FromTokens for ControlPart {
    ghost reading = { control_at };

    #[tactic(auto, unfolding(crate::specs::aids::Media::control_at))]
    fn from_tokens<'t>(
        alloc: Global,
        source: &[u8],
        tokens: &'t [Token],
    ) -> Result<(ControlPart, &'t [Token]), ReadFault> {
        let _ = alloc;
        let (name, rest) = word_at(source, tokens)?;
        match keyword_of(name.text(source)) {
            Some(Keyword::Mode) => mode_part_at(source, rest),
            Some(Keyword::ReservedValue) => value_part_at(source, rest),
            Some(Keyword::ReservedGroup) => group_part_at(source, rest),
            _ => package_part_at(source, name, rest),
        }
    }
}
