//! The members on which a command for all members (`*`) is tried.

ghost use Rattle.std.specs.Prelude.{◌≡◌, ◌≤◌, Ok, Err, MatchResult, IfOk, length, map, take};
ghost use Rattle.mg_engine.specs.Gateway.{Gateway};
ghost use Rattle.mg_engine.specs.aids.Stands.{StandsFor};
ghost use Rattle.mg_commands.specs.Outcome.{members_in};
ghost use Rattle.mg_commands.specs.aids.Steps.{all_names};

use crate::name::Name;
use crate::support::takes_all;
use mg_engine::{Engine, Target};
use mg_text::{CommandWord, ErrorNumber};
use mg_words::MEMBER_LIMIT;

/// Returns the members of an action's context, in order of entry, or none if the context does not exist.
fn members_in(engine: &Engine, target: Target) -> &[u32]
    ensures value { (w : Gateway) → StandsFor engine.now w → result.now ≡ members_in w target }
    ensures few { length result.now ≤ MEMBER_LIMIT }
{
    match target {
        Target::Null | Target::New => &[],
        Target::Number(context) => engine.rooms().members(context),
    }
}

/// Returns the members on which a command for all members is tried (RFC 3525, section 6.2.2). Fails if the context has
/// no members, or if the command may not name all members.
pub fn all_members(
    engine: &Engine,
    target: Target,
    word: CommandWord,
) -> Result<&[u32], ErrorNumber>
    ensures value { (w : Gateway) → StandsFor engine.now w → MatchResult result
        (λ members. all_names w target word ≡ Ok (map Name.Number members.now))
        (λ e. all_names w target word ≡ Err e) }
    ensures few { IfOk result (λ members. length members.now ≤ MEMBER_LIMIT) }
{
    if !takes_all(word) {
        return Err(ErrorNumber::IdentifierNotAllowed);
    }
    let members = members_in(engine, target);
    if members.is_empty() {
        return Err(ErrorNumber::WildcardMatchedNone);
    }
    Ok(members)
}

/// Copies the members to the front of an array, because a Subtract changes the context's list of members.
pub fn copy_of(members: &[u32]) -> [u32; MEMBER_LIMIT]
    requires few { length members.now ≤ MEMBER_LIMIT }
    ensures front { take (length members.now) result ≡ members.now }
{
    let mut copy = [0; MEMBER_LIMIT];
    copy[..members.len()].copy_from_slice(members);
    copy
}
