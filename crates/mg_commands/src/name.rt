ghost use Rattle.std.specs.Prelude.{◌≡◌, true};
ghost use Rattle.mg_words.specs.Term.{is_term};
ghost use Rattle.mg_commands.specs.Name.{name_in_rtp, name_of, written_as, written_name};

use mg_text::Term;
use mg_words::{after_prefix, number_of};

/// The meaning of a termination's name (RFC 3525, section 6.2), ignoring case.
#[derive(Clone, Copy)]
pub enum Name {
    /// `ROOT`: the gateway as a whole.
    Root,
    /// `$` or `RTP/$`: a new termination, which the gateway creates.
    Choose,
    /// `*` or `RTP/*`: all terminations of the context.
    All,
    /// `RTP/` and a number of at least 1 without a leading zero: the termination with this number.
    Number(u32),
    /// Any other name. No termination has this name.
    Other,
}

/// Parses the part of a name that follows `RTP/`.
#[tactic(auto, unfolding(crate::specs::Name::name_in_rtp))]
fn name_in_rtp(text: &[u8]) -> Name
    ensures value { result ≡ name_in_rtp text.now }
{
    match text {
        b"$" => Name::Choose,
        b"*" => Name::All,
        [b'0', ..] => Name::Other,
        _ => match number_of(text) {
            Some(number) => Name::Number(number),
            None => Name::Other,
        },
    }
}

/// Parses the name of a termination.
#[tactic(auto, unfolding(crate::specs::Name::name_of))]
pub fn name_of(text: &[u8]) -> Name
    ensures value { result ≡ name_of text.now }
{
    if text.eq_ignore_ascii_case(b"ROOT") {
        return Name::Root;
    }
    match text {
        b"$" => Name::Choose,
        b"*" => Name::All,
        _ => match after_prefix(b"RTP/", text) {
            Some(rest) => name_in_rtp(rest),
            None => Name::Other,
        },
    }
}

/// Returns the spelling of a name in a reply: the gateway's own spelling if the name has a meaning, otherwise the name
/// as received.
pub fn written_as(text: &[u8], name: Name) -> Term
    requires term { is_term text.now ≡ true }
    ensures value { result ≡ written_as text.now name }
{
    match name {
        Name::Root => Term::root(),
        Name::Choose => Term::choose(),
        Name::All => Term::all(),
        Name::Number(number) => Term::rtp(number),
        Name::Other => Term::new(text).unwrap(),
    }
}

/// Returns the spelling of a name in a reply.
///
/// A name that means `RTP/n`, `ROOT`, `$` or `*` is written in that form; any other name is written as received.
#[tactic(auto, unfolding(crate::specs::Name::written_name))]
pub fn written_name(text: &[u8]) -> Term
    requires term { is_term text.now ≡ true }
    ensures value { result ≡ written_name text.now }
{
    written_as(text, name_of(text))
}
