ghost use Rattle.std.specs.Prelude.{◌≡◌, ◌↔◌, true, IsTrue, IsSome, IfSome, codes};
ghost use Rattle.std.specs.List.{list_all};
ghost use Rattle.mg_words.specs.WordByte.{is_word_byte};
ghost use Rattle.mg_words.specs.Term.{is_term, rtp_name};

use crate::limits::NAME_LIMIT;
use crate::word_byte::is_word_byte;
use arrayvec::ArrayVec;
use itoa::Buffer;
use std::marker::Model;

/// The name of a termination: a word of 1 to 64 bytes. In contracts, it appears as a list of bytes.
#[derive(Drop)]
pub struct Term {
    bytes: ArrayVec<u8, NAME_LIMIT>,
}

impl Model for Term {
    ghost use Rattle.std.specs.Prelude.{List, ℕ, ◌≡◌, true};
    ghost use Rattle.mg_words.specs.Term.{is_term};

    ghost Value = { List ℕ };

    ghost view = { λ t. t.bytes.items };

    ghost invariant = { λ t. is_term t.bytes.items ≡ true };
}

/// Returns whether each byte is allowed in a word.
fn all_word_bytes(text: &[u8]) -> bool
    ensures value { result ≡ list_all is_word_byte text.now }
{
    text.iter().all(|b| is_word_byte(*b))
}

/// Returns whether a string is a valid termination name: a word of 1 to 64 bytes.
pub fn is_term(text: &[u8]) -> bool
    ensures value { result ≡ is_term text.now }
{
    !text.is_empty() && text.len() <= NAME_LIMIT && all_word_bytes(text)
}

impl Term {
    /// Parses a name. Returns `None` if the text is not a word of 1 to 64 bytes.
    pub fn new(text: &[u8]) -> Option<Self>
        ensures value { IfSome result (λ term. term ≡ text.now) }
        ensures found { IsSome result ↔ (is_term text.now ≡ true) }
    {
        if !is_term(text) {
            return None;
        }
        let mut bytes = ArrayVec::new();
        match bytes.try_extend_from_slice(text) {
            Ok(()) => Some(Term { bytes }),
            Err(_) => None,
        }
    }

    /// Returns `ROOT`, the name of the gateway as a whole.
    pub fn root() -> Self
        ensures value { result ≡ codes "ROOT" }
    {
        Term::new(b"ROOT").unwrap()
    }

    /// Returns `$`, which an Add uses to request a new termination.
    pub fn choose() -> Self
        ensures value { result ≡ codes "$" }
    {
        Term::new(b"$").unwrap()
    }

    /// Returns `*`, which a command uses to name all terminations of a context.
    pub fn all() -> Self
        ensures value { result ≡ codes "*" }
    {
        Term::new(b"*").unwrap()
    }

    /// Returns the name of the termination with this number: `RTP/` and the number.
    #[tactic(auto, using(crate::proofs::TermLemmas::names))]
    pub fn rtp(number: u32) -> Self
        ensures value { result ≡ rtp_name number }
    {
        let mut buffer = Buffer::new();
        let mut bytes = ArrayVec::new();
        bytes.try_extend_from_slice(b"RTP/").unwrap();
        bytes
            .try_extend_from_slice(buffer.format(number).as_bytes())
            .unwrap();
        Term { bytes }
    }

    /// Returns the bytes of the name.
    pub fn as_slice(&self) -> &[u8]
        ensures value { result.now ≡ self.now }
    {
        self.bytes.as_slice()
    }
}
