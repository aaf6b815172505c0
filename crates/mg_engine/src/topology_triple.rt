use crate::triple_term::TripleTerm;
use arrayvec::ArrayVec;
use mg_words::Association;

/// The maximum number of triples in an edit. A control datagram cannot hold more, as `read` in `mg_text` ensures.
pub const TRIPLES: usize = 1200;

/// Most edits have at most this many triples. Such edits take less time, because they don't need a large array.
pub const FEW_TRIPLES: usize = 16;

/// Who hears whom among the members that two terms match (RFC 3525, section 7.1.18).
#[derive(Clone, Copy, Debug, PartialEq, Eq)]
pub struct TopologyTriple {
    /// The talkers of a Oneway triple.
    pub first: TripleTerm,
    /// The listeners of a Oneway triple.
    pub second: TripleTerm,
    /// Whether the listeners hear the talkers, both hear each other, or neither does.
    pub association: Association,
}

/// The default is a triple that is not allowed, so an edit that contains it fails.
impl Default for TopologyTriple {
    ghost use Rattle.std.specs.Prelude.{◌≡◌};
    ghost use Rattle.mg_engine.specs.aids.Triples.{barred_triple};

    ghost is_default = { λ triple. triple ≡ barred_triple };

    fn default() -> Self {
        TopologyTriple {
            first: TripleTerm::Barred,
            second: TripleTerm::Barred,
            association: Association::Isolate,
        }
    }
}

/// The triples of one edit, in order.
pub type TopologyTriples = ArrayVec<TopologyTriple, TRIPLES>;
