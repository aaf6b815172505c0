//! Properties of session descriptions.
//!
//! The functions do nothing: their contracts are the theorems. A proof that needs a theorem for particular
//! values calls its function.

ghost use Rattle.std.specs.Prelude.{◌≡◌, ◌≢◌, ℕ, List, [], ◌∷◌, Ok, Some};
ghost use Rattle.mg_sdp.specs.Alternatives.{AreAlternatives};
ghost use Rattle.mg_sdp.specs.Sessions.{sessions_of};
ghost use Rattle.mg_sdp.specs.Choice.{local_choice, remote_choice};
ghost use Rattle.mg_sdp.specs.Written.{offer_written, session_text};

use crate::chosen::Chosen;

/// Lines divide into alternatives in exactly one way.
pub fn alternatives_are_distinguished()
    ensures one { (lines : List (List ℕ)) (one other : List (List (List ℕ))) → AreAlternatives lines one
        → AreAlternatives lines other → one ≡ other }
{}

/// A written description reads back as one alternative. That alternative is then chosen: in a Local, given the same
/// address and port; in a Remote, unless the port is 0.
pub fn written_text_reads_back(chosen: &Chosen)
    ensures read { sessions_of (session_text chosen.now) ≡ Ok (Some (offer_written chosen.now) ∷ []) }
    ensures local { local_choice chosen.now.address chosen.now.port (Some (offer_written chosen.now) ∷ [])
        ≡ Some chosen.now }
    ensures remote { chosen.now.port ≢ 0 → remote_choice (Some (offer_written chosen.now) ∷ [])
        ≡ Some chosen.now }
{
    // A proof knows the range of these numbers only after the code has read them.
    let [_a, _b, _c, _d] = chosen.address;
    let _port = chosen.port;
}
