//! Properties of kept replies.
//!
//! The functions do nothing: their contracts are the theorems, in terms of `specs/Theorems.antt`.

ghost use Rattle.mg_kept.specs.KeptReplies.{AreKept};
ghost use Rattle.mg_kept.specs.Theorems.{KeptIsFound, CaseIsIgnored, OthersStay, OnlyOldestIsDropped, OldestIsDropped, AcknowledgedIsDropped, OtherSendersStay, OtherNumbersStay};
ghost use Rattle.mg_kept.specs.aids.Changes.{FewNewerStay, NewerRepliesEvict, LastIsNewest, UnnamedStay, DroppedStayDropped, KeptStayDistinct};

use crate::kept::Kept;

/// At most 32 replies are kept, and no two of them answer the same request.
pub fn kept_replies_are_distinct(kept: &Kept)
    ensures { AreKept kept.now }
{
    kept.assert_invariant();
}

/// A reply that was just kept is found under its sender's name, ignoring case, if its request had no kept reply before.
#[tactic(auto, using(crate::proofs::KeepLemmas::kept_is_found, crate::proofs::KeepLemmas::letters_are_one))]
pub fn kept_reply_is_found()
    ensures theorem { KeptIsFound }
    ensures letters { CaseIsIgnored }
{}

/// Keeping one more reply changes nothing for other requests, except that the oldest may be dropped.
#[tactic(auto, using(crate::proofs::KeepLemmas::others_stay, crate::proofs::KeepLemmas::only_oldest_goes, crate::proofs::KeepLemmas::oldest_is_dropped))]
pub fn only_oldest_is_dropped()
    ensures room { OthersStay }
    ensures others { OnlyOldestIsDropped }
    ensures oldest { OldestIsDropped }
{}

/// An acknowledged reply is no longer found. Replies that the acknowledgement does not name are still found.
#[tactic(auto, using(crate::proofs::AckLemmas::acknowledged_is_dropped, crate::proofs::AckLemmas::other_senders_stay, crate::proofs::AckLemmas::other_numbers_stay))]
pub fn only_acknowledged_is_dropped()
    ensures named { AcknowledgedIsDropped }
    ensures senders { OtherSendersStay }
    ensures numbers { OtherNumbersStay }
{}

/// A reply is kept until the limit on newer replies is reached, or until an acknowledgement names it.
///
/// After that, the reply is kept again only if its own request is run again.
pub fn replies_stay_while_few_are_newer()
    ensures few { FewNewerStay }
    ensures many { NewerRepliesEvict }
    ensures last { LastIsNewest }
    ensures unnamed { UnnamedStay }
    ensures gone { DroppedStayDropped }
    ensures distinct { KeptStayDistinct }
{}
