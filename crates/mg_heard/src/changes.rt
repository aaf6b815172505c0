ghost use Rattle.mg_heard.specs.aids.Changes.{OnlyControlChangesFlows, OnlyControlChangesTerminations};

/// Does nothing. Its contract states, for the proofs of followers, that only control datagrams change the terminations
/// and the open flows.
pub(crate) fn only_control_changes_flows()
    ensures flows { OnlyControlChangesFlows }
    ensures terminations { OnlyControlChangesTerminations }
{
    mg_core::theorems::rtp_changes_speech_only();
}
