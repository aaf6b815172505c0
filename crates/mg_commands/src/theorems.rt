//! Properties of every transaction.
//!
//! The functions do nothing: their contracts are the theorems.

ghost use Rattle.mg_commands.specs.aids.Agreement.{RequestsKeepAgreement};
ghost use Rattle.mg_commands.specs.Theorems.{RefusedNamesChangeNothing, RefusedCommandsChangeNothing, RefusedActionsChangeNothing, RefusedTopologiesChangeNothing, OthersAreTried, RefusedRequestsChangeNothing, RequestsAreConsistent};

/// A refusal changes only the reply, which reports the error.
///
/// The gateway, the action's context and the meaning of `$` are unchanged. This holds for a command on one termination,
/// and for a command that cannot be tried at all. It also holds for an action that is rejected as a whole, before its
/// commands are tried. If an action's topology is refused, the effects of its commands remain. If a command for all
/// members (`*`) is refused for one member, it is still tried for the others. So a request leaves the gateway unchanged
/// if each command that was tried was refused. For this, each action with a topology must have a command that isn't
/// optional.
pub fn refused_commands_change_nothing()
    ensures names { RefusedNamesChangeNothing }
    ensures commands { RefusedCommandsChangeNothing }
    ensures actions { RefusedActionsChangeNothing }
    ensures topologies { RefusedTopologiesChangeNothing }
    ensures others { OthersAreTried }
    ensures requests { RefusedRequestsChangeNothing }
{}

/// Every request preserves the consistency of terminations and contexts.
///
/// So terminations and contexts are consistent after any sequence of requests. A proof can use this fact even where no
/// engine is in scope.
pub fn requests_are_consistent()
    ensures theorem { RequestsAreConsistent }
{
    mg_engine::theorems::worlds_are_consistent();
}

/// If two gateways differ only in what some terminations received, this is still so after running the same request.
///
/// The replies can differ only in the counts of received packets and octets.
pub fn requests_keep_agreement()
    ensures theorem { RequestsKeepAgreement }
{
    mg_engine::theorems::agreement_lasts();
}
