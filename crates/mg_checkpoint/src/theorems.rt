//! Properties of checkpoints.
//!
//! The functions do nothing: their contracts are the theorems, in terms of `specs/Checkpoint.antt`.

ghost use Rattle.mg_checkpoint.specs.Checkpoint.{CheckpointsLoseSpeechOnly, TextsDetermineSaid};

/// Equal checkpoints say the same of their gateways.
#[tactic(auto, using(crate::proofs::TextLemmas::texts_determine_said))]
pub fn texts_determine_what_is_said()
    ensures theorem { TextsDetermineSaid }
{}

/// A restored gateway differs from the saved one only in what was received.
#[tactic(auto, using(crate::proofs::SpeechLemmas::lose_speech_only))]
pub fn checkpoints_lose_speech_only()
    ensures theorem { CheckpointsLoseSpeechOnly }
{}
