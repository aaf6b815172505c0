//! Properties of all audible intervals. The functions do nothing: their contracts are the theorems.

ghost use Rattle.mg_audible.specs.Laws.{DifferencesAreSpeech};

/// If a talker's speech changes the bytes that the gateway sends to a listener in a tick, the speech reaches the
/// listener in that tick. This means that it flows to the listener, or that the listener is the talker, in Loopback.
///
/// This theorem is the contrapositive of [`mg_core::theorems::unheard_changes_nothing`].
pub fn differences_are_speech()
    ensures theorem { DifferencesAreSpeech }
{
    mg_core::theorems::outcomes_are_unique();
    mg_core::theorems::worlds_are_consistent();
    mg_core::theorems::unheard_changes_nothing();
}
