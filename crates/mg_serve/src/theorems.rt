//! Theorems about every session. The functions do nothing: their contracts are the theorems.

ghost use Rattle.mg_serve.specs.FenceLaws.{NoLowerNumberIsRun, RenewalsSayTheNumber};
ghost use Rattle.mg_serve.specs.Theorems.{SessionsAreRuns, SessionsAreReadBack, CutSessionsAreReadBack, ReplaysAreTheSession};

/// A controller that has been replaced can't command the gateway with numbered messages any more.
///
/// After a message with a number was run, no message with a lower number is run behind a fence, unless an operator has
/// set the fence since. This holds in this life of the gateway, and in later lives that resume from its journal. A
/// renewed journal says the number that the old one had reached. The contracts of [`serve`](crate::serve) and
/// [`serve_by_clock`](crate::serve_by_clock) guarantee that a session is fenced.
pub fn no_lower_number_is_run()
    ensures theorem { NoLowerNumberIsRun }
    ensures renewals { RenewalsSayTheNumber }
{
    mg_core::theorems::readings_are_unique();
}

/// A session sends exactly the datagrams that a run of its events sends, in order.
pub fn sessions_are_runs()
    ensures { SessionsAreRuns }
{}

/// A recording of a session is a script of its events.
///
/// Running the recording writes the lines for the datagrams that the session sent, and ends in the session's world. If
/// a recording is truncated, its complete lines are a script of the first events.
pub fn recordings_are_the_session()
    ensures read { SessionsAreReadBack }
    ensures cut { CutSessionsAreReadBack }
    ensures replay { ReplaysAreTheSession }
{
    mg_core::theorems::recordings_are_read();
    mg_core::theorems::outcomes_are_unique();
}
