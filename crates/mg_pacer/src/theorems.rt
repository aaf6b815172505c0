//! Properties of every run, whatever the clock reads. The functions do nothing: their contracts are the
//! theorems.

ghost use Rattle.mg_pacer.specs.Theorems.{Accounted, Bounded, NeverEarly, PaceIsDeterministic};

/// No tick is written early.
pub fn never_early()
    ensures theorem { NeverEarly }
{}

/// The number of ticks that were written or skipped is the number of ticks that were due.
pub fn all_ticks_are_accounted_for()
    ensures theorem { Accounted }
{}

/// After a delay, at most 50 ticks are written at once.
pub fn ticks_at_once_are_bounded()
    ensures theorem { Bounded }
{}

/// The clock's readings determine the progress of a run, and the wait after each reading.
pub fn pace_is_deterministic()
    ensures theorem { PaceIsDeterministic }
{}
