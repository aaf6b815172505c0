//! A last word on one talker and one listener, as a triple of their seats.

ghost use Rattle.std.specs.Prelude.{◌≢◌, ◌<◌};
ghost use Rattle.mg_topology.specs.Mask.{seat_limit};
ghost use Rattle.mg_topology.specs.Triple.{Overlaps};
ghost use Rattle.mg_flow.specs.aids.Words.{SaysWord};

use mg_topology::{Association, Triple, mask};

/// Returns the triple that says whether the second of two seats hears the first, and whether the first hears the second.
pub fn word_on(first: usize, second: usize, forward: bool, backward: bool) -> Triple
    requires first { first < seat_limit }
    requires second { second < seat_limit }
    requires apart { first ≢ second }
    ensures says { SaysWord result first second forward backward }
    ensures sound { ¬ Overlaps result }
{
    let one = mask::of_seat(first);
    let other = mask::of_seat(second);
    let (from, to, association) = match (forward, backward) {
        (true, true) => (one, other, Association::Bothway),
        (true, false) => (one, other, Association::Oneway),
        (false, true) => (other, one, Association::Oneway),
        (false, false) => (one, other, Association::Isolate),
    };
    Triple {
        first: from,
        second: to,
        association,
    }
}
