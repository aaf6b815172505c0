ghost use Rattle.std.specs.Prelude.{◌≡◌};
ghost use Rattle.mg_core.specs.World.{World};
ghost use Rattle.mg_core.specs.aids.Stands.{StandsFor};
ghost use Rattle.mg_audible.specs.Without.{is_port_of};

use mg_core::Core;

/// Returns whether a port belongs to the termination with this number.
pub(crate) fn is_port_of(core: &Core, number: u32, port: u16) -> bool
    ensures value { (w : World) → StandsFor core.now.state w → result ≡ is_port_of w.gateway number port }
{
    for place in 0..core.terminations() {
        let termination = core.termination(place);
        let own = core.port(termination.slot);
        if own == port {
            return termination.number == number;
        }
    }
    false
}
