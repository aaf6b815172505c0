ghost use Rattle.std.specs.Prelude.{◌≡◌, IfSome};
ghost use Rattle.mg_service.specs.Title.{title_text};

use crate::address::own_address;
use crate::title::title_of;
use arrayvec::ArrayVec;
use mg_core::Config;

/// The number of options in a title: one for each field of the configuration.
const OPTIONS: usize = 10;

/// Returns the configuration with these values, which are in the order of a title's options, or `None` if a value isn't
/// valid.
fn config_with(values: &[&str]) -> Option<Config> {
    let [
        address,
        control_address,
        control_port,
        base_port,
        slots,
        first_termination,
        first_context,
        ssrc,
        sequence,
        timestamp,
    ] = values
    else {
        return None;
    };
    Some(Config {
        address: own_address(address).ok()?,
        control_address: own_address(control_address).ok()?,
        control_port: control_port.parse().ok()?,
        base_port: base_port.parse().ok()?,
        slots: slots.parse().ok()?,
        first_termination: first_termination.parse().ok()?,
        first_context: first_context.parse().ok()?,
        ssrc: ssrc.parse().ok()?,
        sequence: sequence.parse().ok()?,
        timestamp: timestamp.parse().ok()?,
    })
}

/// Returns the configuration in a title, or `None` if `title` isn't a title.
///
/// Only the values are read. The comparison with the title of their configuration shows whether the rest is right.
pub fn titled(title: &[u8]) -> Option<Config>
    ensures value { IfSome result (λ config. title.now ≡ title_text config) }
{
    let Ok(text) = str::from_utf8(title) else {
        return None;
    };
    let mut values = ArrayVec::<&str, OPTIONS>::new();
    for word in text.split(' ') {
        if let Some((_, value)) = word.split_once('=') {
            let _ = values.try_push(value);
        }
    }
    let config = config_with(values.as_slice())?;
    if title_of(&config).as_slice() == title {
        return Some(config);
    }
    None
}
