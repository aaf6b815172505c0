//! The lines about itself that a gateway prints when it starts.

use arrayvec::ArrayVec;
use mg_core::Config;
use mg_journal::Durability;
use mg_options::VERSION;
use mg_service::Service;
use std::io::Write;
use std::net::Ipv4Addr;

/// The maximum length of an announcement, in bytes: a path, and short lines.
const TEXT_ROOM: usize = 6000;

/// An announcement that is built before it is printed.
type Text = ArrayVec<u8, TEXT_ROOM>;

/// Writes a line with a name and addresses.
fn write_addresses(name: &str, addresses: &[[u8; 4]], text: &mut Text) {
    let _ = write!(text, "{name}");
    for address in addresses {
        let _ = write!(text, " {}", Ipv4Addr::from(*address));
    }
    let _ = writeln!(text);
}

/// Writes the addresses and ports that a gateway uses.
fn write_ports(config: &Config, service: &Service, text: &mut Text) {
    let control = Ipv4Addr::from(config.control_address);
    let media = Ipv4Addr::from(config.address);
    let (port, first) = (config.control_port, config.base_port);
    let last = (u32::from(first) + 2 * u32::from(config.slots)).saturating_sub(2);
    let _ = writeln!(text, "control: {control}:{port}");
    let _ = writeln!(text, "media: {media}, ports {first} to {last}");
    if !service.bind_addresses.as_slice().is_empty() {
        write_addresses("bound to:", service.bind_addresses.as_slice(), text);
    }
}

/// Writes the controllers that may command a gateway, or a warning that anybody may.
fn write_controllers(service: &Service, text: &mut Text) {
    let controllers = service.controllers.as_slice();
    if controllers.is_empty() {
        let _ = writeln!(
            text,
            "warning: no --controller: anybody may command this gateway"
        );
        return;
    }
    write_addresses("controllers:", controllers, text);
}

/// Writes the path of the journal that a gateway keeps, if any, and whether each message is synced.
fn write_journal(service: &Service, text: &mut Text) {
    let Some(path) = &service.journal else {
        let _ = writeln!(text, "journal: none");
        return;
    };
    let path = path.as_str();
    let synced = match service.durability {
        Durability::Synced => ", each message synced",
        Durability::Written => "",
    };
    let _ = writeln!(text, "journal: {path}{synced}");
}

/// Writes whether a gateway has a fence, and where it begins: at the number to which an operator sets it, or else at
/// `reached`, the number that the journal has reached.
fn write_fence(service: &Service, reached: u32, text: &mut Text) {
    let from = service.fence_from.unwrap_or(reached);
    let _ = match service.fence {
        Some(true) => writeln!(text, "fence: begins at {from}, strict"),
        Some(false) => writeln!(text, "fence: begins at {from}"),
        None => writeln!(text, "fence: none"),
    };
}

/// Prints the program's version, and the addresses, ports, controllers, journal and fence of a gateway. Warns if
/// anybody may command the gateway. `reached` is the number that the journal's messages have reached.
pub(crate) fn announce<T: Write>(
    config: &Config,
    service: &Service,
    reached: u32,
    reports: &mut T,
) {
    let mut text = Text::new();
    let _ = writeln!(text, "version: mg_bridge {VERSION}");
    write_ports(config, service, &mut text);
    write_controllers(service, &mut text);
    write_journal(service, &mut text);
    write_fence(service, reached, &mut text);
    let _ = reports.write_all(text.as_slice());
    let _ = reports.flush();
}
