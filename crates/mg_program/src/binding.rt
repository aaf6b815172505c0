ghost use Rattle.std.specs.Prelude.{◌≡◌, [], ◌∷◌, IfErr, MatchResult, OnOk, drop, true};
ghost use Rattle.mg_engine.specs.Config.{IsValidConfig};
ghost use Rattle.mg_host.specs.declared.host_call.HostCall.TheVariants.{Bind, BindAlso};
ghost use Rattle.mg_host.specs.HostCalls.{Grows};
ghost use Rattle.mg_start.specs.Journal.{RunsNoSession};
ghost use Rattle.mg_start.specs.Start.{FailsToStart};
ghost use Rattle.mg_program.specs.Serve.{binds_of};
ghost use Rattle.mg_program.specs.aids.Binding.{IsPortOf, first_binds, other_binds};

use crate::bind_fault::BindFault;
use mg_core::{Config, RunFault};
use mg_host::Sockets;
use mg_options::Status;
use mg_service::{BindAddresses, ConfigFault};
use std::io::{ErrorKind, Write};
use std::net::Ipv4Addr;

/// Binds the next socket.
fn bind_socket<H: Sockets>(host: &mut H, address: [u8; 4], port: u16) -> Result<(), BindFault>
    ensures bound { MatchResult result
        (λ _. Grows (H.calls host.old) (H.calls host.new) (Bind address port true ∷ []))
        (λ fault. RunsNoSession (H.calls host.old) (H.calls host.new)) }
    ensures port { IfErr result (λ fault. fault.port ≡ port) }
{
    match host.bind(address, port) {
        Ok(()) => Ok(()),
        Err(error) => Err(BindFault {
            address: Ipv4Addr::from(address),
            port,
            error,
        }),
    }
}

/// Binds a further control socket.
fn bind_control<H: Sockets>(host: &mut H, address: [u8; 4], port: u16) -> Result<(), BindFault>
    ensures bound { MatchResult result
        (λ _. Grows (H.calls host.old) (H.calls host.new) (BindAlso address port true ∷ []))
        (λ fault. RunsNoSession (H.calls host.old) (H.calls host.new)) }
    ensures port { IfErr result (λ fault. fault.port ≡ port) }
{
    match host.bind_also(address, port) {
        Ok(()) => Ok(()),
        Err(error) => Err(BindFault {
            address: Ipv4Addr::from(address),
            port,
            error,
        }),
    }
}

/// Binds the control port of a gateway, and then the media ports in ascending order. They are bound to `bind_address`,
/// if it is given, and otherwise to the addresses in the configuration. The error names the first port that can't be
/// bound.
fn bind_first<H: Sockets>(
    host: &mut H,
    config: &Config,
    bind_address: Option<[u8; 4]>,
) -> Result<(), BindFault>
    requires sound { IsValidConfig config.now }
    ensures bound { MatchResult result
        (λ _. Grows (H.calls host.old) (H.calls host.new) (first_binds config.now bind_address config.now.slots))
        (λ fault. RunsNoSession (H.calls host.old) (H.calls host.new)) }
    ensures port { IfErr result (λ fault. IsPortOf config.now fault.port) }
{
    let control_address = bind_address.unwrap_or(config.control_address);
    let media_address = bind_address.unwrap_or(config.address);
    if let Err(fault) = bind_socket(host, control_address, config.control_port) {
        return Err(fault);
    }
    for slot in 0..config.slots {
        let port = config.limits().slot_port(slot as u8);
        if let Err(fault) = bind_socket(host, media_address, port) {
            return Err(fault);
        }
    }
    Ok(())
}

/// Binds a further control socket at each address in `addresses`. The error names the first address at which no socket
/// can be bound.
fn bind_others<H: Sockets>(host: &mut H, addresses: &[[u8; 4]], port: u16) -> Result<(), BindFault>
    ensures bound { MatchResult result
        (λ _. Grows (H.calls host.old) (H.calls host.new) (other_binds port addresses.now))
        (λ fault. RunsNoSession (H.calls host.old) (H.calls host.new)) }
    ensures port { IfErr result (λ fault. fault.port ≡ port) }
{
    for address in addresses {
        if let Err(fault) = bind_control(host, *address, port) {
            return Err(fault);
        }
    }
    Ok(())
}

/// Returns all addresses but the first.
fn others(addresses: &[[u8; 4]]) -> &[[u8; 4]]
    ensures value { result.now ≡ drop 1 addresses.now }
{
    match addresses.split_first() {
        Some((_, others)) => others,
        None => addresses,
    }
}

/// Binds the ports of a gateway to the first address in `addresses`, and further control sockets to the others. If
/// `addresses` is empty, the ports are bound to the addresses in the configuration. The error names the first port that
/// can't be bound.
fn bind_all<H: Sockets>(
    host: &mut H,
    config: &Config,
    addresses: &[[u8; 4]],
) -> Result<(), BindFault>
    requires sound { IsValidConfig config.now }
    ensures bound { MatchResult result
        (λ _. Grows (H.calls host.old) (H.calls host.new) (binds_of config.now addresses.now))
        (λ fault. RunsNoSession (H.calls host.old) (H.calls host.new)) }
    ensures port { IfErr result (λ fault. IsPortOf config.now fault.port) }
{
    if let Err(fault) = bind_first(host, config, addresses.first().copied()) {
        return Err(fault);
    }
    bind_others(host, others(addresses), config.control_port)
}

/// Binds the ports of a gateway. If that fails, reports the fault to `errors` and returns the program's exit status.
///
/// An invalid configuration is reported before a port is bound.
pub fn bind<H: Sockets, E: Write>(
    host: &mut H,
    config: &Config,
    addresses: &BindAddresses,
    errors: &mut E,
) -> Result<(), Status>
    ensures bound { MatchResult result
        (λ _. Grows (H.calls host.old) (H.calls host.new) (binds_of config.now addresses.now))
        (λ status. RunsNoSession (H.calls host.old) (H.calls host.new)) }
    ensures sound { OnOk result (IsValidConfig config.now) }
    ensures ends { IfErr result (FailsToStart config.now) }
    ensures quiet { OnOk result (errors.new ≡ errors.old) }
{
    if let Some(fault) = ConfigFault::of(config) {
        let _ = writeln!(errors, "{}: {fault}", RunFault::BadConfig);
        return Err(Status::Usage);
    }
    match bind_all(host, config, addresses.as_slice()) {
        Ok(()) => Ok(()),
        Err(fault) if fault.error.kind() == ErrorKind::OutOfMemory => {
            let _ = writeln!(errors, "{}", RunFault::NoMemory);
            Err(Status::NoMemory)
        }
        Err(fault) => {
            let _ = writeln!(errors, "{fault}");
            Err(Status::NoPort)
        }
    }
}
