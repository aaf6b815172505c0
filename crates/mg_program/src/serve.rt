ghost use Rattle.std.specs.Prelude.{◌≡◌, ◌≢◌, ℕ, [], List, Option, None, Some, Err, IsSome};
ghost use Rattle.std.specs.Option.{option_map_or};
ghost use Rattle.mg_engine.specs.Config.{IsValidConfig};
ghost use Rattle.mg_journal.specs.Journal.{no_journal};
ghost use Rattle.mg_journal.specs.aids.Opened.{text_in};
ghost use Rattle.mg_start.specs.aids.Starting.{CanResume, CanStart};
ghost use Rattle.mg_core.specs.World.{World};
ghost use Rattle.mg_core.specs.aids.Stands.{StandsFor};
ghost use Rattle.mg_ports.specs.Journaled.{ports_seen};
ghost use Rattle.mg_serve.specs.Serve.{ReadCommands, Served, form_of};
ghost use Rattle.mg_service.specs.Setup.{setup_of};
ghost use Rattle.mg_service.specs.Title.{title_if, title_line};
ghost use Rattle.mg_host.specs.declared.host_call.HostCall.{HostCall};
ghost use Rattle.mg_host.specs.HostCalls.{Grows, port_calls};
ghost use Rattle.mg_program.specs.Serve.{ByLines, Serves, ServesChosen, ServesOnPorts, binds_of};

use crate::ended::Ended;
use crate::gateway_ports::{GatewayPorts, PortsOf};
use crate::log_key::LogKey;
use crate::ready::{Ready, make_ready};
use crate::status::status_after;
use mg_core::{Counts, RunFault};
use mg_host::{Environment, Journals, Outside, System};
use mg_monitor::Reports;
use mg_options::Status;
use mg_serve::Start;
use mg_service::{Service, TitleLine, title_line_of, title_of};
use mg_start::{Gateway, Prepared, Requested, prepare};
use std::alloc::AllocError;
use std::io::Write;
use std::marker::Brand;

/// Runs a gateway on these ports, driven by input lines. `line` is the line of its title.
fn serve_on<'t, 's: 't, L: LogKey, E: Environment>(
    gateway: Gateway<'s>,
    line: &'t TitleLine,
    ports: &mut PortsOf<'_, E, L>,
    input: &mut E::Input,
    output: &mut E::Output,
    monitor: &mut Reports<'_, E::Reports>,
) -> Result<Counts, RunFault>
    requires sound { IsValidConfig gateway.config }
    requires line { line.now.items ≡ title_line gateway.config }
    ensures session { (w : World) → StandsFor gateway.entry.core.state w →
        Served (setup_of gateway.entry.config gateway.entry.reached gateway.entry.service.now) w
        (title_if gateway.entry.service.now.records gateway.entry.config)
        (ReadCommands (form_of (title_if gateway.entry.service.now.records gateway.entry.config))
        (E.Input.remaining input.old) (E.Input.remaining input.new) result)
        (ports_seen (port_calls (E.Host.calls ports.old.host)) (option_map_or (λ d. d) ports.old.journal no_journal))
        (ports_seen (port_calls (E.Host.calls ports.new.host)) (option_map_or (λ d. d) ports.new.journal no_journal))
        (E.Output.contents output.old) (E.Output.contents output.new) result }
    ensures started { result ≢ Err RunFault.BadConfig }
{
    let config = gateway.config;
    let service = gateway.service;
    let title = title_of(&config);
    let setup = service.setup(config, gateway.reached, line.as_slice());
    let start = Start {
        alloc: gateway.alloc,
        setup: &setup,
        core: gateway.core,
        title: service.title(title.as_slice()),
    };
    mg_serve::serve::<(_, _, _), _>(start, ports, input, output, monitor)
}

/// Runs a gateway on UDP ports, driven by input lines.
fn serve_on_sockets<L: LogKey, E: Environment>(
    host: E::Host,
    ready: Ready<'_, E>,
    input: &mut E::Input,
    output: &mut E::Output,
    monitor: &mut Reports<'_, E::Reports>,
) -> (E::Host, Result<Counts, RunFault>)
    requires sound { IsValidConfig ready.gateway.config }
    requires begins { E.Host.calls host ≡ L.calls }
    ensures value { (text : Option (List ℕ)) (bound : Option (List HostCall)) →
        CanStart ready.entry.gateway.service.now.journal text ready.entry.gateway.service.now.fence_from
        ready.entry.gateway.config ready.entry.gateway.core.state ready.entry.gateway.reached
        (option_map_or (λ j. j) ready.entry.journal no_journal) bound (E.Host.calls host) →
        ServesOnPorts (ByLines (E.Input.remaining input.old) (E.Input.remaining input.new))
        ready.entry.gateway.config ready.entry.gateway.service.now (E.Output.contents output.old)
        (E.Output.contents output.new) text bound (E.Host.calls result.0) result.1 }
{
    let every = ready.gateway.service.checkpoint_every;
    let mut ports = GatewayPorts::<_, _, _, L>::new(host, ready.journal, every);
    let line = title_line_of(&ready.gateway.config);
    let outcome = serve_on::<L, E>(ready.gateway, &line, &mut ports, input, output, monitor);
    (ports.host, outcome)
}

/// Runs a gateway on UDP ports, driven by input lines. The gateway is new, or it resumes from the journal. A fault is
/// reported to `errors`. If the gateway resumes, `reports` receives a line about this. Then it receives the lines that
/// [`Reports`] prints.
///
/// An invalid configuration is reported before a port is bound. A port that can't be bound is reported before a line is
/// read, and before anything is appended to the journal.
pub fn serve<E: Environment>(
    system: &System<'_, E>,
    outside: Outside<E>,
    requested: Requested<'_>,
) -> Ended<E>
    ensures value { Serves (ByLines (E.Input.remaining outside.input) (E.Input.remaining result.outside.input))
        ((result.outside.input ≡ outside.input) × (result.outside.output ≡ outside.output)) requested.entry.config
        requested.entry.service.now requested.entry.draws (E.Output.contents outside.output)
        (E.Output.contents result.outside.output) (E.Host.calls outside.host) (E.Host.calls result.outside.host)
        result.status }
    ensures quiet { result.status ≡ Status.Done → result.outside.errors ≡ outside.errors }
{
    let mut outside = outside;
    match prepare(system, &mut outside.host, requested, &mut outside.errors) {
        Ok(prepared) => serve_prepared(system, outside, prepared, requested.service),
        Err(status) => Ended { outside, status },
    }
}

/// Runs a prepared gateway on UDP ports, driven by input lines.
fn serve_prepared<E: Environment>(
    system: &System<'_, E>,
    outside: Outside<E>,
    prepared: Prepared<<E::Host as Journals>::File>,
    service: &Service,
) -> Ended<E>
    requires resumed { CanResume (option_map_or (λ j. text_in j.opening.file) prepared.journal (Some []))
        (option_map_or (λ j. j.timeline) prepared.journal None) prepared.config prepared.core.state prepared.reached }
    requires found { IsSome service.now.journal → IsSome prepared.journal }
    ensures value { ServesChosen (ByLines (E.Input.remaining outside.input) (E.Input.remaining result.outside.input))
        ((result.outside.input ≡ outside.input) × (result.outside.output ≡ outside.output)) prepared.config service.now
        (E.Output.contents outside.output) (E.Output.contents result.outside.output)
        (option_map_or (λ j. text_in j.opening.file) prepared.journal (Some [])) (E.Host.calls outside.host)
        (E.Host.calls result.outside.host) result.status }
    ensures quiet { result.status ≡ Status.Done → result.outside.errors ≡ outside.errors }
{
    let mut outside = outside;
    prepared.tell(service, &mut outside.reports);
    match make_ready(
        system,
        &mut outside.host,
        prepared,
        service,
        &mut outside.errors,
    ) {
        Ok(ready) => serve_ready(outside, ready),
        Err(status) => Ended { outside, status },
    }
}

/// Runs a gateway whose ports are bound, driven by input lines.
fn serve_ready<E: Environment>(outside: Outside<E>, ready: Ready<'_, E>) -> Ended<E>
    requires sound { IsValidConfig ready.gateway.config }
    ensures value { (text : Option (List ℕ)) (found bound : Option (List HostCall)) →
        CanStart ready.entry.gateway.service.now.journal text ready.entry.gateway.service.now.fence_from
        ready.entry.gateway.config ready.entry.gateway.core.state ready.entry.gateway.reached
        (option_map_or (λ j. j) ready.entry.journal no_journal) bound (E.Host.calls outside.host) →
        Grows found bound (binds_of ready.entry.gateway.config ready.entry.gateway.service.now.bind_addresses) →
        ServesChosen (ByLines (E.Input.remaining outside.input) (E.Input.remaining result.outside.input))
        ((result.outside.input ≡ outside.input) × (result.outside.output ≡ outside.output))
        ready.entry.gateway.config ready.entry.gateway.service.now (E.Output.contents outside.output)
        (E.Output.contents result.outside.output) text found (E.Host.calls result.outside.host) result.status }
    ensures quiet { result.status ≡ Status.Done → result.outside.errors ≡ outside.errors }
{
    let gateway = &ready.gateway;
    let config = gateway.config;
    let Outside {
        host,
        mut input,
        mut output,
        mut errors,
        mut reports,
    } = outside;
    let (host, outcome) = match Reports::new(gateway.alloc, gateway.service.report, &mut reports) {
        Ok(mut monitor) => serve_on_sockets::<Brand, E>(
            host,
            ready,
            &mut input,
            &mut output,
            &mut monitor,
        ),
        Err(AllocError) => {
            let _ = writeln!(errors, "{}", RunFault::NoMemory);
            let outside = Outside {
                host,
                input,
                output,
                errors,
                reports,
            };
            return Ended {
                outside,
                status: Status::NoMemory,
            };
        }
    };
    let status = status_after(&outcome, &config, &mut errors);
    let outside = Outside {
        host,
        input,
        output,
        errors,
        reports,
    };
    Ended { outside, status }
}
