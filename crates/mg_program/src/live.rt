ghost use Rattle.std.specs.Prelude.{◌≡◌, ◌≢◌, ◌⊎◌, ℕ, [], List, Option, None, Some, Err, IsSome};
ghost use Rattle.std.specs.Option.{option_map_or};
ghost use Rattle.mg_clock.specs.Ticks.{clock_seen};
ghost use Rattle.mg_engine.specs.Config.{IsValidConfig};
ghost use Rattle.mg_journal.specs.Journal.{no_journal};
ghost use Rattle.mg_journal.specs.aids.Opened.{text_in};
ghost use Rattle.mg_start.specs.aids.Starting.{CanResume, CanStart};
ghost use Rattle.mg_core.specs.World.{World};
ghost use Rattle.mg_core.specs.aids.Stands.{StandsFor};
ghost use Rattle.mg_ports.specs.Journaled.{ports_seen};
ghost use Rattle.mg_serve.specs.Serve.{ClockCommands, Served, form_of};
ghost use Rattle.mg_service.specs.Setup.{setup_of};
ghost use Rattle.mg_service.specs.Title.{title_if, title_line};
ghost use Rattle.mg_host.specs.declared.host_call.HostCall.{HostCall};
ghost use Rattle.mg_host.specs.HostCalls.{Grows, IsLogged, port_calls};
ghost use Rattle.mg_program.specs.Serve.{ByClock, Serves, ServesChosen, ServesOnPorts, binds_of};

use crate::announcement::announce;
use crate::ended::Ended;
use crate::gateway_ports::{GatewayPorts, PortsOf};
use crate::log_key::LogKey;
use crate::metrics_file::MetricsFile;
use crate::ready::{Ready, make_ready};
use crate::status::status_after;
use mg_core::RunFault;
use mg_host::{Clocks, Environment, Journals, Outside, System};
use mg_monitor::{Both, Metrics, Reports};
use mg_options::{Status, VERSION};
use mg_serve::{Start, Timer, serve_by_clock};
use mg_service::{Service, TitleLine, title_line_of, title_of};
use mg_start::{Gateway, Prepared, Requested, prepare};
use std::alloc::AllocError;
use std::io::{self, ErrorKind, Write};
use std::marker::Brand;

/// The monitor of a gateway that is driven by the system's clock: reports, and metrics if they are enabled.
type LiveMonitor<'a, E> = Both<
    Reports<'a, <E as Environment>::Reports>,
    Metrics<
        'a,
        <E as Environment>::Clock,
        MetricsFile<'a, <E as Environment>::Files, <E as Environment>::Errors>,
    >,
>;

/// Runs a gateway on these ports, driven by a clock. `line` is the line of its title.
fn live_on<'t, 's: 't, L: LogKey, E: Environment>(
    gateway: Gateway<'s>,
    line: &'t TitleLine,
    ports: &mut PortsOf<'_, E, L>,
    timer: &mut Timer<<E::Host as Clocks>::Watch>,
    output: &mut E::Output,
    monitor: &mut LiveMonitor<'_, E>,
) -> RunFault
    requires sound { IsValidConfig gateway.config }
    requires line { line.now.items ≡ title_line gateway.config }
    ensures session { (w : World) → StandsFor gateway.entry.core.state w →
        Served (setup_of gateway.entry.config gateway.entry.reached gateway.entry.service.now) w
        (title_if gateway.entry.service.now.records gateway.entry.config)
        (ClockCommands (form_of (title_if gateway.entry.service.now.records gateway.entry.config)) timer.old.late
        (clock_seen (E.Host.Watch.readings timer.old.watch) (E.Host.Watch.waits timer.old.watch))
        (clock_seen (E.Host.Watch.readings timer.new.watch) (E.Host.Watch.waits timer.new.watch))
        (E.Host.Watch.Fails timer.new.watch) (Err result))
        (ports_seen (port_calls (E.Host.calls ports.old.host)) (option_map_or (λ d. d) ports.old.journal no_journal))
        (ports_seen (port_calls (E.Host.calls ports.new.host)) (option_map_or (λ d. d) ports.new.journal no_journal))
        (E.Output.contents output.old) (E.Output.contents output.new) (Err result) }
    ensures started { result ≢ RunFault.BadConfig }
{
    let config = gateway.config;
    let service = gateway.service;
    let title = title_of(&config);
    let setup = service.setup(config, gateway.reached, line.as_slice());
    let start = Start {
        alloc: gateway.alloc,
        setup: &setup,
        core: gateway.core,
        title: service.title(title.as_slice()),
    };
    serve_by_clock::<(_, _, _), _>(start, ports, timer, output, monitor)
}

/// Runs a gateway on UDP ports, driven by the host's clock, which is stopped at the end.
fn live_on_sockets<L: LogKey, E: Environment>(
    host: E::Host,
    ready: Ready<'_, E>,
    timer: Timer<<E::Host as Clocks>::Watch>,
    output: &mut E::Output,
    monitor: &mut LiveMonitor<'_, E>,
) -> (E::Host, RunFault)
    requires sound { IsValidConfig ready.gateway.config }
    requires begins { E.Host.calls host ≡ L.calls }
    requires unread { IsLogged (E.Host.calls host) (E.Host.Watch.readings timer.watch) [] }
    ensures value { (text : Option (List ℕ)) (bound : Option (List HostCall)) →
        CanStart ready.entry.gateway.service.now.journal text ready.entry.gateway.service.now.fence_from
        ready.entry.gateway.config ready.entry.gateway.core.state ready.entry.gateway.reached
        (option_map_or (λ j. j) ready.entry.journal no_journal) bound (E.Host.calls host) →
        ServesOnPorts (ByClock timer.late (E.Host.stopped result.0)) ready.entry.gateway.config
        ready.entry.gateway.service.now (E.Output.contents output.old)
        (E.Output.contents output.new) text bound (E.Host.calls result.0) (Err result.1) }
{
    let mut timer = timer;
    let every = ready.gateway.service.checkpoint_every;
    let mut ports = GatewayPorts::<_, _, _, L>::new(host, ready.journal, every);
    let line = title_line_of(&ready.gateway.config);
    let fault = live_on::<L, E>(
        ready.gateway,
        &line,
        &mut ports,
        &mut timer,
        output,
        monitor,
    );
    let mut host = ports.host;
    let Timer { watch, .. } = timer;
    host.stop(watch);
    (host, fault)
}

/// Runs a gateway on UDP ports, driven by the system's clock: a poll and a tick every 20 ms, and a poll when a message
/// arrives in between. Ends only on a fault, which is reported to `errors`.
///
/// The gateway is new, perhaps with numbers drawn at random, or it resumes from the journal.
///
/// After a delay, all missed polls and ticks are executed at once. If a tick is more than `late` ticks late, its
/// packets are not sent. So callers hear a gap, and timestamps stay in step with the clock. `reports` receives lines
/// about the start, and then the lines that [`Reports`] prints.
pub fn live<E: Environment>(
    system: &System<'_, E>,
    outside: Outside<E>,
    requested: Requested<'_>,
    late: u16,
) -> Ended<E>
    ensures value { Serves (ByClock late (E.Host.stopped result.outside.host)) (result.outside.output ≡ outside.output)
        requested.entry.config requested.entry.service.now requested.entry.draws (E.Output.contents outside.output)
        (E.Output.contents result.outside.output) (E.Host.calls outside.host) (E.Host.calls result.outside.host)
        result.status }
    ensures unread { result.outside.input ≡ outside.input }
{
    let mut outside = outside;
    match prepare(system, &mut outside.host, requested, &mut outside.errors) {
        Ok(prepared) => live_prepared(system, outside, prepared, requested.service, late),
        Err(status) => Ended { outside, status },
    }
}

/// Runs a prepared gateway on UDP ports, driven by the system's clock.
fn live_prepared<E: Environment>(
    system: &System<'_, E>,
    outside: Outside<E>,
    prepared: Prepared<<E::Host as Journals>::File>,
    service: &Service,
    late: u16,
) -> Ended<E>
    requires resumed { CanResume (option_map_or (λ j. text_in j.opening.file) prepared.journal (Some []))
        (option_map_or (λ j. j.timeline) prepared.journal None) prepared.config prepared.core.state prepared.reached }
    requires found { IsSome service.now.journal → IsSome prepared.journal }
    ensures value { ServesChosen (ByClock late (E.Host.stopped result.outside.host))
        (result.outside.output ≡ outside.output) prepared.config
        service.now (E.Output.contents outside.output) (E.Output.contents result.outside.output)
        (option_map_or (λ j. text_in j.opening.file) prepared.journal (Some [])) (E.Host.calls outside.host)
        (E.Host.calls result.outside.host) result.status }
    ensures unread { result.outside.input ≡ outside.input }
{
    let mut outside = outside;
    prepared.tell(service, &mut outside.reports);
    match make_ready(
        system,
        &mut outside.host,
        prepared,
        service,
        &mut outside.errors,
    ) {
        Ok(ready) => live_ready(system, outside, ready, late),
        Err(status) => Ended { outside, status },
    }
}

/// Runs a gateway whose ports are bound, driven by the system's clock.
fn live_ready<E: Environment>(
    system: &System<'_, E>,
    outside: Outside<E>,
    ready: Ready<'_, E>,
    late: u16,
) -> Ended<E>
    requires sound { IsValidConfig ready.gateway.config }
    ensures value { (text : Option (List ℕ)) (found bound : Option (List HostCall)) →
        CanStart ready.entry.gateway.service.now.journal text ready.entry.gateway.service.now.fence_from
        ready.entry.gateway.config ready.entry.gateway.core.state ready.entry.gateway.reached
        (option_map_or (λ j. j) ready.entry.journal no_journal) bound (E.Host.calls outside.host) →
        Grows found bound (binds_of ready.entry.gateway.config ready.entry.gateway.service.now.bind_addresses) →
        ServesChosen (ByClock late (E.Host.stopped result.outside.host)) (result.outside.output ≡ outside.output)
        ready.entry.gateway.config ready.entry.gateway.service.now (E.Output.contents outside.output)
        (E.Output.contents result.outside.output) text found (E.Host.calls result.outside.host) result.status }
    ensures unread { result.outside.input ≡ outside.input }
{
    let config = ready.gateway.config;
    let service = ready.gateway.service;
    let mut outside = outside;
    let watch = match outside.host.watch() {
        Ok(watch) => watch,
        Err(error) => {
            let status = watch_fault(&error, &mut outside.errors);
            return Ended { outside, status };
        }
    };
    announce(
        &config,
        service,
        ready.gateway.reached,
        &mut outside.reports,
    );
    let Outside {
        host,
        input,
        mut output,
        mut errors,
        mut reports,
    } = outside;
    let timer = Timer { watch, late };
    let (host, fault) = match monitor(system, service, &mut errors, &mut reports) {
        Ok(mut monitor) => {
            live_on_sockets::<Brand, E>(host, ready, timer, &mut output, &mut monitor)
        }
        Err(AllocError) => {
            let _ = writeln!(errors, "{}", RunFault::NoMemory);
            let outside = Outside {
                host,
                input,
                output,
                errors,
                reports,
            };
            return Ended {
                outside,
                status: Status::NoMemory,
            };
        }
    };
    let status = status_after(&Err(fault), &config, &mut errors);
    let outside = Outside {
        host,
        input,
        output,
        errors,
        reports,
    };
    Ended { outside, status }
}

/// Creates the monitor of a gateway: reports, and metrics if they are enabled.
fn monitor<'a, 's: 'a, E: Environment>(
    system: &System<'s, E>,
    service: &'a Service,
    errors: &'a mut E::Errors,
    reports: &'a mut E::Reports,
) -> Result<LiveMonitor<'a, E>, AllocError> {
    let first = Reports::new(system.alloc, service.report, reports)?;
    let second = match &service.metrics {
        Some(path) => {
            let file = MetricsFile::new(system.files, path, errors);
            Some(Metrics::start_now(system.alloc, system.clock, file, VERSION)?)
        }
        None => None,
    };
    Ok(Both { first, second })
}

/// Reports why the clock couldn't be started. Returns the program's exit status.
fn watch_fault<E: Write>(error: &io::Error, errors: &mut E) -> Status
    ensures ends { (result ≡ Status.NoMemory) ⊎ (result ≡ Status.Failed) }
{
    if error.kind() == ErrorKind::OutOfMemory {
        let _ = writeln!(errors, "{}", RunFault::NoMemory);
        return Status::NoMemory;
    }
    let _ = writeln!(errors, "the control port cannot be watched: {error}");
    Status::Failed
}
