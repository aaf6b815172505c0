ghost use Rattle.std.specs.Prelude.{◌≡◌, [], List, Option, None, Some, IfErr, IfOk, IsSome, OnErr, OnOk};
ghost use Rattle.std.specs.Option.{option_map_or};
ghost use Rattle.mg_engine.specs.Config.{IsValidConfig};
ghost use Rattle.mg_journal.specs.Journal.{no_journal};
ghost use Rattle.mg_journal.specs.aids.Opened.{text_in};
ghost use Rattle.mg_start.specs.Journal.{RunsNoSession};
ghost use Rattle.mg_start.specs.aids.Starting.{CanResume, CanStart};
ghost use Rattle.mg_host.specs.declared.host_call.HostCall.{HostCall};
ghost use Rattle.mg_host.specs.HostCalls.{Grows};
ghost use Rattle.mg_start.specs.Start.{FailsToStart};
ghost use Rattle.mg_program.specs.Serve.{binds_of};

use crate::binding::bind;
use crate::metrics_file::{can_write_metrics, replaces_journal};
use mg_host::{Environment, Journals, System};
use mg_options::Status;
use mg_service::Service;
use mg_start::{Gateway, KeptJournal, Prepared, begin_journal};
use std::fs::Files;
use std::io::Write;

/// A gateway whose ports are bound. Its journal, if it keeps one, is open for appends.
#[derive(Drop)]
pub struct Ready<'a, E: Environment> {
    pub gateway: Gateway<'a>,
    pub journal: KeptJournal<'a, E>,
}

/// If metrics are enabled, checks that they can be written without replacing the journal. If this fails, reports the
/// fault to `errors` and returns the program's exit status.
fn check_metrics<F: Files, E: Write>(
    files: &F,
    service: &Service,
    errors: &mut E,
) -> Result<(), Status>
    ensures quiet { OnOk result (errors.new ≡ errors.old) }
    ensures ends { IfErr result (λ status. status ≡ Status.Failed) }
{
    let Some(path) = &service.metrics else {
        return Ok(());
    };
    if replaces_journal(path, &service.journal) {
        let path = path.as_str();
        let _ = writeln!(
            errors,
            "cannot write {path}: this would replace the journal"
        );
        return Err(Status::Failed);
    }
    match can_write_metrics(files, path) {
        Ok(()) => Ok(()),
        Err(error) => {
            let path = path.as_str();
            let _ = writeln!(errors, "cannot write {path}: {error}");
            Err(Status::Failed)
        }
    }
}

/// Binds the ports of a prepared gateway, checks that its metrics can be written, and starts appending to its journal.
/// If that fails, reports the fault to `errors` and returns the program's exit status.
pub fn make_ready<'a, E: Environment>(
    system: &System<'a, E>,
    host: &mut E::Host,
    prepared: Prepared<<E::Host as Journals>::File>,
    service: &'a Service,
    errors: &mut E::Errors,
) -> Result<Ready<'a, E>, Status>
    requires resumed { CanResume (option_map_or (λ j. text_in j.opening.file) prepared.journal (Some []))
        (option_map_or (λ j. j.timeline) prepared.journal None) prepared.config prepared.core.state prepared.reached }
    requires found { IsSome service.now.journal → IsSome prepared.journal }
    ensures fails { OnErr result (RunsNoSession (E.Host.calls host.old) (E.Host.calls host.new)) }
    ensures config { IfOk result (λ r. r.gateway.config ≡ prepared.config) }
    ensures service { IfOk result (λ r. r.gateway.service.now ≡ service.now) }
    ensures sound { IfOk result (λ r. IsValidConfig r.gateway.config) }
    ensures start { IfOk result (λ r. (bound : Option (List HostCall)) ×
        Grows (E.Host.calls host.old) bound (binds_of prepared.config service.now.bind_addresses) ×
        CanStart service.now.journal (option_map_or (λ j. text_in j.opening.file) prepared.journal (Some []))
        service.now.fence_from r.gateway.config r.gateway.core.state r.gateway.reached
        (option_map_or (λ j. j) r.journal no_journal) bound (E.Host.calls host.new)) }
    ensures quiet { OnOk result (errors.new ≡ errors.old) }
    ensures ends { IfErr result (FailsToStart prepared.config) }
{
    let config = prepared.config;
    if let Err(status) = bind(host, &config, &service.bind_addresses, errors) {
        return Err(status);
    }
    if let Err(status) = check_metrics(system.files, service, errors) {
        return Err(status);
    }
    let mut gateway = Gateway {
        alloc: system.alloc,
        config,
        core: prepared.core,
        reached: prepared.reached,
        service,
    };
    match begin_journal(system, host, &mut gateway, prepared.journal, errors) {
        Ok(journal) => Ok(Ready { gateway, journal }),
        Err(status) => Err(status),
    }
}
