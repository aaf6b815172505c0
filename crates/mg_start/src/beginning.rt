ghost use Rattle.std.specs.Prelude.{◌≡◌, [], None, Some, IfErr, IfOk, IsSome, OnErr, OnOk};
ghost use Rattle.std.specs.Option.{option_map_or};
ghost use Rattle.mg_journal.specs.Journal.{no_journal};
ghost use Rattle.mg_journal.specs.aids.Opened.{text_in};
ghost use Rattle.mg_start.specs.Journal.{RunsNoSession};
ghost use Rattle.mg_start.specs.aids.Starting.{CanResume, CanStart};
ghost use Rattle.mg_start.specs.Start.{FailsToStart};

use crate::found_journal::FoundJournal;
use crate::gateway::Gateway;
use crate::kept_journal::KeptJournal;
use mg_host::{Environment, Journals, System};
use mg_options::Status;

/// If there is a journal, starts appending to it, and skips the ticks that the gateway missed. If that fails, reports
/// the fault to `errors` and returns the program's exit status.
pub fn begin_journal<'a, E: Environment>(
    system: &System<'a, E>,
    host: &mut E::Host,
    gateway: &mut Gateway<'_>,
    found: Option<FoundJournal<<E::Host as Journals>::File>>,
    errors: &mut E::Errors,
) -> Result<KeptJournal<'a, E>, Status>
    requires resumed { CanResume (option_map_or (λ j. text_in j.opening.file) found (Some []))
        (option_map_or (λ j. j.timeline) found None) gateway.old.config gateway.old.core.state gateway.old.reached }
    requires found { IsSome gateway.old.service.now.journal → IsSome found }
    ensures started { IfOk result (λ journal. CanStart gateway.old.service.now.journal
        (option_map_or (λ j. text_in j.opening.file) found (Some [])) gateway.old.service.now.fence_from
        gateway.old.config gateway.new.core.state gateway.old.reached
        (option_map_or (λ j. j) journal no_journal) (E.Host.calls host.old) (E.Host.calls host.new)) }
    ensures config { gateway.new.config ≡ gateway.old.config }
    ensures reached { gateway.new.reached ≡ gateway.old.reached }
    ensures service { gateway.new.service ≡ gateway.old.service }
    ensures fails { OnErr result (RunsNoSession (E.Host.calls host.old) (E.Host.calls host.new)) }
    ensures quiet { OnOk result (errors.new ≡ errors.old) }
    ensures ends { IfErr result (FailsToStart gateway.old.config) }
{
    let service = gateway.service;
    let Some(path) = &service.journal else {
        return Ok(None);
    };
    let Some(found) = found else {
        return Ok(None);
    };
    match found.begin(system, host, gateway) {
        Ok(journal) => Ok(Some(journal)),
        Err(fault) => Err(fault.report(path, errors)),
    }
}
