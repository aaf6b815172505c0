ghost use Rattle.std.specs.Prelude.{◌≡◌, [], Some, None, IfErr, IfOk, IfSome, IsNone, IsSome, MatchResult, OnOk};
ghost use Rattle.std.specs.Option.{option_map_or};
ghost use Rattle.mg_engine.specs.Config.{IsValidConfig};
ghost use Rattle.mg_core.specs.World.{start_of};
ghost use Rattle.mg_core.specs.aids.Stands.{StandsFor};
ghost use Rattle.mg_journal.specs.aids.Opened.{text_in};
ghost use Rattle.mg_service.specs.ConfigOptions.{IsDrawn};
ghost use Rattle.mg_start.specs.aids.Starting.{CanResume};
ghost use Rattle.mg_start.specs.Start.{FailsToStart, Finds, IsChosen, Opens};

use crate::found_journal::FoundJournal;
use crate::history::{Found, find};
use crate::journal_fault::JournalFault;
use crate::requested::Requested;
use arrayvec::ArrayVec;
use mg_core::{Config, Core, RunFault, StartFault};
use mg_host::{Environment, Journals, System};
use mg_journal::{JournalFile, Opening};
use mg_options::Status;
use mg_service::{ConfigFault, FilePath, Service};
use std::io::{self, ErrorKind, Write};
use std::random::RandomSource;

/// A gateway and its journal, before the ports are bound and before anything is appended to the journal.
#[derive(Drop)]
pub struct Prepared<F: JournalFile> {
    pub config: Config,
    pub core: Core,
    pub journal: Option<FoundJournal<F>>,
    /// The number that the journal's messages have reached, or 0 without a journal. A fence begins at this number
    /// unless an operator sets it.
    pub reached: u32,
}

/// The maximum length of a line for an operator, in bytes: a path and two numbers.
const LINE_ROOM: usize = 5000;

impl<F: JournalFile> Prepared<F> {
    /// Reports to an operator where the gateway resumes, if it resumes from a journal.
    pub fn tell<T: Write>(&self, service: &Service, reports: &mut T) {
        let (Some(path), Some(found)) = (&service.journal, &self.journal) else {
            return;
        };
        if found.timeline.is_none() {
            return;
        }
        let path = path.as_str();
        let counts = self.core.counts();
        let mut line = ArrayVec::<u8, LINE_ROOM>::new();
        let _ = writeln!(
            line,
            "journal {path}: continues after {} messages and {} ticks",
            counts.control, counts.ticks
        );
        let _ = reports.write_all(line.as_slice());
        let _ = reports.flush();
    }
}

/// Returns the configuration of a new gateway, for which numbers may be drawn at random. If the system has no random
/// numbers, returns the system's error.
fn configuration<G: RandomSource>(random: &G, requested: &Requested<'_>) -> io::Result<Config>
    ensures drawn { IfOk result (λ config. IsDrawn requested.now.draws requested.now.service.now.given
        requested.now.config config) }
{
    if requested.draws {
        requested.service.given.draw(random, &requested.config)
    } else {
        Ok(requested.config)
    }
}

/// Creates a new gateway. If that fails, reports the fault to `errors` and returns the program's exit status.
fn new_gateway<E: Environment, F: JournalFile>(
    system: &System<'_, E>,
    requested: Requested<'_>,
    opening: Option<Opening<F>>,
    errors: &mut E::Errors,
) -> Result<Prepared<F>, Status>
where
    F: Drop,
    ensures sound { IfOk result (λ p. IsValidConfig p.config) }
    ensures drawn { IfOk result (λ p. IsDrawn requested.entry.draws requested.entry.service.now.given
        requested.entry.config p.config) }
    ensures start { IfOk result (λ p. StandsFor p.core.state (start_of p.config)) }
    ensures journal { IfOk result (λ p. IsSome opening → IsSome p.journal) }
    ensures file { IfOk result (λ p. option_map_or (λ j. text_in j.opening.file) p.journal (Some [])
        ≡ option_map_or (λ o. text_in o.file) opening (Some [])) }
    ensures times { IfOk result (λ p. IfSome p.journal (λ j. IsNone j.timeline)) }
    ensures reached { IfOk result (λ p. p.reached ≡ 0) }
    ensures quiet { OnOk result (errors.new ≡ errors.old) }
    ensures ends { IfErr result (FailsToStart requested.entry.config) }
{
    let config = requested.config;
    if let Some(fault) = ConfigFault::of(&config) {
        let _ = writeln!(errors, "{}: {fault}", RunFault::BadConfig);
        return Err(Status::Usage);
    }
    let config = match configuration(system.random, &requested) {
        Ok(config) => config,
        Err(error) => {
            let _ = writeln!(errors, "cannot draw random numbers: {error}");
            return Err(Status::Failed);
        }
    };
    let journal = opening.map(|opening| FoundJournal {
        opening,
        timeline: None,
    });
    match Core::new(system.alloc, config) {
        Ok(core) => Ok(Prepared {
            config,
            core,
            journal,
            reached: 0,
        }),
        Err(_) => {
            let _ = writeln!(errors, "{}", RunFault::NoMemory);
            Err(Status::NoMemory)
        }
    }
}

/// Resumes a gateway from its journal. If the journal is empty, creates a new gateway. If either fails, reports the
/// fault to `errors` and returns the program's exit status.
fn resume_or_create<E: Environment, F: JournalFile>(
    system: &System<'_, E>,
    requested: Requested<'_>,
    path: &FilePath,
    opening: Opening<F>,
    errors: &mut E::Errors,
) -> Result<Prepared<F>, Status>
where
    F: Drop,
    requires front { opening.read ≡ 0 }
    ensures sound { IfOk result (λ p. IsValidConfig p.config) }
    ensures chosen { IfOk result (λ p. IsChosen (text_in opening.file) requested.entry.draws
        requested.entry.service.now.given requested.entry.config p.config) }
    ensures resumed { IfOk result (λ p. CanResume (text_in opening.file)
        (option_map_or (λ j. j.timeline) p.journal None) p.config p.core.state p.reached) }
    ensures file { IfOk result (λ p. option_map_or (λ j. text_in j.opening.file) p.journal (Some []) ≡ text_in opening.file) }
    ensures found { IfOk result (λ p. IsSome p.journal) }
    ensures quiet { OnOk result (errors.new ≡ errors.old) }
    ensures ends { IfErr result (FailsToStart requested.entry.config) }
{
    let found = match find(system.alloc, &requested.service.given, opening) {
        Ok(found) => found,
        Err(fault) => return Err(fault.report(path, errors)),
    };
    let Found { opening, history } = found;
    let Some(history) = history else {
        return new_gateway(system, requested, Some(opening), errors);
    };
    Ok(Prepared {
        config: history.config,
        core: history.core,
        journal: Some(FoundJournal {
            opening,
            timeline: Some(history.timeline),
        }),
        reached: history.reached,
    })
}

/// Returns the fault for a journal that couldn't be opened.
fn opening_fault(error: io::Error) -> JournalFault {
    match error.kind() {
        ErrorKind::WouldBlock => JournalFault::InUse,
        _ => JournalFault::Open(error),
    }
}

/// Opens a journal's file, and finds its complete lines.
fn open<H: Journals>(host: &mut H, path: &FilePath) -> Result<Opening<H::File>, JournalFault>
    ensures opened { MatchResult result
        (λ o. Finds (Some path.now) (H.calls host.old) (H.calls host.new) (text_in o.file))
        (λ fault. Opens (Some path.now) (H.calls host.old) (H.calls host.new)) }
    ensures front { IfOk result (λ o. o.read ≡ 0) }
{
    let file = match host.open_journal(path.as_str()) {
        Ok(file) => file,
        Err(error) => return Err(opening_fault(error)),
    };
    match Opening::new(file) {
        Ok(opening) => Ok(opening),
        Err(error) => Err(opening_fault(error)),
    }
}

/// Prepares a gateway, which is new or resumes from its journal. If that fails, reports the fault to `errors` and
/// returns the program's exit status.
///
/// Nothing is sent, and nothing is written to a journal.
pub fn prepare<E: Environment>(
    system: &System<'_, E>,
    host: &mut E::Host,
    requested: Requested<'_>,
    errors: &mut E::Errors,
) -> Result<Prepared<<E::Host as Journals>::File>, Status>
    ensures opened { MatchResult result
        (λ p. Finds requested.entry.service.now.journal (E.Host.calls host.old) (E.Host.calls host.new)
        (option_map_or (λ j. text_in j.opening.file) p.journal (Some [])))
        (λ status. Opens requested.entry.service.now.journal (E.Host.calls host.old) (E.Host.calls host.new)) }
    ensures sound { IfOk result (λ p. IsValidConfig p.config) }
    ensures chosen { IfOk result (λ p. IsChosen (option_map_or (λ j. text_in j.opening.file) p.journal (Some []))
        requested.entry.draws requested.entry.service.now.given requested.entry.config p.config) }
    ensures resumed { IfOk result (λ p. CanResume (option_map_or (λ j. text_in j.opening.file) p.journal (Some []))
        (option_map_or (λ j. j.timeline) p.journal None) p.config p.core.state p.reached) }
    ensures found { IfOk result (λ p. IsSome requested.entry.service.now.journal → IsSome p.journal) }
    ensures quiet { OnOk result (errors.new ≡ errors.old) }
    ensures ends { IfErr result (FailsToStart requested.entry.config) }
{
    let Some(path) = &requested.service.journal else {
        return new_gateway(system, requested, None, errors);
    };
    let opening = match open(host, path) {
        Ok(opening) => opening,
        Err(fault) => return Err(fault.report(path, errors)),
    };
    resume_or_create(system, requested, path, opening, errors)
}
