ghost use Rattle.std.specs.Prelude.{◌≡◌, ◌≢◌, ◌++◌, ℕ, List, Option, true, codes, IfOk, IfSome, IsSome, None, Some, []};
ghost use Rattle.std.specs.Io.{StartsWith};
ghost use Rattle.mg_journal.specs.Text.{whole_lines};
ghost use Rattle.mg_journal.specs.aids.Opened.{text_in};
ghost use Rattle.mg_chain.specs.Seals.{seals_of};
ghost use Rattle.mg_engine.specs.Config.{IsValidConfig};
ghost use Rattle.mg_service.specs.ConfigOptions.{config_or};
ghost use Rattle.mg_service.specs.Title.{title_line};
ghost use Rattle.mg_start.specs.aids.Starting.{CanResume, may_be_title};

use crate::faults::{read_fault, run_fault};
use crate::front::FRONT;
use crate::journal_fault::JournalFault;
use crate::journal_reader::JournalReader;
use crate::reading::{FileKey, Reading};
use crate::renewed::{is_renewed, run_renewed};
use crate::resumed::Resumed;
use memchr::memchr;
use mg_chain::read_seals;
use mg_core::{Config, Core, resume};
use mg_dates::Timeline;
use mg_journal::{JournalFile, Opening};
use mg_service::{ConfigFault, ConfigOptions, titled};
use std::alloc::Global;
use std::marker::Brand;

/// The beginning of a title's line.
const TITLE_START: &[u8] = b"# mg_bridge replay ";

/// The state of a gateway after a journal's events.
#[derive(Drop)]
pub(crate) struct History {
    pub config: Config,
    pub core: Core,
    pub timeline: Timeline,
    /// The number that the journal's messages have reached. A fence begins at this number unless an operator sets it.
    pub reached: u32,
}

/// A journal, and the state of its gateway after the journal's events. If the journal is empty, the state is `None`.
#[derive(Drop)]
pub(crate) struct Found<F: JournalFile> {
    pub opening: Opening<F>,
    pub history: Option<History>,
}

/// `front` is the beginning of a journal's text. Returns the title in its first line, or `None` if the line isn't
/// complete or isn't a comment.
fn title_in(front: &[u8]) -> Option<&[u8]>
    ensures line { IfSome result (λ title. (rest : List ℕ)
        × (front.now ≡ (codes "# " ++ (title.now ++ codes "\n")) ++ rest)) }
{
    let end = memchr(b'\n', front)?;
    front[..end].strip_prefix(b"# ".as_slice())
}

/// Returns whether `text` is the beginning of a title, or begins like a title.
fn may_be_title(text: &[u8]) -> bool
    ensures value { result ≡ may_be_title text.now }
{
    text.starts_with(TITLE_START) || TITLE_START.starts_with(text)
}

/// Checks that a file without a complete line is empty, or that its title wasn't written completely. The program later
/// removes such a title by truncating the file, and must not destroy any other file.
fn check_partial<F: JournalFile>(opening: &mut Opening<F>) -> Result<(), JournalFault>
    ensures same { opening.new ≡ opening.old }
    ensures title { IfOk result (λ _. IfSome opening.old.file.bytes (λ bytes.
        whole_lines bytes ≡ [] → may_be_title bytes ≡ true)) }
{
    let mut buffer = [0; FRONT];
    let n = match opening.peek_partial(&mut buffer) {
        Ok(n) => n,
        Err(error) => return Err(JournalFault::Read(error)),
    };
    if n as u64 != opening.partial() || !may_be_title(&buffer[..n]) {
        return Err(JournalFault::NoTitle);
    }
    Ok(())
}

/// Returns the configuration in the title of a journal, or `None` if the journal has no complete line.
fn config_in<F: JournalFile>(opening: &mut Opening<F>) -> Result<Option<Config>, JournalFault>
    ensures same { opening.new ≡ opening.old }
    ensures empty { IfOk result (λ config. config ≡ None → IfSome (text_in opening.old.file) (λ text. text ≡ [])) }
    ensures title { IfOk result (λ config. config ≡ None →
        IfSome opening.old.file.bytes (λ bytes. may_be_title bytes ≡ true)) }
    ensures lines { IfOk result (λ config. IsSome config → IfSome (text_in opening.old.file) (λ text. text ≢ [])) }
    ensures titled { IfOk result (λ found. IfSome found (λ config.
        IfSome (text_in opening.old.file) (λ text. StartsWith text (title_line config)))) }
{
    if !opening.has_lines() {
        check_partial(opening)?;
        return Ok(None);
    }
    let mut buffer = [0; FRONT];
    let n = match opening.peek(&mut buffer) {
        Ok(n) => n,
        Err(error) => return Err(JournalFault::Read(error)),
    };
    let Some(title) = title_in(&buffer[..n]) else {
        return Err(JournalFault::NoTitle);
    };
    match titled(title) {
        Some(config) => Ok(Some(config)),
        None => Err(JournalFault::NoTitle),
    }
}

/// Checks that the configuration in a title is valid and agrees with the given options.
fn check_config(given: &ConfigOptions, config: &Config) -> Result<(), JournalFault>
    ensures sound { IfOk result (λ _. IsValidConfig config.now) }
    ensures agrees { IfOk result (λ _. config_or given.now config.now ≡ config.now) }
{
    if let Some(fault) = ConfigFault::of(config) {
        return Err(JournalFault::BadConfig(fault));
    }
    match given.first_difference(config) {
        Some(option) => Err(JournalFault::Differs(option)),
        None => Ok(()),
    }
}

/// Checks the seals in a journal. Returns the journal, which is at its first line again.
fn check_seals<F: JournalFile, K: FileKey>(
    alloc: Global,
    opening: Opening<F>,
) -> Result<Opening<F>, JournalFault>
where
    F: Drop,
    requires front { opening.read ≡ 0 }
    requires file { opening.file ≡ K.file }
    ensures file { IfOk result (λ o. o.file ≡ K.file) }
    ensures front { IfOk result (λ o. o.read ≡ 0) }
    ensures sealed { IfOk result (λ o. IfSome (text_in opening.file) (λ text. (seals_of text).wrong ≡ None)) }
{
    let mut reading = Reading::<F, K>::new(opening);
    let seals = match read_seals(alloc, &mut reading) {
        Ok(seals) => seals,
        Err(error) => return Err(read_fault(error)),
    };
    if let Some(line) = seals.wrong {
        return Err(JournalFault::Changed(line));
    }
    let mut opening = reading.into_opening();
    opening.rewind();
    Ok(opening)
}

/// Runs the events of a journal that wasn't renewed, without sending anything.
fn run_events<F: JournalFile, K: FileKey>(
    alloc: Global,
    config: Config,
    opening: Opening<F>,
) -> Result<Resumed<F>, JournalFault>
where
    F: Drop,
    requires front { opening.read ≡ 0 }
    requires file { opening.file ≡ K.file }
    requires lines { IfSome (text_in opening.file) (λ text. text ≢ []) }
    ensures file { IfOk result (λ r. r.opening.file ≡ K.file) }
    ensures resumed { IfOk result (λ r. CanResume (text_in opening.file) (Some r.reader.timeline) config r.core.state
        r.reader.fence.reached) }
{
    let mut reading = Reading::<F, K>::new(opening);
    let mut reader = JournalReader::new(alloc);
    match resume(alloc, config, &mut reading, &mut reader) {
        Ok(core) => Ok(Resumed {
            opening: reading.into_opening(),
            core,
            reader,
        }),
        Err(fault) => Err(run_fault(0, fault)),
    }
}

/// Runs the events of a journal without sending anything. If the journal was renewed, restores the gateway first.
fn run<F: JournalFile, K: FileKey>(
    alloc: Global,
    config: Config,
    opening: Opening<F>,
) -> Result<Resumed<F>, JournalFault>
where
    F: Drop,
    requires front { opening.read ≡ 0 }
    requires file { opening.file ≡ K.file }
    requires lines { IfSome (text_in opening.file) (λ text. text ≢ []) }
    ensures file { IfOk result (λ r. r.opening.file ≡ K.file) }
    ensures resumed { IfOk result (λ r. CanResume (text_in opening.file) (Some r.reader.timeline) config r.core.state
        r.reader.fence.reached) }
{
    let mut opening = opening;
    if is_renewed(&config, &mut opening)? {
        run_renewed::<F, K>(alloc, config, opening)
    } else {
        run_events::<F, K>(alloc, config, opening)
    }
}

/// Finds the state of a gateway after a journal's events, if the journal isn't empty. Checks the journal's seals before
/// that. Sends nothing.
pub(crate) fn find<F: JournalFile>(
    alloc: Global,
    given: &ConfigOptions,
    opening: Opening<F>,
) -> Result<Found<F>, JournalFault>
where
    F: Drop,
    requires front { opening.read ≡ 0 }
    ensures file { IfOk result (λ f. f.opening.file ≡ opening.file) }
    ensures empty { IfOk result (λ f. f.history ≡ None → IfSome (text_in opening.file) (λ text. text ≡ [])) }
    ensures title { IfOk result (λ f. f.history ≡ None →
        IfSome opening.file.bytes (λ bytes. may_be_title bytes ≡ true)) }
    ensures lines { IfOk result (λ f. IsSome f.history → IfSome (text_in opening.file) (λ text. text ≢ [])) }
    ensures sound { IfOk result (λ f. IfSome f.history (λ h. IsValidConfig h.config)) }
    ensures agrees { IfOk result (λ f. IfSome f.history (λ h. config_or given.now h.config ≡ h.config)) }
    ensures sealed { IfOk result (λ f. IsSome f.history →
        IfSome (text_in opening.file) (λ text. (seals_of text).wrong ≡ None)) }
    ensures titled { IfOk result (λ f. IfSome f.history (λ h.
        IfSome (text_in opening.file) (λ text. StartsWith text (title_line h.config)))) }
    ensures resumed { IfOk result (λ f. IfSome f.history (λ h.
        CanResume (text_in opening.file) (Some h.timeline) h.config h.core.state h.reached)) }
{
    let mut opening = opening;
    let Some(config) = config_in(&mut opening)? else {
        return Ok(Found {
            opening,
            history: None,
        });
    };
    check_config(given, &config)?;
    let opening = check_seals::<F, Brand>(alloc, opening)?;
    let resumed = run::<F, Brand>(alloc, config, opening)?;
    Ok(Found {
        opening: resumed.opening,
        history: Some(History {
            config,
            core: resumed.core,
            timeline: resumed.reader.timeline,
            reached: resumed.reader.fence.reached,
        }),
    })
}
