ghost use Rattle.std.specs.Prelude.{◌≡◌, ◌∷◌, [], Err, IfErr, IfOk, IsErr, Ok, codes, fold, if◌then◌else◌, map, option_and_then, unwrap_or};
ghost use Rattle.clap.specs.declared.error.kind.ErrorKind.TheVariants.{ValueValidation};
ghost use Rattle.clap.specs.Walk.{all_of, first_of};
ghost use Rattle.clap.specs.Words.{app_of, found_of, kind_of, rows_of, rule_of, with_rule};
ghost use Rattle.mg_core.specs.Peer.{peer_of};
ghost use Rattle.mg_options.specs.Requested.{IsRefused};
ghost use Rattle.mg_options.specs.Line.{text_rule};
ghost use Rattle.mg_options.specs.Numbers.{number_or};
ghost use Rattle.mg_service.specs.Address.{bind_addresses_of, own_address};
ghost use Rattle.mg_service.specs.FilePath.{file_path};
ghost use Rattle.mg_arguments.specs.aids.Options.{IsInvalid, Refuses};
ghost use Rattle.mg_arguments.specs.Options.{requested, command_line, controllers_in, options_in, repeated_rule};
ghost use Rattle.mg_arguments.specs.Options.{check_in, check_line, flag_rule, is_set, live_line, options, replay_line, run_of};
ghost use Rattle.mg_arguments.specs.Options.{durability_in, fence_in, gateway_in, named_by, gateway_rule, is_given, run_in, service_in, sockets_line, subcommand_line};

use crate::heard_options::{heard_command, script_in};
use crate::invocation::Invocation;
use crate::option_fault::OptionFault;
use crate::sealing_options::{seal_command, verify_command, verify_in};
use clap::error::ErrorKind;
use clap::{Arg, ArgAction, ArgMatches, Command, Error};
use mg_core::{Config, Peer, Shown, peer_of};
use mg_journal::Durability;
use mg_options::{long_number, long_value, program_command, short_number, short_value};
use mg_service::{
    AddressFault, BindAddressFault, BindAddresses, ConfigOptions, ControllerFault, Controllers,
    FilePath, FilePathFault, Service, own_address,
};
use std::alloc::{AllocError, Global};
use std::convert::AsStr;

/// The error message if the gateway to check isn't named by its address and port.
const NO_GATEWAY: &str =
    "invalid value for '<ADDRESS:PORT>': not an IPv4 address, a colon and a port";

/// The error message if `--sync` is given without a journal.
const NO_JOURNAL: &str = "'--sync' needs '--journal <FILE>'";

/// The error message if a fence is requested without controllers.
const NO_CONTROLLER: &str = "a fence needs '--controller <ADDRESS>'";

/// Creates an option that takes an IPv4 address. Its parser accepts any text.
fn address_option<'a>(alloc: Global, name: &'a str) -> Arg<'a>
    ensures rule { rule_of result ≡ text_rule name.now }
{
    Arg::new(alloc, name).long(name).value_name("ADDRESS")
}

/// Creates an option that takes the path of a file. Its parser accepts any text.
fn file_option<'a>(alloc: Global, name: &'a str) -> Arg<'a>
    ensures rule { rule_of result ≡ text_rule name.now }
{
    Arg::new(alloc, name).long(name).value_name("FILE")
}

/// Adds the options of a gateway's configuration, which `replay`, `serve` and `live` have.
fn with_options<'a>(alloc: Global, command: Command<'a>) -> Result<Command<'a>, Error>
    ensures app { IfOk result (λ with. app_of with ≡ fold with_rule (app_of command.entry) options) }
    ensures memory { IfErr result (λ error. kind_of error ≡ ErrorKind.OutOfMemory) }
{
    let command = command
        .arg(address_option(alloc, "address").help("IPv4 address for media [default: 127.0.0.1]"))?
        .arg(address_option(alloc, "control-address").help(
            "IPv4 address for control messages [default: the value of --address]",
        ))?
        .arg(short_number(alloc, "control-port").help(
            "UDP port for control messages, 1–65535 [default: 2944]",
        ))?
        .arg(short_number(alloc, "base-port").help(
            "First UDP port for media, even, 2–65534 [default: 30000]",
        ))?
        .arg(short_number(alloc, "slots").help(
            "Number of media ports, one per termination, 1–256 [default: 256]",
        ))?
        .arg(long_number(alloc, "first-termination").help(
            "Number of the first termination, 1–4294967295 [default: 1]",
        ))?
        .arg(long_number(alloc, "first-context").help(
            "Number of the first context, 1–4294967293 [default: 1]",
        ))?
        .arg(long_number(alloc, "ssrc").help(
            "Base SSRC, to which a termination adds its number, 0–4294967295 [default: 0; live: random]",
        ))?
        .arg(short_number(alloc, "sequence").help(
            "RTP sequence number of a termination's first packet, 0–65535 [default: 0; live: random]",
        ))?
        .arg(long_number(alloc, "timestamp").help(
            "RTP timestamp of a termination's first tick, 0–4294967295 [default: 0; live: random]",
        ))?;
    Ok(command)
}

/// Creates an option that takes an IPv4 address and can be given several times. Its parser accepts any text.
fn addresses_option<'a>(alloc: Global, name: &'a str) -> Arg<'a>
    ensures rule { rule_of result ≡ repeated_rule name.now }
{
    address_option(alloc, name).action(ArgAction::Append)
}

/// Creates a flag: an option without a value, which is set if it is given.
pub(crate) fn flag<'a>(alloc: Global, name: &'a str) -> Arg<'a>
    ensures rule { rule_of result ≡ flag_rule name.now }
{
    Arg::new(alloc, name).long(name).action(ArgAction::SetTrue)
}

/// Creates a subcommand with the options of a gateway's configuration.
fn subcommand<'a>(alloc: Global, name: &'a str, about: &'a str) -> Result<Command<'a>, Error>
    ensures app { IfOk result (λ command. app_of command ≡ subcommand_line name.now) }
    ensures memory { IfErr result (λ error. kind_of error ≡ ErrorKind.OutOfMemory) }
{
    with_options(alloc, Command::new(alloc, name).about(about))
}

/// Creates a subcommand for a gateway on sockets.
fn on_sockets<'a>(alloc: Global, name: &'a str, about: &'a str) -> Result<Command<'a>, Error>
    ensures app { IfOk result (λ command. app_of command ≡ sockets_line name.now) }
    ensures memory { IfErr result (λ error. kind_of error ≡ ErrorKind.OutOfMemory) }
{
    let command = subcommand(alloc, name, about)?
        .arg(addresses_option(alloc, "bind-address").help(
            "IPv4 address to bind all ports to, repeatable up to 8 times: the others get only a control port [default: the values of --address and --control-address]",
        ))?
        .arg(addresses_option(alloc, "controller").help(
            "IPv4 address of a controller, repeatable up to 8 times [default: any address]",
        ))?
        .arg(short_number(alloc, "report").help(
            "Seconds between reports on standard error, 0–65535, 0 = never [default: 0]",
        ))?
        .arg(flag(alloc, "record").help(
            "Record all events on standard output, for `mg_bridge replay`",
        ))?
        .arg(flag(alloc, "symmetric-rtp").help(
            "Accept RTP only from the address and port of a termination's Remote (RFC 4961)",
        ))?
        .arg(file_option(alloc, "journal").help(
            "File for a journal of messages and ticks, from which a restarted gateway continues",
        ))?
        .arg(flag(alloc, "sync").help("Sync each message to disk before answering it"))?
        .arg(long_number(alloc, "checkpoint-every").help(
            "Messages between checkpoints of the journal, 0–4294967295, 0 = only every 3 MB [default: 0]",
        ))?
        .arg(flag(alloc, "fence").help(
            "Drop messages whose sender's number, as in <17.lobby.example>, is below the highest one",
        ))?
        .arg(flag(alloc, "fence-strict").help(
            "The same, and also drop messages without a number, except for those of check",
        ))?
        .arg(long_number(alloc, "fence-from").help(
            "The same as --fence, but begin at this number, 0–4294967295, and not where the journal ends",
        ))?;
    Ok(command)
}

/// Creates the subcommand that runs a script.
fn replay<'a>(alloc: Global) -> Result<Command<'a>, Error>
    ensures app { IfOk result (λ command. app_of command ≡ replay_line) }
    ensures memory { IfErr result (λ error. kind_of error ≡ ErrorKind.OutOfMemory) }
{
    let about = "Run a script from standard input, and print its answers and packets";
    let command = subcommand(alloc, "replay", about)?.arg(flag(alloc, "flows").help(
        "Also print, as comments, how each event changes contexts, modes and who hears whom",
    ))?;
    Ok(command)
}

/// Creates the subcommand for a gateway in real time.
fn live<'a>(alloc: Global) -> Result<Command<'a>, Error>
    ensures app { IfOk result (λ command. app_of command ≡ live_line) }
    ensures memory { IfErr result (λ error. kind_of error ≡ ErrorKind.OutOfMemory) }
{
    let command = on_sockets(alloc, "live", "Run a gateway on UDP ports in real time")?
        .arg(short_number(alloc, "late").help(
            "Maximum lateness of sent packets, in ticks of 20 ms, 0–65535 [default: 5]",
        ))?
        .arg(file_option(alloc, "metrics").help(
            "File for metrics in Prometheus' text format, replaced every 5 seconds",
        ))?;
    Ok(command)
}

/// Creates the argument that names the gateway to check.
fn gateway_argument<'a>(alloc: Global) -> Arg<'a>
    ensures rule { rule_of result ≡ gateway_rule }
{
    Arg::new(alloc, "gateway")
        .value_name("ADDRESS:PORT")
        .required(true)
        .help("IPv4 address and control port of the gateway")
}

/// Creates the subcommand that checks a gateway.
fn check<'a>(alloc: Global) -> Result<Command<'a>, Error>
    ensures app { IfOk result (λ command. app_of command ≡ check_line) }
    ensures memory { IfErr result (λ error. kind_of error ≡ ErrorKind.OutOfMemory) }
{
    let command = Command::new(alloc, "check")
        .about("Check that a gateway answers messages from this machine")
        .arg(gateway_argument(alloc))?
        .arg(address_option(alloc, "source").help(
            "IPv4 address of this machine to send from [default: the system's choice]",
        ))?;
    Ok(command)
}

/// Creates the program's command line.
fn command<'a>(alloc: Global) -> Result<Command<'a>, Error>
    ensures app { IfOk result (λ command. app_of command ≡ command_line) }
    ensures memory { IfErr result (λ error. kind_of error ≡ ErrorKind.OutOfMemory) }
{
    let replay = replay(alloc)?;
    let serve = on_sockets(
        alloc,
        "serve",
        "Run a gateway on UDP ports, driven by lines on standard input: poll, tick, stats, quit",
    )?;
    let about = "A conference media gateway controlled by Megaco/H.248";
    let command = program_command(alloc, "mg_bridge", about)
        .subcommand_required(true)
        .subcommand(replay)?
        .subcommand(serve)?
        .subcommand(live(alloc)?)?
        .subcommand(check(alloc)?)?
        .subcommand(heard_command(alloc)?)?
        .subcommand(verify_command(alloc)?)?
        .subcommand(seal_command(alloc))?;
    Ok(command)
}

/// Returns the address that an option names, or `None` if the option isn't given.
fn address_of(name: &str, matches: &ArgMatches<'_>) -> Result<Option<[u8; 4]>, AddressFault>
    ensures value { result ≡ named_by own_address name.now (rows_of (found_of matches.now)) }
{
    match matches.get_str(name) {
        Some(text) => match own_address(text) {
            Ok(address) => Ok(Some(address)),
            Err(fault) => Err(fault),
        },
        None => Ok(None),
    }
}

/// Returns the options of a gateway's configuration, or the error message.
fn options_in(matches: &ArgMatches<'_>) -> Result<ConfigOptions, &'static str>
    ensures options { IfOk result (λ given. options_in (rows_of (found_of matches.now)) ≡ Ok given) }
    ensures refused { IfErr result (λ _. options_in (rows_of (found_of matches.now)) ≡ Err (ValueValidation ∷ [])) }
{
    let address = match address_of("address", matches) {
        Ok(address) => address,
        Err(fault) => return Err(fault.message()),
    };
    let control_address = match address_of("control-address", matches) {
        Ok(address) => address,
        Err(fault) => return Err(fault.control_message()),
    };
    Ok(ConfigOptions {
        address,
        control_address,
        control_port: short_value(matches, "control-port"),
        base_port: short_value(matches, "base-port"),
        slots: short_value(matches, "slots"),
        first_termination: long_value(matches, "first-termination"),
        first_context: long_value(matches, "first-context"),
        ssrc: long_value(matches, "ssrc"),
        sequence: short_value(matches, "sequence"),
        timestamp: long_value(matches, "timestamp"),
    })
}

/// Returns the maximum lateness, in ticks of 20 ms, at which a tick's packets are still sent.
fn late_of(matches: &ArgMatches<'_>) -> u16
    ensures value { result ≡ number_or 65536 (codes "late") 5 (rows_of (found_of matches.now)) }
{
    short_value(matches, "late").unwrap_or(5)
}

/// Returns the seconds between reports, or 0 for no reports.
fn report_of(matches: &ArgMatches<'_>) -> u16
    ensures value { result ≡ number_or 65536 (codes "report") 0 (rows_of (found_of matches.now)) }
{
    short_value(matches, "report").unwrap_or(0)
}

/// Returns the number of messages after which the journal is renewed, or 0 if their number doesn't matter.
fn checkpoint_every_of(matches: &ArgMatches<'_>) -> u32
    ensures value { result ≡ number_or 4294967296 (codes "checkpoint-every") 0 (rows_of (found_of matches.now)) }
{
    long_value(matches, "checkpoint-every").unwrap_or(0)
}

/// Returns whether a flag is set.
pub(crate) fn is_set(name: &str, matches: &ArgMatches<'_>) -> bool
    ensures value { result ≡ is_set name.now (rows_of (found_of matches.now)) }
{
    match matches.get_str(name) {
        Some(text) => text == "true",
        None => false,
    }
}

/// Returns what is written for each event of a script.
fn shown_of(matches: &ArgMatches<'_>) -> Shown
    ensures value { result ≡ (if is_set (codes "flows") (rows_of (found_of matches.now))
        then Shown.SentAndFlows else Shown.Sent) }
{
    if is_set("flows", matches) {
        Shown::SentAndFlows
    } else {
        Shown::Sent
    }
}

/// Returns the controllers named on the command line.
fn controllers_of(matches: &ArgMatches<'_>) -> Result<Controllers, ControllerFault>
    ensures value { result ≡ controllers_in (rows_of (found_of matches.now)) }
{
    match matches.get_strs("controller") {
        Some(texts) => Controllers::of(texts),
        None => Controllers::of(&[]),
    }
}

/// Returns the addresses on the command line to which sockets are to be bound.
fn bind_addresses_of(matches: &ArgMatches<'_>) -> Result<BindAddresses, BindAddressFault>
    ensures value { result ≡ bind_addresses_of (unwrap_or (all_of (codes "bind-address") (rows_of (found_of matches.now))) []) }
{
    match matches.get_strs("bind-address") {
        Some(texts) => BindAddresses::of(texts),
        None => BindAddresses::of(&[]),
    }
}

/// Returns the file that an option or an argument names, or `None` if the option or the argument isn't given.
pub(crate) fn file_of(
    name: &str,
    matches: &ArgMatches<'_>,
) -> Result<Option<FilePath>, FilePathFault>
    ensures value { result ≡ named_by file_path name.now (rows_of (found_of matches.now)) }
{
    match matches.get_str(name) {
        Some(text) => match FilePath::of(text) {
            Ok(path) => Ok(Some(path)),
            Err(fault) => Err(fault),
        },
        None => Ok(None),
    }
}

/// Returns how durably messages are appended to the journal, or the error message if there is no journal to sync.
fn durability_of(
    journal: &Option<FilePath>,
    matches: &ArgMatches<'_>,
) -> Result<Durability, &'static str>
    ensures value { IfOk result (λ durability.
        durability_in journal.now (rows_of (found_of matches.now)) ≡ Ok durability) }
    ensures refused { IfErr result (λ _.
        durability_in journal.now (rows_of (found_of matches.now)) ≡ Err (ValueValidation ∷ [])) }
{
    if !is_set("sync", matches) {
        return Ok(Durability::Written);
    }
    match journal {
        Some(_) => Ok(Durability::Synced),
        None => Err(NO_JOURNAL),
    }
}

/// Returns whether the fence is strict, or `None` if there is no fence. Returns the error message if there is a fence
/// without controllers.
fn fence_of(
    controllers: &Controllers,
    matches: &ArgMatches<'_>,
) -> Result<Option<bool>, &'static str>
    ensures value { IfOk result (λ fence. fence_in controllers.now (rows_of (found_of matches.now)) ≡ Ok fence) }
    ensures refused { IfErr result (λ _.
        fence_in controllers.now (rows_of (found_of matches.now)) ≡ Err (ValueValidation ∷ [])) }
{
    let is_strict = is_set("fence-strict", matches);
    if !(is_strict || is_set("fence", matches) || is_given("fence-from", matches)) {
        return Ok(None);
    }
    if controllers.as_slice().is_empty() {
        return Err(NO_CONTROLLER);
    }
    Ok(Some(is_strict))
}

/// Returns whether an option is given.
pub(crate) fn is_given(name: &str, matches: &ArgMatches<'_>) -> bool
    ensures value { result ≡ is_given name.now (rows_of (found_of matches.now)) }
{
    match matches.get_str(name) {
        Some(_) => true,
        None => false,
    }
}

/// Returns the options of a gateway on sockets, with these options of its configuration, or the error message.
fn service_of(given: ConfigOptions, matches: &ArgMatches<'_>) -> Result<Service, &'static str>
    ensures service { IfOk result (λ service. service_in given (rows_of (found_of matches.now)) ≡ Ok service) }
    ensures refused { IfErr result (λ _. service_in given (rows_of (found_of matches.now)) ≡ Err (ValueValidation ∷ [])) }
{
    let controllers = match controllers_of(matches) {
        Ok(controllers) => controllers,
        Err(fault) => return Err(fault.message()),
    };
    let bind_addresses = match bind_addresses_of(matches) {
        Ok(addresses) => addresses,
        Err(fault) => return Err(fault.message()),
    };
    let metrics = match file_of("metrics", matches) {
        Ok(metrics) => metrics,
        Err(fault) => return Err(fault.metrics_message()),
    };
    let journal = match file_of("journal", matches) {
        Ok(journal) => journal,
        Err(fault) => return Err(fault.journal_message()),
    };
    let durability = durability_of(&journal, matches)?;
    let fence = fence_of(&controllers, matches)?;
    Ok(Service {
        controllers,
        bind_addresses,
        report: report_of(matches),
        records: is_set("record", matches),
        symmetric_rtp: is_set("symmetric-rtp", matches),
        metrics,
        journal,
        durability,
        checkpoint_every: checkpoint_every_of(matches),
        fence,
        fence_from: long_value(matches, "fence-from"),
        given,
    })
}

/// Returns the run that a subcommand requests, with this configuration and these options of a gateway on sockets.
fn run_of(name: &str, config: Config, service: Service, matches: &ArgMatches<'_>) -> Invocation
    ensures value { result ≡ run_of name.now config service (rows_of (found_of matches.now)) }
{
    if name == "serve" {
        Invocation::Serve(config, service)
    } else if name == "live" {
        Invocation::Live(config, service, late_of(matches))
    } else {
        Invocation::Replay(config, shown_of(matches))
    }
}

/// Returns the gateway that the argument of a check names, or `None` if the argument isn't an address with a port.
fn gateway_of(matches: &ArgMatches<'_>) -> Option<Peer>
    ensures value { result ≡ option_and_then peer_of (first_of (codes "gateway") (rows_of (found_of matches.now))) }
{
    match matches.get_str("gateway") {
        Some(text) => peer_of(text.as_bytes()),
        None => None,
    }
}

/// Returns the check that the argument and the option request, or the error message.
fn check_in(matches: &ArgMatches<'_>) -> Result<Invocation, &'static str>
    ensures run { IfOk result (λ run. check_in (rows_of (found_of matches.now)) ≡ Ok run) }
    ensures refused { IfErr result (λ _. check_in (rows_of (found_of matches.now)) ≡ Err (ValueValidation ∷ [])) }
{
    let source = match address_of("source", matches) {
        Ok(address) => address,
        Err(fault) => return Err(fault.source_message()),
    };
    match gateway_of(matches) {
        Some(gateway) => Ok(Invocation::Check(gateway, source.unwrap_or([0, 0, 0, 0]))),
        None => Err(NO_GATEWAY),
    }
}

/// Returns the run that a gateway's subcommand requests with these options, or the error message.
fn gateway_in(name: &str, matches: &ArgMatches<'_>) -> Result<Invocation, &'static str>
    ensures run { IfOk result (λ run. gateway_in name.now (rows_of (found_of matches.now)) ≡ Ok run) }
    ensures refused { IfErr result (λ _. gateway_in name.now (rows_of (found_of matches.now)) ≡
        Err (ValueValidation ∷ [])) }
{
    let given = options_in(matches)?;
    let service = service_of(given, matches)?;
    Ok(run_of(name, given.config(), service, matches))
}

/// Returns a run, or the fault with an error message.
fn run_or_fault(run: Result<Invocation, &'static str>) -> Result<Invocation, OptionFault>
    ensures run { IfOk result (λ found. run.entry ≡ Ok found) }
    ensures refused { IfErr result (λ fault. IsErr run.entry × IsInvalid fault) }
{
    match run {
        Ok(run) => Ok(run),
        Err(message) => Err(OptionFault::Invalid(message)),
    }
}

/// Returns the run that a subcommand requests with these options and arguments.
fn run_in(alloc: Global, name: &str, matches: &ArgMatches<'_>) -> Result<Invocation, OptionFault>
    ensures run { IfOk result (λ run. run_in name.now (rows_of (found_of matches.now)) ≡ Ok run) }
    ensures refused { IfErr result (λ fault. Refuses fault (run_in name.now (rows_of (found_of matches.now)))) }
{
    if name == "check" {
        run_or_fault(check_in(matches))
    } else if name == "heard" {
        script_in(alloc, matches)
    } else if name == "verify" {
        verify_in(alloc, matches)
    } else if name == "seal" {
        Ok(Invocation::Seal)
    } else {
        run_or_fault(gateway_in(name, matches))
    }
}

/// Returns the run that the arguments request. The arguments don't include the program's name.
///
/// If the arguments don't request a run, the caller must report the error: a usage error, a request for help or the
/// version, or lack of memory.
pub fn requested_run<'a, S: AsStr>(alloc: Global, words: &'a [S]) -> Result<Invocation, Error>
    ensures run { IfOk result (λ run. requested (map S.text words.now) ≡ Ok run) }
    ensures refused { IfErr result (λ error. IsRefused (requested (map S.text words.now)) (kind_of error)) }
{
    let mut command = command(alloc)?;
    let matches = command.try_get_matches_from_mut(words)?;
    let Some((name, options)) = matches.subcommand() else {
        unreachable!();
    };
    match run_in(alloc, name, options) {
        Ok(run) => Ok(run),
        Err(OptionFault::Invalid(message)) => {
            Err(command.error(ErrorKind::ValueValidation, message)?)
        }
        Err(OptionFault::NoMemory) => Err(Error::from(AllocError)),
    }
}
