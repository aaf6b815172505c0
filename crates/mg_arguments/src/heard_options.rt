//! The options of `mg_bridge heard`.

ghost use Rattle.std.specs.Prelude.{◌≡◌, ◌∷◌, [], Err, IfErr, IfOk, Ok, codes, fold, take};
ghost use Rattle.clap.specs.declared.error.kind.ErrorKind.TheVariants.{ValueValidation};
ghost use Rattle.clap.specs.Words.{app_of, found_of, kind_of, rows_of, rule_of, with_rule};
ghost use Rattle.mg_dates.specs.Dates.{date_of_text};
ghost use Rattle.mg_options.specs.Line.{text_rule};
ghost use Rattle.mg_arguments.specs.ZoneName.{zone_name};
ghost use Rattle.mg_arguments.specs.aids.Asking.{request_for};
ghost use Rattle.mg_arguments.specs.aids.Options.{PathsAre, Refuses};
ghost use Rattle.mg_arguments.specs.Options.{asked_in, asks_for_two_times, audible_of, files_rule, form_in, format_of, heard_line, heard_of, heard_options, later_in, number_named, printing_in, query_in, repeated_rule, request_in, reshapes_page, rules_in, script_in, selects_part, value_by, watch_in};

use crate::audible_request::AudibleRequest;
use crate::file_paths::FilePaths;
use crate::heard_request::HeardRequest;
use crate::invocation::Invocation;
use crate::option_fault::OptionFault;
use crate::options::{file_of, flag, is_given, is_set};
use crate::printing::Printing;
use crate::rule_fault::RuleFault;
use crate::rules::Rules;
use crate::watch_request::WatchRequest;
use crate::zone_name::ZoneName;
use clap::error::ErrorKind;
use clap::{Arg, ArgAction, ArgMatches, Command, Error};
use mg_dates::Date;
use mg_heard::{Asked, AskedQuery, Format, PartyName};
use std::alloc::Global;

const NO_LISTENER: &str =
    "invalid value for '--listener <NAME>': not RTP/1, an IPv4 address with or without a port, or (with '--names') a name";

const NO_TALKER: &str =
    "invalid value for '--talker <NAME>': not RTP/1, an IPv4 address with or without a port, or (with '--names') a name";

const NO_TIME: &str = "invalid value for '--at <TIME>': not a time such as 2026-11-27T14:03:20Z";

const NO_FROM: &str = "invalid value for '--from <TIME>': not a time such as 2026-11-27T14:03:20Z";

const NO_TO: &str = "invalid value for '--to <TIME>': not a time such as 2026-11-27T14:03:20Z";

const NO_ZONE: &str = "invalid value for '--zone <ZONE>': empty, or longer than 64 bytes";

const NO_FORMAT: &str = "invalid value for '--format <FORMAT>': not text, csv or json";

/// The error message for an option that rules don't allow.
const NO_PART: &str =
    "'--never' can't be used with '--listener', '--talker', '--at', '--from', '--to', '--audible' or '--report'";

/// The error message if the talker of an audible interval isn't given by number.
const NO_NUMBER: &str =
    "'--audible' needs '--talker' with the number of a termination, such as RTP/1";

/// The error message if `--audible` is used with a single time.
const NO_SINGLE_TIME: &str = "'--audible' can't be used with '--at'";

/// The error message if a single time and a period are given.
const NO_PERIOD: &str = "'--at' can't be used with '--from' or '--to'";

/// The error message for an option that a page doesn't allow.
const NO_FORM: &str = "'--report' can't be used with '--format', '--at' or '--audible'";

/// Creates an option whose value is any string.
fn option<'a>(alloc: Global, name: &'a str, value: &'a str) -> Arg<'a>
    ensures rule { rule_of result ≡ text_rule name.now }
{
    Arg::new(alloc, name).long(name).value_name(value)
}

/// Creates the option for rules.
fn never_option<'a>(alloc: Global) -> Arg<'a>
    ensures rule { rule_of result ≡ repeated_rule (codes "never") }
{
    Arg::new(alloc, "never")
        .long("never")
        .value_name("RULE")
        .action(ArgAction::Append)
        .help(
            "'TALKER -> LISTENER' (* is anyone): exit with 1 as soon as this listener can hear this talker; repeatable",
        )
}

/// Creates the argument that names the files of a script.
pub(crate) fn files_argument<'a>(alloc: Global) -> Arg<'a>
    ensures rule { rule_of result ≡ files_rule }
{
    Arg::new(alloc, "file")
        .value_name("FILE")
        .action(ArgAction::Append)
        .help(
            "Journal or recording, or journals that follow one another, oldest first [default: standard input]",
        )
}

/// Adds the argument that names the files of a script, and the options that select terminations and a time.
fn with_question<'a>(alloc: Global, command: Command<'a>) -> Result<Command<'a>, Error>
    ensures app { IfOk result (λ with. app_of with ≡ fold with_rule (app_of command.entry) (take 4 heard_options)) }
    ensures memory { IfErr result (λ error. kind_of error ≡ ErrorKind.OutOfMemory) }
{
    let command = command
        .arg(files_argument(alloc))?
        .arg(option(alloc, "listener", "NAME").help(
            "Only this listener: RTP/1, the IPv4 address of its Remote with or without the port, or a name",
        ))?
        .arg(option(alloc, "talker", "NAME").help("Only this talker"))?
        .arg(option(alloc, "at", "TIME").help(
            "Only at this time; exit with 0 if the talker could be heard, 1 if not, 2 if FILE doesn't say",
        ))?;
    Ok(command)
}

/// Adds the argument that names the files of a script, and the option for rules. Also adds the options that select terminations, a
/// time, a period or audible intervals.
fn with_period<'a>(alloc: Global, command: Command<'a>) -> Result<Command<'a>, Error>
    ensures app { IfOk result (λ with. app_of with ≡ fold with_rule (app_of command.entry) (take 8 heard_options)) }
    ensures memory { IfErr result (λ error. kind_of error ≡ ErrorKind.OutOfMemory) }
{
    let command = with_question(alloc, command)?
        .arg(option(alloc, "from", "TIME").help(
            "Leave out intervals and gaps that ended by this time",
        ))?
        .arg(option(alloc, "to", "TIME").help(
            "Leave out intervals and gaps that began at this time or later",
        ))?
        .arg(flag(alloc, "audible").help(
            "Only when the talker's speech changed what the listener was sent; needs a full recording and --talker RTP/1",
        ))?
        .arg(never_option(alloc))?;
    Ok(command)
}

/// Creates the subcommand that reports who could hear whom.
pub(crate) fn heard_command<'a>(alloc: Global) -> Result<Command<'a>, Error>
    ensures app { IfOk result (λ command. app_of command ≡ heard_line) }
    ensures memory { IfErr result (λ error. kind_of error ≡ ErrorKind.OutOfMemory) }
{
    let about = "Say who could hear whom, and when, from a journal or a recording";
    let command = with_period(alloc, Command::new(alloc, "heard").about(about))?
        .arg(option(alloc, "zone", "ZONE").help(
            "Print times in this time zone, as in --zone Europe/Berlin, --zone +01:00 or --zone=-05:00 [default: UTC]",
        ))?
        .arg(option(alloc, "names", "FILE").help(
            "CSV file with names: in each line RTP/1 or an address as for --listener, and a name",
        ))?
        .arg(option(alloc, "format", "FORMAT").help("text, csv or json [default: text]"))?
        .arg(flag(alloc, "report").help("Write an HTML page with a table and a timeline"))?;
    Ok(command)
}

/// Returns the terminations that an option names, or `None` if the option isn't given. Returns the error message if the
/// text is invalid.
fn name_of(
    name: &str,
    message: &'static str,
    matches: &ArgMatches<'_>,
) -> Result<Option<Asked>, &'static str>
    ensures value { IfOk result (λ party. value_by (asked_in (rows_of (found_of matches.now))) name.now
        (rows_of (found_of matches.now)) ≡ Ok party) }
    ensures refused { IfErr result (λ _. value_by (asked_in (rows_of (found_of matches.now))) name.now (rows_of (found_of matches.now)) ≡
        Err (ValueValidation ∷ [])) }
{
    let Some(text) = matches.get_str(name) else {
        return Ok(None);
    };
    match Asked::of(text.as_bytes(), is_given("names", matches)) {
        Some(party) => Ok(Some(party)),
        None => Err(message),
    }
}

/// Returns the time that an option names, or `None` if the option isn't given. Returns the error message if the text is
/// invalid.
fn time_of(
    name: &str,
    message: &'static str,
    matches: &ArgMatches<'_>,
) -> Result<Option<Date>, &'static str>
    ensures value { IfOk result (λ time. value_by date_of_text name.now (rows_of (found_of matches.now)) ≡ Ok time) }
    ensures refused { IfErr result (λ _. value_by date_of_text name.now (rows_of (found_of matches.now)) ≡
        Err (ValueValidation ∷ [])) }
{
    let Some(text) = matches.get_str(name) else {
        return Ok(None);
    };
    match Date::of_text(text) {
        Some(date) => Ok(Some(date)),
        None => Err(message),
    }
}

/// Returns the format with this name, or `None` if there is no such format.
fn format_of(text: &str) -> Option<Format>
    ensures value { result ≡ format_of text.now }
{
    if text == "text" {
        Some(Format::Text)
    } else if text == "csv" {
        Some(Format::Csv)
    } else if text == "json" {
        Some(Format::Json)
    } else {
        None
    }
}

/// Returns the format that an option names, or `None` if the option isn't given. Returns the error message if the text
/// is invalid.
fn given_format(matches: &ArgMatches<'_>) -> Result<Option<Format>, &'static str>
    ensures value { IfOk result (λ format. value_by format_of (codes "format") (rows_of (found_of matches.now)) ≡
        Ok format) }
    ensures refused { IfErr result (λ _. value_by format_of (codes "format") (rows_of (found_of matches.now)) ≡
        Err (ValueValidation ∷ [])) }
{
    let Some(text) = matches.get_str("format") else {
        return Ok(None);
    };
    match format_of(text) {
        Some(format) => Ok(Some(format)),
        None => Err(NO_FORMAT),
    }
}

/// Returns whether an option is given that a page doesn't allow.
fn reshapes_page(matches: &ArgMatches<'_>) -> bool
    ensures value { result ≡ reshapes_page (rows_of (found_of matches.now)) }
{
    is_given("format", matches) || is_given("at", matches) || is_set("audible", matches)
}

/// Returns the format in which the options ask to print, or the error message.
fn form_in(matches: &ArgMatches<'_>) -> Result<Format, &'static str>
    ensures value { IfOk result (λ format. form_in (rows_of (found_of matches.now)) ≡ Ok format) }
    ensures refused { IfErr result (λ _. form_in (rows_of (found_of matches.now)) ≡ Err (ValueValidation ∷ [])) }
{
    if is_set("report", matches) {
        if reshapes_page(matches) {
            return Err(NO_FORM);
        }
        return Ok(Format::Page);
    }
    let format = given_format(matches)?;
    Ok(format.unwrap_or(Format::Text))
}

/// Returns the time zone that an option names, or `None` if the option isn't given. Returns the error message if the
/// text is invalid.
fn given_zone(matches: &ArgMatches<'_>) -> Result<Option<ZoneName>, &'static str>
    ensures value { IfOk result (λ zone. value_by zone_name (codes "zone") (rows_of (found_of matches.now)) ≡ Ok zone) }
    ensures refused { IfErr result (λ _. value_by zone_name (codes "zone") (rows_of (found_of matches.now)) ≡
        Err (ValueValidation ∷ [])) }
{
    let Some(text) = matches.get_str("zone") else {
        return Ok(None);
    };
    match ZoneName::of(text) {
        Some(zone) => Ok(Some(zone)),
        None => Err(NO_ZONE),
    }
}

/// Returns the style in which answers about a script are printed, or the error message.
fn printing_in(matches: &ArgMatches<'_>) -> Result<Printing, &'static str>
    ensures value { IfOk result (λ printing. printing_in (rows_of (found_of matches.now)) ≡ Ok printing) }
    ensures refused { IfErr result (λ _. printing_in (rows_of (found_of matches.now)) ≡ Err (ValueValidation ∷ [])) }
{
    let format = form_in(matches)?;
    let zone = given_zone(matches)?;
    let names = match file_of("names", matches) {
        Ok(names) => names,
        Err(fault) => return Err(fault.names_message()),
    };
    Ok(Printing {
        format,
        zone,
        names,
    })
}

/// Returns the query that the options make, or the error message.
fn query_in(matches: &ArgMatches<'_>) -> Result<AskedQuery, &'static str>
    ensures query { IfOk result (λ query. query_in (rows_of (found_of matches.now)) ≡ Ok query) }
    ensures refused { IfErr result (λ _. query_in (rows_of (found_of matches.now)) ≡ Err (ValueValidation ∷ [])) }
{
    let listener = name_of("listener", NO_LISTENER, matches)?;
    let talker = name_of("talker", NO_TALKER, matches)?;
    let from = time_of("from", NO_FROM, matches)?;
    let until = time_of("to", NO_TO, matches)?;
    Ok(AskedQuery {
        listener,
        talker,
        from,
        until,
    })
}

/// Returns the files after the first one.
pub(crate) fn later_in(alloc: Global, matches: &ArgMatches<'_>) -> Result<FilePaths, OptionFault>
    ensures value { PathsAre (later_in (rows_of (found_of matches.now))) result }
{
    match matches.get_strs("file") {
        Some(texts) => FilePaths::after_first(alloc, texts),
        None => Ok(FilePaths::none(alloc)),
    }
}

/// Returns the question that the options ask about a script.
fn request_in(alloc: Global, matches: &ArgMatches<'_>) -> Result<HeardRequest, OptionFault>
    ensures request { IfOk result (λ request. request_in (rows_of (found_of matches.now)) ≡ Ok request) }
    ensures refused { IfErr result (λ fault. Refuses fault (request_in (rows_of (found_of matches.now)))) }
{
    let query = match query_in(matches) {
        Ok(query) => query,
        Err(message) => return Err(OptionFault::Invalid(message)),
    };
    let at = match time_of("at", NO_TIME, matches) {
        Ok(at) => at,
        Err(message) => return Err(OptionFault::Invalid(message)),
    };
    let printing = match printing_in(matches) {
        Ok(printing) => printing,
        Err(message) => return Err(OptionFault::Invalid(message)),
    };
    let file = match file_of("file", matches) {
        Ok(file) => file,
        Err(fault) => return Err(OptionFault::Invalid(fault.script_message())),
    };
    match later_in(alloc, matches) {
        Ok(later) => Ok(HeardRequest {
            file,
            later,
            printing,
            query,
            at,
        }),
        Err(fault) => Err(fault),
    }
}

/// Returns whether a question asks about both a single time and a period.
fn asks_for_two_times(request: &HeardRequest) -> bool
    ensures value { result ≡ asks_for_two_times request.now }
{
    request.at.is_some() && (request.query.from.is_some() || request.query.until.is_some())
}

/// Returns the run that answers who could hear whom, or the error message if the question asks about a single time and
/// a period.
fn heard_of(request: HeardRequest) -> Result<Invocation, &'static str>
    ensures run { IfOk result (λ run. heard_of request ≡ Ok run) }
    ensures refused { IfErr result (λ _. heard_of request ≡ Err (ValueValidation ∷ [])) }
{
    if asks_for_two_times(&request) {
        return Err(NO_PERIOD);
    }
    Ok(Invocation::Heard(request))
}

/// Returns the run for the question of who could hear whom, as the options ask it.
fn heard_in(alloc: Global, matches: &ArgMatches<'_>) -> Result<Invocation, OptionFault>
    ensures run { IfOk result (λ run. request_for heard_of (rows_of (found_of matches.now)) ≡ Ok run) }
    ensures refused { IfErr result (λ fault. Refuses fault (request_for heard_of (rows_of (found_of matches.now)))) }
{
    match request_in(alloc, matches) {
        Ok(request) => match heard_of(request) {
            Ok(run) => Ok(run),
            Err(message) => Err(OptionFault::Invalid(message)),
        },
        Err(fault) => Err(fault),
    }
}

/// Returns the number in a key, or `None` if the key isn't a termination's number.
fn number_named(asked: &Option<Asked>) -> Option<u32>
    ensures value { result ≡ number_named asked.now }
{
    match asked {
        Some(Asked::Key(PartyName::Termination(number))) => Some(*number),
        Some(Asked::Key(PartyName::Address(_))) => None,
        Some(Asked::Key(PartyName::Remote(_))) => None,
        Some(Asked::Name(_)) => None,
        None => None,
    }
}

/// Returns the run that answers when the talker was audible. Returns the error message if the talker isn't given by
/// number, or if the question is about a single time.
fn audible_of(request: HeardRequest) -> Result<Invocation, &'static str>
    ensures run { IfOk result (λ run. audible_of request ≡ Ok run) }
    ensures refused { IfErr result (λ _. audible_of request ≡ Err (ValueValidation ∷ [])) }
{
    if request.at.is_some() {
        return Err(NO_SINGLE_TIME);
    }
    let Some(talker) = number_named(&request.query.talker) else {
        return Err(NO_NUMBER);
    };
    Ok(Invocation::Audible(AudibleRequest {
        talker,
        heard: request,
    }))
}

/// Returns the run for the question of when a talker was audible, as the options ask it.
fn audible_in(alloc: Global, matches: &ArgMatches<'_>) -> Result<Invocation, OptionFault>
    ensures run { IfOk result (λ run. request_for audible_of (rows_of (found_of matches.now)) ≡ Ok run) }
    ensures refused { IfErr result (λ fault. Refuses fault (request_for audible_of (rows_of (found_of matches.now)))) }
{
    match request_in(alloc, matches) {
        Ok(request) => match audible_of(request) {
            Ok(run) => Ok(run),
            Err(message) => Err(OptionFault::Invalid(message)),
        },
        Err(fault) => Err(fault),
    }
}

/// Returns whether an option is given that rules don't allow.
fn selects_part(matches: &ArgMatches<'_>) -> bool
    ensures value { result ≡ selects_part (rows_of (found_of matches.now)) }
{
    is_given("listener", matches)
        || is_given("talker", matches)
        || is_given("at", matches)
        || is_given("from", matches)
        || is_given("to", matches)
        || is_set("audible", matches)
        || is_set("report", matches)
}

/// Returns the rules on the command line.
fn rules_of(matches: &ArgMatches<'_>) -> Result<Rules, RuleFault>
    ensures value { result ≡ rules_in (rows_of (found_of matches.now)) }
{
    let has_names = is_given("names", matches);
    match matches.get_strs("never") {
        Some(texts) => Rules::of(texts, has_names),
        None => Rules::of(&[], has_names),
    }
}

/// Returns the run that checks a script against the rules on the command line.
fn watch_in(alloc: Global, matches: &ArgMatches<'_>) -> Result<Invocation, OptionFault>
    ensures run { IfOk result (λ run. watch_in (rows_of (found_of matches.now)) ≡ Ok run) }
    ensures refused { IfErr result (λ fault. Refuses fault (watch_in (rows_of (found_of matches.now)))) }
{
    let rules = match rules_of(matches) {
        Ok(rules) => rules,
        Err(fault) => return Err(OptionFault::Invalid(fault.message())),
    };
    let printing = match printing_in(matches) {
        Ok(printing) => printing,
        Err(message) => return Err(OptionFault::Invalid(message)),
    };
    let file = match file_of("file", matches) {
        Ok(file) => file,
        Err(fault) => return Err(OptionFault::Invalid(fault.script_message())),
    };
    let later = match later_in(alloc, matches) {
        Ok(later) => later,
        Err(fault) => return Err(fault),
    };
    if selects_part(matches) {
        return Err(OptionFault::Invalid(NO_PART));
    }
    Ok(Invocation::Watch(WatchRequest {
        file,
        later,
        printing,
        rules,
    }))
}

/// Returns the run for the question or the rules on the command line.
pub(crate) fn script_in(alloc: Global, matches: &ArgMatches<'_>) -> Result<Invocation, OptionFault>
    ensures run { IfOk result (λ run. script_in (rows_of (found_of matches.now)) ≡ Ok run) }
    ensures refused { IfErr result (λ fault. Refuses fault (script_in (rows_of (found_of matches.now)))) }
{
    if is_given("never", matches) {
        watch_in(alloc, matches)
    } else if is_set("audible", matches) {
        audible_in(alloc, matches)
    } else {
        heard_in(alloc, matches)
    }
}
