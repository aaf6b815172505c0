//! The words of a request, as a page and its command state them.

ghost use Rattle.std.specs.Prelude.{◌≡◌, ◌++◌, IfOk, OnOk, codes, flat_map};
ghost use Rattle.mg_heard.specs.Query.{party_name_text};
ghost use Rattle.mg_heard.specs.Escaped.{escaped};
ghost use Rattle.mg_hearing.specs.Page.{last_words, party_word, quoted, script_name};

use crate::escaping::{escaped, quoted};
use crate::faults::INPUT;
use mg_arguments::{FilePaths, HeardRequest, Printing};
use mg_bytes::Bytes;
use mg_dates::{Date, TimeText};
use mg_heard::{Asked, PartyName};
use mg_service::FilePath;
use std::alloc::{AllocError, Global};

/// The maximum length of a key, in bytes.
const KEY_ROOM: usize = 32;

/// Returns the name of a script: the path of its file, or the name of standard input if `file` is `None`. If there are
/// later files, the path of the last one is added.
pub(crate) fn script_name(
    alloc: Global,
    file: &Option<FilePath>,
    later: &FilePaths,
) -> Result<Vec<u8>, AllocError>
    ensures value { IfOk result (λ name. name.items ≡ script_name file.now later.now) }
{
    let first = match file {
        Some(path) => path.as_str(),
        None => INPUT,
    };
    let mut name = Vec::from_slice(alloc, first.as_bytes())?;
    if let Some(last) = later.as_slice().last() {
        name.extend_from_slice(b" to ")?;
        name.extend_from_slice(last.as_str().as_bytes())?;
    }
    Ok(name)
}

/// Returns the text of a key.
fn key_word(alloc: Global, key: &PartyName) -> Result<Vec<u8>, AllocError>
    ensures value { IfOk result (λ word. word.items ≡ party_name_text key.now) }
{
    let mut word = Bytes::new(alloc, KEY_ROOM)?;
    key.write(&mut word);
    Vec::from_slice(alloc, word.as_slice())
}

/// Returns the text of the key or the name that a question is about, or `anyone` if it is about all terminations.
pub(crate) fn party_word(alloc: Global, asked: &Option<Asked>) -> Result<Vec<u8>, AllocError>
    ensures value { IfOk result (λ word. word.items ≡ party_word asked.now) }
{
    match asked {
        Some(Asked::Key(key)) => key_word(alloc, key),
        Some(Asked::Name(name)) => Vec::from_slice(alloc, name.as_slice()),
        None => Vec::from_slice(alloc, b"anyone"),
    }
}

/// Returns the terminations that a question is about, escaped for a page.
pub(crate) fn shown_party(alloc: Global, asked: &Option<Asked>) -> Result<Vec<u8>, AllocError>
    ensures value { IfOk result (λ word. word.items ≡ escaped (party_word asked.now)) }
{
    let word = party_word(alloc, asked)?;
    escaped(alloc, word.as_slice())
}

/// Returns the text of a time, or `otherwise` if there is no time.
pub(crate) fn time_word(time: Option<Date>, otherwise: &[u8]) -> TimeText {
    match time {
        Some(time) => time.text(),
        None => {
            let mut word = TimeText::new();
            let _ = word.try_extend_from_slice(otherwise);
            word
        }
    }
}

/// Appends the name of a file to a command, as one word.
fn push_file(alloc: Global, file: &FilePath, words: &mut Vec<u8>) -> Result<(), AllocError>
    ensures value { OnOk result (words.new.items ≡ words.old.items ++ (codes " " ++ quoted file.now)) }
{
    let name = quoted(alloc, file.as_str().as_bytes())?;
    words.extend_from_slice(b" ")?;
    words.extend_from_slice(name.as_slice())
}

/// Appends the names of files to a command, each as one word.
fn push_files(alloc: Global, files: &[FilePath], words: &mut Vec<u8>) -> Result<(), AllocError>
    ensures value { OnOk result (words.new.items ≡
        words.old.items ++ flat_map (λ file. codes " " ++ quoted file) files.now) }
{
    for file in files {
        push_file(alloc, file, words)?;
    }
    Ok(())
}

/// Returns the end of the command that makes a request's page: the names of the files, each as one word, or the
/// redirection of the input.
pub(crate) fn last_words(alloc: Global, request: &HeardRequest) -> Result<Vec<u8>, AllocError>
    ensures value { IfOk result (λ words. words.items ≡ last_words request.now.file request.now.later) }
{
    let mut words = Vec::new(alloc);
    match &request.file {
        Some(path) => {
            let name = quoted(alloc, path.as_str().as_bytes())?;
            words.extend_from_slice(b" -- ")?;
            words.extend_from_slice(name.as_slice())?;
            push_files(alloc, request.later.as_slice(), &mut words)?;
        }
        None => words.extend_from_slice(b" < FILE")?,
    }
    Ok(words)
}

/// Appends an option and its value to a command.
fn push_text(
    alloc: Global,
    option: &[u8],
    text: &[u8],
    command: &mut Vec<u8>,
) -> Result<(), AllocError> {
    let word = quoted(alloc, text)?;
    command.extend_from_slice(option)?;
    command.extend_from_slice(word.as_slice())
}

/// Appends an option about terminations to a command, if the option is given.
fn push_party(
    alloc: Global,
    option: &[u8],
    asked: &Option<Asked>,
    command: &mut Vec<u8>,
) -> Result<(), AllocError> {
    match asked {
        Some(Asked::Key(key)) => {
            let word = key_word(alloc, key)?;
            command.extend_from_slice(option)?;
            command.extend_from_slice(word.as_slice())
        }
        Some(Asked::Name(name)) => push_text(alloc, option, name.as_slice(), command),
        None => Ok(()),
    }
}

/// Appends an option about a time to a command, if the option is given.
fn push_time(option: &[u8], time: Option<Date>, command: &mut Vec<u8>) -> Result<(), AllocError> {
    if time.is_some() {
        let word = time_word(time, b"");
        command.extend_from_slice(option)?;
        command.extend_from_slice(word.as_slice())?;
    }
    Ok(())
}

/// Appends to a command the options that say how a page is printed.
fn push_printing(
    alloc: Global,
    printing: &Printing,
    command: &mut Vec<u8>,
) -> Result<(), AllocError> {
    if let Some(zone) = &printing.zone {
        push_text(alloc, b" --zone=", zone.as_str().as_bytes(), command)?;
    }
    if let Some(names) = &printing.names {
        push_text(alloc, b" --names=", names.as_str().as_bytes(), command)?;
    }
    Ok(())
}

/// Returns the beginning of the command that makes a page, with its options.
pub(crate) fn first_words(alloc: Global, request: &HeardRequest) -> Result<Vec<u8>, AllocError> {
    let query = &request.query;
    let mut command = Vec::from_slice(alloc, b"mg_bridge heard --report")?;
    push_party(alloc, b" --listener=", &query.listener, &mut command)?;
    push_party(alloc, b" --talker=", &query.talker, &mut command)?;
    push_time(b" --from=", query.from, &mut command)?;
    push_time(b" --to=", query.until, &mut command)?;
    push_printing(alloc, &request.printing, &mut command)?;
    Ok(command)
}
