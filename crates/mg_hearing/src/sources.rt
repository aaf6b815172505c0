//! The files of a script, and faults that name one of them.

ghost use Rattle.std.specs.Prelude.{◌≡◌, ◌⊎◌, ◌∷◌, IfErr, IfOk, IfSome, OnOk, map, true};
ghost use Rattle.std.specs.Io.Buffered.{reader_remaining};
ghost use Rattle.mg_joined.specs.Joined.{are_following};
ghost use Rattle.mg_hearing.specs.aids.Opening.{OpensAll};
ghost use Rattle.mg_options.specs.Status.{UnlessFault};

use crate::faults::report_fault;
use crate::opening::open_all;
use crate::script_fault::ScriptFault;
use mg_arguments::FilePaths;
use mg_host::Texts;
use mg_joined::{JoinFault, Joined, TextsKey};
use mg_options::Status;
use mg_service::FilePath;
use std::alloc::Global;
use std::collections::VecDeque;
use std::io::{BufRead, BufReader, Write};

/// The files of a script, oldest first.
#[derive(Clone, Copy)]
pub(crate) struct Sources<'a> {
    pub(crate) file: &'a FilePath,
    pub(crate) later: &'a FilePaths,
}

impl<'a> Sources<'a> {
    /// Returns the name of the file at an index.
    fn name(&self, index: usize) -> &'a str {
        if index == 0 {
            return self.file.as_str();
        }
        match self.later.as_slice().get(index - 1) {
            Some(path) => path.as_str(),
            None => self.file.as_str(),
        }
    }

    /// Reports that the file at an index doesn't follow the one before it. Returns the exit status.
    fn report_apart<E: Write>(&self, index: usize, errors: &mut E) -> Status
        ensures status { result ≡ Status.BadJournal }
    {
        let name = self.name(index);
        let before = self.name(index.saturating_sub(1));
        let _ = writeln!(
            errors,
            "{name}: doesn't follow {before}: a file is missing between them, or one was changed"
        );
        Status::BadJournal
    }

    /// Reports why the files can't be read as one script. Returns the exit status.
    pub(crate) fn report_unopened<E: Write>(&self, fault: &JoinFault, errors: &mut E) -> Status
        ensures ends { (result ≡ Status.Failed) ⊎ (result ≡ Status.NoMemory) ⊎ (result ≡ Status.BadJournal) }
    {
        match fault {
            JoinFault::Open(index, _) => {
                let _ = writeln!(errors, "{}: {fault}", self.name(*index));
                Status::BadJournal
            }
            JoinFault::Read(index, _) => {
                let _ = writeln!(errors, "{}: {fault}", self.name(*index));
                Status::Failed
            }
            JoinFault::Apart(index) => self.report_apart(*index, errors),
            JoinFault::NoMemory => {
                let _ = writeln!(errors, "{}: {fault}", self.name(0));
                Status::NoMemory
            }
        }
    }

    /// Reports why the script of the files was not run to its end. Returns the exit status.
    pub(crate) fn report<B: BufRead + Drop, K: TextsKey, E: Write>(
        &self,
        joined: &Joined<B, K>,
        fault: ScriptFault,
        errors: &mut E,
    ) -> Status
        ensures ends { (result ≡ Status.Failed) ⊎ (result ≡ Status.NoMemory) ⊎ (result ≡ Status.BadJournal) }
    {
        if let Some(index) = joined.apart() {
            return self.report_apart(index, errors);
        }
        match fault.line() {
            Some(line) => {
                let place = joined.place_of(line);
                report_fault(self.name(place.file), &fault.at_line(place.line), errors)
            }
            None => report_fault(self.name(joined.file()), &fault, errors),
        }
    }

    /// Reads the files to their end. Returns the given status if each file follows the one before it. Otherwise reports
    /// the first that doesn't, and returns another status.
    pub(crate) fn end<B: BufRead + Drop, K: TextsKey, E: Write>(
        &self,
        joined: &mut Joined<B, K>,
        status: Status,
        errors: &mut E,
    ) -> Status
        ensures value { UnlessFault ((result ≡ status) × (errors.new ≡ errors.old)
            × IfSome K.texts (λ texts. are_following texts ≡ true)) result }
    {
        if joined.drain() {
            return status;
        }
        match joined.apart() {
            Some(index) => self.report_apart(index, errors),
            None => {
                let _ = writeln!(errors, "{}: cannot be read", self.name(joined.file()));
                Status::Failed
            }
        }
    }
}

/// Opens the files of a script. If that fails, reports why to `errors`, and returns the exit status.
pub(crate) fn open_joined<H: Texts, E: Write>(
    host: &mut H,
    alloc: Global,
    sources: Sources<'_>,
    errors: &mut E,
) -> Result<VecDeque<BufReader<H::Text>>, Status>
    ensures opened { IfOk result (λ opened. OpensAll (sources.entry.file.now ∷ sources.entry.later.now)
        (H.calls host.old) (H.calls host.new) (map (reader_remaining H.Text.remaining) opened.items)) }
    ensures silent { OnOk result (errors.new ≡ errors.old) }
    ensures ends { IfErr result (λ status.
        (status ≡ Status.Failed) ⊎ (status ≡ Status.NoMemory) ⊎ (status ≡ Status.BadJournal)) }
{
    match open_all(host, alloc, sources.file, sources.later.as_slice()) {
        Ok(files) => Ok(files),
        Err(fault) => Err(sources.report_unopened(&fault, errors)),
    }
}
