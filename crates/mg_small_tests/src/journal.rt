//! Tests of journals, which are files to which lines are appended.

ghost use Rattle.std.specs.Prelude.{IsTrue};
ghost use Rattle.mg_journal.specs.Text.{EndsInLineFeed};

use crate::equality::assert_right;
use crate::failure::kind;
use mg_journal::{
    AppendFault, Durability, FaultEffect, FileCall, FileJournal, InjectedFault, Journal,
    MemoryFile, Opening,
};
use std::alloc::{AllocError, Global};
use std::io::{self, ErrorKind, Read};
use std::test::Fail;

pub const FULL: FaultEffect = FaultEffect::Fail(ErrorKind::StorageFull);

/// Creates a file in memory that holds `text` and has these faults.
pub fn file(
    alloc: Global,
    text: &[u8],
    faults: &[InjectedFault],
) -> Result<MemoryFile, AllocError> {
    Ok(MemoryFile::new(text.to_vec(alloc)?, faults.to_vec(alloc)?))
}

/// Opens a file in memory that holds `text` and has these faults.
fn opening(
    alloc: Global,
    text: &[u8],
    faults: &[InjectedFault],
) -> io::Result<Opening<MemoryFile>> {
    Opening::new(file(alloc, text, faults)?)
}

/// Creates a journal in a file that holds the line `tick` and has these faults.
fn journal(alloc: Global, faults: &[InjectedFault]) -> io::Result<FileJournal<MemoryFile>> {
    opening(alloc, b"tick\n", faults)?.accept()
}

/// Returns whether the last line ends in a line feed.
pub fn ends_in_line_feed(lines: &[u8]) -> bool
    ensures { IsTrue result → EndsInLineFeed lines.now }
{
    !lines.is_empty() && lines[lines.len() - 1] == b'\n'
}

/// An append to a journal with its outcome, or a check of the journal after the previous appends.
#[derive(Clone, Copy)]
enum Action<'a> {
    Append(&'a [u8], Durability, Result<(), AppendFault>),
    /// The bytes in the file.
    Bytes(&'a [u8]),
    /// The bytes that are on the disk.
    Synced(&'a [u8]),
    /// The kind of the last error.
    LastError(Option<ErrorKind>),
}

/// Appends to a journal in a file with these faults. The file holds the line `tick` at first.
struct Case<'a> {
    name: &'a str,
    faults: &'a [InjectedFault],
    actions: &'a [Action<'a>],
}

pub const BROKEN: Result<(), AppendFault> = Err(AppendFault::Broken);

pub const REFUSED: Result<(), AppendFault> = Err(AppendFault::Refused);

const CASES: [Case<'static>; 6] = [
    Case {
        name: "lines are appended and synced",
        // The first append takes three writes, two of which stop early. The first write of the second append is
        // interrupted.
        faults: &[
            InjectedFault {
                call: FileCall::Write,
                number: 0,
                effect: FaultEffect::Stop(3),
            },
            InjectedFault {
                call: FileCall::Write,
                number: 1,
                effect: FaultEffect::Stop(1),
            },
            InjectedFault {
                call: FileCall::Write,
                number: 3,
                effect: FaultEffect::Fail(ErrorKind::Interrupted),
            },
        ],
        actions: &[
            Action::Append(b"one\ntwo\n", Durability::Synced, Ok(())),
            Action::Bytes(b"tick\none\ntwo\n"),
            Action::Append(b"three\n", Durability::Synced, Ok(())),
            Action::Bytes(b"tick\none\ntwo\nthree\n"),
            Action::Synced(b"tick\none\ntwo\nthree\n"),
            Action::LastError(None),
        ],
    },
    Case {
        name: "lines are appended without a sync",
        faults: &[InjectedFault {
            call: FileCall::Sync,
            number: 0,
            effect: FULL,
        }],
        actions: &[
            Action::Append(b"one\n", Durability::Written, Ok(())),
            Action::Bytes(b"tick\none\n"),
            Action::Synced(b""),
            Action::Append(b"two\n", Durability::Synced, BROKEN),
        ],
    },
    Case {
        name: "a write that fails partway leaves nothing behind, and the next succeeds",
        faults: &[
            InjectedFault {
                call: FileCall::Write,
                number: 1,
                effect: FaultEffect::Stop(5),
            },
            InjectedFault {
                call: FileCall::Write,
                number: 2,
                effect: FULL,
            },
        ],
        actions: &[
            Action::Append(b"one\n", Durability::Synced, Ok(())),
            Action::Append(b"two\nthree\n", Durability::Synced, REFUSED),
            Action::LastError(Some(ErrorKind::StorageFull)),
            Action::Bytes(b"tick\none\n"),
            Action::Synced(b"tick\none\n"),
            Action::Append(b"four\n", Durability::Synced, Ok(())),
            Action::Bytes(b"tick\none\nfour\n"),
        ],
    },
    Case {
        name: "a write that takes nothing has failed",
        faults: &[
            InjectedFault {
                call: FileCall::Write,
                number: 1,
                effect: FaultEffect::Stop(5),
            },
            InjectedFault {
                call: FileCall::Write,
                number: 2,
                effect: FaultEffect::Stop(0),
            },
        ],
        actions: &[
            Action::Append(b"one\n", Durability::Synced, Ok(())),
            Action::Append(b"two\nthree\n", Durability::Synced, REFUSED),
            Action::LastError(Some(ErrorKind::WriteZero)),
            Action::Bytes(b"tick\none\n"),
            Action::Synced(b"tick\none\n"),
            Action::Append(b"four\n", Durability::Synced, Ok(())),
            Action::Bytes(b"tick\none\nfour\n"),
        ],
    },
    Case {
        name: "if the file cannot be cut back, nothing is written to it again",
        faults: &[
            InjectedFault {
                call: FileCall::Write,
                number: 0,
                effect: FaultEffect::Stop(6),
            },
            InjectedFault {
                call: FileCall::Write,
                number: 1,
                effect: FULL,
            },
            InjectedFault {
                call: FileCall::Cut,
                number: 0,
                effect: FaultEffect::Fail(ErrorKind::Other),
            },
        ],
        actions: &[
            Action::Append(b"one\ntwo\n", Durability::Synced, BROKEN),
            Action::LastError(Some(ErrorKind::Other)),
            Action::Append(b"three\n", Durability::Synced, BROKEN),
            Action::Bytes(b"tick\none\ntw"),
        ],
    },
    Case {
        name: "a journal is broken once a sync fails",
        faults: &[InjectedFault {
            call: FileCall::Sync,
            number: 1,
            effect: FULL,
        }],
        actions: &[
            Action::Append(b"one\n", Durability::Synced, Ok(())),
            Action::Append(b"two\n", Durability::Synced, BROKEN),
            Action::Append(b"three\n", Durability::Synced, BROKEN),
            Action::Bytes(b"tick\none\ntwo\n"),
            Action::Synced(b"tick\none\n"),
        ],
    },
];

/// Carries out an action. Returns whether it has the given outcome.
fn does(journal: &mut FileJournal<MemoryFile>, action: &Action<'_>) -> bool {
    match *action {
        Action::Append(lines, durability, outcome) => {
            ends_in_line_feed(lines) && journal.append(lines, durability) == outcome
        }
        Action::Bytes(bytes) => journal.file().bytes() == bytes,
        Action::Synced(bytes) => journal.file().synced() == bytes,
        Action::LastError(kind) => match (journal.last_error(), kind) {
            (Some(error), Some(kind)) => error.kind() == kind,
            (None, None) => true,
            _ => false,
        },
    }
}

/// Returns the number of a case's first action without the given outcome, or `None` if there is no such action.
fn first_wrong(alloc: Global, case: &Case<'_>) -> io::Result<Option<usize>> {
    let mut journal = journal(alloc, case.faults)?;
    for at in 0..case.actions.len() {
        if !does(&mut journal, &case.actions[at]) {
            return Ok(Some(at));
        }
    }
    Ok(None)
}

#[test]
fn appends_lines_or_none(rt: HostRuntime) -> Result<(), Fail> {
    for case in &CASES {
        let wrong = first_wrong(rt.alloc(), case)?;
        assert_right(&rt, case.name, wrong);
    }
    Ok(())
}

/// Returns whether an append fails without a journal, and succeeds with one.
fn fails_without_a_journal(alloc: Global) -> io::Result<bool> {
    let mut none: Option<FileJournal<MemoryFile>> = None;
    let mut some = Some(journal(alloc, &[])?);
    let answers = none.append(b"one\n", Durability::Synced) == BROKEN
        && some.append(b"one\n", Durability::Synced) == Ok(());
    let Some(journal) = &some else {
        return Ok(false);
    };
    Ok(answers && journal.file().bytes() == b"tick\none\n".as_slice())
}

/// Returns the rest of a file's complete lines.
fn rest(alloc: Global, opening: &mut Opening<MemoryFile>) -> io::Result<Vec<u8>> {
    let mut read = Vec::new(alloc);
    opening.read_to_end(&mut read)?;
    Ok(read)
}

/// Returns whether the file of a journal holds this text, and another line can be appended to it.
fn goes_on(mut journal: FileJournal<MemoryFile>, text: &[u8]) -> bool {
    journal.file().bytes() == text
        && journal.append(b"three\n", Durability::Synced) == Ok(())
        && journal.file().bytes().strip_prefix(text) == Some(b"three\n".as_slice())
}

/// Returns whether a file that holds `text` is opened correctly: only its complete lines `whole` are read, and
/// accepting them removes the partial last line.
fn opens_whole(
    alloc: Global,
    text: &[u8],
    whole: &[u8],
    faults: &[InjectedFault],
) -> io::Result<bool> {
    let mut opening = opening(alloc, text, faults)?;
    let is_long = opening.partial() == text.len().wrapping_sub(whole.len()) as u64;
    let is_read = rest(alloc, &mut opening)?.as_slice() == whole;
    Ok(is_long && is_read && goes_on(opening.accept()?, whole))
}

/// Faults of the first three reads: two of them stop early, and the third is interrupted.
const EARLY: [InjectedFault; 3] = [
    InjectedFault {
        call: FileCall::Read,
        number: 0,
        effect: FaultEffect::Stop(1),
    },
    InjectedFault {
        call: FileCall::Read,
        number: 1,
        effect: FaultEffect::Stop(4),
    },
    InjectedFault {
        call: FileCall::Read,
        number: 2,
        effect: FaultEffect::Fail(ErrorKind::Interrupted),
    },
];

/// Each text with its complete lines.
const TEXTS: [(&[u8], &[u8]); 5] = [
    (b"", b""),
    (b"one\n", b"one\n"),
    (b"one", b""),
    (b"\n\none\ntw", b"\n\none\n"),
    (b"one\n\ntwo\n\0\0", b"one\n\ntwo\n"),
];

/// Returns whether the next read returns these bytes.
fn reads_next(opening: &mut Opening<MemoryFile>, wanted: &[u8]) -> io::Result<bool> {
    let mut bytes = [0; 5];
    opening.read_exact(&mut bytes)?;
    Ok(bytes.as_slice() == wanted)
}

/// Returns whether a look ahead in a buffer of 16 bytes shows these bytes.
fn shows(opening: &mut Opening<MemoryFile>, wanted: &[u8]) -> io::Result<bool> {
    let mut bytes = [0; 16];
    let n = opening.peek(&mut bytes)?;
    Ok(&bytes[..n] == wanted)
}

/// Returns whether a look ahead shows complete lines and does not affect the next read.
fn peeks_at_whole_lines(alloc: Global) -> io::Result<bool> {
    let mut opening = opening(alloc, b"one\ntwo\nth", &[])?;
    Ok(
        shows(&mut opening, b"one\ntwo\n")?
            && reads_next(&mut opening, b"one\nt")?
            && shows(&mut opening, b"one\ntwo\n")?,
    )
}

/// Returns `count` lines of 100 bytes.
fn long_text(alloc: Global, count: u16) -> Result<Vec<u8>, AllocError> {
    let mut text = Vec::new(alloc);
    for i in 0..count {
        text.extend_from_slice(&[b'0' + (i % 10) as u8; 99])?;
        text.push(b'\n')?;
    }
    Ok(text)
}

/// Returns whether a file is opened correctly if its partial last line is longer than 64 KiB, which is the size of a
/// chunk.
fn opens_long_files(alloc: Global) -> io::Result<bool> {
    let whole = long_text(alloc, 2000)?;
    let mut text = whole.as_slice().to_vec(alloc)?;
    text.extend_from_slice(&[b'x'; 100_000])?;
    opens_whole(alloc, text.as_slice(), whole.as_slice(), &[])
}

/// Returns why a file that holds `text` can't be opened and accepted, or `None` if it can be.
fn fault(alloc: Global, text: &[u8], faults: &[InjectedFault]) -> Option<ErrorKind> {
    match opening(alloc, text, faults) {
        Ok(opening) => kind(opening.accept()),
        Err(error) => Some(error.kind()),
    }
}

/// Returns whether an error is reported if a read fails or a partial last line can't be removed.
fn reports_errors_at_opening(alloc: Global) -> bool {
    let full = Some(ErrorKind::StorageFull);
    let uncut = [InjectedFault {
        call: FileCall::Cut,
        number: 0,
        effect: FULL,
    }];
    fault(
        alloc,
        b"one\n",
        &[InjectedFault {
            call: FileCall::Read,
            number: 1,
            effect: FULL,
        }],
    ) == full
        && fault(alloc, b"one\ntwo", &uncut) == full
        && fault(alloc, b"one\n", &uncut).is_none()
}

#[test]
fn opens_files(rt: HostRuntime) -> Result<(), Fail> {
    let alloc = rt.alloc();
    for (text, whole) in TEXTS {
        assert!(rt; opens_whole(alloc, text, whole, &EARLY)?);
    }
    assert!(rt; opens_long_files(alloc)?);
    assert!(rt; peeks_at_whole_lines(alloc)?);
    assert!(rt; reports_errors_at_opening(alloc));
    assert!(rt; fails_without_a_journal(alloc)?);
    assert!(rt; AppendFault::Broken.is_final() && !AppendFault::Refused.is_final());
    Ok(())
}
