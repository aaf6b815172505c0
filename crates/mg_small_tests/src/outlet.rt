//! Tests of outlets, which wait for their reader only at the end.

use crate::equality::assert_right;
use crate::failure::kind;
use mg_outlet::{CHUNK, Outlet, Overflow, Pipe};
use std::alloc::{AllocError, Global};
use std::io::{self, Error, ErrorKind, Write};
use std::test::Fail;

const MIB: usize = 1024 * 1024;

/// What a writer does when it is called.
#[derive(Clone, Copy)]
enum Step {
    /// Takes at most this many bytes.
    Take(usize),
    Fail(ErrorKind),
}

/// A pipe that executes the steps, one per write, and then takes everything. It is ready as the answers say, and then
/// always. It records the size of each write.
#[derive(Drop)]
struct Script<'a> {
    steps: &'a [Step],
    answers: &'a [bool],
    sizes: Vec<usize>,
    written: Vec<u8>,
}

impl<'a> Pipe for Script<'a> {
    fn is_ready(&mut self) -> bool {
        let [answer, rest @ ..] = self.answers else {
            return true;
        };
        self.answers = rest;
        *answer
    }

    fn write(&mut self, buf: &[u8]) -> io::Result<usize> {
        self.sizes.push(buf.len())?;
        let step = match self.steps {
            [first, rest @ ..] => {
                self.steps = rest;
                *first
            }
            [] => Step::Take(usize::MAX),
        };
        match step {
            Step::Take(most) => {
                let (taken, _) = buf.split_at(buf.len().min(most));
                self.written.extend_from_slice(taken)?;
                Ok(taken.len())
            }
            Step::Fail(kind) => Err(Error::from(kind)),
        }
    }
}

type Scripted<'a> = Outlet<Script<'a>>;

/// A call on an outlet with its outcome, or a check of the outlet after the previous calls.
#[derive(Clone, Copy)]
enum Action<'a> {
    /// Writes this text. The write returns its length, even if the text is dropped.
    Write(&'a [u8]),
    /// Writes this many bytes of the long text.
    WriteLong(usize),
    Flush,
    Finish,
    /// A write, a flush or the end fails with this error.
    WriteFails(ErrorKind),
    FlushFails(ErrorKind),
    FinishFails(ErrorKind),
    /// How many bytes are queued.
    Queued(usize),
    /// All that the writer has taken.
    Written(&'a [u8]),
    /// The writer has taken this many bytes of the long text, and nothing else.
    WrittenLong(usize),
    /// The number of bytes that each write offered to the writer.
    Sizes(&'a [usize]),
    /// How many writes were dropped, and whether the outlet has ended.
    Dropped(u64, bool),
}

/// Calls on an outlet whose pipe executes the steps and is ready as the answers say.
struct Case<'a> {
    name: &'a str,
    steps: &'a [Step],
    answers: &'a [bool],
    limit: usize,
    overflow: Overflow,
    actions: &'a [Action<'a>],
}

const CASES: [Case<'static>; 11] = [
    Case {
        name: "text is kept until the writer is ready",
        steps: &[],
        answers: &[false, true],
        limit: 10,
        overflow: Overflow::End,
        actions: &[
            Action::Write(b"one "),
            Action::Write(b"two"),
            Action::Flush,
            Action::Queued(7),
            Action::Sizes(&[]),
            Action::Flush,
            Action::Queued(0),
            Action::Written(b"one two"),
            // The queue wraps around to the start of its memory.
            Action::Write(b"three four"),
            Action::Flush,
            Action::Written(b"one twothree four"),
            Action::Dropped(0, false),
        ],
    },
    Case {
        name: "the writer is asked before each chunk",
        steps: &[],
        answers: &[true, true, false],
        limit: 10_000,
        overflow: Overflow::End,
        actions: &[
            Action::WriteLong(10_000),
            Action::Queued(10_000),
            Action::Flush,
            Action::Sizes(&[4096, 4096]),
            Action::Queued(1808),
            Action::Flush,
            Action::Sizes(&[4096, 4096, 1808]),
            Action::WrittenLong(10_000),
        ],
    },
    Case {
        name: "a write passes on a chunk",
        steps: &[],
        answers: &[],
        limit: MIB,
        overflow: Overflow::End,
        actions: &[
            Action::WriteLong(4095),
            Action::Write(b"x"),
            Action::Queued(CHUNK),
            Action::Write(b"yz"),
            Action::Queued(2),
            Action::Sizes(&[4096]),
        ],
    },
    Case {
        name: "a flush passes on a mebibyte",
        steps: &[],
        answers: &[],
        limit: 2 * MIB,
        overflow: Overflow::End,
        actions: &[
            Action::WriteLong(1_500_000),
            Action::Flush,
            Action::WrittenLong(MIB),
            Action::Flush,
            Action::WrittenLong(1_500_000),
        ],
    },
    Case {
        name: "an outlet ends with the first text that does not fit",
        steps: &[],
        answers: &[],
        limit: 10,
        overflow: Overflow::End,
        actions: &[
            Action::Write(b"sixsix"),
            Action::Dropped(0, false),
            Action::Write(b"fiver"),
            Action::Dropped(1, true),
            Action::Write(b"four"),
            Action::Flush,
            Action::Write(b"four"),
            Action::Flush,
            Action::Written(b"sixsix"),
            Action::Dropped(3, true),
        ],
    },
    Case {
        name: "texts that do not fit are skipped",
        steps: &[],
        answers: &[],
        limit: 10,
        overflow: Overflow::Skip,
        actions: &[
            Action::Write(b"sixsix"),
            Action::Write(b"fiver"),
            Action::Write(b"four"),
            Action::Write(b"1"),
            Action::Flush,
            Action::Written(b"sixsixfour"),
            Action::Dropped(2, false),
        ],
    },
    Case {
        name: "an interrupted write and one that would have waited are tried again",
        steps: &[
            Step::Fail(ErrorKind::Interrupted),
            Step::Fail(ErrorKind::WouldBlock),
            Step::Take(2),
        ],
        answers: &[],
        limit: 10,
        overflow: Overflow::End,
        actions: &[
            Action::Write(b"later"),
            Action::Flush,
            Action::Flush,
            Action::Queued(5),
            Action::Flush,
            Action::Sizes(&[5, 5, 5, 3]),
            Action::Written(b"later"),
        ],
    },
    Case {
        name: "each call returns the error of the writer",
        steps: &[Step::Take(2), Step::Fail(ErrorKind::BrokenPipe)],
        answers: &[],
        limit: 10,
        overflow: Overflow::End,
        actions: &[
            Action::Write(b"broken"),
            Action::FlushFails(ErrorKind::BrokenPipe),
            Action::WriteFails(ErrorKind::BrokenPipe),
            Action::FlushFails(ErrorKind::BrokenPipe),
            Action::FinishFails(ErrorKind::BrokenPipe),
            Action::Queued(4),
            Action::Written(b"br"),
            Action::Sizes(&[6, 4]),
        ],
    },
    Case {
        name: "a writer that takes nothing has failed",
        steps: &[Step::Take(2), Step::Take(0)],
        answers: &[],
        limit: 10,
        overflow: Overflow::End,
        actions: &[
            Action::Write(b"broken"),
            Action::FlushFails(ErrorKind::WriteZero),
            Action::WriteFails(ErrorKind::WriteZero),
            Action::FlushFails(ErrorKind::WriteZero),
            Action::FinishFails(ErrorKind::WriteZero),
            Action::Queued(4),
            Action::Written(b"br"),
            Action::Sizes(&[6, 4]),
        ],
    },
    Case {
        name: "a write that has to pass on a chunk first, and cannot, accepts nothing",
        steps: &[Step::Fail(ErrorKind::StorageFull)],
        answers: &[],
        limit: MIB,
        overflow: Overflow::Skip,
        actions: &[
            Action::WriteLong(4096),
            Action::WriteFails(ErrorKind::StorageFull),
            Action::Queued(CHUNK),
            Action::Dropped(0, false),
        ],
    },
    Case {
        name: "the end does not ask",
        steps: &[Step::Fail(ErrorKind::Interrupted), Step::Take(1)],
        answers: &[false],
        limit: 5000,
        overflow: Overflow::End,
        actions: &[
            Action::WriteLong(5000),
            Action::Flush,
            Action::Queued(5000),
            Action::Finish,
            Action::Queued(0),
            Action::WrittenLong(5000),
        ],
    },
];

/// Returns text of this length whose adjacent chunks differ.
fn text(alloc: Global, len: u32) -> Result<Vec<u8>, AllocError> {
    let mut text = Vec::new(alloc);
    for i in 0..len {
        text.push((i % 251) as u8)?;
    }
    Ok(text)
}

/// Returns whether `text` is the first `len` bytes of the long text.
fn is_front(text: &[u8], len: usize, long: &[u8]) -> bool {
    Some(text) == long.get(..len)
}

/// Writes text. Returns whether the write returns the length of the text.
fn is_accepted(outlet: &mut Scripted<'_>, text: &[u8]) -> bool {
    outlet.write(text).ok() == Some(text.len())
}

/// Carries out an action. Returns whether it has the given outcome.
fn does(outlet: &mut Scripted<'_>, action: &Action<'_>, long: &[u8]) -> bool {
    match *action {
        Action::Write(text) => is_accepted(outlet, text),
        Action::WriteLong(len) => match long.get(..len) {
            Some(text) => is_accepted(outlet, text),
            None => false,
        },
        Action::Flush => outlet.flush().is_ok(),
        Action::Finish => outlet.finish().is_ok(),
        Action::WriteFails(error) => kind(outlet.write(b"more")) == Some(error),
        Action::FlushFails(error) => kind(outlet.flush()) == Some(error),
        Action::FinishFails(error) => kind(outlet.finish()) == Some(error),
        Action::Queued(count) => outlet.queued() == count,
        Action::Written(text) => outlet.get_ref().written.as_slice() == text,
        Action::WrittenLong(len) => is_front(outlet.get_ref().written.as_slice(), len, long),
        Action::Sizes(sizes) => outlet.get_ref().sizes.as_slice() == sizes,
        Action::Dropped(count, has_ended) => {
            outlet.dropped() == count && outlet.has_ended() == has_ended
        }
    }
}

/// Returns the number of a case's first action without the given outcome, or `None` if there is no such action.
fn first_wrong(alloc: Global, case: &Case<'_>, long: &[u8]) -> Result<Option<usize>, AllocError> {
    let script = Script {
        steps: case.steps,
        answers: case.answers,
        sizes: Vec::new(alloc),
        written: Vec::new(alloc),
    };
    let mut outlet = Outlet::new(alloc, script, case.limit, case.overflow)?;
    for at in 0..case.actions.len() {
        if !does(&mut outlet, &case.actions[at], long) {
            return Ok(Some(at));
        }
    }
    Ok(None)
}

#[test]
fn queues_and_passes_on(rt: HostRuntime) -> Result<(), Fail> {
    let long = text(rt.alloc(), 1_500_000)?;
    for case in &CASES {
        let wrong = first_wrong(rt.alloc(), case, long.as_slice())?;
        assert_right(&rt, case.name, wrong);
    }
    Ok(())
}
