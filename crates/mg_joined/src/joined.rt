ghost use Rattle.std.specs.Prelude.{◌≡◌, ◌≤◌, IfOk, IfSome, false, length};
ghost use Rattle.std.specs.List.{AllZip};
ghost use Rattle.mg_joined.specs.aids.Joining.{IsJoining, Opens};

use crate::fault::JoinFault;
use crate::later::{Later, open_later};
use crate::source::Source;
use crate::texts_key::TextsKey;
use std::alloc::Global;
use std::collections::VecDeque;
use std::io::{self, BufRead, Error, ErrorKind, Read};
use std::marker::PhantomData;

/// The place of a line: a file of a list, counted from 0, and a line of that file, counted from 1.
#[derive(Clone, Copy, Debug, PartialEq, Eq)]
pub struct Place {
    pub file: usize,
    pub line: u64,
}

/// Where the lines of a file begin in a script.
#[derive(Clone, Copy, Debug, Default)]
struct Extent {
    /// The number of lines of the script before the file's lines.
    before: u64,
    /// The number of lines of the file before its lines in the script.
    passed: u64,
}

/// Files that follow one another, oldest first, read as one script.
#[derive(Drop)]
pub struct Joined<B: BufRead, K: TextsKey> {
    source: Source<B>,
    later: VecDeque<Later<B>>,
    /// Lines of the file.
    front: Vec<u8>,
    /// How many bytes of these lines the caller has read.
    at: usize,
    /// Whether a read of a file failed.
    is_broken: bool,
    /// Whether the next file doesn't follow the file that was read.
    is_apart: bool,
    /// The number of lines that were read.
    lines: u64,
    extents: Vec<Extent>,
    of: PhantomData<K>,
    ghost within: { at ≤ length front.items },
    ghost joining: { ∥ IfSome K.texts (λ texts. is_broken ≡ false →
        IsJoining B.remaining texts source later.items) ∥₁ },
}

impl<B: BufRead + Drop, K: TextsKey> Joined<B, K> {
    ghost use Rattle.std.specs.Prelude.{◌≡◌, ◌<◌, [], false, true, length, map, IfOk, IfSome, OnOk, Some};
    ghost use Rattle.std.specs.Io.KnownBytes.{IsAtEnd, Keeps};
    ghost use Rattle.std.specs.Option.{option_map};
    ghost use Rattle.mg_joined.specs.Joined.{are_following, joined};
    ghost use Rattle.mg_joined.specs.aids.Joining.{all_known};

    /// Reads the first line of the first file, and the other files up to their lines `# follows`.
    pub fn new(alloc: Global, files: VecDeque<B>) -> Result<Self, JoinFault>
        requires texts { K.texts ≡ all_known (map B.remaining files.items) }
        ensures text { IfOk result (λ j. ⟦<Joined<B, K> as Read>⟧.remaining j ≡ option_map joined K.texts) }
    {
        let mut files = files;
        let Some(file) = files.pop_front() else {
            return Err(JoinFault::NoMemory);
        };
        let mut source = Source::new(file);
        let mut line = Vec::new(alloc);
        if let Err(error) = source.read_line(&mut line) {
            return Err(JoinFault::Read(0, error));
        }
        let later = open_rest(alloc, line.as_slice(), files)?;
        let mut extents = Vec::new(alloc);
        if extents.push(Extent::default()).is_err() {
            return Err(JoinFault::NoMemory);
        }
        Ok(Joined {
            source,
            later,
            front: line,
            at: 0,
            is_broken: false,
            is_apart: false,
            lines: 1,
            extents,
            of: PhantomData,
        })
    }

    /// Goes on with the next file. Returns whether there is one. Fails if it doesn't follow the file that was read.
    fn next_file(&mut self) -> io::Result<bool>
        requires whole { self.old.is_broken ≡ false }
        requires read { self.old.front.items ≡ [] }
        requires ended { IfSome K.texts (λ texts. B.remaining self.old.source.reader ≡ Some []) }
        ensures kept { Keeps (⟦<Joined<B, K> as Read>⟧.remaining self.old)
            (⟦<Joined<B, K> as Read>⟧.remaining self.new) }
        ensures last { IfOk result (λ some. some ≡ false →
            IsAtEnd (⟦<Joined<B, K> as Read>⟧.remaining self.new)) }
        ensures front { (self.new.front ≡ self.old.front) × (self.new.at ≡ self.old.at) }
        ensures whole { self.new.is_broken ≡ false }
    {
        let Some(next) = self.later.front() else {
            return Ok(false);
        };
        if next.follows.as_slice() != self.source.chain.seal_end().as_slice() {
            self.is_apart = true;
            return Err(Error::from(ErrorKind::InvalidData));
        }
        let extent = Extent {
            before: self.lines,
            passed: next.lines,
        };
        if self.extents.push(extent).is_err() {
            return Err(Error::from(ErrorKind::OutOfMemory));
        }
        if let Some(next) = self.later.pop_front() {
            self.source = next.source;
        }
        Ok(true)
    }

    /// Reads the next lines of the file. Returns whether there were any.
    fn read_lines(&mut self) -> io::Result<bool>
        requires whole { self.old.is_broken ≡ false }
        requires read { self.old.at ≡ length self.old.front.items }
        ensures kept { Keeps (⟦<Joined<B, K> as Read>⟧.remaining self.old)
            (⟦<Joined<B, K> as Read>⟧.remaining self.new) }
        ensures none { IfOk result (λ some. some ≡ false → (self.new.front.items ≡ [])
            × IfSome K.texts (λ texts. B.remaining self.new.source.reader ≡ Some [])) }
        ensures some { IfOk result (λ some. some ≡ true → 0 < length self.new.front.items) }
        ensures at { self.new.at ≡ 0 }
        ensures whole { OnOk result (self.new.is_broken ≡ false) }
    {
        self.at = 0;
        self.front.clear();
        match self.source.read_lines(&mut self.front) {
            Ok(true) => {
                let count = count_lines(self.front.as_slice());
                self.lines = self.lines.saturating_add(count);
                Ok(true)
            }
            Ok(false) => Ok(false),
            Err(error) => {
                self.is_broken = true;
                Err(error)
            }
        }
    }

    /// Reads the next lines. At the end of the last file, there are none.
    fn next_lines(&mut self) -> io::Result<()>
        requires whole { self.old.is_broken ≡ false }
        requires read { self.old.at ≡ length self.old.front.items }
        ensures kept { Keeps (⟦<Joined<B, K> as Read>⟧.remaining self.old)
            (⟦<Joined<B, K> as Read>⟧.remaining self.new) }
        ensures last { OnOk result (self.new.front.items ≡ [] →
            IsAtEnd (⟦<Joined<B, K> as Read>⟧.remaining self.new)) }
        ensures at { self.new.at ≡ 0 }
        ensures whole { OnOk result (self.new.is_broken ≡ false) }
    {
        for _ in 0..=self.later.len() {
            if self.read_lines()? || !self.next_file()? {
                return Ok(());
            }
        }
        Err(Error::from(ErrorKind::Other))
    }

    /// Reads the next lines if those before were read to their end.
    fn fill(&mut self) -> io::Result<()>
        requires whole { self.old.is_broken ≡ false }
        ensures kept { Keeps (⟦<Joined<B, K> as Read>⟧.remaining self.old)
            (⟦<Joined<B, K> as Read>⟧.remaining self.new) }
        ensures last { OnOk result (self.new.at ≡ length self.new.front.items →
            IsAtEnd (⟦<Joined<B, K> as Read>⟧.remaining self.new)) }
    {
        if self.at < self.front.len() {
            return Ok(());
        }
        self.next_lines()
    }

    /// Reads to the end. Returns whether the end was reached, and each file follows the one before it.
    pub fn drain(&mut self) -> bool
        ensures follows { result ≡ true → IfSome K.texts (λ texts. are_following texts ≡ true) }
    {
        if self.is_broken {
            return false;
        }
        for _ in 0..u64::MAX {
            self.at = self.front.len();
            if self.next_lines().is_err() {
                return false;
            }
            if self.front.is_empty() {
                return self.later.is_empty();
            }
        }
        false
    }

    /// Returns the index of the file that doesn't follow the one before it, or `None` if no such file was found.
    pub fn apart(&self) -> Option<usize> {
        if self.is_apart {
            Some(self.extents.len())
        } else {
            None
        }
    }

    /// Returns the index of the file that was read last.
    pub fn file(&self) -> usize {
        self.extents.len().saturating_sub(1)
    }

    /// Returns the place of a line of the script, counted from 1.
    pub fn place_of(&self, line: u64) -> Place {
        let mut place = Place { file: 0, line };
        for (file, extent) in self.extents.iter().enumerate() {
            if line > extent.before {
                place = Place {
                    file,
                    line: (line - extent.before).saturating_add(extent.passed),
                };
            }
        }
        place
    }
}

/// Returns the number of lines in some text. The last one may be incomplete.
fn count_lines(text: &[u8]) -> u64 {
    let mut count: u64 = 0;
    for byte in text {
        // The sum can't wrap: it is at most the text's length.
        count = count.wrapping_add(u64::from(*byte == b'\n'));
    }
    match text.last() {
        None | Some(b'\n') => count,
        Some(_) => count.saturating_add(1),
    }
}

/// Reads files up to their lines `# follows`. They must begin with this title.
fn open_rest<B: BufRead + Drop>(
    alloc: Global,
    title: &[u8],
    files: VecDeque<B>,
) -> Result<VecDeque<Later<B>>, JoinFault>
    ensures value { IfOk result (λ later. AllZip (Opens B.remaining title.now) files.items later.items) }
{
    let mut later = VecDeque::new(alloc);
    let mut place: usize = 1;
    for file in files {
        let opened = open_later(alloc, place, title, file)?;
        if later.push_back(opened).is_err() {
            return Err(JoinFault::NoMemory);
        }
        place = place.saturating_add(1);
    }
    Ok(later)
}

impl<B: BufRead + Drop, K: TextsKey> Read for Joined<B, K> {
    ghost use Rattle.std.specs.Prelude.{drop};
    ghost use Rattle.mg_joined.specs.aids.Joining.{script_left};

    ghost remaining = { λ j. script_left B.remaining K.texts (drop j.at j.front.items) j.source j.later.items };

    fn read(&mut self, buffer: &mut [u8]) -> io::Result<usize> {
        if self.is_broken {
            return Err(Error::from(ErrorKind::Other));
        }
        self.fill()?;
        let n = buffer.len().min(self.front.len() - self.at);
        buffer[..n].copy_from_slice(&self.front[self.at..self.at + n]);
        self.at += n;
        Ok(n)
    }
}
