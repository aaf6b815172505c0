ghost use Rattle.std.specs.Prelude.{◌≡◌, [], List, ℕ, IfOk, OnOk, Some};
ghost use Rattle.mg_joined.specs.aids.Reading.{HasPassed, IsBefore, IsOpened, IsTitled};

use crate::fault::JoinFault;
use crate::source::Source;
use mg_chain::FOLLOWS;
use std::alloc::Global;
use std::io::BufRead;

/// A file that follows another one, after its line `# follows`.
#[derive(Drop)]
pub struct Later<B: BufRead> {
    pub source: Source<B>,
    /// The end of the line `# follows`: the hash of the file before it.
    pub follows: Vec<u8>,
    /// The number of lines up to the line `# follows`.
    pub lines: u64,
}

/// Reads a file's first line, which must be this title.
fn pass_title<B: BufRead + Drop>(
    alloc: Global,
    place: usize,
    title: &[u8],
    source: &mut Source<B>,
) -> Result<(), JoinFault>
    ensures value { OnOk result ((text : List ℕ) → B.remaining source.old.reader ≡ Some text →
        IsBefore [] text source.old.chain →
        IsTitled title.now text (B.remaining source.new.reader) source.new.chain) }
{
    let mut line = Vec::new(alloc);
    match source.read_line(&mut line) {
        Ok(_) if line.as_slice() == title => Ok(()),
        Ok(_) => Err(JoinFault::Apart(place)),
        Err(error) => Err(JoinFault::Read(place, error)),
    }
}

/// Reads lines up to a line `# follows`.
fn pass_front<B: BufRead + Drop>(
    alloc: Global,
    place: usize,
    mut source: Source<B>,
) -> Result<Later<B>, JoinFault>
    ensures value { (before left : List ℕ) → B.remaining source.reader ≡ Some left →
        IsBefore before left source.chain → IfOk result (λ later.
        HasPassed before left (B.remaining later.source.reader) later.source.chain later.follows.items) }
{
    let mut line = Vec::new(alloc);
    for lines in 2..u64::MAX {
        line.clear();
        match source.read_line(&mut line) {
            Ok(true) => {}
            Ok(false) => return Err(JoinFault::Apart(place)),
            Err(error) => return Err(JoinFault::Read(place, error)),
        }
        if line.starts_with(FOLLOWS) {
            return Ok(Later {
                source,
                follows: Vec::from_slice(alloc, &line[FOLLOWS.len()..])?,
                lines,
            });
        }
    }
    Err(JoinFault::Apart(place))
}

/// Reads the file at this place of a list up to its line `# follows`. The file must begin with this title.
pub(crate) fn open_later<B: BufRead + Drop>(
    alloc: Global,
    place: usize,
    title: &[u8],
    file: B,
) -> Result<Later<B>, JoinFault>
    ensures value { (text : List ℕ) → B.remaining file ≡ Some text → IfOk result (λ later.
        IsOpened title.now text (B.remaining later.source.reader) later.source.chain later.follows.items) }
{
    let mut source = Source::new(file);
    pass_title(alloc, place, title, &mut source)?;
    pass_front(alloc, place, source)
}
