ghost use Rattle.std.specs.Prelude.{◌≡◌, IfOk, IfSome};
ghost use Rattle.mg_chain.specs.Seals.{IsLinked, seals_of};

use crate::check::Check;
use crate::linked::Linked;
use crate::seals::Seals;
use std::alloc::Global;
use std::io::{self, BufRead, BufReader, Error, ErrorKind, Read};

/// Reads a text to its end, and returns the counts of its seals and lines, and the end of its next seal.
fn read_lines<R: BufRead>(alloc: Global, reader: &mut R) -> io::Result<Linked>
    ensures value { IfOk result (λ linked. IfSome (R.remaining reader.old) (λ text. IsLinked text linked)) }
{
    let mut check = Check::new();
    let mut line = Vec::new(alloc);
    for number in 1..u64::MAX {
        line.clear();
        if reader.read_until(b'\n', &mut line)? == 0 {
            return Ok(Linked {
                seals: check.seals(),
                end: check.end(),
            });
        }
        check.take_line(number, line.as_slice());
    }
    Err(Error::from(ErrorKind::FileTooLarge))
}

/// Reads a text to its end, and returns the counts of its seals and lines, and what joins it to the texts before and
/// after it. The longest line has to fit in memory.
pub fn read_linked<R: Read>(alloc: Global, reader: &mut R) -> io::Result<Linked>
    ensures value { IfOk result (λ linked. IfSome (R.remaining reader.old) (λ text. IsLinked text linked)) }
{
    let mut buffered = BufReader::new(alloc, reader)?;
    read_lines(alloc, &mut buffered)
}

/// Reads a text to its end, and returns the counts of its seals and lines. The longest line has to fit in memory.
pub fn read_seals<R: Read>(alloc: Global, reader: &mut R) -> io::Result<Seals>
    ensures value { IfOk result (λ seals. IfSome (R.remaining reader.old) (λ text. seals ≡ seals_of text)) }
{
    let linked = read_linked(alloc, reader)?;
    Ok(linked.seals)
}
