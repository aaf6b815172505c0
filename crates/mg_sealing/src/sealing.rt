ghost use Rattle.std.specs.Prelude.{◌≡◌, ◌≤◌, ◌++◌, codes, IfSome, List, OnOk, Option, true, ℕ};
ghost use Rattle.std.specs.Io.KnownBytes.{Appends};
ghost use Rattle.sha2.specs.Hashers.{Holds256};
ghost use Rattle.mg_chain.specs.Seals.{is_seal, is_whole, last_part, seal_of};
ghost use Rattle.mg_sealing.specs.Seal.{SealsInput};
ghost use Rattle.mg_sealing.specs.Sealed.{ended, last_line, needs_seal, printed_with, seal_before, sealed};
ghost use Rattle.mg_sealing.specs.Sealed.{ticks_left, ticks_with};

use crate::theorems::sealed_stays;
use crate::verifying::status_of;
use mg_chain::{Chain, END, MARK};
use mg_options::Status;
use std::alloc::Global;
use std::io::{self, BufRead, BufReader, Error, ErrorKind, Read, Write};

/// The number of ticks between seals: a minute's worth.
const TICKS: u32 = 3000;

/// The length of a seal's line, in bytes.
const SEAL: usize = 9 + END;

/// Prints a line and adds it to the chain.
fn put<W: Write>(line: &[u8], chain: &mut Chain, output: &mut W) -> io::Result<()>
    ensures prints { OnOk result (Appends (W.contents output.old) (W.contents output.new) line.now) }
    ensures hash { (printed : List ℕ) → is_whole printed ≡ true → Holds256 chain.old (last_part printed) →
        OnOk result (Holds256 chain.new (last_part (printed ++ line.now))) }
{
    output.write_all(line)?;
    chain.add(line);
    Ok(())
}

/// Returns the line of the seal that ends with these bytes.
fn seal_line(end: &[u8; END]) -> [u8; SEAL]
    ensures value { result ≡ codes "# sha256 " ++ end.now }
{
    let mut line = [0; SEAL];
    line[..MARK.len()].copy_from_slice(MARK);
    line[MARK.len()..].copy_from_slice(end);
    line
}

/// Prints the seal of the output so far.
fn put_seal<W: Write>(chain: &mut Chain, output: &mut W) -> io::Result<()>
    ensures prints { (part : List ℕ) → Holds256 chain.old part →
        OnOk result (Appends (W.contents output.old) (W.contents output.new) (seal_of part)) }
    ensures hash { (printed : List ℕ) → is_whole printed ≡ true → Holds256 chain.old (last_part printed) →
        OnOk result (Holds256 chain.new (last_part (printed ++ seal_of (last_part printed)))) }
{
    let line = seal_line(&chain.seal_end());
    put(&line, chain, output)
}

/// Returns the number of ticks in a minute after this line, given the number before the line.
fn ticks_with(ticks: u32, line: &[u8]) -> u32
    requires few { ticks ≤ TICKS }
    ensures few { result ≤ TICKS }
    ensures value { result ≡ ticks_with (ticks_left ticks) line.now }
{
    let before = if ticks < TICKS { ticks } else { 0 };
    if line == b"tick\n".as_slice() {
        before + 1
    } else {
        before
    }
}

/// Returns whether a line is a seal, valid or not.
fn is_seal(line: &[u8]) -> bool
    ensures value { result ≡ is_seal line.now }
{
    line.starts_with(MARK) && line.ends_with(b"\n")
}

/// Returns whether a line is complete and isn't a seal.
fn needs_seal(line: &[u8]) -> bool
    ensures value { result ≡ needs_seal line.now }
{
    line.ends_with(b"\n") && !is_seal(line)
}

/// Prints a seal if one is due before this line.
fn put_seal_before<W: Write>(
    ticks: u32,
    line: &[u8],
    chain: &mut Chain,
    output: &mut W,
) -> io::Result<()>
    ensures prints { (printed : List ℕ) (start : Option (List ℕ)) →
        Holds256 chain.old (last_part printed) → Appends start (W.contents output.old) printed →
        OnOk result (Appends start (W.contents output.new) (printed ++ seal_before ticks printed line.now)) }
    ensures hash { (printed : List ℕ) → is_whole printed ≡ true → Holds256 chain.old (last_part printed) →
        OnOk result (Holds256 chain.new (last_part (printed ++ seal_before ticks printed line.now))) }
{
    if ticks == TICKS && !is_seal(line) {
        put_seal(chain, output)?;
    }
    Ok(())
}

/// Prints a line, preceded by a seal if one is due.
fn put_line<W: Write>(ticks: u32, line: &[u8], chain: &mut Chain, output: &mut W) -> io::Result<()>
    ensures prints { (printed : List ℕ) (start : Option (List ℕ)) → is_whole printed ≡ true →
        Holds256 chain.old (last_part printed) → Appends start (W.contents output.old) printed →
        OnOk result (Appends start (W.contents output.new) (printed_with ticks printed line.now)) }
    ensures hash { (printed : List ℕ) → is_whole printed ≡ true → Holds256 chain.old (last_part printed) →
        OnOk result (Holds256 chain.new (last_part (printed_with ticks printed line.now))) }
{
    put_seal_before(ticks, line, chain, output)?;
    put(line, chain, output)
}

/// Prints the last seal, if one is due at the end.
fn put_last_seal<W: Write>(is_due: bool, chain: &mut Chain, output: &mut W) -> io::Result<()>
    ensures prints { (printed : List ℕ) (start : Option (List ℕ)) → is_due ≡ needs_seal (last_line printed) →
        Holds256 chain.old (last_part printed) → Appends start (W.contents output.old) printed →
        OnOk result (Appends start (W.contents output.new) (ended printed)) }
{
    if is_due {
        put_seal(chain, output)?;
    }
    Ok(())
}

/// Copies a recording to its end and adds seals. The longest line has to fit in memory.
fn write_sealed<R: BufRead, W: Write>(
    alloc: Global,
    reader: &mut R,
    output: &mut W,
) -> io::Result<()>
    ensures value { OnOk result (IfSome (R.remaining reader.old)
        (λ text. Appends (W.contents output.old) (W.contents output.new) (sealed text))) }
{
    let mut chain = Chain::new();
    let mut line = Vec::new(alloc);
    let mut ticks = 0;
    let mut is_due = false;
    for _ in 0..u64::MAX {
        line.clear();
        if reader.read_until(b'\n', &mut line)? == 0 {
            return put_last_seal(is_due, &mut chain, output);
        }
        let text = line.as_slice();
        put_line(ticks, text, &mut chain, output)?;
        ticks = ticks_with(ticks, text);
        is_due = needs_seal(text);
    }
    Err(Error::from(ErrorKind::FileTooLarge))
}

/// Copies the text read from `reader` and adds seals.
fn seal_text<R: Read, W: Write>(alloc: Global, reader: &mut R, output: &mut W) -> io::Result<()>
    ensures value { OnOk result (IfSome (R.remaining reader.old)
        (λ text. Appends (W.contents output.old) (W.contents output.new) (sealed text))) }
{
    let mut buffered = BufReader::new(alloc, reader)?;
    write_sealed(alloc, &mut buffered, output)
}

/// Copies a recording from the input to the output, with a seal after the ticks of each minute and a last seal at the
/// end. The last seal is left out after a seal, and if the input is empty. It is also left out after a line without a
/// line feed, because it would become part of that line. If a seal already follows the ticks of a minute, no seal is
/// added, so sealing a sealed recording changes nothing. Returns the exit status. A fault is reported to `errors`.
pub fn seal<R: Read, W: Write, E: Write>(
    alloc: Global,
    input: &mut R,
    output: &mut W,
    errors: &mut E,
) -> Status
    ensures value { SealsInput (R.remaining input.old) (W.contents output.old) (W.contents output.new)
        (errors.new ≡ errors.old) result }
{
    sealed_stays();
    match seal_text(alloc, input, output) {
        Ok(()) => Status::Done,
        Err(error) => {
            let _ = writeln!(errors, "the recording cannot be copied: {error}");
            status_of(&error)
        }
    }
}
