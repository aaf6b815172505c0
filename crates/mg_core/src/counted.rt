ghost use Rattle.std.specs.Prelude.{◌≡◌};
ghost use Rattle.mg_core.specs.Counted.{is_mark, ticks_in, ticks_line};
ghost use Rattle.mg_words.specs.Numbers.{decimal_of};

use arrayvec::ArrayVec;
use itoa::Buffer;

/// The maximum number of digits of a count.
const DIGITS: usize = 20;

/// Parses a number of 1 to 20 digits that fits in 64 bits. Returns `None` if the text is anything else.
#[tactic(auto, using(mg_words::proofs::DigitSteps::steps))]
pub fn count_of(digits: &[u8]) -> Option<u64>
    ensures value { result ≡ decimal_of 20 18446744073709551615 digits.now }
{
    if digits.is_empty() || digits.len() > DIGITS {
        return None;
    }
    let mut value: u64 = 0;
    for b in digits {
        if !b.is_ascii_digit() {
            return None;
        }
        let next = 10 * u128::from(value) + u128::from(*b - b'0');
        if next > u128::from(u64::MAX) {
            return None;
        }
        value = next as u64;
    }
    Some(value)
}

/// Returns the number in a line such as `ticks 12`, or `None` for any other line. The number doesn't begin with 0.
pub(crate) fn ticks_in(line: &[u8]) -> Option<u64>
    ensures value { result ≡ ticks_in line.now }
{
    let digits = line.strip_prefix(b"ticks ".as_slice())?;
    if digits.starts_with(b"0") {
        return None;
    }
    count_of(digits)
}

/// Returns whether this is the line `# counted ticks`, after which ticks are counted.
pub(crate) fn is_mark(line: &[u8]) -> bool
    ensures value { result ≡ is_mark line.now }
{
    line == b"# counted ticks".as_slice()
}

/// The maximum length of a line with a number of ticks, in bytes.
const LINE_ROOM: usize = 27;

/// A line with a number of ticks, including its line feed.
pub type TicksLine = ArrayVec<u8, LINE_ROOM>;

/// Returns the line with which a gateway appends ticks to its journal.
pub fn ticks_line(count: u64) -> TicksLine
    ensures value { result.items ≡ ticks_line count }
{
    let mut buffer = Buffer::new();
    let mut line = TicksLine::new();
    let _ = line.try_extend_from_slice(b"ticks ");
    let _ = line.try_extend_from_slice(buffer.format(count).as_bytes());
    let _ = line.try_extend_from_slice(b"\n");
    line
}
