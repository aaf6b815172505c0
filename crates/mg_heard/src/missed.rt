ghost use Rattle.std.specs.Prelude.{◌≡◌};
ghost use Rattle.mg_heard.specs.Times.{missed_in};

use mg_core::count_of;

/// Returns the number in a comment such as `# missed 1500 ticks`, or `None` if the line is not such a comment.
pub(crate) fn missed_in(line: &[u8]) -> Option<u64>
    ensures value { result ≡ missed_in line.now }
{
    let rest = line.strip_prefix(b"# missed ".as_slice())?;
    let digits = rest.strip_suffix(b" ticks".as_slice())?;
    count_of(digits)
}
