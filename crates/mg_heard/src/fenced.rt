ghost use Rattle.std.specs.Prelude.{◌≡◌};
ghost use Rattle.mg_fence.specs.Reached.{number_set};

use mg_words::number_of;

/// Returns the number in a comment such as `# fence 17`, with which an operator set the fence, or `None` if the line is
/// not such a comment.
pub(crate) fn number_set(line: &[u8]) -> Option<u32>
    ensures value { result ≡ number_set line.now }
{
    number_of(line.strip_prefix(b"# fence ".as_slice())?)
}
