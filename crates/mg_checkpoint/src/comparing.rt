ghost use Rattle.std.specs.Prelude.{◌≡◌, ◌≤◌, OnOk, length};

use crate::fault::RestoreFault;
use crate::saving::feeds_in;

/// Returns the length of the longest text with which both texts begin.
fn common_len(one: &[u8], other: &[u8]) -> usize
    ensures within { result ≤ length one.now }
{
    let end = one.len().min(other.len());
    for i in 0..end {
        if one[i] != other[i] {
            return i;
        }
    }
    end
}

/// Compares a text with the checkpoint of the gateway that was made from the text.
pub fn compare(text: &[u8], saved: &[u8]) -> Result<(), RestoreFault>
    ensures same { OnOk result (saved.now ≡ text.now) }
{
    if saved == text {
        return Ok(());
    }
    let len = common_len(text, saved);
    Err(RestoreFault::Differs(1 + feeds_in(&text[..len])))
}
