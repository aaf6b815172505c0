ghost use Rattle.std.specs.Prelude.{◌≡◌, ◌≤◌, false, length, drop};
ghost use Rattle.std.specs.List.{prefix_len, position_or_len};
ghost use Rattle.mg_words.specs.WordByte.{is_word_byte};
ghost use Rattle.mg_words.specs.LineEnd.{is_line_end};
ghost use Rattle.mg_scan.specs.Tokens.{is_blank, after_white};

use mg_words::is_word_byte;

/// Returns whether a byte is CR or LF.
fn is_line_end(b: u8) -> bool
    ensures { result ≡ is_line_end b }
{
    b == b'\r' || b == b'\n'
}

/// Returns whether a byte is a space, a tab, CR or LF.
fn is_blank(b: u8) -> bool
    ensures { result ≡ is_blank b }
{
    b == b' ' || b == b'\t' || is_line_end(b)
}

/// Returns the length in bytes of the word that the bytes start with.
pub fn word_len(bytes: &[u8]) -> usize
    ensures in_range { result ≤ length bytes.now }
    ensures value { result ≡ prefix_len is_word_byte bytes.now }
{
    bytes.iter().take_while(|b| is_word_byte(**b)).count()
}

/// Returns the length in bytes of the rest of a comment, up to its line end or the end of the bytes.
fn comment_len(bytes: &[u8]) -> usize
    ensures in_range { result ≤ length bytes.now }
    ensures value { result ≡ position_or_len is_line_end bytes.now }
{
    bytes.iter().take_while(|b| !is_line_end(**b)).count()
}

/// Returns the length in bytes of the white space and comments that the bytes start with.
#[tactic(auto, using(crate::proofs::WhiteSteps::steps))]
pub fn white_len(bytes: &[u8]) -> usize
    ensures in_range { result ≤ length bytes.now }
    ensures rest { drop result bytes.now ≡ after_white false bytes.now }
{
    let mut n = 0;
    while n < bytes.len() {
        let b = bytes[n];
        if is_blank(b) {
            n += 1;
        } else if b == b';' {
            n += 1;
            n += comment_len(&bytes[n..]);
        } else {
            return n;
        }
    }
    n
}
