ghost use Rattle.std.specs.Prelude.{◌≡◌, ◌≤◌, IfSome};
ghost use Rattle.mg_words.specs.Numbers.{decimal_of, number_of, uint16_of, port_of, version_in_digits};

/// Parses a number of one to `most` digits, at most `limit`. Returns `None` if the text is anything else.
#[tactic(auto, using(crate::proofs::DigitSteps::steps))]
fn decimal_of(text: &[u8], most: usize, limit: u32) -> Option<u32>
    ensures value { result ≡ decimal_of most limit text.now }
    ensures within { IfSome result (λ n. n ≤ limit) }
{
    if text.is_empty() || text.len() > most {
        return None;
    }
    let mut value: u32 = 0;
    for b in text {
        if !b.is_ascii_digit() {
            return None;
        }
        let next = 10 * u64::from(value) + u64::from(*b - b'0');
        if next > u64::from(limit) {
            return None;
        }
        value = next as u32;
    }
    Some(value)
}

/// Parses a number of one to ten digits, at most 4294967295. Returns `None` if the text is anything else.
pub fn number_of(text: &[u8]) -> Option<u32>
    ensures value { result ≡ number_of text.now }
{
    decimal_of(text, 10, u32::MAX)
}

/// Parses a number of one to five digits, at most 65535. Returns `None` if the text is anything else.
pub fn uint16_of(text: &[u8]) -> Option<u16>
    ensures value { result ≡ uint16_of text.now }
{
    match decimal_of(text, 5, u32::from(u16::MAX)) {
        Some(number) => Some(number as u16),
        None => None,
    }
}

/// Parses a port of one to five digits, from 0 to 65535. Returns `None` if the text is anything else.
pub fn port_of(text: &[u8]) -> Option<u16>
    ensures value { result ≡ port_of text.now }
{
    uint16_of(text)
}

/// Parses one part of an IPv4 address: one to three digits, at most 255. Returns `None` if the text is anything else.
pub fn address_part_of(text: &[u8]) -> Option<u8>
    ensures value { result ≡ decimal_of 3 255 text.now }
{
    match decimal_of(text, 3, u32::from(u8::MAX)) {
        Some(part) => Some(part as u8),
        None => None,
    }
}

/// Parses a protocol version of one or two digits. Returns `None` if the text is anything else.
pub fn version_in_digits(text: &[u8]) -> Option<u8>
    ensures value { result ≡ version_in_digits text.now }
{
    match decimal_of(text, 2, 99) {
        Some(version) => Some(version as u8),
        None => None,
    }
}
