ghost use Rattle.std.specs.Prelude.{◌≡◌, ◌<◌, ◌≤◌, length};
ghost use Rattle.std.specs.List.{list_all};
ghost use Rattle.mg_words.specs.Cut.{cut};
ghost use Rattle.mg_text.specs.Sender.{is_sender, is_domain_byte, is_domain, is_address, is_port_part, is_host};

use mg_words::{NAME_LIMIT, address_of, cut, port_of};

/// Returns whether a byte is allowed in a domain name: a letter, a digit, `-` or `.`.
fn is_domain_byte(b: u8) -> bool
    ensures value { result ≡ is_domain_byte b }
{
    b.is_ascii_alphanumeric() || b == b'-' || b == b'.'
}

/// Returns whether each byte of a string is allowed in a domain name.
fn all_domain_bytes(text: &[u8]) -> bool
    ensures value { result ≡ list_all is_domain_byte text.now }
{
    text.iter().all(|b| is_domain_byte(*b))
}

/// Returns whether a string is a domain name of 1 to 64 bytes.
fn is_domain(text: &[u8]) -> bool
    ensures value { result ≡ is_domain text.now }
{
    !text.is_empty() && text.len() <= NAME_LIMIT && all_domain_bytes(text)
}

/// Returns whether a string is empty, or a colon and a port.
fn is_port_part(text: &[u8]) -> bool
    ensures value { result ≡ is_port_part text.now }
{
    match text {
        [] => true,
        [b':', port @ ..] => port_of(port).is_some(),
        _ => false,
    }
}

/// Returns whether the text after `[` is an IPv4 address, `]`, and an optional port.
fn is_address_host(text: &[u8]) -> bool
    ensures value { result ≡ is_host is_address (cut 93 text.now) }
{
    match cut(b']', text) {
        Some((address, port)) => address_of(address).is_some() && is_port_part(port),
        None => false,
    }
}

/// Returns whether the text after `<` is a domain name, `>`, and an optional port.
fn is_domain_host(text: &[u8]) -> bool
    ensures value { result ≡ is_host is_domain (cut 62 text.now) }
{
    match cut(b'>', text) {
        Some((domain, port)) => is_domain(domain) && is_port_part(port),
        None => false,
    }
}

/// Returns whether a word names a sender.
///
/// A sender is an IPv4 address in brackets, a domain name in angle brackets, or a device name of 1 to 64 bytes. A port
/// may follow a closing bracket.
pub fn is_sender(text: &[u8]) -> bool
    ensures value { result ≡ is_sender text.now }
{
    match text {
        [] => false,
        [b'[', rest @ ..] => is_address_host(rest),
        [b'<', rest @ ..] => is_domain_host(rest),
        _ => text.len() <= NAME_LIMIT,
    }
}
