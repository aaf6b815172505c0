//! Tests of numbers, addresses, prefixes, names, errors, modes and counters.

use mg_words::{
    ContextId, ErrorNumber, Mode, Stats, Term, address_of, address_text, after_prefix,
    context_id_of, cut, mode_listens, mode_talks, number_of, port_of, version_in_digits,
};

/// Strings that are not numbers of 1 to 10 digits that fit in 32 bits.
const NO_NUMBERS: [&[u8]; 5] = [b"", b"4294967296", b"00000000007", b"+7", b"7 "];

fn reads_numbers() -> bool {
    for text in &NO_NUMBERS {
        if number_of(text).is_some() {
            return false;
        }
    }
    number_of(b"4294967295") == Some(4294967295) && number_of(b"0000000007") == Some(7)
}

fn reads_ports_and_versions() -> bool {
    port_of(b"65535") == Some(65535)
        && port_of(b"65536").is_none()
        && version_in_digits(b"01") == Some(1)
        && version_in_digits(b"001").is_none()
}

/// Strings that are not addresses.
const NO_ADDRESSES: [&[u8]; 5] = [
    b"127.0.0",
    b"127.0.0.256",
    b"127.0.0.1.",
    b"127.0.0.",
    b"1.2.3.4.5",
];

fn reads_addresses() -> bool {
    for text in &NO_ADDRESSES {
        if address_of(text).is_some() {
            return false;
        }
    }
    address_of(b"127.000.0.1") == Some([127, 0, 0, 1])
}

fn cuts() -> bool {
    let Some((front, rest)) = cut(b':', b"a:b:c") else {
        return false;
    };
    front == b"a".as_slice() && rest == b"b:c".as_slice() && cut(b':', b"abc").is_none()
}

fn takes_prefixes() -> bool {
    after_prefix(b"RTP/", b"rtp/7") == Some(b"7".as_slice())
        && after_prefix(b"RTP/", b"RTP/") == Some(b"".as_slice())
        && after_prefix(b"RTP/", b"RTP").is_none()
        && after_prefix(b"RTP/", b"RTCP/7").is_none()
}

fn writes_addresses_and_errors() -> bool {
    let syntax = b"Error=400{\"syntax\"}";
    address_text([10, 0, 0, 255]).as_slice() == b"10.0.0.255".as_slice()
        && ErrorNumber::NotServed.number() == 501
        && ErrorNumber::NotServed.as_str() == "not served"
        && ErrorNumber::Syntax.descriptor().as_slice() == syntax.as_slice()
}

fn names_terminations_and_contexts() -> bool {
    Term::rtp(4294967295).as_slice() == b"RTP/4294967295".as_slice()
        && Term::new(b"a,b").is_none()
        && context_id_of(b"4294967294") == Some(ContextId::Choose)
        && context_id_of(b"7") == Some(ContextId::Number(7))
}

#[test]
fn words(rt: HostRuntime) {
    assert!(rt; reads_numbers());
    assert!(rt; reads_ports_and_versions());
    assert!(rt; reads_addresses());
    assert!(rt; cuts());
    assert!(rt; takes_prefixes());
    assert!(rt; writes_addresses_and_errors());
    assert!(rt; names_terminations_and_contexts());
    assert!(rt; mode_talks(Mode::ReceiveOnly) && !mode_listens(Mode::ReceiveOnly));
    assert!(rt; Stats::new().or_ == 0);
}
