//! Tests of lines, and of reading and writing in full.

use mg_lines::{READ_SIZE, read_some, without_return, write_whole};
use std::alloc::Global;

fn reads_to_the_end() -> bool {
    let mut input: &[u8] = b"poll\n";
    let mut buffer = [0; READ_SIZE];
    read_some(&mut input, &mut buffer) == Ok(Some(5))
        && &buffer[..5] == b"poll\n".as_slice()
        && read_some(&mut input, &mut buffer) == Ok(None)
}

fn writes_whole(alloc: Global) -> bool {
    let mut output = Vec::new(alloc);
    write_whole(b"tick\n", &mut output).is_ok() && output.as_slice() == b"tick\n".as_slice()
}

/// Each text with the result of `without_return`.
const TEXTS: [(&[u8], &[u8]); 4] = [
    (b"tick\r", b"tick"),
    (b"tick\r\r", b"tick\r"),
    (b"\rtick", b"\rtick"),
    (b"", b""),
];

fn drops_one_carriage_return() -> bool {
    for (text, left) in &TEXTS {
        if without_return(text) != *left {
            return false;
        }
    }
    true
}

#[test]
fn lines(rt: HostRuntime) {
    assert!(rt; reads_to_the_end());
    assert!(rt; writes_whole(rt.alloc()));
    assert!(rt; drops_one_carriage_return());
}
