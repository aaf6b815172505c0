//! Tests of session descriptions.

use crate::equality::assert_equal;
use mg_g711::Law;
use mg_sdp::{Chosen, SdpFault, choose, choose_remote, read_sessions, write_local, write_remote};
use std::test::Fail;

const ADDRESS: [u8; 4] = [127, 0, 0, 1];

fn law_at(content: &[u8], port: u16) -> Option<Law> {
    let sessions = read_sessions(content).ok()?;
    Some(choose(&sessions, ADDRESS, port)?.law)
}

fn remote_of(content: &[u8]) -> Option<Chosen> {
    let sessions = read_sessions(content).ok()?;
    choose_remote(&sessions)
}

#[test]
fn chooses_for_local(rt: HostRuntime) {
    let served = [
        (
            b"v=0\nc=IN IP4 $\nm=audio $ RTP/AVP 18 8 0\n".as_slice(),
            Law::A,
        ),
        (b"m=audio 30000 RTP/AVP 0", Law::Mu),
        (
            b"m= \tAudio\t$  rtp/avp \t$\r\n\r\n \t\r\nc=in\tip4 127.000.0.1 \t",
            Law::Mu,
        ),
        (
            b"v=0\nc=IN IP4 $\nm=audio $ RTP/AVP 4\na=ptime:30\nv=0\nc=IN IP4 $\nm=audio $ RTP/AVP 0\na=ptime:20\n",
            Law::Mu,
        ),
        (
            b"o=x\nV=1\nM=audio\ns=\na=PTIME:30\na=ptime:20\nc=IN\nc=IN IP4 $\nm=audio $ RTP/AVP 8",
            Law::A,
        ),
        (
            b"m=video $ RTP/AVP 0\nv=0\nm=audio $ RTP/AVP 8\nv=0\nm=audio $ RTP/AVP 0",
            Law::A,
        ),
    ];
    for (content, law) in served {
        assert_equal(&rt, law_at(content, 30000), Some(law));
    }
    let refused = [
        b"m=audio 30002 RTP/AVP 0".as_slice(),
        b"v=1\nm=audio $ RTP/AVP 0",
        b"v=0\nm=audio $ RTP/AVP 0\nm=audio $ RTP/AVP 0",
        b"m=audio $ RTP/AVP 0\na=ptime:30",
        b"m=audio $ RTP/AVP 00",
        b"m=audio $ RTP/AVP",
        b"m=audio 65536 RTP/AVP 0",
        b"c=IN IP4 127.0.0.256\nm=audio $ RTP/AVP 0",
        b"c=IN IP4 127.0.0.2\nm=audio $ RTP/AVP 0",
        b"c=IN IP4 $\nc=IN IP4 $ 1\nm=audio $ RTP/AVP 0",
        b"v=0",
        b" \n\t\r\n",
    ];
    for content in refused {
        assert_equal(&rt, law_at(content, 30000), None);
    }
}

#[test]
fn chooses_for_remote(rt: HostRuntime) {
    let chosen = Chosen {
        address: [10, 0, 0, 7],
        port: 40000,
        law: Law::A,
    };
    let content =
        b"v=0\nc=IN IP4 $\nm=audio 1 RTP/AVP 0\nv=0\nc=IN IP4 10.0.0.7\nm=audio 40000 RTP/AVP 4 8\n";
    assert_equal(&rt, remote_of(content), Some(chosen));
    let refused = [
        b"m=audio 40000 RTP/AVP 0".as_slice(),
        b"c=IN IP4 10.0.0.7\nm=audio 0 RTP/AVP 0",
        b"c=IN IP4 10.0.0.7\nm=audio $ RTP/AVP 0",
        b"c=IN IP4 10.0.0.7\nm=audio 40000 RTP/AVP $ 0",
    ];
    for content in refused {
        assert_equal(&rt, remote_of(content), None);
    }
}

#[test]
fn reports_faults(rt: HostRuntime) {
    let nine = b"v=0\nv=0\nv=0\nv=0\nv=0\nv=0\nv=0\nv=0\nv=0\n";
    assert_equal(&rt, read_sessions(nine).err(), Some(SdpFault::TooMany));
    assert_equal(
        &rt,
        read_sessions(b"v=0\nv=0\nv=0\nv=0\nv=0\nv=0\nv=0\nv=0\nv=0\nxyz").err(),
        Some(SdpFault::Line),
    );
    assert_equal(
        &rt,
        read_sessions(b"v=0\nv=0\nv=0\nv=0\nv=0\nv=0\nv=0\nv=0\n").err(),
        None,
    );
    assert_equal(
        &rt,
        read_sessions(b" \t\r\n\n").map(|sessions| sessions.is_blank()),
        Ok(true),
    );
    assert_equal(
        &rt,
        read_sessions(b"s=x").map(|sessions| sessions.is_blank()),
        Ok(false),
    );
    for content in [b"xyz".as_slice(), b"v", b"=0", b"1=0", b"v =0"] {
        assert_equal(&rt, read_sessions(content).err(), Some(SdpFault::Line));
    }
}

#[test]
fn writes_what_was_chosen(rt: HostRuntime) -> Result<(), Fail> {
    let chosen = Chosen {
        address: ADDRESS,
        port: 30000,
        law: Law::Mu,
    };
    let text = write_local(&chosen);
    assert_equal(&rt, text.len(), 62);
    assert_equal(
        &rt,
        text.as_slice(),
        b"v=0\r\nc=IN IP4 127.0.0.1\r\nm=audio 30000 RTP/AVP 0\r\na=ptime:20\r\n".as_slice(),
    );
    let chosen = Chosen {
        address: [255, 255, 255, 255],
        port: 65535,
        law: Law::A,
    };
    assert_equal(&rt, write_remote(&chosen).len(), 68);
    Ok(())
}
