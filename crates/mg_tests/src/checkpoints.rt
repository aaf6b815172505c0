//! Tests of checkpoints: what is saved is restored, and nothing else is.

use mg_checkpoint::{RestoreFault, restore, save};
use mg_core::{Config, Core, Peer};
use std::alloc::Global;
use std::process::Abort;
use std::test::Fail;

const CONTROLLER: Peer = Peer {
    address: [192, 0, 2, 9],
    port: 2944,
};

const TALKER: Peer = Peer {
    address: [192, 0, 2, 1],
    port: 4000,
};

/// Two participants who may not hear each other.
const FEW: &[&[u8]] = &[
    b"!/1 [192.0.2.9]:2944 T=1{C=${A=${M{O{MO=SR},R{v=0\nc=IN IP4 192.0.2.1\nm=audio 4000 RTP/AVP 8\n}}},A=${M{O{MO=RC}}}}}",
    b"!/1 [192.0.2.9]:2944 T=2{C=1{TP{RTP/2,RTP/1,IS}}}",
];

/// Messages that use all modes. They result in two contexts, one of them with members who have moved there, mutes in
/// both directions, and a termination that ended.
const MANY: &[&[u8]] = &[
    b"!/1 <mgc.example>:2944 T=1{C=${A=${M{O{MO=SR},L{v=0\nc=IN IP4 $\nm=audio $ RTP/AVP 0\n},R{v=0\nc=IN IP4 192.0.2.1\nm=audio 4000 RTP/AVP 0\n}}},A=${M{O{MO=SR},L{v=0\nc=IN IP4 $\nm=audio $ RTP/AVP 8\n},R{v=0\nc=IN IP4 192.0.2.2\nm=audio 4000 RTP/AVP 8\n}}},A=${M{O{MO=RC}}},A=${M{O{MO=LB}}}}}",
    b"!/1 <mgc.example>:2944 T=2{C=${A=${M{O{MO=SO},L{v=0\nc=IN IP4 $\nm=audio $ RTP/AVP 0\n},R{v=0\nc=IN IP4 192.0.2.3\nm=audio 4000 RTP/AVP 0\n}}},A=$}}",
    b"!/1 <mgc.example>:2944 T=3{C=1{TP{RTP/1,RTP/2,IS,RTP/3,RTP/1,OW}}}",
    b"!/1 <mgc.example>:2944 T=4{C=2{MV=RTP/1{M{O{MO=SR}}}}}",
    b"!/1 <mgc.example>:2944 T=5{C=2{TP{RTP/1,*,IS}}}",
    b"!/1 <mgc.example>:2944 T=6{C=1{S=RTP/4}}",
    b"!/1 <mgc.example>:2944 T=7{C=2{MV=RTP/2}}",
    b"!/1 <mgc.example>:2944 T=8{C=2{AV=RTP/1{AT{SA}}}}",
    b"!/1 <mgc.example>:2944 T=9{C=7{AV=RTP/1{AT{SA}}}}",
];

/// Returns a configuration in which sequence numbers and timestamps wrap soon.
fn config() -> Config {
    Config {
        slots: 8,
        sequence: 65530,
        timestamp: 4294967200,
        ..Config::default()
    }
}

fn hear_a_frame(core: &mut Core, sequence: u8) {
    let mut packet = [0x80; 172];
    packet[1] = 0;
    packet[3] = sequence;
    core.media(30000, TALKER, &packet);
}

/// Returns a gateway after these messages. A frame and two ticks follow each message.
fn gateway(alloc: Global, messages: &[&[u8]]) -> Result<Core, Fail> {
    let mut core = Core::new(alloc, config())?;
    for message in messages {
        core.control(alloc, CONTROLLER, message)?;
        hear_a_frame(&mut core, 1);
        core.tick();
        core.tick();
    }
    Ok(core)
}

fn text_of(alloc: Global, core: &Core) -> Result<Vec<u8>, Fail> {
    let mut text = Vec::new(alloc);
    save(core, &mut text)?;
    Ok(text)
}

/// Returns whether the restored gateway saves the text that it was made from, or the fault.
fn is_restored(alloc: Global, text: &[u8]) -> Result<bool, RestoreFault> {
    let core = restore(alloc, config(), text)?;
    let mut again = Vec::new(alloc);
    save(&core, &mut again)?;
    Ok(again.as_slice() == text)
}

#[test]
fn restores_what_was_saved(rt: HostRuntime) -> Result<(), Fail> {
    for messages in [[].as_slice(), FEW, MANY] {
        let core = gateway(rt.alloc(), messages)?;
        let text = text_of(rt.alloc(), &core)?;
        assert!(rt; is_restored(rt.alloc(), text.as_slice())?);
    }
    Ok(())
}

#[test]
fn goes_on_with_the_same_packets(rt: HostRuntime) -> Result<(), Fail> {
    let mut core = gateway(rt.alloc(), MANY)?;
    // After this many ticks, all frames that were heard have been played.
    core.skip(100);
    let text = text_of(rt.alloc(), &core)?;
    let mut restored = restore(rt.alloc(), config(), text.as_slice())?;
    for _ in 0..10 {
        core.tick();
        restored.tick();
        assert!(rt; restored.outbox() == core.outbox());
    }
    Ok(())
}

#[test]
fn refuses_a_text_that_is_cut_anywhere(rt: HostRuntime) -> Result<(), Fail> {
    let core = gateway(rt.alloc(), FEW)?;
    let text = text_of(rt.alloc(), &core)?;
    for len in 0..text.len() {
        assert!(rt; restore(rt.alloc(), config(), &text.as_slice()[..len]).is_err());
    }
    Ok(())
}

/// Returns the text without the line that begins at a byte.
fn without_line(alloc: Global, text: &[u8], start: usize) -> Result<Vec<u8>, Fail> {
    let (before, rest) = text.split_at(start.min(text.len()));
    let mut left = Vec::from_slice(alloc, before)?;
    for (i, b) in rest.iter().enumerate() {
        if *b == b'\n' {
            left.extend_from_slice(&rest[i + 1..])?;
            return Ok(left);
        }
    }
    Ok(left)
}

#[test]
fn refuses_a_text_without_one_of_its_lines(rt: HostRuntime) -> Result<(), Fail> {
    let core = gateway(rt.alloc(), MANY)?;
    let text = text_of(rt.alloc(), &core)?;
    let mut start = 0;
    for (i, b) in text.as_slice().iter().enumerate() {
        if *b == b'\n' {
            let left = without_line(rt.alloc(), text.as_slice(), start)?;
            assert!(rt; restore(rt.alloc(), config(), left.as_slice()).is_err());
            start = i + 1;
        }
    }
    Ok(())
}

/// Changes each byte of a text to this one, one at a time. If a changed text can be restored, the restored gateway
/// saves exactly that text.
fn change_each(rt: &impl Abort, alloc: Global, text: &[u8], byte: u8) -> Result<(), Fail> {
    let mut changed = Vec::from_slice(alloc, text)?;
    for (i, b) in text.iter().enumerate() {
        changed[i] = byte;
        if let Ok(is_same) = is_restored(alloc, changed.as_slice()) {
            assert!(rt; is_same);
        }
        changed[i] = *b;
    }
    Ok(())
}

#[test]
fn reads_a_changed_text_as_it_says_or_refuses_it(rt: HostRuntime) -> Result<(), Fail> {
    let core = gateway(rt.alloc(), FEW)?;
    let text = text_of(rt.alloc(), &core)?;
    change_each(&rt, rt.alloc(), text.as_slice(), b'3')
}

/// A text with one termination, up to the number of its slot.
const LONE: &[u8] = b"checkpoint after 1 control datagrams and 0 ticks\n\
    next RTP/2 context 2\n\
    context 1 has RTP/1 in room 0\n\
    termination RTP/1 context 1 slot ";

/// The rest of the text, after the number of the slot.
const REST: &[u8] = b" seat 0 mode Inactive depth 4 local none remote none timestamp 4294967040 \
    sequence 65530 sent 0 octets 0 paused\n\
    end after 4 lines\n";

/// Restores the text with one termination in this slot.
fn restore_in_slot(alloc: Global, slot: &[u8]) -> Result<bool, RestoreFault> {
    let mut text = Vec::from_slice(alloc, LONE)?;
    text.extend_from_slice(slot)?;
    text.extend_from_slice(REST)?;
    is_restored(alloc, text.as_slice())
}

#[test]
fn names_the_line_of_a_fault(rt: HostRuntime) -> Result<(), Fail> {
    assert_eq!(rt; restore_in_slot(rt.alloc(), b"7"), Ok(true));
    assert_eq!(rt;
        restore_in_slot(rt.alloc(), b"8"),
        Err(RestoreFault::Refused(3))
    );
    assert_eq!(rt;
        restore_in_slot(rt.alloc(), b"256"),
        Err(RestoreFault::BadLine(4))
    );
    assert_eq!(rt;
        restore_in_slot(rt.alloc(), b"07"),
        Err(RestoreFault::Differs(4))
    );
    Ok(())
}
