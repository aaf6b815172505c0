//! Tests of replies.

ghost use Rattle.std.specs.Prelude.{◌≤◌};

use crate::equality::assert_equal;
use mg_bytes::Bytes;
use mg_g711::Law;
use mg_reply::{
    Association, CommandWord, ContextId, Control, ErrorNumber, Item, Media, Mode, Outcome, Parts,
    Reply, RtpName, Stats, Term, TooLong, write_error, write_head, write_reply,
};
use mg_sdp::Chosen;
use std::test::Fail;

const ADDED: Chosen = Chosen {
    address: [127, 0, 0, 1],
    port: 30000,
    law: Law::Mu,
};

#[test]
fn writes_a_local_alone(rt: HostRuntime) -> Result<(), Fail> {
    let alloc = rt.alloc();
    let mut reply = Reply::new(alloc)?;
    let mut text = Bytes::new(alloc, 16_000)?;
    reply.start(10003);
    let parts = Parts {
        media: Some(Media::Local(ADDED)),
        statistics: None,
    };
    reply.put(Item::Command(
        CommandWord::Add,
        Term::new(b"RTP/1").ok_or("name")?,
        Outcome::Done(parts),
    ));
    reply.put(Item::Action(ContextId::Number(1)));
    assert!(rt; write_reply(&reply, &mut text).is_ok());
    assert_equal(
        &rt,
        text.as_slice(),
        b"Reply=10003{Context=1{Add=RTP/1{Media{Stream=1{Local{v=0\r\nc=IN IP4 127.0.0.1\r\nm=audio 30000 RTP/AVP 0\r\na=ptime:20\r\n}}}}}}".as_slice(),
    );
    Ok(())
}

#[test]
fn writes_an_audit(rt: HostRuntime) -> Result<(), Fail> {
    let alloc = rt.alloc();
    let mut reply = Reply::new(alloc)?;
    let mut text = Bytes::new(alloc, 16_000)?;
    reply.start(2);
    let parts = Parts {
        media: Some(Media::Whole {
            control: Control {
                mode: Mode::ReceiveOnly,
                depth: 2,
            },
            local: Some(ADDED),
            remote: Some(Chosen {
                address: [10, 0, 0, 255],
                port: 40000,
                law: Law::A,
            }),
        }),
        statistics: Some(Stats {
            ps: 1,
            pr: 2,
            os: 160,
            or_: u64::MAX,
        }),
    };
    reply.put(Item::Command(
        CommandWord::AuditValue,
        Term::new(b"RTP/1").ok_or("name")?,
        Outcome::Done(parts),
    ));
    reply.put(Item::Action(ContextId::Number(1)));
    assert!(rt; write_reply(&reply, &mut text).is_ok());
    assert_equal(
        &rt,
        text.as_slice(),
        b"Reply=2{Context=1{AuditValue=RTP/1{Media{Stream=1{LocalControl{Mode=ReceiveOnly,nt/jit=40},Local{v=0\r\nc=IN IP4 127.0.0.1\r\nm=audio 30000 RTP/AVP 0\r\na=ptime:20\r\n},Remote{v=0\r\nc=IN IP4 10.0.0.255\r\nm=audio 40000 RTP/AVP 8\r\na=ptime:20\r\n}}},Statistics{rtp/ps=1,rtp/pr=2,nt/os=160,nt/or=18446744073709551615}}}}".as_slice(),
    );
    Ok(())
}

#[test]
fn writes_the_topology_first(rt: HostRuntime) -> Result<(), Fail> {
    let alloc = rt.alloc();
    let mut reply = Reply::new(alloc)?;
    let mut text = Bytes::new(alloc, 16_000)?;
    reply.start(4);
    reply.put(Item::Command(
        CommandWord::Move,
        Term::new(b"RTP/1").ok_or("name")?,
        Outcome::Done(Parts::default()),
    ));
    for (a, b) in [(2, 3), (2, 1), (3, 1)] {
        reply.put(Item::Triple(RtpName::new(a), RtpName::new(b), Association::Bothway));
    }
    reply.put(Item::Action(ContextId::Number(1)));
    assert!(rt; write_reply(&reply, &mut text).is_ok());
    assert_equal(
        &rt,
        text.as_slice(),
        b"Reply=4{Context=1{Topology{RTP/2,RTP/3,Bothway,RTP/2,RTP/1,Bothway,RTP/3,RTP/1,Bothway},Move=RTP/1}}".as_slice(),
    );
    Ok(())
}

#[test]
fn writes_errors_and_empty_actions(rt: HostRuntime) -> Result<(), Fail> {
    let alloc = rt.alloc();
    let mut reply = Reply::new(alloc)?;
    let mut text = Bytes::new(alloc, 16_000)?;
    reply.start(12);
    reply.put(Item::Command(
        CommandWord::AuditValue,
        Term::root(),
        Outcome::Done(Parts::default()),
    ));
    reply.put(Item::Action(ContextId::Null));
    reply.put(Item::Action(ContextId::Number(4)));
    reply.put(Item::Fault(ErrorNumber::UnknownContext));
    reply.put(Item::Command(
        CommandWord::Add,
        Term::root(),
        Outcome::Failed(ErrorNumber::IdentifierNotAllowed),
    ));
    reply.put(Item::Action(ContextId::Choose));
    assert!(rt; reply.is_whole());
    assert!(rt; write_reply(&reply, &mut text).is_ok());
    assert_equal(
        &rt,
        text.as_slice(),
        b"Reply=12{Context=-{AuditValue=ROOT},Context=4,Context=${Add=ROOT{Error=410{\"identifier not allowed here\"}},Error=411{\"unknown context\"}}}".as_slice(),
    );
    Ok(())
}

#[test]
fn writes_a_refusal(rt: HostRuntime) -> Result<(), Fail> {
    let alloc = rt.alloc();
    let mut reply = Reply::new(alloc)?;
    let mut text = Bytes::new(alloc, 16_000)?;
    reply.start(2);
    reply.put(Item::Fault(ErrorNumber::ReplyTooLong));
    assert!(rt; write_reply(&reply, &mut text).is_ok());
    assert_equal(
        &rt,
        text.as_slice(),
        b"Reply=2{Error=533{\"reply too long\"}}".as_slice(),
    );
    Ok(())
}

/// Adds 231 commands of 68 bytes each, and one command with a name of `len` bytes. Once its action has ended, the
/// reply's text has 15,963 + `len` bytes.
fn put_many(reply: &mut Reply, len: usize) -> Result<(), Fail>
    requires { len ≤ 64 }
{
    let name = [b'a'; 64];
    reply.start(1);
    for _ in 0..231 {
        reply.put(Item::Command(
            CommandWord::Add,
            Term::new(&name).ok_or("name")?,
            Outcome::Done(Parts::default()),
        ));
    }
    reply.put(Item::Command(
        CommandWord::Add,
        Term::new(&name[..len]).ok_or("name")?,
        Outcome::Done(Parts::default()),
    ));
    Ok(())
}

#[test]
fn writes_up_to_the_limit(rt: HostRuntime) -> Result<(), Fail> {
    let alloc = rt.alloc();
    let mut reply = Reply::new(alloc)?;
    let mut text = Bytes::new(alloc, 16_004)?;
    text.push(b"MEGA");
    put_many(&mut reply, 38)?;
    reply.put(Item::Action(ContextId::Number(1)));
    assert_equal(&rt, write_reply(&reply, &mut text), Err(TooLong));
    assert!(rt; text.as_slice() == b"MEGA".as_slice());
    put_many(&mut reply, 37)?;
    reply.put(Item::Action(ContextId::Number(1)));
    assert_equal(&rt, write_reply(&reply, &mut text), Ok(()));
    assert_equal(&rt, text.as_slice().len(), 16_004);
    Ok(())
}

#[test]
fn writes_an_error_after_a_head(rt: HostRuntime) -> Result<(), Fail> {
    let mut text = Bytes::new(rt.alloc(), 97)?;
    write_head([10, 0, 0, 255], 2944, &mut text);
    write_error(ErrorNumber::Syntax, &mut text);
    assert_equal(
        &rt,
        text.as_slice(),
        b"MEGACO/1 [10.0.0.255]:2944\nError=400{\"syntax\"}".as_slice(),
    );
    Ok(())
}
