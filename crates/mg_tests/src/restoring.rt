//! Tests of engines that are put together again from what is known of their terminations.

use crate::equality::assert_equal;
use mg_engine::{
    Association, Config, Engine, MediaSetting, Mode, Outbox, Record, SentMedia, Settings, Target,
    TopologyTriple, TripleTerm,
};
use mg_sdp::read_sessions;
use std::alloc::Global;
use std::process::Abort;
use std::test::Fail;

/// Sequence numbers and timestamps are about to wrap.
fn config() -> Config {
    Config {
        sequence: 65534,
        timestamp: 4294966990,
        ..Config::default()
    }
}

/// Starts an engine. Only this function does: the prover takes several seconds for each function that starts one.
fn start(alloc: Global) -> Result<Engine, Fail> {
    match Engine::new(alloc, config()) {
        Ok(engine) => Ok(engine),
        Err(_) => Err("an engine didn't start".into()),
    }
}

/// Returns the settings of a termination that talks, listens, and has a Remote.
fn speaker() -> Settings {
    let remote = read_sessions(b"v=0\nc=IN IP4 127.0.0.1\nm=audio 40002 RTP/AVP 0\n");
    Settings {
        mode: Some(Mode::SendReceive),
        depth: Some(7),
        local: None,
        remote: remote.ok().map(MediaSetting::Offer),
    }
}

/// Returns a term for one termination.
fn one(number: u32) -> TripleTerm {
    TripleTerm::Number(number)
}

/// Adds a termination to a context.
fn add(rt: &impl Abort, engine: &mut Engine, target: Target) {
    assert!(rt; engine.add(target, &speaker()).is_ok());
}

/// Fills a conference of terminations 2, 4 and 1, in this order of entry, and one of 5. Termination 3 is gone, so its
/// slot and its seat are free. Termination 4 doesn't hear 2, but 2 hears 4.
fn fill(rt: &impl Abort, engine: &mut Engine, outbox: &mut Outbox) {
    add(rt, engine, Target::New);
    for _ in 2..5 {
        add(rt, engine, Target::Number(1));
    }
    add(rt, engine, Target::New);
    engine.tick(outbox);
    let unchanged = Settings::default();
    assert!(rt; engine.subtract(Target::Number(1), 3).is_ok());
    assert!(rt; engine.move_to(Target::Number(2), 1, &unchanged).is_ok());
    assert!(rt; engine.move_to(Target::Number(1), 1, &unchanged).is_ok());
    let oneway = TopologyTriple {
        first: one(4),
        second: one(2),
        association: Association::Oneway,
    };
    assert!(rt; engine.apply_triples(Target::Number(1), &[oneway]).is_ok());
    engine.tick(outbox);
}

/// Returns what a termination has sent, or `None` if it doesn't exist.
fn sent_by(engine: &Engine, number: u32) -> Option<SentMedia> {
    for place in 0..engine.terminations() {
        if engine.termination(place).number == number {
            return Some(engine.sent_media(place));
        }
    }
    None
}

/// Puts one termination back. Returns whether that was possible.
fn put_back(from: &Engine, to: &mut Engine, number: u32) -> bool {
    match (from.rooms().member(number), sent_by(from, number)) {
        (Some(member), Some(sent)) => to.restore(&member.record, member.room, sent),
        _ => false,
    }
}

/// Puts the members of a context back in order of entry, and then the last word on each pair of them.
fn put_context_back(rt: &impl Abort, from: &Engine, to: &mut Engine, context: u32) {
    let members = from.rooms().members(context);
    for number in members {
        assert!(rt; put_back(from, to, *number));
    }
    for talker in members {
        for listener in members {
            let is_heard = from.hears(*talker, *listener);
            let is_said = to.set_word(*talker, *listener, is_heard);
            assert_equal(rt, is_said, *talker != *listener);
        }
    }
}

/// Puts one engine together again in another one.
fn put_together(rt: &impl Abort, from: &Engine, to: &mut Engine) {
    let rooms = from.rooms();
    assert!(rt; to.skip_to(rooms.next_termination(), rooms.next_context()));
    let contexts = rooms.contexts();
    assert_equal(rt, contexts.as_slice(), [1, 2].as_slice());
    for context in contexts.as_slice() {
        put_context_back(rt, from, to, *context);
    }
}

/// Both engines have the same terminations and contexts, and the same terminations hear each other.
fn compare(rt: &impl Abort, one: &Engine, other: &Engine) {
    for number in 1..7 {
        assert_equal(rt, one.rooms().member(number), other.rooms().member(number));
        assert_equal(rt, one.stats(number), other.stats(number));
        assert_equal(rt, sent_by(one, number), sent_by(other, number));
        for listener in 1..7 {
            assert_equal(
                rt,
                one.hears(number, listener),
                other.hears(number, listener),
            );
        }
    }
    for context in 1..4 {
        assert_equal(
            rt,
            one.rooms().members(context),
            other.rooms().members(context),
        );
    }
}

/// Both engines send the same packets.
fn go_on_alike(rt: &impl Abort, one: &mut Engine, other: &mut Engine, outbox: &mut Outbox) {
    let wanted = &mut Outbox::new();
    for _ in 0..3 {
        one.tick(outbox);
        other.tick(wanted);
        assert!(rt; !outbox.is_empty() && outbox.as_slice() == wanted.as_slice());
    }
}

/// A termination whose number, slot or seat is held can't be restored, and neither can one that is out of range.
fn refuse(rt: &impl Abort, engine: &mut Engine) {
    let Some(record) = engine.rooms().record(4) else {
        return;
    };
    let sent = SentMedia {
        timestamp: config().timestamp,
        sequence: 0,
        is_sending: false,
        sent: 0,
        octets: 0,
    };
    let free = Record {
        number: 3,
        slot: 9,
        seat: 9,
        ..record
    };
    let refused = [
        (Record { number: 4, ..free }, 0),
        (Record { number: 6, ..free }, 0),
        (Record { number: 0, ..free }, 0),
        (
            Record {
                slot: record.slot,
                ..free
            },
            0,
        ),
        (
            Record {
                seat: record.seat,
                ..free
            },
            0,
        ),
        (Record { seat: 64, ..free }, 0),
        (Record { depth: 1, ..free }, 0),
        (Record { depth: 17, ..free }, 0),
        (Record { context: 3, ..free }, 2),
        (Record { context: 0, ..free }, 2),
        (free, 1),
        (free, 2),
    ];
    for (termination, room) in refused {
        assert!(rt; !engine.restore(&termination, room, sent));
    }
    let late = SentMedia {
        timestamp: sent.timestamp.wrapping_add(16),
        ..sent
    };
    assert!(rt; !engine.restore(&free, 0, late));
    assert!(rt; !engine.skip_to(5, 3) && !engine.skip_to(6, 2));
    assert!(rt; !engine.skip_to(1 << 33, 3) && !engine.skip_to(6, 1 << 32));
    assert!(rt; !engine.set_word(1, 5, false) && !engine.set_word(1, 1, false));
    assert_equal(rt, engine.terminations(), 4);
    assert!(rt; engine.restore(&free, 0, sent));
    assert_equal(rt, engine.rooms().record(3), Some(free));
}

#[test]
fn engines_are_put_together_again(rt: HostRuntime) -> Result<(), Fail> {
    let outbox = &mut Outbox::new();
    let mut engine = start(rt.alloc())?;
    fill(&rt, &mut engine, outbox);
    let mut other = start(rt.alloc())?;
    put_together(&rt, &engine, &mut other);
    compare(&rt, &engine, &other);
    go_on_alike(&rt, &mut engine, &mut other, outbox);
    refuse(&rt, &mut other);
    Ok(())
}
