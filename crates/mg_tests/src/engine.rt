//! Tests of the engine: causes of drops, totals, who hears whom by termination number, the cost of calls, shared
//! payloads and skipped ticks.

use crate::equality::assert_equal;
use mg_engine::{
    Association, Config, Done, DropCause, Edit, Engine, ErrorNumber, MediaSetting, Mode, Outbox,
    Peer, Room, Row, Settings, Taken, Target, TopologyTriple, TopologyTriples, TripleTerm,
};
use mg_playout::Placed;
use mg_rtp::{Header, RtpFault, write};
use mg_sdp::read_sessions;
use mg_words::MEMBER_LIMIT;
use std::alloc::Global;
use std::process::Abort;
use std::test::Fail;

const CALLER: Peer = Peer {
    address: [127, 0, 0, 1],
    port: 40000,
};

/// Returns the setting with the offer of a session description.
fn offer(description: &[u8]) -> Result<MediaSetting, Fail> {
    match read_sessions(description) {
        Ok(sessions) => Ok(MediaSetting::Offer(sessions)),
        Err(_) => Err("no session description".into()),
    }
}

/// Returns the settings of an Add: a mode, a Local and a Remote.
fn caller(mode: Mode, local: &[u8], remote: &[u8]) -> Result<Settings, Fail> {
    Ok(Settings {
        mode: Some(mode),
        depth: None,
        local: Some(offer(local)?),
        remote: Some(offer(remote)?),
    })
}

/// Returns the settings of a Modify with this mode and this depth, both of which are optional.
fn changed(mode: Option<Mode>, depth: Option<u16>) -> Settings {
    Settings {
        mode,
        depth,
        local: None,
        remote: None,
    }
}

const MU: &[u8] = b"v=0\nc=IN IP4 $\nm=audio $ RTP/AVP 0\n";

/// The Remote of the callers. Its port differs from the port that their packets come from, because only the address is
/// compared.
const REMOTE: &[u8] = b"v=0\nc=IN IP4 127.0.0.1\nm=audio 40002 RTP/AVP 0\n";

/// Returns a packet of 160 equal bytes in mu-law, from one source, with this sequence number.
fn numbered_packet(sequence: u16, byte: u8) -> [u8; 172] {
    let header = Header {
        marker: false,
        payload_type: 0,
        sequence,
        timestamp: 0,
        ssrc: 99,
    };
    write(header, &[byte; 160])
}

/// Returns the first packet of 160 equal bytes in mu-law, from one source.
fn packet(byte: u8) -> [u8; 172] {
    numbered_packet(1, byte)
}

/// Starts an engine with this configuration.
fn start(alloc: Global, config: Config) -> Result<Engine, Fail> {
    match Engine::new(alloc, config) {
        Ok(engine) => Ok(engine),
        Err(_) => Err("an engine didn't start".into()),
    }
}

/// Adds a caller to a context.
fn add(engine: &mut Engine, target: Target, settings: &Settings) -> Result<Target, Fail> {
    match engine.add(target, settings) {
        Ok(added) => Ok(Target::Number(added.context)),
        Err(_) => Err("an Add was refused".into()),
    }
}

/// Adds one termination per mode to a new conference. All terminations have the same Remote.
fn add_crowd(engine: &mut Engine, modes: &[Mode]) -> Result<(), Fail> {
    let mut target = Target::New;
    for mode in modes {
        let settings = caller(*mode, MU, REMOTE)?;
        target = add(engine, target, &settings)?;
    }
    Ok(())
}

/// Starts an engine with one conference, which has one termination per mode. Sequence numbers and timestamps are about
/// to wrap.
fn crowd(alloc: Global, modes: &[Mode]) -> Result<Engine, Fail> {
    let config = Config {
        sequence: 65530,
        timestamp: 4294966000,
        ..Config::default()
    };
    let mut engine = start(alloc, config)?;
    add_crowd(&mut engine, modes)?;
    Ok(engine)
}

/// A scene that a test shows on an engine.
#[derive(Clone, Copy)]
enum Scene {
    FollowModes,
    LeaveTheTotal,
    LendFramesAndTotals,
    DropMalformedPackets,
    DropDatagramsWithoutTermination,
    IsolateByAnEdit,
    TickAtAPrice,
    TickWithMany,
    ShareAPayload,
    /// Skips this many ticks, and runs as many on another engine.
    SkipAndTick(u64),
    SkipForYears,
}

fn show(
    rt: &impl Abort,
    alloc: Global,
    scene: Scene,
    engine: &mut Engine,
    outbox: &mut Outbox,
) -> Result<(), Fail> {
    match scene {
        Scene::FollowModes => follow_modes(rt, engine, outbox),
        Scene::LeaveTheTotal => leave_the_total(rt, engine, outbox),
        Scene::LendFramesAndTotals => lend_frames_and_totals(rt, engine, outbox),
        Scene::DropMalformedPackets => drop_malformed_packets(rt, engine),
        Scene::DropDatagramsWithoutTermination => drop_datagrams_without_termination(rt, engine),
        Scene::IsolateByAnEdit => isolate_by_an_edit(rt, alloc, engine, outbox),
        Scene::TickAtAPrice => tick_at_a_price(rt, engine, outbox),
        Scene::TickWithMany => tick_with_many(rt, alloc, engine, outbox),
        Scene::ShareAPayload => share_a_payload(rt, alloc, engine, outbox),
        Scene::SkipAndTick(count) => skip_and_tick(rt, alloc, count, engine, outbox),
        Scene::SkipForYears => skip_for_years(rt, engine, outbox),
    }
}

/// Shows a scene on a new engine with one conference, which has one termination per mode. Only this function creates
/// the engine that a test begins with: the prover takes several seconds for each function that creates an engine.
fn play(rt: &impl Abort, alloc: Global, scene: Scene, modes: &[Mode]) -> Result<(), Fail> {
    let mut engine = crowd(alloc, modes)?;
    show(rt, alloc, scene, &mut engine, &mut Outbox::new())
}

/// The modes of a conference whose members hear each other.
const SPEAKERS: [Mode; 4] = [Mode::SendReceive; 4];

/// Changes a member of the first context.
fn modify(engine: &mut Engine, number: u32, settings: &Settings) -> Result<(), Fail> {
    match engine.modify(Target::Number(1), number, settings) {
        Ok(_) => Ok(()),
        Err(_) => Err("a Modify was refused".into()),
    }
}

/// Changes a member's mode in the first context.
fn set_mode(engine: &mut Engine, number: u32, mode: Mode) -> Result<(), Fail> {
    modify(engine, number, &changed(Some(mode), None))
}

/// Runs this many ticks. Returns how many frames were concealed.
fn tick(engine: &mut Engine, outbox: &mut Outbox, count: u64) -> u64 {
    let mut concealed: u64 = 0;
    for _ in 0..count {
        concealed = concealed.saturating_add(engine.tick(outbox) as u64);
    }
    concealed
}

/// Returns the first byte of each payload in an outbox.
fn payloads(alloc: Global, outbox: &Outbox) -> Result<Vec<u8>, Fail> {
    let mut bytes = Vec::new(alloc);
    for datagram in outbox {
        bytes.push(datagram.bytes[12])?;
    }
    Ok(bytes)
}

/// After a Move, a termination counts only toward the total of its new context.
fn leave_the_total(rt: &impl Abort, engine: &mut Engine, outbox: &mut Outbox) -> Result<(), Fail> {
    speak(engine, outbox);
    assert_equal(rt, engine.total(1, 0), Some(32124));
    assert!(rt; engine.move_to(Target::New, 3, &changed(None, None)).is_ok());
    let totals = [
        engine.total(1, 0),
        engine.total(2, 0),
        engine.total(3, 0),
        engine.total(1, 160),
    ];
    assert_equal(rt, totals, [Some(64248), Some(-32124), None, None]);
    assert!(rt;
        !engine.flow(3, 4) && engine.flow(1, 4) && !engine.flow(1, 1) && !engine.flow(9, 1)
    );
    Ok(())
}

#[test]
fn totals_follow_a_move(rt: HostRuntime) -> Result<(), Fail> {
    play(&rt, rt.alloc(), Scene::LeaveTheTotal, &SPEAKERS)
}

/// Finds the first datagram that a port accepts, or drops for an unexpected cause. Returns its outcome, or `None` if
/// there is no such datagram.
fn first_wrong(
    engine: &mut Engine,
    port: u16,
    source: Peer,
    cases: &[(&[u8], DropCause)],
) -> Option<Taken> {
    for (bytes, cause) in cases {
        let taken = engine.media(port, source, bytes);
        if taken != Taken::Dropped(*cause) {
            return Some(taken);
        }
    }
    None
}

/// A datagram that is not a packet of the right type and length is dropped.
fn drop_malformed_packets(rt: &impl Abort, engine: &mut Engine) -> Result<(), Fail> {
    let bytes = packet(0x80);
    let mut padded = bytes;
    padded[0] = 0xa0;
    padded[171] = 0;
    let mut extended = bytes;
    extended[0] = 0x90;
    extended[14] = 0xff;
    let mut other_law = bytes;
    other_law[1] = 8;
    let cases: [(&[u8], DropCause); 5] = [
        (bytes.as_slice().split_at(171).0, DropCause::Length),
        (&padded, DropCause::Rtp(RtpFault::Padding)),
        (&extended, DropCause::Rtp(RtpFault::Extension)),
        (
            bytes.as_slice().split_at(11).0,
            DropCause::Rtp(RtpFault::Short),
        ),
        (&other_law, DropCause::PayloadType),
    ];
    assert_equal(rt, first_wrong(engine, 30000, CALLER, &cases), None);
    assert_equal(rt, engine.stats(1).map(|stats| stats.pr), Some(0));
    Ok(())
}

#[test]
fn drops_malformed_packets(rt: HostRuntime) -> Result<(), Fail> {
    play(&rt, rt.alloc(), Scene::DropMalformedPackets, &SPEAKERS[..1])
}

/// A datagram from another address, at a port without a termination, or for a termination without a Local is dropped.
fn drop_datagrams_without_termination(rt: &impl Abort, engine: &mut Engine) -> Result<(), Fail> {
    let bytes = packet(0x80);
    let stranger = Peer {
        address: [127, 0, 0, 2],
        port: 40000,
    };
    let stray: [(&[u8], DropCause); 1] = [(&bytes, DropCause::Stray)];
    assert_equal(rt, first_wrong(engine, 30000, stranger, &stray), None);
    let nobody: [(&[u8], DropCause); 1] = [(&bytes, DropCause::NoTermination)];
    assert_equal(rt, first_wrong(engine, 30002, CALLER, &nobody), None);
    assert_equal(rt, first_wrong(engine, 30001, CALLER, &nobody), None);
    add(engine, Target::New, &Settings::default())?;
    let deaf: [(&[u8], DropCause); 1] = [(&bytes, DropCause::NoLocal)];
    assert_equal(rt, first_wrong(engine, 30002, CALLER, &deaf), None);
    Ok(())
}

#[test]
fn drops_datagrams_without_termination(rt: HostRuntime) -> Result<(), Fail> {
    play(
        &rt,
        rt.alloc(),
        Scene::DropDatagramsWithoutTermination,
        &SPEAKERS[..1],
    )
}

/// Returns a triple of two terms.
fn triple(first: TripleTerm, second: TripleTerm, association: Association) -> TopologyTriple {
    TopologyTriple {
        first,
        second,
        association,
    }
}

/// Returns triples in the form that an edit takes.
fn triples(list: &[TopologyTriple]) -> TopologyTriples {
    let mut triples = TopologyTriples::new();
    for triple in list {
        let _ = triples.try_push(*triple);
    }
    triples
}

/// Applies triples in the first context. Returns the result.
fn apply(engine: &mut Engine, list: &[TopologyTriple]) -> Result<u32, ErrorNumber> {
    engine.apply_triples(Target::Number(1), &triples(list))
}

/// Returns the first bytes of the payloads in the third tick after the first caller spoke.
fn third_payloads(
    alloc: Global,
    engine: &mut Engine,
    outbox: &mut Outbox,
) -> Result<Vec<u8>, Fail> {
    engine.media(30000, CALLER, &packet(0x80));
    tick(engine, outbox, 3);
    payloads(alloc, outbox)
}

const FIRST: TripleTerm = TripleTerm::Number(1);

const THIRD: TripleTerm = TripleTerm::Number(3);

/// An Isolate separates two of three callers.
fn isolate_by_an_edit(
    rt: &impl Abort,
    alloc: Global,
    engine: &mut Engine,
    outbox: &mut Outbox,
) -> Result<(), Fail> {
    let isolate = Edit::Triples {
        target: Target::Number(1),
        triples: triples(&[triple(FIRST, THIRD, Association::Isolate)]),
    };
    assert_equal(rt, engine.edit(&isolate), Ok(Done::Topology(1)));
    let want: &[u8] = &[0xff, 0x80, 0xff];
    assert_equal(rt, third_payloads(alloc, engine, outbox)?.as_slice(), want);
    assert_equal(rt, engine.total(1, 0), Some(32124));
    assert!(rt; !engine.flow(1, 3) && !engine.flow(3, 1) && engine.flow(1, 2));
    assert!(rt; !engine.hears(3, 1) && engine.hears(1, 2) && !engine.hears(1, 1));
    Ok(())
}

#[test]
fn isolates_by_an_edit(rt: HostRuntime) -> Result<(), Fail> {
    play(&rt, rt.alloc(), Scene::IsolateByAnEdit, &SPEAKERS[..3])
}

/// Returns how many rows the engine's calls have cost since its work was `before`.
fn rows_since(engine: &Engine, before: u32) -> u32 {
    engine.work().wrapping_sub(before)
}

/// Returns how many rows a tick costs.
fn tick_rows(engine: &mut Engine, outbox: &mut Outbox) -> u32 {
    let before = engine.work();
    engine.tick(outbox);
    rows_since(engine, before)
}

/// Three callers speak, and the third tick plays their speech.
fn speak(engine: &mut Engine, outbox: &mut Outbox) {
    engine.media(30000, CALLER, &packet(0x80));
    engine.media(30002, CALLER, &packet(0x80));
    engine.media(30004, CALLER, &packet(0x00));
    tick(engine, outbox, 3);
}

/// A total includes the members whose mode lets them talk, and no members that have left.
fn follow_modes(rt: &impl Abort, engine: &mut Engine, outbox: &mut Outbox) -> Result<(), Fail> {
    speak(engine, outbox);
    assert_equal(rt, engine.total(1, 0), Some(32124));
    set_mode(engine, 3, Mode::SendOnly)?;
    assert_equal(rt, engine.total(1, 0), Some(64248));
    assert!(rt; !engine.flow(3, 1) && engine.flow(1, 3));
    set_mode(engine, 3, Mode::SendReceive)?;
    assert_equal(rt, engine.total(1, 0), Some(32124));
    assert!(rt; engine.subtract(Target::Number(1), 1).is_ok());
    assert_equal(rt, engine.total(1, 159), Some(0));
    Ok(())
}

#[test]
fn totals_follow_modes(rt: HostRuntime) -> Result<(), Fail> {
    play(&rt, rt.alloc(), Scene::FollowModes, &SPEAKERS)
}

/// The stored frames and totals can be read.
fn lend_frames_and_totals(
    rt: &impl Abort,
    engine: &mut Engine,
    outbox: &mut Outbox,
) -> Result<(), Fail> {
    speak(engine, outbox);
    let sums = engine.sums();
    assert_equal(rt, *sums.total(Room::new(0), 0), 32124);
    assert_equal(rt, sums.frame(Row::new(2))[159], -32124);
    assert_equal(rt, sums.frame(Row::new(3))[0], 0);
    Ok(())
}

#[test]
fn lends_the_frames_and_totals(rt: HostRuntime) -> Result<(), Fail> {
    play(&rt, rt.alloc(), Scene::LendFramesAndTotals, &SPEAKERS)
}

/// Ticks, RTP datagrams and edits cost no more rows than their bounds allow.
fn tick_at_a_price(rt: &impl Abort, engine: &mut Engine, outbox: &mut Outbox) -> Result<(), Fail> {
    speak(engine, outbox);
    assert!(rt; tick_rows(engine, outbox) <= 12);
    let isolate = triple(FIRST, THIRD, Association::Isolate);
    assert_equal(rt, apply(engine, &[isolate]), Ok(1));
    assert!(rt; tick_rows(engine, outbox) <= 14);
    let before = engine.work();
    engine.media(30000, CALLER, &packet(0x80));
    assert_equal(rt, rows_since(engine, before), 0);
    set_mode(engine, 3, Mode::Inactive)?;
    assert!(rt; rows_since(engine, before) <= 4);
    Ok(())
}

#[test]
fn ticks_at_the_price_of_a_few_rows(rt: HostRuntime) -> Result<(), Fail> {
    play(&rt, rt.alloc(), Scene::TickAtAPrice, &SPEAKERS)
}

/// Sends a packet of the loudest speech to each port of a full context.
fn speak_at_each_port(engine: &mut Engine) {
    for slot in 0..MEMBER_LIMIT {
        engine.media(30000 + 2 * slot as u16, CALLER, &packet(0x80));
    }
}

/// A tick of a full context costs at most three rows for each member that talks.
///
/// The total is the sum over all members, and each member hears the loudest possible sample.
fn tick_with_many(
    rt: &impl Abort,
    alloc: Global,
    engine: &mut Engine,
    outbox: &mut Outbox,
) -> Result<(), Fail> {
    speak_at_each_port(engine);
    tick(engine, outbox, 2);
    assert!(rt; tick_rows(engine, outbox) <= 3 * MEMBER_LIMIT as u32);
    assert_equal(rt, engine.total(1, 0), Some(32124 * MEMBER_LIMIT as i32));
    let want: &[u8] = &[0x80; MEMBER_LIMIT];
    assert_equal(rt, payloads(alloc, outbox)?.as_slice(), want);
    Ok(())
}

#[test]
fn ticks_of_many_talkers_cost_three_rows_each(rt: HostRuntime) -> Result<(), Fail> {
    let modes = [Mode::SendReceive; MEMBER_LIMIT];
    play(&rt, rt.alloc(), Scene::TickWithMany, &modes)
}

/// Returns the modes of a full context in which one member talks and all others listen.
fn lecture() -> [Mode; MEMBER_LIMIT] {
    let mut modes = [Mode::SendOnly; MEMBER_LIMIT];
    modes[0] = Mode::SendReceive;
    modes
}

/// Listeners that hear the same talker share a payload.
fn share_a_payload(
    rt: &impl Abort,
    alloc: Global,
    engine: &mut Engine,
    outbox: &mut Outbox,
) -> Result<(), Fail> {
    engine.media(30000, CALLER, &packet(0x80));
    tick(engine, outbox, 2);
    assert!(rt; tick_rows(engine, outbox) <= 4);
    let payloads = payloads(alloc, outbox)?;
    let want: &[u8] = &[0xff, 0x80, 0x80];
    assert!(rt; payloads.len() == MEMBER_LIMIT);
    assert_equal(rt, payloads.as_slice().split_at(3).0, want);
    assert_equal(rt, payloads.as_slice().last(), Some(&0x80));
    Ok(())
}

#[test]
fn listeners_who_hear_the_same_share_a_payload(rt: HostRuntime) -> Result<(), Fail> {
    play(&rt, rt.alloc(), Scene::ShareAPayload, &lecture())
}

const EACH_MODE: [Mode; 5] = [
    Mode::SendReceive,
    Mode::SendOnly,
    Mode::ReceiveOnly,
    Mode::Inactive,
    Mode::Loopback,
];

/// Gives the first and the last termination frames to play. The first termination's third frame is missing.
fn hold_frames(engine: &mut Engine) {
    for sequence in [1, 2, 4] {
        engine.media(30000, CALLER, &numbered_packet(sequence, 0x80));
    }
    engine.media(30008, CALLER, &packet(0x00));
}

/// Returns whether two engines have the same counters.
fn count_alike(one: &Engine, other: &Engine) -> bool {
    for number in 1..6 {
        if one.stats(number) != other.stats(number) {
            return false;
        }
    }
    true
}

/// Returns whether two engines send the same packets in each of the next four ticks, and then have the same counters.
fn go_on_alike(
    one: &mut Engine,
    other: &mut Engine,
    sent: &mut Outbox,
    wanted: &mut Outbox,
) -> bool {
    for _ in 0..4 {
        one.tick(sent);
        other.tick(wanted);
        if sent.as_slice() != wanted.as_slice() {
            return false;
        }
    }
    count_alike(one, other)
}

/// Makes every termination send.
fn let_all_send(engine: &mut Engine) -> Result<(), Fail> {
    set_mode(engine, 3, Mode::SendReceive)?;
    set_mode(engine, 4, Mode::SendReceive)
}

/// Skips ticks on one engine and runs as many on the other. Both engines then behave alike.
fn compare_skip_with_ticks(
    rt: &impl Abort,
    count: u64,
    skipped: &mut Engine,
    ticked: &mut Engine,
    sent: &mut Outbox,
    wanted: &mut Outbox,
) -> Result<(), Fail> {
    hold_frames(skipped);
    hold_frames(ticked);
    let concealed = skipped.skip(count);
    assert_equal(rt, concealed, tick(ticked, wanted, count));
    assert_equal(rt, concealed, u64::from(count > 4));
    let_all_send(skipped)?;
    let_all_send(ticked)?;
    assert!(rt; go_on_alike(skipped, ticked, sent, wanted));
    Ok(())
}

/// Skipping ticks has the same result as running as many on another engine.
fn skip_and_tick(
    rt: &impl Abort,
    alloc: Global,
    count: u64,
    skipped: &mut Engine,
    outbox: &mut Outbox,
) -> Result<(), Fail> {
    let mut ticked = crowd(alloc, &EACH_MODE)?;
    let wanted = &mut Outbox::new();
    compare_skip_with_ticks(rt, count, skipped, &mut ticked, outbox, wanted)
}

#[test]
fn a_skip_leaves_what_ticks_leave(rt: HostRuntime) -> Result<(), Fail> {
    for count in [0, 1, 2, 3, 4, 5, 6, 7, 8, 300] {
        play(&rt, rt.alloc(), Scene::SkipAndTick(count), &EACH_MODE)?;
    }
    Ok(())
}

/// Returns the start of the next tick's first packet: its flags, sequence number and timestamp.
fn next_numbers(engine: &mut Engine, outbox: &mut Outbox) -> Option<[u8; 8]> {
    engine.tick(outbox);
    outbox.first()?.bytes.first_chunk().copied()
}

/// Returns the numbers of packets and octets that a termination has sent.
fn sent_by(engine: &Engine, number: u32) -> Option<(u64, u64)> {
    let stats = engine.stats(number)?;
    Some((stats.ps, stats.os))
}

/// After 2^32 ticks, sequence numbers and timestamps have the same values again. Counters stop at their maximum.
fn skip_for_years(rt: &impl Abort, engine: &mut Engine, outbox: &mut Outbox) -> Result<(), Fail> {
    let at_first = [128, 0, 255, 250, 255, 255, 250, 240];
    hold_frames(engine);
    engine.skip(1 << 32);
    assert_equal(rt, sent_by(engine, 1), Some((1 << 32, 160 << 32)));
    assert_equal(rt, next_numbers(engine, outbox), Some(at_first));
    engine.skip(u64::MAX);
    assert_equal(rt, sent_by(engine, 1), Some((u64::MAX, u64::MAX)));
    assert_equal(rt, sent_by(engine, 3), Some((0, 0)));
    assert_equal(rt, next_numbers(engine, outbox), Some(at_first));
    Ok(())
}

#[test]
fn skips_for_years(rt: HostRuntime) -> Result<(), Fail> {
    play(&rt, rt.alloc(), Scene::SkipForYears, &EACH_MODE)
}
