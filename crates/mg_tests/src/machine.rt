//! Tests of the core as a state machine, in cases that no script can show.

ghost use Rattle.mg_core.specs.Parsed.{IsReadingOf};

use crate::equality::assert_equal;
use crate::scripts::{Part, run_script, script_of};
use mg_core::{Answer, Config, Core, Counts, NoMemory, Parsed, Peer, RunFault, Shown};
use mg_fakes::{FailingReader, FailingWriter};
use std::alloc::Global;
use std::io::Cursor;
use std::process::Abort;
use std::test::Fail;

const CONTROLLER: Peer = Peer {
    address: [127, 0, 0, 1],
    port: 2945,
};

const LINE: &[u8] =
    b"say 127.0.0.1:2945 MEGACO/1 [127.0.0.1]:2945 Transaction=1{Context=-{AuditValue=ROOT{Audit{}}}}\n";

const REPLY_LINE: &[u8] =
    b"say 127.0.0.1:2945 MEGACO/1 [127.0.0.1]:2944\\nReply=1{Context=-{AuditValue=ROOT}}\n";

/// Starts a core with this configuration.
fn start(alloc: Global, config: Config) -> Result<Core, Fail> {
    match Core::new(alloc, config) {
        Ok(core) => Ok(core),
        Err(_) => Err("a core didn't start".into()),
    }
}

/// Returns whether the core has the first termination and no other.
fn has_one(core: &Core) -> bool {
    let is_alone = core.stats(1).is_some() && core.stats(2).is_none();
    is_alone && core.rooms().members(1) == [1].as_slice()
}

/// Returns whether a datagram that is not a message is rejected with an error.
fn rejects_what_is_no_message(alloc: Global, core: &mut Core) -> Result<bool, NoMemory> {
    let answer = core.control(alloc, CONTROLLER, b"MEGACO/1 mg K{7")?;
    let error = b"MEGACO/1 [127.0.0.1]:2944\nError=400{\"syntax\"}";
    Ok(answer == Answer::Send && core.answer() == error.as_slice())
}

const ADD: &[u8] =
    b"!/1 [127.0.0.1]:2945 T=2{C=${A=${M{O{MO=SR},L{v=0\nc=IN IP4 $\nm=audio $ RTP/AVP 0\n},R{v=0\nc=IN IP4 127.0.0.1\nm=audio 40000 RTP/AVP 0\n}}}}}";

const ADDED: &[u8] = b"MEGACO/1 [127.0.0.1]:2944\n\
    Reply=2{Context=1{Add=RTP/1{Media{Stream=1{Local{v=0\r\nc=IN IP4 127.0.0.1\r\nm=audio 30000 RTP/AVP 0\r\na=ptime:20\r\n}}}}}}";

const FULL: &[u8] = b"!/1 [127.0.0.1]:2945 T=3{C=1{A=$}}";

const FULL_REPLY: &[u8] = b"MEGACO/1 [127.0.0.1]:2944\n\
    Reply=3{Context=1{Add=${Error=432{\"no termination or port left\"}}}}";

/// Returns whether a core answers a datagram, which has already been read, with this text.
fn runs(core: &mut Core, bytes: &[u8], parsed: &Parsed, text: &[u8]) -> bool
    requires reading { IsReadingOf bytes.now parsed.now }
{
    core.run(CONTROLLER, bytes, parsed) == Answer::Send && core.answer() == text
}

/// Runs an Add, then a message that was read before the Add, then the Add again. Returns whether the answers are as
/// expected.
fn runs_around(
    alloc: Global,
    core: &mut Core,
    bytes: &[u8],
    parsed: &Parsed,
) -> Result<bool, NoMemory>
    requires reading { IsReadingOf bytes.now parsed.now }
{
    let add = Core::read(alloc, ADD)?;
    Ok(
        runs(core, ADD, &add, ADDED)
            && runs(core, bytes, parsed, FULL_REPLY)
            && runs(core, ADD, &add, ADDED),
    )
}

/// Reads a message before an Add, and runs it after the Add. Returns whether the answers are as expected.
fn reads_then_runs(alloc: Global, core: &mut Core, bytes: &[u8]) -> Result<bool, NoMemory> {
    let parsed = Core::read(alloc, bytes)?;
    runs_around(alloc, core, bytes, &parsed)
}

/// A datagram takes effect in the state that the core has when the datagram is passed to `run`, not when it is read.
/// Each datagram is counted.
fn run_what_was_read(rt: &impl Abort, alloc: Global, core: &mut Core) -> Result<(), Fail> {
    assert!(rt; rejects_what_is_no_message(alloc, core)?);
    assert_equal(rt, core.counts().control, 1);
    assert!(rt; reads_then_runs(alloc, core, FULL)?);
    assert!(rt; has_one(core));
    assert_equal(rt, core.counts().control, 4);
    Ok(())
}

/// Returns the header of a tick's only packet, or `None` if the tick does not send exactly one packet.
fn sent_header(core: &mut Core) -> Option<[u8; 12]> {
    core.tick();
    match core.outbox() {
        [packet] => packet.bytes.first_chunk().copied(),
        _ => None,
    }
}

/// Sequence numbers, timestamps and SSRCs wrap. A skip counts its ticks and sends no packets, and the last answer is
/// still there.
fn send_and_skip(rt: &impl Abort, core: &mut Core) {
    let first = [128, 128, 255, 255, 255, 255, 255, 160, 0, 0, 0, 0];
    assert_equal(rt, sent_header(core), Some(first));
    let second = [128, 0, 0, 0, 0, 0, 0, 64, 0, 0, 0, 0];
    assert_equal(rt, sent_header(core), Some(second));
    core.skip(1_000_000_000_000);
    assert!(rt; core.outbox().is_empty() && !core.answer().is_empty());
    assert_equal(rt, core.counts().ticks, 1_000_000_000_002);
    core.skip(u64::MAX);
    assert_equal(rt, core.counts().ticks, u64::MAX);
}

/// A core reads and runs messages, and runs or skips ticks, as in a program.
#[test]
fn runs_messages_and_ticks(rt: HostRuntime) -> Result<(), Fail> {
    let config = Config {
        slots: 1,
        ssrc: 4294967295,
        sequence: 65535,
        timestamp: 4294967200,
        ..Config::default()
    };
    let mut core = start(rt.alloc(), config)?;
    run_what_was_read(&rt, rt.alloc(), &mut core)?;
    send_and_skip(&rt, &mut core);
    Ok(())
}

/// Runs a script with a reader that returns at most `piece` bytes per call and fails after this many calls. Returns the
/// output and the result of the run.
fn read_in_pieces(
    alloc: Global,
    script: &[u8],
    piece: usize,
    calls: usize,
) -> (Vec<u8>, Result<Counts, RunFault>) {
    let mut reader = FailingReader {
        inner: Cursor::new(script),
        piece,
        calls,
    };
    let mut written = Vec::new(alloc);
    let outcome = run_script(alloc, Shown::Sent, &mut reader, &mut written);
    (written, outcome)
}

/// Runs a script with a writer that takes at most 50 bytes per call and fails after this many calls. Returns the output
/// and the fault, which is `None` if the run succeeds.
fn write_in_pieces(alloc: Global, script: &[u8], calls: usize) -> (Vec<u8>, Option<RunFault>) {
    let mut reader = Cursor::new(script);
    let mut writer = FailingWriter::new(alloc, 50, calls);
    let outcome = run_script(alloc, Shown::Sent, &mut reader, &mut writer);
    (writer.written, outcome.err())
}

#[test]
fn reports_each_failed_read(rt: HostRuntime) -> Result<(), Fail> {
    let script = script_of(rt.alloc(), &[(3, Part::Text(LINE))])?;
    for calls in 0..100usize {
        let (written, outcome) = read_in_pieces(rt.alloc(), script.as_slice(), 50, calls);
        let read = calls.saturating_mul(50).min(script.len());
        let wanted = script_of(rt.alloc(), &[(read / LINE.len(), Part::Text(REPLY_LINE))])?;
        assert!(rt; written.as_slice() == wanted.as_slice());
        if outcome.is_ok() {
            assert_equal(&rt, calls, 7);
            return Ok(());
        }
        assert_equal(&rt, outcome.err(), Some(RunFault::Read));
    }
    Err("no run read to the end".into())
}

#[test]
fn reports_each_failed_write(rt: HostRuntime) -> Result<(), Fail> {
    let script = script_of(rt.alloc(), &[(3, Part::Text(LINE))])?;
    let wanted = script_of(rt.alloc(), &[(3, Part::Text(REPLY_LINE))])?;
    for calls in 0..100usize {
        let (written, fault) = write_in_pieces(rt.alloc(), script.as_slice(), calls);
        assert!(rt; wanted.as_slice().starts_with(written.as_slice()));
        if fault.is_none() {
            assert!(rt; calls >= 6 && written.as_slice() == wanted.as_slice());
            return Ok(());
        }
        assert_equal(&rt, fault, Some(RunFault::Write));
    }
    Err("no run wrote to the end".into())
}

#[test]
fn reads_a_byte_at_a_time(rt: HostRuntime) -> Result<(), Fail> {
    let script = script_of(rt.alloc(), &[(1000, Part::Text(b"tick\n"))])?;
    let (_, outcome) = read_in_pieces(rt.alloc(), script.as_slice(), 1, 5001);
    assert_equal(&rt, outcome?.ticks, 1000);
    Ok(())
}
