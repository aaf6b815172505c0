ghost use Rattle.std.specs.Prelude.{◌≡◌, ◌≢◌, ℕ, [], false, length, Err, IfOk};
ghost use Rattle.std.specs.Option.{option_map};
ghost use Rattle.mg_clock.specs.Ticks.{clock_seen};
ghost use Rattle.mg_engine.specs.Config.{IsValidConfig};
ghost use Rattle.mg_core.specs.World.{World};
ghost use Rattle.mg_core.specs.aids.Stands.{StandsFor};
ghost use Rattle.mg_ports.specs.Journaled.{ports_seen};
ghost use Rattle.mg_serve.specs.Serve.{ClockCommands, ReadCommands, Served, form_of};
ghost use Rattle.mg_serve.specs.aids.Outside.{new_journal};

use crate::clock_driver::ClockDriver;
use crate::form::Form;
use crate::line_driver::LineDriver;
use crate::peripherals::Peripherals;
use crate::server::Server;
use crate::start::Start;
use crate::terms::Terms;
use crate::timer::Timer;
use mg_clock::Watch;
use mg_core::{Counts, DATAGRAM_LIMIT, RunFault};
use std::alloc::{AllocError, Global};
use std::io::Read;

/// Runs a gateway on the given ports, driven by lines of text. The gateway is new, or was resumed from a journal.
///
/// Prints `ready`, and executes the lines of the input up to the first `quit` or the end of the input. Sockets that the
/// configuration does not include are not used.
///
/// - `poll` reads at most 64 datagrams from each socket: first from the control socket, then from the media sockets in
///   ascending order. A control message that needs an answer is answered at once. A message is dropped if it doesn't
///   come from a listed controller (if any is listed) or doesn't pass the fence. A failed receive ends that socket's
///   turn.
/// - `tick` advances by 20 ms and sends the packets. If a send fails, only that packet is lost.
/// - `stats` prints `control=a media=b ticks=c sent=d failed=e dropped=f,g,h,i,j,k concealed=l`: [`Counts`] explains
///   these numbers. If there is a fence, its number and the count of stale messages follow, as in `fence=17 stale=0`.
/// - Any other line, except `quit`, prints `unknown command`.
///
/// With a title, the output is a recording: a script with one line for each event (`control`, `rtp` or `tick`), in
/// order. Its first line is the title, as a comment. Everything else that is printed is a comment too, including a note
/// for each control datagram that was dropped because memory ran out or an append failed. `run` from `mg_core` runs
/// such a script again. If printing fails, the current input line is still executed in full, and nothing more is
/// printed.
///
/// If there is a journal, each control message that is accepted is appended to the journal before the message is
/// handled, unless it is oversized. If the append fails, the message is dropped. Ticks are appended before the next
/// message, and otherwise five times a second. A tick's packets are sent whether or not appends work. The journal's
/// text contains the session's events, except for RTP datagrams, oversized messages, and ticks that it still lacks.
///
/// If the ports say after a tick that a renewal is due, the journal is replaced by one that begins with the gateway's
/// checkpoint (`mg_checkpoint`) and goes on from there. If that fails, the old journal goes on.
///
/// Reports datagrams and ticks to the monitor.
///
/// On return, with or without an error, the complete lines that were read and their effects form a session of the
/// gateway. `Read` and `Write` mean that the input or the output failed. `Read` is also returned after 4,294,967,295
/// reads that did not reach the end of the input. `NoMemory` is returned only before anything is read.
pub fn serve<P: Peripherals, R: Read>(
    start: Start<'_>,
    ports: &mut P::Ports,
    reader: &mut R,
    writer: &mut P::Output,
    monitor: &mut P::Monitor,
) -> Result<Counts, RunFault>
    requires sound { IsValidConfig start.setup.now.config }
    ensures session { (w : World) → StandsFor start.entry.core.state w →
        Served start.entry.setup.now w (option_map (λ text. text.now) start.entry.title)
        (ReadCommands (form_of (option_map (λ text. text.now) start.entry.title)) (R.remaining reader.old)
        (R.remaining reader.new) result)
        (ports_seen (P.Ports.calls ports.old) (P.Ports.journal ports.old))
        (ports_seen (P.Ports.calls ports.new) (P.Ports.journal ports.new))
        (P.Output.contents writer.old) (P.Output.contents writer.new) result }
    ensures started { result ≢ Err RunFault.BadConfig }
{
    let Start {
        alloc,
        setup,
        core,
        title,
    } = start;
    let Ok(mut driver) = LineDriver::<P>::new(alloc, core, form_of(title), setup, monitor) else {
        return Err(RunFault::NoMemory);
    };
    let terms = Terms {
        alloc,
        setup,
        title,
    };
    drive(&mut driver, &terms, ports, reader, writer)
}

/// Drives a gateway with the lines of the input, up to the first `quit` or the end.
fn drive<P: Peripherals, R: Read>(
    driver: &mut LineDriver<'_, P>,
    terms: &Terms<'_>,
    ports: &mut P::Ports,
    reader: &mut R,
    writer: &mut P::Output,
) -> Result<Counts, RunFault>
    requires sound { IsValidConfig terms.now.setup.now.config }
    requires printer { driver.old.server.printer ≡
        record { form = form_of (option_map (λ text. text.now) terms.now.title); has_failed = false } }
    requires journal { driver.old.server.journal ≡ new_journal terms.now.setup.now }
    requires partial { driver.old.partial ≡ [] }
    ensures session { (w : World) → StandsFor driver.old.server.core.state w →
        Served terms.now.setup.now w (option_map (λ text. text.now) terms.now.title)
        (ReadCommands (form_of (option_map (λ text. text.now) terms.now.title)) (R.remaining reader.old)
        (R.remaining reader.new) result)
        (ports_seen (P.Ports.calls ports.old) (P.Ports.journal ports.old))
        (ports_seen (P.Ports.calls ports.new) (P.Ports.journal ports.new))
        (P.Output.contents writer.old) (P.Output.contents writer.new) result }
    ensures started { result ≢ Err RunFault.BadConfig }
{
    let Ok(mut buffer) = datagram_buffer(terms.alloc) else {
        return Err(RunFault::NoMemory);
    };
    let Ok(()) = driver.server.open(terms.title, writer) else {
        return Err(RunFault::Write);
    };
    driver.take_all(terms.setup, ports, buffer.as_mut_slice(), reader, writer)?;
    Ok(driver.server.counts(ports))
}

/// Runs a gateway on the given ports in real time. The gateway is new, or was resumed from a journal.
///
/// Prints `ready`. Then, every 20 ms by the clock, does the same as [`serve`] for the lines `poll` and `tick`. If a
/// message arrives in between, does the same as [`serve`] for the line `poll`, up to 20 times before each tick.
///
/// The k-th tick begins at the first reading of the clock at which it is due: `k * 20 ms` after the clock's start, or
/// later. After a delay, all missed ticks are executed at once. If a tick is later than the timer allows, ports on a
/// network don't send its packets.
///
/// Returns only on a fault: `Read` if the clock can't be read or can't reach the next tick, or after 2^64 - 1 steps;
/// `Write` if printing failed; or `NoMemory` if memory runs out before anything is executed.
pub fn serve_by_clock<P: Peripherals, K: Watch>(
    start: Start<'_>,
    ports: &mut P::Ports,
    timer: &mut Timer<K>,
    writer: &mut P::Output,
    monitor: &mut P::Monitor,
) -> RunFault
    requires sound { IsValidConfig start.setup.now.config }
    ensures session { (w : World) → StandsFor start.entry.core.state w →
        Served start.entry.setup.now w (option_map (λ text. text.now) start.entry.title)
        (ClockCommands (form_of (option_map (λ text. text.now) start.entry.title)) timer.old.late
        (clock_seen (K.readings timer.old.watch) (K.waits timer.old.watch))
        (clock_seen (K.readings timer.new.watch) (K.waits timer.new.watch))
        (K.Fails timer.new.watch) (Err result))
        (ports_seen (P.Ports.calls ports.old) (P.Ports.journal ports.old))
        (ports_seen (P.Ports.calls ports.new) (P.Ports.journal ports.new))
        (P.Output.contents writer.old) (P.Output.contents writer.new) (Err result) }
    ensures started { result ≢ RunFault.BadConfig }
{
    let Start {
        alloc,
        setup,
        core,
        title,
    } = start;
    let Ok(server) = Server::new(alloc, core, form_of(title), setup, monitor) else {
        return RunFault::NoMemory;
    };
    let mut driver = ClockDriver::<P>::new(server, timer.late);
    let terms = Terms {
        alloc,
        setup,
        title,
    };
    drive_by_clock(&mut driver, &terms, ports, &mut timer.watch, writer)
}

/// Drives a gateway with a clock.
fn drive_by_clock<P: Peripherals, K: Watch>(
    driver: &mut ClockDriver<'_, P>,
    terms: &Terms<'_>,
    ports: &mut P::Ports,
    watch: &mut K,
    writer: &mut P::Output,
) -> RunFault
    requires sound { IsValidConfig terms.now.setup.now.config }
    requires printer { driver.old.server.printer ≡
        record { form = form_of (option_map (λ text. text.now) terms.now.title); has_failed = false } }
    requires journal { driver.old.server.journal ≡ new_journal terms.now.setup.now }
    ensures session { (allowed : ℕ) → driver.old.schedule ≡ record { ticks = 0; allowed = allowed; messages = 0 } →
        (w : World) → StandsFor driver.old.server.core.state w →
        Served terms.now.setup.now w (option_map (λ text. text.now) terms.now.title)
        (ClockCommands (form_of (option_map (λ text. text.now) terms.now.title)) allowed
        (clock_seen (K.readings watch.old) (K.waits watch.old)) (clock_seen (K.readings watch.new) (K.waits watch.new))
        (K.Fails watch.new) (Err result))
        (ports_seen (P.Ports.calls ports.old) (P.Ports.journal ports.old))
        (ports_seen (P.Ports.calls ports.new) (P.Ports.journal ports.new))
        (P.Output.contents writer.old) (P.Output.contents writer.new) (Err result) }
    ensures started { result ≢ RunFault.BadConfig }
{
    let Ok(mut buffer) = datagram_buffer(terms.alloc) else {
        return RunFault::NoMemory;
    };
    let Ok(()) = driver.server.open(terms.title, writer) else {
        return RunFault::Write;
    };
    driver.take_all(terms.setup, ports, buffer.as_mut_slice(), watch, writer)
}

/// Returns the form of the output: a recording if there is a title, and plain lines otherwise.
fn form_of(title: Option<&[u8]>) -> Form
    ensures value { result ≡ form_of (option_map (λ text. text.now) title.entry) }
{
    match title {
        None => Form::Plain,
        Some(_) => Form::Recording,
    }
}

/// Allocates a buffer for the longest datagram.
fn datagram_buffer(alloc: Global) -> Result<Vec<u8>, AllocError>
    ensures room { IfOk result (λ buffer. length buffer.items ≡ DATAGRAM_LIMIT) }
{
    vec![in alloc; 0; DATAGRAM_LIMIT]
}
