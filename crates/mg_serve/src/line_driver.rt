ghost use Rattle.std.specs.Prelude.{◌≡◌, ◌≢◌, ◌^◌, ◌<◌, ◌≤◌, ◌+◌, ℕ, List, [], true, false, length, take, Err, IfErr, IfOk, OnOk};
ghost use Rattle.mg_engine.specs.Config.{IsValidConfig};
ghost use Rattle.mg_ports.specs.Journaled.{ports_seen};
ghost use Rattle.mg_lines.specs.Lines.{without_return};
ghost use Rattle.mg_serve.specs.Lines.{line_command, is_quit};
ghost use Rattle.mg_serve.specs.Session.{Performs};
ghost use Rattle.mg_serve.specs.aids.Driving.{BytesTaken, EndsBy, Finished, RanLines};
ghost use Rattle.mg_serve.specs.aids.Outside.{LeadsByTrace, new_journal, outside};

use crate::command::Command;
use crate::form::Form;
use crate::line::Line;
use crate::peripherals::Peripherals;
use crate::server::Server;
use crate::setup::Setup;
use mg_core::{Core, DATAGRAM_LIMIT, RunFault};
use mg_lines::{READ_SIZE, WriteFailed, read_some, without_return};
use std::alloc::{AllocError, Global};
use std::io::Read;

/// Drives a server with lines, which may arrive in pieces of any size.
#[derive(Drop)]
pub struct LineDriver<'a, P: Peripherals> {
    pub server: Server<'a, P::Monitor>,
    pub partial: Line,
}

impl<'a, P: Peripherals> LineDriver<'a, P> {
    /// Creates a driver for a gateway, before the first line.
    pub fn new(
        alloc: Global,
        core: Core,
        form: Form,
        setup: &Setup<'_>,
        monitor: &'a mut P::Monitor,
    ) -> Result<Self, AllocError>
        ensures core { IfOk result (λ driver. driver.server.core ≡ core) }
        ensures printer { IfOk result (λ driver.
            driver.server.printer ≡ record { form = form; has_failed = false }) }
        ensures journal { IfOk result (λ driver. driver.server.journal ≡ new_journal setup.now) }
        ensures partial { IfOk result (λ driver. driver.partial ≡ []) }
    {
        Ok(LineDriver {
            server: Server::new(alloc, core, form, setup, monitor)?,
            partial: Line::new(),
        })
    }

    /// Executes the partial line, which is now complete. Returns whether the line is `quit`.
    fn end_line(
        &mut self,
        setup: &Setup<'_>,
        ports: &mut P::Ports,
        buffer: &mut [u8],
        writer: &mut P::Output,
    ) -> Result<bool, WriteFailed>
        requires sound { IsValidConfig setup.now.config }
        requires room { length buffer.old ≤ DATAGRAM_LIMIT }
        requires whole { self.old.server.printer.has_failed ≡ false }
        requires few { self.old.server.journal.lacking + 1 < 2 ^ 64 }
        ensures partial { OnOk result (self.new.partial ≡ []) }
        ensures quit { IfOk result (λ quit. quit ≡ is_quit (line_command (without_return self.old.partial))) }
        ensures whole { OnOk result (self.new.server.printer.has_failed ≡ false) }
        ensures failed { IfErr result (λ failed. self.new.server.printer.has_failed ≡ true) }
        ensures value { LeadsByTrace self.old.server.core.state self.new.server.core.state
            (outside (ports_seen (P.Ports.calls ports.old) (P.Ports.journal ports.old)) (P.Output.contents writer.old)
            self.old.server.printer self.old.server.journal)
            (outside (ports_seen (P.Ports.calls ports.new) (P.Ports.journal ports.new)) (P.Output.contents writer.new)
            self.new.server.printer self.new.server.journal)
            (Performs setup.now (line_command (without_return self.old.partial))) }
        ensures few { self.new.server.journal.lacking ≤ self.old.server.journal.lacking + 1 }
    {
        let command = Command::of_line(without_return(self.partial.as_slice()));
        let quit = self
            .server
            .take_command(setup, ports, buffer, command, writer)?;
        self.partial.clear();
        Ok(quit)
    }

    /// Handles the next bytes of the input. Returns whether they complete a `quit` line.
    fn take_bytes(
        &mut self,
        setup: &Setup<'_>,
        ports: &mut P::Ports,
        buffer: &mut [u8],
        bytes: &[u8],
        writer: &mut P::Output,
    ) -> Result<bool, WriteFailed>
        requires sound { IsValidConfig setup.now.config }
        requires room { length buffer.old ≤ DATAGRAM_LIMIT }
        requires whole { self.old.server.printer.has_failed ≡ false }
        requires few { self.old.server.journal.lacking + length bytes.now < 2 ^ 64 }
        ensures whole { OnOk result (self.new.server.printer.has_failed ≡ false) }
        ensures failed { IfErr result (λ failed. self.new.server.printer.has_failed ≡ true) }
        ensures value { (partial : List ℕ) → self.old.partial ≡ take 8 partial
            → LeadsByTrace self.old.server.core.state self.new.server.core.state
            (outside (ports_seen (P.Ports.calls ports.old) (P.Ports.journal ports.old)) (P.Output.contents writer.old)
            self.old.server.printer self.old.server.journal)
            (outside (ports_seen (P.Ports.calls ports.new) (P.Ports.journal ports.new)) (P.Output.contents writer.new)
            self.new.server.printer self.new.server.journal)
            (BytesTaken self.old.server.printer.form setup.now partial bytes.now self.new.partial result) }
        ensures few { self.new.server.journal.lacking ≤ self.old.server.journal.lacking + length bytes.now }
    {
        for b in bytes {
            if *b != b'\n' {
                self.partial.push(*b);
                continue;
            }
            if self.end_line(setup, ports, buffer, writer)? {
                return Ok(true);
            }
        }
        Ok(false)
    }

    /// Executes the last line if it has no line feed.
    fn finish(
        &mut self,
        setup: &Setup<'_>,
        ports: &mut P::Ports,
        buffer: &mut [u8],
        writer: &mut P::Output,
    ) -> Result<(), WriteFailed>
        requires sound { IsValidConfig setup.now.config }
        requires room { length buffer.old ≤ DATAGRAM_LIMIT }
        requires whole { self.old.server.printer.has_failed ≡ false }
        requires few { self.old.server.journal.lacking + 1 < 2 ^ 64 }
        ensures value { LeadsByTrace self.old.server.core.state self.new.server.core.state
            (outside (ports_seen (P.Ports.calls ports.old) (P.Ports.journal ports.old)) (P.Output.contents writer.old)
            self.old.server.printer self.old.server.journal)
            (outside (ports_seen (P.Ports.calls ports.new) (P.Ports.journal ports.new)) (P.Output.contents writer.new)
            self.new.server.printer self.new.server.journal)
            (Finished setup.now self.old.partial) }
        ensures whole { OnOk result (self.new.server.printer.has_failed ≡ false) }
        ensures failed { IfErr result (λ failed. self.new.server.printer.has_failed ≡ true) }
    {
        let line = self.partial.as_slice();
        if line.is_empty() {
            return Ok(());
        }
        let command = Command::of_line(line);
        self.server
            .take_command(setup, ports, buffer, command, writer)?;
        Ok(())
    }

    /// Executes the lines of the input, up to the first `quit` or the end of the input.
    pub fn take_all<R: Read>(
        &mut self,
        setup: &Setup<'_>,
        ports: &mut P::Ports,
        buffer: &mut [u8],
        reader: &mut R,
        writer: &mut P::Output,
    ) -> Result<(), RunFault>
        requires sound { IsValidConfig setup.now.config }
        requires room { length buffer.old ≤ DATAGRAM_LIMIT }
        requires whole { self.old.server.printer.has_failed ≡ false }
        requires partial { self.old.partial ≡ [] }
        requires start { self.old.server.journal.lacking ≡ 0 }
        ensures ends { EndsBy result self.new.server.printer.has_failed }
        ensures started { result ≢ Err RunFault.BadConfig }
        ensures value { LeadsByTrace self.old.server.core.state self.new.server.core.state
            (outside (ports_seen (P.Ports.calls ports.old) (P.Ports.journal ports.old)) (P.Output.contents writer.old)
            self.old.server.printer self.old.server.journal)
            (outside (ports_seen (P.Ports.calls ports.new) (P.Ports.journal ports.new)) (P.Output.contents writer.new)
            self.new.server.printer self.new.server.journal)
            (RanLines self.old.server.printer.form setup.now (R.remaining reader.old) (R.remaining reader.new) result) }
    {
        let mut bytes = [0; READ_SIZE];
        for _ in 0..u32::MAX {
            let Ok(read) = read_some(reader, &mut bytes) else {
                return Err(RunFault::Read);
            };
            let Some(n) = read else {
                return match self.finish(setup, ports, buffer, writer) {
                    Ok(()) => Ok(()),
                    Err(_) => Err(RunFault::Write),
                };
            };
            match self.take_bytes(setup, ports, buffer, &bytes[..n], writer) {
                Ok(false) => {}
                Ok(true) => return Ok(()),
                Err(_) => return Err(RunFault::Write),
            }
        }
        Err(RunFault::Read)
    }
}
