ghost use Rattle.std.specs.Prelude.{◌≡◌, ◌≤◌, ◌++◌, ◌∷◌, [], false, length, codes, IfOk};
ghost use Rattle.mg_core.specs.declared.event.Event.TheVariants as events;
ghost use Rattle.mg_bytes.specs.Bytes.{appended};
ghost use Rattle.std.specs.Option.{option_map};
ghost use Rattle.mg_serve.specs.Serve.{opening};
ghost use Rattle.mg_serve.specs.Trace.{Happened, Noted, Printed, one_line};
ghost use Rattle.mg_serve.specs.aids.Printing.{Prints, Puts};

use crate::form::Form;
use mg_bytes::Bytes;
use mg_core::{DATAGRAM_LIMIT, EventLine, Peer};
use mg_lines::write_whole;
use std::alloc::{AllocError, Global};
use std::io::Write;
use std::marker::Model;

/// The maximum length of printed text, in bytes. Longer text is truncated.
const PRINTED_LIMIT: usize = 1000;

/// The maximum length of a text line, in bytes: the comment mark, the text, and a line feed.
const TEXT_ROOM: usize = 3 + PRINTED_LIMIT;

/// Prints the events and messages of a gateway, with one write per line. It flushes the writer after each tick and each
/// text. After printing has failed, it prints nothing more.
#[derive(Drop)]
pub struct Printer {
    form: Form,
    has_failed: bool,
    event: EventLine,
    text: Bytes,
}

impl Model for Printer {
    ghost use Rattle.std.specs.Prelude.{◌≡◌, ◌+◌, length};
    ghost use Rattle.mg_serve.specs.aids.Printing.{PrinterView};
    ghost use Rattle.mg_serve.specs.declared.printer.TheConstants.{TEXT_ROOM};

    ghost Value = { PrinterView };

    ghost view = { λ p. record { form = p.form; has_failed = p.has_failed } };

    ghost invariant = { λ p. p.text.room + length p.text.text ≡ TEXT_ROOM };
}

/// Writes `text`, unless an earlier write has failed.
fn put<W: Write>(has_failed: &mut bool, text: &[u8], writer: &mut W)
    requires some { ¬ (text.now ≡ []) }
    ensures value { Puts has_failed.old has_failed.new text.now (W.contents writer.old) (W.contents writer.new) }
{
    if !*has_failed {
        *has_failed = write_whole(text, writer).is_err();
    }
}

/// Writes `text`, unless an earlier write has failed, and then flushes the writer.
#[tactic(auto, using(crate::proofs::Printing::puts_kept))]
fn put_now<W: Write>(has_failed: &mut bool, text: &[u8], writer: &mut W)
    requires some { ¬ (text.now ≡ []) }
    ensures value { Puts has_failed.old has_failed.new text.now (W.contents writer.old) (W.contents writer.new) }
{
    put(has_failed, text, writer);
    let _ = writer.flush();
}

/// Appends `text` as one line, without a line feed at the end. Line feeds in the text are left out, and only the first
/// 1,000 of the other bytes are kept.
#[tactic(auto, using(crate::proofs::OneLine::short))]
fn push_line(text: &[u8], out: &mut Bytes)
    requires room { PRINTED_LIMIT ≤ out.old.room }
    ensures value { out.new ≡ appended out.old (one_line text.now) }
    ensures short { length (one_line text.now) ≤ PRINTED_LIMIT }
{
    let mut left = PRINTED_LIMIT;
    for b in text {
        if *b == b'\n' {
            continue;
        }
        if left == 0 {
            continue;
        }
        out.push(&[*b]);
        left -= 1;
    }
}

impl Printer {
    /// Creates a printer for output in this form. No other call allocates.
    pub fn new(alloc: Global, form: Form) -> Result<Self, AllocError>
        ensures value { IfOk result (λ printer. printer ≡ record { form = form; has_failed = false }) }
    {
        Ok(Printer {
            form,
            has_failed: false,
            event: EventLine::new(alloc)?,
            text: Bytes::new(alloc, TEXT_ROOM)?,
        })
    }

    /// Returns whether printing has failed.
    pub fn has_failed(&self) -> bool
        ensures value { result ≡ self.now.has_failed }
    {
        self.has_failed
    }

    /// Prints that a control datagram arrived, but only in a recording.
    pub fn control<W: Write>(&mut self, source: Peer, bytes: &[u8], writer: &mut W)
        requires short { length bytes.now ≤ DATAGRAM_LIMIT }
        ensures value { Prints self.old self.new (W.contents writer.old) (W.contents writer.new)
            (Happened (events.Control source bytes.now) ∷ []) }
    {
        match self.form {
            Form::Plain => {}
            Form::Recording => {
                self.event.control(source, bytes);
                put(&mut self.has_failed, self.event.as_slice(), writer);
            }
        }
    }

    /// Prints that an RTP datagram arrived at a media port, but only in a recording.
    pub fn media<W: Write>(&mut self, port: u16, source: Peer, bytes: &[u8], writer: &mut W)
        requires short { length bytes.now ≤ DATAGRAM_LIMIT }
        ensures value { Prints self.old self.new (W.contents writer.old) (W.contents writer.new)
            (Happened (events.Media port source bytes.now) ∷ []) }
    {
        match self.form {
            Form::Plain => {}
            Form::Recording => {
                self.event.media(port, source, bytes);
                put(&mut self.has_failed, self.event.as_slice(), writer);
            }
        }
    }

    /// Prints that a tick passed, but only in a recording.
    pub fn tick<W: Write>(&mut self, writer: &mut W)
        ensures value { Prints self.old self.new (W.contents writer.old) (W.contents writer.new)
            (Happened events.Tick ∷ []) }
    {
        match self.form {
            Form::Plain => {}
            Form::Recording => put_now(&mut self.has_failed, b"tick\n", writer),
        }
    }

    /// Prints one line that consists of `front` and `text`.
    fn put_line<W: Write>(&mut self, front: &[u8], text: &[u8], writer: &mut W)
        requires front { length front.now ≤ 2 }
        ensures form { self.new.form ≡ self.old.form }
        ensures value { Puts self.old.has_failed self.new.has_failed
            (front.now ++ (one_line text.now ++ codes "\n")) (W.contents writer.old) (W.contents writer.new) }
    {
        self.text.clear();
        self.text.push(front);
        push_line(text, &mut self.text);
        self.text.push(b"\n");
        put_now(&mut self.has_failed, self.text.as_slice(), writer);
    }

    /// Prints `text` as one line, for the gateway's driver. In a recording, the line is a comment.
    pub fn print<W: Write>(&mut self, text: &[u8], writer: &mut W)
        ensures value { Prints self.old self.new (W.contents writer.old) (W.contents writer.new)
            (Printed text.now ∷ []) }
    {
        match self.form {
            Form::Plain => self.put_line(b"", text, writer),
            Form::Recording => self.put_line(b"# ", text, writer),
        }
    }

    /// Prints `text` as a comment of one line, but only in a recording.
    pub fn note<W: Write>(&mut self, text: &[u8], writer: &mut W)
        ensures value { Prints self.old self.new (W.contents writer.old) (W.contents writer.new)
            (Noted text.now ∷ []) }
    {
        match self.form {
            Form::Plain => {}
            Form::Recording => self.put_line(b"# ", text, writer),
        }
    }

    /// Prints the title, if there is one and the output is a recording, and then `ready`.
    pub fn open<W: Write>(&mut self, title: Option<&[u8]>, writer: &mut W)
        ensures value { Prints self.old self.new (W.contents writer.old) (W.contents writer.new)
            (opening (option_map (λ text. text.now) title.entry)) }
    {
        match title {
            None => self.print(b"ready", writer),
            Some(text) => {
                self.note(text, writer);
                self.print(b"ready", writer);
            }
        }
    }
}
