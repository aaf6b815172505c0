ghost use Rattle.std.specs.Prelude.{List, OnOk, ℕ};
ghost use Rattle.std.specs.Io.KnownBytes.{Appends};
ghost use Rattle.mg_hearing.specs.aids.Parts.{IsFront};

use crate::escaping::escaped;
use crate::page_text::{ANSWER, ASKED, FROM, LISTENER, TALKER, TITLE, UNTIL};
use crate::parts::write_parts;
use crate::words::{script_name, shown_party, time_word};
use mg_arguments::HeardRequest;
use std::alloc::Global;
use std::io::{self, Write};

/// Writes a page up to its table. This part of the page states the question.
pub(crate) fn write_front<W: Write>(
    alloc: Global,
    request: &HeardRequest,
    output: &mut W,
) -> io::Result<()>
    ensures value { OnOk result ((front : List ℕ) × IsFront request.now front
        × Appends (W.contents output.old) (W.contents output.new) front) }
{
    let name = script_name(alloc, &request.file, &request.later)?;
    let name = escaped(alloc, name.as_slice())?;
    let listener = shown_party(alloc, &request.query.listener)?;
    let talker = shown_party(alloc, &request.query.talker)?;
    let from = time_word(request.query.from, b"the beginning");
    let until = time_word(request.query.until, b"the end");
    let from = escaped(alloc, from.as_slice())?;
    let until = escaped(alloc, until.as_slice())?;
    write_parts(
        &[
            TITLE,
            name.as_slice(),
            ASKED,
            name.as_slice(),
            LISTENER,
            listener.as_slice(),
            TALKER,
            talker.as_slice(),
            FROM,
            from.as_slice(),
            UNTIL,
            until.as_slice(),
            ANSWER,
        ],
        output,
    )
}
