//! Builds and runs scripts.

use mg_core::{Config, Counts, RunFault, Shown, run};
use std::alloc::{AllocError, Global};
use std::io::{Read, Write};

/// A part of a script.
#[derive(Clone, Copy)]
pub enum Part<'a> {
    Text(&'a [u8]),
    /// The line of a frame that arrives at port 30000: its source, and its sequence number in hexadecimal.
    Frame(&'a [u8], &'a [u8]),
}

/// The digits of 160 equal bytes.
const FRAME: &[u8] = &[b'8'; 320];

fn push_part(script: &mut Vec<u8>, part: Part) -> Result<(), AllocError> {
    match part {
        Part::Text(text) => script.extend_from_slice(text),
        Part::Frame(source, sequence) => {
            for text in [
                b"rtp 30000 ".as_slice(),
                source,
                b" 8000",
                sequence,
                b"0000000000000063",
                FRAME,
                b"\n",
            ] {
                script.extend_from_slice(text)?;
            }
            Ok(())
        }
    }
}

fn push_parts(script: &mut Vec<u8>, part: Part, count: usize) -> Result<(), AllocError> {
    for _ in 0..count {
        push_part(script, part)?;
    }
    Ok(())
}

/// Joins the parts into a script. Each part is repeated as often as its number says.
pub fn script_of(alloc: Global, parts: &[(usize, Part)]) -> Result<Vec<u8>, AllocError> {
    let mut script = Vec::new(alloc);
    for (count, part) in parts {
        push_parts(&mut script, *part, *count)?;
    }
    Ok(script)
}

/// Runs a script with a given configuration. If the configuration were a literal here, the contract of a run would take
/// minutes to prove.
fn run_on<R: Read, W: Write>(
    alloc: Global,
    config: Config,
    shown: Shown,
    reader: &mut R,
    writer: &mut W,
) -> Result<Counts, RunFault> {
    run(alloc, config, shown, reader, writer)
}

/// Runs a script on a gateway with the standard configuration.
pub fn run_script<R: Read, W: Write>(
    alloc: Global,
    shown: Shown,
    reader: &mut R,
    writer: &mut W,
) -> Result<Counts, RunFault> {
    run_on(alloc, Config::default(), shown, reader, writer)
}
