ghost use Rattle.std.specs.Prelude.{take};
ghost use Rattle.std.specs.Io.KnownBytes.{IsAtEnd};
ghost use Rattle.mg_hearing.specs.Page.{IsDigest};

use crate::digest::Digest;
use crate::hashed::{Hashed, program_digest};
use crate::text_key::TextKey;
use mg_heard::Extent;
use std::fs::Files;
use std::io::Read;

/// The origin of a page.
#[derive(Drop)]
pub(crate) struct Origin {
    /// The part of the script that was read.
    pub(crate) script: Digest,
    /// The time that the script covers, or `None` if the script was not read to its end.
    pub(crate) extent: Option<Extent>,
    /// The running program, or `None` if its file can't be read.
    pub(crate) program: Option<Digest>,
}

impl Origin {
    /// Returns the origin of a page about the script that `reader` supplies.
    pub(crate) fn of<F: Files, R: Read, K: TextKey>(
        files: &F,
        script: &Hashed<R, K>,
        extent: Option<Extent>,
    ) -> Self
        ensures script { IsAtEnd (R.remaining script.now.inner) → IsDigest K.text (take 64 result.script.end) }
    {
        Origin {
            script: script.digest(),
            extent,
            program: program_digest(files),
        }
    }
}
