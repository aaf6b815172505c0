use crate::journal_reader::JournalReader;
use mg_core::Core;
use mg_journal::{JournalFile, Opening};

/// A journal whose events were run, the gateway after these events, and a reader with the journal's timeline and
/// number.
#[derive(Drop)]
pub(crate) struct Resumed<F: JournalFile> {
    pub opening: Opening<F>,
    pub core: Core,
    pub reader: JournalReader,
}
