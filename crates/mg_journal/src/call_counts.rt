use crate::file_call::FileCall;

/// The number of calls of each kind so far.
#[derive(Clone, Copy, Default)]
pub(crate) struct CallCounts {
    reads: u64,
    writes: u64,
    cuts: u64,
    syncs: u64,
    files: u64,
    names: u64,
    replacements: u64,
}

impl CallCounts {
    /// Counts a call. Returns the number of earlier calls of the same kind.
    pub(crate) fn count(&mut self, call: FileCall) -> u64 {
        let before = *self;
        match call {
            FileCall::Read => {
                self.reads = before.reads.wrapping_add(1);
                before.reads
            }
            FileCall::Write => {
                self.writes = before.writes.wrapping_add(1);
                before.writes
            }
            FileCall::Cut => {
                self.cuts = before.cuts.wrapping_add(1);
                before.cuts
            }
            FileCall::Sync => {
                self.syncs = before.syncs.wrapping_add(1);
                before.syncs
            }
            FileCall::CreateNext => {
                self.files = before.files.wrapping_add(1);
                before.files
            }
            FileCall::Keep => {
                self.names = before.names.wrapping_add(1);
                before.names
            }
            FileCall::Replace => {
                self.replacements = before.replacements.wrapping_add(1);
                before.replacements
            }
        }
    }
}
