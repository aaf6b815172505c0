ghost use Rattle.std.specs.Prelude.{◌≡◌, ◌-◌, length, slice_index};
ghost use Rattle.mg_journal.specs.Text.{EndsInLineFeed};
ghost use Rattle.mg_journal.specs.Journal.{JournalState, Appends, renewed, text_to_seal};
ghost use Rattle.mg_journal.specs.JournalFile.{Changes};
ghost use Rattle.mg_chain.specs.Seals.{IsSealEnd};

use crate::append_fault::AppendFault;
use crate::durability::Durability;
use mg_chain::END;

/// A text of complete lines that grows as lines are appended.
pub trait Journal {
    /// The known state of the journal.
    ghost journal: { Self → JournalState };

    /// Appends all of the lines or none, unless the journal breaks. The last line must end in a line feed. `durability`
    /// determines when the call returns.
    fn append(&mut self, lines: &[u8], durability: Durability) -> Result<(), AppendFault>
        requires line_feed { EndsInLineFeed lines.now }
        ensures value { Appends lines.now durability (journal self.old) (journal self.new) result };

    /// Returns the journal's size, in bytes, or 0 if it is broken.
    fn size(&self) -> u64;

    /// Returns whether whoever reads the journal's file finds the whole journal. If the system can't say, the answer is
    /// yes, unless the journal is broken.
    fn is_intact(&mut self) -> bool
        ensures same { journal self.new ≡ journal self.old };

    /// Replaces the journal by another one with this text, which ends in a line feed. So a broken journal works again.
    /// The old journal keeps a name that ends in the suffix. If the call fails, the journal is unchanged.
    fn renew(
        &mut self,
        text: &[u8],
        suffix: &str,
        durability: Durability,
    ) -> Result<(), AppendFault>
        requires line_feed { EndsInLineFeed text.now }
        ensures value { Changes (renewed text.now durability) (journal self.old) (journal self.new) result };

    /// Returns the end of the seal of the last part of the journal's text (`mg_chain`). If the journal is broken, it
    /// can be the seal of any text.
    fn seal_end(&self) -> [u8; END]
        ensures value { IsSealEnd (text_to_seal (journal self.now)) result };
}
