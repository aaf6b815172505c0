ghost use Rattle.std.specs.Option.{option_map_or};
ghost use Rattle.mg_journal.specs.Journal.{no_journal};

use crate::append_fault::AppendFault;
use crate::durability::Durability;
use crate::journal::Journal;
use mg_chain::{Chain, END};

/// A journal that may be absent. If it is absent, each append and each renewal fails with `Broken`.
impl<J: Journal> Journal for Option<J> {
    ghost journal = { λ j. option_map_or J.journal j no_journal };

    fn append(&mut self, lines: &[u8], durability: Durability) -> Result<(), AppendFault> {
        match self {
            Some(journal) => journal.append(lines, durability),
            None => Err(AppendFault::Broken),
        }
    }

    fn size(&self) -> u64 {
        match self {
            Some(journal) => journal.size(),
            None => 0,
        }
    }

    fn is_intact(&mut self) -> bool {
        match self {
            Some(journal) => journal.is_intact(),
            None => false,
        }
    }

    fn renew(
        &mut self,
        text: &[u8],
        suffix: &str,
        durability: Durability,
    ) -> Result<(), AppendFault> {
        match self {
            Some(journal) => journal.renew(text, suffix, durability),
            None => Err(AppendFault::Broken),
        }
    }

    fn seal_end(&self) -> [u8; END] {
        match self {
            Some(journal) => journal.seal_end(),
            None => Chain::new().seal_end(),
        }
    }
}
