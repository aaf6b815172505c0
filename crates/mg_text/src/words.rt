ghost use Rattle.std.specs.Prelude.{◌≡◌};
ghost use Rattle.mg_words.specs.Numbers.{number_of};
ghost use Rattle.mg_words.specs.ContextId.{context_id_of};
ghost use Rattle.mg_text.specs.Keyword.{keyword_of};
ghost use Rattle.mg_text.specs.Words.{by_keyword, context_word_named, audit_word_named, switch_of, range_of};
ghost use Rattle.mg_text.specs.aids.Words.{association_named, mode_named};

use crate::body::Range;
use crate::context_property::ContextWord;
use crate::descriptor::AuditWord;
use crate::from_word::FromWord;
use crate::keyword::{Keyword, keyword_of, same_word};
use mg_words::{Association, ContextId, Mode, context_id_of, cut, number_of};

impl FromWord for Keyword {
    ghost meaning = { keyword_of };

    fn from_word(text: &[u8]) -> Option<Keyword> {
        keyword_of(text)
    }
}

impl FromWord for u32 {
    ghost meaning = { number_of };

    fn from_word(text: &[u8]) -> Option<u32> {
        number_of(text)
    }
}

impl FromWord for ContextId {
    ghost meaning = { context_id_of };

    fn from_word(text: &[u8]) -> Option<ContextId> {
        context_id_of(text)
    }
}

impl FromWord for Association {
    ghost meaning = { by_keyword association_named };

    fn from_word(text: &[u8]) -> Option<Association> {
        match keyword_of(text) {
            Some(Keyword::Isolate) => Some(Association::Isolate),
            Some(Keyword::Oneway) => Some(Association::Oneway),
            Some(Keyword::Bothway) => Some(Association::Bothway),
            _ => None,
        }
    }
}

impl FromWord for ContextWord {
    ghost meaning = { by_keyword context_word_named };

    fn from_word(text: &[u8]) -> Option<ContextWord> {
        match keyword_of(text) {
            Some(Keyword::Topology) => Some(ContextWord::Topology),
            Some(Keyword::Priority) => Some(ContextWord::Priority),
            Some(Keyword::Emergency) => Some(ContextWord::Emergency),
            _ => None,
        }
    }
}

impl FromWord for AuditWord {
    ghost meaning = { by_keyword audit_word_named };

    fn from_word(text: &[u8]) -> Option<AuditWord> {
        match keyword_of(text) {
            Some(Keyword::Media) => Some(AuditWord::Media),
            Some(Keyword::Statistics) => Some(AuditWord::Statistics),
            Some(Keyword::Signals) => Some(AuditWord::Signals),
            Some(Keyword::Events) => Some(AuditWord::Events),
            Some(Keyword::Modem) => Some(AuditWord::Modem),
            Some(Keyword::Mux) => Some(AuditWord::Mux),
            Some(Keyword::DigitMap) => Some(AuditWord::DigitMap),
            Some(Keyword::EventBuffer) => Some(AuditWord::EventBuffer),
            Some(Keyword::ObservedEvents) => Some(AuditWord::ObservedEvents),
            Some(Keyword::Packages) => Some(AuditWord::Packages),
            _ => None,
        }
    }
}

impl FromWord for Mode {
    ghost meaning = { by_keyword mode_named };

    fn from_word(text: &[u8]) -> Option<Mode> {
        match keyword_of(text) {
            Some(Keyword::SendOnly) => Some(Mode::SendOnly),
            Some(Keyword::ReceiveOnly) => Some(Mode::ReceiveOnly),
            Some(Keyword::SendReceive) => Some(Mode::SendReceive),
            Some(Keyword::Inactive) => Some(Mode::Inactive),
            Some(Keyword::Loopback) => Some(Mode::Loopback),
            _ => None,
        }
    }
}

/// Parses `ON` as true and `OFF` as false.
impl FromWord for bool {
    ghost meaning = { switch_of };

    fn from_word(text: &[u8]) -> Option<bool> {
        if same_word(text, b"ON") {
            Some(true)
        } else if same_word(text, b"OFF") {
            Some(false)
        } else {
            None
        }
    }
}

/// Parses one number, or two with `-` between them.
impl FromWord for Range {
    ghost meaning = { range_of };

    fn from_word(text: &[u8]) -> Option<Range> {
        match cut(b'-', text) {
            Some((first, last)) => {
                let first = number_of(first)?;
                let last = number_of(last)?;
                Some(Range { first, last })
            }
            None => {
                let number = number_of(text)?;
                Some(Range {
                    first: number,
                    last: number,
                })
            }
        }
    }
}
