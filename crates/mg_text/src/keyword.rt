ghost use Rattle.std.specs.Prelude.{◌≡◌, find};
ghost use Rattle.std.specs.Str.{str_eq_ignore_ascii_case};
ghost use Rattle.mg_text.specs.Keyword.{forms_of, is_named, keyword_of};
ghost use Rattle.mg_text.specs.aids.Keywords.{words_by};

/// The keywords of the encoding. Each has a long and a short form; case is ignored.
#[derive(Clone, Copy, Debug, PartialEq, Eq)]
pub enum Keyword {
    Transaction,
    Reply,
    Pending,
    TransactionResponseAck,
    Context,
    ContextAudit,
    Add,
    Modify,
    Move,
    Subtract,
    AuditValue,
    AuditCapability,
    Notify,
    ServiceChange,
    Audit,
    Media,
    Stream,
    LocalControl,
    Local,
    Remote,
    TerminationState,
    Mode,
    SendOnly,
    ReceiveOnly,
    SendReceive,
    Inactive,
    Loopback,
    Topology,
    Isolate,
    Oneway,
    Bothway,
    ReservedValue,
    ReservedGroup,
    Statistics,
    Error,
    Signals,
    Events,
    Modem,
    Mux,
    DigitMap,
    EventBuffer,
    ObservedEvents,
    Packages,
    Priority,
    Emergency,
}

impl Keyword {
    #[tactic(auto, unfolding(crate::specs::Keyword::forms_of))]
    fn long(self) -> &'static str
        ensures value { result.now ≡ (forms_of self).0 }
    {
        match self {
            Keyword::Transaction => "Transaction",
            Keyword::Reply => "Reply",
            Keyword::Pending => "Pending",
            Keyword::TransactionResponseAck => "TransactionResponseAck",
            Keyword::Context => "Context",
            Keyword::ContextAudit => "ContextAudit",
            Keyword::Add => "Add",
            Keyword::Modify => "Modify",
            Keyword::Move => "Move",
            Keyword::Subtract => "Subtract",
            Keyword::AuditValue => "AuditValue",
            Keyword::AuditCapability => "AuditCapability",
            Keyword::Notify => "Notify",
            Keyword::ServiceChange => "ServiceChange",
            Keyword::Audit => "Audit",
            Keyword::Media => "Media",
            Keyword::Stream => "Stream",
            Keyword::LocalControl => "LocalControl",
            Keyword::Local => "Local",
            Keyword::Remote => "Remote",
            Keyword::TerminationState => "TerminationState",
            Keyword::Mode => "Mode",
            Keyword::SendOnly => "SendOnly",
            Keyword::ReceiveOnly => "ReceiveOnly",
            Keyword::SendReceive => "SendReceive",
            Keyword::Inactive => "Inactive",
            Keyword::Loopback => "Loopback",
            Keyword::Topology => "Topology",
            Keyword::Isolate => "Isolate",
            Keyword::Oneway => "Oneway",
            Keyword::Bothway => "Bothway",
            Keyword::ReservedValue => "ReservedValue",
            Keyword::ReservedGroup => "ReservedGroup",
            Keyword::Statistics => "Statistics",
            Keyword::Error => "Error",
            Keyword::Signals => "Signals",
            Keyword::Events => "Events",
            Keyword::Modem => "Modem",
            Keyword::Mux => "Mux",
            Keyword::DigitMap => "DigitMap",
            Keyword::EventBuffer => "EventBuffer",
            Keyword::ObservedEvents => "ObservedEvents",
            Keyword::Packages => "Packages",
            Keyword::Priority => "Priority",
            Keyword::Emergency => "Emergency",
        }
    }

    #[tactic(auto, unfolding(crate::specs::Keyword::forms_of))]
    fn short(self) -> &'static str
        ensures value { result.now ≡ (forms_of self).1 }
    {
        match self {
            Keyword::Transaction => "T",
            Keyword::Reply => "P",
            Keyword::Pending => "PN",
            Keyword::TransactionResponseAck => "K",
            Keyword::Context => "C",
            Keyword::ContextAudit => "CA",
            Keyword::Add => "A",
            Keyword::Modify => "MF",
            Keyword::Move => "MV",
            Keyword::Subtract => "S",
            Keyword::AuditValue => "AV",
            Keyword::AuditCapability => "AC",
            Keyword::Notify => "N",
            Keyword::ServiceChange => "SC",
            Keyword::Audit => "AT",
            Keyword::Media => "M",
            Keyword::Stream => "ST",
            Keyword::LocalControl => "O",
            Keyword::Local => "L",
            Keyword::Remote => "R",
            Keyword::TerminationState => "TS",
            Keyword::Mode => "MO",
            Keyword::SendOnly => "SO",
            Keyword::ReceiveOnly => "RC",
            Keyword::SendReceive => "SR",
            Keyword::Inactive => "IN",
            Keyword::Loopback => "LB",
            Keyword::Topology => "TP",
            Keyword::Isolate => "IS",
            Keyword::Oneway => "OW",
            Keyword::Bothway => "BW",
            Keyword::ReservedValue => "RV",
            Keyword::ReservedGroup => "RG",
            Keyword::Statistics => "SA",
            Keyword::Error => "ER",
            Keyword::Signals => "SG",
            Keyword::Events => "E",
            Keyword::Modem => "MD",
            Keyword::Mux => "MX",
            Keyword::DigitMap => "DM",
            Keyword::EventBuffer => "EB",
            Keyword::ObservedEvents => "OE",
            Keyword::Packages => "PG",
            Keyword::Priority => "PR",
            Keyword::Emergency => "EG",
        }
    }
}

/// Compares two words of equal length, ignoring case.
///
/// This function is separate from [`same_word`], which rarely calls it, because most words differ in length.
#[inline(never)]
#[tactic(auto, using(crate::proofs::KeywordLemmas::exact))]
fn same_letters(a: &[u8], b: &[u8]) -> bool
    ensures value { result ≡ str_eq_ignore_ascii_case a.now b.now }
{
    a == b || a.eq_ignore_ascii_case(b)
}

/// Returns whether two words are equal, ignoring case.
#[tactic(auto, using(mg_words::proofs::CutLemmas::same_len))]
pub fn same_word(a: &[u8], b: &[u8]) -> bool
    ensures value { result ≡ str_eq_ignore_ascii_case a.now b.now }
{
    a.len() == b.len() && same_letters(a, b)
}

/// Returns whether a string is one of the two forms of a keyword.
#[tactic(auto, unfolding(crate::specs::Keyword::is_named))]
pub fn is_named(text: &[u8], keyword: Keyword) -> bool
    ensures value { result ≡ is_named text.now keyword }
{
    same_word(text, keyword.long().as_bytes()) || same_word(text, keyword.short().as_bytes())
}

/// Returns the keywords that have a form starting with this lower-case letter.
#[tactic(auto, unfolding(crate::specs::aids::Keywords::words_by, crate::specs::Keyword::forms_of))]
fn words_by(letter: u8) -> &'static [Keyword]
    ensures value { result.now ≡ words_by letter }
{
    match letter {
        b'a' => &[
            Keyword::Add,
            Keyword::AuditValue,
            Keyword::AuditCapability,
            Keyword::Audit,
        ],
        b'b' => &[Keyword::Bothway],
        b'c' => &[Keyword::Context, Keyword::ContextAudit],
        b'd' => &[Keyword::DigitMap],
        b'e' => &[
            Keyword::Error,
            Keyword::Events,
            Keyword::EventBuffer,
            Keyword::Emergency,
        ],
        b'i' => &[Keyword::Inactive, Keyword::Isolate],
        b'k' => &[Keyword::TransactionResponseAck],
        b'l' => &[Keyword::LocalControl, Keyword::Local, Keyword::Loopback],
        b'm' => &[
            Keyword::Modify,
            Keyword::Move,
            Keyword::Media,
            Keyword::Mode,
            Keyword::Modem,
            Keyword::Mux,
        ],
        b'n' => &[Keyword::Notify],
        b'o' => &[
            Keyword::LocalControl,
            Keyword::Oneway,
            Keyword::ObservedEvents,
        ],
        b'p' => &[
            Keyword::Reply,
            Keyword::Pending,
            Keyword::Packages,
            Keyword::Priority,
        ],
        b'r' => &[
            Keyword::Reply,
            Keyword::Remote,
            Keyword::ReceiveOnly,
            Keyword::ReservedValue,
            Keyword::ReservedGroup,
        ],
        b's' => &[
            Keyword::Subtract,
            Keyword::ServiceChange,
            Keyword::Stream,
            Keyword::SendOnly,
            Keyword::SendReceive,
            Keyword::Statistics,
            Keyword::Signals,
        ],
        b't' => &[
            Keyword::Transaction,
            Keyword::TransactionResponseAck,
            Keyword::TerminationState,
            Keyword::Topology,
        ],
        _ => &[],
    }
}

/// Returns the first keyword in the list that matches the text, in its long or short form, or `None` if none matches.
fn word_among(words: &[Keyword], text: &[u8]) -> Option<Keyword>
    ensures value { result ≡ find (is_named text.now) words.now }
{
    words
        .iter()
        .copied()
        .find(|keyword| is_named(text, *keyword))
}

/// Returns the keyword that the text spells, in either form, or `None` if it doesn't spell a keyword.
///
/// Only keywords that have a form with the text's first letter are tried, and only forms of the text's length are
/// compared.
pub fn keyword_of(text: &[u8]) -> Option<Keyword>
    ensures value { result ≡ keyword_of text.now }
{
    match text {
        [] => None,
        [first, ..] => word_among(words_by(first.to_ascii_lowercase()), text),
    }
}
