use mg_dates::DatedJournal;
use mg_host::{Environment, Journals};
use mg_journal::FileJournal;

/// The journal to which a gateway appends, or `None` if it keeps no journal.
pub type KeptJournal<'a, E> = Option<
    DatedJournal<
        'a,
        FileJournal<<<E as Environment>::Host as Journals>::File>,
        <E as Environment>::Clock,
    >,
>;
