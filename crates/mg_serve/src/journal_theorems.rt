//! Theorems about every session with a journal. The functions do nothing: their contracts are the theorems.

ghost use Rattle.mg_serve.specs.JournalLaws.{EachPartIsAMoment, NothingAnsweredIsForgotten, CrashesLoseSpeechOnly, RenewalsFollow, AnyCutIsAMoment, CutsResumeAMoment, PowerLossesForgetNoAnswer, JournalsTellWhoHears};

/// Every prefix of a session's trace ends at a moment, so the other theorems hold at any time.
///
/// A moment counts from the last successful renewal of the journal before it. There, the journal contains no events
/// yet, but begins with the checkpoint of the session's world. A gateway that is restored from this checkpoint begins
/// in the same world, except for what was received (`mg_checkpoint::theorems`). So the other theorems hold for that
/// gateway.
///
/// The contracts of [`serve`](crate::serve) and [`serve_by_clock`](crate::serve_by_clock) guarantee the premises about
/// the session. The other premises are that there is a journal, and what it contained at the start.
pub fn each_part_is_a_moment()
    ensures theorem { EachPartIsAMoment }
{
    mg_core::theorems::recordings_are_read();
    crate::theorems::sessions_are_runs();
}

/// Nothing answered is forgotten.
///
/// When a gateway with a journal answers a message that isn't oversized, the journal already contains each tick, and
/// each message that was handled, including this one. Only RTP datagrams and oversized messages are left out. If
/// messages are synced, all of the journal's text is on the disk.
pub fn nothing_answered_is_forgotten()
    ensures theorem { NothingAnsweredIsForgotten }
{
    mg_core::theorems::recordings_are_read();
}

/// A crash loses received RTP (speech and its counts) and a few ticks, and nothing else.
///
/// Running the journal's events leads to a world that agrees with the world before the crash, except for received RTP,
/// oversized messages and the last ticks, which the journal lacked. A message that had been appended, but neither
/// handled nor answered, is run too. The same holds each time a gateway resumes from its journal, and after a renewal
/// of the journal.
pub fn crashes_lose_speech_only()
    ensures crash { CrashesLoseSpeechOnly }
    ensures renewals { RenewalsFollow }
{
    mg_core::theorems::bases_stay_bases();
    mg_checkpoint::theorems::checkpoints_lose_speech_only();
    mg_core::theorems::recordings_are_read();
    mg_core::theorems::outcomes_are_unique();
    mg_core::theorems::rtp_changes_speech_only();
    crate::theorems::sessions_are_runs();
}

/// A journal describes a moment, wherever it is truncated.
///
/// Suppose a journal is truncated after any byte (of what follows its checkpoint, if it has one). Then its complete
/// lines contain the events up to an earlier moment, except for RTP datagrams and oversized messages. These lines may
/// end with a message that had been appended but not handled yet. A gateway that resumes from these lines is in the
/// state of that moment, or in the state after this message, except for received RTP and oversized messages. If
/// messages are synced and the machine loses power, that moment isn't earlier than the last answer to a message that
/// isn't oversized.
pub fn any_cut_is_a_moment()
    ensures cut { AnyCutIsAMoment }
    ensures resumes { CutsResumeAMoment }
    ensures power { PowerLossesForgetNoAnswer }
{
    mg_core::theorems::recordings_are_read();
    mg_core::theorems::outcomes_are_unique();
    mg_core::theorems::rtp_changes_speech_only();
    crate::theorems::sessions_are_runs();
}

/// A journal shows who could hear whom.
///
/// Running the journal's events up to any moment before a crash opens the flows that were open at that moment.
pub fn journals_tell_who_hears()
    ensures theorem { JournalsTellWhoHears }
{
    mg_core::theorems::outcomes_are_unique();
    mg_core::theorems::rtp_changes_speech_only();
    crate::theorems::sessions_are_runs();
}
