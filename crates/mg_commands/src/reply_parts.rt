ghost use Rattle.std.specs.Prelude.{◌≡◌};
ghost use Rattle.mg_engine.specs.Gateway.{Gateway};
ghost use Rattle.mg_engine.specs.aids.Found.{HasStats};
ghost use Rattle.mg_commands.specs.Outcome.{whole_media, reply_media, reply_parts};

use crate::reply_descriptors::ReplyDescriptors;
use mg_engine::{Engine, Record};
use mg_reply::{Control, Media, Parts};

/// Returns all settings of a termination's media.
fn whole_media(termination: &Record) -> Media
    ensures value { result ≡ whole_media termination.now }
{
    Media::Whole {
        control: Control {
            mode: termination.mode,
            depth: termination.depth,
        },
        local: termination.local,
        remote: termination.remote,
    }
}

/// Returns all settings of a termination's media or only its Local, as requested. Returns `None` if neither is
/// requested. Also returns `None` if only the Local is requested and the termination has no Local.
fn reply_media(termination: &Record, descriptors: ReplyDescriptors) -> Option<Media>
    ensures value { result ≡ reply_media descriptors termination.now }
{
    if descriptors.media {
        Some(whole_media(termination))
    } else if descriptors.local {
        termination.local.map(Media::Local)
    } else {
        None
    }
}

/// Returns the parts with which a reply reports about a termination that the engine has, or had before it was
/// subtracted.
pub fn reply_parts(engine: &Engine, termination: &Record, descriptors: ReplyDescriptors) -> Parts
    ensures value { (w : Gateway) → HasStats engine.now w termination.now →
        result ≡ reply_parts descriptors w termination.now }
{
    Parts {
        media: reply_media(termination, descriptors),
        statistics: if descriptors.statistics {
            engine.slot_stats(termination.slot)
        } else {
            None
        },
    }
}
