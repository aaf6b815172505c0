ghost use Rattle.std.specs.Prelude.{◌≡◌};
ghost use Rattle.mg_commands.specs.ReplyDescriptors.{is_offer, descriptors_after, descriptors_by_audit, descriptors_before};

use crate::command_parameters::CommandParameters;
use mg_engine::MediaSetting;

/// The descriptors with which a reply reports about a termination.
#[derive(Clone, Copy)]
pub struct ReplyDescriptors {
    /// Whether the reply includes all settings of the termination's media.
    pub media: bool,
    /// Whether the reply includes the termination's Local. No effect if `media` is set.
    pub local: bool,
    /// Whether the reply includes the termination's counters.
    pub statistics: bool,
}

/// Returns whether a non-blank Local was set.
fn is_offer(setting: &Option<MediaSetting>) -> bool
    ensures value { result ≡ is_offer setting.now }
{
    match setting {
        Some(MediaSetting::Offer(sessions)) => !sessions.is_blank(),
        Some(MediaSetting::Clear | MediaSetting::Unreadable) | None => false,
    }
}

impl ReplyDescriptors {
    /// Returns the descriptors after an Add, Modify or Move: the descriptors that the command audits and, if it set a
    /// non-blank Local, this Local.
    pub fn after(parameters: &CommandParameters) -> ReplyDescriptors
        ensures value { result ≡ descriptors_after parameters.now }
    {
        ReplyDescriptors {
            media: parameters.audits_media,
            local: is_offer(&parameters.settings.local),
            statistics: parameters.audits_statistics,
        }
    }

    /// Returns the descriptors for an AuditValue: the descriptors that the command audits.
    pub fn by_audit(parameters: &CommandParameters) -> ReplyDescriptors
        ensures value { result ≡ descriptors_by_audit parameters.now }
    {
        ReplyDescriptors {
            media: parameters.audits_media,
            local: false,
            statistics: parameters.audits_statistics,
        }
    }

    /// Returns the descriptors before a Subtract: the descriptors that the command audits or, without an audit, the
    /// counters.
    pub fn before(parameters: &CommandParameters) -> ReplyDescriptors
        ensures value { result ≡ descriptors_before parameters.now }
    {
        ReplyDescriptors {
            media: parameters.audits_media,
            local: false,
            statistics: parameters.audits_statistics || !parameters.has_audit,
        }
    }
}
