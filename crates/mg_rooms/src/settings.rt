ghost use Rattle.std.specs.Prelude.{◌≡◌, ◌≤◌, Some, unwrap_or};
ghost use Rattle.mg_words.specs.declared.limits.TheConstants.{MIN_DEPTH, MAX_DEPTH};
ghost use Rattle.mg_rooms.specs.Settings.{offered, media_after, depth_after};
ghost use Rattle.mg_sdp.specs.Choice.{local_choice, remote_choice};

use crate::media_setting::MediaSetting;
use mg_sdp::{Chosen, Sessions, choose, choose_remote};
use mg_words::{ErrorNumber, MAX_DEPTH, MIN_DEPTH, Mode};

/// The settings that a command specifies. All other settings are unchanged.
#[derive(Debug, Default, Drop)]
pub struct Settings {
    /// The mode of the stream.
    pub mode: Option<Mode>,
    /// The depth of the play list, in frames of 20 ms. It is limited to 2–16 when it is set (see [`depth_within`]).
    pub depth: Option<u16>,
    /// The media that the gateway should receive.
    pub local: Option<MediaSetting>,
    /// The media that the gateway should send.
    pub remote: Option<MediaSetting>,
}

/// Limits a depth, in frames of 20 ms, to the range from [`MIN_DEPTH`] to [`MAX_DEPTH`].
pub fn depth_within(depth: u16) -> u8
    ensures value { result ≡ depth_after (Some depth) depth }
    ensures at_least { MIN_DEPTH ≤ result }
    ensures at_most { result ≤ MAX_DEPTH }
{
    depth.max(MIN_DEPTH as u16).min(MAX_DEPTH as u16) as u8
}

impl Settings {
    /// Returns the mode after the command.
    pub(crate) fn mode_after(&self, old: Mode) -> Mode
        ensures value { result ≡ unwrap_or self.now.mode old }
    {
        self.mode.unwrap_or(old)
    }

    /// Returns the depth after the command.
    pub(crate) fn depth_after(&self, old: u8) -> u8
        ensures value { result ≡ depth_after self.now.depth old }
    {
        match self.depth {
            Some(depth) => depth_within(depth),
            None => old,
        }
    }

    /// Returns the Local after the command, with the gateway's address and the termination's port. Returns an error if
    /// the command's Local is not acceptable.
    pub(crate) fn local_after(
        &self,
        old: Option<Chosen>,
        address: [u8; 4],
        port: u16,
    ) -> Result<Option<Chosen>, ErrorNumber>
        ensures value { result ≡ media_after (local_choice address port) self.now.local old }
    {
        match &self.local {
            None => Ok(old),
            Some(MediaSetting::Clear) => Ok(None),
            Some(MediaSetting::Offer(sessions)) => chosen_local(sessions, address, port),
            Some(MediaSetting::Unreadable) => Err(ErrorNumber::NoMedia),
        }
    }

    /// Returns the Remote after the command, or an error if the command's Remote is not acceptable.
    pub(crate) fn remote_after(&self, old: Option<Chosen>) -> Result<Option<Chosen>, ErrorNumber>
        ensures value { result ≡ media_after remote_choice self.now.remote old }
    {
        match &self.remote {
            None => Ok(old),
            Some(MediaSetting::Clear) => Ok(None),
            Some(MediaSetting::Offer(sessions)) => chosen_remote(sessions),
            Some(MediaSetting::Unreadable) => Err(ErrorNumber::NoMedia),
        }
    }
}

/// Returns the choice from a Local's alternatives, or `None` if it has no alternatives. Fails if it has alternatives,
/// but none of them is acceptable.
#[tactic(auto, using(crate::proofs::SettingsLemmas::rules))]
fn chosen_local(
    sessions: &Sessions,
    address: [u8; 4],
    port: u16,
) -> Result<Option<Chosen>, ErrorNumber>
    ensures value { result ≡ offered (local_choice address port) sessions.now }
{
    if sessions.is_blank() {
        return Ok(None);
    }
    let chosen = choose(sessions, address, port).ok_or(ErrorNumber::NoMedia)?;
    Ok(Some(chosen))
}

/// Returns the choice from a Remote's alternatives, or `None` if it has no alternatives. Fails if it has alternatives,
/// but none of them is acceptable.
#[tactic(auto, using(crate::proofs::SettingsLemmas::rules))]
fn chosen_remote(sessions: &Sessions) -> Result<Option<Chosen>, ErrorNumber>
    ensures value { result ≡ offered remote_choice sessions.now }
{
    if sessions.is_blank() {
        return Ok(None);
    }
    let chosen = choose_remote(sessions).ok_or(ErrorNumber::NoMedia)?;
    Ok(Some(chosen))
}
