ghost use Rattle.std.specs.Prelude.{◌≡◌};
ghost use Rattle.std.specs.Option.{option_or};
ghost use Rattle.mg_commands.specs.aids.Findings.{no_parameters, asked_with};
ghost use Rattle.mg_commands.specs.CommandParameters.{mode_in, frames_for, depth_in, setting_of, local_in, remote_in};

use crate::part::Part;
use crate::support::{is_jitter, jitter_of};
use mg_engine::{MediaSetting, Mode, Settings};
use mg_scan::Span;
use mg_sdp::read_sessions;
use mg_text::{AuditWord, ControlPart};
use mg_words::FRAME_MS;

/// The parameters that a command's descriptors request.
#[derive(Drop)]
pub struct CommandParameters {
    /// The settings that the command changes.
    pub settings: Settings,
    /// Whether the command has an Audit descriptor.
    pub has_audit: bool,
    /// Whether the command audits the media.
    pub audits_media: bool,
    /// Whether the command audits the statistics.
    pub audits_statistics: bool,
}

/// Returns the depth, in frames of 20 ms, of a play list that holds this many milliseconds, rounded up.
fn frames_for(jitter: u16) -> u16
    ensures value { result ≡ frames_for jitter }
{
    jitter.div_ceil(FRAME_MS)
}

/// Returns the setting requested by the content of a Local or Remote.
fn setting_of(source: &[u8], text: Span) -> MediaSetting
    ensures value { result ≡ setting_of source.now text }
{
    match read_sessions(text.text(source)) {
        Ok(sessions) => MediaSetting::Offer(sessions),
        Err(_) => MediaSetting::Unreadable,
    }
}

/// Stores a part's mode, unless a mode is already stored.
fn keep_mode(kept: &mut Option<Mode>, part: Part)
    ensures value { kept.new ≡ option_or kept.old (mode_in part) }
{
    if kept.is_none() {
        if let Part::Control(_, ControlPart::Mode(mode)) = part {
            *kept = Some(mode);
        }
    }
}

fn depth_in(source: &[u8], part: Part) -> Option<u16>
    ensures value { result ≡ depth_in source.now part }
{
    match part {
        Part::Control(_, ControlPart::Property(name, value)) if is_jitter(source, name) => {
            jitter_of(source, value).map(frames_for)
        }
        _ => None,
    }
}

/// Stores a part's depth, unless a depth is already stored.
fn keep_depth(kept: &mut Option<u16>, source: &[u8], part: Part)
    ensures value { kept.new ≡ option_or kept.old (depth_in source.now part) }
{
    if kept.is_none() {
        *kept = depth_in(source, part);
    }
}

/// Stores the content of a Local, unless the content of an earlier Local is already stored.
fn keep_local(kept: &mut Option<MediaSetting>, source: &[u8], part: Part)
    ensures value { kept.new ≡ option_or kept.old (local_in source.now part) }
{
    if kept.is_none() {
        if let Part::Local(_, text) = part {
            *kept = Some(setting_of(source, text));
        }
    }
}

/// Stores the content of a Remote, unless the content of an earlier Remote is already stored.
fn keep_remote(kept: &mut Option<MediaSetting>, source: &[u8], part: Part)
    ensures value { kept.new ≡ option_or kept.old (remote_in source.now part) }
{
    if kept.is_none() {
        if let Part::Remote(_, text) = part {
            *kept = Some(setting_of(source, text));
        }
    }
}

impl CommandParameters {
    /// Returns the parameters of a command without descriptors.
    pub fn no_parameters() -> CommandParameters
        ensures value { result ≡ no_parameters }
    {
        CommandParameters {
            settings: Settings::default(),
            has_audit: false,
            audits_media: false,
            audits_statistics: false,
        }
    }

    /// Stores the value of a part, unless an earlier part of the same kind had one.
    pub fn take(&mut self, source: &[u8], part: Part)
        ensures value { self.new ≡ asked_with source.now self.old part }
    {
        keep_mode(&mut self.settings.mode, part);
        keep_depth(&mut self.settings.depth, source, part);
        keep_local(&mut self.settings.local, source, part);
        keep_remote(&mut self.settings.remote, source, part);
        match part {
            Part::Audit => self.has_audit = true,
            Part::Audited(AuditWord::Media) => self.audits_media = true,
            Part::Audited(AuditWord::Statistics) => self.audits_statistics = true,
            _ => {}
        }
    }
}
