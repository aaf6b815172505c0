ghost use Rattle.std.specs.Prelude.{◌≡◌, codes, decimal};
ghost use Rattle.mg_reply.specs.aids.Draft.{drafted};
ghost use Rattle.mg_reply.specs.Listed.{listed, grouped};
ghost use Rattle.mg_reply.specs.Media.{control_text, local_text, remote_text, optional, media_text, statistics_text, reported_parts, reported_stream};

use crate::control::Control;
use crate::draft::Draft;
use crate::media::Media;
use crate::outcome::Parts;
use itoa::Buffer;
use mg_sdp::{Chosen, write_local, write_remote};
use mg_words::{FRAME_MS, Stats};

/// Appends a number in decimal.
pub(crate) fn put_number(draft: &mut Draft, n: u64)
    ensures value { draft.new ≡ drafted draft.old (decimal n) }
{
    let mut buffer = Buffer::new();
    draft.put(buffer.format(n).as_bytes());
}

/// Appends the mode and the depth of the play list.
#[tactic(auto, using(crate::proofs::DraftLemmas::joins), unfolding(crate::specs::Media::control_text))]
fn put_control(draft: &mut Draft, control: Control)
    ensures value { draft.new ≡ drafted draft.old (control_text control) }
{
    draft.put(b"LocalControl{Mode=");
    draft.put(control.mode.as_str().as_bytes());
    draft.put(b",nt/jit=");
    put_number(draft, u64::from(FRAME_MS) * u64::from(control.depth));
    draft.put(b"}");
}

#[tactic(auto, using(crate::proofs::DraftLemmas::joins), unfolding(crate::specs::Media::local_text))]
fn put_local(draft: &mut Draft, chosen: &Chosen)
    ensures value { draft.new ≡ drafted draft.old (local_text chosen.now) }
{
    draft.put(b"Local{");
    draft.put(write_local(chosen).as_slice());
    draft.put(b"}");
}

#[tactic(auto, using(crate::proofs::DraftLemmas::joins), unfolding(crate::specs::Media::remote_text))]
fn put_remote(draft: &mut Draft, chosen: &Chosen)
    ensures value { draft.new ≡ drafted draft.old (remote_text chosen.now) }
{
    draft.put(b"Remote{");
    draft.put(write_remote(chosen).as_slice());
    draft.put(b"}");
}

/// If the Local was set, appends a comma and the Local.
#[tactic(auto, using(crate::proofs::DraftLemmas::joins), unfolding(crate::specs::Listed::listed))]
fn put_next_local(draft: &mut Draft, local: Option<Chosen>)
    ensures value { draft.new ≡ drafted draft.old (listed (codes ",") (optional local_text local)) }
{
    match local {
        Some(chosen) => {
            draft.put(b",");
            put_local(draft, &chosen);
        }
        None => draft.put(b""),
    }
}

/// If the Remote was set, appends a comma and the Remote.
#[tactic(auto, using(crate::proofs::DraftLemmas::joins), unfolding(crate::specs::Listed::listed))]
fn put_next_remote(draft: &mut Draft, remote: Option<Chosen>)
    ensures value { draft.new ≡ drafted draft.old (listed (codes ",") (optional remote_text remote)) }
{
    match remote {
        Some(chosen) => {
            draft.put(b",");
            put_remote(draft, &chosen);
        }
        None => draft.put(b""),
    }
}

/// Appends the whole stream in braces, as for an audit.
#[tactic(auto, using(crate::proofs::StreamLemmas::whole))]
fn put_whole(draft: &mut Draft, control: Control, local: Option<Chosen>, remote: Option<Chosen>)
    ensures value { draft.new ≡ drafted draft.old (grouped (reported_stream (Media.Whole control local remote))) }
{
    draft.put(b"{");
    put_control(draft, control);
    put_next_local(draft, local);
    put_next_remote(draft, remote);
    draft.put(b"}");
}

/// Appends the parts of a stream, in braces.
#[tactic(auto, using(crate::proofs::DraftLemmas::joins), unfolding(crate::specs::Listed::listed))]
fn put_stream(draft: &mut Draft, media: Media)
    ensures value { draft.new ≡ drafted draft.old (grouped (reported_stream media)) }
{
    match media {
        Media::Local(chosen) => {
            draft.put(b"{");
            put_local(draft, &chosen);
            draft.put(b"}");
        }
        Media::Whole {
            control,
            local,
            remote,
        } => put_whole(draft, control, local, remote),
    }
}

#[tactic(auto, using(crate::proofs::DraftLemmas::joins), unfolding(crate::specs::Media::media_text))]
fn put_media(draft: &mut Draft, media: Media)
    ensures value { draft.new ≡ drafted draft.old (media_text media) }
{
    draft.put(b"Media{Stream=1");
    put_stream(draft, media);
    draft.put(b"}");
}

#[tactic(auto, using(crate::proofs::DraftLemmas::joins), unfolding(crate::specs::Media::statistics_text))]
fn put_statistics(draft: &mut Draft, statistics: Stats)
    ensures value { draft.new ≡ drafted draft.old (statistics_text statistics) }
{
    draft.put(b"Statistics{rtp/ps=");
    put_number(draft, statistics.ps);
    draft.put(b",rtp/pr=");
    put_number(draft, statistics.pr);
    draft.put(b",nt/os=");
    put_number(draft, statistics.os);
    draft.put(b",nt/or=");
    put_number(draft, statistics.or_);
    draft.put(b"}");
}

/// Appends the parts of a command's outcome in braces, or nothing if the outcome has no parts.
#[tactic(auto, using(crate::proofs::DraftLemmas::joins), unfolding(crate::specs::Listed::listed))]
pub(crate) fn put_parts(draft: &mut Draft, parts: Parts)
    ensures value { draft.new ≡ drafted draft.old (grouped (reported_parts parts)) }
{
    match (parts.media, parts.statistics) {
        (None, None) => draft.put(b""),
        (Some(media), None) => {
            draft.put(b"{");
            put_media(draft, media);
            draft.put(b"}");
        }
        (None, Some(statistics)) => {
            draft.put(b"{");
            put_statistics(draft, statistics);
            draft.put(b"}");
        }
        (Some(media), Some(statistics)) => {
            draft.put(b"{");
            put_media(draft, media);
            draft.put(b",");
            put_statistics(draft, statistics);
            draft.put(b"}");
        }
    }
}
